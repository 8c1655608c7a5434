//! The edges of a complex, from its vertices.
//!
//! Each svertex of each vertex is an end of an edge. The ends at which edges arrive, from earlier vertices, are sorted
//! once, by their lines and vertices. The partner of an end that leads on is the first arriving end after it in that
//! order: vertices stand in the order of their points, which is the order along every line.
//!
//! Most edges of a result are edges of its operands: those that still join svertices are laid out first. Only the ends
//! without such an edge are sorted and paired, with the ends of edges that may be cut between them. Each edge is
//! checked alone: where its ends lead to each other, and no two edges to one end, nothing lies between.
#![tactic(auto)]

mod along;
mod arriving;
mod edge_end;
mod ends;
mod guessed;
mod guesses;
mod kept;
mod laws;
mod loose;
mod pairing;

pub use laws::matching_laws;
pub use pairing::{pair, pair_rows};
pub use std::alloc::AllocError as OutOfMemory;
