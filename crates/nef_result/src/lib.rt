//! What the complex of a set is put together from: the planes, the points that may be vertices, and what the set has there. And the
//! complexes of the empty set and of the whole frame: both have the frame's eight corners as vertices, and these alone. Each
//! set has the corners among its vertices.
#![tactic(auto)]

mod assembling;
mod filling;
mod given;
mod outcome;
mod parting;
mod whole;

pub use assembling::{add_carrier, assemble, assemble_lent, copy_carriers, merge_carriers};
pub use given::Given;
pub use outcome::Outcome;
pub use std::alloc::AllocError as OutOfMemory;
pub use whole::{corner_laws, frame, half_map};
