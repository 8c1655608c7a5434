//! The candidates of an operation: the points that may be vertices of what is made of two sets, or of a half.
//!
//! A vertex of a combination is a vertex of one of the sets, or a point where an edge of the one crosses a carrier of
//! the other: at every other point some direction is flat for both. Of these crossings those beyond the span of
//! the vertices on the carrier may be left out.
#![tactic(auto)]

mod by_threads;
mod listing;
mod named;

pub use by_threads::near_candidates_by_threads;
pub use listing::{candidates, cut_candidates, misses_frame, near_candidates};
pub use named::{CandidateName, Named, Operand, named_points, vertex_points};
pub use nef_complex::OutOfMemory;
