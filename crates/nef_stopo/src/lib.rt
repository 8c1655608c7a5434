//! Operations on sphere maps: topological operations on the set of a map, and combinations of the sets of two maps.
#![tactic(auto)]

mod operations;
mod topology;

pub use operations::{boundary, closure, combine, complement, exchanged, interior};
pub use std::alloc::AllocError as OutOfMemory;
