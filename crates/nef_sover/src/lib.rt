//! Two sphere maps overlaid: the stars of all directions that may be svertices of a combination of the two.
#![tactic(auto)]

mod axes;
mod overlaid;

pub use overlaid::overlay;
pub use std::alloc::AllocError as OutOfMemory;
