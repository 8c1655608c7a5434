//! The least map of the stars of a sphere map, and the kind of a least map.
#![tactic(auto)]

mod along;
mod answer;
mod least;
mod making;

pub use answer::Kind;
pub use least::{build, kind};
pub use making::sort_arcs;
pub use std::alloc::AllocError as OutOfMemory;
