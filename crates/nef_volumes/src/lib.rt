//! The volumes of a complex with their shells, and all its parts.
//!
//! Shells are the classes of sides that links join: sides of one sface, sides along an edge and across a facet. Volumes
//! are the classes of shells that links down rays and those of the outside join. They and the facets are the connected
//! components of the points with as many flat directions. Source: Granados et al., "Boolean Operations on 3D Selective Nef
//! Complexes", ESA 2003.
#![tactic(auto)]

mod all;
mod by_threads;
mod numbers;
mod ties;

pub use all::{joined, parts};
pub use by_threads::parts_by_threads;
pub use std::alloc::AllocError as OutOfMemory;
