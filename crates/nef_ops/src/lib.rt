//! The operations on complexes: constants, halves, combinations of two sets, topological operations on a set, and the
//! comparison of two sets.
//!
//! An operation lists its candidates, the points that may be vertices of the result, works the least map of the result
//! at each candidate as a job of its own, and puts the complex together from these maps. Source: Granados et al.,
//! "Boolean Operations on 3D Selective Nef Complexes", ESA 2003.
#![tactic(auto)]

mod finished;
mod local;
mod operations;
mod regions;
mod share;

pub use nef_result::Given;
pub use nef_unique::compare as same;
pub use operations::{UnaryOp, binary, binary_given, constant, half, half_within, unary};
pub use std::alloc::AllocError as OutOfMemory;
