//! Where the label along a ray first changes.
//!
//! A ray from a point has one label just after the point, and ends at the first point that has another label, or after
//! which the label is another. A set is constant where no sign of a carrier's form changes, so a ray ends where it
//! crosses a carrier, and at the latest at a side of the frame.
#![tactic(auto)]

mod change;
mod ray;

pub use ray::{RayEnd, ray_end, ray_end_laws};
pub use std::alloc::AllocError as OutOfMemory;
