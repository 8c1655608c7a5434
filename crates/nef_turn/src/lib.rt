//! The 48 turns of space on complexes: what a turn makes of the complex of a set is the complex of the turned set.
//!
//! Carriers, vertices and the maps at them are turned item by item and sorted again, and the edges are found anew from
//! the turned vertices. A turn that makes counterclockwise clockwise reverses the arcs of the maps.
#![tactic(auto)]

mod maps;
mod turning;

pub use std::alloc::AllocError as OutOfMemory;
pub use turning::{turn_complex, turning_laws};
