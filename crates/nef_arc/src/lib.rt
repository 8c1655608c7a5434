//! Arcs of great circles of any length, with all questions answered by signs. No call takes memory.
#![tactic(auto)]

mod arc;
mod passing;

pub use arc::{Arc, Crossing};
pub use passing::{crossing, next_along, reverse, strictly_on};
