//! Stars: the neighbourhoods of directions on a sphere map, as rays and sectors in turn.
#![tactic(auto)]

mod combining;
mod rays;
mod rounds;
mod star;

pub use combining::merge;
pub use rays::{before_of, simplify};
pub use rounds::{CircleLabels, bare, crossed, round};
pub use star::{Op, Ray, Star, is_plain, is_straight, star_laws};
pub use std::alloc::AllocError as OutOfMemory;
