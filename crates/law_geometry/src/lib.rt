//! The theory of the kernel's sets: what a set looks like near a point, sphere maps, complexes, and what turns do to them.
//! All is plain data over numbers of any size, and nothing runs. Each law is a clause of a function with an empty body.
#![tactic(auto)]

pub mod complex;
pub mod near;
pub mod sphere;
pub mod turns;
