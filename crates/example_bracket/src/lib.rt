//! The kernel as a library: a bracket with a hole in each leg is made of half-spaces, questioned, and read;
//! docs/library.md explains this code.
#![tactic(auto)]

mod asked;
mod made;
mod read;
#[cfg(test)]
mod tests;

pub use asked::{are_joined, is_clear, is_in_bracket, is_inside, is_solid};
pub use made::Maker;
pub use nef_complex::OutOfMemory;
pub use read::{Counts, count_parts, edge_ends, facets_with_holes, volumes_inside};
