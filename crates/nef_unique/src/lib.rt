//! When two complexes show one set: exactly where they have the same vertices.
//!
//! Least maps are unique, so a set determines its vertices with their maps; and the vertices determine the set.
#![tactic(auto)]

mod comparison;

pub use comparison::{compare, same_map, same_vertices, unique_laws};
