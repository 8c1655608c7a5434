//! Where a point lies in a complex, its label, and the least map of the set there.
//!
//! A point is a vertex, lies on an edge, in a facet, or in a volume. Source: Granados et al., "Boolean Operations on 3D
//! Selective Nef Complexes", ESA 2003.
#![tactic(auto)]

mod above;
mod beam;
mod carrier;
mod facet;
mod maps;
mod point;

pub use above::side_above;
pub use beam::first_hit;
pub use carrier::place_on;
pub use facet::{corner_toward, in_facet};
pub use maps::{local_map, place_map};
pub use point::{Place, locate, place_label};
pub use std::alloc::AllocError as OutOfMemory;
