//! The theory of sphere maps: where a direction lies on a map, which side sees a direction, the one label of every
//! direction, least maps, and what the kind of a least map says of the set that the map shows.
//!
//! A sphere map is the local pyramid of a set at a point, cut with a small sphere (Granados et al., "Boolean Operations
//! on 3D Selective Nef Complexes", ESA 2003). Here a map is plain data over vectors of any size.

pub mod border;
pub mod building;
pub mod cones;
pub mod cyclic;
mod laws;

pub use laws::{build_laws, label_laws, least_laws, place_laws};
