//! Sphere maps: the local pyramid of a set at a point, cut with a small sphere.
//!
//! A sphere map has svertices, arcs of great circles between them, and at most one whole circle without a svertex, the
//! sloop. Each has a mark, the label of its directions. The faces between them have their labels on the sides of arcs
//! and of the sloop, round svertices without arcs, or as the ground of a map without svertices and sloop. Source:
//! Granados et al., "Boolean Operations on 3D Selective Nef Complexes", ESA 2003.
#![tactic(auto)]

mod above;
mod item;
mod locate;
mod map;
mod meets;
mod sface;
mod simple;

pub use item::{Item, on_circle, side_label, sides};
pub use locate::{at, label_at, star_at};
pub use map::{RawStars, SArc, SLoop, SPlace, SVertex, SphereMap};
pub use sface::sfaces;
pub use simple::{copy, face_map, plane_map};
pub use std::alloc::AllocError as OutOfMemory;
