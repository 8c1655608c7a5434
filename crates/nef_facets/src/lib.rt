//! The facets of a complex: the plane, the mark and the cycles of each, and the facet of each item. Links of items are
//! ties between corners, along edges and across facets; chains of ties join the corners of a facet.
//!
//! Source: Granados et al., "Boolean Operations on 3D Selective Nef Complexes", ESA 2003.
#![tactic(auto)]

mod cycles;
mod parts;
mod ties;

pub use parts::{FacetParts, facet_ties, facets, facets_of_ties};
pub use std::alloc::AllocError as OutOfMemory;
pub use ties::{across_ties, along_ties};
