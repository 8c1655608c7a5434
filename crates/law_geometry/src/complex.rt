//! The theory of complexes: vertices with their sphere maps, edges between vertices, and how a complex shows a set
//! (Granados et al., "Boolean Operations on 3D Selective Nef Complexes", ESA 2003). Here a complex is plain data over
//! points and vectors of any size.

mod facets;
mod laws;
pub mod links;

pub use facets::facet_laws;
pub use laws::{candidate_laws, edge_laws, skeleton_laws, span_laws};
