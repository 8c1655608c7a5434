//! Volumes and facets as connected components: the sides and items that each point reaches; items and sides are linked
//! exactly where points at them are joined (Granados et al., "Boolean Operations on 3D Selective Nef Complexes", ESA
//! 2003). Here a complex is plain data; nothing runs. Each law is a clause of a function with an empty body.
#![tactic(auto)]

mod laws;

pub use laws::{component_laws, facet_laws, reach_laws, volume_laws};
