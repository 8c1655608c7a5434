//! Which kind of point the centre of a sphere map is.

use nef_geo::Dir;

/// Where a point lies in a set. An edge is named by the greater of its two directions, a facet by its normal.
#[derive(Clone, Copy)]
pub enum Kind {
    Vertex,
    OnEdge(Dir),
    InFacet(Dir),
    InVolume,
}
