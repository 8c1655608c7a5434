//! Laws of facets: the labels of facet points, and the item behind the first thing that a ray meets in a plane.

ghost use Rattle.law_geometry.specs.complex.Laws.{FacetBehind, FacetFromBehind, FacetPoints, FacetsComplete};

/// The points of a facet have the labels of the item beside them. A ray in a facet's plane from a point of the facet
/// first meets a vertex or an edge with an item of the plane on the ray's side; where such an item lies behind what a
/// ray meets, the ray began in a facet, unless on a vertex or an edge. A point with two flat directions has a corner.
pub fn facet_laws()
    ensures points { FacetPoints }
    ensures behind { FacetBehind }
    ensures from_behind { FacetFromBehind }
    ensures complete { FacetsComplete }
{}
