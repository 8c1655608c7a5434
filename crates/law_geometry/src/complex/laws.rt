//! Laws of complexes that show a set: edges, candidates of new vertices, the skeleton, and spans.

ghost use Rattle.law_geometry.specs.complex.Laws.{EdgePoints, EdgesComplete, SvertexHasEdge, CandidatesSuffice, SkeletonPoints, SpotLabels, FreeWay, BelongsHolds};
ghost use Rattle.law_geometry.specs.complex.Spans.{PlaneBounded, PlaneWithin, RayStaysClose};

/// The points of a set with one flat direction are those strictly between the ends of edges; each svertex ends an edge.
pub fn edge_laws()
    ensures points { EdgePoints }
    ensures complete { EdgesComplete }
    ensures svertices { SvertexHasEdge }
{}

/// A vertex of the intersection, the union, the difference or the symmetric difference of two sets is a vertex of one
/// set, or a point where an edge of one set crosses a carrier of the other that holds an edge or a facet at this point.
pub fn candidate_laws()
    ensures suffice { CandidatesSuffice }
{}

/// The points off the skeleton are those with all directions flat. A skeleton point has its mark and a label toward
/// each direction, and a way off the skeleton has one label: so a point belongs to the complex where the set holds.
pub fn skeleton_laws()
    ensures points { SkeletonPoints }
    ensures labels { SpotLabels }
    ensures free { FreeWay }
    ensures belongs { BelongsHolds }
{}

/// A form that is at most nought at the vertices of a plane is at most nought at all points of the plane's edges and
/// facets, so whole numbers that bound a coordinate there bound it at all these points. Along the upward direction,
/// within the frame, y and z hardly change.
pub fn span_laws()
    ensures bounded { PlaneBounded }
    ensures within { PlaneWithin }
    ensures close { RayStaysClose }
{}
