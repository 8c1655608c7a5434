//! Laws of components: points at items and sides, links, and joined points.

ghost use Rattle.nef_conn.specs.Components.{JoinedAreAsFlat, JoinedVertices, JoinedEdges, OneCount, VerticesCounted, EdgesCounted};
ghost use Rattle.nef_conn.specs.Items.{ArcsGoOn, ItemsName, NamesAlong, ConverseBySteps, ThirdSides, JoinedItemsAreLinked};
ghost use Rattle.nef_conn.specs.Reach.{PointsReachSides, PointsReachItems, CornersReached, SidesReached};
ghost use Rattle.nef_conn.specs.Sides.{RaysEnd, SidesBySegments, ConverseByItems, JoinedSidesAreLinked};

/// In a complex that shows a set, each point with three flat directions is joined to a point at some side, and each
/// point with two to a point at some item, outside the frame too. A point in a facet is joined to a point at the item
/// of its corner, and a point of the frame in a volume to a point at the volume side of this point.
pub fn reach_laws()
    ensures sides { PointsReachSides }
    ensures items { PointsReachItems }
    ensures corners { CornersReached }
    ensures volume_sides { SidesReached }
{}

/// Joined points have equally many flat directions; vertices are joined, and points of edges are joined, exactly where
/// they are on one vertex or one edge. The points with k flat directions have one number of components; vertices and
/// edges are as many as the components for k = 0 and k = 1.
pub fn component_laws()
    ensures flat { JoinedAreAsFlat }
    ensures vertices { JoinedVertices }
    ensures edges { JoinedEdges }
    ensures one_count { OneCount }
    ensures vertices_counted { VerticesCounted }
    ensures edges_counted { EdgesCounted }
{}

/// An arc at one end of an edge is linked along the edge with an arc at the other end. The facet beside each item has a
/// point that is joined with all points at the item and names, by the ray inward, a corner of the item's class; points
/// along a ray within a facet name the same corners. If both ends of each segment in a facet name corners of one class,
/// where no vertex lies beside the segment but on the line of its start, items with joined points are linked. If one
/// side of a triangle lies within a facet, another side within the facet or on an edge, no edge leads from the third
/// side to the corner between the two and no other vertex lies in the triangle, the third side lies within the facet.
/// So items with joined points are linked.
pub fn facet_laws()
    ensures arcs { ArcsGoOn }
    ensures names { ItemsName }
    ensures along { NamesAlong }
    ensures converse { ConverseBySteps }
    ensures triangles { ThirdSides }
    ensures facets { JoinedItemsAreLinked }
{}

/// From each point of the frame with three flat directions the ray down ends at a skeleton point below some side. If
/// each side that isn't outside has a point whose ray down names a side of the class, and both ends of each segment of
/// points with three flat directions name sides of one class, sides with joined points are linked. Both hold where
/// items with joined points are linked, which is always so.
pub fn volume_laws()
    ensures rays { RaysEnd }
    ensures segments { SidesBySegments }
    ensures converse { ConverseByItems }
    ensures sides { JoinedSidesAreLinked }
{}
