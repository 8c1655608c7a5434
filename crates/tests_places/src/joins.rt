//! Which points are joined.

use crate::tables::check_table;

// The octant of points with no negative coordinate.
const OCTANT: &str = "\
-1 0 0 0, 0 -1 0 0, 0 0 -1 0
joined 0 0 0 1 0 0 0 7 => joined # one vertex, written in two ways
joined 0 0 0 1 1 0 0 1 => apart # the vertex, and a point of an edge from it
joined 1 0 0 1 9 0 0 2 => joined # along the edge on the x-axis
joined 1 0 0 1 0 1 0 1 => apart # edges on two axes
joined 1 0 0 1 1 1 0 1 => apart # an edge, and a facet beside it
joined 1 1 0 1 9 1 0 2 => joined # in the facet z = 0
joined 1 1 0 1 1 0 1 1 => apart # in two facets
joined 1 1 0 1 1 1 1 1 => apart # a facet, and the volume above it
joined 1 1 1 1 5 9 7 2 => joined # inside
joined -1 -1 -1 1 5 5 -1 1 => joined # round the octant
joined 1 1 1 1 -1 -1 -1 1 => apart # inside and outside";

// The wall x = 0, which divides the frame.
const WALL: &str = "\
1 0 0 0, -1 0 0 0
joined -1 5 0 1 1 5 0 1 => apart # both sides have one label, but the wall lies between
joined -1 5 0 1 -7 0 9 2 => joined # on one side
joined 0 5 0 1 0 -5 0 1 => joined # in the wall
joined 0 5 0 1 1 5 0 1 => apart # the wall, and beside it";

// The wall without the origin.
const PRICKED: &str = "\
1 0 0 0, -1 0 0 0; diff 1 0 0 0, -1 0 0 0, 0 1 0 0, 0 -1 0 0, 0 0 1 0, 0 0 -1 0
joined -1 0 0 1 1 0 0 1 => apart # only a point is missing in the wall, and it is a vertex
joined 0 5 0 1 0 -5 0 1 => joined # round the missing point
joined 0 0 0 1 0 5 0 1 => apart # the vertex, and the wall";

// The wall without the points within 1 of the x axis along y and z.
const HOLED: &str = "\
1 0 0 0, -1 0 0 0; diff 0 1 0 -1, 0 -1 0 -1, 0 0 1 -1, 0 0 -1 -1
joined -1 5 0 1 1 5 0 1 => joined # through the hole
joined 0 0 0 1 1 5 0 1 => joined # from inside the hole
joined 0 5 0 1 0 -5 0 1 => joined # round the hole, in one facet with two cycles
joined 0 1 0 1 0 -1 0 1 => apart # on two sides of the hole
joined 0 1 0 1 0 2 1 2 => joined # on one side of the hole
joined 0 0 0 1 0 5 0 1 => apart # the hole, and the wall";

// Two unit boxes that share an edge.
const BOXES: &str = "\
-1 0 0 0, 1 0 0 -1, 0 -1 0 0, 0 1 0 -1, 0 0 -1 0, 0 0 1 -1; \
    or -1 0 0 1, 1 0 0 -2, 0 -1 0 1, 0 1 0 -2, 0 0 -1 0, 0 0 1 -1
joined 1 1 1 2 3 3 1 2 => apart # only an edge joins the boxes
joined 4 4 1 4 4 4 3 4 => joined # along that edge
joined 1 1 0 1 1 1 1 1 => apart # the ends of that edge
joined 1 1 0 2 3 3 0 2 => apart # the lower sides of the two boxes
joined 3 1 1 2 1 3 1 2 => joined # outside, on both sides of that edge";

#[test]
fn joined_points(rt: HostRuntime) {
    check_table(&rt, rt.alloc(), OCTANT);
    check_table(&rt, rt.alloc(), WALL);
    check_table(&rt, rt.alloc(), PRICKED);
    check_table(&rt, rt.alloc(), HOLED);
    check_table(&rt, rt.alloc(), BOXES);
}
