//! Places in half-spaces whose planes pass through edges or corners of the frame, or only touch the frame.
//!
//! The vertices are the frame's corners: 0 is (-, -, -), 1 (-, -, +), 2 (-, +, -), 3 (-, +, +), 4 (+, -, -), 5 (+, -,
//! +), 6 (+, +, -) and 7 (+, +, +), where + stands for 2048 and - for -2048.

use crate::tables::check_table;

// The plane x + y = 0 passes through two edges of the frame.
const DIAGONAL: &str = "\
1 1 0 0
counts => 8 14 # the frame's, and the edges from 2 to 4 and from 3 to 5
vertex -2048 2048 -2048 1 => 2 # a corner on the plane
vertex -2048 2048 0 1 => none # inside an edge of the frame
place 0 0 0 1 => facet 1 1 0 at 2 in # along -z the edge from 2 to 4 is met
place -1 0 0 67108864 => volume in # x + y is less than 0
place 1 0 0 67108864 => volume not # x + y is more than 0
place -2048 2048 0 1 => edge 2 3 out # an edge of the frame on the plane
place 5 -5 2048 1 => edge 3 5 out # where the plane meets the side z = 2048
place 5 5 -2048 1 => facet 0 0 1 at 2 out # along y the edge from 2 to 6 is met
place 5 -7 -2048 1 => facet 0 0 1 at 2 out # along y the edge from 2 to 4 is met
kind 0 0 0 1 => facet 1 1 0 # on the plane
kind 1 0 0 67108864 => volume # beside it
kind -2048 2048 0 1 => edge 0 0 1 # the frame's edge
kind 5 -5 2048 1 => edge 1 -1 0 # the greater direction from 3 to 5 and back
kind -2048 2048 2048 1 => vertex # a corner
rising 0 0 0 1 => facet 1 1 0 at 2 in # through the plane
rising 5 -5 2048 1 => edge 3 5 out # exactly through the edge
falling 5 -5 -2048 1 => edge 2 4 out # exactly through the edge
rising 2048 2048 2048 1 => vertex 7 out # exactly through the corner
up 5 5 0 1 => facet 1 0 0 at 5 out # on x = 2048 along z the edge from 5 to 7 is met
up -5 0 0 1 => facet 1 1 0 at 2 in # from below the plane
facet 1 1 0 0 0 0 0 1 => facet 1 1 0 at 2 # along -z the edge from 2 to 4 is met
facet 1 -1 0 0 5 5 0 1 => none # another plane
ray 1 1 0 0 0 0 0 1 => edge 2 4 # along -z
back 1 1 0 0 0 0 0 1 => edge 3 5 # along z
ray 0 1 -1 0 2048 0 0 1 => vertex 4 # along (0, -1, -1), exactly
back 0 1 -1 0 -2048 0 0 1 => vertex 3 # along (0, 1, 1), exactly";

// The plane x + y + z = 2048 passes through three corners of the frame.
const SLANTED: &str = "\
1 1 1 -2048
counts => 8 15 # the frame's, and the three sides of the triangle with the vertices 3, 5 and 6
vertex 2048 2048 -2048 1 => 6 # a corner on the plane
vertex 2048 0 0 1 => none # inside a side of the triangle
place 1024 512 512 1 => facet 1 1 1 at 3 in # along (0, 1, -1) the edge from 3 to 6 is met
place 2047 0 0 1 => volume in # x + y + z is less than 2048
place 2047 1 1 1 => volume not # x + y + z is more than 2048
place 2048 0 0 1 => edge 5 6 out # where the plane meets the side x = 2048
place 2048 5 5 1 => facet 1 0 0 at 5 out # along z the edge from 5 to 7 is met
place 2048 -5 -5 1 => facet 1 0 0 at 5 out # along z the edge from 5 to 6 is met
place 2048 2048 -2048 1 => vertex 6 out # a corner on the plane
kind 1024 512 512 1 => facet 1 1 1 # on the plane
kind 0 0 0 1 => volume # beside it
kind 2048 0 0 1 => edge 0 1 -1 # the greater direction from 5 to 6 and back
kind 2048 2048 -2048 1 => vertex # a corner
rising 1024 512 512 1 => facet 1 1 1 at 3 in # through the plane
falling 1024 512 512 1 => facet 1 1 1 at 3 in # through the plane
rising 2048 0 0 1 => edge 5 6 out # exactly through the edge
rising 2048 2048 2048 1 => vertex 7 out # exactly through the corner
up 1024 1024 1024 1 => facet 1 0 0 at 5 out # on x = 2048 along z the edge from 5 to 7 is met
facet 1 1 1 -2048 1024 512 512 1 => facet 1 1 1 at 3 # along (0, 1, -1) the edge from 3 to 6 is met
facet 1 1 1 0 0 0 0 1 => none # a parallel plane
ray 1 1 1 -2048 1024 512 512 1 => edge 3 6 # along (0, 1, -1)
back 1 1 1 -2048 1024 512 512 1 => edge 3 5 # along (0, -1, 1)
back 0 1 -1 0 -2048 0 0 1 => vertex 3 # along (0, 1, 1), exactly";

// The planes x + y = 4096 and x + y + z = 6144 touch an edge and a corner of the frame, which lies below both planes.
const TOUCHING: &str = "\
1 1 0 -4096, 1 1 1 -6144
counts => 8 12 # the frame's alone
vertex 2048 2048 2048 1 => 7 # the corner that is touched
vertex 2048 2048 0 1 => none # inside the edge that is touched
place 2048 2048 0 1 => edge 6 7 out # inside the edge that is touched
place 2048 2048 2048 1 => vertex 7 out # the corner that is touched
place 2047 2047 2047 1 => volume in # beside the corner
place 2048 2047 2047 1 => facet 1 0 0 at 5 out # along z the edge from 5 to 7 is met
kind 2048 2048 0 1 => edge 0 0 1 # the edge that is touched
kind 2048 2048 2048 1 => vertex # the corner that is touched
kind 2047 2047 0 1 => volume # beside the edge
rising 2048 2048 0 1 => edge 6 7 out # exactly through the edge
rising 2048 2048 2048 1 => vertex 7 out # exactly through the corner
rising 2048 2047 2047 1 => facet 1 0 0 at 5 out # through a point beside them
falling 0 0 0 1 => facet 1 0 0 at 1 out # on x = -2048 along z the edge from 1 to 3 is met
facet 1 0 0 -2048 2048 0 0 1 => facet 1 0 0 at 5 # along z the edge from 5 to 7 is met
facet 1 1 0 0 0 0 0 1 => none # inside the volume
ray 0 1 -1 0 2048 0 0 1 => vertex 4 # along (0, -1, -1), exactly
back 0 1 -1 0 2048 0 0 1 => vertex 7 # along (0, 1, 1), exactly
back 0 1 -1 0 0 0 0 1 => edge 3 7 # along (0, 1, 1)
ray 1 -1 0 0 0 0 0 1 => none # along z, between the edges from 0 to 1 and from 6 to 7";

#[test]
fn half_spaces(rt: HostRuntime) {
    check_table(&rt, rt.alloc(), DIAGONAL);
    check_table(&rt, rt.alloc(), SLANTED);
    check_table(&rt, rt.alloc(), TOUCHING);
}
