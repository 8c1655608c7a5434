//! Places in sets of a point, an axis, two axes that cross, a half-space without a half of an axis, and edges on lines
//! that are hard to tell apart.
//!
//! Vertices are numbered in the order of their x, then y, then z. Below + stands for 2048 and - for -2048.

use crate::tables::check_table;

// Vertices 0 to 3 are corners with x = -2048, 4 is the origin, 5 is (+, -, -), 6 (+, -, +), 7 (+, +, -), 8 (+, +, +).
const POINT: &str = "\
-1 0 0 0, 1 0 0 0, 0 -1 0 0, 0 1 0 0, 0 0 -1 0, 0 0 1 0
counts => 9 12 # the frame's and the point
vertex 0 0 0 1 => 4 # the point
vertex 1 0 0 67108864 => none # beside it
vertex 2048 2048 2048 1 => 8 # the last corner
place 0 0 0 1 => vertex 4 in # the point
place 1 0 0 67108864 => volume not # beside it
place 2048 0 0 1 => facet 1 0 0 at 6 out # along z the edge from 6 to 8 is met
place 2048 2048 0 1 => edge 7 8 out # an edge of the frame
place 2048 2048 2048 1 => vertex 8 out # a corner
kind 0 0 0 1 => vertex # the point
kind 1 0 0 67108864 => volume # beside it
kind 2048 0 0 1 => facet 1 0 0 # a side of the frame
kind 2048 2048 0 1 => edge 0 0 1 # an edge of it
rising 0 0 0 1 => vertex 4 in # exactly through the point
falling 0 0 0 1 => vertex 4 in # exactly through the point
up -67108864 -8192 -1 32768 => vertex 4 in # from the border, exactly through the point
up -67108864 -8192 -1 4294967296 => vertex 4 in # from close by, exactly through the point
down 67108864 8192 1 32768 => vertex 4 in # from the border, exactly through the point
rising 0 0 1 67108864 => facet 1 0 0 at 6 out # past it, on x = 2048 along z the edge from 6 to 8 is met
falling 0 1 0 67108864 => facet 1 0 0 at 1 out # past it, on x = -2048 along z the edge from 1 to 3 is met
up 0 0 0 1 => facet 1 0 0 at 6 out # from the point itself
down 0 0 0 1 => facet 1 0 0 at 1 out # from the point itself
up 2048 0 0 1 => none # from the border outward
facet 0 0 1 0 0 -5 0 1 => none # along y the point is met, which has no corner
facet 0 0 1 0 5 5 0 1 => none # along y nothing is met
facet 1 0 0 -2048 2048 0 0 1 => facet 1 0 0 at 6 # along z the edge from 6 to 8 is met
ray 0 0 1 0 0 -5 0 1 => vertex 4 # along y, exactly
back 0 0 1 0 0 5 0 1 => vertex 4 # along -y, exactly
ray 0 0 1 0 1 -5 0 1 => none # along y, past the point
ray 0 0 1 0 0 5 0 1 => none # along y, the point lies behind
ray 1 0 0 0 0 0 -5 1 => vertex 4 # along z, exactly
ray 1 1 1 0 0 -5 5 1 => vertex 4 # along (0, 1, -1), exactly
ray 1 0 0 -2048 2048 0 0 1 => edge 6 8 # along z on the border";

// The frame without the origin has the vertices of `POINT`.
const LACKING: &str = "\
full; diff -1 0 0 0, 1 0 0 0, 0 -1 0 0, 0 1 0 0, 0 0 -1 0, 0 0 1 0
place 0 0 0 1 => vertex 4 not # the point that is missing
place 5 5 5 1 => volume in # all around it";

// Vertices 0 to 3 are corners with x = -2048, 3 is (-, +, +); 4 is (0, 0, -), 5 (0, 0, +); 6 is (+, -, -), 7 (+, -, +),
// 8 (+, +, -), 9 (+, +, +).
const Z_AXIS: &str = "\
1 0 0 0, -1 0 0 0, 0 1 0 0, 0 -1 0 0
counts => 10 13 # the frame's, and the axis with its ends
vertex 0 0 2048 1 => 5 # the upper end
vertex 0 0 0 1 => none # inside the axis
place 0 0 5 1 => edge 4 5 in # inside the axis
place 1 0 335544320 67108864 => volume not # beside it
place 0 0 2048 1 => vertex 5 out # the upper end
place 0 -5 2048 1 => facet 0 0 1 at 5 out # along y the upper end is met
place 1 0 2048 1 => facet 0 0 1 at 3 out # along y the edge from 3 to 9 is met
kind 0 0 5 1 => edge 0 0 1 # inside the axis
kind 1 0 335544320 67108864 => volume # beside it
kind 0 0 2048 1 => vertex # the upper end
kind 0 -5 2048 1 => facet 0 0 1 # a side of the frame
rising 0 0 5 1 => edge 4 5 in # exactly through the axis
falling 0 0 5 1 => edge 4 5 in # exactly through the axis
up -67108864 -8192 163839 32768 => edge 4 5 in # from the border, exactly through the axis
rising 0 1 335544320 67108864 => facet 1 0 0 at 7 out # past it, on x = 2048 along z the edge from 7 to 9 is met
rising 0 0 2048 1 => vertex 5 out # exactly through the upper end
falling 0 0 -2048 1 => vertex 4 out # exactly through the lower end
up 0 0 5 1 => facet 1 0 0 at 7 out # from the axis itself
facet 0 0 1 -2048 0 -5 2048 1 => facet 0 0 1 at 5 # along y the upper end is met
facet 1 0 0 0 0 5 0 1 => none # the axis lies in this plane, but no facet
ray 0 0 1 -2048 0 -5 2048 1 => vertex 5 # along y, exactly
back 0 0 1 2048 0 5 -2048 1 => vertex 4 # along -y, exactly
ray 1 0 0 0 0 5 0 1 => none # along z, beside the axis
ray 0 0 1 -5 0 -7 5 1 => none # along y, the axis crosses this plane and doesn't lie in it
items 1 0 0 0 => none # the axis lies in this plane, but no facet
items 0 0 1 -2048 => edges 3 4 7 11 vertices 1 3 5 7 9 # a side, on which the axis ends";

// The x axis and the y axis.
//
// Vertices: 0 is (-, -, -), 1 (-, -, +), 2 (-, 0, 0), 3 (-, +, -), 4 (-, +, +), 5 (0, -, 0), 6 the origin, 7 (0, +, 0),
// 8 (+, -, -), 9 (+, -, +), 10 (+, 0, 0), 11 (+, +, -), 12 (+, +, +).
const CROSSING: &str = "\
0 1 0 0, 0 -1 0 0, 0 0 1 0, 0 0 -1 0; or 1 0 0 0, -1 0 0 0, 0 0 1 0, 0 0 -1 0
counts => 13 16 # the frame's, and four halves of axes with their ends
vertex 0 0 0 1 => 6 # where the axes cross
vertex 1 0 0 67108864 => none # inside an axis
place 0 0 0 1 => vertex 6 in # where the axes cross
place 5 0 0 1 => edge 6 10 in # on the x axis
place 0 -5 0 1 => edge 5 6 in # on the y axis
place 1 1 0 67108864 => volume not # between the axes
place 2048 0 0 1 => vertex 10 out # an end
place 2048 0 -5 1 => facet 1 0 0 at 10 out # along z an end is met
place 2048 1 0 1 => facet 1 0 0 at 9 out # along z the edge from 9 to 12 is met
kind 0 0 0 1 => vertex # where the axes cross
kind 5 0 0 1 => edge 1 0 0 # on the x axis
kind 0 -5 0 1 => edge 0 1 0 # on the y axis
kind 1 1 0 67108864 => volume # between the axes
kind 2048 0 -5 1 => facet 1 0 0 # a side of the frame
rising 0 0 0 1 => vertex 6 in # exactly through both axes
falling 0 0 0 1 => vertex 6 in # exactly through both axes
rising 5 0 0 1 => edge 6 10 in # exactly through the x axis
rising 0 5 0 1 => edge 6 7 in # exactly through the y axis
falling -5 0 0 1 => edge 2 6 in # exactly through the x axis
rising 5 5 0 1 => facet 1 0 0 at 9 out # between the axes, on x = 2048 along z the edge from 9 to 12 is met
down 0 0 0 1 => facet 1 0 0 at 1 out # on x = -2048 along z the edge from 1 to 4 is met
facet 0 0 1 0 1 -1 0 1 => none # along y the x axis is met, which has no corner
facet 0 0 1 0 1 1 0 1 => none # along y nothing is met
facet 1 0 0 -2048 2048 0 -5 1 => facet 1 0 0 at 10 # along z an end is met
ray 0 0 1 0 5 -7 0 1 => edge 6 10 # along y
ray 0 0 1 0 -5 -7 0 1 => edge 2 6 # along y
ray 1 1 0 0 0 0 7 1 => vertex 6 # along -z, exactly
ray 1 0 0 0 0 0 -7 1 => vertex 6 # along z, exactly
ray 1 0 0 0 0 -5 -7 1 => edge 5 6 # along z
ray 1 0 0 0 0 5 7 1 => none # along z, the y axis lies behind
ray 0 1 0 0 5 0 7 1 => edge 6 10 # along -z
back 0 1 0 0 5 0 7 1 => none # along z, the x axis lies behind";

// The half z <= 0 without the half x >= 0 of the x axis.
//
// Vertices: 0 is (-, -, -), 1 (-, -, 0), 2 (-, -, +), 3 (-, +, -), 4 (-, +, 0), 5 (-, +, +), 6 the origin, 7 (+, -, -),
// 8 (+, -, 0), 9 (+, -, +), 10 (+, 0, 0), 11 (+, +, -), 12 (+, +, 0), 13 (+, +, +).
const SLIT: &str = "\
0 0 1 0; diff 0 0 1 0, 0 0 -1 0, 0 1 0 0, 0 -1 0 0, -1 0 0 0
counts => 14 22 # the half-space has 12 and 20, one edge of which the slit's end cuts, and the slit is an edge
vertex 0 0 0 1 => 6 # where the slit begins
vertex 1 0 0 67108864 => none # inside the slit
place 0 0 0 1 => vertex 6 not # where the slit begins
place 5 0 0 1 => edge 6 10 not # inside the slit
place 5 1 0 1 => facet 0 0 1 at 4 in # along y the edge from 4 to 12 is met
place 5 -1 0 1 => facet 0 0 1 at 6 in # along y the slit is met
place 0 -5 0 1 => facet 0 0 1 at 6 in # along y the slit's beginning is met
place -5 0 0 1 => facet 0 0 1 at 4 in # along y the edge from 4 to 12 is met
place 5 0 -1 1 => volume in # below the plane
place 5 0 1 1 => volume not # above it
place 2048 0 0 1 => vertex 10 out # where the slit ends
place 2048 1 0 1 => edge 10 12 out # where the plane meets the side x = 2048
place 2048 -1 0 1 => edge 8 10 out # where the plane meets the side x = 2048
place 2048 0 1 1 => facet 1 0 0 at 9 out # along z the edge from 9 to 13 is met
place 2048 0 -1 1 => facet 1 0 0 at 10 out # along z the slit's end is met
place 2048 -1 -1 1 => facet 1 0 0 at 8 out # along z the edge from 8 to 10 is met
kind 0 0 0 1 => vertex # where the slit begins
kind 5 0 0 1 => edge 1 0 0 # inside the slit
kind 5 1 0 1 => facet 0 0 1 # beside it in the plane
kind 5 0 1 1 => volume # above it
rising 0 0 0 1 => vertex 6 not # exactly through the slit's beginning
falling 0 0 0 1 => vertex 6 not # exactly through the slit's beginning
rising 5 0 0 1 => edge 6 10 not # exactly through the slit
falling 5 0 0 1 => edge 6 10 not # exactly through the slit
rising -5 0 0 1 => facet 0 0 1 at 4 in # through the plane where there is no slit
up 5 0 0 1 => facet 1 0 0 at 9 out # on x = 2048 above the plane along z the edge from 9 to 13 is met
down 5 0 0 1 => facet 1 0 0 at 1 out # on x = -2048 below the plane along z the edge from 1 to 4 is met
facet 0 0 1 0 5 1 0 1 => facet 0 0 1 at 4 # along y the edge from 4 to 12 is met
facet 0 0 1 0 5 -1 0 1 => facet 0 0 1 at 6 # along y the slit is met
facet 0 1 0 0 5 0 1 1 => none # along -z the slit is met, which has no corner in y = 0
facet 0 1 0 0 0 0 1 1 => none # along -z the slit's beginning is met, which has no corner in y = 0
ray 0 0 1 0 5 -7 0 1 => edge 6 10 # along y
back 0 0 1 0 5 7 0 1 => edge 6 10 # along -y
ray 0 0 1 0 0 -7 0 1 => vertex 6 # along y, exactly
ray 0 0 1 0 -5 -7 0 1 => edge 4 12 # along y, past the slit";

// Two slanted prisms, one above the other: their edges run along (1, 1, 2) on four lines, each through both prisms.
//
// -1 <= x - y <= 0 and -1/2 <= x + y - z <= 0, where z is 0 to 1, and where z is 2 to 3.
//
// On the line through the origin stand the vertices 8 (0, 0, 0), 12 (1/2, 1/2, 1), 16 (1, 1, 2) and 19 (3/2, 3/2, 3).
const PRISMS: &str = "\
1 -1 0 0, -1 1 0 -1, 1 1 -1 0, -2 -2 2 -1, 0 0 -1 0, 0 0 1 -1; \
    or 1 -1 0 0, -1 1 0 -1, 1 1 -1 0, -2 -2 2 -1, 0 0 -1 2, 0 0 1 -3
counts => 24 36 # the frame's and those of two prisms
place 1 1 2 4 => edge 8 12 in # on the line through the origin
place 5 5 10 4 => edge 16 19 in # on the same line, above
place 3 3 6 4 => volume not # on the same line, between the prisms
place 0 0 1 2 => edge 6 10 in # where x = y, on the other line
place 2 2 5 2 => edge 14 18 in # on the same line, above
place -1 3 2 4 => edge 5 9 in # where x = y - 1, on the one line
place 3 7 10 4 => edge 13 17 in # on the same line, above
place -1 1 1 2 => edge 4 7 in # where x = y - 1, on the other line
place 1 3 5 2 => edge 11 15 in # on the same line, above";

#[test]
fn lines(rt: HostRuntime) {
    check_table(&rt, rt.alloc(), POINT);
    check_table(&rt, rt.alloc(), LACKING);
    check_table(&rt, rt.alloc(), Z_AXIS);
    check_table(&rt, rt.alloc(), CROSSING);
    check_table(&rt, rt.alloc(), SLIT);
    check_table(&rt, rt.alloc(), PRISMS);
}
