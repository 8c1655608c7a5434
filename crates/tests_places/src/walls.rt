//! Places in the plane x = 0 as a set, in a square of this plane, and in a half-space without a point of its plane.
//!
//! Vertices are numbered in the order of their x, then y, then z. Below + stands for 2048 and - for -2048.

use crate::tables::check_table;

// Vertices 0 to 3 are corners with x = -2048; 4 is (0, -, -), 5 (0, -, +), 6 (0, +, -), 7 (0, +, +); 8 to 11 are the
// other corners, in the same order.
const WALL: &str = "\
1 0 0 0, -1 0 0 0
counts => 12 20 # four edges of the frame are cut in two, and the wall has four
vertex 0 2048 2048 1 => 7 # where the wall meets an edge of the frame
vertex 0 0 0 1 => none # inside the wall
place 0 0 0 1 => facet 1 0 0 at 5 in # along z the edge from 5 to 7 is met
place -1 0 0 67108864 => volume not # beside the wall
place 1 0 0 67108864 => volume not # on its other side
place 0 2048 0 1 => edge 6 7 out # where the wall meets the side y = 2048
place 1 2048 0 1 => facet 0 1 0 at 6 out # along -z the edge from 6 to 10 is met
place -1 2048 0 1 => facet 0 1 0 at 2 out # along -z the edge from 2 to 6 is met
place 0 2048 2048 1 => vertex 7 out # where the wall meets an edge of the frame
kind 0 0 0 1 => facet 1 0 0 # inside the wall
kind 1 0 0 67108864 => volume # beside it
kind 0 2048 0 1 => edge 0 0 1 # where the wall meets a side
kind 0 2048 2048 1 => vertex # where it meets an edge
up -1 0 0 1 => facet 1 0 0 at 5 in # along z the edge from 5 to 7 is met
down 1 0 0 1 => facet 1 0 0 at 5 in # along z the edge from 5 to 7 is met
up 0 0 0 1 => facet 1 0 0 at 9 out # on x = 2048 along z the edge from 9 to 11 is met
down 0 0 0 1 => facet 1 0 0 at 1 out # on x = -2048 along z the edge from 1 to 3 is met
rising 0 2048 0 1 => edge 6 7 out # exactly through the edge
rising 0 2048 2048 1 => vertex 7 out # exactly through the vertex
falling 0 -2048 -2048 1 => vertex 4 out # exactly through the vertex
facet 1 0 0 0 0 0 0 1 => facet 1 0 0 at 5 # along z the edge from 5 to 7 is met
facet 0 1 0 0 1 0 0 1 => none # another plane
ray 1 0 0 0 0 0 0 1 => edge 5 7 # along z
back 1 0 0 0 0 0 0 1 => edge 4 6 # along -z
ray 0 1 -1 0 0 0 0 1 => vertex 4 # along (0, -1, -1), exactly
back 0 1 -1 0 0 0 0 1 => vertex 7 # along (0, 1, 1), exactly
ray 0 1 -1 0 5 0 0 1 => edge 4 8 # along (0, -1, -1)
ray 0 1 0 0 5 0 0 1 => none # no edge lies in y = 0
items 1 0 0 0 => edges 8 9 11 13 vertices 4 5 6 7 # the wall
items 0 1 0 0 => none # it has no facet in y = 0";

// Vertices 0 to 3 are corners with x = -2048; 4 is (0, -5, -5), 5 (0, -5, 5), 6 (0, 5, -5), 7 (0, 5, 5); 8 to 11 are
// the other corners, 8 (+, -, -), 9 (+, -, +), 10 (+, +, -) and 11 (+, +, +).
const SQUARE: &str = "\
1 0 0 0, -1 0 0 0, 0 1 0 -5, 0 -1 0 -5, 0 0 1 -5, 0 0 -1 -5
counts => 12 16 # the frame's and the square's
vertex 0 5 5 1 => 7 # a corner of the square
vertex 0 5 6 1 => none # past it
place 0 0 0 1 => facet 1 0 0 at 5 in # along z the edge from 5 to 7 is met
place 0 5 0 1 => edge 6 7 in # on a side of the square
place 0 5 5 1 => vertex 7 in # a corner of it
place 0 7 0 1 => volume not # on its plane, but outside it
place 1 0 0 67108864 => volume not # beside it
place 2048 0 0 1 => facet 1 0 0 at 9 out # along z the edge from 9 to 11 is met
kind 0 0 0 1 => facet 1 0 0 # inside the square
kind 0 5 0 1 => edge 0 0 1 # on a side
kind 0 5 5 1 => vertex # a corner
kind 0 7 0 1 => volume # outside it
rising 0 0 0 1 => facet 1 0 0 at 5 in # through its middle
rising 0 5 0 1 => edge 6 7 in # exactly through a side
rising 0 5 5 1 => vertex 7 in # exactly through a corner
rising 0 7 0 1 => facet 1 0 0 at 9 out # past the square, on x = 2048 along z the edge from 9 to 11 is met
falling 0 5 0 1 => edge 6 7 in # exactly through a side
falling 0 -5 -5 1 => vertex 4 in # exactly through a corner
falling 0 7 0 1 => facet 1 0 0 at 1 out # past the square, on x = -2048 along z the edge from 1 to 3 is met
up -67108864 319488 327679 65536 => vertex 7 in # from x = -1024 exactly to a corner
up -67108864 319489 327679 65536 => facet 1 0 0 at 9 out # past that corner by 2^-16 in y
down 67108864 -319488 -327679 65536 => vertex 4 in # from x = 1024 exactly to a corner
down 67108864 -319489 -327679 65536 => facet 1 0 0 at 1 out # past that corner by 2^-16 in y
facet 1 0 0 0 0 0 0 1 => facet 1 0 0 at 5 # along z the edge from 5 to 7 is met
facet 1 0 0 0 0 7 0 1 => none # outside, along z nothing is met
facet 1 0 0 0 0 0 -7 1 => none # outside, along z the edge from 4 to 6 is met
facet 1 0 0 0 0 5 -7 1 => none # outside, along z vertex 6 is met
facet 1 0 0 0 0 0 7 1 => none # outside, the square lies behind
ray 1 0 0 0 0 0 0 1 => edge 5 7 # along z, from inside
ray 1 0 0 0 0 0 -7 1 => edge 4 6 # along z, from outside
ray 1 0 0 0 0 5 -7 1 => vertex 6 # along z, exactly
back 1 0 0 0 0 -5 7 1 => vertex 5 # along -z, exactly
ray 1 0 0 0 0 7 0 1 => none # along z, past the square";

// Vertices 0 to 3 are corners with x = -2048; 4 is (0, -, -), 5 (0, -, +), 6 the origin, 7 (0, +, -), 8 (0, +, +); 9 to
// 12 are the other corners, 9 (+, -, -), 10 (+, -, +), 11 (+, +, -) and 12 (+, +, +).
const PIERCED: &str = "\
1 0 0 0; diff -1 0 0 0, 1 0 0 0, 0 -1 0 0, 0 1 0 0, 0 0 -1 0, 0 0 1 0
counts => 13 20 # those of the half-space, and the origin
vertex 0 0 0 1 => 6 # the point that is taken out
vertex 0 0 1 67108864 => none # beside it in the plane
place 0 0 0 1 => vertex 6 not # the point that is taken out
place 0 0 5 1 => facet 1 0 0 at 5 in # along z the edge from 5 to 8 is met
place 0 0 -5 1 => facet 1 0 0 at 6 in # along z the origin is met
place 0 1 -5 1 => facet 1 0 0 at 5 in # along z the edge from 5 to 8 is met
place -1 0 0 67108864 => volume in # x is less than 0
place 1 0 0 67108864 => volume not # x is more than 0
place 0 2048 0 1 => edge 7 8 out # where the plane meets the side y = 2048
kind 0 0 0 1 => vertex # the point that is taken out
kind 0 0 1 67108864 => facet 1 0 0 # beside it in the plane
kind -1 0 0 67108864 => volume # below the plane
kind 0 2048 0 1 => edge 0 0 1 # where the plane meets a side
rising 0 0 0 1 => vertex 6 not # exactly through the origin
falling 0 0 0 1 => vertex 6 not # exactly through the origin
rising 0 0 -5 1 => facet 1 0 0 at 6 in # through the plane below it
up -5 0 0 1 => facet 1 0 0 at 5 in # the ray passes above it, at z = 5 / 2^26
down 5 0 0 1 => facet 1 0 0 at 5 in # the ray passes below it, but at y = -5 / 2^13
facet 1 0 0 0 0 0 -5 1 => facet 1 0 0 at 6 # along z the origin is met
facet 1 0 0 0 0 1 -5 1 => facet 1 0 0 at 5 # along z the edge from 5 to 8 is met
facet 0 0 1 0 0 -5 0 1 => none # in z = 0 along y the origin is met, which has no corner there
ray 1 0 0 0 0 0 -5 1 => vertex 6 # along z, exactly
back 1 0 0 0 0 0 5 1 => vertex 6 # along -z, exactly
ray 1 0 0 0 0 0 5 1 => edge 5 8 # along z
ray 0 0 1 0 0 -5 0 1 => vertex 6 # along y, exactly
ray 0 0 1 0 1 -5 0 1 => none # along y, past the origin";

#[test]
fn walls(rt: HostRuntime) {
    check_table(&rt, rt.alloc(), WALL);
    check_table(&rt, rt.alloc(), SQUARE);
    check_table(&rt, rt.alloc(), PIERCED);
}
