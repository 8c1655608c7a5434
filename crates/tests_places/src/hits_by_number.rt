//! Hits among the vertices of a plane, and rays within a plane from its vertices, where the numbers of vertices tell
//! vertices and edges apart.
//!
//! Vertices are numbered in the order of their x, then y, then z. Below + stands for 2048 and - for -2048.

use crate::tables::check_table;

// Two squares in the plane x = 0: y is -5 to -1 in one and 1/2 to 5/2 in the other, and z is -2 to 2 in both.
//
// The vertices 0 to 3 are corners with x = -2048; 4 is (0, -5, -2), 5 (0, -5, 2), 6 (0, -1, -2), 7 (0, -1, 2), 8 (0,
// 1/2, -2), 9 (0, 1/2, 2), 10 (0, 5/2, -2), 11 (0, 5/2, 2); 12 is (+, -, -), 13 (+, -, +), 14 (+, +, -), 15 (+, +, +).
// A ray that rises past the squares comes to x = 2048, where it meets the edge from 13 to 15.
const SQUARES: &str = "\
1 0 0 0, -1 0 0 0, 0 1 0 1, 0 -1 0 -5, 0 0 1 -2, 0 0 -1 -2; or 1 0 0 0, -1 0 0 0, 0 -2 0 1, 0 2 0 -5, 0 0 1 -2, 0 0 -1 -2
counts => 16 20 # the frame's and those of two squares
rising 0 -6 0 1 => facet 1 0 0 at 13 out # before all vertices of the plane
rising 0 -5 -3 1 => facet 1 0 0 at 13 out # before them too, on the line of the edge from 4 to 5
rising 0 -5 -2 1 => vertex 4 in # the first vertex
rising 0 -5 -1 1 => edge 4 5 in # between the first two
rising 0 -10 3 2 => edge 4 5 in # y = -5 and z = 3/2, over a weight
rising 0 -5 2 1 => vertex 5 in # the edge from 4 ends here, that to 7 begins
rising 0 -5 3 1 => facet 1 0 0 at 13 out # right after vertex 5, on the line of the edge from 4 to 5
rising 0 -9 0 2 => facet 1 0 0 at 5 in # y = -9/2, in the first square: along z the edge from 5 to 7 is met
rising 0 -3 -2 1 => edge 4 6 in # between edges that have their ends by turns
rising 0 -3 2 1 => edge 5 7 in # on the other of the two
rising 0 -7 4 2 => edge 5 7 in # y = -7/2 and z = 2, over a weight
rising 0 -1 -2 1 => vertex 6 in # the edge from 4 ends here, that to 7 begins
rising 0 -1 0 1 => edge 6 7 in # between the last two of the square
rising 0 -1 2 1 => vertex 7 in # two edges end here
rising 0 0 2 1 => facet 1 0 0 at 13 out # between the squares, on the line of an edge of each
rising 0 0 -2 1 => facet 1 0 0 at 13 out # the same below
rising 0 1 -4 2 => vertex 8 in # two edges begin here; y = 1/2
rising 0 1 1 2 => edge 8 9 in # y and z are 1/2
rising 0 1 4 2 => vertex 9 in # the edge from 8 ends here, that to 11 begins
rising 0 1 0 1 => facet 1 0 0 at 9 in # y = 1, in the second square: along z the edge from 9 to 11 is met
rising 0 3 4 2 => edge 9 11 in # y = 3/2
rising 0 3 -4 2 => edge 8 10 in # the same below
rising 0 5 -4 2 => vertex 10 in # the last but one
rising 0 5 0 2 => edge 10 11 in # between the last two
rising 0 5 4 2 => vertex 11 in # the last vertex
rising 0 5 6 2 => facet 1 0 0 at 13 out # past all, on the line of the edge from 10 to 11
rising 0 3 0 1 => facet 1 0 0 at 13 out # past all
falling 0 -5 2 1 => vertex 5 in # the same from above
falling 0 -3 2 1 => edge 5 7 in # the same from above
falling 0 1 1 2 => edge 8 9 in # the same from above
falling 0 0 2 1 => facet 1 0 0 at 1 out # between the squares: on x = -2048 along z the edge from 1 to 3 is met
place 0 -5 0 1 => edge 4 5 in # the same of points
place 0 1 4 2 => vertex 9 in # the same of points
place 0 0 2 1 => volume not # the same of points";

// The triangle with the corners (0, 4), (4, 0) and (4, 4) in the plane z = 0, whose second direction is (-1, 2^24, 0).
//
// The vertices 0 to 3 are corners with x = -2048; 4 is (0, 4, 0), 5 (4, 0, 0), 6 (4, 4, 0).
const BACK: &str = "\
0 0 1 0, 0 0 -1 0, 1 0 0 -4, 0 1 0 -4, -1 -1 0 4
counts => 11 15 # the frame's and the triangle's
along 0 0 1 0 5 => edge 4 6 # just before x = 4 the edge is met that begins at the vertex before the start
from 0 0 1 0 5 => edge 4 6 # the same
along 0 0 1 0 4 => none # it leads out of the triangle
along 0 0 1 0 6 => none # it leads out of the triangle
against 0 0 1 0 6 => none # just past x = 4 it leads out of the triangle
against 0 0 1 0 4 => none # just past x = 0 it leads out too";

// The triangle with the corners (0, 0, 0), (0, 4, 0) and (4, 0, 4) in the plane x = z, whose second direction is
// (1, -2^24, 1).
//
// The vertices 0 to 3 are corners with x = -2048; 4 is (0, 0, 0), 5 (0, 4, 0), 6 (4, 0, 4).
const ON: &str = "\
1 0 -1 0, -1 0 1 0, -1 0 0 0, 0 -1 0 0, 1 1 0 -4
counts => 11 15 # the frame's and the triangle's
along 1 0 -1 0 5 => edge 4 6 # just past x = 0 the edge is met that ends at the vertex after the start
from 1 0 -1 0 5 => edge 4 6 # the same
along 1 0 -1 0 4 => none # it leads out of the triangle
along 1 0 -1 0 6 => none # it leads out of the triangle
against 1 0 -1 0 6 => none # just before x = 4 it leads out of the triangle
against 1 0 -1 0 4 => none # just before x = 0 it leads out of the triangle";

// In the plane z = 0 two squares, where x is 0 to 4, and y 0 to 4 or 6 to 10; and a strip, where x is -8 to 12 and y 20
// to 22. The plane's second direction is (-1, 2^24, 0).
//
// The vertices 0 to 3 are corners with x = -2048; 4 is (-8, 20, 0), 5 (-8, 22, 0); 6 to 9 are (0, 0, 0), (0, 4, 0), (0,
// 6, 0), (0, 10, 0); 10 to 13 are (4, 0, 0), (4, 4, 0), (4, 6, 0), (4, 10, 0); 14 is (12, 20, 0), 15 (12, 22, 0).
const STRIP: &str = "\
0 0 1 0, 0 0 -1 0, -1 0 0 0, 1 0 0 -4, 0 -1 0 0, 0 1 0 -4; or 0 0 1 0, 0 0 -1 0, -1 0 0 0, 1 0 0 -4, 0 -1 0 6, 0 1 0 -10; \
    or 0 0 1 0, 0 0 -1 0, -1 0 0 -8, 1 0 0 -12, 0 -1 0 20, 0 1 0 -22
counts => 20 24 # the frame's, and those of two squares and a strip
along 0 0 1 0 10 => edge 7 11 # just before x = 4, in the first square
along 0 0 1 0 11 => edge 8 12 # on to the second square
along 0 0 1 0 12 => edge 9 13 # in the second square
along 0 0 1 0 13 => edge 4 14 # on to the strip, whose ends lie far on both sides
along 0 0 1 0 6 => edge 4 14 # just before x = 0, past both squares
along 0 0 1 0 9 => edge 4 14 # the same
along 0 0 1 0 14 => edge 5 15 # just before x = 12, in the strip
along 0 0 1 0 4 => none # just before x = -8
along 0 0 1 0 5 => none # from the strip up
along 0 0 1 0 15 => none # from the strip up
against 0 0 1 0 9 => edge 8 12 # just past x = 0, in the second square
against 0 0 1 0 8 => edge 7 11 # on to the first square
against 0 0 1 0 7 => edge 6 10 # in the first square
against 0 0 1 0 6 => none # down from the squares
against 0 0 1 0 13 => none # just past x = 4, past both squares
against 0 0 1 0 5 => edge 4 14 # just past x = -8, in the strip
against 0 0 1 0 4 => none # down from the strip
against 0 0 1 0 15 => none # just past x = 12
ray 0 0 1 0 4 5 0 1 => vertex 12 # along y at x = 4, exactly
ray 0 0 1 0 2 5 0 1 => edge 8 12 # along y between the ends of the edge
ray 0 0 1 0 -1 5 0 1 => edge 4 14 # along y past the squares
ray 0 0 1 0 -8 5 0 1 => vertex 4 # along y, the first vertex of the plane
ray 0 0 1 0 12 5 0 1 => vertex 14 # along y, the last but one
ray 0 0 1 0 13 5 0 1 => none # along y past the strip
back 0 0 1 0 4 12 0 1 => vertex 13 # along -y, exactly
back 0 0 1 0 3 12 0 1 => edge 9 13 # along -y";

#[test]
fn hits_by_number(rt: HostRuntime) {
    check_table(&rt, rt.alloc(), SQUARES);
    check_table(&rt, rt.alloc(), BACK);
    check_table(&rt, rt.alloc(), ON);
    check_table(&rt, rt.alloc(), STRIP);
}
