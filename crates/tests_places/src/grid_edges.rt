//! Edges of combinations of the grid with another set, most of which are edges of an operand.
//!
//! The grid's vertices are 4 to 67: sixteen at each of x = 0, 10, 20 and 30, and of these four at each y.

use crate::regions::check_after;

// The steps after those of the grid, and questions about the resulting set.
const TABLES: &str = "\
diff open 1 0 0 -6, -1 0 0 4, 0 1 0 -5, 0 -1 0 -5, 0 0 1 -5, 0 0 -1 -5
counts => 80 120 # an edge of a cube is cut by a notch, which has eight vertices and eleven edges
place 2 0 0 1 => edge 4 20 in # what is left of the edge before the notch
place 5 0 0 1 => volume not # in the notch
place 8 0 0 1 => edge 24 28 in # and behind it
place 5 5 5 1 => edge 23 27 in # at the bottom of the notch
place 5 10 0 1 => edge 8 32 in # another edge of the cube

or 1 0 0 -20, -1 0 0 10, 0 1 0 -10, 0 -1 0 0, 0 0 1 -10, 0 0 -1 0
counts => 64 96 # two cubes are joined to one bar
place 15 0 0 1 => edge 4 44 in # along both cubes
place 5 10 10 1 => edge 9 49 in # along both cubes, on the other side
place 15 5 5 1 => volume in # between the cubes
place 5 20 0 1 => edge 12 24 in # of a cube that stays alone

or 1 0 0 -15, -1 0 0 5, 0 1 0 0, 0 -1 0 -5, 0 0 1 0, 0 0 -1 -5
counts => 80 121 # an edge of a box covers a half of a cube's edge, and goes on behind it
place 2 0 0 1 => edge 4 23 in # of the cube alone
place 7 0 0 1 => edge 23 24 in # of both
place 12 0 0 1 => edge 24 43 in # of the box alone

or 1 0 0 0, -1 0 0 -5, 0 1 0 0, 0 -1 0 -5, 0 0 1 0, 0 0 -1 -5
counts => 79 120 # a box and a cube have one corner in common, with six edges
place 5 0 0 1 => edge 11 27 in # of the cube, along x
place 0 5 0 1 => edge 11 15 in # of the cube, along y
place -2 0 0 1 => edge 7 11 in # of the box

not
counts => 72 108 # the complement has the edges of the grid
place 5 0 0 1 => edge 4 20 not # along x
place 0 0 25 1 => edge 6 7 not # along z

cl
counts => 72 108 # so does the closure
place 25 30 30 1 => edge 51 67 in # the last one along x";

#[test]
fn edges_of_combinations(rt: HostRuntime) {
    for table in TABLES.split("\n\n") {
        check_after(&rt, rt.alloc(), table);
    }
}
