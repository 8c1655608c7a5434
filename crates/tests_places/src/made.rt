//! Numbers of vertices and edges of small sets, made by one worker over the locked board or by two over the free board.

use crate::tables::check_tables;

const TABLES: &str = "\
full
counts => 8 12 # the corners and edges of the frame

empty
counts => 8 12 # the same

1 0 0 0
counts => 12 20 # four edges of the frame are cut in two, and the plane has four

free 1 0 0 0
counts => 12 20 # the same

free -1 0 0 0, 1 0 0 -1, 0 -1 0 0, 0 1 0 -1, 0 0 -1 0, 0 0 1 -1
counts => 16 24 # the frame's and those of a cube

-1 0 0 0, 2 0 0 -1, 0 -1 0 0, 0 2 0 -1, 0 0 -1 0, 0 0 2 -1
counts => 16 24 # the same with corners at halves

-1 0 0 0, 1 0 0 0, 0 -1 0 0, 0 1 0 0, 0 0 -1 0, 0 0 1 0
counts => 9 12 # the frame's and a point

free 1 0 0 0, -1 0 0 0, 0 1 0 0, 0 -1 0 0
counts => 10 13 # the frame's, and the z axis with its ends

0 1 0 0, 0 -1 0 0, 0 0 1 0, 0 0 -1 0; or 1 0 0 0, -1 0 0 0, 0 0 1 0, 0 0 -1 0
counts => 13 16 # the x axis and the y axis: \
    four halves of axes, their ends, and where they cross

free 0 0 1 0; diff 0 0 1 0, 0 0 -1 0, 0 1 0 0, 0 -1 0 0, -1 0 0 0
counts => 14 22 # a half without a half of the x axis: the half has \
    12 and 20, one edge of which the slit's end cuts, and the slit is an edge

free -1 0 0 -10, 1 0 0 -10, 0 -1 0 -10, 0 1 0 -10, 0 0 -1 0, 0 0 1 -2; \
    diff open 0 1 0 -4, 0 -1 0 -4, 2 1 0 -8, -2 -1 0 -8, 2 -1 0 -8, -2 1 0 -8
counts => 28 42 # the frame's, those of a plate, and the \
    12 and 18 of its hole with six sides

free -1 0 0 0, 1 0 0 -1, 0 -1 0 0, 0 1 0 -1, 0 0 -1 0, 0 0 1 -1; bd; cl
counts => 16 24 # the shell of a cube

-1 0 0 0, 1 0 0 -1, 0 -1 0 0, 0 1 0 -1, 0 0 -1 0, 0 0 1 -1; bd; int
counts => 8 12 # nothing is inside the shell

free -1 0 0 0, 1 0 0 -1, 0 -1 0 0, 0 1 0 -1, 0 0 -1 0, 0 0 1 -1; reg; not
counts => 16 24 # what lies outside a cube";

#[test]
fn counts_of_sets(rt: HostRuntime) {
    check_tables(&rt, rt.alloc(), TABLES);
}
