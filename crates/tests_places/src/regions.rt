//! Combinations of a grid of cubes with sets that lie far from the grid's skeleton, or just within its reach.
//!
//! The grid has eight closed cubes of points whose coordinates are each 0 to 10 or 20 to 30. Its 64 vertices and the
//! frame's eight corners are candidates of each combination, and its skeleton in the open frame reaches from 0 to 30 in
//! each coordinate. An added box has eight vertices and twelve edges, and so has the frame; the grid has 96 edges.

use crate::tables::check_table;
use crate::words::check;
use std::alloc::Global;
use std::process::Abort;
use std::sync::Wait;
use std::thread::Threads;

const GRID: &str = "\
1 0 0 -30, -1 0 0 0, 0 1 0 -30, 0 -1 0 0, 0 0 1 -30, 0 0 -1 0; diff open 1 0 0 -20, -1 0 0 10; \
    diff open 0 1 0 -20, 0 -1 0 10; diff open 0 0 1 -20, 0 0 -1 10";

// The steps after those of the grid, and questions about the resulting set.
const TABLES: &str = "\
or 1 0 0 -40, -1 0 0 30, 0 1 0 -28, 0 -1 0 22, 0 0 1 -28, 0 0 -1 22
counts => 80 120 # the box begins where the grid ends
place 30 25 25 1 => volume in # so no wall is left between them
place 30 22 22 1 => vertex 64 in # where a corner of the box meets the grid
place 35 25 25 1 => volume in # in the box
place 35 15 25 1 => volume not # beside it

or 2 0 0 -80, -2 0 0 61, 0 1 0 -28, 0 -1 0 22, 0 0 1 -28, 0 0 -1 22
counts => 80 120 # the box begins 1/2 past the grid
place 121 100 100 4 => volume not # in the gap, at x = 30 1/4
place 61 44 44 2 => vertex 68 in # a corner of the box
kind 61 50 50 2 => facet 1 0 0 # its side toward the grid

not; and 1 0 0 -28, -1 0 0 22, 0 1 0 -28, 0 -1 0 22, 0 0 1 50, 0 0 -1 -60
counts => 16 24 # far from the grid its complement holds everything, so the box is left
place 25 25 -55 1 => volume in # in the box
place 25 25 -45 1 => volume not # above it
place 25 25 15 1 => volume not # between the cubes

not; diff 1 0 0 -28, -1 0 0 22, 0 1 0 50, 0 -1 0 -60, 0 0 1 -28, 0 0 -1 22
counts => 80 120 # the box is a hole in the complement
place 25 -55 25 1 => volume not # in the box
place 25 -45 25 1 => volume in # past it
place 5 5 5 1 => volume not # in a cube of the grid

not; or 1 0 0 50, -1 0 0 -60, 0 1 0 -28, 0 -1 0 22, 0 0 1 -28, 0 0 -1 22
counts => 72 108 # the complement holds the box
place -55 25 25 1 => volume in # in the box
place -50 25 25 1 => volume in # on its side
place 2048 2048 2048 1 => vertex 71 out # the frame's last corner

and 1 0 0 -28, -1 0 0 22, 0 1 0 -60, 0 -1 0 50, 0 0 1 -28, 0 0 -1 22
counts => 8 12 # far from the grid it holds nothing
place 25 55 25 1 => volume not # in the box

or -1 0 0 2000, 0 1 0 -28, 0 -1 0 22, 0 0 1 -28, 0 0 -1 22
counts => 80 120 # the box ends on the border of the frame
vertex 2048 22 22 1 => 74 # after two corners of that side
kind 2048 25 25 1 => facet 1 0 0 # the border at the box
place 2048 22 22 1 => vertex 74 out # no point of the border is in the frame
place 2024 25 25 1 => volume in # in the box

not; and 1 0 0 -28, -1 0 0 22, 0 1 0 -28, 0 -1 0 22, 0 0 -1 2000
counts => 16 24 # the complement has the box, which ends on the border of the frame
vertex 22 22 2048 1 => 5 # after four corners of the frame and the corner of the box below it
place 25 25 2024 1 => volume in # in the box
place 25 25 25 1 => volume not # in a cube of the grid

and full
counts => 72 108 # the whole frame has no skeleton within the open frame, and holds the grid
place 25 25 25 1 => volume in # in a cube of the grid

diff full
counts => 8 12 # nothing is left of the grid
place 25 25 25 1 => volume not # in a cube of the grid";

/// Checks a table about the grid, whose first line has the steps after those of the grid.
pub(crate) fn check_after<R: Threads + Wait + Sync + Abort>(rt: &R, alloc: Global, table: &str) {
    match format!(in alloc; "{GRID}; {table}") {
        Ok(table) => check_table(rt, alloc, table.as_str()),
        Err(_) => check(rt, false, "memory", table),
    }
}

#[test]
fn combinations_far_from_the_skeleton(rt: HostRuntime) {
    for table in TABLES.split("\n\n") {
        check_after(&rt, rt.alloc(), table);
    }
}
