//! The empty set, whose vertices and edges are those of the frame, and the whole frame.
//!
//! The frame's corners are 0 (-, -, -), 1 (-, -, +), 2 (-, +, -), 3 (-, +, +), 4 (+, -, -), 5 (+, -, +), 6 (+, +, -)
//! and 7 (+, +, +), where + stands for 2048 and - for -2048.

use crate::tables::check_table;

const PLACES: &str = "\
frame not
counts => 8 12 # the corners and edges of the frame
same_as_empty => true # the empty set twice
same_as_full => false # the empty set and the whole frame
place 0 0 0 1 => volume not # inside the frame
place 2048 0 0 1 => facet 1 0 0 at 5 out # along z the edge from 5 to 7 is met
kind 0 0 0 1 => volume # inside the frame
down 0 0 0 1 => facet 1 0 0 at 1 out # on x = -2048 along z the edge from 1 to 3 is met
up 2048 0 0 1 => none # nothing lies beyond the frame
facet 1 0 0 2048 -2048 0 0 1 => facet 1 0 0 at 1 # along z the edge from 1 to 3 is met
facet 1 0 0 0 0 0 0 1 => none # no facet lies in x = 0
ray 1 0 0 2048 -2048 0 0 1 => edge 1 3 # along z
ray 1 0 0 2048 -2048 2048 2048 1 => none # along z, from a corner outward
from 1 0 0 2048 2 => edge 1 3 # along (0, -1, 2^24), from (-, +, -) to the edge from (-, -, +) to (-, +, +)
along 1 0 0 2048 2 => edge 1 3 # the same";

const ITEMS: &str = "\
frame not
corner 0 => ---1o 001o- 010o- 100o- 21001ono 02010ono 10100ono # inward the edges go along x, y and z
corner 1 => --+1o 00-o- 010o- 100o- 21001oon 20010ono 01100ono # along x, y and -z
corner 2 => -+-1o 0-0o- 001o- 100o- 02001ono 12010oon 10100ono # along x, -y and z
corner 3 => -++1o 0-0o- 00-o- 100o- 02001oon 21010oon 01100ono # along x, -y and -z
corner 4 => +--1o -00o- 001o- 010o- 20001ono 01010ono 21100oon # along -x, y and z
corner 5 => +-+1o -00o- 00-o- 010o- 20001oon 10010ono 12100oon # along -x, y and -z
corner 6 => ++-1o -00o- 0-0o- 001o- 01001ono 02010oon 21100oon # along -x, -y and z
corner 7 => +++1o -00o- 0-0o- 00-o- 01001oon 20010oon 12100oon # along -x, -y and -z
edges => 0010o 0120o 0240o 1130o 1250o 2131o 2260o 3270o 4151o 4261o 5271o 6272o # four along each axis
planes => 001- 001+ 010- 010+ 100- 100+ # the six sides
items 0 0 1 -2048 => edges 3 4 7 10 vertices 1 3 5 7 # the side z = 2048
items 0 0 1 2048 => edges 1 2 6 9 vertices 0 2 4 6 # the side z = -2048
items 0 1 0 -2048 => edges 5 6 7 11 vertices 2 3 6 7 # the side y = 2048
items 0 1 0 2048 => edges 0 2 4 8 vertices 0 1 4 5 # the side y = -2048
items 1 0 0 -2048 => edges 8 9 10 11 vertices 4 5 6 7 # the side x = 2048
items 1 0 0 2048 => edges 0 1 3 5 vertices 0 1 2 3 # the side x = -2048
items 1 0 0 0 => none # no side lies in x = 0";

// The facets and volumes of the frame. The way inward across a facet is toward greater x, and more toward lesser y.
const PARTS: &str = "\
frame not
volumes => on # the outside of the frame, and its inside
beside => 10 10 10 01 01 01 # the normals of three sides at the low ends point inward, and of those at the high ends outward
facets => 001+ 010+ 100+ 001- 010- 100- # the sides by their lowest corners
marks => oooooo # the border belongs to no set
cycles => 00406020 01115141 02223212 10507030 21317161 42627252 # four corners of each side
ties_along => 24 # each edge has two
tie_along 0 0 4 0 => true # in the cycle of the side z = -2048
tie_along 4 0 6 0 => true # the same
tie_along 2 0 6 0 => true # the same
tie_along 0 0 2 0 => true # the same
ties_across => 6 # each side has one
tie_across 2 0 0 0 => true # on the side z = -2048
tie_across 3 0 1 0 => true # on the side z = 2048";

const WHOLE: &str = "\
frame in
candidates => 8 # the corners of the frame
cut 1 0 0 0 => 12 # the corners, and where the plane x = 0 cuts four edges
changed => none # every turn keeps the frame";

// The octant 4 x <= 1, 4 y <= 2, 4 z <= 3.
const OCTANT: &str = "\
4 0 0 -1, 0 4 0 -2, 0 0 4 -3
turned 1 2 3 4 0 => true # nothing moved
turned -1 2 3 4 1 => true # -x, y and z
turned 2 1 3 4 16 => true # y, x and z
turned -2 3 1 4 25 => true # -y, z and x
turned -3 -2 -1 4 47 => true # -z, -y and -x
turned 1 2 3 4 47 => false # where the corner was";

#[test]
fn the_frame(rt: HostRuntime) {
    check_table(&rt, rt.alloc(), PLACES);
    check_table(&rt, rt.alloc(), ITEMS);
    check_table(&rt, rt.alloc(), PARTS);
    check_table(&rt, rt.alloc(), WHOLE);
}

#[test]
fn turned_corners(rt: HostRuntime) {
    check_table(&rt, rt.alloc(), OCTANT);
}
