//! Maps that are made from planes by overlaying and combining, and by interior, closure, boundary and complement; and
//! where directions lie on these maps.

ghost use Rattle.nef_geo.specs.Prelude.{normal_limit, IsAtMost, vector_of};
ghost use Rattle.nef_smap.specs.Maps.{IsLeastMap};

use crate::made::{combined, made};
use crate::texts::{add_label, add_map, add_numbers, add_raw, add_star};
use crate::words::{check, normal, op, parted};
use nef_geo::Dir;
use nef_smap::{RawStars, SPlace, SphereMap, at, label_at, sfaces, sides, star_at};
use nef_sover::overlay;
use nef_star::Op;
use std::alloc::{AllocError, Global};
use std::process::Abort;

// Steps that make a map, and questions about the map; or two maps with `||` between, and questions about the raw stars
// and the map of an operation on both. A step is a plane with the labels on, above and below; the closed half-space
// below or above a plane; a wall, which is a plane alone; a line in two planes; a ray, a line's part in a closed
// half-space; a face with the labels of the point and of all directions; an operation with such a map; or a topological
// operation. A map is told as the point's label, svertices `s`, arcs `a`, a sloop `l`, a ground `g` and a kind.
const COMBINED: &str = "line: 1 0 0, 0 1 0 => map = i / s 0 0 -1 i n / s 0 0 1 i n / edge 0 0 1
below: 0 0 1 || line: 1 0 0, 0 1 0 => map or = i / s 0 0 1 i n / l 0 0 1 i n i / vertex ; \
faces or = 0 0 1 ; map and = i / s 0 0 -1 i n / vertex
below: 0 0 1 || below: 0 0 1 => map xor = n / g n / volume ; map or = i / l 0 0 1 i n i / facet 0 0 1
line: 1 0 0, 0 1 0 || line: 1 0 0, 0 1 0 => map or = i / s 0 0 -1 i n / s 0 0 1 i n / edge 0 0 1
below: 1 0 0 / and below: 0 1 0 => \
map = i / s 0 0 -1 i - / s 0 0 1 i - / a 0 1 0 1 0 i n i / a 1 0 1 0 0 i n i / edge 0 0 1
line: 0 1 0, 0 0 1 / or line: 1 0 0, 0 0 1 => \
map = i / s -1 0 0 i n / s 0 -1 0 i n / s 0 1 0 i n / s 1 0 0 i n / vertex
line: 1 0 0, 0 1 0 / and wall: 0 0 1 => map = i / g n / vertex";

// z <= 0 without the half x >= 0 of the x axis, which leaves a whole circle from a svertex to itself; the corner of a
// closed cube with the greatest coordinates; x <= 0 with the closed octant of x, y, z >= 0, which has an arc of 270°.
const ARCS: &str = "below: 0 0 1 / diff ray: 0 0 1, 0 1 0; above 1 0 0 => \
map = n / s 1 0 0 n - / a 0 0 0 0 1 i n i / vertex
below: 1 0 0 / and below: 0 1 0 / and below: 0 0 1 => \
map = i / s -1 0 0 i - / s 0 -1 0 i - / s 0 0 -1 i - / \
a 0 1 0 0 1 i n i / a 2 0 0 1 0 i n i / a 1 2 1 0 0 i n i / vertex
below: 1 0 0 || above: 1 0 0 / and above: 0 1 0 / and above: 0 0 1 => \
map or = i / s 0 0 1 i - / s 0 1 0 i - / s 1 0 0 i - / \
a 2 1 0 0 1 i i n / a 0 2 0 1 0 i i n / a 0 1 1 0 0 i n i / vertex";

// Raw stars, and the map made of them, which lacks some: z <= 0 with the x axis and the z axis, where the stars are
// straight along x, plain below, and neither above; z <= 0 without the half y >= 0 of the y axis, with the x axis and
// the half z <= 0 of the z axis, where the one star that is neither straight nor plain stands on the circle; a point, a
// line, a plane and a volume; one label everywhere.
const BUILT: &str = "below: 0 0 1 || line: 0 1 0, 0 0 1 / or line: 1 0 0, 0 1 0 => \
raw or = i / t -1 0 0 / t 0 0 -1 / t 0 0 1 / t 1 0 0 ; map or = i / s 0 0 1 i n / l 0 0 1 i n i / vertex
below: 0 0 1 / diff ray: 1 0 0, 0 0 1; above 0 1 0 || \
line: 0 1 0, 0 0 1 / or ray: 1 0 0, 0 1 0; below 0 0 1 => \
raw or = i / t -1 0 0 / t 0 0 -1 / t 0 1 0 / t 1 0 0 ; \
map or = i / s 0 1 0 n - / a 0 0 0 0 1 i n i / vertex
face: i n => map = i / g n / vertex
line: 0 1 0, 0 0 1 => map = i / s -1 0 0 i n / s 1 0 0 i n / edge 1 0 0
wall: 0 0 1 => map = i / l 0 0 1 i n n / facet 0 0 1
face: i i => map = i / g i / volume
face: i i || face: i i => raw and = i / g i ; map and = i / g i / volume";

// Two planes overlaid, where the first star begins on the side of negative x, and x <= 0 and y <= 0 hold in the last
// quarter alone; and a plane overlaid with itself.
const OVERLAID: &str = "below: 1 0 0 || below: 0 1 0 => \
raw and = i / t 0 0 -1 / t 0 0 1 ; first and = i 4 rays n n n i
below: 0 0 1 || below: 0 0 1 => raw xor = n / l 0 0 1 n n n";

// A closed half-space; exchanged labels of a plane with `Out` below, which stays, of a line, and of x <= 0 and y <= 0;
// a set that touches the frame and keeps its inside and its `Out`; x <= 0 and y <= 0, whose interior has the same items
// without a mark In; a part of the plane x = 0 that ends at y = 0, without this end.
const TOPOLOGY: &str = "below: 1 0 0 / interior => map = n / l 1 0 0 n n i / facet 1 0 0
below: 1 0 0 / interior / closure => map = i / l 1 0 0 i n i / facet 1 0 0
below: 1 0 0 / boundary => map = i / l 1 0 0 i n n / facet 1 0 0
below: 1 0 0 / complement => map = n / l 1 0 0 n i n / facet 1 0 0
plane: 0 0 1; n i o / exchanged => map = i / l 0 0 1 i n o / facet 0 0 1
line: 1 0 0, 0 1 0 / exchanged => map = n / s 0 0 -1 n i / s 0 0 1 n i / edge 0 0 1
below: 1 0 0 / and below: 0 1 0 / exchanged => \
map = n / s 0 0 -1 n - / s 0 0 1 n - / a 0 1 0 1 0 n i n / a 1 0 1 0 0 n i n / edge 0 0 1
plane: 0 0 1; o o i / interior => map = o / l 0 0 1 o o i / facet 0 0 1
plane: 0 0 1; o o i / closure => map = o / l 0 0 1 o o i / facet 0 0 1
below: 1 0 0 / and below: 0 1 0 / interior => \
map = n / s 0 0 -1 n - / s 0 0 1 n - / a 0 1 0 1 0 n n i / a 1 0 1 0 0 n n i / edge 0 0 1
plane: 1 0 0; i n n / and plane: 0 1 0; n n i => \
map = n / s 0 0 -1 n - / s 0 0 1 n - / a 1 0 1 0 0 i n n / edge 0 0 1
plane: 1 0 0; i n n / and plane: 0 1 0; n n i / closure => \
map = i / s 0 0 -1 i - / s 0 0 1 i - / a 1 0 1 0 0 i n n / edge 0 0 1
plane: 1 0 0; i n n / and plane: 0 1 0; n n i / closure / interior => map = n / g n / volume";

// Where directions lie on a map of one face, and on the map of a slanted plane with In on, and Out above, the plane.
const PLACES: &str = "plane: 1 1 -1; i o n => at 0 0 1 = face 1 n ; at 0 0 -1 = face 0 o ; \
at 1 0 1 = loop i ; at 0 1 1 = loop i ; at 1 -1 0 = loop i ; at 1 1 1 = face 0 o ; \
at -1 -1 -1 = face 1 n ; at -1 1 1 = face 1 n ; star 1 -1 0 = i 2 rays o n ; faces = 0 1 ; \
through 1 1 -1, 1 0 1 = item 0 ; through 1 1 -1, 1 0 0 = none ; through 0 0 1, 1 0 0 = none
face: i n => sides = 1 ; at -1 2 3 = face 0 n ; faces = 0";

fn add_first_star(text: &mut String, raw: &RawStars) -> Option<()> {
    add_star(text, raw.stars.as_slice().first()?).ok()
}

// Adds the answer about the raw stars of two maps overlaid.
fn add_overlaid(
    alloc: Global,
    text: &mut String,
    a: &SphereMap,
    b: &SphereMap,
    op: Op,
    verb: &str,
) -> Option<()>
    requires first { IsLeastMap a.now }
    requires second { IsLeastMap b.now }
{
    let raw = overlay(alloc, a, b, op).ok()?;
    match verb {
        "raw" => add_raw(text, &raw).ok(),
        _ => add_first_star(text, &raw),
    }
}

fn add_place(text: &mut String, map: &SphereMap, d: &Dir) -> Result<(), AllocError>
    requires map { IsLeastMap map.now }
{
    match at(map, d) {
        SPlace::SVertex(k) => write!(text, "svertex {k}")?,
        SPlace::Arc(k) => write!(text, "arc {k}")?,
        SPlace::Loop => text.push_str("loop")?,
        SPlace::Face(k) => write!(text, "face {k}")?,
    }
    add_label(text, label_at(map, d))
}

fn add_item_through(text: &mut String, map: &SphereMap, things: &str) -> Option<()>
    requires map { IsLeastMap map.now }
{
    let (first, second) = parted(things, ", ");
    match map.item_through(&normal(first)?, &normal(second)?) {
        Some(number) => write!(text, "item {number}").ok(),
        None => text.push_str("none").ok(),
    }
}

fn add_faces(alloc: Global, text: &mut String, map: &SphereMap) -> Result<(), AllocError>
    requires map { IsLeastMap map.now }
{
    let faces = sfaces(alloc, map)?;
    add_numbers(text, faces.as_slice())
}

fn add_star_at(alloc: Global, text: &mut String, map: &SphereMap, d: &Dir) -> Result<(), AllocError>
    requires map { IsLeastMap map.now }
    requires small { IsAtMost normal_limit (vector_of d.now) }
{
    let star = star_at(alloc, map, d)?;
    add_star(text, &star)
}

// Adds the answer to a question about a map.
fn add_of_one(
    alloc: Global,
    text: &mut String,
    map: &SphereMap,
    verb: &str,
    words: &str,
) -> Option<()>
    requires map { IsLeastMap map.now }
{
    match verb {
        "map" => add_map(text, map).ok(),
        "faces" => add_faces(alloc, text, map).ok(),
        "sides" => write!(text, "{}", sides(map)).ok(),
        "at" => add_place(text, map, &normal(words)?).ok(),
        "star" => add_star_at(alloc, text, map, &normal(words)?).ok(),
        "through" => add_item_through(text, map, words),
        _ => None,
    }
}

// Adds the answer about two maps combined.
fn add_combined(
    alloc: Global,
    text: &mut String,
    a: &SphereMap,
    b: &SphereMap,
    op: Op,
    verb: &str,
) -> Option<()>
    requires first { IsLeastMap a.now }
    requires second { IsLeastMap b.now }
{
    let map = combined(alloc, a, b, op)?;
    add_of_one(alloc, text, &map, verb, "")
}

// Adds the answer to a question about an operation on two maps, or about the first map.
fn add_answer(
    alloc: Global,
    text: &mut String,
    a: &SphereMap,
    b: &SphereMap,
    question: &str,
) -> Option<()>
    requires first { IsLeastMap a.now }
    requires second { IsLeastMap b.now }
{
    let (verb, words) = parted(question, " ");
    match op(words) {
        Some(op) if verb == "raw" || verb == "first" => {
            add_overlaid(alloc, text, a, b, op, verb)
        }
        Some(op) => add_combined(alloc, text, a, b, op, verb),
        None => add_of_one(alloc, text, a, verb, words),
    }
}

// Whether the part's question has the part's answer.
fn fits(alloc: Global, a: &SphereMap, b: &SphereMap, part: &str) -> Option<bool>
    requires first { IsLeastMap a.now }
    requires second { IsLeastMap b.now }
{
    let (question, wanted) = part.split_once(" = ")?;
    let mut text = String::new(alloc);
    add_answer(alloc, &mut text, a, b, question)?;
    Some(text.as_str().trim_start() == wanted)
}

fn all_fit(alloc: Global, a: &SphereMap, b: &SphereMap, answers: &str) -> bool
    requires first { IsLeastMap a.now }
    requires second { IsLeastMap b.now }
{
    for part in answers.split(" ; ") {
        if fits(alloc, a, b, part) != Some(true) {
            return false;
        }
    }
    true
}

fn all_fit_with(alloc: Global, a: &SphereMap, steps: &str, answers: &str) -> bool
    requires first { IsLeastMap a.now }
{
    match made(alloc, steps) {
        Some(b) => all_fit(alloc, a, &b, answers),
        None => false,
    }
}

// Whether the row's answers are right for the maps of two lists of steps, or of one list for both maps.
fn holds(alloc: Global, row: &str) -> bool {
    let (steps, answers) = parted(row, " => ");
    let (first, second) = steps.split_once(" || ").unwrap_or((steps, steps));
    match made(alloc, first) {
        Some(map) => all_fit_with(alloc, &map, second, answers),
        None => false,
    }
}

fn check_rows(rt: &impl Abort, alloc: Global, table: &str) {
    for row in table.split('\n') {
        check(rt, holds(alloc, row), row);
    }
}

#[test]
fn maps(rt: HostRuntime) {
    let alloc = rt.alloc();
    check_rows(&rt, alloc, COMBINED);
    check_rows(&rt, alloc, ARCS);
    check_rows(&rt, alloc, BUILT);
    check_rows(&rt, alloc, OVERLAID);
    check_rows(&rt, alloc, TOPOLOGY);
    check_rows(&rt, alloc, PLACES);
}
