//! Planes, points and directions: answers that no clause gives, and each call once.

ghost use Rattle.std.specs.Prelude.{◌↔◌, ◌≤◌};
ghost use Rattle.nef_geo.specs.Prelude.{nat_abs, IsTrue};

use crate::words::{check, is_at_most, numbers, parted, way};
use nef_geo::{
    Dir, List, Oriented, Plane, PlaneFault, Point, Sign, cross, dir_cmp, dir_side, dot, hit_at,
    hit_side, lex_cmp, meet, plane_axis, plane_dir, quad, side, triple,
};
use std::alloc::{AllocError, Global};
use std::cmp::Ordering;
use std::process::Abort;

// Questions about planes, points and directions, and their answers. The answer to `read` is the plane's numbers, and
// whether they have the opposite sign.
const ROWS: &str = "read -2 0 0 4 => 1 0 0 -2 flipped
read 0 0 0 4194305 => OutOfRange
read 2049 0 0 0 => OutOfRange
read 0 0 0 4194304 => ZeroNormal
read -2048 2048 -2048 -4194303 => 2048 -2048 2048 4194303 flipped
read 0 -6 4 10 => 0 3 -2 -5 flipped
frame 0 => 1 0 0 2048
frame 5 => 0 0 1 -2048
point 2 -4 6 8 => 1 -2 3 4 inside
point 2048 0 0 1 => 2048 0 0 1 outside
point -2047 0 2047 1 => -2047 0 2047 1 inside
point 105553116266496 -105553116266495 0 51539607552 => 105553116266496 -105553116266495 0 51539607552 outside
given_side -1 0 0 0, 3 0 0 2 => -1
side -1 0 0 0, 3 0 0 2 => Plus
side 2048 2048 2048 4194303, -105553116266496 -105553116266495 -105553116266496 51539607551 => Minus
hit_side 2048 2048 2048 4194303, -105553116266496 -105553116266495 -105553116266496 51539607551 => Minus
direction 0 0 0 => none
direction -4 6 8 => -2 3 4
back -4 6 8 => 2 -3 -4
direction 137438953472 -137438953471 0 => 137438953472 -137438953471 0
way_order -4 6 8, 137438953472 -137438953471 0 => Less
order -4 6 8, -2 3 4 => Equal
dot 1 0 0, 0 1 0 => Zero
triple 1 0 0, 0 1 0, 0 0 1 => Plus
triple 0 1 0, 1 0 0, 0 0 1 => Minus
way_side 0 -1 0 7, 0 1 0 => Plus
triple 137438953472 -137438953471 137438953471, 137438953471 137438953472 -137438953469, \
-137438953467 137438953471 137438953472 => Plus
cross 2048 2047 -2048, -2047 2048 2045 => 8380419 4096 8384513
cross 2048 2047 -2048, 2048 2047 -2048 => none
quad 137438953472 -137438953471 137438953471, 8388607 8388608 -8388605, -8388603 8388607 8388608, \
8388608 -8388607 8388607 => Plus
quad 137438953472 -137438953471 137438953471, 8388607 8388608 -8388605, 8388608 -8388607 8388607, \
-8388603 8388607 8388608 => Minus
meet 1 0 0 0, 1 0 0 -1, 0 1 0 0 => none
plane_order 1 0 0 0, 1 0 0 -1 => Greater
meet 2041 2048 2045 -4194301, 2048 -2048 -2048 -4194303, 2048 2048 -2041 4194304 => \
70248451602432 -70197142609871 70368718997504 34217232384
point_order 70248451602432 -70197142609871 70368718997504 34217232384, 2053 0 0 1 => Greater
point_order 70248451602432 -70197142609871 70368718997504 34217232384, 70248451602432 0 0 34217232384 => Less
direction up => 67108864 8192 1
axis 2 4 6 1 => 0 3 -2
across 2 4 6 1 => -3 50331648 -33554431
axis 3 2 0 0 => 0 0 -1
across 3 2 0 0 => 2 -3 -33554432
axis 1 0 0 0 => 0 0 1
across 1 0 0 0 => 0 -1 16777216";

fn is_within(n: i64, limit: u64) -> bool
    ensures within { IsTrue result ↔ (nat_abs n ≤ limit) }
{
    n.unsigned_abs() <= limit
}

fn point_of(x: i64, y: i64, z: i64, w: i64) -> Option<Point> {
    let near = is_within(x, 3 << 45) && is_within(y, 3 << 45) && is_within(z, 3 << 45);
    if near && is_within(w, 3 << 34) && w > 0 {
        Some(Point::of(x, y, z, w))
    } else {
        None
    }
}

pub(crate) fn point(text: &str) -> Option<Point> {
    let [x, y, z, w] = numbers(text)?;
    point_of(x, y, z, w)
}

// The plane of four numbers, with the side that was given.
fn given(text: &str) -> Option<Oriented> {
    let [a, b, c, d] = numbers(text)?;
    Plane::read(a, b, c, d).ok()
}

pub(crate) fn plane(text: &str) -> Option<Plane> {
    Some(given(text)?.plane())
}

fn are_numbers(list: &[i64; 4], wanted: &str) -> bool {
    numbers(wanted) == Some(*list)
}

fn is_plane(h: &Plane, wanted: &str) -> bool {
    are_numbers(&[h.a(), h.b(), h.c(), h.d()], wanted)
}

fn is_point(p: &Point, wanted: &str) -> bool {
    are_numbers(&[p.x(), p.y(), p.z(), p.w()], wanted)
}

/// Whether the direction has these numbers.
pub(crate) fn is_way(d: &Dir, wanted: &str) -> bool {
    are_numbers(&[d.x(), d.y(), d.z(), 0], wanted)
}

// Whether there is the wanted direction, or no direction where `none` is wanted.
fn is_maybe_way(d: Option<Dir>, wanted: &str) -> bool {
    match d {
        Some(d) => is_way(&d, wanted),
        None => wanted == "none",
    }
}

fn is_given(given: &Oriented, wanted: &str) -> bool {
    let (numbers, turned) = parted(wanted, " flipped");
    is_plane(&given.plane(), numbers) && given.flipped() == (numbers != wanted)
}

fn is_read(text: &str, wanted: &str) -> Option<bool> {
    let [a, b, c, d] = numbers(text)?;
    match Plane::read(a, b, c, d) {
        Ok(given) => Some(is_given(&given, wanted)),
        Err(PlaneFault::OutOfRange) => Some(wanted == "OutOfRange"),
        Err(PlaneFault::ZeroNormal) => Some(wanted == "ZeroNormal"),
    }
}

fn is_side_of_frame(text: &str, wanted: &str) -> Option<bool> {
    let number: usize = text.parse().ok()?;
    if number < 6 {
        Some(is_plane(&Plane::frame(number), wanted))
    } else {
        None
    }
}

fn is_placed(text: &str, wanted: &str) -> Option<bool> {
    let p = point(text)?;
    let (numbers, place) = wanted.rsplit_once(' ')?;
    Some(is_point(&p, numbers) && p.in_frame() == (place == "inside"))
}

// Whether `wanted` is the answer to the question about one plane, point or direction.
fn fits_one(verb: &str, a: &str, wanted: &str) -> Option<bool> {
    match verb {
        "read" => is_read(a, wanted),
        "frame" => is_side_of_frame(a, wanted),
        "point" => is_placed(a, wanted),
        "direction" => Some(is_maybe_way(way(a), wanted)),
        "back" => Some(is_way(&way(a)?.back(), wanted)),
        "axis" => Some(is_way(&plane_axis(&plane(a)?), wanted)),
        "across" => Some(is_way(&plane_dir(&plane(a)?), wanted)),
        _ => None,
    }
}

/// Whether the order has this name.
pub(crate) fn is_order(order: Ordering, wanted: &str) -> bool {
    match order {
        Ordering::Less => wanted == "Less",
        Ordering::Equal => wanted == "Equal",
        Ordering::Greater => wanted == "Greater",
    }
}

fn is_sign(sign: Sign, wanted: &str) -> bool {
    match sign {
        Sign::Minus => wanted == "Minus",
        Sign::Zero => wanted == "Zero",
        Sign::Plus => wanted == "Plus",
    }
}

fn is_crossed(a: &Dir, b: &Dir, wanted: &str) -> bool {
    is_at_most(a, 1 << 11) && is_at_most(b, 1 << 11) && is_maybe_way(cross(a, b), wanted)
}

// Whether `wanted` is the answer to the question about two directions.
fn fits_ways(verb: &str, a: &Dir, b: &Dir, wanted: &str) -> bool {
    match verb {
        "cross" => is_crossed(a, b, wanted),
        "dot" => is_sign(dot(a, b), wanted),
        "order" => is_order(a.cmp(b), wanted),
        _ => is_order(dir_cmp(a, b), wanted),
    }
}

// Whether `wanted` is the answer to the question about a plane and a point.
fn fits_plane(verb: &str, given: &Oriented, p: &Point, wanted: &str) -> bool {
    match verb {
        "side" => is_sign(side(&given.plane(), p), wanted),
        "hit_side" => is_sign(hit_side(&given.plane(), &hit_at(p)), wanted),
        _ => wanted.parse() == Ok(given.side(p).number()),
    }
}

// Whether `wanted` is the answer to the question about two planes, points or directions.
fn fits_two(verb: &str, a: &str, b: &str, wanted: &str) -> Option<bool> {
    match verb {
        "side" | "hit_side" | "given_side" => Some(fits_plane(
            verb,
            &given(a)?,
            &point(b)?,
            wanted,
        )),
        "way_side" => Some(is_sign(dir_side(&plane(a)?, &way(b)?), wanted)),
        "plane_order" => Some(is_order(plane(a)?.cmp(&plane(b)?), wanted)),
        "point_order" => Some(is_order(lex_cmp(&point(a)?, &point(b)?), wanted)),
        _ => Some(fits_ways(verb, &way(a)?, &way(b)?, wanted)),
    }
}

fn is_met(a: &str, b: &str, c: &str, wanted: &str) -> Option<bool> {
    match meet(&plane(a)?, &plane(b)?, &plane(c)?) {
        Some(p) => Some(is_point(&p, wanted)),
        None => Some(wanted == "none"),
    }
}

// Whether `wanted` is the answer about four directions, the last three as small as directions of svertices.
fn is_quad(a: &Dir, b: &Dir, c: &Dir, d: &Dir, wanted: &str) -> bool {
    let small = 1 << 23;
    let are_small = is_at_most(b, small) && is_at_most(c, small) && is_at_most(d, small);
    are_small && is_sign(quad(a, b, c, d), wanted)
}

fn fits_quad(a: &str, b: &str, rest: &str, wanted: &str) -> Option<bool> {
    let (c, d) = parted(rest, ", ");
    Some(is_quad(&way(a)?, &way(b)?, &way(c)?, &way(d)?, wanted))
}

fn is_triple(a: &str, b: &str, c: &str, wanted: &str) -> Option<bool> {
    Some(is_sign(triple(&way(a)?, &way(b)?, &way(c)?), wanted))
}

// Whether `wanted` is the answer to the question about planes, points or directions.
fn fits(verb: &str, things: &str, wanted: &str) -> Option<bool> {
    let (a, rest) = parted(things, ", ");
    let (b, others) = parted(rest, ", ");
    match verb {
        "meet" => is_met(a, b, others, wanted),
        "triple" => is_triple(a, b, others, wanted),
        "quad" => fits_quad(a, b, others, wanted),
        _ if rest.is_empty() => fits_one(verb, a, wanted),
        _ => fits_two(verb, a, rest, wanted),
    }
}

fn holds(row: &str) -> Option<bool> {
    let (question, wanted) = parted(row, " => ");
    let (verb, things) = parted(question, " ");
    fits(verb, things, wanted)
}

#[test]
fn rows(rt: HostRuntime) {
    for row in ROWS.split('\n') {
        check(&rt, holds(row) == Some(true), row);
    }
}

fn two_signs(alloc: Global) -> Result<List<Sign>, AllocError> {
    let mut signs = List::new(alloc);
    signs.push(Sign::Plus)?;
    signs.push(Sign::Zero)?;
    Ok(signs)
}

fn are_two_signs(signs: &Result<List<Sign>, AllocError>) -> bool {
    match signs {
        Ok(signs) => {
            !signs.is_empty()
                && signs.len() == 2
                && signs.as_slice() == [Sign::Plus, Sign::Zero].as_slice()
        }
        Err(_) => false,
    }
}

#[test]
fn lists_grow(rt: HostRuntime) {
    check(&rt, are_two_signs(&two_signs(rt.alloc())), "two signs");
    check(&rt, List::<Sign>::new(rt.alloc()).is_empty(), "no sign");
}
