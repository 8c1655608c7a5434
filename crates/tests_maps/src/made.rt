//! Sphere maps made by steps in words.

ghost use Rattle.std.specs.Prelude.{◌≡◌};
ghost use Rattle.nef_geo.specs.Prelude.{IsTrue, IfOk, IfSome, normal_limit, IsAtMost, vector_of};
ghost use Rattle.nef_smap.specs.Maps.{IsLeastMap};

use crate::words::{label, normal, op, parted};
use nef_geo::Label;
use nef_smap::{SLoop, SphereMap, face_map, plane_map};
use nef_star::{Op, OutOfMemory};
use nef_stopo::{boundary, closure, combine, complement, exchanged, interior};
use std::alloc::Global;

// Whether the label on a side of the sloop differs from the sloop's mark.
fn differs(sloop: &SLoop) -> bool
    ensures differs { IsTrue result → sloop.now.pos ≡ sloop.now.mark → sloop.now.neg ≡ sloop.now.mark → ⊥ }
{
    if sloop.pos == sloop.mark {
        sloop.neg != sloop.mark
    } else {
        true
    }
}

fn plane_of(alloc: Global, sloop: SLoop) -> Option<SphereMap>
    requires small { IsAtMost normal_limit (vector_of sloop.normal) }
    ensures least { IfSome result IsLeastMap }
{
    if sloop.normal.is_normal() && differs(&sloop) {
        Some(plane_map(alloc, sloop))
    } else {
        None
    }
}

// The map of a plane through the point, with the labels on, above and below the plane.
fn plane(alloc: Global, text: &str, labels: &str) -> Option<SphereMap>
    ensures least { IfSome result IsLeastMap }
{
    let normal = normal(text)?;
    let (mark, sides) = parted(labels, " ");
    let (pos, neg) = parted(sides, " ");
    let sloop = SLoop {
        normal,
        mark: label(mark)?,
        pos: label(pos)?,
        neg: label(neg)?,
    };
    plane_of(alloc, sloop)
}

/// The map of the half-space below a plane, with the plane or without the plane.
pub(crate) fn half(alloc: Global, normal: &str, closed: bool) -> Option<SphereMap>
    ensures least { IfSome result IsLeastMap }
{
    plane(alloc, normal, if closed { "i n i" } else { "n n i" })
}

// The map of the closed half-space below or above a plane.
fn closed_half(alloc: Global, side: &str, normal: &str) -> Option<SphereMap>
    ensures least { IfSome result IsLeastMap }
{
    match side {
        "below" => plane(alloc, normal, "i n i"),
        "above" => plane(alloc, normal, "i i n"),
        _ => None,
    }
}

// The map with one label for the point and one for all directions.
fn face(alloc: Global, labels: &str) -> Option<SphereMap>
    ensures least { IfSome result IsLeastMap }
{
    let (mark, side) = parted(labels, " ");
    let (mark, side) = (label(mark)?, label(side)?);
    Some(face_map(alloc, mark, side))
}

fn kept(map: Result<SphereMap, OutOfMemory>) -> Option<SphereMap>
    requires map { IfOk map IsLeastMap }
    ensures least { IfSome result IsLeastMap }
{
    match map {
        Ok(map) => Some(map),
        Err(_) => None,
    }
}

/// The map of the operation on the sets of two maps.
pub(crate) fn combined(alloc: Global, a: &SphereMap, b: &SphereMap, op: Op) -> Option<SphereMap>
    requires first { IsLeastMap a.now }
    requires second { IsLeastMap b.now }
    ensures least { IfSome result IsLeastMap }
{
    kept(combine(alloc, a, b, op))
}

/// The map of the operation on a map and a map that may not have been made.
pub(crate) fn with(alloc: Global, a: &SphereMap, b: Option<SphereMap>, op: Op) -> Option<SphereMap>
    requires first { IsLeastMap a.now }
    requires second { IfSome b IsLeastMap }
    ensures least { IfSome result IsLeastMap }
{
    let b = b?;
    combined(alloc, a, &b, op)
}

// The map of a plane alone: the intersection of the closed half-spaces on both sides.
fn wall(alloc: Global, normal: &str) -> Option<SphereMap>
    ensures least { IfSome result IsLeastMap }
{
    let below = closed_half(alloc, "below", normal)?;
    with(alloc, &below, closed_half(alloc, "above", normal), Op::And)
}

// The map of the line in which two planes meet.
fn line(alloc: Global, normals: &str) -> Option<SphereMap>
    ensures least { IfSome result IsLeastMap }
{
    let (first, second) = parted(normals, ", ");
    let wall_of_first = wall(alloc, first)?;
    with(alloc, &wall_of_first, wall(alloc, second), Op::And)
}

// The map of the part of a line in a closed half-space.
fn ray(alloc: Global, words: &str) -> Option<SphereMap>
    ensures least { IfSome result IsLeastMap }
{
    let (normals, half) = parted(words, "; ");
    let (side, normal) = parted(half, " ");
    let line = line(alloc, normals)?;
    with(alloc, &line, closed_half(alloc, side, normal), Op::And)
}

fn labelled_plane(alloc: Global, words: &str) -> Option<SphereMap>
    ensures least { IfSome result IsLeastMap }
{
    let (normal, labels) = parted(words, "; ");
    plane(alloc, normal, labels)
}

fn named(alloc: Global, name: &str, words: &str) -> Option<SphereMap>
    ensures least { IfSome result IsLeastMap }
{
    match name {
        "plane" => labelled_plane(alloc, words),
        "face" => face(alloc, words),
        "wall" => wall(alloc, words),
        "line" => line(alloc, words),
        "ray" => ray(alloc, words),
        _ => closed_half(alloc, name, words),
    }
}

fn changed(alloc: Global, map: &SphereMap, word: &str) -> Option<SphereMap>
    requires map { IsLeastMap map.now }
    ensures least { IfSome result IsLeastMap }
{
    match word {
        "interior" => kept(interior(alloc, map)),
        "closure" => kept(closure(alloc, map)),
        "boundary" => kept(boundary(alloc, map)),
        "complement" => kept(complement(alloc, map)),
        _ => None,
    }
}

// The named map, or the named operation on the map so far and a named map.
fn next(alloc: Global, map: &SphereMap, words: &str, rest: &str) -> Option<SphereMap>
    requires map { IsLeastMap map.now }
    ensures least { IfSome result IsLeastMap }
{
    match words.split_once(' ') {
        Some((how, name)) => with(alloc, map, named(alloc, name, rest), op(how)?),
        None => named(alloc, words, rest),
    }
}

// The map after a step: a named map, an operation with a named map, or a topological operation.
fn after(alloc: Global, map: &SphereMap, step: &str) -> Option<SphereMap>
    requires map { IsLeastMap map.now }
    ensures least { IfSome result IsLeastMap }
{
    match step.split_once(": ") {
        Some((words, rest)) => next(alloc, map, words, rest),
        None => changed(alloc, map, step),
    }
}

// The map after a step from a map that is let go, so that a loop over steps owns no map where the loop returns early.
fn stepped(alloc: Global, map: SphereMap, step: &str) -> Option<SphereMap>
    requires map { IsLeastMap map }
    ensures least { IfSome result IsLeastMap }
{
    if step == "exchanged" {
        Some(exchanged(map))
    } else {
        after(alloc, &map, step)
    }
}

/// The map that the steps make in order.
pub(crate) fn made(alloc: Global, steps: &str) -> Option<SphereMap>
    ensures least { IfSome result IsLeastMap }
{
    let mut map = face_map(alloc, Label::Not, Label::Not);
    for step in steps.split(" / ") {
        map = stepped(alloc, map, step)?;
    }
    Some(map)
}
