//! The arcs that leave stars, by their rays.

ghost use Rattle.std.specs.Prelude.{◌≡◌, ◌<◌, ◌+◌};
ghost use Rattle.nef_spair.specs.Prelude.{length, map, pos, true, IsTrue, IfOk, OnOk, All, dot, vector_of, IsAt, IsFirstAfter, IsArcFrom, star_of, IsStar, arc_of, AreTwoEnds, LeavesAlong, AreArcs};

use crate::OutOfMemory;
use nef_arc::{Arc, strictly_on};
use nef_geo::Dir;
use nef_smap::SArc;
use nef_star::{Ray, Star, before_of};
use std::alloc::Global;

// The number of the first star whose axis comes after the axis of star `from`, counterclockwise about the normal; the
// axis of star `from` itself comes last.
fn first_after(kept: &[Star], from: usize, normal: &Dir) -> usize
    requires within { from < length kept.now }
    requires level { (t : Star) → IsAt kept.now from t → dot (vector_of normal.now) (vector_of t.axis) ≡ pos 0 }
    ensures first { (t : Star) → IsAt kept.now from t → IsFirstAfter (map star_of kept.now) (vector_of normal.now) (star_of t) result }
{
    let source = kept[from].axis;
    let mut first = from;
    for (k, star) in kept.iter().enumerate() {
        let way = Arc::of(source, kept[first].axis, *normal);
        if strictly_on(&way, &star.axis) {
            first = k;
        }
    }
    first
}

// Whether there are just two stars, with opposite axes.
fn are_two_ends(kept: &[Star]) -> bool
    ensures ends { IsTrue result → AreTwoEnds kept.now }
{
    kept.len() == 2 && kept[0].axis.back().is_same(&kept[1].axis)
}

// The number of the star to which an arc with this normal leads from star `from`.
fn target_of(kept: &[Star], from: usize, normal: &Dir) -> usize
    requires within { from < length kept.now }
    requires level { (t : Star) → IsAt kept.now from t → dot (vector_of normal.now) (vector_of t.axis) ≡ pos 0 }
    ensures first { (t : Star) → IsAt kept.now from t → IsFirstAfter (map star_of kept.now) (vector_of normal.now) (star_of t) result }
{
    // each half circle from one of two ends leads to the other
    if are_two_ends(kept) {
        return 1 - from;
    }
    first_after(kept, from, normal)
}

// The arc along ray `number` of star `from`, which goes ahead.
fn arc_along(kept: &[Star], from: usize, number: usize, ray: &Ray) -> SArc
    requires stars { All IsStar kept.now }
    requires within { from < length kept.now }
    requires ray { (t : Star) → IsAt kept.now from t → IsAt t.rays.items number ray.now }
    requires ahead { ray.now.ahead ≡ true }
    ensures arc { IsArcFrom (map star_of kept.now) (arc_of result) }
    ensures source { result.source ≡ from }
    ensures along { LeavesAlong kept.now result number }
{
    let sectors = kept[from].sectors.as_slice();
    let before = before_of(sectors.len(), number);
    SArc {
        source: from,
        target: target_of(kept, from, &ray.normal),
        normal: ray.normal,
        mark: ray.mark,
        pos: sectors[number],
        neg: sectors[before],
    }
}

// Adds the arcs that leave star `from`.
fn push_arcs(arcs: &mut Vec<SArc>, kept: &[Star], from: usize) -> Result<(), OutOfMemory>
    requires stars { All IsStar kept.now }
    requires within { from < length kept.now }
    requires arcs { AreArcs kept.now from 0 arcs.old.items }
    ensures arcs { OnOk result (AreArcs kept.now (from + 1) 0 arcs.new.items) }
{
    for (number, ray) in kept[from].rays.as_slice().iter().enumerate() {
        if ray.ahead {
            arcs.push(arc_along(kept, from, number, ray))?;
        }
    }
    Ok(())
}

// The arcs of all stars, star by star.
pub(crate) fn arcs_of(alloc: Global, kept: &[Star]) -> Result<Vec<SArc>, OutOfMemory>
    requires stars { All IsStar kept.now }
    ensures arcs { IfOk result (λ arcs. AreArcs kept.now (length kept.now) 0 arcs.items) }
{
    let mut arcs = Vec::new(alloc);
    for from in 0..kept.len() {
        push_arcs(&mut arcs, kept, from)?;
    }
    Ok(arcs)
}
