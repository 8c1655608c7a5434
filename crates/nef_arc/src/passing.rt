//! Directions on one arc and on two, the way along an arc and the way back.

ghost use Rattle.std.specs.Prelude.{◌≡◌, ◌≢◌, ◌↔◌, ◌⊎◌};
ghost use Rattle.nef_geo.specs.Prelude.{IsTrue, normal_limit, IsBelow, Vector, opposite, IsAtMost, IsParallel, SameDirection, direction_numbers, vector_of};
ghost use Rattle.nef_arc.specs.Arcs.{normal_vector, source_vector, target_vector, IsOn, IsOnBefore, IsEndOfArc, PastAndBefore, IsPastSource, IsBeforeTarget, IsPassedByArc, IsOnBoth, IsArcCrossing};
ghost use Rattle.nef_arc.specs.declared.arc.Crossing.TheVariants.{Two};

use crate::arc::{Arc, Crossing};
use nef_geo::{Dir, Sign, common_perpendicular, dot, triple};
use std::cmp::Ordering;

// Whether the direction is less than half a circle ahead of the source.
fn is_past_source(arc: &Arc, d: &Dir) -> bool
    ensures past { IsTrue result ↔ IsPastSource arc.now (vector_of d.now) }
{
    triple(&arc.normal, &arc.source, d).is_plus()
}

// Whether the target is less than half a circle ahead of the direction.
fn is_before_target(arc: &Arc, d: &Dir) -> bool
    ensures before { IsTrue result ↔ IsBeforeTarget arc.now (vector_of d.now) }
{
    triple(&arc.normal, d, &arc.target).is_plus()
}

// Whether a direction on the arc's circle, neither of two different ends, is passed. `turn` is from source to target.
fn is_on_way(turn: Sign, arc: &Arc, d: &Dir) -> bool
    ensures way { IsTrue result ↔ PastAndBefore turn (IsPastSource arc.now (vector_of d.now)) (IsBeforeTarget arc.now (vector_of d.now)) }
{
    match turn {
        Sign::Plus => is_past_source(arc, d) && is_before_target(arc, d),
        Sign::Minus => is_past_source(arc, d) || is_before_target(arc, d),
        Sign::Zero => is_past_source(arc, d),
    }
}

fn is_end(arc: &Arc, d: &Dir) -> bool
    ensures end { IsTrue result ↔ IsEndOfArc arc.now (vector_of d.now) }
{
    arc.source.is_same(d) || arc.target.is_same(d)
}

// Whether a direction on the arc's circle is strictly on the arc. Where both ends are one, every other direction is.
fn is_inside(arc: &Arc, d: &Dir) -> bool
    ensures inside { IsTrue result ↔ ((IsEndOfArc arc.now (vector_of d.now) → ⊥) × IsPassedByArc arc.now (vector_of d.now)) }
{
    if is_end(arc, d) {
        return false;
    }
    if arc.source.is_same(&arc.target) {
        return true;
    }
    let turn = triple(&arc.normal, &arc.source, &arc.target);
    is_on_way(turn, arc, d)
}

/// Whether the direction is strictly on the arc, so at neither end.
pub fn strictly_on(arc: &Arc, d: &Dir) -> bool
    ensures on { IsTrue result ↔ IsOn arc.now (vector_of d.now) }
{
    dot(&arc.normal, d) == Sign::Zero && is_inside(arc, d)
}

fn on_both(a: &Arc, b: &Arc, d: &Dir) -> bool
    ensures on { IsTrue result ↔ IsOnBoth a.now b.now (vector_of d.now) }
{
    strictly_on(a, d) && strictly_on(b, d)
}

fn in_order(d: Dir, e: Dir) -> Crossing
    requires apart { vector_of d ≢ vector_of e }
    ensures in_order { ((result ≡ Two d e) × IsBelow (direction_numbers (vector_of d)) (direction_numbers (vector_of e))) ⊎ ((result ≡ Two e d) × IsBelow (direction_numbers (vector_of e)) (direction_numbers (vector_of d))) }
{
    if d < e {
        Crossing::Two(d, e)
    } else {
        Crossing::Two(e, d)
    }
}

/// The directions strictly on both arcs, whose normals aren't parallel and have entries of at most `2^11` in size. The
/// two great circles meet in the direction of the normals' cross product and in the opposite one only.
pub fn crossing(a: &Arc, b: &Arc) -> Crossing
    requires apart { IsParallel (normal_vector a.now) (normal_vector b.now) → ⊥ }
    requires first_small { IsAtMost normal_limit (normal_vector a.now) }
    requires second_small { IsAtMost normal_limit (normal_vector b.now) }
    ensures crossing { IsArcCrossing a.now b.now result }
{
    let ahead = common_perpendicular(&a.normal, &b.normal);
    let behind = ahead.back();
    match (on_both(a, b, &ahead), on_both(a, b, &behind)) {
        (false, false) => Crossing::Nowhere,
        (true, false) => Crossing::One(ahead),
        (false, true) => Crossing::One(behind),
        (true, true) => in_order(ahead, behind),
    }
}

/// The reversed arc: the same directions, from the target to the source about the opposite normal.
pub fn reverse(arc: &Arc) -> Arc
    ensures normal { normal_vector result ≡ opposite (normal_vector arc.now) }
    ensures source { source_vector result ≡ target_vector arc.now }
    ensures target { target_vector result ≡ source_vector arc.now }
    ensures directions { (d : Vector) → IsOn result d ↔ IsOn arc.now d }
{
    Arc::of(arc.target, arc.source, arc.normal.back())
}

/// Which of two directions strictly on the arc comes first from the source: `Less` where d does.
pub fn next_along(arc: &Arc, d: &Dir, e: &Dir) -> Ordering
    requires d_on { IsOn arc.now (vector_of d.now) }
    requires e_on { IsOn arc.now (vector_of e.now) }
    ensures less { (result ≡ Ordering.Less) ↔ IsOnBefore arc.now (vector_of e.now) (vector_of d.now) }
    ensures equal { (result ≡ Ordering.Equal) ↔ SameDirection (vector_of d.now) (vector_of e.now) }
    ensures greater { (result ≡ Ordering.Greater) ↔ IsOnBefore arc.now (vector_of d.now) (vector_of e.now) }
{
    if d.is_same(e) {
        return Ordering::Equal;
    }
    let way = Arc::of(arc.source, *e, arc.normal);
    if strictly_on(&way, d) {
        Ordering::Less
    } else {
        Ordering::Greater
    }
}
