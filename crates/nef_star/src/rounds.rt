//! Stars made of rays with labels, or of two great circles that cross.

ghost use Rattle.std.specs.Prelude.{◌≡◌, ◌<◌, ◌+◌, ◌∷◌};
ghost use Rattle.nef_star.specs.Prelude.{ℕ, [], length, IsTrue, IfOk, OnOk, svertex_limit, IsAt, IsAtMost, IsParallel, vector_of, ArcEnd, EndsAreApart, IsRound, HasWays, IsEnded, IsWhole, AreTwoWays, left_of, IsRay, BeginsAnywhere, IsStar, Star, op_label, IsOnAxis, IsCrossed, IsFourRays};

use crate::OutOfMemory;
use crate::rays::{begin_with_least, cut, with_mark};
use crate::star::{Op, Ray, Star};
use nef_geo::{Dir, Label, triple};
use std::alloc::Global;

/// The star without rays, with one sector labelled `around`. `OutOfMemory` says that memory was wanted and not found.
pub fn bare(alloc: Global, axis: Dir, mark: Label, around: Label) -> Result<Star, OutOfMemory>
    requires small { IsAtMost svertex_limit (vector_of axis) }
    ensures star { IfOk result (λ t. IsStar t) }
    ensures axis { IfOk result (λ t. t.axis ≡ axis) }
    ensures rays { IfOk result (λ t. t.rays.items ≡ []) }
    ensures sectors { IfOk result (λ t. t.sectors.items ≡ around ∷ []) }
    ensures mark { IfOk result (λ t. t.mark ≡ mark) }
{
    let sectors = Vec::from_slice(alloc, &[around])?;
    Ok(Star::of(axis, Vec::new(alloc), sectors, mark))
}

// Adds the rays of the ends to a star without rays.
fn cut_ways(star: &mut Star, ends: &[(Ray, Label)]) -> Result<(), OutOfMemory>
    requires turned { BeginsAnywhere star.old }
    requires none { length star.old.rays.items ≡ 0 }
    requires rays { (k : ℕ) (e : ArcEnd) → IsAt ends.now k e → IsRay (vector_of star.old.axis) e.0 }
    ensures ways { OnOk result (HasWays ends.now (length ends.now) star.new) }
    ensures axis { OnOk result (star.new.axis ≡ star.old.axis) }
    ensures mark { OnOk result (star.new.mark ≡ star.old.mark) }
{
    for end in ends {
        cut(star, &end.0)?;
    }
    Ok(())
}

// The end whose ray has this direction to its left.
fn end_with(ends: &[(Ray, Label)], left: &Dir) -> (Ray, Label)
    requires some { (i : ℕ) × (e : ArcEnd) × IsAt ends.now i e × (left_of e.0 ≡ vector_of left.now) }
    ensures listed { (i : ℕ) × IsAt ends.now i result }
    ensures left { left_of result.0 ≡ vector_of left.now }
{
    for k in 1..ends.len() {
        let end = ends[k];
        if end.0.left().is_same(left) {
            return end;
        }
    }
    ends[0]
}

// Gives ray `k` the mark of its end's ray, and the sector after it the end's label.
fn end_ray(star: &mut Star, k: usize, ends: &[(Ray, Label)])
    requires ended { (t : Star) × HasWays ends.now (length ends.now) t × IsEnded ends.now k t star.old }
    requires within { k < length star.old.rays.items }
    ensures ended { (t : Star) → HasWays ends.now (length ends.now) t → IsEnded ends.now k t star.old → IsEnded ends.now (k + 1) t star.new }
{
    let ray = star.rays[k];
    let (end, after) = end_with(ends, &ray.left());
    star.rays[k] = with_mark(&ray, end.mark);
    star.sectors[k] = after;
}

// Gives each ray the mark of its end's ray, and the sector after it the end's label.
fn end_rays(star: &mut Star, ends: &[(Ray, Label)])
    requires ways { HasWays ends.now (length ends.now) star.old }
    ensures ended { IsEnded ends.now (length star.old.rays.items) star.old star.new }
{
    for k in 0..star.rays.len() {
        end_ray(star, k, ends);
    }
}

// The star of any number of ends.
fn all_ways(
    alloc: Global,
    axis: Dir,
    mark: Label,
    ends: &[(Ray, Label)],
) -> Result<Star, OutOfMemory>
    requires small { IsAtMost svertex_limit (vector_of axis) }
    requires rays { (k : ℕ) (e : ArcEnd) → IsAt ends.now k e → IsRay (vector_of axis) e.0 }
    ensures whole { IfOk result (IsWhole ends.now) }
    ensures axis { IfOk result (λ t. t.axis ≡ axis) }
    ensures mark { IfOk result (λ t. t.mark ≡ mark) }
{
    let mut star = bare(alloc, axis, mark, mark)?;
    cut_ways(&mut star, ends)?;
    end_rays(&mut star, ends);
    Ok(star)
}

// Whether there are just two ends, whose rays leave the axis different ways.
fn are_two_ways(ends: &[(Ray, Label)]) -> bool
    ensures two { IsTrue result → AreTwoWays ends.now }
{
    ends.len() == 2 && !ends[0].0.left().is_same(&ends[1].0.left())
}

// The star of two ends whose rays leave the axis different ways. Either ray may be the first.
fn two_ways(
    alloc: Global,
    axis: Dir,
    mark: Label,
    ends: &[(Ray, Label)],
) -> Result<Star, OutOfMemory>
    requires small { IsAtMost svertex_limit (vector_of axis) }
    requires rays { (k : ℕ) (e : ArcEnd) → IsAt ends.now k e → IsRay (vector_of axis) e.0 }
    requires two { AreTwoWays ends.now }
    ensures whole { IfOk result (IsWhole ends.now) }
    ensures axis { IfOk result (λ t. t.axis ≡ axis) }
    ensures mark { IfOk result (λ t. t.mark ≡ mark) }
{
    let (first, second) = (ends[0], ends[1]);
    let rays = Vec::from_slice(alloc, &[first.0, second.0])?;
    let sectors = Vec::from_slice(alloc, &[first.1, second.1])?;
    Ok(Star::of(axis, rays, sectors, mark))
}

/// The star with this axis and these rays, in any order, each with the label of the sector counterclockwise after it.
/// `OutOfMemory` says that memory was wanted and not found.
pub fn round(
    alloc: Global,
    axis: Dir,
    mark: Label,
    ends: &[(Ray, Label)],
) -> Result<Star, OutOfMemory>
    requires small { IsAtMost svertex_limit (vector_of axis) }
    requires some { 0 < length ends.now }
    requires rays { (k : ℕ) (e : ArcEnd) → IsAt ends.now k e → IsRay (vector_of axis) e.0 }
    requires apart { EndsAreApart ends.now }
    ensures star { IfOk result (λ t. IsStar t) }
    ensures axis { IfOk result (λ t. t.axis ≡ axis) }
    ensures mark { IfOk result (λ t. t.mark ≡ mark) }
    ensures round { IfOk result (λ t. IsRound ends.now t) }
{
    let mut star = if are_two_ways(ends) {
        two_ways(alloc, axis, mark, ends)?
    } else {
        all_ways(alloc, axis, mark, ends)?
    };
    begin_with_least(&mut star);
    Ok(star)
}

/// A great circle near one of its directions: the labels on it, on the side of its normal, and on the other side.
#[derive(Clone, Copy)]
pub struct CircleLabels {
    pub normal: Dir,
    pub mark: Label,
    pub pos: Label,
    pub neg: Label,
}

// The star of two lines that cross: the first ray goes ahead along x, and the next, along y, ahead if `left`.
fn four_rays(
    alloc: Global,
    axis: Dir,
    x: &CircleLabels,
    y: &CircleLabels,
    left: bool,
    op: Op,
) -> Result<Star, OutOfMemory>
    ensures rays { IfOk result (λ t. IsFourRays op axis x.now y.now left t) }
{
    let (past, before) = if left { (y.pos, y.neg) } else { (y.neg, y.pos) };
    let rays = Vec::from_slice(
        alloc,
        &[
            Ray::of(x.normal, true, op.label(x.mark, before)),
            Ray::of(y.normal, left, op.label(x.pos, y.mark)),
            Ray::of(x.normal, false, op.label(x.mark, past)),
            Ray::of(y.normal, !left, op.label(x.neg, y.mark)),
        ],
    )?;
    let sectors = Vec::from_slice(
        alloc,
        &[
            op.label(x.pos, before),
            op.label(x.pos, past),
            op.label(x.neg, past),
            op.label(x.neg, before),
        ],
    )?;
    let mark = op.label(x.mark, y.mark);
    Ok(Star::of(axis, rays, sectors, mark))
}

/// The star of a direction in which two great circles cross, with the labels of the operation. The order of the four
/// rays is known at once, so no two stars are merged. `OutOfMemory` says that memory was wanted and not found.
pub fn crossed(
    alloc: Global,
    axis: Dir,
    x: &CircleLabels,
    y: &CircleLabels,
    op: Op,
) -> Result<Star, OutOfMemory>
    requires small { IsAtMost svertex_limit (vector_of axis) }
    requires first { IsOnAxis (vector_of axis) x.now }
    requires second { IsOnAxis (vector_of axis) y.now }
    requires apart { IsParallel (vector_of x.now.normal) (vector_of y.now.normal) → ⊥ }
    ensures star { IfOk result (λ t. IsStar t) }
    ensures axis { IfOk result (λ t. t.axis ≡ axis) }
    ensures mark { IfOk result (λ t. t.mark ≡ op_label op x.now.mark y.now.mark) }
    ensures labels { IfOk result (IsCrossed op axis x.now y.now) }
{
    // whether, both ahead, the second line leaves the axis less than half a turn after the first
    let left = triple(&axis, &x.normal, &y.normal).is_plus();
    let mut star = four_rays(alloc, axis, x, y, left, op)?;
    begin_with_least(&mut star);
    Ok(star)
}
