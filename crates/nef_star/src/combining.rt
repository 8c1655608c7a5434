//! Two stars combined. Where the rays of two stars alternate, their order is known.

ghost use Rattle.std.specs.Prelude.{◌≡◌, ◌<◌, ◌-◌};
ghost use Rattle.nef_star.specs.Prelude.{ℕ, length, IfOk, OnOk, IsTrue, vector_of, IsOnCircle, left_at, BeginsAnywhere, IsStar, LeftGives, LeftAfter, HasLeft, IsCombined, IsLeftCombined, IsCombinedAt, AreAlternate};

use crate::OutOfMemory;
use crate::rays::{begin_with_least, cut_by, is_past, left_of_ray, place_of, with_mark};
use crate::star::{Op, Star};
use nef_geo::{Dir, Label};

// Whether both stars have two rays, and ray `first` of `other` comes between ray 0 and ray 1 of `star`, and the other
// ray of `other` between ray 1 and ray 0.
fn alternate(star: &Star, other: &Star, first: usize) -> bool
    requires turned { BeginsAnywhere star.now }
    requires within { first < 2 }
    ensures alternate { IsTrue result → AreAlternate star.now other.now first }
{
    if star.rays.len() != 2 || other.rays.len() != 2 {
        return false;
    }
    is_past(star, 0, &left_of_ray(other, first)) && is_past(star, 1, &left_of_ray(other, 1 - first))
}

// Combines the star with another star, where two rays of each alternate, so that no ray is searched.
fn cross(star: &mut Star, other: &Star, first: usize, op: Op) -> Result<(), OutOfMemory>
    requires turned { BeginsAnywhere star.old }
    requires other { BeginsAnywhere other.now }
    requires one_axis { other.now.axis ≡ star.old.axis }
    requires within { first < 2 }
    requires alternate { AreAlternate star.old other.now first }
    ensures turned { OnOk result (BeginsAnywhere star.new) }
    ensures combined { OnOk result (IsCombined op star.old other.now star.new) }
{
    let (ray, back) = (star.rays[0], star.rays[1]);
    let (left, right) = (star.sectors[0], star.sectors[1]);
    let (crossing, crossing_back) = (other.rays[first], other.rays[1 - first]);
    let (past, before) = (other.sectors[first], other.sectors[1 - first]);
    star.mark = op.label(star.mark, other.mark);
    star.rays[0] = with_mark(&ray, op.label(ray.mark, before));
    star.rays[1] = with_mark(&crossing, op.label(left, crossing.mark));
    star.rays.push(with_mark(&back, op.label(back.mark, past)))?;
    star.rays.push(with_mark(&crossing_back, op.label(right, crossing_back.mark)))?;
    star.sectors[0] = op.label(left, before);
    star.sectors[1] = op.label(left, past);
    star.sectors.push(op.label(right, past))?;
    star.sectors.push(op.label(right, before))?;
    Ok(())
}

// The labels of the star on a ray with this direction to its left, and just after this ray.
fn labels_at(star: &Star, left: &Dir) -> (Label, Label)
    requires turned { BeginsAnywhere star.now }
    requires circle { IsOnCircle (vector_of star.now.axis) (vector_of left.now) }
    ensures on { LeftGives star.now (vector_of left.now) result.0 }
    ensures after { LeftAfter star.now (vector_of left.now) result.1 }
{
    if star.rays.is_empty() {
        return (star.sectors[0], star.sectors[0]);
    }
    let place = place_of(star, left);
    let after = star.sectors[place];
    if left_of_ray(star, place).is_same(left) {
        return (star.rays[place].mark, after);
    }
    (after, after)
}

// Combines the labels on ray `k` and just after it with the other star's labels there.
fn combine_at(star: &mut Star, k: usize, other: &Star, op: Op)
    requires turned { BeginsAnywhere star.old }
    requires other { BeginsAnywhere other.now }
    requires one_axis { other.now.axis ≡ star.old.axis }
    requires within { k < length star.old.rays.items }
    ensures combined { IsCombinedAt op other.now k star.old star.new }
{
    let ray = star.rays[k];
    let (on, after) = labels_at(other, &ray.left());
    star.rays[k] = with_mark(&ray, op.label(ray.mark, on));
    star.sectors[k] = op.label(star.sectors[k], after);
}

// Combines the labels on each ray and just after it with the other star's there. The star has all rays of the other.
fn combine_rays(star: &mut Star, other: &Star, op: Op)
    requires turned { BeginsAnywhere star.old }
    requires other { BeginsAnywhere other.now }
    requires one_axis { other.now.axis ≡ star.old.axis }
    requires some { 0 < length star.old.rays.items }
    requires all { (k : ℕ) → k < length other.now.rays.items → HasLeft star.old (left_at other.now.rays.items k) }
    ensures combined { IsLeftCombined op other.now star.old star.new }
{
    for k in 0..star.rays.len() {
        combine_at(star, k, other, op);
    }
}

// Combines the star with another star all of whose rays the star has.
fn combine(star: &mut Star, other: &Star, op: Op)
    requires turned { BeginsAnywhere star.old }
    requires other { BeginsAnywhere other.now }
    requires one_axis { other.now.axis ≡ star.old.axis }
    requires all { (k : ℕ) → k < length other.now.rays.items → HasLeft star.old (left_at other.now.rays.items k) }
    ensures turned { BeginsAnywhere star.new }
    ensures combined { IsCombined op star.old other.now star.new }
{
    star.mark = op.label(star.mark, other.mark);
    if star.rays.is_empty() {
        star.sectors[0] = op.label(star.sectors[0], other.sectors[0]);
        return;
    }
    combine_rays(star, other, op);
}

// Combines the star with any other star of the same axis.
fn mix(star: &mut Star, other: &Star, op: Op) -> Result<(), OutOfMemory>
    requires turned { BeginsAnywhere star.old }
    requires other { BeginsAnywhere other.now }
    requires one_axis { other.now.axis ≡ star.old.axis }
    ensures turned { OnOk result (BeginsAnywhere star.new) }
    ensures combined { OnOk result (IsCombined op star.old other.now star.new) }
{
    if alternate(star, other, 0) {
        return cross(star, other, 0, op);
    }
    if alternate(star, other, 1) {
        return cross(star, other, 1, op);
    }
    cut_by(star, other.rays.as_slice())?;
    combine(star, other, op);
    Ok(())
}

/// Combines two stars with one axis: the axis, and each direction that isn't parallel to it, gets the operation's
/// label. The first star becomes the result. `OutOfMemory` says that memory was wanted and not found.
pub fn merge(a: Star, b: &Star, op: Op) -> Result<Star, OutOfMemory>
    requires star_a { IsStar a }
    requires star_b { IsStar b.now }
    requires one_axis { a.axis ≡ b.now.axis }
    ensures star { IfOk result (λ t. IsStar t) }
    ensures combined { IfOk result (λ t. IsCombined op a b.now t) }
{
    let mut star = a;
    mix(&mut star, b, op)?;
    begin_with_least(&mut star);
    Ok(star)
}
