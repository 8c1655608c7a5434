//! The rays of a star: added, counted from another ray on, and removed where they are needless.

ghost use Rattle.std.specs.Prelude.{◌≡◌, ◌<◌, ◌↔◌, ◌-◌, ◌≤◌, ◌+◌, ◌⊎◌, ◌++◌};
ghost use Rattle.nef_star.specs.Prelude.{ℕ, length, IsTrue, OnOk, slice_index_or, take, drop, All, vector_of, IsOnCircle, IsNext, left_of, left_at, IsRay, BeginsAnywhere, LeftPast, LeftUnder, HasLeft, KeepsLabels, IsWithRay, star_of, IsRayBelow, IsStar, IsCountedFrom, IsNeedless, NoneNeedless, IsRayTried, IsSimplified};

use crate::OutOfMemory;
use crate::star::{Ray, Star};
use nef_arc::{Arc, strictly_on};
use nef_geo::{Dir, Label, dir_cmp};
use std::cmp::Ordering;

fn is_below(a: &Ray, b: &Ray) -> bool
    ensures below { IsTrue result ↔ IsRayBelow a.now b.now }
{
    match dir_cmp(&a.normal, &b.normal) {
        Ordering::Less => true,
        Ordering::Equal => a.ahead && !b.ahead,
        Ordering::Greater => false,
    }
}

// The number of the least ray.
fn least_ray(rays: &[Ray]) -> usize
    requires some { 0 < length rays.now }
    ensures within { result < length rays.now }
    ensures least { (k : ℕ) (q r : Ray) → k < length rays.now → slice_index_or rays.now result q ≡ q → slice_index_or rays.now k r ≡ r → IsRayBelow r q → ⊥ }
{
    let mut least = 0;
    for (k, ray) in rays.iter().enumerate() {
        if is_below(ray, &rays[least]) {
            least = k;
        }
    }
    least
}

// Rotates the elements so that number `first` comes first, by three reversals: for a few elements these take less time
// than `rotate_left` with its scratch memory.
fn turn<T>(xs: &mut [T], first: usize)
    requires within { first ≤ length xs.old }
    ensures turned { xs.new ≡ drop first xs.old ++ take first xs.old }
    ensures len { length xs.new ≡ length xs.old }
{
    if first == 0 {
        return;
    }
    let (front, back) = xs.split_at_mut(first);
    front.reverse();
    back.reverse();
    xs.reverse();
}

// Rotates the rays and sectors so that number `first` comes first.
fn count_from(star: &mut Star, first: usize)
    requires turned { BeginsAnywhere star.old }
    requires within { first < length star.old.rays.items }
    ensures turned { BeginsAnywhere star.new }
    ensures kept { KeepsLabels star.old star.new }
    ensures counted { IsCountedFrom first star.old star.new }
{
    turn(star.rays.as_mut_slice(), first);
    turn(star.sectors.as_mut_slice(), first);
}

// Rotates the star so that its least ray comes first.
pub(crate) fn begin_with_least(star: &mut Star)
    requires turned { BeginsAnywhere star.old }
    ensures star { IsStar star.new }
    ensures kept { KeepsLabels star.old star.new }
    ensures counted { (star.new ≡ star.old) ⊎ ((m : ℕ) × (m < length star.old.rays.items) × IsCountedFrom m star.old star.new) }
{
    if star.rays.is_empty() {
        return;
    }
    let least = least_ray(star.rays.as_slice());
    count_from(star, least);
}

fn are_one(a: Label, b: Label, c: Label) -> bool
    ensures one { IsTrue result ↔ ((a ≡ b) × (a ≡ c)) }
{
    a == b && a == c
}

// Removes the last ray, which is needless: its mark is the label of the sectors on both sides.
fn drop_last(star: &mut Star)
    requires turned { BeginsAnywhere star.old }
    requires some { 0 < length star.old.rays.items }
    requires needless { IsNeedless star.old (length star.old.rays.items - 2) (length star.old.rays.items - 1) }
    ensures turned { BeginsAnywhere star.new }
    ensures kept { KeepsLabels star.old star.new }
    ensures fewer { length star.new.rays.items + 1 ≡ length star.old.rays.items }
    ensures needed { (c : ℕ) → NoneNeedless c star.old → NoneNeedless c star.new }
{
    let last = star.rays.len() - 1;
    star.rays.truncate(last);
    if last > 0 {
        star.sectors.truncate(last);
    }
}

// Removes the last ray if it is needless, or else rotates the star so that this ray comes first.
fn pass_last(star: &mut Star)
    requires turned { BeginsAnywhere star.old }
    requires some { 0 < length star.old.rays.items }
    ensures turned { BeginsAnywhere star.new }
    ensures kept { KeepsLabels star.old star.new }
    ensures passed { (c : ℕ) → NoneNeedless c star.old → IsRayTried c star.old star.new }
{
    let last = star.rays.len() - 1;
    if is_needless(star, last) {
        drop_last(star);
        return;
    }
    count_from(star, last);
}

/// The number of the ray before ray `k`, of `count` rays.
pub fn before_of(count: usize, k: usize) -> usize
    requires within { k < count }
    ensures before { IsNext count result k }
    ensures within { result < count }
{
    if k > 0 { k - 1 } else { count - 1 }
}

// Whether ray `k` is needless: its mark is the label of the sectors on both sides.
fn is_needless(star: &Star, k: usize) -> bool
    requires turned { BeginsAnywhere star.now }
    requires within { k < length star.now.rays.items }
    ensures needless { (j : ℕ) × IsNext (length star.now.rays.items) j k × (IsTrue result ↔ IsNeedless star.now j k) }
{
    let before = before_of(star.rays.len(), k);
    are_one(star.rays[k].mark, star.sectors[before], star.sectors[k])
}

// Whether no ray is needless.
fn is_simple(star: &Star) -> bool
    requires turned { BeginsAnywhere star.now }
    ensures simple { IsTrue result → NoneNeedless (length star.now.rays.items) star.now }
{
    for k in 0..star.rays.len() {
        if is_needless(star, k) {
            return false;
        }
    }
    true
}

/// Removes every needless ray, whose mark is the label of the sectors on both sides. Each direction keeps its label,
/// and so does the axis. No memory is taken.
pub fn simplify(star: &mut Star)
    requires star { IsStar star.old }
    ensures star { IsStar star.new }
    ensures kept { KeepsLabels star.old star.new }
    ensures simplified { IsSimplified (star_of star.new) }
{
    // most stars have no needless ray
    if is_simple(star) {
        return;
    }
    let mut unseen = star.rays.len();
    while unseen > 0 {
        pass_last(star);
        unseen -= 1;
    }
    begin_with_least(star);
}

pub(crate) fn left_of_ray(star: &Star, k: usize) -> Dir
    requires within { k < length star.now.rays.items }
    ensures left { vector_of result ≡ left_at star.now.rays.items k }
{
    star.rays[k].left()
}

// The number of the ray after ray `k`, of `count` rays.
fn next_of(count: usize, k: usize) -> usize
    requires within { k < count }
    ensures next { IsNext count k result }
    ensures within { result < count }
{
    if k + 1 < count { k + 1 } else { 0 }
}

// Whether a ray with this direction to its left lies strictly between ray `k` and the next ray.
pub(crate) fn is_past(star: &Star, k: usize, left: &Dir) -> bool
    requires turned { BeginsAnywhere star.now }
    requires within { k < length star.now.rays.items }
    ensures past { IsTrue result ↔ LeftPast star.now (vector_of left.now) k }
{
    let next = next_of(star.rays.len(), k);
    let sector = Arc::of(left_of_ray(star, k), left_of_ray(star, next), star.axis);
    strictly_on(&sector, left)
}

// Whether ray `k` is the last ray at or before a ray with this direction to its left.
fn is_under(star: &Star, k: usize, left: &Dir) -> bool
    requires turned { BeginsAnywhere star.now }
    requires within { k < length star.now.rays.items }
    ensures under { IsTrue result ↔ LeftUnder star.now (vector_of left.now) k }
{
    left_of_ray(star, k).is_same(left) || is_past(star, k, left)
}

// The number of the last ray at or before a ray with this direction to its left.
pub(crate) fn place_of(star: &Star, left: &Dir) -> usize
    requires turned { BeginsAnywhere star.now }
    requires some { 0 < length star.now.rays.items }
    requires circle { IsOnCircle (vector_of star.now.axis) (vector_of left.now) }
    ensures within { result < length star.now.rays.items }
    ensures under { LeftUnder star.now (vector_of left.now) result }
{
    for k in 1..star.rays.len() {
        if is_under(star, k, left) {
            return k;
        }
    }
    0
}

pub(crate) fn with_mark(ray: &Ray, mark: Label) -> Ray
    ensures normal { result.normal ≡ ray.now.normal }
    ensures ahead { result.ahead ≡ ray.now.ahead }
    ensures mark { result.mark ≡ mark }
{
    Ray::of(ray.normal, ray.ahead, mark)
}

// Adds a ray in the last sector. The ray and both parts of the sector keep the sector's label.
fn add_last(star: &mut Star, ray: &Ray) -> Result<(), OutOfMemory>
    requires turned { BeginsAnywhere star.old }
    requires ray { IsRay (vector_of star.old.axis) ray.now }
    requires some { 0 < length star.old.rays.items }
    requires past { LeftPast star.old (left_of ray.now) (length star.old.rays.items - 1) }
    ensures cut { OnOk result (IsWithRay (left_of ray.now) star.old star.new) }
{
    let label = star.sectors[star.rays.len() - 1];
    star.rays.push(with_mark(ray, label))?;
    star.sectors.push(label)?;
    Ok(())
}

// Adds a ray, unless the star has a ray with the same direction to its left. Each direction keeps its label.
pub(crate) fn cut(star: &mut Star, ray: &Ray) -> Result<(), OutOfMemory>
    requires turned { BeginsAnywhere star.old }
    requires ray { IsRay (vector_of star.old.axis) ray.now }
    ensures cut { OnOk result (IsWithRay (left_of ray.now) star.old star.new) }
{
    if star.rays.is_empty() {
        // the ray has the label of the one sector
        let label = star.sectors[0];
        star.rays.push(with_mark(ray, label))?;
        return Ok(());
    }
    let left = ray.left();
    let place = place_of(star, &left);
    if left_of_ray(star, place).is_same(&left) {
        return Ok(());
    }
    let next = next_of(star.rays.len(), place);
    count_from(star, next);
    add_last(star, ray)
}

// Adds each of the rays that the star doesn't have. Each direction keeps its label.
pub(crate) fn cut_by(star: &mut Star, rays: &[Ray]) -> Result<(), OutOfMemory>
    requires turned { BeginsAnywhere star.old }
    requires rays { All (IsRay (vector_of star.old.axis)) rays.now }
    ensures turned { OnOk result (BeginsAnywhere star.new) }
    ensures kept { OnOk result (KeepsLabels star.old star.new) }
    ensures all { OnOk result ((k : ℕ) → k < length rays.now → HasLeft star.new (left_at rays.now k)) }
{
    for ray in rays {
        cut(star, ray)?;
    }
    Ok(())
}
