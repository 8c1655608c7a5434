//! Two maps overlaid: the stars of all axes, and the sloop on which no axis lies.

ghost use Rattle.std.specs.Prelude.{◌<◌, ◌⊎◌, ◌≡◌, ◌↔◌};
ghost use Rattle.nef_geo.specs.Prelude.{length, IfOk, MatchOption, IsTrue, Some, option_map, svertex_limit, normal_limit, IsAtMost, IsNormal, vector_of, IsAt};
ghost use Rattle.nef_geo.specs.declared.dir.Dir.{Dir};
ghost use Rattle.law_geometry.specs.sphere.Maps.{Item as PlainItem, items, MapSloop};
ghost use Rattle.law_geometry.specs.sphere.building.Overlays.{Raw, HasSvertexOrSloop, IsMergedGround, IsLoneSloop, IsMergedSloop};
ghost use Rattle.nef_star.specs.Ops.{op_label};
ghost use Rattle.nef_smap.specs.Maps.{map_of, raw_of, IsSphereMap, IsRawStars, sloop_of};
ghost use Rattle.nef_sover.specs.Axes.{AreAxes, CrossesAt};
ghost use Rattle.nef_sover.specs.Merged.{AreCircleLabelsOf, IsMergedAt, AreMerged};
ghost use Rattle.nef_smap.specs.declared.map.SLoop.{SLoop};
ghost use Rattle.nef_sover.specs.Circles.{AreOff, IsBareNormal, IsUncrossed, HasCircleLabels, IsLoneNormal};

use crate::OutOfMemory;
use crate::axes::{Axis, axes_of};
use nef_geo::{Dir, Label, List};
use nef_smap::{RawStars, SLoop, SphereMap, on_circle, star_at};
use nef_star::{CircleLabels, Op, Star, crossed, merge};
use std::alloc::Global;

// Whether no axis lies on the sloop.
fn is_bare(axes: &[Axis], sloop: &SLoop) -> bool
    ensures bare { IsTrue result ↔ AreOff axes.now (vector_of sloop.now.normal) }
{
    for axis in axes {
        if sloop.holds(&axis.dir) {
            return false;
        }
    }
    true
}

// The normal of the sloop, if there is one and no axis lies on it.
fn bare_normal(sloop: &Option<SLoop>, axes: &[Axis]) -> Option<Dir>
    ensures bare { MatchOption result ((n : Dir) → IsBareNormal sloop.now axes.now n → ⊥) (IsBareNormal sloop.now axes.now) }
{
    let Some(sloop) = sloop else {
        return None;
    };
    if is_bare(axes, sloop) {
        Some(sloop.normal)
    } else {
        None
    }
}

// The normal of a sloop of either map on which no axis lies. Where both maps have such a sloop, both are one circle.
fn lone_normal(a: &SphereMap, b: &SphereMap, axes: &[Axis]) -> Option<Dir>
    requires first { IsSphereMap a.now }
    requires second { IsSphereMap b.now }
    requires axes { AreAxes (map_of a.now) (map_of b.now) axes.now }
    ensures lone { MatchOption result ((l : MapSloop) → IsLoneSloop (map_of a.now) (map_of b.now) l → ⊥) (IsLoneNormal (map_of a.now) (map_of b.now)) }
{
    match bare_normal(&a.sloop, axes) {
        Some(normal) => Some(normal),
        None => bare_normal(&b.sloop, axes),
    }
}

// The map's sloop, if it has this normal.
fn sloop_with(map: &SphereMap, normal: &Dir) -> Option<SLoop>
    ensures sloop { MatchOption result ((l : SLoop) → map.now.sloop ≡ Some l → l.normal ≡ normal.now → ⊥) (λ l. (map.now.sloop ≡ Some l) × (l.normal ≡ normal.now)) }
{
    let Some(sloop) = &map.sloop else {
        return None;
    };
    if sloop.normal.is_same(normal) {
        Some(*sloop)
    } else {
        None
    }
}

// The map's labels all along the normal's great circle and beside it. Where the map has no sloop there, the whole
// circle lies in one face.
fn labels_along(alloc: Global, map: &SphereMap, normal: &Dir) -> Result<SLoop, OutOfMemory>
    requires map { IsSphereMap map.now }
    requires small { IsAtMost normal_limit (vector_of normal.now) }
    requires normal { IsNormal (vector_of normal.now) }
    requires uncrossed { IsUncrossed (map_of map.now) (vector_of normal.now) }
    ensures labels { IfOk result (HasCircleLabels (map_of map.now) (vector_of normal.now)) }
{
    if let Some(sloop) = sloop_with(map, normal) {
        return Ok(sloop);
    }
    let star = star_at(alloc, map, &on_circle(normal))?;
    Ok(SLoop {
        normal: *normal,
        mark: star.mark,
        pos: star.mark,
        neg: star.mark,
    })
}

// The sloop of one of the maps on which no axis lies, with the operation's labels. `None` comes where an axis lies on
// each sloop.
fn merged_sloop(
    alloc: Global,
    a: &SphereMap,
    b: &SphereMap,
    axes: &[Axis],
    op: Op,
) -> Result<Option<SLoop>, OutOfMemory>
    requires first { IsSphereMap a.now }
    requires second { IsSphereMap b.now }
    requires axes { AreAxes (map_of a.now) (map_of b.now) axes.now }
    ensures circle { IfOk result (λ o. MatchOption (option_map sloop_of o) ((l : MapSloop) → IsLoneSloop (map_of a.now) (map_of b.now) l → ⊥) (IsMergedSloop (map_of a.now) (map_of b.now) (op_label op))) }
    ensures small { IfOk result (λ o. (l : SLoop) → o ≡ Some l → IsAtMost normal_limit (vector_of l.normal)) }
{
    let Some(normal) = lone_normal(a, b, axes) else {
        return Ok(None);
    };
    let first = labels_along(alloc, a, &normal)?;
    let second = labels_along(alloc, b, &normal)?;
    Ok(Some(SLoop {
        normal,
        mark: op.label(first.mark, second.mark),
        pos: op.label(first.pos, second.pos),
        neg: op.label(first.neg, second.neg),
    }))
}

// The great circle of the item with this number, near a direction on the item.
fn line(map: &SphereMap, number: usize) -> CircleLabels
    requires within { number < length (items (map_of map.now)) }
    ensures line { (x : PlainItem) × IsAt (items (map_of map.now)) number x × AreCircleLabelsOf x result }
{
    let item = map.item_at(number);
    CircleLabels {
        normal: *item.normal(),
        mark: item.mark(),
        pos: item.label(true),
        neg: item.label(false),
    }
}

// The star at the axis with the operation's labels: made of two items that cross, or merged of the maps' stars.
fn merged_star(
    alloc: Global,
    a: &SphereMap,
    b: &SphereMap,
    axis: &Axis,
    op: Op,
) -> Result<Star, OutOfMemory>
    requires first { IsSphereMap a.now }
    requires second { IsSphereMap b.now }
    requires small { IsAtMost svertex_limit (vector_of axis.now.dir) }
    requires placed { CrossesAt (map_of a.now) (map_of b.now) axis.now.crossed (vector_of axis.now.dir) }
    ensures merged { IfOk result (IsMergedAt (map_of a.now) (map_of b.now) (op_label op) axis.now.dir) }
{
    if let Some(numbers) = axis.crossed {
        let (x, y) = (line(a, numbers.0), line(b, numbers.1));
        return crossed(alloc, axis.dir, &x, &y, op);
    }
    let first = star_at(alloc, a, &axis.dir)?;
    let second = star_at(alloc, b, &axis.dir)?;
    merge(first, &second, op)
}

// The stars of both maps at each axis, merged.
fn merged_stars(
    alloc: Global,
    a: &SphereMap,
    b: &SphereMap,
    axes: &[Axis],
    op: Op,
) -> Result<List<Star>, OutOfMemory>
    requires first { IsSphereMap a.now }
    requires second { IsSphereMap b.now }
    requires axes { AreAxes (map_of a.now) (map_of b.now) axes.now }
    ensures merged { IfOk result (AreMerged (map_of a.now) (map_of b.now) (op_label op) axes.now) }
{
    let mut stars = List::new(alloc);
    for axis in axes {
        stars.push(merged_star(alloc, a, b, axis, op)?)?;
    }
    Ok(stars)
}

// The ground of the combination, where both maps have one.
fn merged_ground(a: &SphereMap, b: &SphereMap, op: Op) -> Option<Label>
    requires first { IsSphereMap a.now }
    requires second { IsSphereMap b.now }
    ensures ground { MatchOption result (HasSvertexOrSloop (map_of a.now) ⊎ HasSvertexOrSloop (map_of b.now)) (IsMergedGround (map_of a.now) (map_of b.now) (op_label op)) }
{
    match (a.ground, b.ground) {
        (Some(first), Some(second)) => Some(op.label(first, second)),
        _ => None,
    }
}

/// The two maps overlaid, with the labels of the operation. There is a star at each svertex of either map, and in each
/// direction in which an item of the first map meets an item of the second with another normal. If no such direction
/// lies on a sloop of one map, a sloop is given with the combined labels on it and beside it; where neither map has an
/// item, one label of the whole is given. No labels are refused: `Out` in one map makes the combined label `Out`.
pub fn overlay(alloc: Global, a: &SphereMap, b: &SphereMap, op: Op) -> Result<RawStars, OutOfMemory>
    requires first { IsSphereMap a.now }
    requires second { IsSphereMap b.now }
    ensures raw { IfOk result (λ r. Raw (raw_of r) (map_of a.now) (map_of b.now) (op_label op)) }
    ensures stars { IfOk result (λ r. IsRawStars r) }
{
    let axes = axes_of(alloc, a, b)?;
    let stars = merged_stars(alloc, a, b, axes.as_slice(), op)?;
    let sloop = merged_sloop(alloc, a, b, axes.as_slice(), op)?;
    Ok(RawStars {
        mark: op.label(a.mark, b.mark),
        stars,
        sloop,
        ground: merged_ground(a, b, op),
    })
}
