//! A map made of simplified stars: some stars are kept as svertices, and the straight stars give circles.

ghost use Rattle.std.specs.Prelude.{◌≡◌, ◌↔◌};
ghost use Rattle.nef_spair.specs.Prelude.{ℕ, [], map, IsTrue, IfOk, MatchOption, All, IsPermutation, MatchOrdering, vector_of, normal_limit, IsAtMost, InOrder, IsAt, IsBare, around_of, svertex_at, star_of, IsStar, svertex_of, sloop_of, IsArcBelow, IsTwin, AreApart, IsMadeOfSimple, IsBareCircle, IsProperCircle, IsChosen, IsDropped, AreAllKept, AreOthers, IsCircleOf, AreCircles, AreSimple, IsGroundOf, IsStraight};

use crate::OutOfMemory;
use crate::along::arcs_of;
use nef_geo::{Dir, Label, List, dir_cmp};
use nef_smap::{RawStars, SArc, SLoop, SVertex, SphereMap};
use nef_star::{Star, is_plain, is_straight, simplify};
use std::alloc::Global;
use std::cmp::Ordering;

// The stars, each without needless rays.
pub(crate) fn simplified(stars: List<Star>) -> List<Star>
    requires stars { All IsStar stars }
    ensures simple { AreSimple stars result }
{
    let mut stars = stars.into_vec();
    for star in stars.iter_mut() {
        simplify(star);
    }
    List::from_vec(stars)
}

// The circle of a straight star. The ray that goes ahead stands first, with the sector to its left after it.
fn circle_of(star: &Star) -> SLoop
    requires star { IsStar star.now }
    requires straight { IsStraight (star_of star.now) }
    ensures circle { IsCircleOf (star_of star.now) (sloop_of result) }
    ensures small { IsAtMost normal_limit (vector_of result.normal) }
{
    let sectors = star.sectors.as_slice();
    SLoop {
        normal: star.rays[0].normal,
        mark: star.mark,
        pos: sectors[0],
        neg: sectors[1],
    }
}

// One of the labels of raw stars.
fn some_label(raw: &RawStars) -> Option<Label>
    ensures ground { IsGroundOf raw.now result }
{
    if raw.ground.is_some() {
        return raw.ground;
    }
    if raw.stars.is_empty() {
        return raw.sloop.map(|circle| circle.mark);
    }
    Some(raw.stars.at(0).mark)
}

// Whether no star is plain or straight.
fn are_all_kept(stars: &[Star]) -> bool
    requires stars { All IsStar stars.now }
    ensures kept { IsTrue result → AreAllKept stars.now }
{
    for star in stars {
        if is_straight(star) || is_plain(star) {
            return false;
        }
    }
    true
}

// The stars that are neither plain nor straight, and the circles of the straight stars.
fn parted(alloc: Global, stars: List<Star>) -> Result<(Vec<Star>, Vec<SLoop>), OutOfMemory>
    requires stars { All IsStar stars }
    ensures kept { IfOk result (λ p. AreOthers IsDropped stars p.0.items) }
    ensures circles { IfOk result (λ p. AreCircles stars p.1.items) }
{
    // most lists of stars stay as they are
    if are_all_kept(stars.as_slice()) {
        return Ok((stars.into_vec(), Vec::new(alloc)));
    }
    let mut kept = Vec::new(alloc);
    let mut circles = Vec::new(alloc);
    for star in stars.into_vec() {
        if is_straight(&star) {
            circles.push(circle_of(&star))?;
        } else if !is_plain(&star) {
            kept.push(star)?;
        }
    }
    Ok((kept, circles))
}

// The label round a star without rays.
fn around(star: &Star) -> Option<Label>
    requires star { IsStar star.now }
    ensures around { result ≡ around_of (star_of star.now).rays (star_of star.now).sectors }
{
    if star.rays.as_slice().is_empty() {
        Some(star.sectors.as_slice()[0])
    } else {
        None
    }
}

fn svertex(star: &Star) -> SVertex
    requires star { IsStar star.now }
    ensures svertex { svertex_of result ≡ svertex_at (star_of star.now) }
{
    SVertex {
        dir: star.axis,
        mark: star.mark,
        around: around(star),
    }
}

fn svertices_of(alloc: Global, kept: &[Star]) -> Result<Vec<SVertex>, OutOfMemory>
    requires stars { All IsStar kept.now }
    ensures svertices { IfOk result (λ v. map svertex_of v.items ≡ map svertex_at (map star_of kept.now)) }
{
    let mut svertices = Vec::with_capacity(alloc, kept.len())?;
    for star in kept {
        svertices.push(svertex(star))?;
    }
    Ok(svertices)
}

// Compares arcs by their normals, and then by their sources.
fn arc_cmp(a: &SArc, b: &SArc) -> Ordering
    ensures order { MatchOrdering result (IsArcBelow a.now b.now) (IsTwin a.now b.now) (IsArcBelow b.now a.now) }
{
    match dir_cmp(&a.normal, &b.normal) {
        Ordering::Less => Ordering::Less,
        Ordering::Equal => a.source.cmp(&b.source),
        Ordering::Greater => Ordering::Greater,
    }
}

/// Sorts arcs by their normals, and then by their sources. No two of the arcs have both in common.
pub fn sort_arcs(arcs: &mut Vec<SArc>)
    requires apart { AreApart arcs.old.items }
    ensures permutation { IsPermutation arcs.old.items arcs.new.items }
    ensures ordered { InOrder IsArcBelow arcs.new.items }
{
    arcs.sort_unstable_by(arc_cmp);
}

// Whether no star has its axis on the normal's circle.
fn is_bare(kept: &[Star], normal: &Dir) -> bool
    ensures bare { IsTrue result ↔ IsBare (map star_of kept.now) (vector_of normal.now) }
{
    for star in kept {
        if normal.is_perpendicular(&star.axis) {
            return false;
        }
    }
    true
}

// The first of the circles on which no star has its axis.
fn bare_circle(circles: &[SLoop], kept: &[Star]) -> Option<SLoop>
    ensures circle { MatchOption result ((k : ℕ) (c : SLoop) → IsAt circles.now k c → IsBareCircle kept.now c → ⊥) (λ c. (k : ℕ) × IsAt circles.now k c × IsBareCircle kept.now c) }
{
    for circle in circles {
        if is_bare(kept, &circle.normal) {
            return Some(*circle);
        }
    }
    None
}

// Whether the circle's mark differs from the label on one of its sides.
fn is_proper(circle: &SLoop) -> bool
    ensures proper { IsTrue result ↔ IsProperCircle circle.now }
{
    circle.pos != circle.mark || circle.neg != circle.mark
}

// The given circle if it is proper, or else the first circle on which no kept star has its axis.
fn sloop_of(given: Option<SLoop>, circles: &[SLoop], kept: &[Star]) -> Option<SLoop>
    ensures chosen { MatchOption result ((c : SLoop) → IsChosen kept.now circles.now given c → ⊥) (IsChosen kept.now circles.now given) }
{
    if let Some(circle) = given
        && is_proper(&circle)
    {
        return Some(circle);
    }
    bare_circle(circles, kept)
}

// The ground of a map, given exactly where the map has no svertices and no sloop.
fn ground_of(svertices: &[SVertex], sloop: Option<SLoop>, ground: Option<Label>) -> Option<Label>
    ensures alone { svertices.now ≡ [] → sloop ≡ None → result ≡ ground }
    ensures only { (l : Label) → result ≡ Some l → (svertices.now ≡ []) × (sloop ≡ None) }
{
    if svertices.is_empty() && sloop.is_none() {
        ground
    } else {
        None
    }
}

// The map of simplified stars: the svertices of the kept stars, the arcs along their rays, the sloop, and the ground.
pub(crate) fn map_of_simple(alloc: Global, raw: RawStars) -> Result<SphereMap, OutOfMemory>
    requires stars { All IsStar raw.stars }
    ensures made { IfOk result (IsMadeOfSimple raw) }
{
    let label = some_label(&raw);
    let (kept, circles) = parted(alloc, raw.stars)?;
    let svertices = svertices_of(alloc, &kept)?;
    let mut arcs = arcs_of(alloc, &kept)?;
    sort_arcs(&mut arcs);
    let sloop = sloop_of(raw.sloop, &circles, &kept);
    let ground = ground_of(&svertices, sloop, label);
    Ok(SphereMap {
        mark: raw.mark,
        svertices: List::from_vec(svertices),
        arcs: List::from_vec(arcs),
        sloop,
        ground,
    })
}
