//! Where a direction lies on a sphere map, its label, and the star there.

ghost use Rattle.std.specs.Prelude.{◌≡◌, ◌++◌, ◌∷◌};
ghost use Rattle.nef_smap.specs.Prelude.{ℕ, MatchOption, [], cond, IfOk, OnOk, vector_of, svertex_limit, SameDirection, IsAtMost, MapLabel, IsAt, Item as PlainItem, MapVertex, items, OnItem, map_of, IsSphereMap, IsPlaceOf, star_of, IsStar, AreArcEnds, IsNeighbourhood};

use crate::OutOfMemory;
use crate::item::side_label;
use crate::map::{SPlace, SphereMap};
use nef_geo::{Dir, Label};
use nef_star::{Ray, Star, bare, round};
use std::alloc::Global;

// The number of the svertex in this direction.
fn svertex_at(map: &SphereMap, d: &Dir) -> Option<usize>
    ensures svertex { MatchOption result ((k : ℕ) → IsPlaceOf (map_of map.now) (vector_of d.now) (SPlace.SVertex k) → ⊥) (λ k. IsPlaceOf (map_of map.now) (vector_of d.now) (SPlace.SVertex k)) }
{
    for (number, svertex) in map.svertices.as_slice().iter().enumerate() {
        if svertex.dir.is_same(d) {
            return Some(number);
        }
    }
    None
}

// The number of the item on which the direction lies; on an arc strictly.
fn item_on(map: &SphereMap, d: &Dir) -> Option<usize>
    requires map { IsSphereMap map.now }
    ensures item { MatchOption result ((k : ℕ) (x : PlainItem) → IsAt (items (map_of map.now)) k x → OnItem (map_of map.now) x (vector_of d.now) → ⊥) (λ k. (x : PlainItem) × IsAt (items (map_of map.now)) k x × OnItem (map_of map.now) x (vector_of d.now)) }
{
    for number in 0..map.item_count() {
        if map.item_holds(number, d) {
            return Some(number);
        }
    }
    None
}

/// Where the direction lies on the map. No memory is taken.
pub fn at(map: &SphereMap, d: &Dir) -> SPlace
    requires map { IsSphereMap map.now }
    ensures place { IsPlaceOf (map_of map.now) (vector_of d.now) result }
{
    if let Some(number) = svertex_at(map, d) {
        return SPlace::SVertex(number);
    }
    let Some(number) = item_on(map, d) else {
        return SPlace::Face(map.face_toward(d));
    };
    if number < map.arcs.len() {
        return SPlace::Arc(number);
    }
    SPlace::Loop
}

/// The label of the direction on the map.
pub fn label_at(map: &SphereMap, d: &Dir) -> Label
    requires map { IsSphereMap map.now }
    ensures label { MapLabel (map_of map.now) (vector_of d.now) result }
{
    match at(map, d) {
        SPlace::SVertex(number) => map.svertices.at(number).mark,
        SPlace::Arc(number) => map.item_at(number).mark(),
        SPlace::Loop => map.item_at(map.arcs.len()).mark(),
        SPlace::Face(side) => side_label(map, side),
    }
}

// Adds the ray with the label of the face to its left, if `is_end`.
fn push_if(
    ends: &mut Vec<(Ray, Label)>,
    is_end: bool,
    ray: Ray,
    left: Label,
) -> Result<(), OutOfMemory>
    ensures pushed { OnOk result (ends.new.items ≡ ends.old.items ++ cond is_end ((ray, left) ∷ []) []) }
{
    if is_end {
        ends.push((ray, left))?;
    }
    Ok(())
}

// The rays at the svertex along the arcs that begin or end there, each with the label of the face to its left.
fn arc_ends(
    alloc: Global,
    map: &SphereMap,
    svertex: usize,
) -> Result<Vec<(Ray, Label)>, OutOfMemory>
    ensures ends { IfOk result (λ es. AreArcEnds map.now.arcs svertex es.items) }
{
    let mut ends = Vec::new(alloc);
    for arc in map.arcs.as_slice() {
        let (ahead, back) = (
            Ray::of(arc.normal, true, arc.mark),
            Ray::of(arc.normal, false, arc.mark),
        );
        push_if(&mut ends, arc.source == svertex, ahead, arc.pos)?;
        push_if(&mut ends, arc.target == svertex, back, arc.neg)?;
    }
    Ok(ends)
}

// The star of a direction on the item with this number: one ray goes ahead along the item, the other back.
fn star_on_item(alloc: Global, map: &SphereMap, d: &Dir, number: usize) -> Result<Star, OutOfMemory>
    requires map { IsSphereMap map.now }
    requires small { IsAtMost svertex_limit (vector_of d.now) }
    requires on { (x : PlainItem) × IsAt (items (map_of map.now)) number x × OnItem (map_of map.now) x (vector_of d.now) }
    ensures star { IfOk result (λ t. IsStar t) }
    ensures axis { IfOk result (λ t. t.axis ≡ d.now) }
    ensures shows { IfOk result (λ t. IsNeighbourhood (star_of t) (map_of map.now) (vector_of d.now)) }
{
    let item = map.item_at(number);
    let (normal, mark) = (*item.normal(), item.mark());
    let (ahead, back) = (Ray::of(normal, true, mark), Ray::of(normal, false, mark));
    let rays = Vec::from_slice(alloc, &[ahead, back])?;
    let (above, below) = (item.label(true), item.label(false));
    let sectors = Vec::from_slice(alloc, &[above, below])?;
    Ok(Star::of(*d, rays, sectors, mark))
}

fn star_at_svertex(
    alloc: Global,
    map: &SphereMap,
    d: &Dir,
    number: usize,
) -> Result<Star, OutOfMemory>
    requires map { IsSphereMap map.now }
    requires small { IsAtMost svertex_limit (vector_of d.now) }
    requires at { (v : MapVertex) × IsAt (map_of map.now).svertices number v × SameDirection v.dir (vector_of d.now) }
    ensures star { IfOk result (λ t. IsStar t) }
    ensures axis { IfOk result (λ t. t.axis ≡ d.now) }
    ensures shows { IfOk result (λ t. IsNeighbourhood (star_of t) (map_of map.now) (vector_of d.now)) }
{
    let svertex = *map.svertices.at(number);
    if let Some(around) = svertex.around {
        return bare(alloc, *d, svertex.mark, around);
    }
    let ends = arc_ends(alloc, map, number)?;
    round(alloc, *d, svertex.mark, ends.as_slice())
}

/// The star of a direction: the star gives each close direction the label that it has on the map. `OutOfMemory` says
/// that memory was wanted and not found.
pub fn star_at(alloc: Global, map: &SphereMap, d: &Dir) -> Result<Star, OutOfMemory>
    requires map { IsSphereMap map.now }
    requires small { IsAtMost svertex_limit (vector_of d.now) }
    ensures star { IfOk result (λ t. IsStar t) }
    ensures axis { IfOk result (λ t. t.axis ≡ d.now) }
    ensures shows { IfOk result (λ t. IsNeighbourhood (star_of t) (map_of map.now) (vector_of d.now)) }
{
    match at(map, d) {
        SPlace::SVertex(number) => star_at_svertex(alloc, map, d, number),
        SPlace::Arc(number) => star_on_item(alloc, map, d, number),
        SPlace::Loop => star_on_item(alloc, map, d, map.arcs.len()),
        SPlace::Face(side) => {
            let label = side_label(map, side);
            bare(alloc, *d, label, label)
        }
    }
}
