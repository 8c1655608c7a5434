//! The items of a sphere map, which are its arcs and its sloop, and the numbered sides with their labels.

ghost use Rattle.std.specs.Prelude.{◌≡◌, ◌<◌, ◌^◌, ◌↔◌, ◌≤◌};
ghost use Rattle.nef_smap.specs.Prelude.{ℕ, length, cond, IsTrue, MatchOption, slice_get, normal_limit, svertex_limit, Vector, SameDirection, IsAtMost, vector_of, filter_map, IsOnCircle, normal_vector, IsOn, IsAt, Item as PlainItem, items, item_normal, item_pos, item_mark, item_neg, arc_item, OnItem, Side, pos_item, neg_item, arc_of, map_of, IsSphereMap, item_of, IsItemThrough, IsSide, sides_of, side_number, arounds_before};

use crate::map::{SArc, SLoop, SphereMap};
use nef_arc::{Arc, strictly_on};
use nef_geo::{Dir, Label, axis_x, axis_y, common_perpendicular, cross};

#[derive(Clone, Copy)]
pub enum Item {
    Arc(SArc),
    Loop(SLoop),
}

impl Item {
    /// The normal of the item's great circle.
    pub fn normal(&self) -> &Dir
        ensures normal { vector_of result.now ≡ item_normal (item_of self.now) }
    {
        match self {
            Item::Arc(arc) => &arc.normal,
            Item::Loop(circle) => &circle.normal,
        }
    }

    /// The label of the directions on the item.
    pub fn mark(&self) -> Label
        ensures mark { result ≡ item_mark (item_of self.now) }
    {
        match self {
            Item::Arc(arc) => arc.mark,
            Item::Loop(circle) => circle.mark,
        }
    }

    /// The label on the side to which the normal points if `above`, and else on the other side.
    pub fn label(&self, above: bool) -> Label
        ensures label { result ≡ cond above (item_pos (item_of self.now)) (item_neg (item_of self.now)) }
    {
        match (self, above) {
            (Item::Arc(arc), true) => arc.pos,
            (Item::Arc(arc), false) => arc.neg,
            (Item::Loop(circle), true) => circle.pos,
            (Item::Loop(circle), false) => circle.neg,
        }
    }
}

impl SLoop {
    /// Whether the direction lies on the sloop.
    pub fn holds(&self, d: &Dir) -> bool
        ensures on { IsTrue result ↔ IsOnCircle (vector_of self.now.normal) (vector_of d.now) }
    {
        self.normal.is_perpendicular(d)
    }
}

/// A direction on the great circle of the normal, whose entries are at most `2^11` in size.
pub fn on_circle(normal: &Dir) -> Dir
    requires small { IsAtMost normal_limit (vector_of normal.now) }
    ensures on { IsOnCircle (vector_of normal.now) (vector_of result) }
    ensures small { IsAtMost svertex_limit (vector_of result) }
{
    if let Some(d) = cross(normal, &axis_x()) {
        return d;
    }
    common_perpendicular(normal, &axis_y())
}

// How many svertices have a side, which has the label round the svertex.
fn around_sides(map: &SphereMap) -> usize
    ensures count { result ≡ length (filter_map (λ v. v.around) map.now.svertices) }
    ensures small { result < 2 ^ 60 }
{
    map.svertices
        .as_slice()
        .iter()
        .filter_map(|v| v.around)
        .count()
}

// The label of a side round a svertex. These sides are numbered in the order of the svertices that have one.
fn around_label(map: &SphereMap, side: usize) -> Option<Label>
    ensures label { result ≡ slice_get (filter_map (λ v. v.around) map.now.svertices) side }
{
    map.svertices
        .as_slice()
        .iter()
        .filter_map(|v| v.around)
        .nth(side)
}

impl SphereMap {
    /// How many items the map has.
    pub fn item_count(&self) -> usize
        ensures count { result ≡ length (items (map_of self.now)) }
        ensures small { result < 2 ^ 60 }
    {
        self.arcs.as_slice().len() + usize::from(self.sloop.is_some())
    }

    /// The item with this number: the arcs come first, by their numbers, and then the sloop.
    pub fn item_at(&self, number: usize) -> Item
        requires within { number < length (items (map_of self.now)) }
        ensures item { IsAt (items (map_of self.now)) number (item_of result) }
    {
        match self.sloop {
            Some(circle) if number == self.arcs.len() => Item::Loop(circle),
            _ => Item::Arc(*self.arcs.at(number)),
        }
    }

    /// The arc of the map as a set of directions, with the directions of its ends.
    pub fn great_arc(&self, arc: &SArc) -> Arc
        requires map { IsSphereMap self.now }
        requires arc { (i : ℕ) × IsAt (map_of self.now).arcs i (arc_of arc.now) }
        ensures normal { normal_vector result ≡ vector_of arc.now.normal }
        ensures on { (d : Vector) → IsOn result d ↔ OnItem (map_of self.now) (arc_item (arc_of arc.now)) d }
    {
        let source = self.svertices.at(arc.source).dir;
        let target = self.svertices.at(arc.target).dir;
        Arc::of(source, target, arc.normal)
    }

    /// Whether the direction lies on the item with this number; on an arc strictly.
    pub fn item_holds(&self, number: usize, d: &Dir) -> bool
        requires map { IsSphereMap self.now }
        requires within { number < length (items (map_of self.now)) }
        ensures on { (x : PlainItem) × IsAt (items (map_of self.now)) number x × (IsTrue result ↔ OnItem (map_of self.now) x (vector_of d.now)) }
    {
        match self.item_at(number) {
            Item::Arc(arc) => strictly_on(&self.great_arc(&arc), d),
            Item::Loop(circle) => circle.holds(d),
        }
    }

    /// The number of the first item with the normal. `None` comes exactly where no item has the normal.
    pub fn item_with(&self, normal: &Dir) -> Option<usize>
        ensures item { MatchOption result ((k : ℕ) (x : PlainItem) → IsAt (items (map_of self.now)) k x → SameDirection (item_normal x) (vector_of normal.now) → ⊥) (λ k. (x : PlainItem) × IsAt (items (map_of self.now)) k x × SameDirection (item_normal x) (vector_of normal.now)) }
    {
        for number in 0..self.item_count() {
            if self.item_at(number).normal().is_same(normal) {
                return Some(number);
            }
        }
        None
    }

    /// The number of the item with the normal on which the direction lies. `None` comes exactly where no such item is.
    pub fn item_through(&self, normal: &Dir, d: &Dir) -> Option<usize>
        requires map { IsSphereMap self.now }
        ensures item { MatchOption result ((k : ℕ) → IsItemThrough (map_of self.now) (vector_of normal.now) (vector_of d.now) k → ⊥) (IsItemThrough (map_of self.now) (vector_of normal.now) (vector_of d.now)) }
    {
        for number in 0..self.item_count() {
            if self.item_at(number).normal().is_same(normal) && self.item_holds(number, d) {
                return Some(number);
            }
        }
        None
    }

    /// The number of the side round this svertex, if the svertex has a side: how many svertices before have a side.
    pub fn around_side(&self, svertex: usize) -> usize
        requires within { svertex ≤ length self.now.svertices }
        ensures number { result ≡ arounds_before (map_of self.now).svertices svertex }
    {
        let mut found = 0;
        for number in 0..svertex {
            if self.svertices.at(number).around.is_some() {
                found += 1;
            }
        }
        found
    }

    /// The number of the item's side to which the item's normal points if `above`, or else of its other side.
    pub fn item_side(&self, number: usize, above: bool) -> usize
        requires within { number < length (items (map_of self.now)) }
        ensures number { result ≡ side_number (map_of self.now) (cond above (pos_item number) (neg_item number)) }
        ensures side { (x : PlainItem) × IsAt (items (map_of self.now)) number x × IsSide (map_of self.now) result (cond above (pos_item number) (neg_item number)) (cond above (item_pos x) (item_neg x)) }
    {
        let within = number < self.item_count();
        prove!(within);
        around_sides(self) + 2 * number + usize::from(!above)
    }
}

/// How many sides the map has: one round each svertex without arcs, two for each arc and for the sloop, and the ground
/// of a map without svertices and sloop.
pub fn sides(map: &SphereMap) -> usize
    ensures count { result ≡ length (sides_of (map_of map.now)) }
    ensures small { result < 2 ^ 62 }
{
    around_sides(map) + 2 * map.item_count() + usize::from(map.ground.is_some())
}

/// The label of the side with this number. The sides round svertices without arcs come first; then the two sides of
/// each arc and of the sloop, first the one to which the normal points; then the ground.
pub fn side_label(map: &SphereMap, side: usize) -> Label
    requires within { side < length (sides_of (map_of map.now)) }
    ensures label { (o : Side) × IsSide (map_of map.now) side o result }
{
    if let Some(label) = around_label(map, side) {
        return label;
    }
    let of_items = side - around_sides(map);
    match map.ground {
        Some(label) if of_items == 2 * map.item_count() => label,
        _ => map.item_at(of_items / 2).label(of_items % 2 == 0),
    }
}
