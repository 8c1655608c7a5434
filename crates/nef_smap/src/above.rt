//! What lies over directions of a sphere map: the item that the way up from a direction first meets.

ghost use Rattle.std.specs.Prelude.{◌≡◌, ◌+◌, ◌<◌, ◌<ℤ◌, ◌↔◌};
ghost use Rattle.nef_smap.specs.Prelude.{ℕ, IfSome, pos, IsTrue, length, normal_limit, svertex_limit, Sign as Signum, Vector, dot, cross, up, IsAtMost, vector_of, IsAt, items, map_of, IsSphereMap, item_of, rise_form, IsOver, IsFirst, IsFirstOf, geo_sign, close_sign, beyond_sign, IsClose, ArcPasses, PassesArc};

use crate::item::Item;
use crate::map::{SArc, SphereMap};
use nef_geo::{Dir, Sign, dot, quad, triple, up};

// Where directions close to a given one lie.
#[derive(Clone, Copy)]
pub(crate) enum Lean {
    // Below the given direction, and there a little aside.
    Down,
    // Over the given direction, and there a little aside.
    Up,
    // Aside, and there a little over the given direction.
    Along,
}

// Directions close to `at`, toward `aside`, and down or up as `lean` says, with one sign on each of a map's forms.
#[derive(Clone, Copy)]
pub(crate) struct Close {
    pub(crate) at: Dir,
    pub(crate) aside: Dir,
    pub(crate) lean: Lean,
}

// A second sign is asked for only where the first is zero: mostly the first decides.
impl Close {
    // The side of the normal's plane, which holds `at`, on which the close directions lie.
    fn side_beyond(&self, normal: &Dir) -> Sign
        requires ahead { pos 0 <ℤ dot (vector_of normal.now) up }
        ensures side { result ≡ geo_sign (beyond_sign (vector_of normal.now) self.now.lean (vector_of self.now.aside)) }
    {
        match self.lean {
            Lean::Down => Sign::Minus,
            Lean::Up => Sign::Plus,
            Lean::Along => match dot(normal, &self.aside) {
                Sign::Minus => Sign::Minus,
                Sign::Zero => Sign::Plus,
                Sign::Plus => Sign::Plus,
            },
        }
    }

    // The side of the normal's plane on which the close directions lie.
    fn side(&self, normal: &Dir) -> Sign
        requires ahead { pos 0 <ℤ dot (vector_of normal.now) up }
        ensures side { result ≡ geo_sign (close_sign (vector_of normal.now) self.now) }
    {
        match dot(normal, &self.at) {
            Sign::Minus => Sign::Minus,
            Sign::Zero => self.side_beyond(normal),
            Sign::Plus => Sign::Plus,
        }
    }

    // The side of the plane of the upward direction and d on which the close directions lie.
    fn turn(&self, d: &Dir) -> Sign
        ensures turn { result ≡ geo_sign (close_sign (cross up (vector_of d.now)) self.now) }
    {
        let up = up();
        match triple(d, &self.at, &up) {
            Sign::Minus => Sign::Minus,
            Sign::Zero => triple(d, &self.aside, &up),
            Sign::Plus => Sign::Plus,
        }
    }

    // On which side of the second normal's plane the way up from the close directions meets the first normal's plane.
    fn meeting(&self, first: &Dir, second: &Dir) -> Sign
        requires at_small { IsAtMost svertex_limit (vector_of self.now.at) }
        requires aside_small { IsAtMost svertex_limit (vector_of self.now.aside) }
        requires first_small { IsAtMost normal_limit (vector_of first.now) }
        requires second_small { IsAtMost normal_limit (vector_of second.now) }
        ensures meeting { result ≡ geo_sign (close_sign (rise_form up (vector_of first.now) (vector_of second.now)) self.now) }
    {
        let up = up();
        match quad(&up, &self.at, first, second) {
            Sign::Minus => Sign::Minus,
            Sign::Zero => quad(&up, &self.aside, first, second),
            Sign::Plus => Sign::Plus,
        }
    }
}

// Whether a direction on an arc's circle is strictly on the arc: by the turn from source to target, whether the
// direction is less than half a circle past the source and before the target, and whether both ends are one.
fn is_passed(turn: Sign, past_source: bool, before_target: bool, whole: bool) -> bool
    ensures passed { (s : Signum) → turn ≡ geo_sign s → IsTrue result ↔ ArcPasses s (IsTrue past_source) (IsTrue before_target) (IsTrue whole) }
{
    match turn {
        Sign::Plus => past_source && before_target,
        Sign::Minus => past_source || before_target,
        Sign::Zero => whole || past_source,
    }
}

// Whether the way up from the close directions, which crosses the arc's circle, crosses it on the arc.
fn passes(map: &SphereMap, arc: &SArc, way: &Close) -> bool
    requires source { arc.now.source < length map.now.svertices }
    requires target { arc.now.target < length map.now.svertices }
    ensures passes { IsTrue result ↔ PassesArc map.now arc.now way.now }
{
    let source = map.svertices.at(arc.source).dir;
    let target = map.svertices.at(arc.target).dir;
    let past_source = way.turn(&source) == Sign::Plus;
    let before_target = way.turn(&target) == Sign::Minus;
    let is_whole = arc.source == arc.target;
    if past_source == before_target && !is_whole {
        return past_source;
    }
    let turn = triple(&arc.normal, &source, &target);
    is_passed(turn, past_source, before_target, is_whole)
}

// Whether the way up from the close directions meets the item.
fn is_over(map: &SphereMap, item: &Item, way: &Close) -> bool
    requires map { IsSphereMap map.now }
    requires listed { (k : ℕ) × IsAt (items (map_of map.now)) k (item_of item.now) }
    requires off { dot (cross up (vector_of way.now.at)) (vector_of way.now.aside) ≡ pos 0 → ⊥ }
    ensures over { (d : Vector) → IsClose map.now way.now d → IsTrue result ↔ IsOver (map_of map.now) up (item_of item.now) d }
{
    if way.side(item.normal()) != Sign::Minus {
        return false;
    }
    match item {
        Item::Arc(arc) => passes(map, arc, way),
        Item::Loop(_) => true,
    }
}

// The item that the way up first meets, of the items up to `number`, where `earlier` is this item of the items before.
fn first_met(map: &SphereMap, earlier: Option<usize>, number: usize, way: &Close) -> Option<usize>
    requires map { IsSphereMap map.now }
    requires earlier { IfSome earlier (λ k. k < length (items (map_of map.now))) }
    requires number { number < length (items (map_of map.now)) }
    requires off { dot (cross up (vector_of way.now.at)) (vector_of way.now.aside) ≡ pos 0 → ⊥ }
    requires at_small { IsAtMost svertex_limit (vector_of way.now.at) }
    requires aside_small { IsAtMost svertex_limit (vector_of way.now.aside) }
    ensures within { IfSome result (λ k. k < length (items (map_of map.now))) }
    ensures first { (d : Vector) → IsClose map.now way.now d → IsFirstOf (map_of map.now) up d number earlier → IsFirstOf (map_of map.now) up d (number + 1) result }
{
    let item = map.item_at(number);
    if !is_over(map, &item, way) {
        return earlier;
    }
    match earlier {
        None => Some(number),
        Some(best) => {
            let lower = way.meeting(item.normal(), map.item_at(best).normal()) == Sign::Minus;
            if lower { Some(number) } else { earlier }
        }
    }
}

// The item that the way up from the close directions first meets.
pub(crate) fn above(map: &SphereMap, way: &Close) -> Option<usize>
    requires map { IsSphereMap map.now }
    requires off { dot (cross up (vector_of way.now.at)) (vector_of way.now.aside) ≡ pos 0 → ⊥ }
    requires at_small { IsAtMost svertex_limit (vector_of way.now.at) }
    requires aside_small { IsAtMost svertex_limit (vector_of way.now.aside) }
    ensures within { IfSome result (λ k. k < length (items (map_of map.now))) }
    ensures first { (d : Vector) → IsClose map.now way.now d → IsFirst (map_of map.now) up d result }
{
    let mut first = None;
    for number in 0..map.item_count() {
        first = first_met(map, first, number, way);
    }
    first
}
