//! The side that sees a free direction: the first item on a way from close to the direction to close to a svertex,
//! which is told by signs of expressions that are linear in a large number.

ghost use Rattle.std.specs.Prelude.{◌≡◌, ◌*◌, ◌^◌, ◌<◌, ◌*ℤ◌, ◌<ℤ◌, ◌↔◌, ◌≤◌, ◌-ℤ◌};
ghost use Rattle.nef_smap.specs.Prelude.{ℕ, pos, length, IsTrue, ℤ, nat_abs, normal_limit, svertex_limit, Vector, dot, cross, up, IsAtMost, IsDirection, vector_of, sign_of, wide_vector, IsAt, arc_item, items, item_normal, OnItem, IsFree, arc_of, map_of, IsSphereMap, item_of, linear_at, turn_value, AreAtMost, IsLarge, leading_of, IsWidePath, AreValues, met_at, IsMetOnWay, OnFairPaths, MeetsFirst, SideSees};

use crate::item::Item;
use crate::map::{SArc, SphereMap};
use nef_case::between;
use nef_geo::{Dir, Sign, Wide, cross_wide, dot, dot_wide, triple, up, wide};

// `factor k + rest`, for a number k that is large beside both.
#[derive(Clone, Copy)]
struct Linear {
    factor: i128,
    rest: i128,
}

// The values of a form at both ends of a way: at the start linear in a large number, and at the end linear in another,
// which is large even beside the first.
#[derive(Clone, Copy)]
struct Values {
    start: Linear,
    end: Linear,
}

// The first of the two numbers that isn't zero.
fn leading(first: i128, second: i128) -> i128
    ensures leading { result ≡ leading_of first second }
{
    if first == 0 { second } else { first }
}

impl Linear {
    // The sign of `factor k + rest` for each k of at least 2^128.
    fn sign(&self) -> Sign
        ensures sign { (k : ℕ) → 2 ^ 128 ≤ k → result ≡ sign_of (linear_at self.now k) }
    {
        Sign::of(leading(self.factor, self.rest))
    }
}

// `a b - c d`, for a and c of at most 2^50 in size and b and d of at most 2^74.
fn minor(a: i128, b: i128, c: i128, d: i128) -> i128
    requires a_small { nat_abs a ≤ 2 ^ 50 }
    requires b_small { nat_abs b ≤ 2 ^ 74 }
    requires c_small { nat_abs c ≤ 2 ^ 50 }
    requires d_small { nat_abs d ≤ 2 ^ 74 }
    ensures minor { result ≡ a *ℤ b -ℤ c *ℤ d }
{
    a * b - c * d
}

// The sign of `(n.a)(g.b) - (n.b)(g.a)`, from the values of the forms n and g at the ends a and b of a way. The
// expression is bilinear in the two large numbers, so its sign is that of the first of four minors that isn't zero.
fn turn_sign(n: &Values, g: &Values) -> Sign
    requires n_small { AreAtMost (2 ^ 50) n.now }
    requires g_small { AreAtMost (2 ^ 74) g.now }
    ensures sign { (j k : ℕ) → IsLarge j k → result ≡ sign_of (turn_value n.now g.now j k) }
{
    let with_end = leading(
        minor(n.start.factor, g.end.factor, n.end.factor, g.start.factor),
        minor(n.start.rest, g.end.factor, n.end.factor, g.start.rest),
    );
    let without = leading(
        minor(n.start.factor, g.end.rest, n.end.rest, g.start.factor),
        minor(n.start.rest, g.end.rest, n.end.rest, g.start.rest),
    );
    Sign::of(leading(with_end, without))
}

// The sign of the form g where a way meets the plane of the form n, at `(n.a) ((n.a) b - (n.b) a)`, from the values of
// both forms at the ends a and b of the way.
fn sign_at_meet(n: &Values, g: &Values) -> Sign
    requires n_small { AreAtMost (2 ^ 50) n.now }
    requires g_small { AreAtMost (2 ^ 74) g.now }
    ensures sign { (j k : ℕ) → IsLarge j k → result ≡ sign_of (linear_at n.now.start j *ℤ turn_value n.now g.now j k) }
{
    let turn = turn_sign(n, g);
    match n.start.sign() {
        Sign::Minus => turn.opposite(),
        Sign::Zero => Sign::Zero,
        Sign::Plus => turn,
    }
}

// A way from `j start + upward` to `k end + beside`, for two large numbers j and k.
#[derive(Clone, Copy)]
struct SpherePath {
    start: Wide,
    upward: Wide,
    end: Wide,
    beside: Wide,
}

// The values of the form g at the ends of the way.
fn form_values(way: &SpherePath, g: &Wide) -> Values
    requires way { IsWidePath way.now }
    requires form { IsAtMost (2 ^ 35) (wide_vector g.now) }
    ensures values { AreValues way.now (wide_vector g.now) result }
    ensures small { (m : ℕ) → IsAtMost m (wide_vector g.now) → AreAtMost (m * 2 ^ 39) result }
{
    Values {
        start: Linear {
            factor: dot_wide(g, &way.start),
            rest: dot_wide(g, &way.upward),
        },
        end: Linear {
            factor: dot_wide(g, &way.end),
            rest: dot_wide(g, &way.beside),
        },
    }
}

// The way from close to d to close to the svertex, ahead of the svertex on the circle of the normal.
fn way_to(d: &Dir, svertex: &Dir, normal: &Dir) -> SpherePath
    requires svertex_small { IsAtMost svertex_limit (vector_of svertex.now) }
    requires normal_small { IsAtMost normal_limit (vector_of normal.now) }
    ensures within { IsWidePath result }
    ensures start { wide_vector result.start ≡ vector_of d.now }
    ensures upward { wide_vector result.upward ≡ up }
    ensures end { wide_vector result.end ≡ vector_of svertex.now }
    ensures beside { wide_vector result.beside ≡ cross (vector_of normal.now) (vector_of svertex.now) }
{
    let end = wide(svertex);
    SpherePath {
        start: wide(d),
        upward: wide(&up()),
        end,
        beside: cross_wide(&wide(normal), &end),
    }
}

// The sign of the form g where the way meets the plane of a form that has the values n.
fn sign_where_met(way: &SpherePath, n: &Values, g: &Wide) -> Sign
    requires way { IsWidePath way.now }
    requires n_small { AreAtMost (2 ^ 50) n.now }
    requires g_small { IsAtMost (2 ^ 35) (wide_vector g.now) }
    ensures sign { (m : Vector) (j k : ℕ) → AreValues way.now m n.now → IsLarge j k → result ≡ sign_of (dot (wide_vector g.now) (met_at way.now m j k)) }
{
    sign_at_meet(n, &form_values(way, g))
}

// Whether the way meets the plane of the arc, which has the values n, on the arc, if it meets the plane at all.
fn is_met_on_arc(map: &SphereMap, way: &SpherePath, arc: &SArc, n: &Values) -> bool
    requires map { IsSphereMap map.now }
    requires arc { (i : ℕ) × IsAt (map_of map.now).arcs i (arc_of arc.now) }
    requires way { IsWidePath way.now }
    requires values { AreValues way.now (vector_of arc.now.normal) n.now }
    requires small { AreAtMost (2 ^ 50) n.now }
    ensures on { (j k : ℕ) → IsLarge j k → IsDirection (met_at way.now (vector_of arc.now.normal) j k) → IsTrue result ↔ OnItem (map_of map.now) (arc_item (arc_of arc.now)) (met_at way.now (vector_of arc.now.normal) j k) }
{
    let source = &map.svertices.at(arc.source).dir;
    let target = &map.svertices.at(arc.target).dir;
    let (normal, from, to) = (wide(&arc.normal), wide(source), wide(target));
    let past_source = sign_where_met(way, n, &cross_wide(&normal, &from));
    let past_target = sign_where_met(way, n, &cross_wide(&normal, &to));
    between(&[
        triple(&arc.normal, source, target).number(),
        dot(source, target).number(),
        past_source.number(),
        sign_where_met(way, n, &from).number(),
        past_target.opposite().number(),
    ])
}

fn item_values(way: &SpherePath, item: &Item) -> Values
    requires way { IsWidePath way.now }
    requires normal { IsAtMost normal_limit (item_normal (item_of item.now)) }
    ensures values { AreValues way.now (item_normal (item_of item.now)) result }
    ensures small { AreAtMost (2 ^ 50) result }
{
    form_values(way, &wide(item.normal()))
}

// Whether the way meets the item, whose form has the values n.
fn is_met(map: &SphereMap, way: &SpherePath, item: &Item, n: &Values) -> bool
    requires map { IsSphereMap map.now }
    requires item { (i : ℕ) × IsAt (items (map_of map.now)) i (item_of item.now) }
    requires way { IsWidePath way.now }
    requires values { AreValues way.now (item_normal (item_of item.now)) n.now }
    requires small { AreAtMost (2 ^ 50) n.now }
    ensures met { OnFairPaths (map_of map.now) way.now (λ a b. IsTrue result ↔ IsMetOnWay (map_of map.now) a b (item_of item.now)) }
{
    if !n.start.sign().is_opposite_to(n.end.sign()) {
        return false;
    }
    match item {
        Item::Arc(arc) => is_met_on_arc(map, way, arc, n),
        Item::Loop(_) => true,
    }
}

// Whether the way meets the plane with the values n before that with the values `first`.
fn is_before(n: &Values, first: &Values) -> bool
    requires n_small { AreAtMost (2 ^ 50) n.now }
    requires first_small { AreAtMost (2 ^ 50) first.now }
    ensures before { (j k : ℕ) → IsLarge j k → IsTrue result ↔ pos 0 <ℤ (linear_at first.now.start j *ℤ (linear_at n.now.start j *ℤ turn_value n.now first.now j k)) }
{
    let turned = first.start.sign().opposite();
    turned.is_opposite_to(sign_at_meet(n, first))
}

// The number of the item that the way meets first. The way leads to the map's first item.
fn first_met(map: &SphereMap, way: &SpherePath) -> usize
    requires map { IsSphereMap map.now }
    requires some { 0 < length (items (map_of map.now)) }
    requires way { IsWidePath way.now }
    ensures small { result < 2 ^ 60 }
    ensures first { MeetsFirst (map_of map.now) way.now result }
{
    let mut first = 0;
    let mut first_values = item_values(way, &map.item_at(0));
    for number in 1..map.item_count() {
        let item = map.item_at(number);
        let n = item_values(way, &item);
        if is_before(&n, &first_values) && is_met(map, way, &item, &n) {
            first = number;
            first_values = n;
        }
    }
    first
}

// On a map with arcs the side that sees d: the side toward d of the item that a way first meets from close to d to
// close to a svertex, on an arc. The way begins a little upward of d, so that no item's plane holds its start.
fn side_on_way(map: &SphereMap, d: &Dir) -> usize
    requires map { IsSphereMap map.now }
    requires free { IsFree (map_of map.now) (vector_of d.now) }
    requires arcs { 0 < length map.now.arcs }
    ensures side { SideSees (map_of map.now) result (vector_of d.now) }
{
    let arc = map.arcs.at(0);
    let way = way_to(d, &map.svertices.at(arc.source).dir, &arc.normal);
    let first = first_met(map, &way);
    let start = item_values(&way, &map.item_at(first)).start.sign();
    map.item_side(first, start.is_plus())
}

impl SphereMap {
    /// The number of a side that sees the free direction, which lies on no svertex and on no item. A map without items
    /// has one face, so any side serves. No memory is taken.
    pub fn face_toward(&self, d: &Dir) -> usize
        requires map { IsSphereMap self.now }
        requires free { IsFree (map_of self.now) (vector_of d.now) }
        ensures side { SideSees (map_of self.now) result (vector_of d.now) }
    {
        if !self.arcs.is_empty() {
            return side_on_way(self, d);
        }
        match &self.sloop {
            Some(circle) => self.item_side(0, dot(&circle.normal, d).is_plus()),
            None => 0,
        }
    }
}
