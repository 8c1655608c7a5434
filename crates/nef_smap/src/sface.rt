//! The sfaces of a sphere map: which of its sides are joined, by what lies over directions.

ghost use Rattle.std.specs.Prelude.{◌≡◌, ◌<◌, ◌<ℤ◌};
ghost use Rattle.nef_smap.specs.Prelude.{ℕ, length, IfOk, pos, Option, Some, up, dot, cross, IsAtMost, IsDirection, svertex_limit, vector_of, map_of, IsSphereMap, AreSfaces, AreLinked, ComesOf, AreEach, AreArounds, AreSloops, AreGrounds, JoinsBelow, JoinsArc, JoinsSloop, AreJoins, met_number, lean_direction, then_toward, FirstNear};

use crate::OutOfMemory;
use crate::above::{Close, Lean, above};
use crate::item::{on_circle, sides};
use crate::map::{SLoop, SphereMap};
use nef_classes::{Link, class_numbers, class_of_each};
use nef_geo::{Dir, Sign, axis_x, axis_y, axis_z, common_perpendicular, dot, triple, up};
use std::alloc::Global;

// A coordinate axis that isn't perpendicular to d.
fn slanted_axis(d: &Dir) -> Dir
    ensures off { dot (vector_of d.now) (vector_of result) ≡ pos 0 → ⊥ }
    ensures small { IsAtMost 1 (vector_of result) }
{
    let (x, y) = (d.x(), d.y());
    if x != 0 {
        return axis_x();
    }
    if y != 0 {
        return axis_y();
    }
    axis_z()
}

// A direction along a coordinate axis whose product with d is positive.
fn axis_along(d: &Dir) -> Dir
    ensures along { pos 0 <ℤ dot (vector_of d.now) (vector_of result) }
    ensures small { IsAtMost 1 (vector_of result) }
{
    let axis = slanted_axis(d);
    if dot(d, &axis).is_plus() {
        axis
    } else {
        axis.back()
    }
}

// A direction along a coordinate axis off the plane of the upward direction and d.
fn beside(d: &Dir) -> Dir
    requires apart { IsDirection (cross up (vector_of d.now)) }
    ensures off { dot (cross up (vector_of d.now)) (vector_of result) ≡ pos 0 → ⊥ }
    ensures small { IsAtMost 1 (vector_of result) }
{
    let up = up();
    let x = axis_x();
    if triple(&up, d, &x) != Sign::Zero {
        return x;
    }
    let y = axis_y();
    if triple(&up, d, &y) != Sign::Zero {
        return y;
    }
    axis_z()
}

// The lower side of the item that lies first over the directions close to `at`, toward `aside` as `lean` says; or the
// upward direction, whose number comes after the numbers of the sides.
fn number_near(map: &SphereMap, at: Dir, aside: Dir, lean: Lean) -> usize
    requires map { IsSphereMap map.now }
    requires off { dot (cross up (vector_of at)) (vector_of aside) ≡ pos 0 → ⊥ }
    requires at_small { IsAtMost svertex_limit (vector_of at) }
    requires aside_small { IsAtMost svertex_limit (vector_of aside) }
    ensures number { (r : Option ℕ) × (result ≡ met_number (map_of map.now) r) × FirstNear (map_of map.now) up (vector_of at) (lean_direction lean (vector_of aside)) (then_toward lean (vector_of aside)) r }
{
    match above(map, &Close { at, aside, lean }) {
        Some(item) => map.item_side(item, false),
        None => sides(map),
    }
}

// Joins what lies over the directions just below the svertex, on both sides of the svertex's meridian.
fn join_below(map: &SphereMap, number: usize) -> Link
    requires map { IsSphereMap map.now }
    requires number { number < length map.now.svertices }
    ensures joins { JoinsBelow (map_of map.now) number result }
{
    let at = map.svertices.at(number).dir;
    let aside = beside(&at);
    Link {
        first: number_near(map, at, aside, Lean::Down),
        second: number_near(map, at, aside.back(), Lean::Down),
    }
}

// Joins the upper side of the arc with what lies over the directions just over the arc, close to its source.
fn join_arc(map: &SphereMap, number: usize) -> Link
    requires map { IsSphereMap map.now }
    requires number { number < length map.now.arcs }
    ensures joins { JoinsArc (map_of map.now) number result }
{
    let arc = map.arcs.at(number);
    let at = map.svertices.at(arc.source).dir;
    let aside = common_perpendicular(&arc.normal, &axis_along(&at));
    Link {
        first: map.item_side(number, true),
        second: number_near(map, at, aside, Lean::Along),
    }
}

// Joins the upper side of the sloop, the last item, with what lies over one of the sloop's directions.
fn join_sloop(map: &SphereMap, circle: &SLoop) -> Link
    requires map { IsSphereMap map.now }
    requires circle { map.now.sloop ≡ Some circle.now }
    ensures joins { JoinsSloop (map_of map.now) (length map.now.arcs) result }
{
    let at = on_circle(&circle.normal);
    Link {
        first: map.item_side(map.arcs.len(), true),
        second: number_near(map, at, beside(&at), Lean::Up),
    }
}

// The links that `join` makes for the numbers below `count`.
fn each_link<F: Fn(&SphereMap, usize) -> Link>(
    alloc: Global,
    map: &SphereMap,
    count: usize,
    join: F,
) -> Result<Vec<Link>, OutOfMemory>
    requires numbers { (number : ℕ) → number < count → F.pre join map number }
    ensures links { IfOk result (λ v. AreEach (ComesOf (F.post join) map.now) count v.items) }
{
    let mut links = Vec::new(alloc);
    for number in 0..count {
        links.push(join(map, number))?;
    }
    Ok(links)
}

// For each svertex with a side the link of that side with what lies over the directions just below the svertex.
fn around_links(alloc: Global, map: &SphereMap) -> Result<Vec<Link>, OutOfMemory>
    requires map { IsSphereMap map.now }
    ensures links { IfOk result (λ v. AreArounds (map_of map.now) (length map.now.svertices) v.items) }
{
    let mut links = Vec::new(alloc);
    let mut side = 0;
    for number in 0..map.svertices.len() {
        if map.svertices.at(number).around.is_some() {
            links.push(Link {
                first: side,
                second: join_below(map, number).first,
            })?;
            side += 1;
        }
    }
    Ok(links)
}

fn sloop_links(alloc: Global, map: &SphereMap) -> Result<Vec<Link>, OutOfMemory>
    requires map { IsSphereMap map.now }
    ensures links { IfOk result (λ v. AreSloops (map_of map.now) v.items) }
{
    match &map.sloop {
        Some(circle) => Vec::from_slice(alloc, &[join_sloop(map, circle)]),
        None => Ok(Vec::new(alloc)),
    }
}

// A link of the ground, if there is one, with the upward direction.
fn ground_links(alloc: Global, map: &SphereMap) -> Result<Vec<Link>, OutOfMemory>
    requires map { IsSphereMap map.now }
    ensures links { IfOk result (λ v. AreGrounds (map_of map.now) v.items) }
{
    if map.ground.is_none() {
        return Ok(Vec::new(alloc));
    }
    let count = sides(map);
    let link = Link {
        first: count - 1,
        second: count,
    };
    Vec::from_slice(alloc, &[link])
}

// All links of a map's sides and of the upward direction, whose number comes after the numbers of the sides.
fn links(alloc: Global, map: &SphereMap) -> Result<Vec<Link>, OutOfMemory>
    requires map { IsSphereMap map.now }
    ensures joins { IfOk result (λ v. AreJoins (map_of map.now) up (AreLinked v.items)) }
{
    let mut links = each_link(alloc, map, map.svertices.len(), join_below)?;
    links.extend_from_slice(around_links(alloc, map)?.as_slice())?;
    let arcs = each_link(alloc, map, map.arcs.len(), join_arc)?;
    links.extend_from_slice(arcs.as_slice())?;
    links.extend_from_slice(sloop_links(alloc, map)?.as_slice())?;
    links.extend_from_slice(ground_links(alloc, map)?.as_slice())?;
    Ok(links)
}

/// For each side the number of its sface. Sides are of one sface where a chain of directions that two sides see leads
/// from one side to the other; sfaces are numbered by their first sides.
///
/// Each direction looks up: what the way to the upward direction first meets lies in the direction's sface, since no
/// circle of a map passes through the upward direction. Between neighbouring directions this changes only where a
/// svertex lies over them, so what lies over both sides just below each svertex is joined. Besides, the upper side of
/// an arc is joined with what lies over the arc's beginning, the sloop's upper side with what lies over one of its
/// directions, and the side round a svertex with what lies over directions just below the svertex.
pub fn sfaces(alloc: Global, map: &SphereMap) -> Result<Vec<usize>, OutOfMemory>
    requires map { IsSphereMap map.now }
    ensures faces { IfOk result (λ v. AreSfaces (map_of map.now) v.items) }
{
    let count = sides(map);
    let joins = links(alloc, map)?;
    let classes = class_of_each(alloc, count + 1, joins.as_slice())?;
    class_numbers(alloc, &classes[..count])
}
