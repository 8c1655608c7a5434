//! Hits of rays from points, and hits of rays from such hits: answers that no clause gives.

ghost use Rattle.std.specs.Prelude.{◌↔◌};
ghost use Rattle.nef_geo.specs.Prelude.{IsTrue, IsAtMost, vector, IsPointAtMost, hit_point, upright_limit, upright_weight_limit};

use crate::geometry::{is_order, plane, point};
use crate::words::{check, is_at_most, numbers, parted, way};
use nef_geo::{
    Dir, FarHit, Hit, Plane, Point, Sign, far_hit, far_order, far_side, hit_at, hit_order,
    hit_side, ray_hit,
};
use std::cmp::Ordering;

// Where a ray from the origin hits a plane, and whether one hit comes before another hit, or after the ray's start.
const RAYS: &str = "hit down, 1 0 0 1 => -67108864 -8192 -1 67108864
hit down, 1 0 0 -1 => none
hit down, 1 0 0 0 => none
hit 1 0 0, 0 1 0 0 => none
order down, 1 0 0 1, 1 0 0 2 => Less
order down, 1 0 0 2, 1 0 0 2 => Equal
order_from_start down, 1 0 0 1 => Greater";

// The start of a ray, the plane of the first hit, the plane of the hit from the first hit, and a plane hit before that.
const START: &str = "105553116266496 -105553116266496 -105553116266496 51539607551";

const FIRST: &str = "2048 2048 2048 -4194303";

const SECOND: &str = "2048 -2048 -2048 4194303";

const THIRD: &str = "2048 -2048 -2048 4194301";

fn are_at_most(x: i128, y: i128, z: i128) -> bool
    ensures small { IsTrue result ↔ IsAtMost upright_limit (vector x y z) }
{
    x.unsigned_abs() <= 1 << 86 && y.unsigned_abs() <= 1 << 86 && z.unsigned_abs() <= 1 << 86
}

fn is_upright(p: &Hit) -> bool
    ensures small { IsTrue result → IsPointAtMost upright_limit upright_weight_limit (hit_point p.now) }
{
    are_at_most(p.x(), p.y(), p.z()) && p.w().unsigned_abs() <= 1 << 73
}

// The hit of a ray with a plane, where the numbers meet the call's conditions.
fn ray(p: &Point, d: &Dir, h: &Plane) -> Option<Option<Hit>> {
    if is_at_most(d, 1 << 36) {
        Some(ray_hit(p, d, h))
    } else {
        None
    }
}

fn far(p: &Hit, d: &Dir, h: &Plane) -> Option<FarHit> {
    if is_upright(p) && is_at_most(d, 1 << 11) {
        far_hit(p, d, h)
    } else {
        None
    }
}

// The hit, if there is one, of a ray that may be asked.
fn asked(start: &str, d: &str, h: &str) -> Option<Option<Hit>> {
    ray(&point(start)?, &way(d)?, &plane(h)?)
}

// The hit of a ray from the origin that hits the plane.
fn hit(d: &str, h: &str) -> Option<Hit> {
    asked("0 0 0 1", d, h)?
}

fn has_numbers(p: &Hit, wanted: &str) -> Option<bool> {
    let [x, y, z, w] = numbers(wanted)?;
    Some(
        p.x() == i128::from(x)
            && p.y() == i128::from(y)
            && p.z() == i128::from(z)
            && p.w() == i128::from(w),
    )
}

fn is_hit(d: &str, h: &str, wanted: &str) -> Option<bool> {
    match asked("0 0 0 1", d, h)? {
        Some(p) => has_numbers(&p, wanted),
        None => Some(wanted == "none"),
    }
}

// Whether the hits with two planes have the wanted order.
fn is_order_of(d: &str, planes: &str, wanted: &str) -> Option<bool> {
    let (g, h) = parted(planes, ", ");
    Some(is_order(hit_order(&hit(d, g)?, &hit(d, h)?), wanted))
}

// Whether the hit and the origin have the wanted order.
fn is_order_from_start(d: &str, h: &str, wanted: &str) -> Option<bool> {
    Some(is_order(hit_order(&hit(d, h)?, &hit_at(&point("0 0 0 1")?)), wanted))
}

fn holds(row: &str) -> Option<bool> {
    let (question, wanted) = parted(row, " => ");
    let (verb, things) = parted(question, " ");
    let (d, planes) = parted(things, ", ");
    match verb {
        "hit" => is_hit(d, planes, wanted),
        "order" => is_order_of(d, planes, wanted),
        _ => is_order_from_start(d, planes, wanted),
    }
}

#[test]
fn rays_cross_planes(rt: HostRuntime) {
    for row in RAYS.split('\n') {
        check(&rt, holds(row) == Some(true), row);
    }
}

// The hit of the upward ray from `START` with the plane `FIRST`.
fn first_hit() -> Option<Hit> {
    asked(START, "up", FIRST)?
}

// The hit with this plane of a ray from the first hit.
fn next_hit(h: &str) -> Option<FarHit> {
    far(&first_hit()?, &way("2048 2048 2047")?, &plane(h)?)
}

// Whether the first hit is on its plane, at exactly the part num/den of its ray.
fn is_first_exact(num: i128, den: i128) -> Option<bool> {
    let q = first_hit()?;
    let is_there = q.num().checked_mul(den) == q.den().checked_mul(num);
    Some(is_there && hit_side(&plane(FIRST)?, &q) == Sign::Zero)
}

fn is_next_at(num: i128, den: i128) -> Option<bool> {
    let r = next_hit(SECOND)?;
    Some(r.num().checked_mul(den) == r.den().checked_mul(num))
}

fn is_next_positive() -> Option<bool> {
    let r = next_hit(SECOND)?;
    Some(r.x() > 0 && r.y() > 0 && r.z() > 0 && r.w() > 0)
}

fn next_side(h: &str) -> Option<Sign> {
    Some(far_side(&plane(h)?, &next_hit(SECOND)?))
}

fn are_sides_exact() -> bool {
    next_side(SECOND) == Some(Sign::Zero)
        && next_side("2048 2048 2048 4194303") == Some(Sign::Plus)
        && next_side(FIRST) == Some(Sign::Plus)
}

fn are_orders_exact() -> Option<bool> {
    let (third, second) = (next_hit(THIRD)?, next_hit(SECOND)?);
    let is_equal = far_order(&second, &second) == Ordering::Equal;
    Some(is_equal && far_order(&third, &second) == Ordering::Less)
}

// Whether exactly one of the direction and its opposite hits the second plane.
fn is_hit_once(d: &str) -> Option<bool> {
    let (q, d, h) = (first_hit()?, way(d)?, plane(SECOND)?);
    Some(far(&q, &d, &h).is_some() != far(&q, &d.back(), &h).is_some())
}

// These points and planes give the largest form at a far hit, among all signs of the largest numbers.
#[test]
fn far_hits_are_exact(rt: HostRuntime) {
    let is_first = is_first_exact(432345512683765761, 137455732736) == Some(true);
    let is_next = is_next_at(178270605929203793059916021760, 4192256) == Some(true);
    check(&rt, is_first, "the first hit");
    check(&rt, is_next, "the next hit");
    check(&rt, are_sides_exact(), "the sides of the next hit");
    check(
        &rt,
        are_orders_exact() == Some(true),
        "the order of the hits",
    );
    check(
        &rt,
        is_hit_once("-2048 -2048 2047") == Some(true),
        "one hit",
    );
    check(&rt, is_next_positive() == Some(true), "positive numbers");
}
