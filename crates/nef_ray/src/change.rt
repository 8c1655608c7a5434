//! The change of the label at a point where a ray crosses a plane.

ghost use Rattle.std.specs.Prelude.{◌≡◌, ◌*◌, ◌≤◌, ◌↔◌, ◌+ℤ◌, ◌*ℤ◌, ◌<ℤ◌};
ghost use Rattle.nef_complex.specs.Prelude.{nat_abs, IsTrue, IfOk, IfSome, IsNone, pos, Germ, InClosedFrame, SamePoint, SpacePoint, form_at, slope, Set, vector_of, point_of, hit_point, form_of, point_at, ShowsSet, ray_direction_limit, ray_point_limit, ray_weight_limit, IsAtMost, IsCrossing, IsPointAtMost};
ghost use Rattle.nef_ray.specs.Changes.{IsSmallRayStart, IsHitOf, IsUnchangedOn, IsChangeOf};
ghost use Rattle.nef_ray.specs.Widths.{start_form_limit, asked_slope_limit};

use crate::OutOfMemory;
use crate::ray::{Crossed, RayEnd, RayStart};
use nef_complex::Complex;
use nef_geo::{Dir, HALF_SIDE, Label, Plane, Point};
use nef_locate::{local_map, locate, place_label};
use nef_smap::label_at;
use std::alloc::Global;

// The value of the plane's form at the point.
fn form(h: &Plane, p: &Point) -> i64
    requires small { IsPointAtMost ray_point_limit ray_weight_limit (point_of p.now) }
    ensures value { result ≡ form_at (form_of h.now) (point_of p.now) }
    ensures width { nat_abs result ≤ start_form_limit }
{
    h.a() * p.x() + h.b() * p.y() + h.c() * p.z() + h.d() * p.w()
}

fn slope(h: &Plane, d: &Dir) -> i64
    requires small { IsAtMost ray_direction_limit (vector_of d.now) }
    ensures value { result ≡ slope (form_of h.now) (vector_of d.now) }
    ensures width { nat_abs result ≤ asked_slope_limit }
{
    h.a() * d.x() + h.b() * d.y() + h.c() * d.z()
}

// The point at the step num/den from p along d.
fn reached(p: &Point, d: &Dir, num: i64, den: i64) -> Point
    requires p_small { IsPointAtMost ray_point_limit ray_weight_limit (point_of p.now) }
    requires d_small { IsAtMost ray_direction_limit (vector_of d.now) }
    requires num_small { nat_abs num ≤ start_form_limit }
    requires den_small { nat_abs den ≤ asked_slope_limit }
    requires den_positive { pos 0 <ℤ den }
    ensures reached { (positive : pos 0 <ℤ (p.now.w *ℤ den)) → SamePoint (point_at (p.now.x *ℤ den +ℤ num *ℤ d.now.x) (p.now.y *ℤ den +ℤ num *ℤ d.now.y) (p.now.z *ℤ den +ℤ num *ℤ d.now.z) (p.now.w *ℤ den) positive) (point_of result) }
{
    Point::of(
        p.x() * den + num * d.x(),
        p.y() * den + num * d.y(),
        p.z() * den + num * d.z(),
        p.w() * den,
    )
}

// The point where the ray from p along d crosses the plane.
fn crossing(p: &Point, d: &Dir, h: &Plane) -> Point
    requires p_small { IsPointAtMost ray_point_limit ray_weight_limit (point_of p.now) }
    requires d_small { IsAtMost ray_direction_limit (vector_of d.now) }
    requires crosses { (q : SpacePoint) × IsCrossing (point_of p.now) (vector_of d.now) (form_of h.now) q }
    ensures crossing { IsCrossing (point_of p.now) (vector_of d.now) (form_of h.now) (point_of result) }
{
    reached(p, d, form(h, p).abs(), slope(h, d).abs())
}

// The label just after the point along the direction.
pub(crate) fn label_after(
    alloc: Global,
    c: &Complex,
    p: &Point,
    d: &Dir,
) -> Result<Label, OutOfMemory>
    requires shows { (s : Set) × ShowsSet s c.now }
    requires framed { InClosedFrame (point_of p.now) }
    ensures germ { IfOk result (λ l. (s : Set) → ShowsSet s c.now → Germ s (point_of p.now) (vector_of d.now) l) }
{
    let map = local_map(alloc, c, p)?;
    Ok(label_at(&map, d))
}

// Whether the number is at most `limit` in size.
fn is_within(number: i64, limit: u64) -> bool
    ensures within { IsTrue result ↔ (nat_abs number ≤ limit) }
{
    number.unsigned_abs() <= limit
}

// Whether the point lies in the closed frame.
fn is_framed(p: &Point) -> bool
    ensures framed { IsTrue result ↔ InClosedFrame (point_of p.now) }
{
    let limit = HALF_SIDE.unsigned_abs() * p.w().unsigned_abs();
    is_within(p.x(), limit) && is_within(p.y(), limit) && is_within(p.z(), limit)
}

// The change of the label where the ray crosses the plane, at the crossing or else just after the crossing. `None`
// comes where the label doesn't change there, and outside the closed frame.
pub(crate) fn change_on(
    alloc: Global,
    c: &Complex,
    ray: &RayStart,
    crossed: &Crossed,
) -> Result<Option<RayEnd>, OutOfMemory>
    requires shows { (s : Set) × ShowsSet s c.now }
    requires small { IsSmallRayStart ray.now }
    requires hit { IsHitOf ray.now crossed.now }
    ensures point { IfOk result (λ o. IfSome o (λ e. SamePoint (hit_point crossed.now.at) (point_of e.point))) }
    ensures change { IfOk result (λ o. IfSome o (λ e. (s : Set) → ShowsSet s c.now → IsChangeOf s (vector_of ray.now.along) ray.now.before e)) }
    ensures none { IfOk result (λ o. IsNone o → (s : Set) → ShowsSet s c.now → IsUnchangedOn s ray.now crossed.now.plane) }
{
    let point = crossing(&ray.from, &ray.along, &crossed.plane);
    if !is_framed(&point) {
        return Ok(None);
    }
    let label = place_label(c, &locate(c, &point));
    if label != ray.before {
        return Ok(Some(RayEnd {
            point,
            after: false,
            label,
        }));
    }
    let next = label_after(alloc, c, &point, &ray.along)?;
    if next != ray.before {
        return Ok(Some(RayEnd {
            point,
            after: true,
            label: next,
        }));
    }
    Ok(None)
}
