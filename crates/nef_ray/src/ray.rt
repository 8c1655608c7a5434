//! The end of a ray: the carriers that the ray crosses are asked in the order of the crossings.

ghost use Rattle.nef_complex.specs.Prelude.{IfOk, All, ray_direction_limit, ray_point_limit, ray_weight_limit, InFrame, Set, IsAtMost, IsPointAtMost, vector_of, point_of, ShowsSet};
ghost use Rattle.std.specs.Prelude.{IsSortedBy};
ghost use Rattle.nef_ray.specs.Ends.{IsRayEnd, OneRayEnd, RayHasEnd};
ghost use Rattle.nef_ray.specs.Changes.{IsSmallRayStart, IsHitOf, AreAllCrossed, crossed_lt};

use crate::OutOfMemory;
use crate::change::{change_on, label_after};
use nef_complex::Complex;
use nef_geo::{Dir, Hit, Label, Plane, Point, hit_order, ray_hit};
use std::alloc::Global;

/// Where the label along a ray first changes: the point; whether the point still has the label from before, so that the
/// label changes just after the point; and the label at the point or just after it.
#[derive(Clone, Copy)]
pub struct RayEnd {
    pub point: Point,
    pub after: bool,
    pub label: Label,
}

// A ray, and the label just after its start.
#[derive(Clone, Copy)]
pub(crate) struct RayStart {
    pub(crate) from: Point,
    pub(crate) along: Dir,
    pub(crate) before: Label,
}

/// Where the label along the ray from the point first changes, in the set that the complex shows. The point lies in the
/// frame; its first three numbers are at most `2^21` in size and its w at most `2^10`, and the entries of the direction
/// are at most `2^10` in size. The ray leaves the frame, so the label does change. `OutOfMemory` says that memory was
/// wanted and not found.
pub fn ray_end(alloc: Global, c: &Complex, p: &Point, d: &Dir) -> Result<RayEnd, OutOfMemory>
    requires shows { (s : Set) × ShowsSet s c.now }
    requires framed { InFrame (point_of p.now) }
    requires p_small { IsPointAtMost ray_point_limit ray_weight_limit (point_of p.now) }
    requires d_small { IsAtMost ray_direction_limit (vector_of d.now) }
    ensures end { IfOk result (λ e. (s : Set) → ShowsSet s c.now → IsRayEnd s (point_of p.now) (vector_of d.now) (point_of e.point) e.after e.label) }
{
    let ray = RayStart {
        from: *p,
        along: *d,
        before: label_after(alloc, c, p, d)?,
    };
    let crossed = sorted_crossed(alloc, c, &ray)?;
    for next in crossed.as_slice() {
        if let Some(end) = change_on(alloc, c, &ray, next)? {
            return Ok(end);
        }
    }
    unreachable!()
}

/// The label along a ray from a point of the frame changes at some point, or just after it: at the latest where the ray
/// leaves the frame. The first change is at one point alone, there or just after it, and to one label.
pub fn ray_end_laws()
    ensures some { RayHasEnd }
    ensures one { OneRayEnd }
{}

// A plane that a ray crosses, and the hit there.
#[derive(Clone, Copy)]
pub(crate) struct Crossed {
    pub(crate) plane: Plane,
    pub(crate) at: Hit,
}

// The carriers that the ray crosses, the nearest first.
fn sorted_crossed(alloc: Global, c: &Complex, ray: &RayStart) -> Result<Vec<Crossed>, OutOfMemory>
    requires small { IsSmallRayStart ray.now }
    ensures hits { IfOk result (λ v. All (IsHitOf ray.now) v.items) }
    ensures all { IfOk result (λ v. AreAllCrossed c.now.carriers ray.now v.items) }
    ensures sorted { IfOk result (λ v. IsSortedBy crossed_lt v.items) }
{
    let mut crossed = Vec::new(alloc);
    for number in 0..c.carriers.len() {
        let plane = *c.carriers.at(number);
        if let Some(at) = ray_hit(&ray.from, &ray.along, &plane) {
            crossed.push(Crossed { plane, at })?;
        }
    }
    crossed.sort_unstable_by(|x, y| hit_order(&x.at, &y.at));
    Ok(crossed)
}
