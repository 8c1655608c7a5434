//! Courses of rays within a plane from a vertex, and planes along a ray. By numbers alone, both exclude most vertices
//! and edges of the plane: a ray meets a vertex only where a plane along the ray holds the vertex, and an edge only
//! where this plane parts the edge's ends or holds both.

ghost use Rattle.std.specs.Prelude.{◌≡◌, ◌*◌, ◌<◌, ◌≤◌, ◌-ℤ◌, ◌*ℤ◌, ◌↔◌, ◌⊎◌, ◌+ℤ◌};
ghost use Rattle.nef_complex.specs.Prelude.{nat_abs, IsTrue, IfSome, half_side, point_limit, weight_limit, Set, dot, IsAtMost, form_of, vector_of, point_of, sign_of, ray_limit, ShowsSet, LiesOn, AreNumbersWith, MatchOption, form_at};
ghost use Rattle.nef_plane.specs.Courses.{StartsAt, IsCourse, IsCoursePassed, StaysClose, IsCourseBeside, shifted_form};
ghost use Rattle.nef_plane.specs.Meets.{sweep_axis, HoldsRay, AreOpposite};
ghost use Rattle.nef_plane.specs.Parting.{product_limit, ray_form, IsAcrossRay};

use crate::plane::{Line, first_far};
use nef_complex::Complex;
use nef_geo::{Dir, HALF_SIDE, Plane, Point, Sign};

// The product of the normal with the point's first three numbers.
fn product_with(n: &Dir, a: &Point) -> i128
    ensures product { result ≡ n.now.x *ℤ a.now.x +ℤ n.now.y *ℤ a.now.y +ℤ n.now.z *ℤ a.now.z }
    ensures small { nat_abs result ≤ product_limit }
{
    n.x() as i128 * a.x() as i128 + n.y() as i128 * a.y() as i128 + n.z() as i128 * a.z() as i128
}

// The side on which the point `a` lies of the plane through p with normal n. `base` is the product of n with p.
fn side_through(n: &Dir, p: &Point, base: i128, a: &Point) -> Sign
    requires base { base ≡ n.now.x *ℤ p.now.x +ℤ n.now.y *ℤ p.now.y +ℤ n.now.z *ℤ p.now.z }
    requires small { nat_abs base ≤ product_limit }
    ensures side { result ≡ sign_of (form_at (ray_form n.now p.now) (point_of a.now)) }
{
    let here = product_with(n, a) * p.w() as i128;
    let there = base * a.w() as i128;
    Sign::of(here - there)
}

// Whether the plane through p with normal n parts the points a and b or holds both.
fn are_parted(n: &Dir, p: &Point, a: &Point, b: &Point) -> bool
    ensures opposite { IsTrue result ↔ AreOpposite (ray_form n.now p.now) (point_of a.now) (point_of b.now) }
{
    let base = product_with(n, p);
    side_through(n, p, base, a) == side_through(n, p, base, b).opposite()
}

// The normal of a plane along the direction d and along an axis that crosses h; `None` where d is along that axis.
fn normal_beside(h: &Plane, d: &Dir) -> Option<Dir>
    ensures across { IfSome result (IsAcrossRay (vector_of d.now)) }
{
    if h.c() != 0 {
        Dir::of(-d.y(), d.x(), 0)
    } else if h.b() != 0 {
        Dir::of(-d.z(), 0, d.x())
    } else {
        Dir::of(0, -d.z(), d.y())
    }
}

/// Whether a ray from p may pass between the points a and b, or through both if they are one point. The plane through p
/// with the normal, if there is one, holds the ray; a ray with both points strictly on one side doesn't pass.
pub(crate) fn may_pass(normal: &Option<Dir>, p: &Point, a: &Point, b: &Point) -> bool
    ensures beside { (IsTrue result → ⊥) → MatchOption normal.now ⊥ (λ n. AreOpposite (ray_form n p.now) (point_of a.now) (point_of b.now) → ⊥) }
{
    match normal {
        Some(n) => are_parted(n, p, a, b),
        None => true,
    }
}

// A ray from a vertex, and the plane whose edges may be met. The plane need not hold the ray.
#[derive(Clone, Copy)]
pub(crate) struct VertexRay<'a> {
    pub(crate) plane: &'a Plane,
    pub(crate) start: &'a Point,
    pub(crate) direction: &'a Dir,
    pub(crate) ghost small: { IsAtMost ray_limit (vector_of direction.now) },
}

// What numbers of vertices tell of a ray within a plane: the ray meets nothing between vertices of the plane that are
// all below `first`, nor between vertices all at `past` or above. The normal, if any, is that of a plane along the ray.
#[derive(Clone, Copy)]
pub(crate) struct Course {
    pub(crate) first: usize,
    pub(crate) past: usize,
    pub(crate) normal: Option<Dir>,
}

// Whether the direction leads forward, back, or neither in the coordinate that is constant along the plane's axis.
fn sweep_sign(h: &Plane, d: &Dir) -> Sign
    ensures sweep { result ≡ sign_of (dot (sweep_axis (form_of h.now)) (vector_of d.now)) }
{
    if h.c() == 0 && h.b() == 0 {
        Sign::of(d.y() as i128)
    } else {
        Sign::of(d.x() as i128)
    }
}

// Whether n is more than 4096 times as large as k in size.
fn outweighs(n: i64, k: i64) -> bool
    requires n_small { nat_abs n ≤ ray_limit }
    requires k_small { nat_abs k ≤ ray_limit }
    ensures outweighs { IsTrue result ↔ (2 * half_side * nat_abs k < nat_abs n) }
{
    2 * HALF_SIDE.unsigned_abs() * k.unsigned_abs() < n.unsigned_abs()
}

// Whether the coordinate that is constant along the plane's axis changes by less than one within the closed frame along
// the direction. It does where another coordinate changes more than 4096 times as much, since the frame is no wider.
fn stays_close(h: &Plane, d: &Dir) -> bool
    requires small { IsAtMost ray_limit (vector_of d.now) }
    ensures close { IsTrue result → StaysClose (sweep_axis (form_of h.now)) (vector_of d.now) }
{
    if h.c() == 0 && h.b() == 0 {
        outweighs(d.z(), d.y())
    } else {
        outweighs(d.y(), d.x()) || outweighs(d.z(), d.x())
    }
}

// The sign of n/w - k/v - by, for positive w and v.
fn shift_sign(n: i64, w: i64, k: i64, v: i64, by: i64) -> Sign
    requires n_small { nat_abs n ≤ point_limit }
    requires w_small { nat_abs w ≤ weight_limit }
    requires k_small { nat_abs k ≤ point_limit }
    requires v_small { nat_abs v ≤ weight_limit }
    requires by_small { nat_abs by ≤ 1 }
    ensures sign { result ≡ sign_of (n *ℤ v -ℤ k *ℤ w -ℤ by *ℤ (v *ℤ w)) }
{
    let shift = by as i128 * (v as i128 * w as i128);
    Sign::of(n as i128 * v as i128 - k as i128 * w as i128 - shift)
}

// A line of the plane along the plane's axis. The coordinate that is constant on the line exceeds the point's by `by`.
#[derive(Clone, Copy)]
struct Shifted<'a> {
    plane: &'a Plane,
    point: &'a Point,
    by: i64,
    ghost small: { nat_abs by ≤ 1 },
}

impl Line for Shifted<'_> {
    ghost form = { λ x. shifted_form (form_of x.plane.now) (point_of x.point.now) x.by };

    fn across(&self, a: &Point) -> Sign {
        let p = self.point;
        if self.plane.c() == 0 && self.plane.b() == 0 {
            shift_sign(a.y(), a.w(), p.y(), p.w(), self.by)
        } else {
            shift_sign(a.x(), a.w(), p.x(), p.w(), self.by)
        }
    }
}

// The number of the plane's first vertex past the line whose constant coordinate exceeds the start's by `by`; vertices
// on the line may count as before the line. The number is `otherwise` where the ray may lead far in that coordinate.
fn number_beside(
    c: &Complex,
    ray: &VertexRay,
    by: i64,
    on_counts: bool,
    otherwise: usize,
    numbers: &[usize],
) -> usize
    requires shows { (s : Set) × ShowsSet s c.now }
    requires small { nat_abs by ≤ 1 }
    requires listed { AreNumbersWith (LiesOn c.now.vertices (form_of ray.now.plane.now)) numbers.now }
    ensures beside { IsCourseBeside c.now.vertices (form_of ray.now.plane.now) (point_of ray.now.start.now) (vector_of ray.now.direction.now) by on_counts result ⊎ (result ≡ otherwise) }
{
    if !stays_close(ray.plane, ray.direction) {
        return otherwise;
    }
    let line = Shifted {
        plane: ray.plane,
        point: ray.start,
        by,
    };
    first_far(c, ray.plane, &line, on_counts, numbers)
}

impl Course {
    // The course of the ray from the vertex with this number; the plane holds the ray and has the vertices with these
    // numbers. Vertices stand in order of the coordinate that is constant along the axis, so the ray meets nothing
    // between vertices before its start; and nothing far from the start where this coordinate hardly changes.
    pub(crate) fn of(c: &Complex, ray: &VertexRay, start: usize, numbers: &[usize]) -> Course
        requires shows { (s : Set) × ShowsSet s c.now }
        requires start { StartsAt c.now.vertices start ray.now.start.now }
        requires holds { HoldsRay (form_of ray.now.plane.now) (point_of ray.now.start.now) (vector_of ray.now.direction.now) }
        requires listed { AreNumbersWith (LiesOn c.now.vertices (form_of ray.now.plane.now)) numbers.now }
        ensures course { IsCourse c.now.vertices (form_of ray.now.plane.now) ray.now.start.now (vector_of ray.now.direction.now) result }
    {
        let normal = normal_beside(ray.plane, ray.direction);
        let count = c.vertices.len();
        match sweep_sign(ray.plane, ray.direction) {
            Sign::Plus => Course {
                first: start + 1,
                past: number_beside(c, ray, 1, false, count, numbers),
                normal,
            },
            Sign::Minus => Course {
                first: number_beside(c, ray, -1, true, 0, numbers),
                past: start,
                normal,
            },
            Sign::Zero => Course {
                first: 0,
                past: count,
                normal,
            },
        }
    }

    // Whether the ray may meet what lies between the vertices with these numbers, where `low` isn't above `high`.
    pub(crate) fn may_reach(&self, low: usize, high: usize) -> bool
        ensures passed { (IsTrue result → ⊥) → IsCoursePassed self.now low high }
    {
        low < self.past && self.first <= high
    }
}
