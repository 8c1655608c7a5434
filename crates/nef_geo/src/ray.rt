//! Where rays cross planes.

ghost use Rattle.std.specs.Prelude.{◌≡◌, ◌↔◌, ◌≤◌, ◌^◌, ◌<ℤ◌};
ghost use Rattle.nef_geo.specs.Prelude.{pos, nat_abs, IsNone, IfSome, normal_limit, SpacePoint, form_at, slope, SamePoint, Vector, vector, IsAtMost, IsCrossing, IsReached, IsReachedBy, IsVertical, IsPlaneDirSized, IsPointAtMost, form_of, vector_of, point_of, hit_point, far_point, Plane, HasOppositeSigns, IsZeroStep, point_form_limit, ray_limit, ray_slope_limit, upright_limit, upright_weight_limit, plane_dir_hit_limit, plane_dir_form_limit, far_limit, far_weight_limit, far_num_limit, far_den_limit};

use crate::dir::Dir;
use crate::hit::{FarHit, Hit};
use crate::plane::Plane;
use crate::point::Point;
use crate::sides::{form, hit_form};
use crate::sign::slope;

// The positive step at which a form is zero, as a fraction of two positive numbers. The form has this value at the
// start and grows by `growth` a step.
fn zero_step(value: i128, growth: i128) -> Option<(i128, i128)>
    requires value_small { nat_abs value ≤ 2 ^ 126 }
    requires growth_small { nat_abs growth ≤ 2 ^ 126 }
    ensures none { IsNone result ↔ (¬ HasOppositeSigns value growth) }
    ensures some { IfSome result (λ s. IsZeroStep value growth s.0 s.1) }
{
    if value < 0 && growth > 0 {
        Some((-value, growth))
    } else if value > 0 && growth < 0 {
        Some((value, -growth))
    } else {
        None
    }
}

// The point at the step num/den from p along d.
fn reached(p: &Point, d: &Dir, num: i128, den: i128) -> Hit
    requires d_small { IsAtMost ray_limit (vector_of d.now) }
    requires num_small { nat_abs num ≤ point_form_limit }
    requires den_small { nat_abs den ≤ ray_slope_limit }
    requires num_positive { pos 0 <ℤ num }
    requires den_positive { pos 0 <ℤ den }
    ensures at { IsReachedBy (point_of p.now) (vector_of d.now) result.num result.den result.x result.y result.z result.w }
    ensures num { result.num ≡ num }
    ensures den { result.den ≡ den }
{
    Hit {
        x: p.x as i128 * den + num * d.x as i128,
        y: p.y as i128 * den + num * d.y as i128,
        z: p.z as i128 * den + num * d.z as i128,
        w: p.w as i128 * den,
        num,
        den,
    }
}

// The point at the step num/den from the hit p along d.
fn reached_far(p: &Hit, d: &Dir, num: i128, den: i128) -> FarHit
    requires p_small { IsPointAtMost upright_limit upright_weight_limit (hit_point p.now) }
    requires d_small { IsAtMost normal_limit (vector_of d.now) }
    requires num_small { nat_abs num ≤ far_num_limit }
    requires den_small { nat_abs den ≤ far_den_limit }
    requires num_positive { pos 0 <ℤ num }
    requires den_positive { pos 0 <ℤ den }
    ensures at { IsReachedBy (hit_point p.now) (vector_of d.now) result.num result.den result.x result.y result.z result.w }
    ensures num { result.num ≡ num }
    ensures den { result.den ≡ den }
{
    FarHit {
        x: p.x * den + num * d.x as i128,
        y: p.y * den + num * d.y as i128,
        z: p.z * den + num * d.z as i128,
        w: p.w * den,
        num,
        den,
    }
}

/// Where the ray from p along d crosses the plane strictly ahead of p, for entries of d of at most `2^36` in size.
/// `None` comes exactly where the ray crosses no point of the plane, as a ray within the plane.
pub fn ray_hit(p: &Point, d: &Dir, h: &Plane) -> Option<Hit>
    requires d_small { IsAtMost ray_limit (vector_of d.now) }
    ensures none { IsNone result ↔ ((q : SpacePoint) → ¬ IsCrossing (point_of p.now) (vector_of d.now) (form_of h.now) q) }
    ensures crossing { IfSome result (λ q. IsCrossing (point_of p.now) (vector_of d.now) (form_of h.now) (hit_point q)) }
    ensures step { IfSome result (λ q. IsReached (point_of p.now) (vector_of d.now) q.num q.den q.den_sign (hit_point q)) }
    ensures ahead { IfSome result (λ q. pos 0 <ℤ q.num) }
    ensures upright_width { IsVertical (vector_of d.now) → IfSome result (λ q. IsPointAtMost upright_limit upright_weight_limit (hit_point q)) }
    ensures plane_dir_width { IsPlaneDirSized (vector_of d.now) → IfSome result (λ q. IsAtMost plane_dir_hit_limit (vector q.x q.y q.z)) }
    ensures plane_dir_form_width { IsPlaneDirSized (vector_of d.now) → IfSome result (λ q. (g : Plane) → nat_abs (form_at (form_of g) (hit_point q)) ≤ plane_dir_form_limit) }
{
    let (num, den) = zero_step(form(h, p), slope(h, d))?;
    Some(reached(p, d, num, den))
}

/// Where the ray from the hit p along d crosses the plane strictly ahead of p. The first three numbers of p are at most
/// `2^86` in size, its w is at most `2^73`, and the entries of d are at most `2^11` in size. `None` comes exactly where
/// the ray doesn't cross the plane.
pub fn far_hit(p: &Hit, d: &Dir, h: &Plane) -> Option<FarHit>
    requires p_small { IsPointAtMost upright_limit upright_weight_limit (hit_point p.now) }
    requires d_small { IsAtMost normal_limit (vector_of d.now) }
    ensures none { IsNone result ↔ ((q : SpacePoint) → ¬ IsCrossing (hit_point p.now) (vector_of d.now) (form_of h.now) q) }
    ensures crossing { IfSome result (λ q. IsCrossing (hit_point p.now) (vector_of d.now) (form_of h.now) (far_point q)) }
    ensures step { IfSome result (λ q. IsReached (hit_point p.now) (vector_of d.now) q.num q.den q.den_sign (far_point q)) }
    ensures width { IfSome result (λ q. IsPointAtMost far_limit far_weight_limit (far_point q)) }
{
    let (num, den) = zero_step(hit_form(h, p), slope(h, d))?;
    Some(reached_far(p, d, num, den))
}

/// The point as a hit, at the step 0.
pub fn hit_at(p: &Point) -> Hit
    ensures same { SamePoint (hit_point result) (point_of p.now) }
    ensures step { result.num ≡ pos 0 }
    ensures reached { (d : Vector) → IsReached (point_of p.now) d result.num result.den result.den_sign (hit_point result) }
    ensures upright_width { IsPointAtMost upright_limit upright_weight_limit (hit_point result) }
{
    Hit {
        x: p.x as i128,
        y: p.y as i128,
        z: p.z as i128,
        w: p.w as i128,
        num: 0,
        den: 1,
    }
}
