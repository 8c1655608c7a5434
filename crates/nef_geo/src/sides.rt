//! The side of a plane on which a point lies, and the common point of three planes.

ghost use Rattle.std.specs.Prelude.{◌≡◌, ◌≢◌, ◌≤◌, ◌↔◌, ◌+ℤ◌, ◌*ℤ◌};
ghost use Rattle.nef_geo.specs.Prelude.{pos, neg_ℤ, nat_abs, IsNone, IfSome, form_at, normal_of, normal_limit, point_limit, weight_limit, vector, IsAtMost, form_of, given_form, point_of, hit_point, far_point, IsPointAtMost, sign_of, point_form_limit, hit_form_limit, upright_limit, upright_weight_limit, upright_form_limit, far_limit, far_weight_limit, far_form_limit, HasDependentNormals, IsOnlyCommon, IsSameRatios, triple_vector};

use crate::hit::{FarHit, Hit};
use crate::plane::{Oriented, Plane};
use crate::point::Point;
use crate::sign::{Sign, cross_narrow, dot_narrow};

// The value of the plane's form at the point.
pub(crate) fn form(h: &Plane, p: &Point) -> i128
    ensures value { result ≡ form_at (form_of h.now) (point_of p.now) }
    ensures width { nat_abs result ≤ point_form_limit }
{
    (h.a * p.x + h.b * p.y + h.c * p.z + h.d * p.w) as i128
}

// The value of the plane's form at the point `(x/w, y/w, z/w)`, times w.
fn wide_form(h: &Plane, x: i128, y: i128, z: i128, w: i128) -> i128
    requires x_small { nat_abs x ≤ far_limit }
    requires y_small { nat_abs y ≤ far_limit }
    requires z_small { nat_abs z ≤ far_limit }
    requires w_small { nat_abs w ≤ far_weight_limit }
    ensures value { result ≡ h.now.a *ℤ x +ℤ h.now.b *ℤ y +ℤ h.now.c *ℤ z +ℤ h.now.d *ℤ w }
{
    h.a as i128 * x + h.b as i128 * y + h.c as i128 * z + h.d as i128 * w
}

pub(crate) fn hit_form(h: &Plane, p: &Hit) -> i128
    ensures value { result ≡ form_at (form_of h.now) (hit_point p.now) }
{
    wide_form(h, p.x, p.y, p.z, p.w)
}

/// The sign of the plane's form at the hit.
pub fn hit_side(h: &Plane, p: &Hit) -> Sign
    ensures side { result ≡ sign_of (form_at (form_of h.now) (hit_point p.now)) }
    ensures width { nat_abs (form_at (form_of h.now) (hit_point p.now)) ≤ hit_form_limit }
    ensures upright_width { IsPointAtMost upright_limit upright_weight_limit (hit_point p.now) → nat_abs (form_at (form_of h.now) (hit_point p.now)) ≤ upright_form_limit }
{
    Sign::of(hit_form(h, p))
}

/// The sign of the plane's form at the far hit.
pub fn far_side(h: &Plane, p: &FarHit) -> Sign
    ensures side { result ≡ sign_of (form_at (form_of h.now) (far_point p.now)) }
    ensures width { nat_abs (form_at (form_of h.now) (far_point p.now)) ≤ far_form_limit }
{
    Sign::of(wide_form(h, p.x, p.y, p.z, p.w))
}

/// The sign of the plane's form at the point.
pub fn side(h: &Plane, p: &Point) -> Sign
    ensures side { result ≡ sign_of (form_at (form_of h.now) (point_of p.now)) }
    ensures width { nat_abs (form_at (form_of h.now) (point_of p.now)) ≤ point_form_limit }
{
    Sign::of(form(h, p))
}

impl Oriented {
    /// The sign of the given form `a x + b y + c z + d w` at the point.
    pub fn side(&self, p: &Point) -> Sign
        ensures side { result ≡ sign_of (form_at (given_form self.now) (point_of p.now)) }
        ensures width { nat_abs (form_at (given_form self.now) (point_of p.now)) ≤ point_form_limit }
    {
        let sign = Sign::of(form(&self.plane, p));
        if self.flipped { sign.opposite() } else { sign }
    }
}

fn normal(h: &Plane) -> (i64, i64, i64)
    ensures normal { triple_vector result ≡ normal_of (form_of h.now) }
    ensures small { IsAtMost normal_limit (triple_vector result) }
{
    (h.a, h.b, h.c)
}

// The point `(-x/w, -y/w, -z/w)`, where w isn't zero.
fn turned(x: i64, y: i64, z: i64, w: i64) -> Point
    requires small { IsAtMost point_limit (vector x y z) }
    requires w_small { nat_abs w ≤ weight_limit }
    requires some { w ≢ pos 0 }
    ensures same { IsSameRatios x y z (neg_ℤ w) result.x result.y result.z result.w }
{
    if w < 0 {
        Point::of(x, y, z, -w)
    } else {
        Point::of(-x, -y, -z, w)
    }
}

/// The one common point of three planes. `None` comes exactly where the three normals are dependent.
pub fn meet(p: &Plane, q: &Plane, r: &Plane) -> Option<Point>
    ensures none { IsNone result ↔ HasDependentNormals (form_of p.now) (form_of q.now) (form_of r.now) }
    ensures met { IfSome result (λ m. IsOnlyCommon (form_of p.now) (form_of q.now) (form_of r.now) (point_of m)) }
    ensures width { IfSome result (λ m. IsAtMost point_limit (vector m.x m.y m.z) × (nat_abs m.w ≤ weight_limit)) }
{
    let np = normal(p);
    let nq = normal(q);
    let nr = normal(r);
    let rq = cross_narrow(&nr, &nq);
    let w = dot_narrow(&np, &rq);
    if w == 0 {
        return None;
    }
    let pr = cross_narrow(&np, &nr);
    let qp = cross_narrow(&nq, &np);
    let d = (p.d, q.d, r.d);
    let x = dot_narrow(&d, &(rq.0, pr.0, qp.0));
    let y = dot_narrow(&d, &(rq.1, pr.1, qp.1));
    let z = dot_narrow(&d, &(rq.2, pr.2, qp.2));
    Some(turned(x, y, z, w))
}
