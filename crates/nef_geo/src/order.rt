//! The orders of points, of directions and of hits, and the laws of normal forms.

ghost use Rattle.std.specs.Prelude.{◌≡◌, ◌≤◌, ◌*ℤ◌, ◌<ℤ◌};
ghost use Rattle.nef_geo.specs.Prelude.{nat_abs, int_cmp, MatchOrdering, IsBelow, SpacePoint, IsAhead, form_numbers, SamePoint, IsPointBelow, Vector, IsDirection, direction_numbers, form_of, point_of, vector_of, hit_point, far_point, IsReached, far_product_limit, SamePointsAreEqual, SameDirectionsAreEqual, SamePlanesAreEqual};

use crate::dir::Dir;
use crate::hit::{FarHit, Hit};
use crate::point::Point;
use std::cmp::Ordering;

/// The product `a b`.
pub fn wide_product(a: i64, b: i64) -> i128
    ensures product { result ≡ a *ℤ b }
{
    a as i128 * b as i128
}

fn ratio_cmp(x: i64, w: i64, other_x: i64, other_w: i64) -> Ordering
    ensures order { result ≡ int_cmp (x *ℤ other_w) (other_x *ℤ w) }
{
    wide_product(x, other_w).cmp(&wide_product(other_x, w))
}

/// Compares two points by x/w, then by y/w, then by z/w.
pub fn lex_cmp(p: &Point, q: &Point) -> Ordering
    ensures order { MatchOrdering result (IsPointBelow (point_of p.now) (point_of q.now)) (SamePoint (point_of p.now) (point_of q.now)) (IsPointBelow (point_of q.now) (point_of p.now)) }
{
    ratio_cmp(p.x, p.w, q.x, q.w)
        .then_with(|| ratio_cmp(p.y, p.w, q.y, q.w))
        .then_with(|| ratio_cmp(p.z, p.w, q.z, q.w))
}

/// Compares two directions as triples of numbers.
pub fn dir_cmp(a: &Dir, b: &Dir) -> Ordering
    ensures order { MatchOrdering result (IsBelow (direction_numbers (vector_of a.now)) (direction_numbers (vector_of b.now))) (a.now ≡ b.now) (IsBelow (direction_numbers (vector_of b.now)) (direction_numbers (vector_of a.now))) }
{
    a.cmp(b)
}

/// Compares the steps of two hits from one start along one direction: which hit is nearer on the ray.
pub fn hit_order(p: &Hit, q: &Hit) -> Ordering
    ensures steps { MatchOrdering result ((p.now.num *ℤ q.now.den) <ℤ (q.now.num *ℤ p.now.den)) (p.now.num *ℤ q.now.den ≡ q.now.num *ℤ p.now.den) ((q.now.num *ℤ p.now.den) <ℤ (p.now.num *ℤ q.now.den)) }
    ensures along { (s : SpacePoint) (d : Vector) → IsDirection d → IsReached s d p.now.num p.now.den p.now.den_sign (hit_point p.now) → IsReached s d q.now.num q.now.den q.now.den_sign (hit_point q.now) → MatchOrdering result (IsAhead (hit_point p.now) d (hit_point q.now)) (SamePoint (hit_point p.now) (hit_point q.now)) (IsAhead (hit_point q.now) d (hit_point p.now)) }
{
    (p.num * q.den).cmp(&(q.num * p.den))
}

/// Compares the steps of two far hits from one start along one direction: which far hit is nearer on the ray.
pub fn far_order(p: &FarHit, q: &FarHit) -> Ordering
    ensures steps { MatchOrdering result ((p.now.num *ℤ q.now.den) <ℤ (q.now.num *ℤ p.now.den)) (p.now.num *ℤ q.now.den ≡ q.now.num *ℤ p.now.den) ((q.now.num *ℤ p.now.den) <ℤ (p.now.num *ℤ q.now.den)) }
    ensures width { (nat_abs (p.now.num *ℤ q.now.den) ≤ far_product_limit) × (nat_abs (q.now.num *ℤ p.now.den) ≤ far_product_limit) }
    ensures along { (s : SpacePoint) (d : Vector) → IsDirection d → IsReached s d p.now.num p.now.den p.now.den_sign (far_point p.now) → IsReached s d q.now.num q.now.den q.now.den_sign (far_point q.now) → MatchOrdering result (IsAhead (far_point p.now) d (far_point q.now)) (SamePoint (far_point p.now) (far_point q.now)) (IsAhead (far_point q.now) d (far_point p.now)) }
{
    (p.num * q.den).cmp(&(q.num * p.den))
}

/// Normal forms are unique: equal are points that are the same, directions that are the same, and forms of one plane.
pub fn normal_form_laws()
    ensures places { SamePointsAreEqual }
    ensures directions { SameDirectionsAreEqual }
    ensures planes { SamePlanesAreEqual }
{}
