//! Points in normal form.

ghost use Rattle.std.specs.Prelude.{◌≡◌, ◌↔◌, ◌<◌, ◌≤◌, ◌<ℤ◌, ◌∷◌};
ghost use Rattle.nef_space.specs.Prelude.{pos, nat_abs, IsTrue, [], point_limit, weight_limit, IsLowest};

use crate::gcd::lowest_terms;
use nef_space::HALF_SIDE;

/// The point `(x/w, y/w, z/w)`. The four numbers have no common divisor but 1, w is positive, and `|x|, |y|, |z| <=
/// 3*2^45`, `w <= 3*2^34`: each common point of three planes has such numbers.
#[derive(Clone, Copy, PartialEq, Eq)]
pub struct Point {
    pub(crate) x: i64,
    pub(crate) y: i64,
    pub(crate) z: i64,
    pub(crate) w: i64,
    pub ghost x_small: { nat_abs x ≤ point_limit },
    pub ghost y_small: { nat_abs y ≤ point_limit },
    pub ghost z_small: { nat_abs z ≤ point_limit },
    pub ghost w_small: { nat_abs w ≤ weight_limit },
    pub ghost proper: { pos 0 <ℤ w },
    pub ghost lowest: { IsLowest (x ∷ y ∷ z ∷ w ∷ []) },
}

fn is_below(n: i64, limit: u64) -> bool
    ensures below { IsTrue result ↔ (nat_abs n < limit) }
{
    n.unsigned_abs() < limit
}

impl Point {
    ghost use Rattle.nef_space.specs.Points.{SamePoint, InFrame};
    ghost use Rattle.nef_geo.specs.Shapes.{point_at, point_of};

    /// The point `(x/w, y/w, z/w)`.
    pub fn of(x: i64, y: i64, z: i64, w: i64) -> Point
        requires x_small { nat_abs x ≤ point_limit }
        requires y_small { nat_abs y ≤ point_limit }
        requires z_small { nat_abs z ≤ point_limit }
        requires w_small { nat_abs w ≤ weight_limit }
        requires positive { pos 0 <ℤ w }
        ensures same { (positive : pos 0 <ℤ w) → SamePoint (point_at x y z w positive) (point_of result) }
    {
        let (x, y, z, w) = lowest_terms(x, y, z, w);
        Point { x, y, z, w }
    }

    /// Whether the point lies in the frame, the open cube `|x|, |y|, |z| < 2048`.
    pub fn in_frame(&self) -> bool
        ensures in_frame { IsTrue result ↔ InFrame (point_of self.now) }
    {
        let limit = HALF_SIDE.unsigned_abs() * self.w.unsigned_abs();
        is_below(self.x, limit) && is_below(self.y, limit) && is_below(self.z, limit)
    }

    pub fn x(&self) -> i64
        ensures x { result ≡ self.now.x }
    {
        self.x
    }

    pub fn y(&self) -> i64
        ensures y { result ≡ self.now.y }
    {
        self.y
    }

    pub fn z(&self) -> i64
        ensures z { result ≡ self.now.z }
    {
        self.z
    }

    /// The weight: the number that the other three are divided by.
    pub fn w(&self) -> i64
        ensures w { result ≡ self.now.w }
    {
        self.w
    }
}
