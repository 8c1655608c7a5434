//! Directions in normal form.

ghost use Rattle.std.specs.Prelude.{◌≡◌, ◌≤◌, ◌↔◌, ◌∷◌};
ghost use Rattle.nef_space.specs.Prelude.{nat_abs, [], IsTrue, direction_limit, IsLowest, vector, IsDirection};

use crate::gcd::lowest_terms;
use crate::sign::{Sign, dot, is_normal};

/// The direction `(x, y, z)`. The three numbers aren't all zero, have no common divisor but 1, and are
/// at most `2^37` in size.
#[derive(Clone, Copy, PartialEq, Eq, PartialOrd, Ord)]
pub struct Dir {
    pub(crate) x: i64,
    pub(crate) y: i64,
    pub(crate) z: i64,
    pub ghost x_small: { nat_abs x ≤ direction_limit },
    pub ghost y_small: { nat_abs y ≤ direction_limit },
    pub ghost z_small: { nat_abs z ≤ direction_limit },
    pub ghost some: { IsDirection (vector x y z) },
    pub ghost lowest: { IsLowest (x ∷ y ∷ z ∷ []) },
}

impl Dir {
    ghost use Rattle.std.specs.Prelude.{ℕ, pos, IsNone, IfSome};
    ghost use Rattle.nef_space.specs.Vectors.{opposite, dot, IsAtMost, IsNormal, IsZero, SameDirection};
    ghost use Rattle.nef_geo.specs.Meet.{IsStretched};
    ghost use Rattle.nef_geo.specs.Shapes.{vector_of};

    /// The direction along `(x, y, z)`, for numbers of at most `2^37` in size that aren't all zero.
    pub fn reduced(x: i64, y: i64, z: i64) -> Dir
        requires small { IsAtMost direction_limit (vector x y z) }
        requires some { IsDirection (vector x y z) }
        ensures stretched { IsStretched (vector x y z) (vector_of result) }
        ensures same { SameDirection (vector x y z) (vector_of result) }
        ensures size { (k : ℕ) → IsAtMost k (vector x y z) → IsAtMost k (vector_of result) }
    {
        let (x, y, z, _) = lowest_terms(x, y, z, 0);
        Dir { x, y, z }
    }

    /// The direction `(x, y, z)`, for numbers of at most `2^37` in size. `None` comes exactly where all
    /// three are zero.
    pub fn of(x: i64, y: i64, z: i64) -> Option<Dir>
        requires small { IsAtMost direction_limit (vector x y z) }
        ensures none { IsNone result ↔ IsZero (vector x y z) }
        ensures same { IfSome result (λ d. SameDirection (vector x y z) (vector_of d)) }
        ensures size { IfSome result (λ d. (k : ℕ) → IsAtMost k (vector x y z) → IsAtMost k (vector_of d)) }
    {
        if x == 0 && y == 0 && z == 0 {
            return None;
        }
        Some(Dir::reduced(x, y, z))
    }

    /// The opposite direction.
    pub fn back(&self) -> Dir
        ensures back { vector_of result ≡ opposite (vector_of self.now) }
    {
        Dir {
            x: -self.x,
            y: -self.y,
            z: -self.z,
        }
    }

    /// Whether both are one direction. Directions stand in normal form, so one direction has equal numbers.
    pub fn is_same(&self, other: &Dir) -> bool
        ensures same { IsTrue result ↔ (self.now ≡ other.now) }
        ensures direction { IsTrue result ↔ SameDirection (vector_of self.now) (vector_of other.now) }
    {
        self == other
    }

    /// Whether the first nonzero number of the direction is positive: then later points lie along it.
    pub fn is_normal(&self) -> bool
        ensures normal { IsTrue result ↔ IsNormal (vector_of self.now) }
    {
        is_normal(self.x, self.y, self.z)
    }

    pub fn is_perpendicular(&self, other: &Dir) -> bool
        ensures perpendicular { IsTrue result ↔ (dot (vector_of self.now) (vector_of other.now) ≡ pos 0) }
    {
        dot(self, other) == Sign::Zero
    }

    pub fn x(&self) -> i64
        ensures x { result ≡ self.now.x }
    {
        self.x
    }

    pub fn y(&self) -> i64
        ensures y { result ≡ self.now.y }
    {
        self.y
    }

    pub fn z(&self) -> i64
        ensures z { result ≡ self.now.z }
    {
        self.z
    }
}
