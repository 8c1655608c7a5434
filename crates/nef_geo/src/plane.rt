//! Planes in normal form, planes read from four numbers, and the planes of the frame.

ghost use Rattle.std.specs.Prelude.{◌≡◌, ◌<◌, ◌≤◌, ◌↔◌, ◌∷◌};
ghost use Rattle.nef_space.specs.Prelude.{nat_abs, [], IfOk, IsTrue, normal_limit, offset_limit, IsLowest, SpacePoint, form, form_at, vector, opposite, IsZero, IsDirection, IsNormal};
ghost use Rattle.nef_geo.specs.Reading.{IsInRange, IsPositiveMultiple, side_forms};

use crate::gcd::lowest_terms;
use crate::sign::is_normal;
use nef_space::{HALF_SIDE, NORMAL_LIMIT, OFFSET_LIMIT};

/// The plane where `a x + b y + c z + d = 0`. The four numbers have no common divisor but 1, the
/// first nonzero one of a, b and c is positive, and `|a|, |b|, |c| <= 2048`, `|d| <= 4194304`.
#[derive(Clone, Copy, PartialEq, Eq, PartialOrd, Ord)]
pub struct Plane {
    pub(crate) a: i64,
    pub(crate) b: i64,
    pub(crate) c: i64,
    pub(crate) d: i64,
    pub ghost a_small: { nat_abs a ≤ normal_limit },
    pub ghost b_small: { nat_abs b ≤ normal_limit },
    pub ghost c_small: { nat_abs c ≤ normal_limit },
    pub ghost d_small: { nat_abs d ≤ offset_limit },
    pub ghost lowest: { IsLowest (a ∷ b ∷ c ∷ d ∷ []) },
    pub ghost normal: { IsNormal (vector a b c) },
}

/// A plane given by four numbers: its normal form, and whether the given numbers are a negative multiple of this form.
#[derive(Clone, Copy)]
pub struct Oriented {
    pub(crate) plane: Plane,
    pub(crate) flipped: bool,
}

/// Why four numbers are no plane.
#[derive(Debug, Clone, Copy)]
pub enum PlaneFault {
    /// One of a, b and c is more than 2048 in size, or d is more than 4194304 in size.
    OutOfRange,
    /// No number is past its limit, and a, b and c are zero.
    ZeroNormal,
}

fn is_at_most(n: i64, limit: u64) -> bool
    ensures small { IsTrue result ↔ (nat_abs n ≤ limit) }
{
    n.unsigned_abs() <= limit
}

fn is_in_range(a: i64, b: i64, c: i64, d: i64) -> bool
    ensures in_range { IsTrue result ↔ IsInRange (form a b c d) }
{
    is_at_most(a, NORMAL_LIMIT)
        && is_at_most(b, NORMAL_LIMIT)
        && is_at_most(c, NORMAL_LIMIT)
        && is_at_most(d, OFFSET_LIMIT)
}

impl Plane {
    ghost use Rattle.nef_space.specs.Lists.{IsAt};
    ghost use Rattle.nef_geo.specs.Shapes.{form_of, given_form};
    ghost use Rattle.nef_geo.specs.Signs.{sign_of};

    /// The plane where `a x + b y + c z + d = 0`, with the side on which the form is positive. `OutOfRange` comes
    /// exactly where a number is past its limit, and `ZeroNormal` exactly where none is and a, b and c are zero.
    pub fn read(a: i64, b: i64, c: i64, d: i64) -> Result<Oriented, PlaneFault>
        ensures out_of_range { (result ≡ Err PlaneFault.OutOfRange) ↔ (¬ IsInRange (form a b c d)) }
        ensures zero_normal { (result ≡ Err PlaneFault.ZeroNormal) ↔ (IsInRange (form a b c d) × IsZero (vector a b c)) }
        ensures multiple { IfOk result (λ o. IsPositiveMultiple (form a b c d) (given_form o)) }
        ensures sides { IfOk result (λ o. (p : SpacePoint) → sign_of (form_at (form a b c d) p) ≡ sign_of (form_at (given_form o) p)) }
        ensures flipped { IfOk result (λ o. IsTrue o.flipped ↔ IsNormal (opposite (vector a b c))) }
    {
        if !is_in_range(a, b, c, d) {
            return Err(PlaneFault::OutOfRange);
        }
        if a == 0 && b == 0 && c == 0 {
            return Err(PlaneFault::ZeroNormal);
        }
        Ok(Oriented::of(a, b, c, d))
    }

    /// The k-th plane of the frame, for k below 6: x = -2048, x = 2048, and the same for y and z.
    pub fn frame(k: usize) -> Plane
        requires side { k < 6 }
        ensures frame { IsAt side_forms k (form_of result) }
    {
        let forms = [
            [1, 0, 0, HALF_SIDE],
            [1, 0, 0, -HALF_SIDE],
            [0, 1, 0, HALF_SIDE],
            [0, 1, 0, -HALF_SIDE],
            [0, 0, 1, HALF_SIDE],
            [0, 0, 1, -HALF_SIDE],
        ];
        let [a, b, c, d] = forms[k];
        Plane { a, b, c, d }
    }

    // The plane of four numbers of which the first nonzero one is positive.
    fn reduced(a: i64, b: i64, c: i64, d: i64) -> Plane
        requires in_range { IsInRange (form a b c d) }
        requires normal { IsNormal (vector a b c) }
        ensures multiple { IsPositiveMultiple (form a b c d) (form_of result) }
    {
        let (a, b, c, d) = lowest_terms(a, b, c, d);
        Plane { a, b, c, d }
    }

    /// The coefficient of x.
    pub fn a(&self) -> i64
        ensures a { result ≡ self.now.a }
    {
        self.a
    }

    /// The coefficient of y.
    pub fn b(&self) -> i64
        ensures b { result ≡ self.now.b }
    {
        self.b
    }

    /// The coefficient of z.
    pub fn c(&self) -> i64
        ensures c { result ≡ self.now.c }
    {
        self.c
    }

    /// The coefficient of no coordinate.
    pub fn d(&self) -> i64
        ensures d { result ≡ self.now.d }
    {
        self.d
    }
}

impl Oriented {
    ghost use Rattle.nef_geo.specs.Shapes.{given_form};

    /// The plane where `a x + b y + c z + d = 0`, with the side on which the form is positive. No number is past its
    /// limit, and a, b and c aren't all zero.
    pub fn of(a: i64, b: i64, c: i64, d: i64) -> Oriented
        requires in_range { IsInRange (form a b c d) }
        requires some { IsDirection (vector a b c) }
        ensures multiple { IsPositiveMultiple (form a b c d) (given_form result) }
        ensures flipped { IsTrue result.flipped ↔ IsNormal (opposite (vector a b c)) }
    {
        if is_normal(a, b, c) {
            Oriented {
                plane: Plane::reduced(a, b, c, d),
                flipped: false,
            }
        } else {
            Oriented {
                plane: Plane::reduced(-a, -b, -c, -d),
                flipped: true,
            }
        }
    }

    /// The plane in normal form.
    pub fn plane(&self) -> Plane
        ensures plane { result ≡ self.now.plane }
    {
        self.plane
    }

    /// Whether the given numbers are a negative multiple of the normal form's.
    pub fn flipped(&self) -> bool
        ensures flipped { result ≡ self.now.flipped }
    {
        self.flipped
    }
}
