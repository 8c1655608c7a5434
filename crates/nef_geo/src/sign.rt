//! Signs of whole numbers, triples of wide numbers, and the signs of products of directions and of planes' normals.

ghost use Rattle.std.specs.Prelude.{◌≡◌, ◌↔◌, ◌*◌, ◌^◌, ◌≤◌, ◌*ℤ◌, ◌<ℤ◌};
ghost use Rattle.nef_geo.specs.Prelude.{ℕ, ℤ, pos, neg_ℤ, nat_abs, IsTrue, IsNone, IfSome, normal_limit, offset_limit, svertex_limit, direction_limit, slope, vector, dot, cross, triple, IsAtMost, IsNormal, IsParallel, SameDirection, sign_number, sign_of, HasOppositeSigns, form_of, vector_of, triple_vector, wide_vector, slope_limit, dot_limit, triple_limit, quad_limit};

use crate::dir::Dir;
use crate::plane::Plane;
use crate::ways::wide;

/// The sign of a whole number.
#[derive(Clone, Copy, PartialEq, Eq)]
pub enum Sign {
    Minus,
    Zero,
    Plus,
}

impl Sign {
    /// The sign of n.
    pub fn of(n: i128) -> Sign
        ensures sign { result ≡ sign_of n }
    {
        if n < 0 {
            Sign::Minus
        } else if n == 0 {
            Sign::Zero
        } else {
            Sign::Plus
        }
    }

    /// The sign of the opposite number.
    pub fn opposite(self) -> Sign
        ensures opposite { (n : ℤ) → self ≡ sign_of n → result ≡ sign_of (neg_ℤ n) }
    {
        match self {
            Sign::Minus => Sign::Plus,
            Sign::Zero => Sign::Zero,
            Sign::Plus => Sign::Minus,
        }
    }

    /// Whether the sign is that of a positive number.
    pub fn is_plus(self) -> bool
        ensures plus { (n : ℤ) → self ≡ sign_of n → IsTrue result ↔ pos 0 <ℤ n }
    {
        matches!(self, Sign::Plus)
    }

    /// Whether one sign is that of a negative number and the other that of a positive number.
    pub fn is_opposite_to(self, other: Sign) -> bool
        ensures opposite { (m n : ℤ) → self ≡ sign_of m → other ≡ sign_of n → IsTrue result ↔ HasOppositeSigns m n }
        ensures product { (m n : ℤ) → self ≡ sign_of m → other ≡ sign_of n → IsTrue result ↔ (m *ℤ n) <ℤ pos 0 }
    {
        match (self, other) {
            (Sign::Plus, Sign::Minus) => true,
            (Sign::Minus, Sign::Plus) => true,
            _ => false,
        }
    }

    /// -1 for `Minus`, 0 for `Zero`, 1 for `Plus`.
    pub fn number(self) -> i8
        ensures number { result ≡ sign_number self }
    {
        match self {
            Sign::Minus => -1,
            Sign::Zero => 0,
            Sign::Plus => 1,
        }
    }
}

/// A triple of numbers of 128 bits.
#[derive(Clone, Copy)]
pub struct Wide {
    pub(crate) x: i128,
    pub(crate) y: i128,
    pub(crate) z: i128,
}

// Whether the first nonzero number of the three is there and is positive.
pub(crate) fn is_normal(x: i64, y: i64, z: i64) -> bool
    ensures normal { IsTrue result ↔ IsNormal (vector x y z) }
{
    if x != 0 {
        x > 0
    } else if y != 0 {
        y > 0
    } else {
        z > 0
    }
}

pub(crate) fn dot_narrow(a: &(i64, i64, i64), b: &(i64, i64, i64)) -> i64
    requires left { IsAtMost offset_limit (triple_vector a.now) }
    requires right { IsAtMost svertex_limit (triple_vector b.now) }
    ensures dot { result ≡ dot (triple_vector a.now) (triple_vector b.now) }
{
    a.0 * b.0 + a.1 * b.1 + a.2 * b.2
}

pub(crate) fn cross_narrow(a: &(i64, i64, i64), b: &(i64, i64, i64)) -> (i64, i64, i64)
    requires left { IsAtMost normal_limit (triple_vector a.now) }
    requires right { IsAtMost normal_limit (triple_vector b.now) }
    ensures cross { triple_vector result ≡ cross (triple_vector a.now) (triple_vector b.now) }
    ensures small { IsAtMost svertex_limit (triple_vector result) }
{
    (
        a.1 * b.2 - a.2 * b.1,
        a.2 * b.0 - a.0 * b.2,
        a.0 * b.1 - a.1 * b.0,
    )
}

/// The dot product `a.b`.
pub fn dot_wide(a: &Wide, b: &Wide) -> i128
    requires left { IsAtMost (2 ^ 75) (wide_vector a.now) }
    requires right { IsAtMost (2 ^ 47) (wide_vector b.now) }
    ensures dot { result ≡ dot (wide_vector a.now) (wide_vector b.now) }
{
    a.x * b.x + a.y * b.y + a.z * b.z
}

/// The cross product `a x b`.
pub fn cross_wide(a: &Wide, b: &Wide) -> Wide
    requires left { IsAtMost direction_limit (wide_vector a.now) }
    requires right { IsAtMost direction_limit (wide_vector b.now) }
    ensures cross { wide_vector result ≡ cross (wide_vector a.now) (wide_vector b.now) }
    ensures small { (m n : ℕ) → IsAtMost m (wide_vector a.now) → IsAtMost n (wide_vector b.now) → IsAtMost (2 * (m * n)) (wide_vector result) }
{
    Wide {
        x: a.y * b.z - a.z * b.y,
        y: a.z * b.x - a.x * b.z,
        z: a.x * b.y - a.y * b.x,
    }
}

fn narrow(d: &Dir) -> (i64, i64, i64)
    ensures narrow { triple_vector result ≡ vector_of d.now }
{
    (d.x, d.y, d.z)
}

// The product of the plane's normal with the direction.
pub(crate) fn slope(h: &Plane, d: &Dir) -> i128
    ensures value { result ≡ slope (form_of h.now) (vector_of d.now) }
{
    (h.a * d.x + h.b * d.y + h.c * d.z) as i128
}

/// The sign of the product of the plane's normal with the direction.
pub fn dir_side(h: &Plane, d: &Dir) -> Sign
    ensures side { result ≡ sign_of (slope (form_of h.now) (vector_of d.now)) }
    ensures width { nat_abs (slope (form_of h.now) (vector_of d.now)) ≤ slope_limit }
{
    Sign::of(slope(h, d))
}

/// The sign of the dot product `a.b`.
pub fn dot(a: &Dir, b: &Dir) -> Sign
    ensures dot { result ≡ sign_of (dot (vector_of a.now) (vector_of b.now)) }
    ensures width { nat_abs (dot (vector_of a.now) (vector_of b.now)) ≤ dot_limit }
{
    Sign::of(dot_wide(&wide(a), &wide(b)))
}

/// The sign of the triple product `a.(b x c)`.
pub fn triple(a: &Dir, b: &Dir, c: &Dir) -> Sign
    ensures triple { result ≡ sign_of (triple (vector_of a.now) (vector_of b.now) (vector_of c.now)) }
    ensures width { nat_abs (triple (vector_of a.now) (vector_of b.now) (vector_of c.now)) ≤ triple_limit }
{
    Sign::of(dot_wide(&cross_wide(&wide(b), &wide(c)), &wide(a)))
}

/// The sign of `(a x b).(c x d)`, for entries of b, c and d of at most `2^23` in size.
pub fn quad(a: &Dir, b: &Dir, c: &Dir, d: &Dir) -> Sign
    requires b_small { IsAtMost svertex_limit (vector_of b.now) }
    requires c_small { IsAtMost svertex_limit (vector_of c.now) }
    requires d_small { IsAtMost svertex_limit (vector_of d.now) }
    ensures quad { result ≡ sign_of (dot (cross (vector_of a.now) (vector_of b.now)) (cross (vector_of c.now) (vector_of d.now))) }
    ensures width { nat_abs (dot (cross (vector_of a.now) (vector_of b.now)) (cross (vector_of c.now) (vector_of d.now))) ≤ quad_limit }
{
    let left = cross_wide(&wide(a), &wide(b));
    let right = cross_wide(&wide(c), &wide(d));
    Sign::of(dot_wide(&left, &right))
}

/// The direction of the cross product of two directions, for entries of at most `2^11` in size. `None` comes exactly
/// where the directions are parallel.
pub fn cross(a: &Dir, b: &Dir) -> Option<Dir>
    requires a_small { IsAtMost normal_limit (vector_of a.now) }
    requires b_small { IsAtMost normal_limit (vector_of b.now) }
    ensures none { IsNone result ↔ IsParallel (vector_of a.now) (vector_of b.now) }
    ensures cross { IfSome result (λ d. SameDirection (cross (vector_of a.now) (vector_of b.now)) (vector_of d)) }
    ensures small { IfSome result (λ d. IsAtMost svertex_limit (vector_of d)) }
{
    let product = cross_narrow(&narrow(a), &narrow(b));
    Dir::of(product.0, product.1, product.2)
}

/// The direction of the cross product of two directions that aren't parallel, for entries of at most `2^11` in size.
pub fn common_perpendicular(a: &Dir, b: &Dir) -> Dir
    requires a_small { IsAtMost normal_limit (vector_of a.now) }
    requires b_small { IsAtMost normal_limit (vector_of b.now) }
    requires apart { IsParallel (vector_of a.now) (vector_of b.now) → ⊥ }
    ensures cross { SameDirection (cross (vector_of a.now) (vector_of b.now)) (vector_of result) }
    ensures small { IsAtMost svertex_limit (vector_of result) }
{
    let product = cross_narrow(&narrow(a), &narrow(b));
    Dir::reduced(product.0, product.1, product.2)
}
