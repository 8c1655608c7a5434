//! The stated directions: upward, along the coordinate axes, and for each plane its normal and two directions within
//! it; and directions as triples of wide numbers.

ghost use Rattle.std.specs.Prelude.{◌≡◌, ◌≤◌, ◌<ℤ◌};
ghost use Rattle.nef_geo.specs.Prelude.{ℕ, pos, normal_limit, normal_of, slope, vector, up, plane_axis, plane_dir, IsAtMost, IsDirection, IsParallel, SameDirection, IsNormal, IsPlaneDirSized, form_of, vector_of, triple_vector, wide_vector, second_beside, Plane};

use crate::dir::Dir;
use crate::plane::Plane;
use crate::sign::Wide;
use nef_space::{AXIS_FACTOR, UP_X, UP_Y};

/// The upward direction `(2^26, 2^13, 1)`, on the positive side of every normal form and so parallel to no plane.
pub fn up() -> Dir
    ensures up { vector_of result ≡ up }
    ensures positive { (h : Plane) → pos 0 <ℤ slope (form_of h) (vector_of result) }
{
    Dir {
        x: UP_X,
        y: UP_Y,
        z: 1,
    }
}

/// The direction along the first coordinate axis.
pub fn axis_x() -> Dir
    ensures axis { vector_of result ≡ vector (pos 1) (pos 0) (pos 0) }
    ensures small { IsAtMost 1 (vector_of result) }
{
    Dir { x: 1, y: 0, z: 0 }
}

/// The direction along the second coordinate axis.
pub fn axis_y() -> Dir
    ensures axis { vector_of result ≡ vector (pos 0) (pos 1) (pos 0) }
    ensures small { IsAtMost 1 (vector_of result) }
{
    Dir { x: 0, y: 1, z: 0 }
}

/// The direction along the third coordinate axis.
pub fn axis_z() -> Dir
    ensures axis { vector_of result ≡ vector (pos 0) (pos 0) (pos 1) }
    ensures small { IsAtMost 1 (vector_of result) }
{
    Dir { x: 0, y: 0, z: 1 }
}

/// The direction's numbers as wide numbers.
pub fn wide(d: &Dir) -> Wide
    ensures wide { wide_vector result ≡ vector_of d.now }
{
    Wide {
        x: d.x as i128,
        y: d.y as i128,
        z: d.z as i128,
    }
}

// The plane's axis before it is divided by a common divisor.
fn axis(h: &Plane) -> (i64, i64, i64)
    ensures axis { triple_vector result ≡ plane_axis (normal_of (form_of h.now)) }
{
    if h.c == 0 && h.b == 0 {
        (0, 0, h.a)
    } else {
        (0, h.c, -h.b)
    }
}

// A direction in the plane that isn't along the plane's axis.
fn beside(h: &Plane) -> (i64, i64, i64)
    ensures beside { triple_vector result ≡ second_beside (normal_of (form_of h.now)) }
{
    if h.c == 0 {
        (h.b, -h.a, 0)
    } else {
        (-h.c, 0, h.a)
    }
}

/// The direction of the plane's normal.
pub fn plane_normal(h: &Plane) -> Dir
    ensures normal { SameDirection (normal_of (form_of h.now)) (vector_of result) }
    ensures upward { IsNormal (vector_of result) }
    ensures small { IsAtMost normal_limit (vector_of result) }
{
    Dir::reduced(h.a, h.b, h.c)
}

/// A direction in the plane: for the normal (a, b, c) it is (0, c, -b), or (-c, 0, a) where b and c are zero, divided
/// by the common divisor of its numbers.
pub fn plane_axis(h: &Plane) -> Dir
    ensures axis { SameDirection (plane_axis (normal_of (form_of h.now))) (vector_of result) }
    ensures in_plane { slope (form_of h.now) (vector_of result) ≡ pos 0 }
    ensures small { IsAtMost normal_limit (vector_of result) }
{
    let numbers = axis(h);
    Dir::reduced(numbers.0, numbers.1, numbers.2)
}

/// A direction in the plane that is parallel to no other plane, except to parallel ones: `2^24` times the axis plus
/// (-c, 0, a), or plus (b, -a, 0) where c is zero, divided by the common divisor of its numbers.
pub fn plane_dir(h: &Plane) -> Dir
    ensures dir { SameDirection (plane_dir (normal_of (form_of h.now))) (vector_of result) }
    ensures in_plane { slope (form_of h.now) (vector_of result) ≡ pos 0 }
    ensures alone { (g : Plane) → slope (form_of g) (vector_of result) ≡ pos 0 → IsParallel (normal_of (form_of g)) (normal_of (form_of h.now)) }
    ensures small { IsPlaneDirSized (vector_of result) }
{
    let first = axis(h);
    let second = beside(h);
    Dir::reduced(
        AXIS_FACTOR * first.0 + second.0,
        AXIS_FACTOR * first.1 + second.1,
        AXIS_FACTOR * first.2 + second.2,
    )
}
