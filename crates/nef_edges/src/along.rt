//! Whether one point lies along a direction from another.

ghost use Rattle.std.specs.Prelude.{◌≡◌, ◌≤◌, ◌-ℤ◌, ◌*ℤ◌};
ghost use Rattle.nef_edges.specs.Prelude.{nat_abs, direction_limit, point_limit, IsTrue, point_of, toward, cross, IsZero, vector_of, moment_limit};
ghost use Rattle.nef_space.specs.Prelude.{vector};

use crate::edge_end::minor;
use nef_geo::{Dir, Point};

// b - a. Inlined, the result is seen to have 64 bits, so that its products are those of machine words.
#[inline(always)]
fn step(a: i64, b: i64) -> i128
    requires a_small { nat_abs a ≤ point_limit }
    requires b_small { nat_abs b ≤ point_limit }
    ensures step { result ≡ b -ℤ a }
    ensures small { nat_abs result ≤ moment_limit }
{
    (b - a) as i128
}

#[inline(always)]
fn scaled(n: i128, m: i64) -> i128
    requires n_small { nat_abs n ≤ moment_limit }
    requires m_small { nat_abs m ≤ direction_limit }
    ensures scaled { result ≡ n *ℤ m }
{
    n * m as i128
}

// Whether a : b = e : f.
#[inline(always)]
fn is_flat(a: i128, b: i128, e: i64, f: i64) -> bool
    requires a_small { nat_abs a ≤ moment_limit }
    requires b_small { nat_abs b ≤ moment_limit }
    requires e_small { nat_abs e ≤ direction_limit }
    requires f_small { nat_abs f ≤ direction_limit }
    ensures flat { IsTrue result → a *ℤ f ≡ b *ℤ e }
{
    scaled(a, f) == scaled(b, e)
}

// Whether x : y : z are as the direction's numbers.
#[inline(always)]
fn is_multiple(x: i128, y: i128, z: i128, dir: &Dir) -> bool
    requires x_small { nat_abs x ≤ moment_limit }
    requires y_small { nat_abs y ≤ moment_limit }
    requires z_small { nat_abs z ≤ moment_limit }
    ensures multiple { IsTrue result → IsZero (cross (vector x y z) (vector_of dir.now)) }
{
    if !is_flat(x, y, dir.x(), dir.y()) {
        return false;
    }
    if !is_flat(y, z, dir.y(), dir.z()) {
        return false;
    }
    is_flat(z, x, dir.z(), dir.x())
}

// As `is_along`, for any two points, whose differences may have more than 64 bits.
#[inline(never)]
fn is_along_way(p: &Point, dir: &Dir, q: &Point) -> bool
    ensures along { IsTrue result → IsZero (cross (toward (point_of p.now) (point_of q.now)) (vector_of dir.now)) }
{
    let (v, w) = (q.w(), p.w());
    let x = minor(q.x(), p.x(), v, w);
    let y = minor(q.y(), p.y(), v, w);
    let z = minor(q.z(), p.z(), v, w);
    is_multiple(x, y, z, dir)
}

/// Whether q lies on the line through p along the direction: the cross product of q - p and the direction is zero.
pub(crate) fn is_along(p: &Point, dir: &Dir, q: &Point) -> bool
    ensures along { IsTrue result → IsZero (cross (toward (point_of p.now) (point_of q.now)) (vector_of dir.now)) }
{
    if p.w() != q.w() {
        return is_along_way(p, dir, q);
    }
    let x = step(p.x(), q.x());
    let y = step(p.y(), q.y());
    let z = step(p.z(), q.z());
    is_multiple(x, y, z, dir)
}
