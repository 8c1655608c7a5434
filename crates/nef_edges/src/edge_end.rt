//! The ends of edges, and the moments of their lines. The line through p along d has the moment p x d, divided by p's
//! weight: the direction and the moment are the same for all points of the line, and determine the line.

ghost use Rattle.std.specs.Prelude.{◌≡◌, ◌≤◌, ◌-ℤ◌, ◌*ℤ◌, ◌<ℤ◌};
ghost use Rattle.nef_complex.specs.Prelude.{pos, nat_abs, direction_limit, point_limit};
ghost use Rattle.nef_edges.specs.Moments.{line_key_of, product_of, sum_of, whole_of};
ghost use Rattle.nef_edges.specs.Widths.{moment_limit};

use nef_geo::{Dir, Point};

/// An end of an edge: a svertex of a vertex. `dir` leads along the edge toward the later vertex: the svertex's
/// direction where the edge leads on from this vertex, and the opposite direction where the edge arrives here. `key` is
/// the line's key, kept since each end is compared many times.
#[derive(Clone, Copy)]
pub(crate) struct EdgeEnd {
    pub(crate) point: Point,
    pub(crate) dir: Dir,
    pub(crate) key: i64,
    pub(crate) vertex: usize,
    pub(crate) svertex: usize,
    pub(crate) ghost is_key: { key ≡ line_key_of point dir },
}

impl EdgeEnd {
    /// The end at this point with this direction, and with the key of its line.
    pub(crate) fn of(point: Point, dir: Dir, vertex: usize, svertex: usize) -> EdgeEnd
        ensures point { result.point ≡ point }
        ensures dir { result.dir ≡ dir }
        ensures vertex { result.vertex ≡ vertex }
        ensures svertex { result.svertex ≡ svertex }
    {
        EdgeEnd {
            point,
            dir,
            key: line_key(&point, &dir),
            vertex,
            svertex,
        }
    }
}

/// The difference a f - b e.
pub(crate) fn minor(a: i64, b: i64, e: i64, f: i64) -> i128
    requires a_small { nat_abs a ≤ point_limit }
    requires b_small { nat_abs b ≤ point_limit }
    requires e_small { nat_abs e ≤ direction_limit }
    requires f_small { nat_abs f ≤ direction_limit }
    ensures minor { result ≡ a *ℤ f -ℤ b *ℤ e }
    ensures small { nat_abs result ≤ moment_limit }
{
    a as i128 * f as i128 - b as i128 * e as i128
}

/// The numbers of p x d, where p is the point and d the direction.
pub(crate) fn product(point: &Point, dir: &Dir) -> (i128, i128, i128)
    ensures x { result.0 ≡ (product_of point.now dir.now).x }
    ensures y { result.1 ≡ (product_of point.now dir.now).y }
    ensures z { result.2 ≡ (product_of point.now dir.now).z }
    ensures x_small { nat_abs result.0 ≤ moment_limit }
    ensures y_small { nat_abs result.1 ≤ moment_limit }
    ensures z_small { nat_abs result.2 ≤ moment_limit }
{
    (
        minor(point.y(), point.z(), dir.y(), dir.z()),
        minor(point.z(), point.x(), dir.z(), dir.x()),
        minor(point.x(), point.y(), dir.x(), dir.y()),
    )
}

// n/w rounded down, and clamped to 64 bits. Most n have 64 bits, and are divided sooner.
fn whole(n: i128, w: i64) -> i64
    requires positive { pos 0 <ℤ w }
    ensures whole { result ≡ whole_of n w }
{
    if let Ok(short) = i64::try_from(n) {
        return short.div_euclid(w);
    }
    let floor = n.div_euclid(w as i128);
    floor.clamp(i64::MIN as i128, i64::MAX as i128) as i64
}

// A sum of multiples of the numbers of p x d that few lines share. Moments of lines through the frame have numbers of
// at most 2^49 in size, so their sums fit 64 bits.
fn product_sum(point: &Point, dir: &Dir) -> i128
    ensures sum { result ≡ sum_of point.now dir.now }
{
    let (x, y, z) = product(point, dir);
    x + 61 * y + 3721 * z
}

/// The key of the line through the point along the direction: a sum of multiples of the moment's numbers, rounded down.
/// All points of a line give one key, and few lines share it.
pub(crate) fn line_key(point: &Point, dir: &Dir) -> i64
    ensures key { result ≡ line_key_of point.now dir.now }
{
    whole(product_sum(point, dir), point.w())
}
