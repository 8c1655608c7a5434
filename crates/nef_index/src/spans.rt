//! Spans: boxes with whole numbers as bounds.

ghost use Rattle.std.specs.Prelude.{◌≡◌, ◌*ℤ◌, ◌<ℤ◌, ◌≤ℤ◌, ◌≤◌, ◌↔◌};
ghost use Rattle.nef_index.specs.Prelude.{ℕ, pos, nat_abs, List as Sequence, length, IsTrue, IfOk, point_limit, IsAt, SpacePoint, point_of, AreNumbersOf, IsInSpan, AreNarrower, IsNarrower, AreSmallBounds, HaveCommon, DoOverlap, AreNarrowerListed};

use crate::OutOfMemory;
use crate::table::Table;
use nef_geo::{List, Point};
use std::alloc::Global;

/// The bounds of a coordinate: numbers from `low` to `high`, both included.
#[derive(Clone, Copy)]
pub struct Bounds {
    pub low: i64,
    pub high: i64,
}

/// Bounds of the three coordinates of points.
#[derive(Clone, Copy)]
pub struct Span {
    pub x: Bounds,
    pub y: Bounds,
    pub z: Bounds,
}

impl Bounds {
    // The whole numbers next to x/w, below and above.
    fn of(x: i64, w: i64) -> Bounds
        requires small { nat_abs x ≤ point_limit }
        requires positive { pos 0 <ℤ w }
        ensures low { (result.low *ℤ w) ≤ℤ x }
        ensures high { x ≤ℤ (result.high *ℤ w) }
        ensures small { AreSmallBounds result }
    {
        if w == 1 {
            return Bounds { low: x, high: x };
        }
        let low = x.div_euclid(w);
        let high = if low * w == x { low } else { low + 1 };
        Bounds { low, high }
    }

    // The least bounds that have all numbers within both bounds.
    fn with(&self, other: &Bounds) -> Bounds
        ensures wider { AreNarrower self.now result }
        ensures other { AreNarrower other.now result }
    {
        Bounds {
            low: self.low.min(other.low),
            high: self.high.max(other.high),
        }
    }
}

impl Span {
    /// The span of no point.
    pub fn none() -> Span
        ensures none { (y : SpacePoint) → IsInSpan result y → ⊥ }
    {
        let none = Bounds {
            low: i64::MAX,
            high: i64::MIN,
        };
        Span {
            x: none,
            y: none,
            z: none,
        }
    }

    /// The least span of the point: the whole numbers next to its coordinates.
    pub fn of(point: &Point) -> Span
        ensures point { IsInSpan result (point_of point.now) }
        ensures small { AreSmallBounds result.x × AreSmallBounds result.y × AreSmallBounds result.z }
    {
        Span {
            x: Bounds::of(point.x(), point.w()),
            y: Bounds::of(point.y(), point.w()),
            z: Bounds::of(point.z(), point.w()),
        }
    }

    /// The least span that has all points of both spans.
    pub fn with_span(&self, other: &Span) -> Span
        ensures wider { IsNarrower self.now result }
        ensures other { IsNarrower other.now result }
    {
        Span {
            x: self.x.with(&other.x),
            y: self.y.with(&other.y),
            z: self.z.with(&other.z),
        }
    }
}

// Whether the bounds have a number in common.
fn overlap(bounds: &Bounds, others: &Bounds) -> bool
    ensures overlap { IsTrue result ↔ HaveCommon bounds.now others.now }
{
    bounds.low <= others.high && others.low <= bounds.high
}

/// Whether the spans may have a point in common: their bounds overlap in each coordinate.
pub fn may_meet(span: &Span, other: &Span) -> bool
    ensures overlap { IsTrue result ↔ DoOverlap span.now other.now }
    ensures meets { (y : SpacePoint) → IsInSpan span.now y → IsInSpan other.now y → IsTrue result }
{
    if !overlap(&span.z, &other.z) {
        return false;
    }
    if !overlap(&span.y, &other.y) {
        return false;
    }
    overlap(&span.x, &other.x)
}

// The least span that has the points of all listed spans.
fn span_of(alone: &[Span], listed: &[usize]) -> Span
    requires within { AreNumbersOf alone.now listed.now }
    ensures wide { AreNarrowerListed alone.now listed.now (length listed.now) result }
{
    let mut span = Span::none();
    for number in listed {
        span = span.with_span(&alone[*number]);
    }
    span
}

/// For each row of points' numbers a span of these points. The span of each point alone is given.
pub(crate) fn spans_of(
    alloc: Global,
    alone: &[Span],
    rows: &Table,
) -> Result<List<Span>, OutOfMemory>
    requires within { (k : ℕ) (row : Sequence ℕ) → IsAt rows.now k row → AreNumbersOf alone.now row }
    ensures as_many { IfOk result (λ v. length v ≡ length rows.now) }
    ensures spanned { IfOk result (λ v. (k : ℕ) (row : Sequence ℕ) (span : Span) → IsAt rows.now k row → IsAt v k span → AreNarrowerListed alone.now row (length row) span) }
{
    let room = Vec::with_capacity(alloc, rows.len())?;
    let mut spans = List::from_vec(room);
    for number in 0..rows.len() {
        spans.push(span_of(alone, rows.row(number)))?;
    }
    Ok(spans)
}
