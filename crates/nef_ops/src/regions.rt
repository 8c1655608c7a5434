//! Regions of the frame far from a set's skeleton, in each of which the set has one label.

ghost use Rattle.std.specs.Prelude.{◌≡◌, ◌≤◌, ◌<◌, ◌↔◌, ◌⊎◌, [], pos};
ghost use Rattle.nef_complex.specs.Prelude.{ℕ, length, IfSome, IsNone, IsTrue, InFrame, Set, SpacePoint, point_of, Point as PlainPoint, IsAt, coordinate_of, IsInSpan, IsIndexed, ShowsSet};
ghost use Rattle.nef_complex.specs.declared.complex.Complex.{Complex as ShownComplex};
ghost use Rattle.nef_index.specs.declared.spans.Span.{Span as ShownSpan};
ghost use Rattle.nef_ops.specs.declared.regions.Region.{Region as PlainRegion};
ghost use Rattle.nef_ops.specs.Far.{axis_coordinate, HoldsSkeleton, IsPast, IsPastEnd, IsWithinEnd, AreHeldBySpan, IsFar, IsUniformIn, AreTold, IsTold, many_points};

use nef_cand::misses_frame;
use nef_complex::{Complex, Span, carrier_spans};
use nef_geo::{Label, Point, wide_product};
use nef_locate::{locate, place_label};

/// With fewer points regions don't pay: looking for all six costs as much as a small operation.
const MANY_POINTS: usize = 64;

/// One of the three coordinates.
#[derive(Clone, Copy)]
enum Axis {
    X,
    Y,
    Z,
}

/// Past which end of a span: below its low end or above its high end.
#[derive(Clone, Copy)]
enum SpanEnd {
    Below,
    Above,
}

/// A side of a span: past it lie the points whose coordinate along `axis` is strictly below, or above, `end`.
#[derive(Clone, Copy)]
struct SpanSide {
    axis: Axis,
    way: SpanEnd,
    end: i64,
}

// The number of the point for this axis, which is its coordinate times its weight.
fn coordinate(point: &Point, axis: Axis) -> i64
    ensures coordinate { result ≡ coordinate_of (axis_coordinate axis) (point_of point.now) }
{
    match axis {
        Axis::X => point.x(),
        Axis::Y => point.y(),
        Axis::Z => point.z(),
    }
}

// Whether n/w lies strictly past the end.
fn is_past(way: SpanEnd, end: i64, n: i64, w: i64) -> bool
    ensures past { IsTrue result ↔ IsPastEnd way end n w }
{
    match way {
        SpanEnd::Below => (n as i128) < wide_product(end, w),
        SpanEnd::Above => wide_product(end, w) < n as i128,
    }
}

impl SpanSide {
    // Whether the point lies strictly past the side.
    fn has(&self, point: &Point) -> bool
        ensures past { IsTrue result ↔ IsPast self.now (point_of point.now) }
    {
        is_past(self.way, self.end, coordinate(point, self.axis), point.w())
    }
}

/// A span of the skeleton within the open frame: of the vertices on all carriers with a point in the open frame. The
/// planes of the frame's own sides have no such point, and vertices from one end of the frame to the other.
pub(crate) fn core_span(c: &Complex) -> Span
    requires indexed { IsIndexed c.now }
    ensures core { HoldsSkeleton c.now result }
{
    let mut core = Span::none();
    let spans = carrier_spans(c);
    for number in 0..spans.len() {
        if !misses_frame(c.carriers.at(number)) {
            core = core.with_span(&spans[number]);
        }
    }
    core
}

/// The points of the open frame past a side of a span, and the set's label at these points, if the label is known.
#[derive(Clone, Copy)]
pub(crate) struct Region {
    side: SpanSide,
    label: Option<Label>,
}

/// The regions past the six sides of a span of the set's skeleton within the open frame.
pub(crate) type Regions = [Region; 6];

// The low end of a span along an axis, or the high end.
fn end_of(span: &Span, axis: Axis, way: SpanEnd) -> i64
    ensures end { (p : SpacePoint) → IsInSpan span.now p → IsWithinEnd way result (coordinate_of (axis_coordinate axis) p) (pos p.w) }
{
    match (axis, way) {
        (Axis::X, SpanEnd::Below) => span.x.low,
        (Axis::X, SpanEnd::Above) => span.x.high,
        (Axis::Y, SpanEnd::Below) => span.y.low,
        (Axis::Y, SpanEnd::Above) => span.y.high,
        (Axis::Z, SpanEnd::Below) => span.z.low,
        (Axis::Z, SpanEnd::Above) => span.z.high,
    }
}

// The region past an end of `core` along an axis, with its label if one of the points lies in the region. Points past the
// end lie in `other`, so that mostly no point needs to be looked at.
fn region_past(
    c: &Complex,
    axis: Axis,
    way: SpanEnd,
    core: &Span,
    other: &Span,
    points: &[Point],
) -> Region
    requires shows { (s : Set) × ShowsSet s c.now }
    requires core { HoldsSkeleton c.now core.now }
    requires held { AreHeldBySpan c.now other.now points.now }
    ensures told { IsTold c.now result }
    ensures none { IsNone result.label → (k : ℕ) (p : PlainPoint) → IsAt points.now k p → IsFar result.side (point_of p) → ⊥ }
{
    let end = end_of(core, axis, way);
    let side = SpanSide { axis, way, end };
    if !is_past(way, end, end_of(other, axis, way), 1) {
        return Region { side, label: None };
    }
    for point in points {
        if side.has(point) && point.in_frame() {
            let label = place_label(c, &locate(c, point));
            return Region {
                side,
                label: Some(label),
            };
        }
    }
    Region { side, label: None }
}

impl Region {
    // The region's label, if the label is known and the point, which is a point of the open frame, lies in the region.
    fn label_at(&self, point: &Point) -> Option<Label>
        requires framed { InFrame (point_of point.now) }
        ensures told { (c : ShownComplex) → IsTold c self.now → IfSome result (IsUniformIn c (point_of point.now)) }
        ensures none { IsNone result → IsFar self.now.side (point_of point.now) → IsNone self.now.label }
    {
        if self.side.has(point) {
            self.label
        } else {
            None
        }
    }
}

// The points that are looked at: all where there are many, and else none.
fn asked_of(points: &[Point]) -> &[Point]
    ensures held { (c : ShownComplex) (span : ShownSpan) → AreHeldBySpan c span points.now → AreHeldBySpan c span result.now }
    ensures asked { (result.now ≡ points.now) ⊎ ((result.now ≡ []) × (length points.now < many_points)) }
{
    if points.len() < MANY_POINTS {
        &points[..0]
    } else {
        points
    }
}

/// The regions past the sides of `core`, a span of the complex's skeleton within the open frame. Where there are many
/// points, each region in which a point lies gets its label. Points off the skeleton lie within `other`.
pub(crate) fn regions_of(c: &Complex, core: &Span, other: &Span, points: &[Point]) -> Regions
    requires shows { (s : Set) × ShowsSet s c.now }
    requires core { HoldsSkeleton c.now core.now }
    requires held { AreHeldBySpan c.now other.now points.now }
    ensures told { AreTold c.now result }
    ensures many { many_points ≤ length points.now → (i k : ℕ) (r : PlainRegion) (p : PlainPoint) → IsAt result i r → IsAt points.now k p → IsFar r.side (point_of p) → IsNone r.label → ⊥ }
{
    let asked = asked_of(points);
    [
        region_past(c, Axis::X, SpanEnd::Below, core, other, asked),
        region_past(c, Axis::X, SpanEnd::Above, core, other, asked),
        region_past(c, Axis::Y, SpanEnd::Below, core, other, asked),
        region_past(c, Axis::Y, SpanEnd::Above, core, other, asked),
        region_past(c, Axis::Z, SpanEnd::Below, core, other, asked),
        region_past(c, Axis::Z, SpanEnd::Above, core, other, asked),
    ]
}

/// The label of the set at the point and close to it, where a region that holds the point has a label.
pub(crate) fn label_among(regions: &[Region], point: &Point) -> Option<Label>
    ensures told { (c : ShownComplex) → AreTold c regions.now → IfSome result (IsUniformIn c (point_of point.now)) }
    ensures none { IsNone result → (k : ℕ) (r : PlainRegion) → IsAt regions.now k r → IsFar r.side (point_of point.now) → IsNone r.label }
{
    if !point.in_frame() {
        return None;
    }
    for region in regions {
        if let Some(label) = region.label_at(point) {
            return Some(label);
        }
    }
    None
}
