//! Windows of a ray that is asked about one edge after the other: spans of all points up to what the ray met first so
//! far. The ray meets an edge no sooner if the edge's span has no point in common with the window.

ghost use Rattle.std.specs.Prelude.{◌<ℤ◌, ◌≤ℤ◌, ◌*ℤ◌};
ghost use Rattle.nef_complex.specs.Prelude.{pos, IsTrue, IfSome, SpacePoint, Set, hit_point, complex_of, ShowsSet, IsInSpan, AreAlone};
ghost use Rattle.nef_space.specs.Points.{IsBetween};
ghost use Rattle.nef_plane.specs.Ends.{HasMeet};
ghost use Rattle.nef_plane.specs.Meets.{IsMeetPoint};
ghost use Rattle.nef_plane.specs.Windows.{IsOutside};

use crate::places::ends_of;
use nef_complex::{Bounds, Complex, PlaneMeet, Span, may_meet};
use nef_geo::Hit;

// Whole numbers that bound x/w: the greatest at or below x/w, and the next. `None` says that they don't fit 64 bits.
fn bounds_of(x: i128, w: i128) -> Option<Bounds>
    requires positive { pos 0 <ℤ w }
    ensures low { IfSome result (λ b. (b.low *ℤ w) ≤ℤ x) }
    ensures high { IfSome result (λ b. x ≤ℤ (b.high *ℤ w)) }
{
    let low = i64::try_from(x.div_euclid(w)).ok()?;
    let high = low.checked_add(1)?;
    Some(Bounds { low, high })
}

// A span of the hit. `None` says that its coordinates don't fit 64 bits.
pub(crate) fn hit_span(q: &Hit) -> Option<Span>
    ensures hit { IfSome result (λ s. IsInSpan s (hit_point q.now)) }
{
    let x = bounds_of(q.x(), q.w())?;
    let y = bounds_of(q.y(), q.w())?;
    let z = bounds_of(q.z(), q.w())?;
    Some(Span { x, y, z })
}

// A span of the vertex or edge, from the spans of its ends.
fn meet_span(c: &Complex, spans: &[Span], meet: PlaneMeet) -> Span
    requires shows { (s : Set) × ShowsSet s c.now }
    requires alone { AreAlone c.now.vertices spans.now }
    requires within { HasMeet c.now meet }
    ensures meet { (y : SpacePoint) → IsMeetPoint (complex_of c.now) meet y → IsInSpan result y }
{
    let (low, high) = ends_of(c, meet);
    spans[low].with_span(&spans[high])
}

// Whether the vertex or edge may have a point within the window. Without a window each vertex and edge may.
pub(crate) fn may_lie_within(
    c: &Complex,
    spans: &[Span],
    window: &Option<Span>,
    meet: PlaneMeet,
) -> bool
    requires shows { (s : Set) × ShowsSet s c.now }
    requires alone { AreAlone c.now.vertices spans.now }
    requires within { HasMeet c.now meet }
    ensures outside { (IsTrue result → ⊥) → (y : SpacePoint) → IsMeetPoint (complex_of c.now) meet y → IsOutside window.now y }
{
    match window {
        Some(span) => may_meet(span, &meet_span(c, spans, meet)),
        None => true,
    }
}

// A span of all points between a point of the span and a point of the vertex or edge.
pub(crate) fn span_up_to(c: &Complex, spans: &[Span], from: &Span, meet: PlaneMeet) -> Span
    requires shows { (s : Set) × ShowsSet s c.now }
    requires alone { AreAlone c.now.vertices spans.now }
    requires within { HasMeet c.now meet }
    ensures between { (p y q : SpacePoint) → IsInSpan from.now p → IsMeetPoint (complex_of c.now) meet q → IsBetween p y q → IsInSpan result y }
{
    from.with_span(&meet_span(c, spans, meet))
}
