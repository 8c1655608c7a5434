//! What of the skeleton lies at a point of a carrier. Vertices are numbered in the order of points, so the numbers
//! alone exclude most vertices and edges.

ghost use Rattle.std.specs.Prelude.{◌≡◌, ◌≤◌, ◌*ℤ◌, ◌<ℤ◌, ◌*◌, ◌<◌, ◌≤ℤ◌, ◌↔◌};
ghost use Rattle.nef_complex.specs.Prelude.{ℕ, pos, length, IsNone, IfSome, nat_abs, IfOk, IfErr, IsTrue, MatchOption, IsAt, Form, InClosedFrame, form_at, SamePoint, IsPointBelow, Set, IsPointAtMost, form_of, hit_point, point_of, upright_limit, upright_weight_limit, IsEdgePoint, IsVertexPoint, complex_of, ShowsSet, AreNumbersWith, EdgeLiesIn, LiesOn, IsSkeletonIn, MatchOrdering, point_limit, weight_limit, half_side, IsInSpan};
ghost use Rattle.law_geometry.specs.complex.Spans.{coordinate_y, coordinate_z};
ghost use Rattle.nef_index.specs.Peaks.{ArePeaks};
ghost use Rattle.nef_locate.specs.Frames.{IsFramedIn, LiesBetween};
ghost use Rattle.nef_locate.specs.Orders.{PartsOn, AreThroughEnds};
ghost use Rattle.nef_locate.specs.Rays.{IsSkeletonAt};

use crate::facet::in_facet_among;
use crate::point::Place;
use nef_complex::{Bounds, Complex, PlaneItems, Span, carrier_items, carrier_spans, point_spans};
use nef_geo::{HALF_SIDE, Hit, Plane, Point};
use nef_plane::is_in_line;
use std::cmp::Ordering;

// Whether n/w lies within the bounds and within the closed frame's bounds. Products are cheaper than a quotient. A bound
// beyond the frame is clamped to a number at or just past the frame's border, so that products stay small.
fn lies_between(n: i128, w: i128, bounds: &Bounds) -> bool
    requires w_small { nat_abs w ≤ upright_weight_limit }
    requires positive { pos 0 <ℤ w }
    ensures between { IsTrue result ↔ LiesBetween bounds.now n w }
{
    let low = bounds.low.clamp(-HALF_SIDE, HALF_SIDE + 1);
    if n < low as i128 * w {
        return false;
    }
    let high = bounds.high.clamp(-HALF_SIDE - 1, HALF_SIDE);
    n <= high as i128 * w
}

// Whether the hit lies within the span, and within the closed frame's bounds, in y and in z.
fn is_in_sides(q: &Hit, span: &Span) -> bool
    requires numbers { IsPointAtMost upright_limit upright_weight_limit (hit_point q.now) }
    ensures sides { IsTrue result ↔ (IsFramedIn coordinate_y span.now.y (hit_point q.now) × IsFramedIn coordinate_z span.now.z (hit_point q.now)) }
{
    if !lies_between(q.y(), q.w(), &span.y) {
        return false;
    }
    lies_between(q.z(), q.w(), &span.z)
}

// Whether the hit lies in the closed frame and within the span.
pub(crate) fn is_in_span(q: &Hit, span: &Span) -> bool
    requires numbers { IsPointAtMost upright_limit upright_weight_limit (hit_point q.now) }
    ensures spanned { IsTrue result ↔ (InClosedFrame (hit_point q.now) × IsInSpan span.now (hit_point q.now)) }
{
    if !lies_between(q.x(), q.w(), &span.x) {
        return false;
    }
    is_in_sides(q, span)
}

// Compares x/w with y/v.
fn ratio_cmp(x: i64, w: i64, y: i128, v: i128) -> Ordering
    requires x_small { nat_abs x ≤ point_limit }
    requires w_small { nat_abs w ≤ weight_limit }
    requires y_small { nat_abs y ≤ upright_limit }
    requires v_small { nat_abs v ≤ upright_weight_limit }
    ensures order { MatchOrdering result ((x *ℤ v) <ℤ (y *ℤ w)) (x *ℤ v ≡ y *ℤ w) ((y *ℤ w) <ℤ (x *ℤ v)) }
{
    (x as i128 * v).cmp(&(y * w as i128))
}

// Compares a point with a hit by their first coordinates, then by the second, then by the third.
fn hit_cmp(p: &Point, q: &Hit) -> Ordering
    requires numbers { IsPointAtMost upright_limit upright_weight_limit (hit_point q.now) }
    ensures order { MatchOrdering result (IsPointBelow (point_of p.now) (hit_point q.now)) (SamePoint (point_of p.now) (hit_point q.now)) (IsPointBelow (hit_point q.now) (point_of p.now)) }
{
    match ratio_cmp(p.x(), p.w(), q.x(), q.w()) {
        Ordering::Equal => match ratio_cmp(p.y(), p.w(), q.y(), q.w()) {
            Ordering::Equal => ratio_cmp(p.z(), p.w(), q.z(), q.w()),
            Ordering::Less => Ordering::Less,
            Ordering::Greater => Ordering::Greater,
        },
        Ordering::Less => Ordering::Less,
        Ordering::Greater => Ordering::Greater,
    }
}

// The number of the vertex at the hit, by halving, where `numbers` are the vertices on a plane. If no vertex of the
// plane stands at the hit, `Err` has the number of the plane's first vertex after the hit, or else how many vertices
// there are: the plane's vertices with smaller numbers come before the hit, and the others after it.
fn find_among(c: &Complex, numbers: &[usize], q: &Hit) -> Result<usize, usize>
    requires shows { (s : Set) × ShowsSet s c.now }
    requires listed { (h : Form) × AreNumbersWith (LiesOn c.now.vertices h) numbers.now }
    requires numbers { IsPointAtMost upright_limit upright_weight_limit (hit_point q.now) }
    ensures found { IfOk result (λ k. IsVertexPoint (complex_of c.now) k (hit_point q.now)) }
    ensures parts { IfErr result (λ n. (h : Form) → AreNumbersWith (LiesOn c.now.vertices h) numbers.now → PartsOn c.now.vertices h (hit_point q.now) n) }
{
    let mut low = 0;
    let mut high = numbers.len();
    while low < high {
        let middle = low + (high - low) / 2;
        let number = numbers[middle];
        match hit_cmp(&c.vertices.at(number).point, q) {
            Ordering::Less => low = middle + 1,
            Ordering::Equal => return Ok(number),
            Ordering::Greater => high = middle,
        }
    }
    if low < numbers.len() {
        Err(numbers[low])
    } else {
        Err(c.vertices.len())
    }
}

// Whether the hit, a point of the closed frame, lies on the line of the edge with this number, and within the span of
// the edge's ends in y and in z. Most edges that pass over a point in x lie beside the point.
fn is_along(c: &Complex, number: usize, q: &Hit) -> bool
    requires shows { (s : Set) × ShowsSet s c.now }
    requires within { number < length c.now.edges }
    requires framed { InClosedFrame (hit_point q.now) }
    requires numbers { IsPointAtMost upright_limit upright_weight_limit (hit_point q.now) }
    ensures on { IsEdgePoint (complex_of c.now) number (hit_point q.now) → IsTrue result }
    ensures line { IsTrue result → AreThroughEnds c.now number (hit_point q.now) }
{
    let edge = c.edges.at(number);
    let spans = point_spans(c);
    let ends = spans[edge.low].with_span(&spans[edge.high]);
    if !is_in_sides(q, &ends) {
        return false;
    }
    is_in_line(c, number, q)
}

// The edge on which the hit lies, of the edges in a plane. The plane's vertices with numbers below `next` come before
// the hit, the others after it: so the edge's lower end is below number `next`, and its upper end isn't.
fn edge_among(c: &Complex, items: &PlaneItems, q: &Hit, next: usize) -> Option<usize>
    requires shows { (s : Set) × ShowsSet s c.now }
    requires framed { InClosedFrame (hit_point q.now) }
    requires numbers { IsPointAtMost upright_limit upright_weight_limit (hit_point q.now) }
    requires parts { (h : Form) × AreNumbersWith (EdgeLiesIn c.now.vertices c.now.edges h) items.now.edges.now × PartsOn c.now.vertices h (hit_point q.now) next }
    requires peaks { ArePeaks c.now.edges items.now.edges.now items.now.peaks.now }
    ensures edge { MatchOption result ((i k : ℕ) → IsAt items.now.edges.now i k → IsEdgePoint (complex_of c.now) k (hit_point q.now) → ⊥) (λ k. IsEdgePoint (complex_of c.now) k (hit_point q.now)) }
{
    let count = items.edges_before(c, next);
    let mut place = items.last_reaching(c, count, next);
    while 0 < place {
        let number = items.edges[place - 1];
        if is_along(c, number, q) {
            return Some(number);
        }
        place = items.last_reaching(c, place - 1, next);
    }
    None
}

// What lies at a point of the carrier, where no vertex stands: an edge in the carrier, or a facet in the carrier. The
// carrier's vertices with numbers below `next` come before the point, and the others after it.
pub(crate) fn place_beside_vertices(
    c: &Complex,
    number: usize,
    h: &Plane,
    q: &Hit,
    next: usize,
) -> Option<Place>
    requires shows { (s : Set) × ShowsSet s c.now }
    requires number { IsAt c.now.carriers number h.now }
    requires framed { InClosedFrame (hit_point q.now) }
    requires on { form_at (form_of h.now) (hit_point q.now) ≡ pos 0 }
    requires parts { PartsOn c.now.vertices (form_of h.now) (hit_point q.now) next }
    requires numbers { IsPointAtMost upright_limit upright_weight_limit (hit_point q.now) }
    ensures at { IfSome result (IsSkeletonAt (complex_of c.now) (hit_point q.now)) }
    ensures none { IsNone result → (s : Set) → ShowsSet s c.now → IsSkeletonIn s (complex_of c.now) (form_of h.now) (hit_point q.now) → ⊥ }
{
    let items = carrier_items(c, number);
    if let Some(edge) = edge_among(c, &items, q, next) {
        return Some(Place::OnEdge(edge));
    }
    // each facet has items in its plane
    if !*c.has_item.at(number) {
        return None;
    }
    let corner = in_facet_among(c, h, items, q)?;
    Some(Place::InFacet(corner))
}

/// What lies at a point of the carrier with this number: a vertex, or an edge or a facet in the carrier. The point's
/// first three numbers are at most `2^86` in size and its w at most `2^73`. Where `None` comes, the point is no vertex,
/// and lies on no edge and in no facet in the carrier. No memory is taken.
pub fn place_on(c: &Complex, number: usize, h: &Plane, q: &Hit) -> Option<Place>
    requires shows { (s : Set) × ShowsSet s c.now }
    requires number { IsAt c.now.carriers number h.now }
    requires on { form_at (form_of h.now) (hit_point q.now) ≡ pos 0 }
    requires numbers { IsPointAtMost upright_limit upright_weight_limit (hit_point q.now) }
    ensures at { IfSome result (IsSkeletonAt (complex_of c.now) (hit_point q.now)) }
    ensures none { IsNone result → (s : Set) → ShowsSet s c.now → IsSkeletonIn s (complex_of c.now) (form_of h.now) (hit_point q.now) → ⊥ }
{
    // what the carrier holds of the skeleton lies in the closed frame, and within the carrier's span
    if !is_in_span(q, &carrier_spans(c)[number]) {
        return None;
    }
    match find_among(c, carrier_items(c, number).vertices, q) {
        Ok(vertex) => Some(Place::Vertex(vertex)),
        Err(next) => place_beside_vertices(c, number, h, q, next),
    }
}
