//! The candidates of a combination of two sets and of a half, and of the former those near what both sets have.
//!
//! A vertex of a combination that is a vertex of neither set is cut by a carrier that holds an edge or a facet of its own
//! set there. So cuts where the other set has nothing in the carrier that cuts may be left out; and it has something only
//! within a span of the vertices on the carrier.

ghost use Rattle.nef_cand.specs.Prelude.{ℕ, IfOk, Bool, pos, length, IsTrue, OnOk, [], MatchOption, SpacePoint, Form, InFrame, SamePoint, form_at, Set, IsVertex, IsAt, form_of, point_of, SamePlane, IsVertexOfBoth, complex_of, IsIndexed, ShowsSet, AreAlone, Edge, Vertex, Span as SpanValue, IsNarrower, IsListed, IsCutBy, AreCandidates, AreCutCandidates, AreFramed, IsNamedIn, IsNamedBetween, AddsPoints, AddsAll, CutsOne, CutsEdge, MissesFrame, AreSpannedIn, AreSpannedCarriers, AreWithinSpan, AreThoseNear, IsApart, CutsBy, CutsHeld, CutsEdgeByOne, CutsEdgeHeldOne, IsHeldCutOf, ListsCuts, ListsNear};
ghost use Rattle.std.specs.Prelude.{◌≡◌, ◌<◌, ◌≤◌, ◌<ℤ◌, ◌≤ℤ◌, ◌↔◌};

use crate::OutOfMemory;
use crate::named::{
    CandidateName, Named, Operand, merged, named_points, sort_once, together, vertices_of,
};
use nef_complex::{Complex, Span, carrier_spans, edge_holders, may_meet, point_spans};
use nef_geo::{HALF_SIDE, Plane, Point, hit_at, lex_cmp, meet, side};
use nef_locate::place_on;
use std::alloc::Global;

/// A carrier with its number, and a span of the vertices on it.
#[derive(Clone, Copy)]
pub(crate) struct Spanned {
    pub number: usize,
    pub plane: Plane,
    pub span: Span,
}

/// Whether the plane leaves the whole open frame on one side, as those of the frame's own sides do. It crosses no edge
/// then, since edges lie in the closed frame, and holds no point of the open frame.
pub fn misses_frame(h: &Plane) -> bool
    ensures misses { IsTrue result ↔ MissesFrame (form_of h.now) }
    ensures apart { IsTrue result → (y : SpacePoint) → InFrame y → form_at (form_of h.now) y ≡ pos 0 → ⊥ }
{
    let normal = h.a().unsigned_abs() + h.b().unsigned_abs() + h.c().unsigned_abs();
    HALF_SIDE.unsigned_abs() * normal <= h.d().unsigned_abs()
}

/// The carriers of the complex with their spans, but for some that cross no edge of any set.
pub(crate) fn spanned_carriers(alloc: Global, c: &Complex) -> Result<Vec<Spanned>, OutOfMemory>
    requires indexed { IsIndexed c.now }
    ensures carriers { IfOk result (λ v. AreSpannedCarriers c.now (length c.now.carriers) v.items) }
{
    let spans = carrier_spans(c);
    let mut near = Vec::with_capacity(alloc, c.carriers.len())?;
    for number in 0..c.carriers.len() {
        let plane = c.carriers.at(number);
        if !misses_frame(plane) {
            near.push(Spanned {
                number,
                plane: *plane,
                span: spans[number],
            })?;
        }
    }
    Ok(near)
}

// The point strictly inside the edge with this number where the plane crosses it.
fn crossing(c: &Complex, number: usize, h: &Plane) -> Option<Point>
    requires shows { (s : Set) × ShowsSet s c.now }
    requires within { number < length c.now.edges }
    ensures crossing { (e : Edge) → IsAt c.now.edges number e → MatchOption result ((y : SpacePoint) → CutsEdge c.now h.now e y → ⊥) (λ m. CutsEdge c.now h.now e (point_of m) × ((y : SpacePoint) → CutsEdge c.now h.now e y → SamePoint (point_of m) y)) }
{
    let edge = c.edges.at(number);
    let low = &c.vertices.at(edge.low).point;
    let high = &c.vertices.at(edge.high).point;
    if !side(h, low).is_opposite_to(side(h, high)) {
        return None;
    }
    // The first two of the carriers that hold the edge meet in its line.
    let holders = edge_holders(c, number);
    let first = c.carriers.at(holders[0]);
    let second = c.carriers.at(holders[1]);
    meet(first, second, h)
}

// Adds the points strictly inside an edge of the complex that lie on the plane, which doesn't hold the edge.
fn add_plane_cuts(
    listed: &mut Vec<Named>,
    c: &Complex,
    operand: Operand,
    h: &Plane,
) -> Result<(), OutOfMemory>
    requires shows { (s : Set) × ShowsSet s c.now }
    ensures added { OnOk result (AddsPoints (IsCutBy (complex_of c.now) (form_of h.now)) (IsNamedIn operand (complex_of c.now)) listed.old.items listed.new.items) }
{
    for number in 0..c.edges.len() {
        if let Some(point) = crossing(c, number, h) {
            let name = CandidateName::Edge(operand, number);
            listed.push(Named { point, name })?;
        }
    }
    Ok(())
}

// The points strictly inside an edge of the complex, which is that of this operand, that lie on one of the planes, which
// doesn't hold the edge.
fn plane_cuts(
    alloc: Global,
    c: &Complex,
    operand: Operand,
    planes: &[Plane],
) -> Result<Vec<Named>, OutOfMemory>
    requires shows { (s : Set) × ShowsSet s c.now }
    ensures cuts { IfOk result (λ v. AddsPoints (CutsOne (complex_of c.now) planes.now) (IsNamedIn operand (complex_of c.now)) [] v.items) }
{
    let mut listed = Vec::new(alloc);
    for h in planes {
        add_plane_cuts(&mut listed, c, operand, h)?;
    }
    Ok(listed)
}

// The point strictly inside the edge with this number where the carrier of the other complex crosses it, if that has
// something in the carrier there, and where the point lies in it.
fn held_cut(
    c: &Complex,
    operand: Operand,
    number: usize,
    other: &Complex,
    carrier: &Spanned,
) -> Option<Named>
    requires shows { (s : Set) × ShowsSet s c.now }
    requires within { number < length c.now.edges }
    requires other { (t : Set) × ShowsSet t other.now }
    requires carrier { IsAt other.now.carriers carrier.now.number carrier.now.plane }
    ensures cut { (e : Edge) → IsAt c.now.edges number e → IsHeldCutOf c.now operand other.now e carrier.now result }
{
    let point = crossing(c, number, &carrier.plane)?;
    let place = place_on(other, carrier.number, &carrier.plane, &hit_at(&point))?;
    let name = CandidateName::Cut(operand, number, place);
    Some(Named { point, name })
}

// A span as wide as all of the spans.
fn around_all(spans: &[Span]) -> Span
    ensures wide { (k : ℕ) (s : SpanValue) → IsAt spans.now k s → IsNarrower s result }
{
    let mut around = Span::none();
    for span in spans {
        around = around.with_span(span);
    }
    around
}

// A span as wide as those of all carriers.
fn around_carriers(near: &[Spanned]) -> Span
    ensures wide { AreWithinSpan near.now result }
{
    let mut around = Span::none();
    for carrier in near {
        around = around.with_span(&carrier.span);
    }
    around
}

// The carriers whose spans may have a point of this span.
fn carriers_near(alloc: Global, near: &[Spanned], span: &Span) -> Result<Vec<Spanned>, OutOfMemory>
    ensures close { IfOk result (λ v. AreThoseNear near.now span.now v.items) }
{
    let mut close = Vec::new(alloc);
    for carrier in near {
        if may_meet(&carrier.span, span) {
            close.push(*carrier)?;
        }
    }
    Ok(close)
}

// Whether an edge may reach the third span along x, by the spans of its ends, of which the low one comes first.
fn may_reach(low: &Span, high: &Span, around: &Span) -> bool
    ensures reaches { IsTrue result ↔ ((low.now.x.low ≤ℤ around.now.x.high) × (around.now.x.low ≤ℤ high.now.x.high)) }
{
    low.x.low <= around.x.high && around.x.low <= high.x.high
}

// Adds the points strictly inside the edge with this number where one of the carriers of the other complex crosses it and
// that has something in the carrier. Most carriers have it far from the edge, which the spans of its ends tell, and most
// edges of a large set lie far from all that a small one has, which x or else the span around all carriers tells.
fn add_edge_cuts(
    listed: &mut Vec<Named>,
    c: &Complex,
    operand: Operand,
    number: usize,
    ends: &[Span],
    other: &Complex,
    near: &[Spanned],
    around: &Span,
) -> Result<(), OutOfMemory>
    requires shows { (s : Set) × ShowsSet s c.now }
    requires within { number < length c.now.edges }
    requires ends { AreAlone c.now.vertices ends.now }
    requires other { (t : Set) × ShowsSet t other.now }
    requires near { AreSpannedIn other.now near.now }
    requires around { AreWithinSpan near.now around.now }
    ensures added { OnOk result ((e : Edge) → IsAt c.now.edges number e → AddsAll (CutsEdgeByOne c.now near.now e) (CutsEdgeHeldOne c.now other.now near.now e) (IsNamedBetween operand (complex_of c.now) (complex_of other.now)) listed.old.items listed.new.items) }
{
    let edge = c.edges.at(number);
    let low = &ends[edge.low];
    let high = &ends[edge.high];
    if !may_reach(low, high, around) {
        return Ok(());
    }
    let span = low.with_span(high);
    if !may_meet(&span, around) {
        return Ok(());
    }
    for carrier in near {
        if may_meet(&span, &carrier.span) {
            if let Some(cut) = held_cut(c, operand, number, other, carrier) {
                listed.push(cut)?;
            }
        }
    }
    Ok(())
}

// Whether the edge with this number lies past the span along x, and so each later one, as edges stand in order of their low
// ends.
fn is_past(c: &Complex, number: usize, ends: &[Span], around: &Span) -> bool
    requires shows { (s : Set) × ShowsSet s c.now }
    requires within { number < length c.now.edges }
    requires ends { AreAlone c.now.vertices ends.now }
    ensures past { IsTrue result → (k : ℕ) (e : Edge) → number ≤ k → IsAt c.now.edges k e → IsApart c.now e around.now }
{
    around.x.high < ends[c.edges.at(number).low].x.low
}

// Adds the points strictly inside an edge of the complex that lie on one of the carriers of the other, which doesn't hold
// the edge, but for some where the other has nothing in the carrier.
fn add_near_cuts(
    listed: &mut Vec<Named>,
    c: &Complex,
    operand: Operand,
    ends: &[Span],
    other: &Complex,
    near: &[Spanned],
) -> Result<(), OutOfMemory>
    requires shows { (s : Set) × ShowsSet s c.now }
    requires ends { AreAlone c.now.vertices ends.now }
    requires other { (t : Set) × ShowsSet t other.now }
    requires near { AreSpannedIn other.now near.now }
    ensures added { OnOk result (AddsAll (CutsBy (complex_of c.now) near.now) (CutsHeld (complex_of c.now) other.now near.now) (IsNamedBetween operand (complex_of c.now) (complex_of other.now)) listed.old.items listed.new.items) }
{
    let around = around_carriers(near);
    for number in 0..c.edges.len() {
        if is_past(c, number, ends, &around) {
            return Ok(());
        }
        add_edge_cuts(listed, c, operand, number, ends, other, near, &around)?;
    }
    Ok(())
}

// Few carriers cross more edges where they hold something, and few edges are crossed by more such carriers.
const CUTS_OF_ONE: usize = 4;

/// The points strictly inside an edge of the complex, which is that of this operand, that lie on one of the carriers of the
/// other, which doesn't hold the edge, but for some where the other has nothing in the carrier. Carriers that are more than
/// the vertices are first left out where they lie far from all vertices; of fewer carriers the edges tell that soon.
pub(crate) fn near_cuts(
    alloc: Global,
    c: &Complex,
    operand: Operand,
    other: &Complex,
    near: &[Spanned],
) -> Result<Vec<Named>, OutOfMemory>
    requires shows { (s : Set) × ShowsSet s c.now }
    requires other { (t : Set) × ShowsSet t other.now }
    requires near { AreSpannedIn other.now near.now }
    ensures cuts { IfOk result (λ v. ListsCuts operand c.now other.now near.now v.items) }
{
    let room = near.len().min(c.edges.len()).saturating_mul(CUTS_OF_ONE);
    let mut listed = Vec::with_capacity(alloc, room)?;
    let ends = point_spans(c);
    if near.len() <= ends.len() {
        add_near_cuts(&mut listed, c, operand, ends, other, near)?;
    } else {
        let close = carriers_near(alloc, near, &around_all(ends))?;
        add_near_cuts(&mut listed, c, operand, ends, other, close.as_slice())?;
    }
    // Only speed needs the order: what is sorted is merged with the other candidates, which is cheap.
    listed.sort_unstable_by(|m, n| lex_cmp(&m.point, &n.point));
    Ok(listed)
}

/// The near candidates of the two complexes: the vertices of both, and of the points where an edge of the one crosses a
/// carrier of the other those where the other has something in the carrier. They are some of those of `candidates`, in the
/// same order, each with a vertex that it is, or an edge strictly inside which it lies, of one complex, and in the latter
/// case with its place in the other. All vertices of the intersection, the union, the difference and the symmetric difference of the sets are among
/// them. The one error is that memory ran out.
pub fn near_candidates(alloc: Global, a: &Complex, b: &Complex) -> Result<Vec<Named>, OutOfMemory>
    requires first { (s : Set) × ShowsSet s a.now }
    requires second { (t : Set) × ShowsSet t b.now }
    ensures lists { IfOk result (λ v. ListsNear a.now b.now v.items) }
{
    let of_a = spanned_carriers(alloc, a)?;
    let of_b = spanned_carriers(alloc, b)?;
    let inside_a = near_cuts(alloc, a, Operand::First, b, of_b.as_slice())?;
    let inside_b = near_cuts(alloc, b, Operand::Second, a, of_a.as_slice())?;
    together(alloc, a, b, inside_a.as_slice(), inside_b.as_slice())
}

/// The vertices of both complexes, and the points strictly inside an edge of the one that lie on a carrier of the other
/// which doesn't hold the edge, in increasing order, once each. All lie in the closed frame. All vertices of the
/// intersection, the union, the difference and the symmetric difference of the sets are among them. The one error is
/// that memory ran out.
pub fn candidates(alloc: Global, a: &Complex, b: &Complex) -> Result<Vec<Point>, OutOfMemory>
    requires first { (s : Set) × ShowsSet s a.now }
    requires second { (t : Set) × ShowsSet t b.now }
    ensures exactly { IfOk result (λ v. AreCandidates (complex_of a.now) (complex_of b.now) v.items) }
    ensures framed { IfOk result (λ v. AreFramed v.items) }
    ensures complete { IfOk result (λ v. (s t : Set) (y : SpacePoint) → ShowsSet s a.now → ShowsSet t b.now → IsVertexOfBoth s t y → IsListed v.items y) }
{
    let inside_a = plane_cuts(alloc, a, Operand::First, b.carriers.as_slice())?;
    let inside_b = plane_cuts(alloc, b, Operand::Second, a.carriers.as_slice())?;
    let listed = together(alloc, a, b, inside_a.as_slice(), inside_b.as_slice())?;
    let points = named_points(alloc, listed.as_slice())?;
    Ok(points)
}

/// The vertices of the complex, and the points strictly inside an edge of it that lie on the plane, which doesn't hold
/// the edge, in increasing order, once each. All lie in the closed frame. Where the complex shows the whole frame, all
/// vertices of a half that the plane bounds are among them. The one error is that memory ran out.
pub fn cut_candidates(alloc: Global, c: &Complex, h: &Plane) -> Result<Vec<Point>, OutOfMemory>
    requires shows { (s : Set) × ShowsSet s c.now }
    ensures exactly { IfOk result (λ v. AreCutCandidates (complex_of c.now) (form_of h.now) v.items) }
    ensures framed { IfOk result (λ v. AreFramed v.items) }
    ensures frame { IfOk result (λ v. (f : Form) (closed : Bool) (y : SpacePoint) → SamePlane (form_of h.now) f → ShowsSet Set.full c.now → IsVertex (Set.half f closed) y → IsListed v.items y) }
{
    let mut inside = Vec::new(alloc);
    add_plane_cuts(&mut inside, c, Operand::First, h)?;
    let vertices = vertices_of(alloc, c, Operand::First)?;
    let mut listed = merged(alloc, vertices.as_slice(), inside.as_slice())?;
    sort_once(&mut listed)?;
    let points = named_points(alloc, listed.as_slice())?;
    Ok(points)
}
