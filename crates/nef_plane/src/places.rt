//! The ends of a vertex or an edge that a ray may meet, the carriers that hold both ends, and whether a hit is a vertex
//! or lies on an edge. A vertex is both of its ends.
//!
//! A hit's numbers may be too large for products with a vertex's numbers. The carriers tell instead: at least three
//! carriers of a vertex meet in the vertex alone, and at least two carriers of an edge meet in its line.

ghost use Rattle.std.specs.Prelude.{◌<◌, ◌↔◌};
ghost use Rattle.nef_complex.specs.Prelude.{length, IsTrue, IsAt, SpacePoint, Set, form_of, point_of, hit_point, IsVertexPoint, IsEdgePoint, complex_of, IsIndexed, ShowsSet, AreNumbersOf, AreHolders};
ghost use Rattle.nef_index.specs.declared.skeleton.Edge.{Edge};
ghost use Rattle.nef_complex.specs.declared.complex.Vertex.{Vertex};
ghost use Rattle.nef_plane.specs.Amid.{AllSideWith, AllThrough};
ghost use Rattle.nef_plane.specs.Ends.{HasMeet, MeetLiesIn, AreEnds, HasEndsAt};
ghost use Rattle.nef_plane.specs.Meets.{IsMeetPoint};

use nef_complex::{Complex, PlaneMeet, edge_holders, holds, vertex_holders};
use nef_geo::{Hit, Plane, Point, Sign, hit_side, side};

// The numbers of the vertices at the ends of this vertex or edge.
pub(crate) fn ends_of(c: &Complex, meet: PlaneMeet) -> (usize, usize)
    requires shows { (s : Set) × ShowsSet s c.now }
    requires within { HasMeet c.now meet }
    ensures ends { AreEnds c.now meet result.0 result.1 }
    ensures low { result.0 < length c.now.vertices }
    ensures high { result.1 < length c.now.vertices }
{
    match meet {
        PlaneMeet::AtVertex(number) => (number, number),
        PlaneMeet::AtEdge(number) => {
            let edge = c.edges.at(number);
            (edge.low, edge.high)
        }
    }
}

// The numbers of the carriers that hold both ends of this vertex or edge.
pub(crate) fn holders_of(c: &Complex, meet: PlaneMeet) -> &[usize]
    requires indexed { IsIndexed c.now }
    requires within { HasMeet c.now meet }
    ensures holders { (u v : Vertex) → HasEndsAt c.now meet u v → AreHolders c.now.carriers (point_of u.point) (point_of v.point) result.now }
{
    match meet {
        PlaneMeet::AtVertex(number) => vertex_holders(c, number),
        PlaneMeet::AtEdge(number) => edge_holders(c, number),
    }
}

// Whether this vertex or edge lies in the plane: the plane holds both ends.
pub(crate) fn lies_in(c: &Complex, h: &Plane, meet: PlaneMeet) -> bool
    requires shows { (s : Set) × ShowsSet s c.now }
    requires within { HasMeet c.now meet }
    ensures lies { IsTrue result ↔ MeetLiesIn c.now (form_of h.now) meet }
{
    let (low, high) = ends_of(c, meet);
    let a = &c.vertices.at(low).point;
    let b = &c.vertices.at(high).point;
    holds(h, a) && holds(h, b)
}

// Whether q lies on b's side of each carrier that holds some point, which are listed, or on the carrier where b does.
fn sides_with(carriers: &[Plane], holders: &[usize], b: &Point, q: &Hit) -> bool
    requires within { AreNumbersOf carriers.now holders.now }
    ensures sides { (a : SpacePoint) → AreHolders carriers.now a a holders.now → (IsTrue result ↔ AllSideWith carriers.now a (point_of b.now) (hit_point q.now)) }
{
    for number in holders {
        let h = &carriers[*number];
        if hit_side(h, q) != side(h, b) {
            return false;
        }
    }
    true
}

// Whether each listed carrier holds the hit. The list has the carriers that hold two points.
fn are_through(carriers: &[Plane], holders: &[usize], q: &Hit) -> bool
    requires within { AreNumbersOf carriers.now holders.now }
    ensures through { (a b : SpacePoint) → AreHolders carriers.now a b holders.now → (IsTrue result ↔ AllThrough carriers.now a b (hit_point q.now)) }
{
    for number in holders {
        if hit_side(&carriers[*number], q) != Sign::Zero {
            return false;
        }
    }
    true
}

/// Whether the hit lies on the line of the edge with this number: each carrier that holds both ends holds the hit.
pub fn is_in_line(c: &Complex, number: usize, q: &Hit) -> bool
    requires shows { (s : Set) × ShowsSet s c.now }
    requires within { number < length c.now.edges }
    ensures line { (e : Edge) (u v : Vertex) → IsAt c.now.edges number e → IsAt c.now.vertices e.low u → IsAt c.now.vertices e.high v → (IsTrue result ↔ AllThrough c.now.carriers (point_of u.point) (point_of v.point) (hit_point q.now)) }
{
    are_through(c.carriers.as_slice(), edge_holders(c, number), q)
}

/// Whether the hit is at the vertex with this number: exactly where each carrier that holds the vertex holds the hit.
pub fn is_at_vertex(c: &Complex, number: usize, q: &Hit) -> bool
    requires shows { (s : Set) × ShowsSet s c.now }
    requires within { number < length c.now.vertices }
    ensures at { IsTrue result ↔ IsVertexPoint (complex_of c.now) number (hit_point q.now) }
{
    let point = &c.vertices.at(number).point;
    sides_with(c.carriers.as_slice(), vertex_holders(c, number), point, q)
}

/// Whether the hit lies strictly between the ends of the edge with this number: exactly where it lies on the other
/// end's side of each carrier that holds one end, and on each carrier that holds both ends. Carriers that hold both
/// ends are asked first, since they exclude most edges.
pub fn is_on_edge(c: &Complex, number: usize, q: &Hit) -> bool
    requires shows { (s : Set) × ShowsSet s c.now }
    requires within { number < length c.now.edges }
    ensures on { IsTrue result ↔ IsEdgePoint (complex_of c.now) number (hit_point q.now) }
{
    if !is_in_line(c, number, q) {
        return false;
    }
    let edge = c.edges.at(number);
    let low = &c.vertices.at(edge.low).point;
    let high = &c.vertices.at(edge.high).point;
    let carriers = c.carriers.as_slice();
    let at_low = vertex_holders(c, edge.low);
    let at_high = vertex_holders(c, edge.high);
    sides_with(carriers, at_low, high, q) && sides_with(carriers, at_high, low, q)
}

// Whether the hit is at this vertex, or lies strictly inside this edge.
pub(crate) fn is_at(c: &Complex, meet: PlaneMeet, q: &Hit) -> bool
    requires shows { (s : Set) × ShowsSet s c.now }
    requires within { HasMeet c.now meet }
    ensures at { IsTrue result ↔ IsMeetPoint (complex_of c.now) meet (hit_point q.now) }
{
    match meet {
        PlaneMeet::AtVertex(number) => is_at_vertex(c, number, q),
        PlaneMeet::AtEdge(number) => is_on_edge(c, number, q),
    }
}
