//! Questions about a plane, by its four numbers, and a point or a vertex.
//!
//! - `facet PLANE POINT`: the facet of the plane in which the point lies.
//! - `ray PLANE POINT`, `back PLANE POINT`: the vertex or edge that the ray from the point along the plane's axis, or
//! back along the axis, meets first in the plane.
//! - `along PLANE NUMBER`: what the ray from the vertex along the plane's second direction meets first in the plane, by
//! the call that looks up the vertex at a point.
//! - `from PLANE NUMBER`: what this ray meets by the call that gets the vertex, which need not lie on the plane.
//! - `against PLANE NUMBER`: what the ray against the plane's second direction meets, by the call that gets the vertex.

ghost use Rattle.std.specs.Prelude.{◌≡◌, ◌<◌};
ghost use Rattle.nef_complex.specs.Prelude.{ℕ, pos, length, false, IsTrue, IfSome, normal_limit, InClosedFrame, form_at, Set, IsAtMost, IsPointAtMost, form_of, vector_of, point_of, hit_point, upright_limit, upright_weight_limit, IsAt, IsOnEdges, IsEdgePoint, complex_of, ShowsSet};
ghost use Rattle.nef_smap.specs.declared.map.SVertex.{SVertex};
ghost use Rattle.nef_plane.specs.Meets.{HasNoSvertex, IsAlongAxis};
ghost use Rattle.tests_places.specs.Clear.{IsClearVertex};

use crate::places::{add_edge, add_facet};
use crate::words::{numbers, plane, point};
use nef_complex::{Complex, PlaneMeet, plane_items};
use nef_geo::{Dir, Hit, Plane, Point, Sign, hit_at, hit_side, plane_axis, plane_dir};
use nef_locate::{Place, in_facet, locate};
use nef_plane::{first_along_dir, first_in_plane, is_at_vertex, is_on_edge};
use nef_smap::SphereMap;

// Whether the point lies strictly on no edge.
fn is_off_edges(c: &Complex, p: &Hit) -> bool
    requires shows { (s : Set) × ShowsSet s c.now }
    ensures off { IsTrue result → (k : ℕ) → IsEdgePoint (complex_of c.now) k (hit_point p.now) → ⊥ }
{
    for number in 0..c.edges.len() {
        if is_on_edge(c, number, p) {
            return false;
        }
    }
    true
}

fn is_same(a: &Dir, d: &Dir) -> bool
    ensures other { result ≡ false → a.now ≡ d.now → ⊥ }
{
    *a == *d
}

fn has_svertex(map: &SphereMap, d: &Dir) -> bool
    ensures none { result ≡ false → (j : ℕ) (u : SVertex) → IsAt map.now.svertices j u → u.dir ≡ d.now → ⊥ }
{
    for svertex in map.svertices.as_slice() {
        if is_same(&svertex.dir, d) {
            return true;
        }
    }
    false
}

fn is_clear_vertex(c: &Complex, number: usize, p: &Hit, d: &Dir) -> bool
    requires shows { (s : Set) × ShowsSet s c.now }
    requires within { number < length c.now.vertices }
    ensures clear { IsTrue result → IsClearVertex c.now (hit_point p.now) d.now number }
{
    !is_at_vertex(c, number, p) || !has_svertex(&c.vertices.at(number).map, d)
}

fn has_no_svertex(c: &Complex, p: &Hit, d: &Dir) -> bool
    requires shows { (s : Set) × ShowsSet s c.now }
    ensures none { IsTrue result → HasNoSvertex (complex_of c.now) (hit_point p.now) (vector_of d.now) }
{
    for number in 0..c.vertices.len() {
        if !is_clear_vertex(c, number, p, d) {
            return false;
        }
    }
    true
}

// The direction of the plane's axis, or of the way back along the axis.
fn axis(h: &Plane, back: bool) -> Dir
    ensures axis { IsAlongAxis (form_of h.now) (vector_of result) }
    ensures small { IsAtMost normal_limit (vector_of result) }
{
    if back {
        plane_axis(h).back()
    } else {
        plane_axis(h)
    }
}

// What the ray along the plane's axis, or back along the axis, meets first, if the ray may be asked.
fn met_along_axis(c: &Complex, h: &Plane, p: &Hit, back: bool) -> Option<Option<PlaneMeet>>
    requires shows { (s : Set) × ShowsSet s c.now }
    requires numbers { IsPointAtMost upright_limit upright_weight_limit (hit_point p.now) }
{
    let d = axis(h, back);
    if hit_side(h, p) == Sign::Zero && is_off_edges(c, p) && has_no_svertex(c, p, &d) {
        Some(first_in_plane(c, h, p, &d))
    } else {
        None
    }
}

// What the ray from a vertex along the plane's second direction meets first, if the ray may be asked. A vertex that is
// looked up has to lie on the plane.
fn met_from_vertex(
    c: &Complex,
    h: &Plane,
    vertex: usize,
    looked_up: bool,
) -> Option<Option<PlaneMeet>>
    requires shows { (s : Set) × ShowsSet s c.now }
    requires within { vertex < length c.now.vertices }
{
    let d = plane_dir(h);
    let p = hit_at(&c.vertices.at(vertex).point);
    if !has_no_svertex(c, &p, &d) {
        return None;
    }
    if !looked_up {
        return Some(first_along_dir(c, h, plane_items(c, h), vertex, &d));
    }
    if hit_side(h, &p) == Sign::Zero && is_at_vertex(c, vertex, &p) {
        Some(first_in_plane(c, h, &p, &d))
    } else {
        None
    }
}

// What the ray from a vertex against the plane's second direction meets first, if the ray may be asked.
fn met_against(c: &Complex, h: &Plane, vertex: usize) -> Option<Option<PlaneMeet>>
    requires shows { (s : Set) × ShowsSet s c.now }
    requires within { vertex < length c.now.vertices }
{
    let d = plane_dir(h);
    let e = d.back();
    let p = hit_at(&c.vertices.at(vertex).point);
    if has_no_svertex(c, &p, &e) {
        Some(first_along_dir(c, h, plane_items(c, h), vertex, &e))
    } else {
        None
    }
}

// Whether the point is no vertex and lies on no edge.
fn is_off_skeleton(c: &Complex, p: &Point) -> bool
    requires shows { (s : Set) × ShowsSet s c.now }
    requires framed { InClosedFrame (point_of p.now) }
    ensures off { IsTrue result → IsOnEdges (complex_of c.now) (point_of p.now) → ⊥ }
{
    match locate(c, p) {
        Place::Vertex(_) => false,
        Place::OnEdge(_) => false,
        Place::InFacet(_) => true,
        Place::InVolume { .. } => true,
    }
}

// The point, if it lies on the plane, but on no vertex and on no edge, so that a facet of the plane may hold the point.
fn inside(c: &Complex, h: &Plane, p: &Point) -> Option<Hit>
    requires shows { (s : Set) × ShowsSet s c.now }
    requires framed { InClosedFrame (point_of p.now) }
    ensures on { IfSome result (λ q. form_at (form_of h.now) (hit_point q) ≡ pos 0) }
    ensures framed { IfSome result (λ q. InClosedFrame (hit_point q)) }
    ensures off { IfSome result (λ q. IsOnEdges (complex_of c.now) (hit_point q) → ⊥) }
    ensures numbers { IfSome result (λ q. IsPointAtMost upright_limit upright_weight_limit (hit_point q)) }
{
    let q = hit_at(p);
    if hit_side(h, &q) == Sign::Zero && is_off_skeleton(c, p) {
        Some(q)
    } else {
        None
    }
}

// Adds the facet of the plane in which the point lies.
fn add_corner(text: &mut String, c: &Complex, h: &Plane, p: &Point) -> Option<()>
    requires shows { (s : Set) × ShowsSet s c.now }
    requires framed { InClosedFrame (point_of p.now) }
{
    let Some(q) = inside(c, h, p) else {
        return None;
    };
    match in_facet(c, h, &q) {
        Some(corner) => add_facet(text, c, &corner),
        None => text.push_str("none").ok(),
    }
}

// Adds the vertex or edge that a ray meets first, where the ray may be asked.
fn add_meet(text: &mut String, c: &Complex, met: Option<Option<PlaneMeet>>) -> Option<()> {
    match met? {
        Some(PlaneMeet::AtVertex(number)) => write!(text, "vertex {number}").ok(),
        Some(PlaneMeet::AtEdge(number)) => add_edge(text, c, number),
        None => text.push_str("none").ok(),
    }
}

pub(crate) fn add_in_plane(text: &mut String, c: &Complex, verb: &str, words: &str) -> Option<()>
    requires shows { (s : Set) × ShowsSet s c.now }
{
    let (h, p) = (plane(words)?, point(words, 4)?);
    match verb {
        "facet" => add_corner(text, c, &h, &p),
        "ray" => add_meet(text, c, met_along_axis(c, &h, &hit_at(&p), false)),
        "back" => add_meet(text, c, met_along_axis(c, &h, &hit_at(&p), true)),
        _ => None,
    }
}

pub(crate) fn add_from_vertex(text: &mut String, c: &Complex, verb: &str, words: &str) -> Option<()>
    requires shows { (s : Set) × ShowsSet s c.now }
{
    let h = plane(words)?;
    let number = usize::try_from(numbers(words, 4)?[0]).ok()?;
    if number >= c.vertices.len() {
        return None;
    }
    match verb {
        "along" => add_meet(text, c, met_from_vertex(c, &h, number, true)),
        "from" => add_meet(text, c, met_from_vertex(c, &h, number, false)),
        "against" => add_meet(text, c, met_against(c, &h, number)),
        _ => None,
    }
}
