//! The facet of a plane in which a point lies.

ghost use Rattle.nef_complex.specs.Prelude.{ℕ, length, pos, Some, IsTrue, IsNone, IfSome, form_at, normal_of, InClosedFrame, Set, SameDirection, dot, Item, item_normal, IsPointAtMost, form_of, vector_of, hit_point, upright_limit, upright_weight_limit, Corner as PlainCorner, IsCorner, IsFlatIn, PlaneMeet as PlainMeet, Meets, IsCornerAt, HasCorner, complex_of, corner_of, meet_of, vertex_of, ShowsSet};
ghost use Rattle.nef_plane.specs.Asked.{AreItems};
ghost use Rattle.std.specs.Prelude.{MatchOption, ◌≡◌, ◌<◌, ◌⊎◌, ◌↔◌};
ghost use Rattle.law_geometry.specs.complex.Complexes.{Vertex as PlainVertex};
ghost use Rattle.nef_locate.specs.Facets.{IsArcBeside, HasMet};

use nef_complex::{Complex, Corner, PlaneItems, PlaneMeet, Vertex, plane_items};
use nef_geo::{Dir, Hit, Plane, Sign, plane_axis, plane_normal, triple};
use nef_plane::first_along_axis;
use nef_smap::SArc;

// Whether the arc has the normal and leaves the svertex to the side that `turn` tells, from the svertex to a direction.
fn leaves_on(arc: &SArc, svertex: usize, normal: &Dir, turn: Sign) -> bool
    ensures leaves { IsTrue result ↔ (SameDirection (vector_of arc.now.normal) (vector_of normal.now) × (((arc.now.source ≡ svertex) × (turn ≡ Sign.Plus)) ⊎ ((arc.now.target ≡ svertex) × (turn ≡ Sign.Minus)))) }
{
    arc.normal.is_same(normal)
        && match turn {
            Sign::Plus => arc.source == svertex,
            Sign::Zero => false,
            Sign::Minus => arc.target == svertex,
        }
}

// The number of the arc with the normal that leaves the svertex to the side to which the direction points.
fn arc_beside(vertex: &Vertex, svertex: usize, normal: &Dir, d: &Dir) -> Option<usize>
    requires within { svertex < length vertex.now.map.svertices }
    ensures arc { MatchOption result ((k : ℕ) → IsArcBeside (vertex_of vertex.now) svertex (vector_of normal.now) (vector_of d.now) k → ⊥) (IsArcBeside (vertex_of vertex.now) svertex (vector_of normal.now) (vector_of d.now)) }
{
    let turn = triple(normal, &vertex.map.svertices.at(svertex).dir, d);
    for (number, arc) in vertex.map.arcs.as_slice().iter().enumerate() {
        if leaves_on(arc, svertex, normal, turn) {
            return Some(number);
        }
    }
    None
}

/// The corner of the plane `h` next to what a ray met, along a direction of the plane: the vertex's item of the plane
/// on which the direction lies, or the arc of the plane at the edge's lower end on the side to which the direction
/// points. `None` comes exactly where there is no such corner.
pub fn corner_toward(c: &Complex, h: &Plane, d: &Dir, met: PlaneMeet) -> Option<Corner>
    requires shows { (s : Set) × ShowsSet s c.now }
    requires met { HasMet (complex_of c.now) (meet_of met) }
    requires level { dot (normal_of (form_of h.now)) (vector_of d.now) ≡ pos 0 }
    ensures corner { MatchOption result ((k : PlainCorner) → IsCornerAt (complex_of c.now) (form_of h.now) (vector_of d.now) (meet_of met) k → ⊥) (λ k. IsCornerAt (complex_of c.now) (form_of h.now) (vector_of d.now) (meet_of met) (corner_of k)) }
{
    let normal = plane_normal(h);
    match met {
        PlaneMeet::AtVertex(vertex) => {
            let item = c.vertices.at(vertex).map.item_through(&normal, d)?;
            Some(Corner { vertex, item })
        }
        PlaneMeet::AtEdge(number) => {
            let edge = c.edges.at(number);
            let vertex = edge.low;
            let item = arc_beside(c.vertices.at(vertex), edge.low_svertex, &normal, d)?;
            Some(Corner { vertex, item })
        }
    }
}

// As `in_facet`, where the plane's edges and vertices are known.
pub(crate) fn in_facet_among(c: &Complex, h: &Plane, items: PlaneItems, p: &Hit) -> Option<Corner>
    requires shows { (s : Set) × ShowsSet s c.now }
    requires items { AreItems c.now (form_of h.now) items }
    requires framed { InClosedFrame (hit_point p.now) }
    requires on { form_at (form_of h.now) (hit_point p.now) ≡ pos 0 }
    requires off { (m : PlainMeet) → Meets (complex_of c.now) (form_of h.now) m (hit_point p.now) → ⊥ }
    requires numbers { IsPointAtMost upright_limit upright_weight_limit (hit_point p.now) }
    ensures flat { IfSome result (λ k. (s : Set) → ShowsSet s c.now → IsFlatIn s (form_of h.now) (hit_point p.now)) }
    ensures corner { IfSome result (λ k. HasCorner (complex_of c.now) (hit_point p.now) (corner_of k)) }
    ensures plane { IfSome result (λ k. (v : PlainVertex) (x : Item) → IsCorner (complex_of c.now) (corner_of k) v x → SameDirection (item_normal x) (normal_of (form_of h.now))) }
    ensures none { IsNone result → (s : Set) → ShowsSet s c.now → IsFlatIn s (form_of h.now) (hit_point p.now) → ⊥ }
{
    // a ray from a point of a facet stays in the facet up to the first vertex or edge of the plane, which has an item
    // on this side; and from such an item the facet reaches back to the point
    let axis = plane_axis(h);
    let met = first_along_axis(c, h, Some(items), p, &axis)?;
    corner_toward(c, h, &axis.back(), met)
}

/// The corner of the plane's facet in which the point lies. The point lies on the plane and in the closed frame, is no
/// vertex and lies on no edge in the plane; its first three numbers are at most `2^86` in size and its w at most
/// `2^73`. `None` comes exactly where the point lies in no facet, so also where an edge crosses the plane. No memory is
/// taken.
pub fn in_facet(c: &Complex, h: &Plane, p: &Hit) -> Option<Corner>
    requires shows { (s : Set) × ShowsSet s c.now }
    requires framed { InClosedFrame (hit_point p.now) }
    requires on { form_at (form_of h.now) (hit_point p.now) ≡ pos 0 }
    requires off { (m : PlainMeet) → Meets (complex_of c.now) (form_of h.now) m (hit_point p.now) → ⊥ }
    requires numbers { IsPointAtMost upright_limit upright_weight_limit (hit_point p.now) }
    ensures flat { IfSome result (λ k. (s : Set) → ShowsSet s c.now → IsFlatIn s (form_of h.now) (hit_point p.now)) }
    ensures corner { IfSome result (λ k. HasCorner (complex_of c.now) (hit_point p.now) (corner_of k)) }
    ensures plane { IfSome result (λ k. (v : PlainVertex) (x : Item) → IsCorner (complex_of c.now) (corner_of k) v x → SameDirection (item_normal x) (normal_of (form_of h.now))) }
    ensures none { IsNone result → (s : Set) → ShowsSet s c.now → IsFlatIn s (form_of h.now) (hit_point p.now) → ⊥ }
{
    in_facet_among(c, h, plane_items(c, h)?, p)
}
