//! What a ray from a vertex, or a ray within a plane, first meets: a vertex, or an edge in the plane.

ghost use Rattle.std.specs.Prelude.{◌≡◌, ◌<◌, ◌↔◌};
ghost use Rattle.nef_complex.specs.Prelude.{length, pos, IsTrue, IsNone, IfSome, SpacePoint, slope, IsAhead, form_at, Set, IsAtMost, form_of, vector_of, point_of, hit_point, ray_limit, upright_limit, upright_weight_limit, PlaneMeet as PlainMeet, Meets, IsFirstInPlane, IsVertexPoint, complex_of, meet_of, ShowsSet, AreNumbersOf, AreHolders, IsPointAtMost};
ghost use Rattle.nef_plane.specs.Asked.{AreItems};
ghost use Rattle.nef_plane.specs.Courses.{IsCourse, IsExcluding};
ghost use Rattle.nef_plane.specs.Ends.{IsVertexOrLies};
ghost use Rattle.nef_plane.specs.Meets.{HasNoSvertex, FromVertex, HoldsRay, IsHitThrough, AllHold, IsBetweenOrAt, reach_of, IsWithinDirection, IsAlongAxis, IsOffEdges};

use crate::course::{Course, VertexRay, may_pass};
use crate::first::{Met, PlaneRay, met_of_all, nearest_met};
use crate::places::{ends_of, holders_of, is_at, is_at_vertex, lies_in};
use crate::plane::first_along_axis;
use nef_complex::{Complex, PlaneItems, PlaneMeet, Span, plane_items};
use nef_geo::{Dir, Hit, Plane, Sign, dir_side, plane_axis, ray_hit, side};

fn is_along(g: &Plane, d: &Dir) -> bool
    ensures along { IsTrue result ↔ (slope (form_of g.now) (vector_of d.now) ≡ pos 0) }
{
    dir_side(g, d) == Sign::Zero
}

// Whether the plane holds the ray.
fn is_held(ray: &VertexRay) -> bool
    ensures holds { IsTrue result ↔ HoldsRay (form_of ray.now.plane.now) (point_of ray.now.start.now) (vector_of ray.now.direction.now) }
{
    side(ray.plane, ray.start) == Sign::Zero && is_along(ray.plane, ray.direction)
}

// Where the ray crosses the first of the carriers that hold two points, which are listed, that isn't along the ray.
fn crossed_at(carriers: &[Plane], holders: &[usize], ray: &VertexRay) -> Option<Hit>
    requires within { AreNumbersOf carriers.now holders.now }
    ensures through { (a b : SpacePoint) → AreHolders carriers.now a b holders.now → IfSome result (λ q. IsHitThrough (point_of ray.now.start.now) (vector_of ray.now.direction.now) a b (reach_of q)) }
    ensures none { (a b : SpacePoint) → AreHolders carriers.now a b holders.now → IsNone result → (y : SpacePoint) → IsAhead (point_of ray.now.start.now) (vector_of ray.now.direction.now) y → IsBetweenOrAt a b y → AllHold carriers.now (vector_of ray.now.direction.now) a b }
{
    for number in holders {
        let g = &carriers[*number];
        if !is_along(g, ray.direction) {
            return ray_hit(ray.start, ray.direction, g);
        }
    }
    None
}

impl PlaneRay for VertexRay<'_> {
    type At = Hit;

    ghost plane = { λ r. form_of r.plane.now };

    ghost start = { λ r. point_of r.start.now };

    ghost way = { λ r. vector_of r.direction.now };

    ghost has_course = { λ r c x. IsCourse c.vertices (form_of r.plane.now) r.start.now (vector_of r.direction.now) x × IsExcluding c (form_of r.plane.now) (point_of r.start.now) (vector_of r.direction.now) x };

    ghost tells = { λ r c m. IsVertexOrLies c (form_of r.plane.now) m };

    fn met(&self, c: &Complex, meet: PlaneMeet) -> Option<Met<Hit>> {
        let at = crossed_at(c.carriers.as_slice(), holders_of(c, meet), self)?;
        if is_at(c, meet, &at) {
            Some(Met { meet, at })
        } else {
            None
        }
    }

    // Each vertex serves, even one off the plane.
    fn can_tell(&self, c: &Complex, meet: PlaneMeet) -> bool {
        match meet {
            PlaneMeet::AtVertex(_) => true,
            PlaneMeet::AtEdge(_) => lies_in(c, self.plane, meet),
        }
    }

    // By the numbers of their ends, the course excludes most vertices and edges, which the ray doesn't meet.
    fn may_meet(&self, c: &Complex, course: &Course, meet: PlaneMeet) -> bool {
        let (low, high) = ends_of(c, meet);
        if !course.may_reach(low, high) {
            return false;
        }
        let a = &c.vertices.at(low).point;
        let b = &c.vertices.at(high).point;
        may_pass(&course.normal, self.start, a, b)
    }

    fn start_span(&self) -> Option<Span> {
        Some(Span::of(self.start))
    }

    ghost leads = { λ r. r.direction.now.some };

    ghost excludes = { λ r c x y. y.1 };
}

/// The first vertex, or edge in the plane `h`, strictly ahead on the ray from the vertex with this number along `d`.
/// `items` are those of the plane; without them all vertices and edges are asked. The entries of `d` are at most `2^36`
/// in size, as those of `plane_dir`, and no svertex of the vertex points along `d`. `None` comes exactly where there is
/// none.
pub fn first_along_dir(
    c: &Complex,
    h: &Plane,
    items: Option<PlaneItems>,
    vertex: usize,
    d: &Dir,
) -> Option<PlaneMeet>
    requires shows { (s : Set) × ShowsSet s c.now }
    requires items { IfSome items (AreItems c.now (form_of h.now)) }
    requires within { vertex < length c.now.vertices }
    requires small { IsAtMost ray_limit (vector_of d.now) }
    requires no_svertex { FromVertex (complex_of c.now) vertex (λ p. HasNoSvertex (complex_of c.now) p (vector_of d.now)) }
    ensures some { IfSome result (λ m. FromVertex (complex_of c.now) vertex (λ p. IsFirstInPlane (complex_of c.now) (form_of h.now) p (vector_of d.now) (meet_of m))) }
    ensures none { IsNone result → FromVertex (complex_of c.now) vertex (λ p. (m : PlainMeet) (q : SpacePoint) → IsAhead p (vector_of d.now) q → Meets (complex_of c.now) (form_of h.now) m q → ⊥) }
{
    let ray = VertexRay {
        plane: h,
        start: &c.vertices.at(vertex).point,
        direction: d,
    };
    let held = is_held(&ray);
    let met = match items {
        Some(listed) if held => {
            let course = Course::of(c, &ray, vertex, listed.vertices);
            nearest_met(&ray, c, &course, listed)
        }
        _ => met_of_all(&ray, c),
    };
    let first = met?;
    Some(first.meet)
}

// Whether the direction is that of the plane's axis, or the opposite direction.
fn is_along_axis(h: &Plane, d: &Dir) -> bool
    ensures along { IsTrue result ↔ IsAlongAxis (form_of h.now) (vector_of d.now) }
{
    let axis = plane_axis(h);
    d.is_same(&axis) || d.is_same(&axis.back())
}

// The number of the vertex at the point, where the direction is neither the plane's axis nor its opposite.
fn vertex_off_axis(c: &Complex, h: &Plane, p: &Hit, d: &Dir) -> Option<usize>
    requires shows { (s : Set) × ShowsSet s c.now }
    requires direction { IsWithinDirection (complex_of c.now) (form_of h.now) (hit_point p.now) (vector_of d.now) }
    ensures some { IfSome result (λ k. (k < length c.now.vertices) × IsVertexPoint (complex_of c.now) k (hit_point p.now)) }
    ensures none { IsNone result → IsAlongAxis (form_of h.now) (vector_of d.now) }
{
    if is_along_axis(h, d) {
        return None;
    }
    for number in 0..c.vertices.len() {
        if is_at_vertex(c, number, p) {
            return Some(number);
        }
    }
    None
}

/// The first vertex, or edge in the plane `h`, strictly ahead on the ray from `p` along `d`. The point lies on the
/// plane, strictly inside no edge in the plane; its first three numbers are at most `2^86` in size and its w at most
/// `2^73`. The direction is the plane's axis or its opposite, or, from a vertex, the plane's second direction or its
/// opposite. No svertex of a vertex at `p` points along `d`. `None` comes exactly where none is met. No memory is
/// taken.
pub fn first_in_plane(c: &Complex, h: &Plane, p: &Hit, d: &Dir) -> Option<PlaneMeet>
    requires shows { (s : Set) × ShowsSet s c.now }
    requires on { form_at (form_of h.now) (hit_point p.now) ≡ pos 0 }
    requires off { IsOffEdges (complex_of c.now) (form_of h.now) (hit_point p.now) }
    requires numbers { IsPointAtMost upright_limit upright_weight_limit (hit_point p.now) }
    requires direction { IsWithinDirection (complex_of c.now) (form_of h.now) (hit_point p.now) (vector_of d.now) }
    requires no_svertex { HasNoSvertex (complex_of c.now) (hit_point p.now) (vector_of d.now) }
    ensures some { IfSome result (λ m. IsFirstInPlane (complex_of c.now) (form_of h.now) (hit_point p.now) (vector_of d.now) (meet_of m)) }
    ensures none { IsNone result → (m : PlainMeet) (q : SpacePoint) → IsAhead (hit_point p.now) (vector_of d.now) q → Meets (complex_of c.now) (form_of h.now) m q → ⊥ }
{
    let items = plane_items(c, h);
    match vertex_off_axis(c, h, p, d) {
        Some(number) => first_along_dir(c, h, items, number, d),
        None => first_along_axis(c, h, items, p, d),
    }
}
