//! What a ray along a plane's axis first meets; and lines of a plane along its axis, with the plane's vertices on both
//! sides. Vertices stand in order of the coordinate that is constant along the axis.

ghost use Rattle.std.specs.Prelude.{◌≡◌, ◌<◌, ◌≤◌, ◌*ℤ◌, ◌-ℤ◌, ◌↔◌};
ghost use Rattle.nef_complex.specs.Prelude.{pos, nat_abs, IsTrue, IsNone, IfSome, MatchOption, normal_limit, point_limit, weight_limit, SpacePoint, form_at, IsAhead, Form, Set, IsAtMost, IsPointAtMost, form_of, vector_of, point_of, hit_point, sign_of, upright_limit, upright_weight_limit, ratio_limit, PlaneMeet as PlainMeet, Meets, IsFirstInPlane, complex_of, meet_of, ShowsSet, LiesOn, AreNumbersWith, AreNumbersOf, AreHolders};
ghost use Rattle.nef_plane.specs.Asked.{AreItems};
ghost use Rattle.nef_plane.specs.Courses.{IsExcluding};
ghost use Rattle.nef_plane.specs.Ends.{MeetLiesIn};
ghost use Rattle.nef_plane.specs.Levels.{IsLevel, IsUnparted, IsBeforePlane, AreShortBelow, AreFarFrom, IsSwept};
ghost use Rattle.nef_plane.specs.Meets.{IsAlongAxis, IsParallelToAxis, sweep_form, HasNoSvertex, IsOffEdges, AreOpposite, IsHitThrough, NoneCrosses, far_reach_of};

use crate::course::Course;
use crate::first::{Met, PlaneRay, met_of_all, nearest_met};
use crate::places::{ends_of, holders_of, lies_in};
use crate::window::hit_span;
use nef_complex::{Complex, PlaneItems, PlaneMeet, Span};
use nef_geo::{Dir, FarHit, Hit, Plane, Point, Sign, far_hit};

// A line of a plane along the plane's axis.
pub(crate) trait Line {
    // A form through the line, whose sign tells the sides of the line.
    ghost form: { Self → Form };

    // The side of the line on which a point of the plane lies.
    fn across(&self, a: &Point) -> Sign
        ensures across { result ≡ sign_of (form_at (form self.now) (point_of a.now)) };
}

// Whether a point of the plane lies before the line or, if `on_counts`, on the line.
fn is_short<L: Line>(line: &L, on_counts: bool, a: &Point) -> bool
    ensures short { IsTrue result ↔ IsBeforePlane on_counts (form_at (L.form line.now) (point_of a.now)) }
{
    match line.across(a) {
        Sign::Minus => true,
        Sign::Zero => on_counts,
        Sign::Plus => false,
    }
}

// The number of the plane's first vertex that isn't before the line, by halving, or how many vertices there are.
pub(crate) fn first_far<L: Line>(
    c: &Complex,
    h: &Plane,
    line: &L,
    on_counts: bool,
    numbers: &[usize],
) -> usize
    requires shows { (s : Set) × ShowsSet s c.now }
    requires listed { AreNumbersWith (LiesOn c.now.vertices (form_of h.now)) numbers.now }
    requires swept { IsSwept (form_of h.now) (L.form line.now) }
    ensures short { AreShortBelow c.now.vertices (form_of h.now) (L.form line.now) on_counts result }
    ensures far { AreFarFrom c.now.vertices (form_of h.now) (L.form line.now) on_counts result }
{
    let mut low = 0;
    let mut high = numbers.len();
    while low < high {
        let middle = low + (high - low) / 2;
        if is_short(line, on_counts, &c.vertices.at(numbers[middle]).point) {
            low = middle + 1;
        } else {
            high = middle;
        }
    }
    if low < numbers.len() {
        numbers[low]
    } else {
        c.vertices.len()
    }
}

// A ray within a plane, along the plane's axis.
#[derive(Clone, Copy)]
struct AxisRay<'a> {
    plane: &'a Plane,
    start: &'a Hit,
    direction: &'a Dir,
    ghost on: { form_at (form_of plane.now) (hit_point start.now) ≡ pos 0 },
    ghost numbers: { IsPointAtMost upright_limit upright_weight_limit (hit_point start.now) },
    ghost axis: { IsParallelToAxis (form_of plane.now) (vector_of direction.now) },
    ghost small: { IsAtMost normal_limit (vector_of direction.now) },
}

// The sign of x/w - y/v.
fn ratio_sign(x: i64, w: i64, y: i128, v: i128) -> Sign
    requires x_small { nat_abs x ≤ point_limit }
    requires w_small { nat_abs w ≤ weight_limit }
    requires y_small { nat_abs y ≤ upright_limit }
    requires v_small { nat_abs v ≤ upright_weight_limit }
    ensures sign { result ≡ sign_of (x *ℤ v -ℤ y *ℤ w) }
    ensures width { nat_abs (x *ℤ v -ℤ y *ℤ w) ≤ ratio_limit }
{
    Sign::of(x as i128 * v - y * w as i128)
}

impl Line for AxisRay<'_> {
    ghost form = { λ r. sweep_form (form_of r.plane.now) (hit_point r.start.now) };

    fn across(&self, a: &Point) -> Sign {
        let p = self.start;
        if self.plane.c() == 0 && self.plane.b() == 0 {
            ratio_sign(a.y(), a.w(), p.y(), p.w())
        } else {
            ratio_sign(a.x(), a.w(), p.x(), p.w())
        }
    }
}

// Whether the plane's vertices with these numbers, in order, may lie on different sides of the line along the plane's
// axis, or both on it: vertices below `first` of its course lie before it, and those at `past` or above past it.
fn may_part(course: &Course, low: usize, high: usize) -> bool
    ensures unparted { (IsTrue result → ⊥) → IsUnparted course.now low high }
{
    if low < course.first {
        course.past <= high
    } else {
        high < course.past
    }
}

// Where the ray crosses the first of the carriers that hold two points, which are listed, that it crosses at all.
fn hit_through(carriers: &[Plane], holders: &[usize], ray: &AxisRay) -> Option<FarHit>
    requires within { AreNumbersOf carriers.now holders.now }
    ensures hit { (a b : SpacePoint) → AreHolders carriers.now a b holders.now → MatchOption result (NoneCrosses carriers.now (hit_point ray.now.start.now) (vector_of ray.now.direction.now) a b) (λ q. IsHitThrough (hit_point ray.now.start.now) (vector_of ray.now.direction.now) a b (far_reach_of q)) }
{
    for number in holders {
        if let Some(q) = far_hit(ray.start, ray.direction, &carriers[*number]) {
            return Some(q);
        }
    }
    None
}

// Whether the points lie on different sides of the ray's line, or both on the line.
fn are_parted(ray: &AxisRay, a: &Point, b: &Point) -> bool
    ensures opposite { IsTrue result ↔ AreOpposite (sweep_form (form_of ray.now.plane.now) (hit_point ray.now.start.now)) (point_of a.now) (point_of b.now) }
{
    ray.across(a) == ray.across(b).opposite()
}

impl PlaneRay for AxisRay<'_> {
    type At = FarHit;

    ghost plane = { λ r. form_of r.plane.now };

    ghost start = { λ r. hit_point r.start.now };

    ghost way = { λ r. vector_of r.direction.now };

    ghost has_course = { λ r c x. IsLevel c.vertices (form_of r.plane.now) (hit_point r.start.now) x × IsExcluding c (form_of r.plane.now) (hit_point r.start.now) (vector_of r.direction.now) x };

    ghost tells = { λ r c m. MeetLiesIn c (form_of r.plane.now) m };

    // Where the ray meets the vertex or edge, some carrier that holds both ends crosses the ray.
    fn met(&self, c: &Complex, meet: PlaneMeet) -> Option<Met<FarHit>> {
        let (low, high) = ends_of(c, meet);
        let a = &c.vertices.at(low).point;
        let b = &c.vertices.at(high).point;
        if !are_parted(self, a, b) {
            return None;
        }
        let at = hit_through(c.carriers.as_slice(), holders_of(c, meet), self)?;
        Some(Met { meet, at })
    }

    fn can_tell(&self, c: &Complex, meet: PlaneMeet) -> bool {
        lies_in(c, self.plane, meet)
    }

    // By the numbers of their ends, the course excludes most vertices and edges, which the ray doesn't meet.
    fn may_meet(&self, c: &Complex, course: &Course, meet: PlaneMeet) -> bool {
        let (low, high) = ends_of(c, meet);
        may_part(course, low, high)
    }

    fn start_span(&self) -> Option<Span> {
        hit_span(self.start)
    }

    ghost leads = { λ r. r.axis.0 };

    ghost excludes = { λ r c x y. y.1 };
}

/// The first vertex, or edge in the plane `h`, strictly ahead on the ray from `p` along `d`. `items` are those of the
/// plane; without them all vertices and edges are asked: some may lie in the plane though no vertex has an item there.
/// The direction is the plane's axis or its opposite, and the point is as `first_in_plane` wants it. `None` comes
/// exactly where none is met.
pub fn first_along_axis(
    c: &Complex,
    h: &Plane,
    items: Option<PlaneItems>,
    p: &Hit,
    d: &Dir,
) -> Option<PlaneMeet>
    requires shows { (s : Set) × ShowsSet s c.now }
    requires items { IfSome items (AreItems c.now (form_of h.now)) }
    requires on { form_at (form_of h.now) (hit_point p.now) ≡ pos 0 }
    requires off { IsOffEdges (complex_of c.now) (form_of h.now) (hit_point p.now) }
    requires numbers { IsPointAtMost upright_limit upright_weight_limit (hit_point p.now) }
    requires direction { IsAlongAxis (form_of h.now) (vector_of d.now) }
    requires no_svertex { HasNoSvertex (complex_of c.now) (hit_point p.now) (vector_of d.now) }
    ensures some { IfSome result (λ m. IsFirstInPlane (complex_of c.now) (form_of h.now) (hit_point p.now) (vector_of d.now) (meet_of m)) }
    ensures none { IsNone result → (m : PlainMeet) (q : SpacePoint) → IsAhead (hit_point p.now) (vector_of d.now) q → Meets (complex_of c.now) (form_of h.now) m q → ⊥ }
{
    let ray = AxisRay {
        plane: h,
        start: p,
        direction: d,
    };
    let met = match items {
        Some(listed) => {
            let course = Course {
                first: first_far(c, h, &ray, false, listed.vertices),
                past: first_far(c, h, &ray, true, listed.vertices),
                normal: None,
            };
            nearest_met(&ray, c, &course, listed)
        }
        None => met_of_all(&ray, c),
    };
    let first = met?;
    Some(first.meet)
}
