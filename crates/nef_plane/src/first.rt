//! What a ray first meets of a plane's vertices and edges, or of all.

ghost use Rattle.std.specs.Prelude.{◌≡◌, ◌<◌, ◌≤◌};
ghost use Rattle.nef_complex.specs.Prelude.{ℕ, length, IsTrue, IfSome, SpacePoint, Form, SamePoint, IsAhead, Set, Vector, IsDirection, complex_of, ShowsSet, AreNumbersWith, LiesOn, IsAt, MatchOrdering, PlaneMeet as PlainMeet, IsInSpan, AreAlone};
ghost use Rattle.nef_complex.specs.declared.complex.Complex.{Complex as ComplexValue};
ghost use Rattle.nef_complex.specs.declared.complex.PlaneMeet.{PlaneMeet as PlaneMeetValue};
ghost use Rattle.nef_plane.specs.declared.course.Course.{Course as CourseValue};
ghost use Rattle.nef_plane.specs.Asked.{meet_at, count_in, AreItems};
ghost use Rattle.nef_plane.specs.Courses.{IsExcluding};
ghost use Rattle.nef_plane.specs.Ends.{HasMeet, MeetLiesIn};
ghost use Rattle.nef_plane.specs.Windows.{IsOutside, IsWindowTo};
ghost use Rattle.nef_plane.specs.Meets.{AtMeet, AtSome, AtSomeVertex, AtSomeEdge, AtVertexOrEdge, IsMissed, IsNearest, met_of, Reach, reach_of, far_reach_of, IsReachedAt, IsReachedEncounter, IsNearer};

use crate::course::Course;
use crate::window::{may_lie_within, span_up_to};
use nef_complex::{Complex, PlaneItems, PlaneMeet, Span, point_spans};
use nef_geo::{FarHit, Hit, far_order, hit_order};
use std::cmp::Ordering;

// The vertex or edge that a ray meets, and the hit there.
#[derive(Clone, Copy, Drop)]
pub(crate) struct Met<H> {
    pub(crate) meet: PlaneMeet,
    pub(crate) at: H,
}

// A hit of a ray, with the step at which the hit lies on the ray.
pub(crate) trait Stepped: Copy + Drop {
    ghost reach: { Self → Reach };

    // Which of two hits of one ray is nearer to the ray's start.
    fn order(&self, other: &Self) -> Ordering
        ensures along { (p : SpacePoint) (d : Vector) → IsDirection d → IsReachedAt p d (reach self.now) → IsReachedAt p d (reach other.now) → MatchOrdering result (IsAhead (reach self.now).place d (reach other.now).place) (SamePoint (reach self.now).place (reach other.now).place) (IsAhead (reach other.now).place d (reach self.now).place) };
}

impl Stepped for Hit {
    ghost reach = { reach_of };

    fn order(&self, other: &Hit) -> Ordering {
        hit_order(self, other)
    }
}

impl Stepped for FarHit {
    ghost reach = { far_reach_of };

    fn order(&self, other: &FarHit) -> Ordering {
        far_order(self, other)
    }
}

// The nearer of two things that a ray meets; the first one where both are met at one point.
fn nearer<H: Stepped>(one: Option<Met<H>>, other: Option<Met<H>>) -> Option<Met<H>>
    ensures nearer { (p : SpacePoint) (d : Vector) → IsDirection d → IfSome one (λ x. IsReachedEncounter p d (met_of H.reach x)) → IfSome other (λ x. IsReachedEncounter p d (met_of H.reach x)) → IsNearer (met_of H.reach) d one other result }
{
    match (one, other) {
        (Some(x), Some(y)) => match x.at.order(&y.at) {
            Ordering::Less => Some(x),
            Ordering::Equal => Some(x),
            Ordering::Greater => Some(y),
        },
        (None, y) => y,
        (x, None) => x,
    }
}

// A ray that is asked about one vertex or edge at a time. Where its plane holds the ray and the plane's items are
// listed, a course excludes most vertices and edges without a look at carriers.
pub(crate) trait PlaneRay {
    type At: Stepped;

    ghost plane: { Self → Form };

    ghost start: { Self → SpacePoint };

    ghost way: { Self → Vector };

    // The course is one of the ray in the complex.
    ghost has_course: { Self → ComplexValue → CourseValue → Type 0 };

    // The ray can tell where it meets this vertex or edge.
    ghost tells: { Self → ComplexValue → PlaneMeetValue → Type 0 };

    // Where the ray meets this vertex, or the inside of this edge in the plane.
    fn met(&self, c: &Complex, meet: PlaneMeet) -> Option<Met<Self::At>>
        requires shows { (s : Set) × ShowsSet s c.now }
        requires told { tells self.now c.now meet }
        ensures nearest { IsNearest (met_of Self.At.reach) (start self.now) (way self.now) (AtMeet (complex_of c.now) (plane self.now) (way self.now) meet) result };

    // Whether the ray can tell where it meets this vertex or edge. The ray meets no vertex or edge where it can't tell.
    fn can_tell(&self, c: &Complex, meet: PlaneMeet) -> bool
        requires shows { (s : Set) × ShowsSet s c.now }
        requires within { HasMeet c.now meet }
        ensures told { IsTrue result → tells self.now c.now meet }
        ensures off { (IsTrue result → ⊥) → IsMissed (start self.now) (way self.now) (AtMeet (complex_of c.now) (plane self.now) (way self.now) meet) };

    // Whether the ray may meet this vertex or edge of the plane. If so, the ray can tell where.
    fn may_meet(&self, c: &Complex, course: &Course, meet: PlaneMeet) -> bool
        requires shows { (s : Set) × ShowsSet s c.now }
        requires course { has_course self.now c.now course.now }
        requires lies { MeetLiesIn c.now (plane self.now) meet }
        ensures told { IsTrue result → tells self.now c.now meet }
        ensures off { (IsTrue result → ⊥) → IsMissed (start self.now) (way self.now) (AtMeet (complex_of c.now) (plane self.now) (way self.now) meet) };

    // A span of the ray's start, if its coordinates fit 64 bits.
    fn start_span(&self) -> Option<Span>
        ensures start { IfSome result (λ s. IsInSpan s (start self.now)) };

    // The direction of a ray isn't zero.
    ghost leads: { (r : Self) → IsDirection (way r) };

    // The plane holds a ray that has a course, and the ray meets nothing between vertices that the course excludes.
    ghost excludes: { (r : Self) (c : ComplexValue) (x : CourseValue) → has_course r c x → IsExcluding c (plane r) (start r) (way r) x };
}

// What is asked, all vertices or all edges: what a ray may meet, without its number.
#[derive(Clone, Copy)]
enum MeetKind {
    Vertex,
    Edge,
}

impl MeetKind {
    // The vertex or edge with this number.
    fn at(self, number: usize) -> PlaneMeet
        ensures at { result ≡ meet_at self number }
    {
        match self {
            MeetKind::Vertex => PlaneMeet::AtVertex(number),
            MeetKind::Edge => PlaneMeet::AtEdge(number),
        }
    }
}

// How many of the increasing numbers are below the limit, by halving.
fn count_below(numbers: &[usize], limit: usize) -> usize
    requires ordered { (i j k l : ℕ) → i < j → IsAt numbers.now i k → IsAt numbers.now j l → k < l }
    ensures within { result ≤ length numbers.now }
    ensures below { (i k : ℕ) → i < result → IsAt numbers.now i k → k < limit }
    ensures beyond { (i k : ℕ) → result ≤ i → IsAt numbers.now i k → limit ≤ k }
{
    numbers.partition_point(|number| *number < limit)
}

// What the ray first meets of the plane's vertices, which have these numbers.
fn nearest_vertex<R: PlaneRay>(
    ray: &R,
    c: &Complex,
    course: &Course,
    numbers: &[usize],
) -> Option<Met<R::At>>
    requires shows { (s : Set) × ShowsSet s c.now }
    requires course { R.has_course ray.now c.now course.now }
    requires listed { AreNumbersWith (LiesOn c.now.vertices (R.plane ray.now)) numbers.now }
    ensures nearest { IsNearest (met_of R.At.reach) (R.start ray.now) (R.way ray.now) (AtSomeVertex (complex_of c.now)) result }
{
    let mut best = None;
    let first = count_below(numbers, course.first);
    let end = count_below(numbers, course.past);
    for place in first..end {
        let meet = PlaneMeet::AtVertex(numbers[place]);
        if ray.may_meet(c, course, meet) {
            best = nearer(best, ray.met(c, meet));
        }
    }
    best
}

// How many edges are asked before there is a window, which is of use only where more are left.
const ASKED_AT_ONCE: usize = 4;

// A span of the ray's start: the known one, or a new one where one more edge is to be asked without a window.
fn known_start<R: PlaneRay>(ray: &R, left: usize, known: Option<Span>) -> Option<Span>
    requires known { IfSome known (λ s. IsInSpan s (R.start ray.now)) }
    ensures start { IfSome result (λ s. IsInSpan s (R.start ray.now)) }
{
    if left == 1 { ray.start_span() } else { known }
}

// A window with all points between the ray's start and what was met so far, where a span of the start is known.
fn window_to<H>(
    c: &Complex,
    spans: &[Span],
    start: &Option<Span>,
    best: &Option<Met<H>>,
) -> Option<Span>
    requires shows { (s : Set) × ShowsSet s c.now }
    requires alone { AreAlone c.now.vertices spans.now }
    requires within { IfSome best.now (λ x. HasMeet c.now x.meet) }
    ensures window { IsWindowTo (complex_of c.now) start.now best.now result }
{
    match (start, best) {
        (Some(from), Some(met)) => Some(span_up_to(c, spans, from, met.meet)),
        _ => None,
    }
}

// Whether the ray may meet this vertex or edge of the plane within the window, if any. If so, the ray can tell where.
fn may_meet_within<R: PlaneRay>(
    ray: &R,
    c: &Complex,
    course: &Course,
    spans: &[Span],
    window: &Option<Span>,
    meet: PlaneMeet,
) -> bool
    requires shows { (s : Set) × ShowsSet s c.now }
    requires course { R.has_course ray.now c.now course.now }
    requires alone { AreAlone c.now.vertices spans.now }
    requires lies { MeetLiesIn c.now (R.plane ray.now) meet }
    ensures told { IsTrue result → R.tells ray.now c.now meet }
    ensures outside { (IsTrue result → ⊥) → (n : PlainMeet) (q : SpacePoint) → IsAhead (R.start ray.now) (R.way ray.now) q → AtMeet (complex_of c.now) (R.plane ray.now) (R.way ray.now) meet n q → IsOutside window.now q }
{
    may_lie_within(c, spans, window, meet) && ray.may_meet(c, course, meet)
}

// What the ray first meets of the plane's edges that aren't along the ray: an edge along the ray has an end that the
// ray meets sooner. Edges are asked from the last that may be met to the first, since peaks tell of the edges before.
// By the vertices' spans, most edges are far from the way to what was met so far.
fn nearest_edge<R: PlaneRay>(
    ray: &R,
    c: &Complex,
    course: &Course,
    spans: &[Span],
    items: &PlaneItems,
) -> Option<Met<R::At>>
    requires shows { (s : Set) × ShowsSet s c.now }
    requires course { R.has_course ray.now c.now course.now }
    requires alone { AreAlone c.now.vertices spans.now }
    requires items { AreItems c.now (R.plane ray.now) items.now }
    ensures nearest { IsNearest (met_of R.At.reach) (R.start ray.now) (R.way ray.now) (AtSomeEdge (complex_of c.now) (R.plane ray.now) (R.way ray.now)) result }
{
    let mut best = None;
    let mut left = ASKED_AT_ONCE;
    let mut start = None;
    let mut window = None;
    let count = items.edges_before(c, course.past);
    let mut place = items.last_reaching(c, count, course.first);
    while 0 < place {
        let meet = PlaneMeet::AtEdge(items.edges[place - 1]);
        if may_meet_within(ray, c, course, spans, &window, meet) {
            best = nearer(best, ray.met(c, meet));
            start = known_start(ray, left, start);
            left = left.saturating_sub(1);
            window = window_to(c, spans, &start, &best);
        }
        place = items.last_reaching(c, place - 1, course.first);
    }
    best
}

// What the ray first meets of the plane's vertices and edges, which are listed.
pub(crate) fn nearest_met<R: PlaneRay>(
    ray: &R,
    c: &Complex,
    course: &Course,
    items: PlaneItems,
) -> Option<Met<R::At>>
    requires shows { (s : Set) × ShowsSet s c.now }
    requires course { R.has_course ray.now c.now course.now }
    requires items { AreItems c.now (R.plane ray.now) items }
    ensures nearest { IsNearest (met_of R.At.reach) (R.start ray.now) (R.way ray.now) (AtVertexOrEdge (complex_of c.now) (R.plane ray.now) (R.way ray.now)) result }
{
    let vertex = nearest_vertex(ray, c, course, items.vertices);
    let edge = nearest_edge(ray, c, course, point_spans(c), &items);
    nearer(vertex, edge)
}

// What the ray first meets of all `count` vertices, or of all `count` edges that lie in the plane and aren't along the
// ray, where no list names the plane's items.
fn nearest_of_all<R: PlaneRay>(
    ray: &R,
    c: &Complex,
    kind: MeetKind,
    count: usize,
) -> Option<Met<R::At>>
    requires shows { (s : Set) × ShowsSet s c.now }
    requires count { count ≡ count_in c.now kind }
    ensures nearest { IsNearest (met_of R.At.reach) (R.start ray.now) (R.way ray.now) (AtSome (complex_of c.now) (R.plane ray.now) (R.way ray.now) kind) result }
{
    let mut best = None;
    for number in 0..count {
        let meet = kind.at(number);
        if ray.can_tell(c, meet) {
            best = nearer(best, ray.met(c, meet));
        }
    }
    best
}

// What the ray first meets of all vertices of the complex, and of all edges in the plane.
pub(crate) fn met_of_all<R: PlaneRay>(ray: &R, c: &Complex) -> Option<Met<R::At>>
    requires shows { (s : Set) × ShowsSet s c.now }
    ensures nearest { IsNearest (met_of R.At.reach) (R.start ray.now) (R.way ray.now) (AtVertexOrEdge (complex_of c.now) (R.plane ray.now) (R.way ray.now)) result }
{
    let vertex = nearest_of_all(ray, c, MeetKind::Vertex, c.vertices.len());
    let edge = nearest_of_all(ray, c, MeetKind::Edge, c.edges.len());
    nearer(vertex, edge)
}
