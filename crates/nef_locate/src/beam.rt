//! What a ray upward or downward first meets. Carriers off the ray's way through the frame are passed over.

ghost use Rattle.std.specs.Prelude.{◌≡◌, ◌⊎◌, ◌↔◌, ◌<◌, ◌<ℤ◌, ◌+ℤ◌, ◌-ℤ◌};
ghost use Rattle.nef_complex.specs.Prelude.{IsTrue, IsNone, IfSome, None, length, pos, SpacePoint, InClosedFrame, IsAhead, Set, Vector, IsDirection, opposite, up, IsReached, IsVertical, vector_of, point_of, hit_point, IsSkeletonPoint, complex_of, ShowsSet, IsInSpan, AreSmallBounds};
ghost use Rattle.law_geometry.specs.complex.Complexes.{Complex as PlainComplex};
ghost use Rattle.nef_locate.specs.Frames.{IsAmidWindow};
ghost use Rattle.nef_locate.specs.Places.{IsPlaceIn, IsFirstHit};
ghost use Rattle.nef_locate.specs.Rays.{IsReachedMet, IsMet, IsSooner, HasNoneOnCarrier};

use crate::carrier::{is_in_span, place_on};
use crate::point::Place;
use nef_complex::{Bounds, Complex, Search, Span, carrier_spans, search_carriers};
use nef_geo::{Dir, HALF_SIDE, Hit, Point, hit_order, ray_hit};

// Carriers are crowded with at least this many vertices each, on the average, and no fewer than there are carriers.
const LEAST_CROWD: usize = 64;

// The bounds, raised by one at the upper end.
fn above(bounds: &Bounds) -> Bounds
    requires small { AreSmallBounds bounds.now }
    ensures low { result.low ≡ bounds.now.low }
    ensures high { result.high ≡ bounds.now.high +ℤ pos 1 }
{
    Bounds {
        low: bounds.low,
        high: bounds.high + 1,
    }
}

// The bounds, lowered by one at the lower end.
fn below(bounds: &Bounds) -> Bounds
    requires small { AreSmallBounds bounds.now }
    ensures low { result.low ≡ bounds.now.low -ℤ pos 1 }
    ensures high { result.high ≡ bounds.now.high }
{
    Bounds {
        low: bounds.low - 1,
        high: bounds.high,
    }
}

// Whether the direction is the upward direction, and not the downward one.
fn is_up(d: &Dir) -> bool
    requires upright { IsVertical (vector_of d.now) }
    ensures upward { IsTrue result ↔ (vector_of d.now ≡ up) }
{
    d.x() > 0
}

// A span of all points of the frame that the upward or downward ray from the point leads to. Upward all coordinates
// rise, y and z by less than one within the frame: so the y and z of these points lie strictly within the span.
fn ray_window(p: &Point, d: &Dir) -> Span
    requires upright { IsVertical (vector_of d.now) }
    ensures ahead { (q : SpacePoint) → InClosedFrame (point_of p.now) → InClosedFrame q → IsAhead (point_of p.now) (vector_of d.now) q → IsInSpan result q }
    ensures amid { (q : SpacePoint) → InClosedFrame (point_of p.now) → InClosedFrame q → IsAhead (point_of p.now) (vector_of d.now) q → IsAmidWindow result q }
{
    let here = Span::of(p);
    if is_up(d) {
        Span {
            x: Bounds {
                low: here.x.low,
                high: HALF_SIDE,
            },
            y: above(&here.y),
            z: above(&here.z),
        }
    } else {
        Span {
            x: Bounds {
                low: -HALF_SIDE,
                high: here.x.high,
            },
            y: below(&here.y),
            z: below(&here.z),
        }
    }
}

// Whether a number strictly within the window's bounds may lie within the other bounds.
fn reach_into(window: &Bounds, bounds: &Bounds) -> bool
    ensures reach { IsTrue result ↔ ((bounds.now.low <ℤ window.now.high) × (window.now.low <ℤ bounds.now.high)) }
{
    bounds.low < window.high && window.low < bounds.high
}

// Whether a point with y and z strictly within the window's bounds may lie within the span.
fn may_lead_into(window: &Span, span: &Span) -> bool
    ensures leads { (q : SpacePoint) → IsAmidWindow window.now q → IsInSpan span.now q → IsTrue result }
{
    if !reach_into(&window.y, &span.y) {
        return false;
    }
    reach_into(&window.z, &span.z)
}

// What a ray meets, as a place of the complex, and the hit there.
#[derive(Clone, Copy)]
struct MetPlace {
    place: Place,
    at: Hit,
}

// The search for what an upward or downward ray first meets. All points of the frame ahead lie within the window, with
// y and z strictly within. The ray meets `guess` on some carrier, or without a guess nothing on carrier `missed`.
#[derive(Clone, Copy)]
struct Beam<'a> {
    start: &'a Point,
    direction: &'a Dir,
    window: Span,
    guess: Option<MetPlace>,
    missed: usize,
    ghost ahead: { (q : SpacePoint) → InClosedFrame q → IsAhead (point_of start.now) (vector_of direction.now) q → IsInSpan window q },
    ghost amid: { (q : SpacePoint) → InClosedFrame q → IsAhead (point_of start.now) (vector_of direction.now) q → IsAmidWindow window q },
}

// Whether the hit lies before what was met so far, or nothing was met.
fn is_sooner(hit: &Hit, best: &Option<MetPlace>) -> bool
    ensures sooner { (p : SpacePoint) (d : Vector) → IsDirection d → IsReached p d hit.now.num hit.now.den hit.now.den_sign (hit_point hit.now) → IfSome best.now (IsReachedMet p d) → (IsTrue result ↔ IsSooner d hit.now best.now) }
{
    match best {
        Some(met) => hit_order(hit, &met.at).is_lt(),
        None => true,
    }
}

impl Search for Beam<'_> {
    type Found = MetPlace;

    ghost within = { λ x. x.window };

    ghost right = { λ x c f. IsVertical (vector_of x.direction.now) × IfSome f (IsMet (complex_of c) (point_of x.start.now) (vector_of x.direction.now)) × IfSome x.guess (IsMet (complex_of c) (point_of x.start.now) (vector_of x.direction.now)) × (IsNone x.guess → HasNoneOnCarrier c (point_of x.start.now) (vector_of x.direction.now) None x.missed) };

    ghost passed = { λ x c f k. HasNoneOnCarrier c (point_of x.start.now) (vector_of x.direction.now) f k };

    fn window(&self) -> &Span {
        &self.window
    }

    fn is_over(&self, _best: &Option<MetPlace>) -> bool {
        false
    }

    // Takes what the ray meets on this carrier, if that lies before what was met so far.
    fn ask(&self, c: &Complex, number: usize, best: &mut Option<MetPlace>) {
        if !may_lead_into(&self.window, &carrier_spans(c)[number]) {
            return;
        }
        if self.guess.is_none() && number == self.missed {
            return;
        }
        let h = c.carriers.at(number);
        let Some(hit) = ray_hit(self.start, self.direction, h) else {
            return;
        };
        // the guess is taken over where nothing was met so far
        *best = best.or(self.guess);
        if !is_sooner(&hit, best) {
            return;
        }
        if let Some(place) = place_on(c, number, h, &hit) {
            *best = Some(MetPlace { place, at: hit });
        }
    }

    ghost apart = { λ x c f k o h a s y S X i. absurd ((o h a s y S X.on i).1 (x.ahead y (o h a s y S X.on i).0 X.ahead)) };
}

// Where a ray crosses a carrier, and the carrier's number.
#[derive(Clone, Copy)]
struct CarrierCrossing {
    number: usize,
    at: Hit,
}

// The search for the carrier that an upward or downward ray crosses first within the carrier's span.
#[derive(Clone, Copy)]
struct Scout<'a> {
    start: &'a Point,
    direction: &'a Dir,
    window: Span,
}

impl Search for Scout<'_> {
    type Found = CarrierCrossing;

    ghost within = { λ x. x.window };

    ghost right = { λ x c f. IsVertical (vector_of x.direction.now) × IfSome f (λ m. m.number < length c.carriers) };

    ghost passed = { λ x c f k. Unit {0} };

    fn window(&self) -> &Span {
        &self.window
    }

    fn is_over(&self, _nearest: &Option<CarrierCrossing>) -> bool {
        false
    }

    // Takes this carrier, if the ray crosses it before the nearest crossing so far.
    fn ask(&self, c: &Complex, number: usize, nearest: &mut Option<CarrierCrossing>) {
        let span = &carrier_spans(c)[number];
        if !may_lead_into(&self.window, span) {
            return;
        }
        let Some(hit) = ray_hit(self.start, self.direction, c.carriers.at(number)) else {
            return;
        };
        if nearest.is_none_or(|crossing| hit_order(&hit, &crossing.at).is_lt())
            && is_in_span(&hit, span)
        {
            *nearest = Some(CarrierCrossing { number, at: hit });
        }
    }

    ghost apart = { λ x c f k o. tt };
}

// Whether carriers hold so much of the skeleton that asking one carrier what it holds at a point takes longer than
// finding where a ray crosses all carriers.
fn is_crowded(c: &Complex) -> bool {
    let share = c.vertices.len() / c.carriers.len().max(1);
    share >= c.carriers.len().max(LEAST_CROWD)
}

// Where carriers are crowded, the carrier that the ray from `p` crosses first within the carrier's span.
fn first_crossed(c: &Complex, p: &Point, d: &Dir, window: &Span) -> Option<usize>
    requires shows { (s : Set) × ShowsSet s c.now }
    requires upright { IsVertical (vector_of d.now) }
    ensures within { IfSome result (λ k. k < length c.now.carriers) }
{
    if !is_crowded(c) {
        return None;
    }
    let scout = Scout {
        start: p,
        direction: d,
        window: *window,
    };
    let crossing = search_carriers(&scout, c)?;
    Some(crossing.number)
}

// What the ray from `p` meets on the carrier with this number.
fn met_on(c: &Complex, p: &Point, d: &Dir, number: usize) -> Option<MetPlace>
    requires shows { (s : Set) × ShowsSet s c.now }
    requires upright { IsVertical (vector_of d.now) }
    requires within { number < length c.now.carriers }
    ensures met { IfSome result (IsMet (complex_of c.now) (point_of p.now) (vector_of d.now)) }
    ensures none { IsNone result → HasNoneOnCarrier c.now (point_of p.now) (vector_of d.now) None number }
{
    let h = c.carriers.at(number);
    let hit = ray_hit(p, d, h)?;
    let place = place_on(c, number, h, &hit)?;
    Some(MetPlace { place, at: hit })
}

// What the ray from `p` meets on the carrier that it crosses first, and this carrier's number: then nearly no other
// carrier needs to be asked closely. Where carriers aren't crowded there is no guess, and no carrier has the number.
fn first_guess(c: &Complex, p: &Point, d: &Dir, window: &Span) -> (Option<MetPlace>, usize)
    requires shows { (s : Set) × ShowsSet s c.now }
    requires upright { IsVertical (vector_of d.now) }
    ensures met { IfSome result.0 (IsMet (complex_of c.now) (point_of p.now) (vector_of d.now)) }
    ensures none { IsNone result.0 → HasNoneOnCarrier c.now (point_of p.now) (vector_of d.now) None result.1 }
{
    match first_crossed(c, p, d, window) {
        Some(number) => (met_on(c, p, d, number), number),
        None => (None, c.carriers.len()),
    }
}

/// The place of the first skeleton point strictly ahead of `p`, along the upward or the downward direction. `None`
/// comes exactly where there is none. No plane is parallel to these directions, so the ray hits each carrier at one
/// point at most; and each skeleton point is a vertex on a carrier, or lies on an edge or in a facet of a carrier.
pub fn first_hit(c: &Complex, p: &Point, d: &Dir) -> Option<Place>
    requires shows { (s : Set) × ShowsSet s c.now }
    requires framed { InClosedFrame (point_of p.now) }
    requires upright { (vector_of d.now ≡ up) ⊎ (vector_of d.now ≡ opposite up) }
    ensures place { IfSome result (λ a. IsPlaceIn (complex_of c.now) a) }
    ensures some { IfSome result (λ a. IsFirstHit (complex_of c.now) (point_of p.now) (vector_of d.now) a) }
    ensures none { IsNone result → (q : SpacePoint) → IsAhead (point_of p.now) (vector_of d.now) q → IsSkeletonPoint (complex_of c.now) q → ⊥ }
{
    let window = ray_window(p, d);
    let (guess, missed) = first_guess(c, p, d, &window);
    let beam = Beam {
        start: p,
        direction: d,
        window,
        guess,
        missed,
    };
    let met = search_carriers(&beam, c)?;
    Some(met.place)
}
