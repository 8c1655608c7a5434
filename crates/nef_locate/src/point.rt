//! The place of a point in a complex, and the label there.

ghost use Rattle.nef_complex.specs.Prelude.{IsNone, IfSome, FlatDim, HasLabel, Form, InClosedFrame, SpacePoint, Set, IsPointAtMost, point_of, hit_point, upright_limit, upright_weight_limit, IsSkeletonPoint, complex_of, ShowsSet, IsInSpan};
ghost use Rattle.nef_locate.specs.Orders.{PartsOn};
ghost use Rattle.nef_locate.specs.Places.{IsPlaceIn, IsPlaceAt, place_dimension, IsPlaceLabel};
ghost use Rattle.nef_locate.specs.Rays.{IsSkeletonAt, HasNotAtCarrier};

use crate::above::side_above;
use crate::beam::first_hit;
use crate::carrier::place_beside_vertices;
use nef_complex::{Complex, Corner, Search, Span, find_vertex, search_carriers};
use nef_geo::{Hit, Label, Point, Sign, hit_at, hit_side, up};
use nef_smap::side_label;

/// A place of a complex: a vertex, an edge, a facet, which an item of a vertex names, or a volume, which a side of a
/// vertex names. Numbers count from 0.
#[derive(Clone, Copy)]
pub enum Place {
    Vertex(usize),
    OnEdge(usize),
    InFacet(Corner),
    InVolume { vertex: usize, side: usize },
}

/// The label of the points that lie at this place of the complex. No memory is taken.
pub fn place_label(c: &Complex, at: &Place) -> Label
    requires place { IsPlaceIn (complex_of c.now) at.now }
    ensures label { IsPlaceLabel (complex_of c.now) at.now result }
    ensures set { (s : Set) (y : SpacePoint) → ShowsSet s c.now → IsPlaceAt (complex_of c.now) y at.now → HasLabel s y result }
{
    match *at {
        Place::Vertex(number) => c.vertices.at(number).map.mark,
        Place::OnEdge(number) => c.edges.at(number).mark,
        Place::InFacet(corner) => {
            let map = &c.vertices.at(corner.vertex).map;
            map.item_at(corner.item).mark()
        }
        Place::InVolume { vertex, side } => side_label(&c.vertices.at(vertex).map, side),
    }
}

// The search for the place of a point of the closed frame that is no vertex. The first `before` vertices come before
// the point, and the others after it; the point lies within the window.
#[derive(Clone, Copy)]
struct Probe {
    at: Hit,
    before: usize,
    window: Span,
    ghost framed: { InClosedFrame (hit_point at) },
    ghost numbers: { IsPointAtMost upright_limit upright_weight_limit (hit_point at) },
    ghost inside: { IsInSpan window (hit_point at) },
}

impl Search for Probe {
    type Found = Place;

    ghost within = { λ x. x.window };

    ghost right = { λ x c f. ((h : Form) → PartsOn c.vertices h (hit_point x.at) x.before) × IfSome f (IsSkeletonAt (complex_of c) (hit_point x.at)) };

    ghost passed = { λ x c f k. IsNone f → HasNotAtCarrier c (hit_point x.at) k };

    fn window(&self) -> &Span {
        &self.window
    }

    fn is_over(&self, found: &Option<Place>) -> bool {
        found.is_some()
    }

    fn ask(&self, c: &Complex, number: usize, found: &mut Option<Place>) {
        let h = c.carriers.at(number);
        if hit_side(h, &self.at) != Sign::Zero {
            return;
        }
        if let Some(place) = place_beside_vertices(c, number, h, &self.at, self.before) {
            *found = Some(place);
        }
    }

    ghost apart = { λ x c f k o e h a s S on i. (o h a s (hit_point x.at) S on i).1 x.inside };
}

// The place of a point of the skeleton: a vertex, or an edge or a facet, which is searched on the carriers.
fn on_skeleton(c: &Complex, p: &Point) -> Option<Place>
    requires shows { (s : Set) × ShowsSet s c.now }
    requires framed { InClosedFrame (point_of p.now) }
    ensures at { IfSome result (IsSkeletonAt (complex_of c.now) (point_of p.now)) }
    ensures none { IsNone result → IsSkeletonPoint (complex_of c.now) (point_of p.now) → ⊥ }
{
    match find_vertex(c, p) {
        Ok(number) => Some(Place::Vertex(number)),
        Err(before) => {
            let probe = Probe {
                at: hit_at(p),
                before,
                window: Span::of(p),
            };
            search_carriers(&probe, c)
        }
    }
}

// The place of a point off the skeleton: the side above what the ray down from the point first meets.
fn in_volume(c: &Complex, p: &Point) -> Place
    requires shows { (s : Set) × ShowsSet s c.now }
    requires framed { InClosedFrame (point_of p.now) }
    requires off { IsSkeletonPoint (complex_of c.now) (point_of p.now) → ⊥ }
    ensures place { IsPlaceIn (complex_of c.now) result }
    ensures at { IsPlaceAt (complex_of c.now) (point_of p.now) result }
{
    match first_hit(c, p, &up().back()) {
        Some(floor) => {
            let (vertex, side) = side_above(c, &floor);
            Place::InVolume { vertex, side }
        }
        None => unreachable!(),
    }
}

/// The place in the complex of a point of the closed frame: a vertex, an edge, a facet, which the corner behind the
/// point names, or a volume, which the side above the first skeleton point below the point names. No memory is taken.
pub fn locate(c: &Complex, p: &Point) -> Place
    requires shows { (s : Set) × ShowsSet s c.now }
    requires framed { InClosedFrame (point_of p.now) }
    ensures place { IsPlaceIn (complex_of c.now) result }
    ensures at { IsPlaceAt (complex_of c.now) (point_of p.now) result }
    ensures dimension { (s : Set) → ShowsSet s c.now → FlatDim s (point_of p.now) (place_dimension result) }
{
    match on_skeleton(c, p) {
        Some(place) => place,
        None => in_volume(c, p),
    }
}
