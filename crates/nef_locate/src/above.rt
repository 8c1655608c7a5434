//! The side of a vertex above a point of the skeleton.

ghost use Rattle.std.specs.Prelude.{◌≡◌, ◌+◌, ◌<◌};
ghost use Rattle.nef_complex.specs.Prelude.{length, Set, up, Label, Side, dir_of, BoundsSector, complex_of, ShowsSet};
ghost use Rattle.nef_smap.specs.Maps.{map_of, arc_of, IsSphereMap};
ghost use Rattle.nef_smap.specs.Sides.{IsSide};
ghost use Rattle.nef_locate.specs.Places.{IsPlaceIn};
ghost use Rattle.nef_locate.specs.Ends.{end_of, IsLast};
ghost use Rattle.nef_locate.specs.Rays.{IsSideAbove};

use crate::point::Place;
use nef_complex::Complex;
use nef_geo::{Sign, triple, up};
use nef_smap::{SArc, SphereMap};

// The number of the svertex where the arc begins, or else where it ends.
fn arc_end(arc: &SArc, begins: bool) -> usize
    ensures end { result ≡ end_of (arc_of arc.now) begins }
{
    if begins { arc.source } else { arc.target }
}

// The last counterclockwise of the svertex's arcs up to arc `number`, where `last` is the last of the arcs before it.
fn later_arc(
    map: &SphereMap,
    svertex: usize,
    begins: bool,
    last: Option<usize>,
    number: usize,
) -> Option<usize>
    requires map { IsSphereMap map.now }
    requires within { svertex < length map.now.svertices }
    requires number { number < length map.now.arcs }
    requires last { IsLast (map_of map.now) (dir_of (map_of map.now).svertices svertex) svertex begins number last }
    ensures last { IsLast (map_of map.now) (dir_of (map_of map.now).svertices svertex) svertex begins (number + 1) result }
{
    let arc = map.arcs.at(number);
    if arc_end(arc, begins) != svertex {
        return last;
    }
    match last {
        Some(before) => {
            let axis = map.svertices.at(svertex).dir;
            let turn = triple(&axis, &map.arcs.at(before).normal, &arc.normal);
            if turn == Sign::Plus {
                Some(number)
            } else {
                last
            }
        }
        None => Some(number),
    }
}

// The last counterclockwise of the arcs that begin at the svertex, or of the arcs that end there. Arcs of one kind lie
// on one side of the upward direction: less than half a turn before the direction, or less than half a turn past it.
fn last_arc(map: &SphereMap, svertex: usize, begins: bool) -> Option<usize>
    requires map { IsSphereMap map.now }
    requires within { svertex < length map.now.svertices }
    ensures last { IsLast (map_of map.now) (dir_of (map_of map.now).svertices svertex) svertex begins (length map.now.arcs) result }
{
    let mut last = None;
    for number in 0..map.arcs.len() {
        last = later_arc(map, svertex, begins, last, number);
    }
    last
}

// The number of the side that bounds the svertex's sector with the upward direction: the side of the last arc before
// this direction, or the side round a svertex without arcs. Arcs that begin here lie less than half a turn before the
// direction, and arcs that end here less than half a turn past it: an end counts only where no arc begins.
fn side_near(map: &SphereMap, svertex: usize) -> usize
    requires map { IsSphereMap map.now }
    requires within { svertex < length map.now.svertices }
    ensures side { (o : Side) × (l : Label) × IsSide (map_of map.now) result o l × BoundsSector (map_of map.now) svertex up o }
{
    if let Some(arc) = last_arc(map, svertex, true) {
        return map.item_side(arc, true);
    }
    match last_arc(map, svertex, false) {
        Some(arc) => map.item_side(arc, false),
        None => map.around_side(svertex),
    }
}

/// The side above the points that lie at this place, as the numbers of vertex and side: at a vertex a side that sees
/// the upward direction, on an edge the side of the lower end that bounds the sector with this direction, in a facet
/// the upper side of the corner's item, and in a volume the side that names the volume.
pub fn side_above(c: &Complex, floor: &Place) -> (usize, usize)
    requires shows { (s : Set) × ShowsSet s c.now }
    requires place { IsPlaceIn (complex_of c.now) floor.now }
    ensures above { IsSideAbove (complex_of c.now) floor.now result.0 result.1 }
{
    match *floor {
        Place::Vertex(number) => (number, c.vertices.at(number).map.face_toward(&up())),
        Place::OnEdge(number) => {
            let edge = c.edges.at(number);
            let map = &c.vertices.at(edge.low).map;
            (edge.low, side_near(map, edge.low_svertex))
        }
        Place::InFacet(corner) => {
            let map = &c.vertices.at(corner.vertex).map;
            (corner.vertex, map.item_side(corner.item, true))
        }
        Place::InVolume { vertex, side } => (vertex, side),
    }
}
