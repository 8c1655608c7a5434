//! The least map of the set at a place, and at a point.

ghost use Rattle.std.specs.Prelude.{◌≡◌, ◌<◌, ◌*◌};
ghost use Rattle.nef_complex.specs.Prelude.{IfOk, length, map, SpacePoint, InClosedFrame, Set, point_of, Cone, complex_of, ShowsSet, IsAt, MapVertex};
ghost use Rattle.nef_smap.specs.Maps.{map_of, IsLeastMap, svertex_of, IsSphereMap};
ghost use Rattle.nef_locate.specs.Places.{IsPlaceIn, IsPlaceAt};
ghost use Rattle.nef_locate.specs.Halves.{two_ends, IsHalf, AreHalves};
ghost use Rattle.nef_locate.specs.declared.point.Place.TheVariants as place;

use crate::OutOfMemory;
use crate::point::{Place, locate, place_label};
use nef_complex::{Complex, Corner};
use nef_geo::{List, Point};
use nef_smap::{SArc, SLoop, SVertex, SphereMap, copy, face_map, plane_map};
use nef_spair::sort_arcs;
use std::alloc::Global;

// The svertices at the points of an edge that leaves a vertex at `end`, in order: the opposite direction comes first.
fn ends_of(alloc: Global, end: &SVertex) -> Result<Vec<SVertex>, OutOfMemory>
    ensures ends { IfOk result (λ v. map svertex_of v.items ≡ two_ends (svertex_of end.now)) }
{
    let opposite = SVertex {
        dir: end.dir.back(),
        mark: end.mark,
        around: end.around,
    };
    Vec::from_slice(alloc, &[opposite, *end])
}

// The half of the arc's circle that begins at svertex `source`, of two opposite svertices.
fn half_circle(arc: &SArc, source: usize) -> SArc
    requires source { source < 2 }
    ensures half { IsHalf arc.now source result }
{
    SArc {
        source,
        target: 1 - source,
        normal: arc.normal,
        mark: arc.mark,
        pos: arc.pos,
        neg: arc.neg,
    }
}

// The half circles along the arcs that begin or end at the svertex: an arc that is a whole circle gives both halves.
fn half_circles(alloc: Global, map: &SphereMap, svertex: usize) -> Result<Vec<SArc>, OutOfMemory>
    requires map { IsSphereMap map.now }
    requires svertex { (u : MapVertex) × IsAt (map_of map.now).svertices svertex u }
    ensures halves { IfOk result (λ v. AreHalves map.now.arcs svertex (2 * length map.now.arcs) v.items) }
{
    let mut halves = Vec::with_capacity(alloc, map.arcs.len())?;
    for arc in map.arcs.as_slice() {
        if arc.target == svertex {
            halves.push(half_circle(arc, 0))?;
        }
        if arc.source == svertex {
            halves.push(half_circle(arc, 1))?;
        }
    }
    Ok(halves)
}

// The least map of the set at the points strictly inside the edge with this number.
fn edge_map(alloc: Global, c: &Complex, number: usize) -> Result<SphereMap, OutOfMemory>
    requires shows { (s : Set) × ShowsSet s c.now }
    requires place { IsPlaceIn (complex_of c.now) (place.OnEdge number) }
    ensures least { IfOk result (λ m. IsLeastMap m) }
    ensures cone { IfOk result (λ m. (s : Set) (y : SpacePoint) → ShowsSet s c.now → IsPlaceAt (complex_of c.now) y (place.OnEdge number) → Cone (map_of m) s y) }
{
    let edge = *c.edges.at(number);
    let low = &c.vertices.at(edge.low).map;
    let svertices = ends_of(alloc, low.svertices.at(edge.low_svertex))?;
    // the labels don't change along the edge, so each arc there gives half a great circle
    let mut arcs = half_circles(alloc, low, edge.low_svertex)?;
    sort_arcs(&mut arcs);
    Ok(SphereMap {
        mark: edge.mark,
        svertices: List::from_vec(svertices),
        arcs: List::from_vec(arcs),
        sloop: None,
        ground: None,
    })
}

// The least map of the set at the points of the facet that have this corner.
fn facet_map(alloc: Global, c: &Complex, corner: &Corner) -> SphereMap
    requires shows { (s : Set) × ShowsSet s c.now }
    requires place { IsPlaceIn (complex_of c.now) (place.InFacet corner.now) }
    ensures least { IsLeastMap result }
    ensures cone { (s : Set) (y : SpacePoint) → ShowsSet s c.now → IsPlaceAt (complex_of c.now) y (place.InFacet corner.now) → Cone (map_of result) s y }
{
    let item = c.vertices.at(corner.vertex).map.item_at(corner.item);
    let plane = SLoop {
        normal: *item.normal(),
        mark: item.mark(),
        pos: item.label(true),
        neg: item.label(false),
    };
    plane_map(alloc, plane)
}

/// The least map of the set at the points that lie at this place. `OutOfMemory` comes where no memory is left; in a
/// facet or a volume no memory is taken.
pub fn place_map(alloc: Global, c: &Complex, at: &Place) -> Result<SphereMap, OutOfMemory>
    requires shows { (s : Set) × ShowsSet s c.now }
    requires place { IsPlaceIn (complex_of c.now) at.now }
    ensures least { IfOk result (λ m. IsLeastMap m) }
    ensures cone { IfOk result (λ m. (s : Set) (y : SpacePoint) → ShowsSet s c.now → IsPlaceAt (complex_of c.now) y at.now → Cone (map_of m) s y) }
{
    match *at {
        Place::Vertex(number) => copy(alloc, &c.vertices.at(number).map),
        Place::OnEdge(number) => edge_map(alloc, c, number),
        Place::InFacet(corner) => Ok(facet_map(alloc, c, &corner)),
        Place::InVolume { .. } => {
            let label = place_label(c, at);
            Ok(face_map(alloc, label, label))
        }
    }
}

/// The least map of the set at the point, which lies in the closed frame. `OutOfMemory` says that memory was wanted and
/// not found; off the vertices and edges no memory is taken.
pub fn local_map(alloc: Global, c: &Complex, p: &Point) -> Result<SphereMap, OutOfMemory>
    requires shows { (s : Set) × ShowsSet s c.now }
    requires framed { InClosedFrame (point_of p.now) }
    ensures least { IfOk result (λ m. IsLeastMap m) }
    ensures cone { IfOk result (λ m. (s : Set) → ShowsSet s c.now → Cone (map_of m) s (point_of p.now)) }
{
    place_map(alloc, c, &locate(c, p))
}
