//! The operations of topology on sphere maps, with the complement in place too, and combinations of two maps.

ghost use Rattle.std.specs.Prelude.{◌≡◌, ◌↔◌};
ghost use Rattle.nef_stopo.specs.Prelude.{IfOk, length, map, SpacePoint, Set, Vector, IsDirection, Label as PlainLabel, ByOp, Cone, MapLabel, set_by, interior as made_interior, closure as made_closure, boundary as made_boundary, complement as made_complement, op_label, map_of, IsSphereMap, IsLeastMap, svertex_of, arc_of, topology_of, IsMadeBy, op_set, IsRemarked, face_label, exchanged_svertex as other_svertex, exchanged_arc as other_arc, star_of, IsStar, AreRaysMarked, AreRemarked};

use crate::OutOfMemory;
use crate::topology::{Nearby, Topology, near_map, near_star};
use nef_geo::{Label, List};
use nef_smap::{RawStars, SArc, SVertex, SphereMap, star_at};
use nef_sover::overlay;
use nef_spair::build;
use nef_star::{Op, Ray, Star};
use std::alloc::Global;

// The rays of the star with the operation's marks, by each ray's mark and the labels of the sectors on both sides.
fn remarked_rays(alloc: Global, star: &Star, topology: Topology) -> Result<Vec<Ray>, OutOfMemory>
    requires star { IsStar star.now }
    ensures rays { IfOk result (λ rays. AreRaysMarked (topology_of topology) star.now (length star.now.rays.items) rays.items) }
{
    let sectors = star.sectors.as_slice();
    let mut before = sectors[sectors.len() - 1];
    let mut rays = Vec::new(alloc);
    for (k, ray) in star.rays.as_slice().iter().enumerate() {
        let after = sectors[k];
        let mark = topology.label(ray.mark, Nearby::of(before).and(Nearby::of(after)));
        let marked = Ray::of(ray.normal, ray.ahead, mark);
        rays.push(marked)?;
        before = after;
    }
    Ok(rays)
}

// The operation's labels of the sectors.
fn remarked_sectors(
    alloc: Global,
    sectors: &[Label],
    topology: Topology,
) -> Result<Vec<Label>, OutOfMemory>
    ensures sectors { IfOk result (λ labels. labels.items ≡ map (face_label (topology_of topology)) sectors.now) }
{
    sectors
        .iter()
        .map(|label| topology.face_label(*label))
        .collect(alloc)
}

// The star with the operation's marks and labels.
fn remarked(alloc: Global, star: &Star, topology: Topology) -> Result<Star, OutOfMemory>
    requires star { IsStar star.now }
    ensures star { IfOk result IsStar }
    ensures remarked { IfOk result (λ u. IsRemarked (topology_of topology) (star_of star.now) (star_of u)) }
{
    let rays = remarked_rays(alloc, star, topology)?;
    let sectors = remarked_sectors(alloc, star.sectors.as_slice(), topology)?;
    let mark = topology.label(star.mark, near_star(star));
    Ok(Star::of(star.axis, rays, sectors, mark))
}

// The stars of the map's svertices with the operation's marks and labels.
fn remarked_stars(
    alloc: Global,
    map: &SphereMap,
    topology: Topology,
) -> Result<List<Star>, OutOfMemory>
    requires map { IsSphereMap map.now }
    ensures stars { IfOk result (λ stars. AreRemarked (topology_of topology) map.now (length map.now.svertices) stars) }
{
    let mut stars = List::new(alloc);
    for svertex in map.svertices.as_slice() {
        let star = star_at(alloc, map, &svertex.dir)?;
        stars.push(remarked(alloc, &star, topology)?)?;
    }
    Ok(stars)
}

// The least map of the operation: of the map's stars, mark, sloop and ground with the operation's labels.
fn made(alloc: Global, map: &SphereMap, topology: Topology) -> Result<SphereMap, OutOfMemory>
    requires map { IsSphereMap map.now }
    ensures made { IfOk result (IsMadeBy (topology_of topology) (set_by (topology_of topology)) map.now) }
{
    let raw = RawStars {
        mark: topology.label(map.mark, near_map(map)),
        stars: remarked_stars(alloc, map, topology)?,
        sloop: topology.sloop(map.sloop),
        ground: topology.ground(map.ground),
    };
    build(alloc, raw)
}

/// The least map of the interior: the points that are In with only In close to them. A svertex, an arc or a face
/// becomes In exactly if it is In with all arcs and faces that it borders; `Out` stays `Out`. `OutOfMemory` says that
/// memory was wanted and not found.
pub fn interior(alloc: Global, map: &SphereMap) -> Result<SphereMap, OutOfMemory>
    requires map { IsSphereMap map.now }
    ensures made { IfOk result (IsMadeBy made_interior Set.inside map.now) }
{
    made(alloc, map, Topology::Interior)
}

/// The least map of the closure: the points that are In or have some In close to them. A svertex, an arc or a face
/// becomes In exactly if it, or some arc or face that it borders, is In; `Out` stays `Out`. `OutOfMemory` says that
/// memory was wanted and not found.
pub fn closure(alloc: Global, map: &SphereMap) -> Result<SphereMap, OutOfMemory>
    requires map { IsSphereMap map.now }
    ensures made { IfOk result (IsMadeBy made_closure Set.closed map.now) }
{
    made(alloc, map, Topology::Closure)
}

/// The least map of the boundary, the closure without the interior; `Out` stays `Out`. An error comes only where no
/// memory is left.
pub fn boundary(alloc: Global, map: &SphereMap) -> Result<SphereMap, OutOfMemory>
    requires map { IsSphereMap map.now }
    ensures made { IfOk result (IsMadeBy made_boundary Set.border map.now) }
{
    made(alloc, map, Topology::Boundary)
}

/// The least map of the complement: In and `Not` exchanged; `Out` stays `Out`. It fails only where no memory is left.
pub fn complement(alloc: Global, map: &SphereMap) -> Result<SphereMap, OutOfMemory>
    requires map { IsSphereMap map.now }
    ensures made { IfOk result (IsMadeBy made_complement Set.other map.now) }
{
    made(alloc, map, Topology::Complement)
}

/// The least map whose mark and labels the operation makes of the marks and labels of two maps. Where these show two
/// sets at a point, the result shows the combination there. `OutOfMemory` says that memory was wanted and not found.
pub fn combine(
    alloc: Global,
    a: &SphereMap,
    b: &SphereMap,
    op: Op,
) -> Result<SphereMap, OutOfMemory>
    requires first { IsSphereMap a.now }
    requires second { IsSphereMap b.now }
    ensures least { IfOk result (λ m. IsLeastMap m) }
    ensures mark { IfOk result (λ m. m.mark ≡ op_label op a.now.mark b.now.mark) }
    ensures labels { IfOk result (λ m. (d : Vector) (l : PlainLabel) → IsDirection d → MapLabel (map_of m) d l ↔ ByOp (map_of a.now) (map_of b.now) (op_label op) d l) }
    ensures cone { IfOk result (λ m. (s t : Set) (p : SpacePoint) → Cone (map_of a.now) s p → Cone (map_of b.now) t p → Cone (map_of m) (op_set op s t) p) }
{
    let raw = overlay(alloc, a, b, op)?;
    let map = build(alloc, raw)?;
    Ok(map)
}

fn exchanged_svertices(svertices: List<SVertex>) -> List<SVertex>
    ensures other { map svertex_of result ≡ map other_svertex (map svertex_of svertices) }
{
    let mut items = svertices.into_vec();
    for svertex in items.iter_mut() {
        svertex.mark = Topology::Complement.face_label(svertex.mark);
        svertex.around = Topology::Complement.ground(svertex.around);
    }
    List::from_vec(items)
}

fn exchanged_arcs(arcs: List<SArc>) -> List<SArc>
    ensures other { map arc_of result ≡ map other_arc (map arc_of arcs) }
{
    let mut items = arcs.into_vec();
    for arc in items.iter_mut() {
        arc.mark = Topology::Complement.face_label(arc.mark);
        arc.pos = Topology::Complement.face_label(arc.pos);
        arc.neg = Topology::Complement.face_label(arc.neg);
    }
    List::from_vec(items)
}

/// The map with In and `Not` exchanged everywhere; `Out` stays `Out`. From a least map this is the least map of the
/// complement, which [`complement`](crate::complement) builds from any map. No memory is taken.
pub fn exchanged(map: SphereMap) -> SphereMap
    requires least { IsLeastMap map }
    ensures least { IsLeastMap result }
    ensures cone { (s : Set) (p : SpacePoint) → Cone (map_of map) s p → Cone (map_of result) (Set.other s) p }
{
    SphereMap {
        mark: Topology::Complement.face_label(map.mark),
        svertices: exchanged_svertices(map.svertices),
        arcs: exchanged_arcs(map.arcs),
        sloop: Topology::Complement.sloop(map.sloop),
        ground: Topology::Complement.ground(map.ground),
    }
}
