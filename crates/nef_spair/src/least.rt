//! The least map that stars make, and the kind of a least map.

ghost use Rattle.std.specs.Prelude.{◌≡◌, ◌↔◌};
ghost use Rattle.nef_spair.specs.Prelude.{MatchOption, IsTrue, List, IfOk, SpacePoint, Set, Vector, IsDirection, vector_of, Cone, Least, SameLabels, Ordered, IsInVolume, IsInFacet, IsOnEdge, map_of, IsLeastMap, raw_of, IsRawStars, IsKind, KindFits, Map, MapLabel, Valid, ByOp, IsLabelling, IsRawOf, Raw};

use crate::OutOfMemory;
use crate::answer::Kind;
use crate::making::{map_of_simple, simplified};
use nef_geo::{Dir, Label};
use nef_smap::{RawStars, SphereMap};
use std::alloc::Global;

/// The least map with the mark and the labels that the raw stars show. A star with one label all around, or with one
/// great circle through its axis and a label on each side, gives no svertex. `OutOfMemory` comes where no memory is
/// left.
pub fn build(alloc: Global, raw: RawStars) -> Result<SphereMap, OutOfMemory>
    requires raw { IsRawStars raw }
    requires labels { (gs : List Vector) × (L : Vector → Label) × IsLabelling gs L × IsRawOf (raw_of raw) L }
    ensures least { IfOk result (λ m. IsLeastMap m) }
    ensures mark { IfOk result (λ m. m.mark ≡ raw.mark) }
    ensures labels { IfOk result (λ m. (gs : List Vector) (L : Vector → Label) → IsLabelling gs L → IsRawOf (raw_of raw) L → (d : Vector) → IsDirection d → MapLabel (map_of m) d (L d)) }
    ensures op { IfOk result (λ m. (A B : Map) (op : Label → Label → Label) → Valid A → Valid B → Raw (raw_of raw) A B op → (d : Vector) (l : Label) → IsDirection d → MapLabel (map_of m) d l ↔ ByOp A B op d l) }
    ensures only { IfOk result (λ m. (N : Map) → Valid N → Least N → Ordered N → N.mark ≡ raw.mark → SameLabels (map_of m) N → map_of m ≡ N) }
{
    let simple = RawStars {
        stars: simplified(raw.stars),
        ..raw
    };
    map_of_simple(alloc, simple)
}

fn is_in_volume(map: &SphereMap) -> bool
    ensures volume { IsTrue result ↔ IsInVolume (map_of map.now) }
{
    map.svertices.is_empty() && map.sloop.is_none() && map.ground == Some(map.mark)
}

// The normal of the facet, where the map belongs to a point in a facet.
fn facet_normal(map: &SphereMap) -> Option<Dir>
    ensures facet { MatchOption result ((n : Vector) → IsInFacet (map_of map.now) n → ⊥) (λ n. IsInFacet (map_of map.now) (vector_of n)) }
{
    let circle = map.sloop?;
    if map.svertices.is_empty() && circle.mark == map.mark {
        Some(circle.normal)
    } else {
        None
    }
}

// The greater direction of the edge, where the map belongs to a point on an edge.
fn edge_direction(map: &SphereMap) -> Option<Dir>
    ensures edge { MatchOption result ((d : Vector) → IsOnEdge (map_of map.now) d → ⊥) (λ d. IsOnEdge (map_of map.now) (vector_of d)) }
{
    if map.svertices.len() != 2 || map.sloop.is_some() {
        return None;
    }
    let (first, second) = (map.svertices.at(0), map.svertices.at(1));
    if first.mark == map.mark && second.mark == map.mark && first.dir.back().is_same(&second.dir) {
        Some(second.dir)
    } else {
        None
    }
}

/// The kind of the point that has this least map. A point in a volume has the label of all directions, a point in a
/// facet has the sloop's mark, and a point on an edge the mark of two opposite svertices, the only svertices. Any other
/// point is a vertex. No memory is taken.
pub fn kind(map: &SphereMap) -> Kind
    requires least { IsLeastMap map.now }
    ensures exactly { (k : Kind) → IsKind (map_of map.now) k ↔ (result ≡ k) }
    ensures dimension { (s : Set) (p : SpacePoint) → Cone (map_of map.now) s p → KindFits result s p }
{
    if is_in_volume(map) {
        return Kind::InVolume;
    }
    if let Some(normal) = facet_normal(map) {
        return Kind::InFacet(normal);
    }
    match edge_direction(map) {
        Some(direction) => Kind::OnEdge(direction),
        None => Kind::Vertex,
    }
}
