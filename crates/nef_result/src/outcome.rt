//! What a set has at a candidate.

ghost use Rattle.std.specs.Prelude.{◌↔◌};
ghost use Rattle.nef_result.specs.Prelude.{List as Sequence, IfOk, IsTrue, Set, SpacePoint, Cone, Vertex, map_of, IsLeastMap, IsVertexMap, IsOutcomeAt};

use crate::OutOfMemory;
use nef_cand::Operand;
use nef_smap::SphereMap;
use nef_spair::{Kind, kind};
use std::alloc::Global;

/// What a set that is made of two others has at a candidate. Where a vertex of one of the two has the map already, and its map
/// may be moved, it isn't made again: that vertex is told by its number.
#[derive(Drop)]
pub enum Outcome {
    /// A vertex with this least map. Few outcomes have one, and all are moved often, so it stands in a box.
    Made(Box<SphereMap>),
    /// A vertex with the map of this vertex of an operand.
    Stays(Operand, usize),
    /// A vertex with the map of this vertex of an operand, in which In and `Not` are exchanged.
    Turned(Operand, usize),
    /// No vertex.
    Gone,
}

// Whether no direction is flat at the point of the map.
fn is_vertex(map: &SphereMap) -> bool
    requires least { IsLeastMap map.now }
    ensures vertex { IsTrue result ↔ IsVertexMap (map_of map.now) }
{
    matches!(kind(map), Kind::Vertex)
}

impl Outcome {
    /// What a set has where this is its least map. The map of a point that is no vertex is let go. `OutOfMemory` says that
    /// memory was wanted and not found.
    pub fn of(alloc: Global, map: SphereMap) -> Result<Outcome, OutOfMemory>
        requires least { IsLeastMap map }
        ensures outcome { IfOk result (λ o. (us vs : Sequence Vertex) (s : Set) (p : SpacePoint) → Cone (map_of map) s p → IsOutcomeAt us vs s p o) }
    {
        if !is_vertex(&map) {
            return Ok(Outcome::Gone);
        }
        let map = Box::new(alloc, map)?;
        Ok(Outcome::Made(map))
    }
}
