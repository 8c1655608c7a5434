//! The maps with one label and with one plane, and copies of maps.

ghost use Rattle.std.specs.Prelude.{◌≡◌};
ghost use Rattle.nef_smap.specs.Prelude.{IfOk, normal_limit, Vector, dot, IsDirection, IsNormal, IsAtMost, sign, vector_of, by_side, MapLabel, map_of, IsSphereMap, IsLeastMap};

use crate::OutOfMemory;
use crate::map::{SLoop, SphereMap};
use nef_geo::{Dir, Label, List};
use std::alloc::Global;

/// The map without items: the point has the label `mark`, and each direction the label `ground`. No memory is taken.
pub fn face_map(alloc: Global, mark: Label, ground: Label) -> SphereMap
    ensures map { IsLeastMap result }
    ensures mark { result.mark ≡ mark }
    ensures labels { (d : Vector) → IsDirection d → MapLabel (map_of result) d ground }
{
    SphereMap {
        mark,
        svertices: List::new(alloc),
        arcs: List::new(alloc),
        sloop: None,
        ground: Some(ground),
    }
}

/// The map of a plane through the point: one sloop, with its mark and the labels on both sides. The point has the
/// sloop's mark. No memory is taken.
pub fn plane_map(alloc: Global, sloop: SLoop) -> SphereMap
    requires normal { IsNormal (vector_of sloop.normal) }
    requires small { IsAtMost normal_limit (vector_of sloop.normal) }
    ensures map { IsSphereMap result }
    ensures least { (sloop.pos ≡ sloop.mark → sloop.neg ≡ sloop.mark → ⊥) → IsLeastMap result }
    ensures mark { result.mark ≡ sloop.mark }
    ensures labels { (d : Vector) → IsDirection d → MapLabel (map_of result) d (by_side sloop.pos sloop.mark sloop.neg (sign (dot (vector_of sloop.normal) d))) }
{
    SphereMap {
        mark: sloop.mark,
        svertices: List::new(alloc),
        arcs: List::new(alloc),
        sloop: Some(sloop),
        ground: None,
    }
}

fn copy_list<T: Copy + Drop>(alloc: Global, list: &List<T>) -> Result<List<T>, OutOfMemory>
    ensures same { IfOk result (λ l. l ≡ list.now) }
{
    Ok(List::from_vec(Vec::from_slice(alloc, list.as_slice())?))
}

pub fn copy(alloc: Global, map: &SphereMap) -> Result<SphereMap, OutOfMemory>
    ensures same { IfOk result (λ m. m ≡ map.now) }
{
    let svertices = copy_list(alloc, &map.svertices)?;
    let arcs = copy_list(alloc, &map.arcs)?;
    Ok(SphereMap {
        mark: map.mark,
        svertices,
        arcs,
        sloop: map.sloop,
        ground: map.ground,
    })
}
