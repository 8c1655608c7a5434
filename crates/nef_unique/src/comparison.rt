//! Comparing complexes by their vertices, and the laws of what is unique.

ghost use Rattle.std.specs.Prelude.{◌≡◌, ◌↔◌};
ghost use Rattle.nef_complex.specs.Prelude.{IsTrue, SameSet, Set, ShowsSet};
ghost use Rattle.nef_unique.specs.Laws.{LeastSphereMapUnique, SameSetSameVertices, SameVerticesSameSet};

use nef_complex::{Complex, Vertex};
use nef_smap::SphereMap;

/// Whether two maps are equal in all that they hold. No memory is taken.
pub fn same_map(a: &SphereMap, b: &SphereMap) -> bool
    ensures same { IsTrue result ↔ (a.now ≡ b.now) }
{
    a.mark == b.mark
        && a.svertices.as_slice() == b.svertices.as_slice()
        && a.arcs.as_slice() == b.arcs.as_slice()
        && a.sloop == b.sloop
        && a.ground == b.ground
}

// Whether two vertices have the same point and equal maps.
fn same_vertex(a: &Vertex, b: &Vertex) -> bool
    ensures same { IsTrue result ↔ (a.now ≡ b.now) }
{
    a.point == b.point && same_map(&a.map, &b.map)
}

/// Whether the two complexes have the same vertices: as many, with equal points and maps one by one. Carriers and edges
/// aren't looked at. No memory is taken.
pub fn same_vertices(a: &Complex, b: &Complex) -> bool
    ensures same { IsTrue result ↔ (a.now.vertices ≡ b.now.vertices) }
{
    let left = a.vertices.as_slice();
    let right = b.vertices.as_slice();
    if left.len() != right.len() {
        return false;
    }
    for (v, w) in left.iter().zip(right) {
        if !same_vertex(v, w) {
            return false;
        }
    }
    true
}

/// Whether the sets that the complexes show hold at the same points of the frame. No memory is taken.
pub fn compare(a: &Complex, b: &Complex) -> bool
    ensures same { (s t : Set) → ShowsSet s a.now → ShowsSet t b.now → IsTrue result ↔ SameSet s t }
{
    same_vertices(a, b)
}

/// Two least maps with one mark and one label in each direction are equal. So complexes that show one set have the same
/// vertices and edges; and sets with the same vertices are one set.
pub fn unique_laws()
    ensures least { LeastSphereMapUnique }
    ensures vertices { SameSetSameVertices }
    ensures sets { SameVerticesSameSet }
{}
