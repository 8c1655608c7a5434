//! Ends of edges, by the numbers of vertex and svertex, and whether two ends match.

ghost use Rattle.nef_edges.specs.Prelude.{List, IsTrue, IfSome, Vertex as VertexValue, AreMatchedEnds, IsEnd, LeadsTo};
ghost use Rattle.std.specs.Prelude.{◌≡◌};

use crate::along::is_along;
use nef_complex::Vertex;
use nef_smap::SVertex;

/// A svertex of a vertex, with the numbers of both.
#[derive(Clone, Copy)]
pub(crate) struct End<'a> {
    pub(crate) vertex: &'a Vertex,
    pub(crate) svertex: &'a SVertex,
    pub(crate) vertex_number: usize,
    pub(crate) svertex_number: usize,
}

/// The end with these numbers, where there is one.
pub(crate) fn end_at(
    vertices: &[Vertex],
    vertex_number: usize,
    svertex_number: usize,
) -> Option<End>
    ensures end { IfSome result (λ e. IsEnd vertices.now e) }
    ensures vertex { IfSome result (λ e. e.vertex_number ≡ vertex_number) }
    ensures svertex { IfSome result (λ e. e.svertex_number ≡ svertex_number) }
{
    let vertex = vertices.get(vertex_number)?;
    let svertex = vertex.map.svertices.as_slice().get(svertex_number)?;
    Some(End {
        vertex,
        svertex,
        vertex_number,
        svertex_number,
    })
}

// Whether `from` leads from `low` to later points, and `to` leads from `high` back along the same line.
fn is_matched(low: &Vertex, from: &SVertex, high: &Vertex, to: &SVertex) -> bool
    ensures matched { IsTrue result → AreMatchedEnds low.now from.now high.now to.now }
{
    if !from.dir.is_normal() {
        return false;
    }
    if !from.dir.is_same(&to.dir.back()) {
        return false;
    }
    is_along(&low.point, &from.dir, &high.point)
}

/// Whether the two ends match: an edge from `low` arrives at `high`, which is an end of a later vertex.
pub(crate) fn are_matched(low: &End, high: &End) -> bool
    ensures matched { IsTrue result → (vs : List VertexValue) → IsEnd vs high.now → LeadsTo vs low.now high.now.vertex_number high.now.svertex_number }
{
    if low.vertex_number >= high.vertex_number {
        return false;
    }
    is_matched(low.vertex, low.svertex, high.vertex, high.svertex)
}
