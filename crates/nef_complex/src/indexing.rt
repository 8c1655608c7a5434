//! A complex put together from carriers, vertices and edges.

ghost use Rattle.std.specs.Prelude.{◌≡◌, ◌↔◌};
ghost use Rattle.nef_complex.specs.Prelude.{IsTrue, IfOk, form_of, Edge, IndexedLists, indexed_lists, points_of, HasItemIn, LiesOn, AreNumbersWith, AreItemFlags, AreFlagged, IsIndexed, ItemsAreHeld, AreInOrder, HaveEnds, AreVertexHolders, AreAlone};

use crate::OutOfMemory;
use crate::complex::{Complex, Vertex};
use nef_geo::{List, Plane, plane_normal};
use nef_index::{Edge, Index, SortedCarriers, Span, Table};
use std::alloc::Global;

// Few vertices lie on more than three carriers.
pub(crate) const CARRIERS_AT_VERTEX: usize = 3;

/// For each vertex the numbers of the carriers that hold it. `OutOfMemory` says that memory was wanted and not found.
pub fn vertex_rows(
    alloc: Global,
    carriers: &SortedCarriers,
    vertices: &[Vertex],
) -> Result<Table, OutOfMemory>
    ensures rows { IfOk result (λ rows. AreVertexHolders carriers.now vertices.now rows) }
{
    let mut rows = Table::with_rows(alloc, vertices.len(), CARRIERS_AT_VERTEX)?;
    let mut numbers = Vec::new(alloc);
    for vertex in vertices {
        carriers.holders(&vertex.point, &mut numbers)?;
        rows.push(numbers.as_slice())?;
    }
    Ok(rows)
}

// Whether some vertex on the plane has an item in the plane. The numbers of the vertices on the plane are given.
fn has_item(h: &Plane, vertices: &[Vertex], on: &[usize]) -> bool
    requires on { AreNumbersWith (LiesOn vertices.now (form_of h.now)) on.now }
    ensures item { IsTrue result ↔ HasItemIn vertices.now (form_of h.now) }
{
    let normal = plane_normal(h);
    for number in on {
        if vertices[*number].map.item_with(&normal).is_some() {
            return true;
        }
    }
    false
}

// For each carrier whether some vertex has an item in the carrier.
fn item_flags(
    alloc: Global,
    carriers: &[Plane],
    vertices: &[Vertex],
    index: &Index,
) -> Result<List<bool>, OutOfMemory>
    requires carriers { index.now.carriers ≡ carriers.now }
    requires points { index.now.points ≡ points_of vertices.now }
    ensures flags { IfOk result (λ flags. AreItemFlags carriers.now vertices.now flags) }
{
    let mut flags = List::from_vec(Vec::with_capacity(alloc, carriers.len())?);
    for (number, h) in carriers.iter().enumerate() {
        flags.push(has_item(h, vertices, index.carrier_points(number)))?;
    }
    Ok(flags)
}

// For each vertex the span of its point alone.
fn vertex_spans(alloc: Global, vertices: &[Vertex]) -> Result<Vec<Span>, OutOfMemory>
    ensures alone { IfOk result (λ v. AreAlone vertices.now v.items) }
{
    let mut spans = Vec::with_capacity(alloc, vertices.len())?;
    for vertex in vertices {
        spans.push(Span::of(&vertex.point))?;
    }
    Ok(spans)
}

// The flags and the index of the carriers, vertices and edges. The carriers that hold each vertex are given.
fn index_of(
    alloc: Global,
    carriers: &[Plane],
    vertices: &[Vertex],
    edges: &[Edge],
    at_vertex: Table,
) -> Result<Index, OutOfMemory>
    ghost of: { IndexedLists }
    requires of { of ≡ indexed_lists carriers.now vertices.now edges.now }
    requires rows { AreVertexHolders carriers.now vertices.now at_vertex }
    requires ends { HaveEnds vertices.now edges.now }
    ensures index { IfOk result (λ x. x ≡ of) }
{
    let points = List::from_vec(vertex_spans(alloc, vertices)?);
    Index::of(alloc, carriers.len(), edges, at_vertex, points)
}

impl Complex {
    /// The complex with these carriers, vertices and edges, and with its index. The carriers that hold each vertex are
    /// given. Carriers stand in order, and some carrier holds each item. `OutOfMemory` says that memory was wanted and
    /// not found.
    pub fn of(
        alloc: Global,
        carriers: List<Plane>,
        vertices: List<Vertex>,
        edges: List<Edge>,
        at_vertex: Table,
    ) -> Result<Complex, OutOfMemory>
        requires ordered { AreInOrder carriers }
        requires held { ItemsAreHeld carriers vertices }
        requires rows { AreVertexHolders carriers vertices at_vertex }
        requires ends { HaveEnds vertices edges }
        ensures kept { IfOk result (λ c. (c.carriers ≡ carriers) × (c.vertices ≡ vertices) × (c.edges ≡ edges)) }
        ensures flagged { IfOk result (λ c. AreFlagged c.carriers c.vertices c.has_item) }
        ensures indexed { IfOk result IsIndexed }
    {
        let index = index_of(
            alloc,
            carriers.as_slice(),
            vertices.as_slice(),
            edges.as_slice(),
            at_vertex,
        )?;
        let has_item = item_flags(alloc, carriers.as_slice(), vertices.as_slice(), &index)?;
        Ok(Complex {
            carriers,
            vertices,
            edges,
            has_item,
            index,
        })
    }
}
