//! Edges of an operand that still join two vertices of the result.

ghost use Rattle.nef_edges.specs.Prelude.{IfSome, LeadsTo};

use crate::OutOfMemory;
use crate::ends::{End, are_matched, end_at};
use nef_complex::{Complex, Edge, Vertex};
use nef_geo::{Dir, Point, lex_cmp};
use nef_smap::SVertex;
use std::alloc::Global;
use std::cmp::Ordering;

// How many vertices are tried one by one before the search halves.
const NEAR: usize = 8;

// Whether the vertex with this number stands at the point.
fn stands_at(vertices: &[Vertex], number: usize, point: &Point) -> bool {
    match vertices.get(number) {
        Some(vertex) => vertex.point == *point,
        None => false,
    }
}

// The number of the first vertex that isn't below the point, where all vertices before number `from` are below, and
// mostly vertex `from` stands at the point.
fn next_vertex(vertices: &[Vertex], from: usize, point: &Point) -> usize {
    if stands_at(vertices, from, point) {
        return from;
    }
    let end = from.saturating_add(NEAR).min(vertices.len());
    for number in from..end {
        if lex_cmp(&vertices[number].point, point).is_ge() {
            return number;
        }
    }
    if end == vertices.len() {
        return end;
    }
    vertices.partition_point(|vertex| lex_cmp(&vertex.point, point).is_lt())
}

// For each old vertex the number of the new vertex at its point, or `usize::MAX` where none stands there. Both lists
// are in order, so one pass is enough.
fn numbers_of(alloc: Global, old: &[Vertex], new: &[Vertex]) -> Result<Vec<usize>, OutOfMemory> {
    let mut numbers = Vec::with_capacity(alloc, old.len())?;
    let mut next: usize = 0;
    for vertex in old {
        next = next_vertex(new, next, &vertex.point);
        if stands_at(new, next, &vertex.point) {
            numbers.push(next)?;
            next = next.saturating_add(1);
        } else {
            numbers.push(usize::MAX)?;
        }
    }
    Ok(numbers)
}

// Whether the svertex with this number has the direction.
fn has_dir(svertices: &[SVertex], number: usize, dir: &Dir) -> bool {
    match svertices.get(number) {
        Some(svertex) => svertex.dir.is_same(dir),
        None => false,
    }
}

// The number of the svertex with this direction: mostly `number`, as in a map that was taken over.
fn svertex_along(svertices: &[SVertex], number: usize, dir: &Dir) -> Option<usize> {
    if has_dir(svertices, number, dir) {
        return Some(number);
    }
    svertices
        .binary_search_by(|svertex| svertex.dir.cmp(dir))
        .ok()
}

/// The edges of an operand, passed in order together with the svertices of the result. Maps may have been moved out of
/// the operand into the vertices of the result.
#[derive(Drop)]
pub(crate) struct KeptEdges<'a> {
    old: &'a [Vertex],
    edges: &'a [Edge],
    numbers: Vec<usize>,
    // How many edges have been passed, and the number of the new vertex from which the next edge leads on.
    passed: usize,
    low: usize,
}

// The number of the new vertex at the point of this old vertex, or `usize::MAX`.
fn number_of(numbers: &[usize], old: usize) -> usize {
    match numbers.get(old) {
        Some(number) => *number,
        None => usize::MAX,
    }
}

// Passes the edges before the first edge, from number `from` on, that leads on from vertex i or a later one.
fn pass(source: &mut KeptEdges, from: usize, i: usize) {
    let edges = source.edges;
    for number in from..edges.len() {
        let low = number_of(source.numbers.as_slice(), edges[number].low);
        if i <= low && low != usize::MAX {
            source.passed = number;
            source.low = low;
            return;
        }
    }
    source.passed = edges.len();
    source.low = usize::MAX;
}

impl<'a> KeptEdges<'a> {
    /// The edges of the operand, with the numbers of the result's vertices.
    pub(crate) fn of(
        alloc: Global,
        complex: &'a Complex,
        vertices: &[Vertex],
    ) -> Result<KeptEdges<'a>, OutOfMemory> {
        let old = complex.vertices.as_slice();
        let numbers = numbers_of(alloc, old, vertices)?;
        let mut source = KeptEdges {
            old,
            edges: complex.edges.as_slice(),
            numbers,
            passed: 0,
            low: 0,
        };
        pass(&mut source, 0, 0);
        Ok(source)
    }
}

// Compares the direction of the edge, which leads on from the vertex of `low`, with the direction of `low`. An old
// vertex whose map was moved has no svertices any more: the new vertex at its point has them.
fn dir_order(source: &KeptEdges, edge: &Edge, low: &End) -> Ordering {
    let mut svertices = low.vertex.map.svertices.as_slice();
    if let Some(old) = source.old.get(edge.low) {
        if !old.map.svertices.as_slice().is_empty() {
            svertices = old.map.svertices.as_slice();
        }
    }
    match svertices.get(edge.low_svertex) {
        Some(svertex) => svertex.dir.cmp(&low.svertex.dir),
        None => Ordering::Less,
    }
}

// The edge that leads on from `low` along its direction, where there is one. The edges before this edge are passed.
fn edge_along(source: &mut KeptEdges, low: &End) -> Option<Edge> {
    let edges = source.edges;
    for number in source.passed..edges.len() {
        let edge = edges[number];
        let order = if number_of(source.numbers.as_slice(), edge.low) == low.vertex_number {
            dir_order(source, &edge, low)
        } else {
            Ordering::Greater
        };
        if order.is_eq() {
            pass(source, number + 1, low.vertex_number);
            return Some(edge);
        }
        if order.is_gt() {
            pass(source, number, low.vertex_number);
            return None;
        }
    }
    None
}

// The end with these numbers, where it matches `low`.
fn matched_end(
    vertices: &[Vertex],
    low: &End,
    number: usize,
    svertex_number: usize,
) -> Option<(usize, usize)>
    ensures leads { IfSome result (λ t. LeadsTo vertices.now low.now t.0 t.1) }
{
    let high = end_at(vertices, number, svertex_number)?;
    if are_matched(low, &high) {
        Some((high.vertex_number, high.svertex_number))
    } else {
        None
    }
}

// As `kept_end`, where maps differ: svertices are searched by their directions.
#[inline(never)]
fn searched_end(source: &mut KeptEdges, vertices: &[Vertex], low: &End) -> Option<(usize, usize)>
    ensures leads { IfSome result (λ t. LeadsTo vertices.now low.now t.0 t.1) }
{
    let edge = edge_along(source, low)?;
    let number = number_of(source.numbers.as_slice(), edge.high);
    let svertices = vertices.get(number)?.map.svertices.as_slice();
    let to = svertex_along(svertices, edge.high_svertex, &low.svertex.dir.back())?;
    matched_end(vertices, low, number, to)
}

// As `kept_end`, where the next edge leads on from `low` and its svertices have their old numbers. This edge is passed.
fn same_end(source: &mut KeptEdges, vertices: &[Vertex], low: &End) -> Option<(usize, usize)>
    ensures leads { IfSome result (λ t. LeadsTo vertices.now low.now t.0 t.1) }
{
    let edges = source.edges;
    let edge = edges.get(source.passed)?;
    if edge.low_svertex != low.svertex_number {
        return None;
    }
    let number = number_of(source.numbers.as_slice(), edge.high);
    let end = matched_end(vertices, low, number, edge.high_svertex)?;
    pass(source, source.passed.saturating_add(1), low.vertex_number);
    Some(end)
}

/// The end to which an edge of the operand leads from `low`, as the numbers of vertex and svertex, where the two ends
/// still match. Mostly both maps were taken over, so that svertices have their old numbers.
pub(crate) fn kept_end(
    source: &mut KeptEdges,
    vertices: &[Vertex],
    low: &End,
) -> Option<(usize, usize)>
    ensures leads { IfSome result (λ t. LeadsTo vertices.now low.now t.0 t.1) }
{
    if source.low < low.vertex_number {
        pass(source, source.passed, low.vertex_number);
    }
    if source.low > low.vertex_number {
        return None;
    }
    let end = same_end(source, vertices, low);
    if end.is_some() {
        return end;
    }
    searched_end(source, vertices, low)
}
