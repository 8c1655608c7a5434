//! Complexes from vertices, with all edges between these.

ghost use Rattle.std.specs.Prelude.{◌≡◌, ◌<◌, ◌+◌};
ghost use Rattle.nef_edges.specs.Prelude.{length, map, IfOk, OnOk, IsSortedBy, Set, Edges, vertex_of, edge_of, AreVerticesOf, ShowsSet, AreVertexHolders, end_lt, IsEarlierSvertex, AreArriving, AreJoined, AreEdges};

use crate::OutOfMemory;
use crate::arriving::{next_after, sorted_arriving};
use crate::edge_end::EdgeEnd;
use crate::guessed::edges_guessed;
use nef_complex::{Complex, Edge, SortedCarriers, Table, Vertex, vertex_rows};
use nef_geo::{List, Plane};
use std::alloc::Global;

// Adds the edges that lead on from vertex number i.
fn add_edges(
    edges: &mut Vec<Edge>,
    vertices: &[Vertex],
    i: usize,
    arriving: &[EdgeEnd],
) -> Result<(), OutOfMemory>
    requires within { i < length vertices.now }
    requires joined { AreJoined (map vertex_of vertices.now) }
    requires arriving { AreArriving vertices.now (IsEarlierSvertex (length vertices.now) 0) arriving.now }
    requires sorted { IsSortedBy end_lt arriving.now }
    requires before { AreEdges vertices.now (IsEarlierSvertex i 0) edges.old.items }
    ensures added { OnOk result (AreEdges vertices.now (IsEarlierSvertex (i + 1) 0) edges.new.items) }
{
    let vertex = &vertices[i];
    for (k, svertex) in vertex.map.svertices.as_slice().iter().enumerate() {
        if svertex.dir.is_normal() {
            let from = EdgeEnd::of(vertex.point, svertex.dir, i, k);
            let next = next_after(arriving, &from);
            edges.push(Edge {
                low: i,
                low_svertex: k,
                high: next.vertex,
                high_svertex: next.svertex,
                mark: svertex.mark,
            })?;
        }
    }
    Ok(())
}

// All edges between the vertices, in order.
fn edges_of(alloc: Global, vertices: &[Vertex]) -> Result<Vec<Edge>, OutOfMemory>
    requires joined { AreJoined (map vertex_of vertices.now) }
    ensures edges { IfOk result (λ v. Edges (map vertex_of vertices.now) (map edge_of v.items)) }
{
    let arriving = sorted_arriving(alloc, vertices)?;
    let mut edges = Vec::with_capacity(alloc, arriving.len())?;
    for i in 0..vertices.len() {
        add_edges(&mut edges, vertices, i, arriving.as_slice())?;
    }
    Ok(edges)
}

// With fewer vertices than this, all ends are sorted sooner than guesses are made and checked.
const GUESSED_FROM: usize = 64;

// As `edges_of`, for vertices most of whose edges are edges of the two complexes.
fn edges_from(
    alloc: Global,
    vertices: &[Vertex],
    first: &Complex,
    second: &Complex,
) -> Result<Vec<Edge>, OutOfMemory>
    requires joined { AreJoined (map vertex_of vertices.now) }
    ensures edges { IfOk result (λ v. Edges (map vertex_of vertices.now) (map edge_of v.items)) }
{
    if vertices.len() < GUESSED_FROM {
        return edges_of(alloc, vertices);
    }
    match edges_guessed(alloc, vertices, first, second)? {
        Some(edges) => Ok(edges),
        None => edges_of(alloc, vertices),
    }
}

// As `pair`, where the edges are given, and for each vertex the numbers of the carriers that hold the vertex.
fn pair_held(
    alloc: Global,
    carriers: List<Plane>,
    vertices: List<Vertex>,
    edges: Vec<Edge>,
    at_vertex: Table,
) -> Result<Complex, OutOfMemory>
    requires vertices { (s : Set) × AreVerticesOf s carriers vertices }
    requires edges { Edges (map vertex_of vertices) (map edge_of edges.items) }
    requires holders { AreVertexHolders carriers vertices at_vertex }
    ensures kept { IfOk result (λ c. (c.carriers ≡ carriers) × (c.vertices ≡ vertices)) }
    ensures edges { IfOk result (λ c. Edges (map vertex_of c.vertices) (map edge_of c.edges)) }
    ensures shows { IfOk result (λ c. (s : Set) → AreVerticesOf s carriers vertices → ShowsSet s c) }
{
    Complex::of(alloc, carriers, vertices, List::from_vec(edges), at_vertex)
}

/// The complex with these carriers and vertices, and with all edges between the vertices. Some set has exactly these
/// carriers and exactly these vertices with their least maps, all in order. `OutOfMemory` says that memory was wanted
/// and not found.
pub fn pair(
    alloc: Global,
    carriers: List<Plane>,
    vertices: List<Vertex>,
) -> Result<Complex, OutOfMemory>
    requires vertices { (s : Set) × AreVerticesOf s carriers vertices }
    ensures kept { IfOk result (λ c. (c.carriers ≡ carriers) × (c.vertices ≡ vertices)) }
    ensures edges { IfOk result (λ c. Edges (map vertex_of c.vertices) (map edge_of c.edges)) }
    ensures shows { IfOk result (λ c. (s : Set) → AreVerticesOf s carriers vertices → ShowsSet s c) }
{
    let carriers = SortedCarriers::of(alloc, carriers)?;
    let rows = vertex_rows(alloc, &carriers, vertices.as_slice())?;
    let edges = edges_of(alloc, vertices.as_slice())?;
    pair_held(alloc, carriers.into_planes(), vertices, edges, rows)
}

/// As `pair`, for a result of two operands, where the numbers of the carriers that hold each vertex are given. The
/// edges of the operands are tried first. Maps may have been moved out of the operands into the vertices.
pub fn pair_rows(
    alloc: Global,
    carriers: List<Plane>,
    vertices: List<Vertex>,
    at_vertex: Table,
    first: &Complex,
    second: &Complex,
) -> Result<Complex, OutOfMemory>
    requires vertices { (s : Set) × AreVerticesOf s carriers vertices }
    requires holders { AreVertexHolders carriers vertices at_vertex }
    ensures kept { IfOk result (λ c. (c.carriers ≡ carriers) × (c.vertices ≡ vertices)) }
    ensures edges { IfOk result (λ c. Edges (map vertex_of c.vertices) (map edge_of c.edges)) }
    ensures shows { IfOk result (λ c. (s : Set) → AreVerticesOf s carriers vertices → ShowsSet s c) }
{
    let edges = edges_from(alloc, vertices.as_slice(), first, second)?;
    pair_held(alloc, carriers, vertices, edges, at_vertex)
}
