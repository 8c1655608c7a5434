//! Edges by guesses, each of which is checked alone: edges of the operands, and edges between the ends that are left.

ghost use Rattle.nef_edges.specs.Prelude.{[], set, true, ℕ, length, map, IsTrue, IfSome, IfOk, IsAt, vertex_of, edge_of, Edges, Edge as EdgeValue, IsMatched, ArriveApart, slot_of, AreLaid, IsJoinedAt, IsEarlierSvertex, AreJoined};
ghost use Rattle.std.specs.Prelude.{◌≡◌};

use crate::OutOfMemory;
use crate::arriving::end_cmp;
use crate::edge_end::EdgeEnd;
use crate::ends::{are_matched, end_at};
use crate::guesses::{Sources, lay_edges};
use crate::kept::KeptEdges;
use crate::loose::{Loose, part_edges};
use nef_complex::{Complex, Edge, Vertex};
use std::alloc::Global;

/// Sets the mark with this number, and says whether there is such a mark that wasn't set before.
pub(crate) fn take(marks: &mut Vec<bool>, slot: usize) -> bool
    ensures free { IsTrue result → IsAt marks.old.items slot true → ⊥ }
    ensures taken { IsTrue result → IsAt marks.new.items slot true }
    ensures kept { (k : ℕ) → IsAt marks.old.items k true → IsAt marks.new.items k true }
{
    if slot < marks.len() && !marks[slot] {
        marks[slot] = true;
        return true;
    }
    false
}

/// The number of a svertex among the svertices of all vertices.
pub(crate) fn slot(starts: &[usize], vertex: usize, svertex: usize) -> usize
    ensures slot { result ≡ slot_of starts.now vertex svertex }
{
    let start = match starts.get(vertex) {
        Some(start) => *start,
        None => 0,
    };
    start.saturating_add(svertex)
}

// For each vertex the number of its first svertex among all svertices, and how many svertices there are.
fn starts_of(alloc: Global, vertices: &[Vertex]) -> Result<(Vec<usize>, usize), OutOfMemory> {
    let mut starts = Vec::with_capacity(alloc, vertices.len())?;
    let mut count: usize = 0;
    for vertex in vertices {
        starts.push(count)?;
        count = count.saturating_add(vertex.map.svertices.as_slice().len());
    }
    Ok((starts, count))
}

// The edge with this number, led to `end` instead, where its lower end matches `end`.
fn joined_edge(edges: &[Edge], vertices: &[Vertex], number: usize, end: &EdgeEnd) -> Option<Edge>
    ensures matched { IfSome result (λ f. IsMatched (map vertex_of vertices.now) (edge_of f)) }
    ensures old { IfSome result (λ f. (e : EdgeValue) × IsAt edges.now number e × (f.low ≡ e.low) × (f.low_svertex ≡ e.low_svertex)) }
{
    let edge = edges.get(number)?;
    let low = end_at(vertices, edge.low, edge.low_svertex)?;
    let high = end_at(vertices, end.vertex, end.svertex)?;
    if !are_matched(&low, &high) {
        return None;
    }
    Some(Edge {
        low: low.vertex_number,
        low_svertex: low.svertex_number,
        high: high.vertex_number,
        high_svertex: high.svertex_number,
        mark: low.svertex.mark,
    })
}

// Replaces the edge with this number, and says whether there is an edge with this number.
fn put(edges: &mut Vec<Edge>, number: usize, edge: Edge) -> bool
    ensures put { IsTrue result → edges.new.items ≡ set edges.old.items number edge }
{
    if number < edges.len() {
        edges[number] = edge;
        return true;
    }
    false
}

// Leads the edge with this number to `end`, and says whether its lower end matches `end`.
fn join(edges: &mut Vec<Edge>, vertices: &[Vertex], number: usize, end: &EdgeEnd) -> bool
    ensures joined { IsTrue result → IsJoinedAt vertices.now number edges.old.items edges.new.items }
{
    match joined_edge(edges.as_slice(), vertices, number, end) {
        Some(edge) => put(edges, number, edge),
        None => false,
    }
}

// The first arriving end after leading end `number` in the order of ends.
fn first_after<'a>(
    arriving: &'a [EdgeEnd],
    leading: &[EdgeEnd],
    number: usize,
) -> Option<&'a EdgeEnd> {
    let from = leading.get(number)?;
    let next = arriving.partition_point(|end| end_cmp(end, from).is_le());
    arriving.get(next)
}

// Leads each of the edges with these numbers, whose lower ends are `leading`, to the first arriving end after its own.
// Says whether all of these edges match.
fn join_loose(
    edges: &mut Vec<Edge>,
    vertices: &[Vertex],
    numbers: &[usize],
    leading: &[EdgeEnd],
    arriving: &[EdgeEnd],
) -> bool
    requires laid { AreLaid vertices.now (IsEarlierSvertex (length vertices.now) 0) edges.old.items numbers.now 0 }
    ensures joined { IsTrue result → AreLaid vertices.now (IsEarlierSvertex (length vertices.now) 0) edges.new.items [] 0 }
{
    for j in 0..numbers.len() {
        let number = numbers[j];
        let Some(end) = first_after(arriving, leading, j) else {
            return false;
        };
        if !join(edges, vertices, number, end) {
            return false;
        }
    }
    true
}

// Whether no two of the edges arrive at one svertex.
fn are_apart(marks: &mut Vec<bool>, starts: &[usize], edges: &[Edge]) -> bool
    ensures apart { IsTrue result → ArriveApart edges.now (length edges.now) }
{
    for k in 0..edges.len() {
        let edge = &edges[k];
        if !take(marks, slot(starts, edge.high, edge.high_svertex)) {
            return false;
        }
    }
    true
}

// Leads the loose edges to their higher ends, and says whether the edges then are all edges between the vertices. They
// aren't where a guess is wrong, or where guesses don't pay, since more than half of the ends have none.
fn are_completed(
    alloc: Global,
    vertices: &[Vertex],
    starts: &[usize],
    count: usize,
    loose: &mut Loose,
    edges: &mut Vec<Edge>,
) -> Result<bool, OutOfMemory>
    requires joined { AreJoined (map vertex_of vertices.now) }
    requires laid { AreLaid vertices.now (IsEarlierSvertex (length vertices.now) 0) edges.old.items loose.old.numbers.items 0 }
    ensures edges { IfOk result (λ b. IsTrue b → Edges (map vertex_of vertices.now) (map edge_of edges.new.items)) }
{
    if loose.len() > count / 2 {
        return Ok(false);
    }
    part_edges(alloc, loose, vertices, edges.as_slice())?;
    let is_joined = join_loose(
        edges,
        vertices,
        loose.numbers.as_slice(),
        loose.leading.as_slice(),
        loose.arriving.as_slice(),
    );
    if !is_joined {
        return Ok(false);
    }
    let mut marks = vec![in alloc; false; count]?;
    Ok(are_apart(&mut marks, starts, edges.as_slice()))
}

/// All edges between the vertices, in order, by guesses: most are edges of the two complexes. `None` says that a guess
/// is wrong, or that guesses don't pay, since more than half of the ends have none.
pub(crate) fn edges_guessed(
    alloc: Global,
    vertices: &[Vertex],
    first: &Complex,
    second: &Complex,
) -> Result<Option<Vec<Edge>>, OutOfMemory>
    requires joined { AreJoined (map vertex_of vertices.now) }
    ensures edges { IfOk result (λ o. IfSome o (λ v. Edges (map vertex_of vertices.now) (map edge_of v.items))) }
{
    let mut sources = Sources {
        first: KeptEdges::of(alloc, first, vertices)?,
        second: KeptEdges::of(alloc, second, vertices)?,
    };
    let (starts, count) = starts_of(alloc, vertices)?;
    let starts = starts.as_slice();
    let mut loose = Loose::none(alloc);
    let mut edges = lay_edges(alloc, vertices, starts, count, &mut sources, &mut loose)?;
    if are_completed(alloc, vertices, starts, count, &mut loose, &mut edges)? {
        Ok(Some(edges))
    } else {
        Ok(None)
    }
}
