//! Guesses of the edges from all svertices that lead on, by the edges of the operands. Ends without a guess are loose.

ghost use Rattle.nef_edges.specs.Prelude.{List, Some, length, IfSome, IfOk, OnOk, Vertex as VertexValue, IsEarlierSvertex, AreLaid, IsEnd, LeadsTo};
ghost use Rattle.std.specs.Prelude.{◌≡◌, ◌<◌, ◌+◌};

use crate::OutOfMemory;
use crate::edge_end::EdgeEnd;
use crate::ends::End;
use crate::guessed::{slot, take};
use crate::kept::{KeptEdges, kept_end};
use crate::loose::Loose;
use nef_complex::{Edge, Vertex};
use std::alloc::Global;

/// The edges of the two operands.
#[derive(Drop)]
pub(crate) struct Sources<'a> {
    pub(crate) first: KeptEdges<'a>,
    pub(crate) second: KeptEdges<'a>,
}

// For each svertex a mark: whether an edge arrives there. `starts` has the number of each vertex's first svertex.
#[derive(Drop)]
struct Arrived<'a> {
    starts: &'a [usize],
    marks: Vec<bool>,
}

// The end with these numbers, if no edge arrives there yet. It is marked as one at which an edge arrives.
fn free_end(arrived: &mut Arrived, end: Option<(usize, usize)>) -> Option<(usize, usize)>
    ensures same { IfSome result (λ t. end ≡ Some t) }
{
    let end = end?;
    if take(&mut arrived.marks, slot(arrived.starts, end.0, end.1)) {
        return Some(end);
    }
    None
}

// The end to which an operand's edge leads from `low`, as numbers of vertex and svertex, if no edge arrives there yet.
fn end_from(
    arrived: &mut Arrived,
    sources: &mut Sources,
    vertices: &[Vertex],
    low: &End,
) -> Option<(usize, usize)>
    ensures leads { IfSome result (λ t. LeadsTo vertices.now low.now t.0 t.1) }
{
    let one = kept_end(&mut sources.first, vertices, low);
    let end = free_end(arrived, one);
    if end.is_some() {
        return end;
    }
    let other = kept_end(&mut sources.second, vertices, low);
    free_end(arrived, other)
}

// Adds the edge from `low` without a guess, and notes the end as loose.
fn lay_loose(edges: &mut Vec<Edge>, loose: &mut Loose, low: &End) -> Result<(), OutOfMemory>
    ensures added { OnOk result ((vs : List VertexValue) → AreLaid vs (IsEarlierSvertex low.now.vertex_number low.now.svertex_number) edges.old.items loose.old.numbers.items 0 → AreLaid vs (IsEarlierSvertex low.now.vertex_number (low.now.svertex_number + 1)) edges.new.items loose.new.numbers.items 0) }
{
    loose.numbers.push(edges.len())?;
    loose.leading.push(EdgeEnd::of(
        low.vertex.point,
        low.svertex.dir,
        low.vertex_number,
        low.svertex_number,
    ))?;
    edges.push(Edge {
        low: low.vertex_number,
        low_svertex: low.svertex_number,
        high: 0,
        high_svertex: 0,
        mark: low.svertex.mark,
    })?;
    Ok(())
}

// Adds the edge from `low`, by a guess or as loose.
fn lay_edge(
    edges: &mut Vec<Edge>,
    loose: &mut Loose,
    arrived: &mut Arrived,
    sources: &mut Sources,
    vertices: &[Vertex],
    low: &End,
) -> Result<(), OutOfMemory>
    requires end { IsEnd vertices.now low.now }
    requires before { AreLaid vertices.now (IsEarlierSvertex low.now.vertex_number low.now.svertex_number) edges.old.items loose.old.numbers.items 0 }
    ensures added { OnOk result (AreLaid vertices.now (IsEarlierSvertex low.now.vertex_number (low.now.svertex_number + 1)) edges.new.items loose.new.numbers.items 0) }
{
    if let Some(end) = end_from(arrived, sources, vertices, low) {
        edges.push(Edge {
            low: low.vertex_number,
            low_svertex: low.svertex_number,
            high: end.0,
            high_svertex: end.1,
            mark: low.svertex.mark,
        })?;
        return Ok(());
    }
    lay_loose(edges, loose, low)?;
    Ok(())
}

// Adds an end at which an edge arrives, if no guess leads there.
fn add_arrival(
    arriving: &mut Vec<EdgeEnd>,
    arrived: &Arrived,
    high: &End,
) -> Result<(), OutOfMemory> {
    let slot = slot(arrived.starts, high.vertex_number, high.svertex_number);
    let is_met = match arrived.marks.get(slot) {
        Some(mark) => *mark,
        None => false,
    };
    if !is_met {
        arriving.push(EdgeEnd::of(
            high.vertex.point,
            high.svertex.dir.back(),
            high.vertex_number,
            high.svertex_number,
        ))?;
    }
    Ok(())
}

// Adds the edges that lead on from vertex number i. Edges that arrive there come from earlier vertices, and are known.
fn lay_edges_from(
    edges: &mut Vec<Edge>,
    loose: &mut Loose,
    arrived: &mut Arrived,
    sources: &mut Sources,
    vertices: &[Vertex],
    i: usize,
) -> Result<(), OutOfMemory>
    requires within { i < length vertices.now }
    requires before { AreLaid vertices.now (IsEarlierSvertex i 0) edges.old.items loose.old.numbers.items 0 }
    ensures added { OnOk result (AreLaid vertices.now (IsEarlierSvertex (i + 1) 0) edges.new.items loose.new.numbers.items 0) }
{
    let vertex = &vertices[i];
    for (k, svertex) in vertex.map.svertices.as_slice().iter().enumerate() {
        let end = End {
            vertex,
            svertex,
            vertex_number: i,
            svertex_number: k,
        };
        if svertex.dir.is_normal() {
            lay_edge(edges, loose, arrived, sources, vertices, &end)?;
        } else {
            add_arrival(&mut loose.arriving, arrived, &end)?;
        }
    }
    Ok(())
}

/// The edges from all svertices that lead on, in order. Ends without a guess are noted as loose.
pub(crate) fn lay_edges(
    alloc: Global,
    vertices: &[Vertex],
    starts: &[usize],
    count: usize,
    sources: &mut Sources,
    loose: &mut Loose,
) -> Result<Vec<Edge>, OutOfMemory>
    ensures laid { IfOk result (λ es. AreLaid vertices.now (IsEarlierSvertex (length vertices.now) 0) es.items loose.new.numbers.items 0) }
{
    let mut edges = Vec::with_capacity(alloc, count / 2)?;
    let mut arrived = Arrived {
        starts,
        marks: vec![in alloc; false; count]?,
    };
    for i in 0..vertices.len() {
        lay_edges_from(&mut edges, loose, &mut arrived, sources, vertices, i)?;
    }
    Ok(edges)
}
