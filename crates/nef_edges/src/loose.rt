//! Ends for which there is no guess, and edges that may be cut between such ends.

ghost use Rattle.nef_edges.specs.Prelude.{OnOk, IsPart};

use crate::OutOfMemory;
use crate::arriving::end_cmp;
use crate::edge_end::{EdgeEnd, line_key};
use nef_complex::{Edge, Vertex};
use std::alloc::Global;

/// Ends for which there is no guess: leading ends, with the numbers of the edges from them, and arriving ends.
#[derive(Drop)]
pub(crate) struct Loose {
    pub(crate) numbers: Vec<usize>,
    pub(crate) leading: Vec<EdgeEnd>,
    pub(crate) arriving: Vec<EdgeEnd>,
}

impl Loose {
    pub(crate) fn none(alloc: Global) -> Loose {
        Loose {
            numbers: Vec::new(alloc),
            leading: Vec::new(alloc),
            arriving: Vec::new(alloc),
        }
    }

    pub(crate) fn len(&self) -> usize {
        self.leading.len().saturating_add(self.arriving.len())
    }
}

// The keys and the vertices of the loose ends, in order.
fn places_of(alloc: Global, loose: &Loose) -> Result<Vec<(i64, usize)>, OutOfMemory> {
    let mut places = Vec::with_capacity(alloc, loose.len())?;
    for end in loose.leading.iter().chain(loose.arriving.iter()) {
        places.push((end.key, end.vertex))?;
    }
    places.sort_unstable();
    Ok(places)
}

// The first and the last of the vertices of all loose ends.
fn span_of(places: &[(i64, usize)]) -> (usize, usize) {
    let mut first = usize::MAX;
    let mut last = 0;
    for place in places {
        first = first.min(place.1);
        last = last.max(place.1);
    }
    (first, last)
}

// Whether an edge from vertex `low` to vertex `high` on a line with the key may be cut: the line has a loose end above
// `low`, and one below `high`. The first loose end above `low` tells, with the one before it.
fn may_be_cut(places: &[(i64, usize)], key: i64, low: usize, high: usize) -> bool {
    let next = places.partition_point(|place| place.0 < key || (place.0 == key && place.1 <= low));
    match places.get(next) {
        Some(above) if above.0 == key => {
            above.1 < high || (next > 0 && places[next - 1].0 == key)
        }
        _ => false,
    }
}

// Adds the ends of edge number k as loose, where the edge may be cut. `span` holds the first and the last vertex of all
// loose ends: most edges lie outside this span.
fn part(
    loose: &mut Loose,
    places: &[(i64, usize)],
    span: (usize, usize),
    vertices: &[Vertex],
    k: usize,
    edge: &Edge,
) -> Result<(), OutOfMemory>
    ensures kept { OnOk result (IsPart loose.old.numbers.items loose.new.numbers.items) }
{
    if edge.low >= span.1 || span.0 >= edge.high {
        return Ok(());
    }
    if let (Some(low), Some(high)) = (vertices.get(edge.low), vertices.get(edge.high)) {
        if let Some(svertex) = low.map.svertices.as_slice().get(edge.low_svertex) {
            let key = line_key(&low.point, &svertex.dir);
            if may_be_cut(places, key, edge.low, edge.high) {
                loose.numbers.push(k)?;
                loose.leading.push(EdgeEnd::of(
                    low.point,
                    svertex.dir,
                    edge.low,
                    edge.low_svertex,
                ))?;
                loose.arriving.push(EdgeEnd::of(
                    high.point,
                    svertex.dir,
                    edge.high,
                    edge.high_svertex,
                ))?;
            }
        }
    }
    Ok(())
}

/// Adds the ends of edges that may be cut, since they pass between loose ends of their line, and sorts the arriving
/// ends. Each wrong guess, as for an edge that was cut, leaves loose ends on the edge's line, so that the edge lies
/// between or across the line's first and last loose end. An edge that ends at vertex 0 is no guess.
pub(crate) fn part_edges(
    alloc: Global,
    loose: &mut Loose,
    vertices: &[Vertex],
    edges: &[Edge],
) -> Result<(), OutOfMemory>
    ensures kept { OnOk result (IsPart loose.old.numbers.items loose.new.numbers.items) }
{
    let places = places_of(alloc, loose)?;
    let span = span_of(places.as_slice());
    for k in 0..edges.len() {
        part(loose, places.as_slice(), span, vertices, k, &edges[k])?;
    }
    loose.arriving.sort_unstable_by(end_cmp);
    Ok(())
}
