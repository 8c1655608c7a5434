//! The ties of corners along edges and across facets.

ghost use Rattle.std.specs.Prelude.{◌↔◌, ◌<◌};
ghost use Rattle.nef_facets.specs.Prelude.{map, IsTrue, IfOk, OnOk, length, IsAt, Set, Plane, Corner as PlainCorner, complex_of, corner_of, ShowsSet, edge_of, count_items, LinkAlong, LinkAcross, AreTiedWithin, AreTied, map_of, arc_of, HasItem, IsPlaneAt, cell_of, BeginAndEnd, IsTieFromArc, IsTieOfEdge, Any, Adds, IsLinkedFrom, IsTieAcross};

use crate::OutOfMemory;
use nef_classes::{Cell, Tie};
use nef_complex::{Complex, Corner, Edge, carrier_items, vertex_holders};
use nef_geo::{plane_dir, plane_normal};
use nef_locate::corner_toward;
use nef_plane::first_along_dir;
use nef_smap::{SArc, SphereMap};
use std::alloc::Global;

/// The number of the carrier in which the corner's item lies: one of the carriers that hold the vertex.
pub(crate) fn carrier_of(c: &Complex, k: &Corner) -> usize
    requires shows { (s : Set) × ShowsSet s c.now }
    requires corner { HasItem (complex_of c.now) (corner_of k.now) }
    ensures plane { (h : Plane) × IsAt c.now.carriers result h × IsPlaneAt (complex_of c.now) h (corner_of k.now) }
{
    let vertex = c.vertices.at(k.vertex);
    let item = vertex.map.item_at(k.item);
    let normal = item.normal();
    let holders = vertex_holders(c, k.vertex);
    let mut place = 0;
    loop {
        let number = holders[place];
        if plane_normal(c.carriers.at(number)).is_same(normal) {
            return number;
        }
        place += 1;
    }
}

// Whether one of the arcs begins and the other ends at the edge, each at its end of the edge.
fn begin_and_end(edge: &Edge, low: &SArc, high: &SArc) -> bool
    ensures ends { IsTrue result ↔ BeginAndEnd (edge_of edge.now) (arc_of low.now) (arc_of high.now) }
{
    (low.source == edge.low_svertex && high.target == edge.high_svertex)
        || (low.target == edge.low_svertex && high.source == edge.high_svertex)
}

// Adds the ties of arc `item` at the edge's lower end with arcs in the same plane at the edge's higher end, where one
// arc begins at the edge and the other ends there.
fn add_arc_ties(
    ties: &mut Vec<Tie>,
    edge: &Edge,
    item: usize,
    low: &SArc,
    high: &SphereMap,
) -> Result<(), OutOfMemory>
    ensures added { OnOk result (Adds (Any (IsTieFromArc (edge_of edge.now) item (arc_of low.now) (map_of high.now))) ties.old.items ties.new.items) }
{
    for (number, arc) in high.arcs.as_slice().iter().enumerate() {
        if low.normal.is_same(&arc.normal) && begin_and_end(edge, low, arc) {
            ties.push(Tie {
                first: Cell {
                    row: edge.low,
                    column: item,
                },
                second: Cell {
                    row: edge.high,
                    column: number,
                },
            })?;
        }
    }
    Ok(())
}

// Adds the ties between the arcs at both ends of the edge.
fn add_edge_ties(
    ties: &mut Vec<Tie>,
    edge: &Edge,
    low: &SphereMap,
    high: &SphereMap,
) -> Result<(), OutOfMemory>
    ensures added { OnOk result (Adds (Any (IsTieOfEdge (edge_of edge.now) (map_of low.now) (map_of high.now))) ties.old.items ties.new.items) }
{
    for (item, arc) in low.arcs.as_slice().iter().enumerate() {
        add_arc_ties(ties, edge, item, arc, high)?;
    }
    Ok(())
}

/// For each edge the ties between an arc at its lower end and an arc at its higher end in one plane, where one begins
/// at the edge and the other ends there. Corners are the elements of a table with a row for each vertex and an element
/// for each item. `OutOfMemory` says that memory was wanted and not found.
pub fn along_ties(alloc: Global, c: &Complex) -> Result<Vec<Tie>, OutOfMemory>
    requires shows { (s : Set) × ShowsSet s c.now }
    ensures within { IfOk result (λ v. AreTiedWithin (map count_items (complex_of c.now).vertices) v.items) }
    ensures along { IfOk result (λ v. (j k : PlainCorner) → AreTied v.items (cell_of j) (cell_of k) ↔ LinkAlong (complex_of c.now) j k) }
{
    let mut ties = Vec::new(alloc);
    for edge in c.edges.as_slice() {
        let low = &c.vertices.at(edge.low).map;
        let high = &c.vertices.at(edge.high).map;
        add_edge_ties(&mut ties, edge, low, high)?;
    }
    Ok(ties)
}

// The corner linked with this corner across its facet: where the ray inward from its vertex leaves the facet. `None`
// comes where the corner's item doesn't hold the way inward.
fn across(c: &Complex, k: &Corner) -> Option<Corner>
    requires shows { (s : Set) × ShowsSet s c.now }
    requires corner { HasItem (complex_of c.now) (corner_of k.now) }
    ensures linked { IsLinkedFrom (complex_of c.now) (corner_of k.now) result }
{
    let carrier = carrier_of(c, k);
    let h = c.carriers.at(carrier);
    let inward = plane_dir(h).back();
    let map = &c.vertices.at(k.vertex).map;
    if !map.item_holds(k.item, &inward) {
        return None;
    }
    let met = first_along_dir(c, h, Some(carrier_items(c, carrier)), k.vertex, &inward)?;
    corner_toward(c, h, &inward.back(), met)
}

// Adds the ties across facets from the items of the vertex.
fn add_vertex_ties(ties: &mut Vec<Tie>, c: &Complex, vertex: usize) -> Result<(), OutOfMemory>
    requires shows { (s : Set) × ShowsSet s c.now }
    requires within { vertex < length c.now.vertices }
    ensures added { OnOk result (Adds (Any (IsTieAcross (complex_of c.now) vertex)) ties.old.items ties.new.items) }
{
    for item in 0..c.vertices.at(vertex).map.item_count() {
        if let Some(there) = across(c, &Corner { vertex, item }) {
            ties.push(Tie {
                first: Cell {
                    row: vertex,
                    column: item,
                },
                second: Cell {
                    row: there.vertex,
                    column: there.item,
                },
            })?;
        }
    }
    Ok(())
}

/// The ties across facets: for each item of a vertex that holds the way inward in its plane, the tie with the item at
/// which the ray inward from the vertex leaves the facet. Corners are the elements of a table with a row for each
/// vertex and an element for each item. `OutOfMemory` says that memory was wanted and not found.
pub fn across_ties(alloc: Global, c: &Complex) -> Result<Vec<Tie>, OutOfMemory>
    requires shows { (s : Set) × ShowsSet s c.now }
    ensures within { IfOk result (λ v. AreTiedWithin (map count_items (complex_of c.now).vertices) v.items) }
    ensures across { IfOk result (λ v. (j k : PlainCorner) → AreTied v.items (cell_of j) (cell_of k) ↔ LinkAcross (complex_of c.now) j k) }
{
    let mut ties = Vec::new(alloc);
    for vertex in 0..c.vertices.len() {
        add_vertex_ties(&mut ties, c, vertex)?;
    }
    Ok(ties)
}
