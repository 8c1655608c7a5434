//! The steps by which an index is made.

ghost use Rattle.std.specs.Prelude.{◌≡◌};
ghost use Rattle.nef_index.specs.Prelude.{List as Sequence, length, IfOk, ℕ, OnOk, IsAt, AreNumbersWith, AreRowsOfOnce, HasNumber, HavePeaks, DoRise, DoAllRise, HaveRows, HasAdded, AreCommon, AreCommonRows, IndexedLists, AreCarrierPoints, ArePointSpans, AreCarrierSpans, AreClusters};

use crate::OutOfMemory;
use crate::groups::{Cluster, clusters_of};
use crate::peaks::peaks_of;
use crate::skeleton::Edge;
use crate::spans::{Span, spans_of};
use crate::table::Table;
use nef_geo::List;
use std::alloc::Global;

// Adds the numbers that stand in both rows at the end of the list, in one pass through both rows.
fn add_common(
    first: &[usize],
    second: &[usize],
    numbers: &mut Vec<usize>,
) -> Result<(), OutOfMemory>
    requires first { DoRise first.now }
    requires second { DoRise second.now }
    ensures common { OnOk result (HasAdded (AreCommon first.now second.now) numbers.old.items numbers.new.items) }
{
    let mut at_first = 0;
    let mut at_second = 0;
    while at_first < first.len() && at_second < second.len() {
        let number = first[at_first];
        let other = second[at_second];
        if number < other {
            at_first += 1;
        } else if other < number {
            at_second += 1;
        } else {
            numbers.push(number)?;
            at_first += 1;
            at_second += 1;
        }
    }
    Ok(())
}

// Few edges lie in more than two carriers.
const CARRIERS_AT_EDGE: usize = 2;

/// For each edge the numbers of the carriers that hold both ends: the common numbers of both points' rows.
pub(crate) fn edge_rows(
    alloc: Global,
    edges: &[Edge],
    at_point: &Table,
) -> Result<Table, OutOfMemory>
    requires rise { DoAllRise at_point.now }
    requires ends { HaveRows at_point.now edges.now }
    ensures common { IfOk result (λ rows. AreCommonRows at_point.now edges.now rows) }
{
    let room = edges.len().saturating_mul(CARRIERS_AT_EDGE);
    let mut numbers = Vec::with_capacity(alloc, room)?;
    let mut ends = Vec::with_capacity(alloc, edges.len())?;
    for edge in edges {
        add_common(
            at_point.row(edge.low),
            at_point.row(edge.high),
            &mut numbers,
        )?;
        ends.push(numbers.len())?;
    }
    Ok(Table::of(numbers, ends))
}

/// For each carrier the numbers of the edges that lie in it, and the peaks of these rows. The numbers of the carriers that hold
/// each edge are given.
pub(crate) fn edges_in_carriers(
    alloc: Global,
    count: usize,
    edges: &[Edge],
    at_edge: &Table,
) -> Result<(Table, Table), OutOfMemory>
    requires as_many { length at_edge.now ≡ length edges.now }
    requires once { AreRowsOfOnce count at_edge.now }
    ensures as_many { IfOk result (λ t. length t.0 ≡ count) }
    ensures transposed { IfOk result (λ t. (k : ℕ) (row : Sequence ℕ) → IsAt t.0 k row → AreNumbersWith (HasNumber at_edge.now k) row) }
    ensures peaks { IfOk result (λ t. HavePeaks edges.now t.0 t.1) }
{
    let in_carrier = at_edge.transposed(alloc, count)?;
    let peaks = peaks_of(alloc, edges, &in_carrier)?;
    Ok((in_carrier, peaks))
}

/// The span of each carrier, and the carriers in clusters. The points on each carrier and their spans are given.
pub(crate) fn carriers_spanned(
    alloc: Global,
    points: &[Span],
    on_carrier: &Table,
) -> Result<(List<Span>, List<Cluster>), OutOfMemory>
    ghost of: { IndexedLists }
    requires on { AreCarrierPoints of.carriers of.points on_carrier.now }
    requires points { ArePointSpans of.points points.now }
    ensures spans { IfOk result (λ t. AreCarrierSpans of.carriers of.points t.0) }
    ensures clusters { IfOk result (λ t. AreClusters of.carriers of.points t.1) }
{
    let spans = spans_of(alloc, points, on_carrier)?;
    let clusters = clusters_of(alloc, spans.as_slice())?;
    Ok((spans, clusters))
}
