//! Rows of edges in order of their lower ends, by numbers of points. Upper ends stand in no order: peaks tell of many
//! edges at once that all of them end before a vertex.
//!
//! Peaks are a binary indexed tree of greatest upper ends. Source: Fenwick, "A New Data Structure for Cumulative
//! Frequency Tables", Software: Practice and Experience 24, 1994.

ghost use Rattle.std.specs.Prelude.{◌≡◌, ◌<◌, ◌≤◌, ◌+◌, ◌*◌};
ghost use Rattle.nef_index.specs.Prelude.{ℕ, length, IfSome, IfOk, OnOk, List as Sequence, IsAt, Edge as EdgeValue, AreNumbersOf, block_start, EndBelow, ArePeaks, HavePeaks};

use crate::OutOfMemory;
use crate::skeleton::Edge;
use crate::table::Table;
use std::alloc::Global;

// How many edges are a block.
const BLOCK: usize = 8;

// The least length of a row of edges with peaks.
const LEAST_WITH_PEAKS: usize = 32;

// Where the blocks begin that the last of `count` peaks tells of.
fn start_of_last(count: usize) -> usize
    requires some { 0 < count }
    ensures start { result ≡ block_start count }
    ensures before { result < count }
{
    count & (count - 1)
}

// The greatest upper end of the edges from number `first` to before number `past` of the row.
fn greatest_end(edges: &[Edge], numbers: &[usize], first: usize, past: usize) -> usize
    requires within { AreNumbersOf edges.now numbers.now }
    requires past { past ≤ length numbers.now }
    ensures greatest { EndBelow edges.now numbers.now first past (result + 1) }
{
    let mut greatest = 0;
    for place in first..past {
        greatest = edges[numbers[place]].high.max(greatest);
    }
    greatest
}

// The peak that follows `peaks`, where `own` is the greatest upper end of the next block alone.
fn next_peak(peaks: &[usize], own: usize) -> usize
    ensures peak { (es : Sequence EdgeValue) (ns : Sequence ℕ) → ArePeaks es ns peaks.now → EndBelow es ns (8 * length peaks.now) (8 * (length peaks.now + 1)) (own + 1) → EndBelow es ns (8 * block_start (length peaks.now + 1)) (8 * (length peaks.now + 1)) (result + 1) }
{
    let start = start_of_last(peaks.len() + 1);
    let mut first = peaks.len();
    let mut peak = own;
    while start < first {
        peak = peaks[first - 1].max(peak);
        first = start_of_last(first);
    }
    peak
}

// Replaces the list by the peaks of the row.
fn put_peaks(edges: &[Edge], numbers: &[usize], peaks: &mut Vec<usize>) -> Result<(), OutOfMemory>
    requires within { AreNumbersOf edges.now numbers.now }
    ensures peaks { OnOk result (ArePeaks edges.now numbers.now peaks.new.items) }
{
    peaks.clear();
    if numbers.len() < LEAST_WITH_PEAKS {
        return Ok(());
    }
    for block in 0..numbers.len() / BLOCK {
        let own = greatest_end(edges, numbers, BLOCK * block, BLOCK * block + BLOCK);
        peaks.push(next_peak(peaks.as_slice(), own))?;
    }
    Ok(())
}

/// For each row of edges its peaks; rows without peaks are left out at the end. `OutOfMemory` says that memory was
/// wanted and not found.
pub(crate) fn peaks_of(alloc: Global, edges: &[Edge], rows: &Table) -> Result<Table, OutOfMemory>
    requires within { (i : ℕ) (ns : Sequence ℕ) → IsAt rows.now i ns → AreNumbersOf edges.now ns }
    ensures peaks { IfOk result (HavePeaks edges.now rows.now) }
{
    let mut table = Table::with_rows(alloc, 0, 0)?;
    let mut peaks = Vec::new(alloc);
    for number in 0..rows.len() {
        put_peaks(edges, rows.row(number), &mut peaks)?;
        table.set_next(number, peaks.as_slice())?;
    }
    Ok(table)
}

/// The number at which the edges of the peak before `place` begin, if by the peak all these edges end before `least`.
pub fn passed_from(peaks: &[usize], place: usize, least: usize) -> Option<usize>
    ensures before { IfSome result (λ first. first < place) }
    ensures passed { IfSome result (λ first. (es : Sequence EdgeValue) (ns : Sequence ℕ) → ArePeaks es ns peaks.now → EndBelow es ns first place least) }
{
    let count = place / BLOCK;
    if place % BLOCK != 0 || count == 0 || peaks.len() < count {
        return None;
    }
    if peaks[count - 1] < least {
        Some(BLOCK * start_of_last(count))
    } else {
        None
    }
}
