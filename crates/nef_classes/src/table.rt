//! Classes of the elements of a table: the rows are put one after the other, so that elements become numbers, and the
//! numbers of their classes are cut into rows again.

ghost use Rattle.std.specs.Prelude.{◌≡◌, ◌<◌, ◌^◌};
ghost use Rattle.nef_geo.specs.Prelude.{ℕ, [], length, IfOk, List as Sequence, IsAt, IsInTable};
ghost use Rattle.nef_classes.specs.Classes.{LinksAreBelow};
ghost use Rattle.nef_classes.specs.Tables.{cell_total, IsCellIn, cell_number, AreTiedWithin, HasCounts, AreNumbers};
ghost use Rattle.nef_classes.specs.Flat.{AreStarts, AreFlat, AreCut};

use crate::OutOfMemory;
use crate::forest::{Link, class_numbers, class_of_each};
use nef_geo::List;
use std::alloc::Global;

/// An element of a table, by its row and its number in the row.
#[derive(Clone, Copy, PartialEq, Eq, Drop)]
pub struct Cell {
    pub row: usize,
    pub column: usize,
}

/// A tie: two elements of one class.
#[derive(Clone, Copy, PartialEq, Eq, Drop)]
pub struct Tie {
    pub first: Cell,
    pub second: Cell,
}

// Where each row begins when the rows stand one after the other, and then where the last row ends. A table with more
// elements than a `usize` counts finds no memory.
fn starts_of(alloc: Global, counts: &[usize]) -> Result<Vec<usize>, OutOfMemory>
    ensures starts { IfOk result (λ v. AreStarts counts.now v.items) }
    ensures fits { IfOk result (λ v. cell_total counts.now < 2 ^ 64) }
{
    let mut starts = Vec::new(alloc);
    let mut next = 0_usize;
    starts.push(next)?;
    for count in counts {
        next = match next.checked_add(*count) {
            Some(sum) => sum,
            None => return Err(OutOfMemory),
        };
        starts.push(next)?;
    }
    Ok(starts)
}

// The number of the element among all elements of the table.
fn place_of(starts: &[usize], counts: &[usize], cell: &Cell) -> usize
    requires starts { AreStarts counts.now starts.now }
    requires fits { cell_total counts.now < 2 ^ 64 }
    requires within { IsCellIn counts.now cell.now }
    ensures place { result ≡ cell_number counts.now cell.now }
    ensures within { result < cell_total counts.now }
{
    starts[cell.row] + cell.column
}

// The ties as links between the elements' numbers.
fn flat_links(
    alloc: Global,
    starts: &[usize],
    counts: &[usize],
    ties: &[Tie],
) -> Result<Vec<Link>, OutOfMemory>
    requires starts { AreStarts counts.now starts.now }
    requires fits { cell_total counts.now < 2 ^ 64 }
    requires within { AreTiedWithin counts.now ties.now }
    ensures within { IfOk result (λ v. LinksAreBelow (cell_total counts.now) v.items) }
    ensures flat { IfOk result (λ v. AreFlat counts.now ties.now v.items) }
{
    let mut links = Vec::new(alloc);
    for tie in ties {
        links.push(Link {
            first: place_of(starts, counts, &tie.first),
            second: place_of(starts, counts, &tie.second),
        })?;
    }
    Ok(links)
}

/// So many empty rows, each with room for `room` elements. `OutOfMemory` says that memory was wanted and not found.
pub fn empty_rows<T: Drop>(
    alloc: Global,
    count: usize,
    room: usize,
) -> Result<Vec<List<T>>, OutOfMemory>
    ensures as_many { IfOk result (λ v. length v.items ≡ count) }
    ensures empty { IfOk result (λ v. (k : ℕ) (row : Sequence T) → IsAt v.items k row → row ≡ []) }
{
    let mut rows = Vec::with_capacity(alloc, count)?;
    for _number in 0..count {
        rows.push(List::from_vec(Vec::with_capacity(alloc, room)?))?;
    }
    Ok(rows)
}

// The numbers cut into rows of these lengths.
fn rows_of(
    alloc: Global,
    counts: &[usize],
    numbers: &[usize],
) -> Result<List<List<usize>>, OutOfMemory>
    requires all { length numbers.now ≡ cell_total counts.now }
    ensures counts { IfOk result (λ rows. HasCounts counts.now rows) }
    ensures cut { IfOk result (λ rows. AreCut counts.now numbers.now rows) }
{
    let mut rows = List::new(alloc);
    let mut start = 0;
    for count in counts {
        let end = start + *count;
        let row = Vec::from_slice(alloc, &numbers[start..end])?;
        rows.push(List::from_vec(row))?;
        start = end;
    }
    Ok(rows)
}

/// For each element of a table with rows of `counts` elements the number of its class, whose elements chains of ties
/// join. Classes are numbered from 0 by first appearance, over the rows in order and the elements of each in order.
/// `OutOfMemory` says that memory was wanted and not found.
pub fn number_rows(
    alloc: Global,
    counts: &[usize],
    ties: &[Tie],
) -> Result<List<List<usize>>, OutOfMemory>
    requires within { AreTiedWithin counts.now ties.now }
    ensures counts { IfOk result (λ rows. HasCounts counts.now rows) }
    ensures numbers { IfOk result (λ rows. AreNumbers ties.now rows) }
{
    let starts = starts_of(alloc, counts)?;
    let links = flat_links(alloc, &starts, counts, ties)?;
    let roots = class_of_each(alloc, starts[counts.len()], &links)?;
    let numbers = class_numbers(alloc, &roots)?;
    rows_of(alloc, counts, &numbers)
}

/// The number of this element of the table.
pub fn number_at(rows: &List<List<usize>>, row: usize, column: usize) -> usize
    requires some { (n : ℕ) × IsInTable rows.now row column n }
    ensures number { IsInTable rows.now row column result }
{
    *rows.at(row).at(column)
}
