//! The numbers of shells and of volumes, and the shells of each volume.

ghost use Rattle.std.specs.Prelude.{◌≡◌, ◌++◌, ◌<◌, ◌+◌, ◌≤◌};
ghost use Rattle.nef_volumes.specs.Prelude.{ℕ, List as Sequence, IfOk, length, OnOk, IsAt, Set, complex_of, ShowsSet, VolumeNumbers, SfaceNumbers, AreTiedWithin, HasCounts, AreNumbers, Tie as PlainTie, TableIsBelow, HaveNumbers, AreNumberLinks, IsRenumbered, AreRenumbered, AreShellRows, AreNumberedNames, AreGathered, AreShellsOf, HaveVolumes, IsPut, row_counts, AreItemTies, AreTiesDown, AreTiesOf, Finds, HasSvertex, IsAroundCell, IsTieOfEnds, LinkOfEnds};

use crate::OutOfMemory;
use crate::ties::{cell, outside_ties, sface_ties};
use nef_classes::{
    Cell, Link, Tie, class_numbers, class_of_each, empty_rows, number_at, number_rows,
};
use nef_complex::{Complex, Shell, Side};
use nef_geo::List;
use nef_smap::sides;
use std::alloc::Global;

// The element of the side round the svertex of the vertex.
fn around_cell(c: &Complex, vertex: usize, svertex: usize) -> Option<Cell>
    requires within { vertex < length c.now.vertices }
    requires svertex { HasSvertex (complex_of c.now) vertex svertex }
    ensures cell { Finds result (IsAroundCell (complex_of c.now) vertex svertex) }
{
    let map = &c.vertices.at(vertex).map;
    match map.svertices.at(svertex).around {
        Some(_) => Some(cell(c, vertex, map.around_side(svertex))),
        None => None,
    }
}

// The tie of the sides round the ends of the edge.
fn ends_tie(c: &Complex, number: usize) -> Option<Tie>
    requires shows { (s : Set) × ShowsSet s c.now }
    requires within { number < length c.now.edges }
    ensures tie { Finds result (IsTieOfEnds (complex_of c.now) number) }
{
    let edge = c.edges.at(number);
    let first = around_cell(c, edge.low, edge.low_svertex)?;
    let second = around_cell(c, edge.high, edge.high_svertex)?;
    Some(Tie { first, second })
}

// The ties between the sides round the two ends of edges.
fn ends_ties(alloc: Global, c: &Complex) -> Result<Vec<Tie>, OutOfMemory>
    requires shows { (s : Set) × ShowsSet s c.now }
    ensures ties { IfOk result (λ v. AreTiesOf (complex_of c.now) (LinkOfEnds (complex_of c.now)) v.items) }
{
    let mut ties = Vec::new(alloc);
    for number in 0..c.edges.len() {
        if let Some(tie) = ends_tie(c, number) {
            ties.push(tie)?;
        }
    }
    Ok(ties)
}

// How many elements the rows have: one in that of the outside, and in those of the vertices one for each side.
fn side_counts(alloc: Global, c: &Complex) -> Result<Vec<usize>, OutOfMemory>
    ensures counts { IfOk result (λ v. v.items ≡ row_counts (complex_of c.now)) }
{
    let mut counts = Vec::new(alloc);
    counts.push(1)?;
    for vertex in c.vertices.as_slice() {
        counts.push(sides(&vertex.map))?;
    }
    Ok(counts)
}

/// The numbers of the shells, by first appearance: in the first row 0, which is that of the outside; then for each vertex
/// those of its sides. Ties of sides of one sface, of sides along an edge and of sides across a facet join the sides of each
/// shell. The numbers of the sfaces of the vertices' sides are given, and the ties of the sides of linked items.
pub(crate) fn shell_rows(
    alloc: Global,
    c: &Complex,
    sface_of: &List<List<usize>>,
    items: &[Tie],
) -> Result<List<List<usize>>, OutOfMemory>
    requires shows { (s : Set) × ShowsSet s c.now }
    requires sfaces { SfaceNumbers (complex_of c.now) sface_of.now }
    requires items { AreItemTies (complex_of c.now) items.now }
    ensures rows { IfOk result (λ rows. AreShellRows (complex_of c.now) rows) }
{
    let mut ties = sface_ties(alloc, c, sface_of)?;
    ties.extend_from_slice(items)?;
    let ends = ends_ties(alloc, c)?;
    ties.extend_from_slice(ends.as_slice())?;
    let counts = side_counts(alloc, c)?;
    number_rows(alloc, counts.as_slice(), ties.as_slice())
}

// The links between the numbers of the ties' elements.
fn number_links(
    alloc: Global,
    rows: &List<List<usize>>,
    ties: &[Tie],
) -> Result<Vec<Link>, OutOfMemory>
    requires numbered { HaveNumbers rows.now ties.now }
    ensures links { IfOk result (λ v. AreNumberLinks rows.now ties.now v.items) }
{
    let mut links = Vec::with_capacity(alloc, ties.len())?;
    for tie in ties {
        links.push(Link {
            first: number_at(rows, tie.first.row, tie.first.column),
            second: number_at(rows, tie.second.row, tie.second.column),
        })?;
    }
    Ok(links)
}

// The row with the new number in place of each old one.
fn renumbered_row(
    alloc: Global,
    row: &[usize],
    numbers: &[usize],
) -> Result<List<usize>, OutOfMemory>
    requires below { (k n : ℕ) → IsAt row.now k n → n < length numbers.now }
    ensures row { IfOk result (λ new. IsRenumbered numbers.now new row.now) }
{
    let mut renumbered = List::from_vec(Vec::with_capacity(alloc, row.len())?);
    for number in row {
        renumbered.push(numbers[*number])?;
    }
    Ok(renumbered)
}

// The table with the new number in place of each old one.
fn renumbered(
    alloc: Global,
    rows: &[List<usize>],
    numbers: &[usize],
) -> Result<List<List<usize>>, OutOfMemory>
    requires below { TableIsBelow rows.now (length numbers.now) }
    ensures rows { IfOk result (λ new. AreRenumbered numbers.now new rows.now) }
{
    let mut renumbered = List::from_vec(Vec::with_capacity(alloc, rows.len())?);
    for row in rows {
        renumbered.push(renumbered_row(alloc, row.as_slice(), numbers)?)?;
    }
    Ok(renumbered)
}

// The numbers of the classes that the ties and those of the table's classes join together, by first appearance. All
// numbers of the table, which are by first appearance too, are below `count`. `OutOfMemory` says that memory was wanted
// and not found.
fn join_numbers(
    alloc: Global,
    rows: &List<List<usize>>,
    count: usize,
    ties: &[Tie],
) -> Result<List<List<usize>>, OutOfMemory>
    requires numbered { HaveNumbers rows.now ties.now }
    requires below { TableIsBelow rows.now count }
    ensures counts { IfOk result (λ new. (counts : Sequence ℕ) → HasCounts counts rows.now → HasCounts counts new) }
    ensures numbers { IfOk result (λ new. (counts : Sequence ℕ) (ts : Sequence PlainTie) → HasCounts counts rows.now → AreTiedWithin counts ts → AreNumbers ts rows.now → AreNumbers (ts ++ ties.now) new) }
{
    let links = number_links(alloc, rows, ties)?;
    let roots = class_of_each(alloc, count, &links)?;
    let numbers = class_numbers(alloc, &roots)?;
    renumbered(alloc, rows.as_slice(), &numbers)
}

/// For each vertex the numbers of the volumes of its sides. Volume 0 is the outside; the others are numbered from 1 by
/// first appearance. `rows` has the numbers of the shells, all below `count`: a volume is made of whole shells, which ties
/// with the outside, an element of its own, and those down rays join. The ties down rays are given. `OutOfMemory` says that
/// memory was wanted and not found.
pub(crate) fn volume_numbers(
    alloc: Global,
    c: &Complex,
    rows: &List<List<usize>>,
    count: usize,
    down: &[Tie],
) -> Result<List<List<usize>>, OutOfMemory>
    requires shows { (s : Set) × ShowsSet s c.now }
    requires rows { AreShellRows (complex_of c.now) rows.now }
    requires below { TableIsBelow rows.now count }
    requires down { AreTiesDown (complex_of c.now) down.now }
    ensures numbers { IfOk result (λ rows. VolumeNumbers (complex_of c.now) rows) }
{
    let mut ties = outside_ties(alloc, c)?;
    ties.extend_from_slice(down)?;
    let mut numbers = join_numbers(alloc, rows, count, ties.as_slice())?.into_vec();
    numbers.remove(0);
    Ok(List::from_vec(numbers))
}

// Adds the side to the list with this number, which may be a new one after all others.
fn add_side(
    alloc: Global,
    lists: &mut Vec<List<Side>>,
    number: usize,
    side: Side,
) -> Result<(), OutOfMemory>
    requires next { number ≤ length lists.old.items }
    ensures added { OnOk result (IsPut number side lists.old.items lists.new.items) }
{
    if number == lists.len() {
        lists.push(List::new(alloc))?;
    }
    lists[number].push(side)?;
    Ok(())
}

// Adds the sides of the vertex to the lists with the numbers of their shells.
fn add_vertex(
    alloc: Global,
    lists: &mut Vec<List<Side>>,
    rows: &List<List<usize>>,
    vertex: usize,
) -> Result<(), OutOfMemory>
    requires within { vertex + 1 < length rows.now }
    requires names { AreNumberedNames rows.now }
    requires gathered { AreGathered rows.now vertex 0 lists.old.items }
    ensures gathered { OnOk result (AreGathered rows.now (vertex + 1) 0 lists.new.items) }
{
    prove!(vertex < rows.len());
    let row = rows.at(vertex + 1);
    for side in 0..row.len() {
        let number = *row.at(side);
        add_side(alloc, lists, number - 1, Side { vertex, side })?;
    }
    Ok(())
}

/// The sides of each shell, in order. The table's first row is that of the outside.
pub(crate) fn gathered(
    alloc: Global,
    rows: &List<List<usize>>,
) -> Result<Vec<List<Side>>, OutOfMemory>
    requires some { 0 < length rows.now }
    requires names { AreNumberedNames rows.now }
    ensures gathered { IfOk result (λ v. AreGathered rows.now (length rows.now) 0 v.items) }
{
    let mut lists = Vec::new(alloc);
    let count = rows.len() - 1;
    for vertex in 0..count {
        add_vertex(alloc, &mut lists, rows, vertex)?;
    }
    Ok(lists)
}

/// The shells with these sides, those of each of `count` volumes together, in the order in which they are given.
pub(crate) fn volume_shells(
    alloc: Global,
    volume_of: &List<List<usize>>,
    lists: Vec<List<Side>>,
    count: usize,
) -> Result<List<List<Shell>>, OutOfMemory>
    requires volumes { HaveVolumes volume_of.now count lists.items }
    ensures as_many { IfOk result (λ rows. length rows ≡ count) }
    ensures shells { IfOk result (λ rows. AreShellsOf volume_of.now lists.items rows) }
{
    let mut shells = empty_rows(alloc, count, 0)?;
    for sides in lists {
        let first = sides.at(0);
        let number = number_at(volume_of, first.vertex, first.side);
        shells[number].push(Shell { sides })?;
    }
    Ok(List::from_vec(shells))
}
