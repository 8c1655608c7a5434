//! The carriers that hold each vertex of a result, taken over from its two operands: where each operand's carriers
//! stand among the result's carriers, and which carriers of the result aren't the operand's.

ghost use Rattle.nef_complex.specs.Prelude.{false, length, IsTrue, IfSome, IfOk, OnOk, IsAt, Set, point_of, Vertex as VertexValue, ShowsSet, AreNumbersOf, AreVertexHolders, AreInOrder, AreAdded, IsSourceAmong, IsRowAdded};
ghost use Rattle.std.specs.Prelude.{◌≡◌, ◌<◌};

use crate::OutOfMemory;
use crate::complex::{Complex, Vertex, vertex_holders};
use crate::indexing::CARRIERS_AT_VERTEX;
use nef_geo::{List, Plane, Point, lex_cmp};
use nef_index::{SortedCarriers, Table};
use std::alloc::Global;
use std::cmp::Ordering;

// An operand, with the numbers of its carriers among all carriers; and the other carriers, with their numbers.
#[derive(Drop)]
struct CarrierSource<'a> {
    complex: &'a Complex,
    numbers: Vec<usize>,
    others: SortedCarriers,
    other_numbers: Vec<usize>,
}

// Whether the plane is the one with this number.
fn stands_at(planes: &[Plane], place: usize, h: &Plane) -> bool
    ensures stands { IsTrue result → IsAt planes.now place h.now }
{
    match planes.get(place) {
        Some(g) => g.cmp(h).is_eq(),
        None => false,
    }
}

// The complex as a source, by one pass through its carriers and all carriers, which both stand in order. `None` comes
// where the pass misses a carrier of the complex, as a carrier that isn't among all carriers.
fn source_of<'a>(
    alloc: Global,
    complex: &'a Complex,
    all: &[Plane],
) -> Result<Option<CarrierSource<'a>>, OutOfMemory>
    requires shows { (s : Set) × ShowsSet s complex.now }
    requires ordered { AreInOrder all.now }
    ensures source { IfOk result (λ o. IfSome o (IsSourceAmong all.now)) }
{
    let carriers = complex.carriers.as_slice();
    let mut numbers = Vec::with_capacity(alloc, carriers.len())?;
    let mut others = List::new(alloc);
    let mut other_numbers = Vec::new(alloc);
    for number in 0..all.len() {
        let h = &all[number];
        if stands_at(carriers, numbers.len(), h) {
            numbers.push(number)?;
        } else {
            others.push(*h)?;
            other_numbers.push(number)?;
        }
    }
    let found = numbers.len();
    if found < carriers.len() {
        return Ok(None);
    }
    let others = SortedCarriers::of(alloc, others)?;
    Ok(Some(CarrierSource {
        complex,
        numbers,
        others,
        other_numbers,
    }))
}

// Adds those of the table's numbers that stand under the listed numbers.
fn add_numbers(table: &[usize], listed: &[usize], row: &mut Vec<usize>) -> Result<(), OutOfMemory>
    requires within { AreNumbersOf table.now listed.now }
    ensures added { OnOk result (AreAdded table.now listed.now (length listed.now) row.old.items row.new.items) }
{
    for place in listed {
        row.push(table[*place])?;
    }
    Ok(())
}

// The number of the vertex at the point, from number `next` on, which then passes the vertices up to the point. Equal
// points are the same four numbers, so equality is seen sooner than order, which wants products.
fn number_at(vertices: &[Vertex], next: &mut usize, point: &Point) -> Option<usize>
    ensures at { IfSome result (λ k. (v : VertexValue) × IsAt vertices.now k v × (v.point ≡ point.now)) }
{
    for number in *next..vertices.len() {
        let vertex = &vertices[number];
        if vertex.point == *point {
            *next = number + 1;
            return Some(number);
        }
        if lex_cmp(&vertex.point, point) != Ordering::Less {
            *next = number;
            return None;
        }
    }
    *next = vertices.len();
    None
}

// A way through the vertices of a source, if there is one: the vertices before number `next` are passed. `found` and
// `row` are room for the search, without meaning between two searches.
#[derive(Drop)]
struct VertexWay<'a> {
    source: Option<CarrierSource<'a>>,
    next: usize,
    found: Vec<usize>,
    row: Vec<usize>,
}

// The way from the first vertex of the complex on.
fn way_of<'a>(
    alloc: Global,
    complex: &'a Complex,
    all: &[Plane],
) -> Result<VertexWay<'a>, OutOfMemory>
    requires shows { (s : Set) × ShowsSet s complex.now }
    requires ordered { AreInOrder all.now }
    ensures source { IfOk result (λ w. IfSome w.source (IsSourceAmong all.now)) }
{
    let source = source_of(alloc, complex, all)?;
    Ok(VertexWay {
        source,
        next: 0,
        found: Vec::new(alloc),
        row: Vec::new(alloc),
    })
}

// Adds the row of a vertex of the source: the numbers of the source's carriers that hold the vertex, which are known,
// and of the other carriers that hold the vertex, which are asked.
fn push_vertex_row(
    carriers: &SortedCarriers,
    source: &CarrierSource,
    number: usize,
    found: &mut Vec<usize>,
    row: &mut Vec<usize>,
    rows: &mut Table,
) -> Result<(), OutOfMemory>
    requires source { IsSourceAmong carriers.now source.now }
    requires within { number < length source.now.complex.now.vertices }
    ensures added { OnOk result ((v : VertexValue) → IsAt source.now.complex.now.vertices number v → IsRowAdded carriers.now (point_of v.point) rows.old rows.new) }
{
    let complex = source.complex;
    let vertices = complex.vertices.as_slice();
    let vertex = &vertices[number];
    let numbers = source.numbers.as_slice();
    let listed = vertex_holders(complex, number);
    source.others.holders(&vertex.point, found)?;
    if found.is_empty() {
        return rows.push_read(numbers, listed);
    }
    row.clear();
    add_numbers(numbers, listed, row)?;
    add_numbers(source.other_numbers.as_slice(), found.as_slice(), row)?;
    row.sort_unstable();
    row.dedup();
    rows.push(row.as_slice())
}

impl<'a> VertexWay<'a> {
    // Adds the row of the point where a vertex of the source stands at the point, and says whether one does.
    fn push_row(
        &mut self,
        carriers: &SortedCarriers,
        point: &Point,
        rows: &mut Table,
    ) -> Result<bool, OutOfMemory>
        requires source { IfSome self.old.source (IsSourceAmong carriers.now) }
        ensures same { OnOk result (self.new.source ≡ self.old.source) }
        ensures added { IfOk result (λ b. IsTrue b → IsRowAdded carriers.now (point_of point.now) rows.old rows.new) }
        ensures kept { IfOk result (λ b. (b ≡ false) → rows.new ≡ rows.old) }
    {
        match &self.source {
            Some(source) => {
                let vertices = source.complex.vertices.as_slice();
                match number_at(vertices, &mut self.next, point) {
                    Some(number) => {
                        push_vertex_row(
                            carriers,
                            source,
                            number,
                            &mut self.found,
                            &mut self.row,
                            rows,
                        )?;
                        Ok(true)
                    }
                    None => Ok(false),
                }
            }
            None => Ok(false),
        }
    }
}

// Adds the numbers of all carriers that hold the point as a row, by a source with a vertex there, or by asking all.
fn push_row_at(
    carriers: &SortedCarriers,
    first: &mut VertexWay,
    second: &mut VertexWay,
    point: &Point,
    row: &mut Vec<usize>,
    rows: &mut Table,
) -> Result<(), OutOfMemory>
    requires first { IfSome first.old.source (IsSourceAmong carriers.now) }
    requires second { IfSome second.old.source (IsSourceAmong carriers.now) }
    ensures first { OnOk result (first.new.source ≡ first.old.source) }
    ensures second { OnOk result (second.new.source ≡ second.old.source) }
    ensures added { OnOk result (IsRowAdded carriers.now (point_of point.now) rows.old rows.new) }
{
    if first.push_row(carriers, point, rows)? {
        return Ok(());
    }
    if second.push_row(carriers, point, rows)? {
        return Ok(());
    }
    carriers.holders(point, row)?;
    rows.push(row.as_slice())
}

// The rows of the vertices, by ways through two complexes.
fn rows_by(
    alloc: Global,
    carriers: &SortedCarriers,
    vertices: &[Vertex],
    first: &mut VertexWay,
    second: &mut VertexWay,
) -> Result<Table, OutOfMemory>
    requires first { IfSome first.old.source (IsSourceAmong carriers.now) }
    requires second { IfSome second.old.source (IsSourceAmong carriers.now) }
    ensures rows { IfOk result (λ rows. AreVertexHolders carriers.now vertices.now rows) }
{
    let mut rows = Table::with_rows(alloc, vertices.len(), CARRIERS_AT_VERTEX)?;
    let mut row = Vec::new(alloc);
    for vertex in vertices {
        push_row_at(carriers, first, second, &vertex.point, &mut row, &mut rows)?;
    }
    Ok(rows)
}

/// As `vertex_rows`, for the result of an operation on two complexes, which has most of its vertices and carriers from
/// the operands. The row of a vertex that is taken over is its old row, renumbered, with the other carriers that hold
/// the vertex. `OutOfMemory` says that memory was wanted and not found.
pub fn vertex_rows_from(
    alloc: Global,
    carriers: &SortedCarriers,
    vertices: &[Vertex],
    first: &Complex,
    second: &Complex,
) -> Result<Table, OutOfMemory>
    requires first { (s : Set) × ShowsSet s first.now }
    requires second { (s : Set) × ShowsSet s second.now }
    ensures rows { IfOk result (λ rows. AreVertexHolders carriers.now vertices.now rows) }
{
    let mut one = way_of(alloc, first, carriers.planes())?;
    let mut other = way_of(alloc, second, carriers.planes())?;
    rows_by(alloc, carriers, vertices, &mut one, &mut other)
}
