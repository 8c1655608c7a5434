//! The facets of a complex with their planes, marks and cycles, and the facet of each item.

ghost use Rattle.std.specs.Prelude.{◌↔◌, ◌≡◌, ◌++◌};
ghost use Rattle.nef_facets.specs.Prelude.{map, IfOk, OnOk, length, Set, Corner as PlainCorner, complex_of, ShowsSet, count_items, FacetNumbers, Complex as PlainComplex, FacetLink, AreTied, AreTiedWithin, cell_of, IsFacetParts, AreFirsts, ArePlanesAt, AreMarksAt, corners_at, AreCorners, AreListed, StandFrom};

use crate::OutOfMemory;
use crate::cycles::facet_cycles;
use crate::ties::{across_ties, along_ties, carrier_of};
use nef_classes::{Tie, number_at, number_rows};
use nef_complex::{Complex, Corner, Cycle};
use nef_geo::{Label, List, Plane};
use std::alloc::Global;

/// The facets in the order of their numbers, each with its plane, its mark and its cycles; and for each vertex the
/// numbers of the facets of its items, the arcs and then the sloop. Numbers count from 0.
#[derive(Drop)]
pub struct FacetParts {
    pub planes: List<Plane>,
    pub marks: List<Label>,
    pub cycles: List<List<Cycle>>,
    pub facet_of: List<List<usize>>,
}

/// The ties between corners that are linked along an edge or across a facet. Corners are the elements of a table with a
/// row for each vertex and an element for each item. `OutOfMemory` says that memory was wanted and not found.
pub fn facet_ties(alloc: Global, c: &Complex) -> Result<Vec<Tie>, OutOfMemory>
    requires shows { (s : Set) × ShowsSet s c.now }
    ensures within { IfOk result (λ v. AreTiedWithin (map count_items (complex_of c.now).vertices) v.items) }
    ensures links { IfOk result (λ v. (j k : PlainCorner) → AreTied v.items (cell_of j) (cell_of k) ↔ FacetLink (complex_of c.now) j k) }
{
    let mut ties = along_ties(alloc, c)?;
    let across = across_ties(alloc, c)?;
    ties.extend_from_slice(&across)?;
    Ok(ties)
}

// For each vertex the numbers of the facets of its items, by the ties between corners, by first appearance from 0.
fn facet_numbers(alloc: Global, c: &Complex, ties: &[Tie]) -> Result<List<List<usize>>, OutOfMemory>
    requires within { AreTiedWithin (map count_items (complex_of c.now).vertices) ties.now }
    requires links { (j k : PlainCorner) → AreTied ties.now (cell_of j) (cell_of k) ↔ FacetLink (complex_of c.now) j k }
    ensures numbers { IfOk result (λ rows. FacetNumbers (complex_of c.now) rows) }
{
    // how many items each vertex has
    let mut counts = Vec::new(alloc);
    for vertex in c.vertices.as_slice() {
        counts.push(vertex.map.item_count())?;
    }
    number_rows(alloc, &counts, ties)
}

// Adds the corners of a vertex with `count` items.
fn add_corners(corners: &mut Vec<Corner>, vertex: usize, count: usize) -> Result<(), OutOfMemory>
    ensures added { OnOk result (corners.new.items ≡ corners.old.items ++ corners_at vertex count) }
{
    for item in 0..count {
        corners.push(Corner { vertex, item })?;
    }
    Ok(())
}

// The corners of all vertices, by vertices and then by items, and for each vertex the number of its first corner.
fn corners(alloc: Global, c: &Complex) -> Result<(Vec<Corner>, Vec<usize>), OutOfMemory>
    ensures all { IfOk result (λ l. AreCorners (complex_of c.now) l.0.items) }
    ensures starts { IfOk result (λ l. StandFrom l.0.items l.1.items) }
{
    let mut all = Vec::new(alloc);
    let mut starts = Vec::with_capacity(alloc, c.vertices.len())?;
    for (number, vertex) in c.vertices.as_slice().iter().enumerate() {
        let start = all.len();
        starts.push(start)?;
        add_corners(&mut all, number, vertex.map.item_count())?;
    }
    Ok((all, starts))
}

// For each facet the first of its corners.
fn first_corners(
    alloc: Global,
    rows: &List<List<usize>>,
    corners: &[Corner],
) -> Result<Vec<Corner>, OutOfMemory>
    requires numbers { (C : PlainComplex) × FacetNumbers C rows.now × AreCorners C corners.now }
    ensures firsts { IfOk result (λ v. AreFirsts rows.now corners.now v.items) }
{
    let mut firsts = Vec::new(alloc);
    for corner in corners {
        if number_at(rows, corner.vertex, corner.item) == firsts.len() {
            firsts.push(*corner)?;
        }
    }
    Ok(firsts)
}

// The plane and the mark of each corner's item.
fn planes_and_marks(
    alloc: Global,
    c: &Complex,
    corners: &[Corner],
) -> Result<(List<Plane>, List<Label>), OutOfMemory>
    requires shows { (s : Set) × ShowsSet s c.now }
    requires corners { AreListed (complex_of c.now) corners.now }
    ensures as_many { IfOk result (λ l. (length l.0 ≡ length corners.now) × (length l.1 ≡ length corners.now)) }
    ensures planes { IfOk result (λ l. ArePlanesAt (complex_of c.now) corners.now l.0) }
    ensures marks { IfOk result (λ l. AreMarksAt (complex_of c.now) corners.now l.1) }
{
    let mut planes = List::new(alloc);
    let mut marks = List::new(alloc);
    for corner in corners {
        planes.push(*c.carriers.at(carrier_of(c, corner)))?;
        let map = &c.vertices.at(corner.vertex).map;
        marks.push(map.item_at(corner.item).mark())?;
    }
    Ok((planes, marks))
}

/// The facets of a complex, numbered by first appearance over the vertices in order and the items of each in order. The
/// cycles of a facet come in the order of their first corners, each from its least corner on, with the facet on the
/// left seen from the side to which the normal points. `OutOfMemory` says that memory was wanted and not found.
pub fn facets(alloc: Global, c: &Complex) -> Result<FacetParts, OutOfMemory>
    requires shows { (s : Set) × ShowsSet s c.now }
    ensures parts { IfOk result (λ p. IsFacetParts (complex_of c.now) p) }
{
    let ties = facet_ties(alloc, c)?;
    facets_of_ties(alloc, c, ties.as_slice())
}

/// As `facets`, where the ties between linked corners are given.
pub fn facets_of_ties(alloc: Global, c: &Complex, ties: &[Tie]) -> Result<FacetParts, OutOfMemory>
    requires shows { (s : Set) × ShowsSet s c.now }
    requires within { AreTiedWithin (map count_items (complex_of c.now).vertices) ties.now }
    requires links { (j k : PlainCorner) → AreTied ties.now (cell_of j) (cell_of k) ↔ FacetLink (complex_of c.now) j k }
    ensures parts { IfOk result (λ p. IsFacetParts (complex_of c.now) p) }
{
    let facet_of = facet_numbers(alloc, c, ties)?;
    let (corners, starts) = corners(alloc, c)?;
    let firsts = first_corners(alloc, &facet_of, &corners)?;
    let (planes, marks) = planes_and_marks(alloc, c, &firsts)?;
    let cycles = facet_cycles(alloc, c, &facet_of, &corners, &starts, firsts.len())?;
    Ok(FacetParts {
        planes,
        marks,
        cycles,
        facet_of,
    })
}
