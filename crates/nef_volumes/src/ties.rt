//! The ties of sides: of one sface, of linked items, of the outside, and down the rays from vertices; with the numbers of
//! sfaces, and the facets from whose ties those of items come.

ghost use Rattle.nef_volumes.specs.Prelude.{length, IsTrue, IfOk, OnOk, ℕ, map, Out, Set, IsAt, Side, Corner, complex_of, ShowsSet, SfaceNumbers, count_items, MatchOption, LinkOutside, LinkInSface, FacetLink, IsCellIn, AreTied, AreTiedWithin, map_of, IsSide, sides_of, Adds, Any, cell_of, side_cell, AreTiesWithOutside, AreTiedOutside, IsTieOutside, HasNoLinkDown, IsTieDown, AreDownBetween, AreTiesOf, HasSfaces, IsFirstNumber, AddsInSfaces, AreItemTies, IsItemSide, IsSideTie, AreFacetPieces};
ghost use Rattle.std.specs.Prelude.{◌≡◌, ◌<◌, ◌↔◌, ◌≤◌};

use crate::OutOfMemory;
use nef_classes::{Cell, Tie};
use nef_complex::Complex;
use nef_facets::{FacetParts, facet_ties, facets_of_ties};
use nef_geo::{Label, List, up};
use nef_locate::{first_hit, side_above};
use nef_smap::{SphereMap, sfaces, side_label, sides};
use std::alloc::Global;

/// The element of a side of the vertex. The row of the outside comes before those of the vertices.
pub(crate) fn cell(c: &Complex, vertex: usize, side: usize) -> Cell
    requires within { vertex < length c.now.vertices }
    ensures cell { result ≡ side_cell vertex side }
{
    prove!(vertex < c.vertices.len());
    Cell {
        row: vertex + 1,
        column: side,
    }
}

// Whether the side with this number has the label Out.
fn is_outside(map: &SphereMap, side: usize) -> bool
    requires within { side < length (sides_of (map_of map.now)) }
    ensures out { IsTrue result ↔ ((o : Side) × IsSide (map_of map.now) side o Out) }
{
    side_label(map, side) == Label::Out
}

// Adds the ties of the outside with the vertex's sides that have the label Out.
fn add_outside_sides(ties: &mut Vec<Tie>, c: &Complex, vertex: usize) -> Result<(), OutOfMemory>
    requires within { vertex < length c.now.vertices }
    ensures added { OnOk result (Adds (Any (IsTieOutside (complex_of c.now) vertex)) ties.old.items ties.new.items) }
{
    let map = &c.vertices.at(vertex).map;
    for side in 0..sides(map) {
        if is_outside(map, side) {
            ties.push(Tie {
                // The element of the outside, alone in its row.
                first: Cell { row: 0, column: 0 },
                second: cell(c, vertex, side),
            })?;
        }
    }
    Ok(())
}

/// The ties of the outside with all sides that have the label Out.
pub(crate) fn outside_ties(alloc: Global, c: &Complex) -> Result<Vec<Tie>, OutOfMemory>
    ensures ties { IfOk result (λ v. AreTiesWithOutside (complex_of c.now) (LinkOutside (complex_of c.now)) v.items) }
    ensures outside { IfOk result (λ v. AreTiedOutside (complex_of c.now) v.items) }
{
    let mut ties = Vec::new(alloc);
    for vertex in 0..c.vertices.len() {
        add_outside_sides(&mut ties, c, vertex)?;
    }
    Ok(ties)
}

// The tie down the ray from the vertex, with the side above what the ray first meets. There is none where the label below
// the vertex is Out, or nothing is met.
fn down_tie(c: &Complex, vertex: usize) -> Option<Tie>
    requires shows { (s : Set) × ShowsSet s c.now }
    requires within { vertex < length c.now.vertices }
    ensures tie { MatchOption result (HasNoLinkDown (complex_of c.now) vertex) (IsTieDown (complex_of c.now) vertex) }
{
    let here = c.vertices.at(vertex);
    let down = up().back();
    let side = here.map.face_toward(&down);
    if is_outside(&here.map, side) {
        return None;
    }
    let floor = first_hit(c, &here.point, &down)?;
    let (low, above) = side_above(c, &floor);
    let second = cell(c, low, above);
    let first = cell(c, vertex, side);
    Some(Tie { first, second })
}

/// The ties down the rays from the vertices with numbers from `start` to before `end`: of a side that sees downward, unless
/// it is outside, with the side above what the ray first meets.
pub(crate) fn down_ties(
    alloc: Global,
    c: &Complex,
    start: usize,
    end: usize,
) -> Result<Vec<Tie>, OutOfMemory>
    requires shows { (s : Set) × ShowsSet s c.now }
    requires within { end ≤ length c.now.vertices }
    ensures ties { IfOk result (λ v. AreDownBetween (complex_of c.now) start end v.items) }
{
    let mut ties = Vec::new(alloc);
    for vertex in start..end {
        if let Some(tie) = down_tie(c, vertex) {
            ties.push(tie)?;
        }
    }
    Ok(ties)
}

// Where the number first stands in the list.
fn first_place(numbers: &[usize], number: usize) -> Option<usize>
    ensures place { MatchOption result ((k : ℕ) → IsAt numbers.now k number → ⊥) (IsFirstNumber numbers.now number) }
{
    numbers.iter().position(|n| *n == number)
}

// Adds ties between the vertex's sides of one sface: of each with the first one, where that is an earlier side. The numbers
// are those of the sfaces.
fn add_sfaces(
    ties: &mut Vec<Tie>,
    c: &Complex,
    vertex: usize,
    numbers: &[usize],
) -> Result<(), OutOfMemory>
    requires within { vertex < length c.now.vertices }
    requires numbers { HasSfaces (complex_of c.now) vertex numbers.now }
    ensures added { OnOk result (AddsInSfaces (complex_of c.now) vertex ties.old.items ties.new.items) }
{
    for side in 0..numbers.len() {
        if let Some(earlier) = first_place(&numbers[..side], numbers[side]) {
            let first = cell(c, vertex, earlier);
            let second = cell(c, vertex, side);
            ties.push(Tie { first, second })?;
        }
    }
    Ok(())
}

/// Ties between sides of one sface, which join all of these. The numbers of the sfaces of the vertices' sides are given.
pub(crate) fn sface_ties(
    alloc: Global,
    c: &Complex,
    sface_of: &List<List<usize>>,
) -> Result<Vec<Tie>, OutOfMemory>
    requires sfaces { SfaceNumbers (complex_of c.now) sface_of.now }
    ensures ties { IfOk result (λ v. AreTiesOf (complex_of c.now) (LinkInSface (complex_of c.now)) v.items) }
{
    let mut ties = Vec::new(alloc);
    for vertex in 0..c.vertices.len() {
        add_sfaces(&mut ties, c, vertex, sface_of.at(vertex).as_slice())?;
    }
    Ok(ties)
}

/// For each vertex the numbers of the sfaces of its sides.
pub(crate) fn sface_numbers(alloc: Global, c: &Complex) -> Result<List<List<usize>>, OutOfMemory>
    requires shows { (s : Set) × ShowsSet s c.now }
    ensures numbers { IfOk result (λ rows. SfaceNumbers (complex_of c.now) rows) }
{
    let count = c.vertices.len();
    let mut rows = List::from_vec(Vec::with_capacity(alloc, count)?);
    for vertex in 0..count {
        let numbers = sfaces(alloc, &c.vertices.at(vertex).map)?;
        rows.push(List::from_vec(numbers))?;
    }
    Ok(rows)
}

/// The facets, and the ties of the sides of linked items.
#[derive(Drop)]
pub(crate) struct FacetPieces {
    pub(crate) parts: FacetParts,
    pub(crate) items: Vec<Tie>,
}

// The element of a side of the item: of that to which its normal points, or of the other.
fn item_cell(c: &Complex, item: &Cell, above: bool) -> Cell
    requires shows { (s : Set) × ShowsSet s c.now }
    requires within { IsCellIn (map count_items (complex_of c.now).vertices) item.now }
    ensures cell { IsItemSide (complex_of c.now) above item.now result }
{
    let map = &c.vertices.at(item.row).map;
    cell(c, item.row, map.item_side(item.column, above))
}

// The tie of the upper, or of the lower, sides of two tied items.
fn side_tie(c: &Complex, tie: &Tie, above: bool) -> Tie
    requires shows { (s : Set) × ShowsSet s c.now }
    requires first { IsCellIn (map count_items (complex_of c.now).vertices) tie.now.first }
    requires second { IsCellIn (map count_items (complex_of c.now).vertices) tie.now.second }
    ensures tie { IsSideTie (complex_of c.now) above tie.now result }
{
    Tie {
        first: item_cell(c, &tie.first, above),
        second: item_cell(c, &tie.second, above),
    }
}

// The ties of the upper sides and of the lower sides of linked items, which these ties join.
fn item_ties(alloc: Global, c: &Complex, items: &[Tie]) -> Result<Vec<Tie>, OutOfMemory>
    requires shows { (s : Set) × ShowsSet s c.now }
    requires within { AreTiedWithin (map count_items (complex_of c.now).vertices) items.now }
    requires links { (j k : Corner) → AreTied items.now (cell_of j) (cell_of k) ↔ FacetLink (complex_of c.now) j k }
    ensures ties { IfOk result (λ v. AreItemTies (complex_of c.now) v.items) }
{
    let mut ties = Vec::with_capacity(alloc, items.len().saturating_mul(2))?;
    for tie in items {
        ties.push(side_tie(c, tie, true))?;
        ties.push(side_tie(c, tie, false))?;
    }
    Ok(ties)
}

/// The facets, and the ties of the sides of items that are linked along an edge or across a facet.
pub(crate) fn facet_pieces(alloc: Global, c: &Complex) -> Result<FacetPieces, OutOfMemory>
    requires shows { (s : Set) × ShowsSet s c.now }
    ensures pieces { IfOk result (λ p. AreFacetPieces (complex_of c.now) p) }
{
    let ties = facet_ties(alloc, c)?;
    let parts = facets_of_ties(alloc, c, ties.as_slice())?;
    let items = item_ties(alloc, c, ties.as_slice())?;
    Ok(FacetPieces { parts, items })
}
