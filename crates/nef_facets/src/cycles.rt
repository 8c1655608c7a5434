//! The next corner of each corner, and the cycles of each facet.

ghost use Rattle.std.specs.Prelude.{◌≡◌, ◌<◌};
ghost use Rattle.nef_facets.specs.Prelude.{ℕ, length, IfOk, false, IsAt, Set, vector_of, complex_of, corner_of, ShowsSet, IsFacetOf, FacetNumbers, Leads, Edge as PlainEdge, map_of, AreCorners, StandFrom, AreCyclesOf, AreCornersOf, AreNumberedOrbits, AreCycleRows, IsStep, IsClosedUnderSteps, ComesBack, AreMarked, AreOrbits, IsArcInto, HaveNextFrom, KeepsNext, AreNext};

use crate::OutOfMemory;
use nef_classes::{empty_rows, number_at, own_numbers};
use nef_complex::{Complex, Corner, Cycle};
use nef_geo::{Dir, List};
use nef_smap::SphereMap;
use std::alloc::Global;

/// An end of an edge: a svertex of a vertex.
#[derive(Clone, Copy)]
struct End {
    vertex: usize,
    svertex: usize,
}

// The number of the arc with the normal that ends at the svertex.
fn arc_into(map: &SphereMap, svertex: usize, normal: &Dir) -> usize
    requires some { (k : ℕ) × IsArcInto (map_of map.now) svertex (vector_of normal.now) k }
    ensures arc { IsArcInto (map_of map.now) svertex (vector_of normal.now) result }
{
    let arcs = map.arcs.as_slice();
    let mut number = 0;
    loop {
        let arc = &arcs[number];
        if arc.target == svertex && normal.is_same(&arc.normal) {
            return number;
        }
        number += 1;
    }
}

// The number of a listed corner: the number of its vertex's first corner plus the number of its item.
fn position(corners: &[Corner], starts: &[usize], vertex: usize, item: usize) -> usize
    requires starts { StandFrom corners.now starts.now }
    requires listed { (i : ℕ) × IsAt corners.now i (record { vertex = vertex; item = item }) }
    ensures position { IsAt corners.now result (record { vertex = vertex; item = item }) }
{
    starts[vertex] + item
}

// Writes the next corner of each arc that begins at svertex `from`: this corner lies at `to`, the edge's other end.
fn add_next(
    next: &mut Vec<usize>,
    c: &Complex,
    corners: &[Corner],
    starts: &[usize],
    from: &End,
    to: &End,
)
    requires shows { (s : Set) × ShowsSet s c.now }
    requires corners { AreCorners (complex_of c.now) corners.now }
    requires starts { StandFrom corners.now starts.now }
    requires edge { (n : ℕ) × (e : PlainEdge) × IsAt (complex_of c.now).edges n e × Leads e from.now.vertex from.now.svertex to.now.vertex to.now.svertex }
    requires as_many { length next.old.items ≡ length corners.now }
    ensures as_many { length next.new.items ≡ length corners.now }
    ensures kept { KeepsNext (complex_of c.now) corners.now next.old.items next.new.items }
    ensures added { HaveNextFrom (complex_of c.now) corners.now from.now.vertex from.now.svertex next.new.items }
{
    let here = &c.vertices.at(from.vertex).map;
    for (number, arc) in here.arcs.as_slice().iter().enumerate() {
        if arc.source == from.svertex {
            let item = arc_into(&c.vertices.at(to.vertex).map, to.svertex, &arc.normal);
            let following = position(corners, starts, to.vertex, item);
            let place = position(corners, starts, from.vertex, number);
            next[place] = following;
        }
    }
}

// For each corner the number of the next corner of its cycle.
fn next_corners(
    alloc: Global,
    c: &Complex,
    corners: &[Corner],
    starts: &[usize],
) -> Result<Vec<usize>, OutOfMemory>
    requires shows { (s : Set) × ShowsSet s c.now }
    requires corners { AreCorners (complex_of c.now) corners.now }
    requires starts { StandFrom corners.now starts.now }
    ensures next { IfOk result (λ v. AreNext (complex_of c.now) corners.now v.items) }
{
    let mut next = own_numbers(alloc, corners.len())?;
    for edge in c.edges.as_slice() {
        let low = End {
            vertex: edge.low,
            svertex: edge.low_svertex,
        };
        let high = End {
            vertex: edge.high,
            svertex: edge.high_svertex,
        };
        add_next(&mut next, c, corners, starts, &low, &high);
        add_next(&mut next, c, corners, starts, &high, &low);
    }
    Ok(next)
}

// The orbit from an unmarked number on. The numbers of the orbit get marked.
fn walk(
    alloc: Global,
    next: &[usize],
    marks: &mut Vec<bool>,
    start: usize,
) -> Result<List<usize>, OutOfMemory>
    requires step { IsStep next.now }
    requires as_many { length marks.old.items ≡ length next.now }
    requires start { IsAt marks.old.items start false }
    requires closed { IsClosedUnderSteps next.now marks.old.items }
    ensures as_many { length marks.new.items ≡ length next.now }
    ensures back { IfOk result (λ xs. ComesBack next.now start xs) }
    ensures apart { IfOk result (λ xs. (k l i : ℕ) → IsAt xs k i → IsAt xs l i → k ≡ l) }
    ensures marked { IfOk result (λ xs. AreMarked xs marks.old.items marks.new.items) }
{
    let mut orbit = List::new(alloc);
    let mut now = start;
    while !marks[now] {
        marks[now] = true;
        orbit.push(now)?;
        now = next[now];
    }
    Ok(orbit)
}

// All orbits of the numbers, each from its least number on, in the order of their least numbers.
fn orbits(alloc: Global, next: &[usize]) -> Result<List<List<usize>>, OutOfMemory>
    requires step { IsStep next.now }
    ensures orbits { IfOk result (λ xs. AreOrbits next.now xs) }
{
    let mut marks = vec![in alloc; false; next.len()]?;
    let mut orbits = List::new(alloc);
    for start in 0..next.len() {
        if !marks[start] {
            orbits.push(walk(alloc, next, &mut marks, start)?)?;
        }
    }
    Ok(orbits)
}

// The cycle of the corners with these numbers.
fn cycle_of(alloc: Global, corners: &[Corner], orbit: &[usize]) -> Result<Cycle, OutOfMemory>
    requires within { (k i : ℕ) → IsAt orbit.now k i → i < length corners.now }
    ensures corners { IfOk result (λ y. AreCornersOf corners.now orbit.now y.corners) }
{
    let mut cycle = List::new(alloc);
    for number in orbit {
        cycle.push(corners[*number])?;
    }
    Ok(Cycle { corners: cycle })
}

// For each facet its cycles. An orbit belongs to the facet of its first corner.
fn grouped(
    alloc: Global,
    rows: &List<List<usize>>,
    corners: &[Corner],
    orbits: &[List<usize>],
    count: usize,
) -> Result<List<List<Cycle>>, OutOfMemory>
    requires numbered { AreNumberedOrbits rows.now corners.now orbits.now count }
    ensures as_many { IfOk result (λ ys. length ys ≡ count) }
    ensures grouped { IfOk result (λ ys. AreCycleRows rows.now corners.now orbits.now (length orbits.now) ys) }
{
    let mut cycles = empty_rows(alloc, count, 0)?;
    for orbit in orbits {
        let cycle = cycle_of(alloc, corners, orbit.as_slice())?;
        let first = corners[*orbit.at(0)];
        let number = number_at(rows, first.vertex, first.item);
        cycles[number].push(cycle)?;
    }
    Ok(List::from_vec(cycles))
}

/// For each of `count` facets its cycles.
pub(crate) fn facet_cycles(
    alloc: Global,
    c: &Complex,
    rows: &List<List<usize>>,
    corners: &[Corner],
    starts: &[usize],
    count: usize,
) -> Result<List<List<Cycle>>, OutOfMemory>
    requires shows { (s : Set) × ShowsSet s c.now }
    requires numbers { FacetNumbers (complex_of c.now) rows.now }
    requires corners { AreCorners (complex_of c.now) corners.now }
    requires starts { StandFrom corners.now starts.now }
    requires count { (i : ℕ) (k : Corner) (n : ℕ) → IsAt corners.now i k → IsFacetOf rows.now (corner_of k) n → n < count }
    ensures as_many { IfOk result (λ ys. length ys ≡ count) }
    ensures cycles { IfOk result (λ ys. AreCyclesOf (complex_of c.now) rows.now ys) }
{
    let next = next_corners(alloc, c, corners, starts)?;
    let orbits = orbits(alloc, &next)?;
    grouped(alloc, rows, corners, orbits.as_slice(), count)
}
