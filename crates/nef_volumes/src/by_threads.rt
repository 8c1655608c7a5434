//! All parts of a complex, made by several threads.

ghost use Rattle.std.specs.Prelude.{◌≡◌, ◌≤◌, ◌++◌};
ghost use Rattle.nef_volumes.specs.Prelude.{length, IfOk, Set, complex_of, ShowsSet, IsParts, SfaceNumbers, FacetsAreComponents, VolumesAreComponents, AreCounted, AreFacetPieces, AreDownBetween};

use crate::OutOfMemory;
use crate::all::{parts, parts_of_pieces};
use crate::ties::{FacetPieces, down_ties, facet_pieces, sface_numbers};
use nef_classes::Tie;
use nef_complex::{Complex, Parts};
use nef_core::{Work, all_four, both};
use nef_geo::List;
use std::alloc::Global;
use std::thread::Threads;

// The parts, made by two threads: one follows the rays down.
fn parts_by_two<R: Threads>(rt: &R, alloc: Global, c: &Complex) -> Result<Parts, OutOfMemory>
    requires shows { (s : Set) × ShowsSet s c.now }
    ensures parts { IfOk result (λ p. IsParts (complex_of c.now) p) }
{
    let (down, (sface_of, facets)) = both(
        rt,
        || -> Result<Vec<Tie>, OutOfMemory>
            requires { (s : Set) × ShowsSet s c.now }
            ensures { IfOk result (λ v. AreDownBetween (complex_of c.entry.now) 0 (length c.entry.now.vertices) v.items) }
        { down_ties(alloc, c, 0, c.vertices.len()) },
        || -> Result<(List<List<usize>>, FacetPieces), OutOfMemory>
            requires { (s : Set) × ShowsSet s c.now }
            ensures sfaces { IfOk result (λ p. SfaceNumbers (complex_of c.entry.now) p.0) }
            ensures pieces { IfOk result (λ p. AreFacetPieces (complex_of c.entry.now) p.1) }
        { Ok((sface_numbers(alloc, c)?, facet_pieces(alloc, c)?)) },
    )?;
    parts_of_pieces(alloc, c, facets, sface_of, down)
}

// The ties of both, those of the second after those of the first.
fn appended(mut first: Vec<Tie>, second: Vec<Tie>) -> Result<Vec<Tie>, OutOfMemory>
    ensures items { IfOk result (λ v. v.items ≡ first.items ++ second.items) }
{
    first.extend_from_slice(second.as_slice())?;
    Ok(first)
}

// The parts, made by four threads: one numbers the sfaces, and two follow the rays down, each those from half of the
// vertices.
fn parts_by_four<R: Threads>(rt: &R, alloc: Global, c: &Complex) -> Result<Parts, OutOfMemory>
    requires shows { (s : Set) × ShowsSet s c.now }
    ensures parts { IfOk result (λ p. IsParts (complex_of c.now) p) }
{
    let half = c.vertices.len() / 2;
    let (sface_of, front, back, facets) = all_four(
        rt,
        || -> Result<List<List<usize>>, OutOfMemory>
            requires { (s : Set) × ShowsSet s c.now }
            ensures { IfOk result (λ rows. SfaceNumbers (complex_of c.entry.now) rows) }
        { sface_numbers(alloc, c) },
        || -> Result<Vec<Tie>, OutOfMemory>
            requires shows { (s : Set) × ShowsSet s c.now }
            requires within { half ≤ length c.now.vertices }
            ensures { IfOk result (λ v. AreDownBetween (complex_of c.entry.now) 0 half v.items) }
        { down_ties(alloc, c, 0, half) },
        || -> Result<Vec<Tie>, OutOfMemory>
            requires { (s : Set) × ShowsSet s c.now }
            ensures { IfOk result (λ v. AreDownBetween (complex_of c.entry.now) half (length c.entry.now.vertices) v.items) }
        { down_ties(alloc, c, half, c.vertices.len()) },
        || -> Result<FacetPieces, OutOfMemory>
            requires { (s : Set) × ShowsSet s c.now }
            ensures { IfOk result (λ p. AreFacetPieces (complex_of c.entry.now) p) }
        { facet_pieces(alloc, c) },
    )?;
    let down = appended(front, back)?;
    parts_of_pieces(alloc, c, facets, sface_of, down)
}

// The parts, made by one, two or four threads.
fn parts_by<R: Threads>(
    rt: &R,
    alloc: Global,
    c: &Complex,
    workers: u32,
) -> Result<Parts, OutOfMemory>
    requires shows { (s : Set) × ShowsSet s c.now }
    ensures parts { IfOk result (λ p. IsParts (complex_of c.now) p) }
{
    match Work::Parts(c.vertices.len()).crew(workers) {
        1 => parts(alloc, c),
        2 => parts_by_two(rt, alloc, c),
        _ => parts_by_four(rt, alloc, c),
    }
}

/// As `parts`. Where it pays for two of the workers, another thread follows the rays down from the vertices while the
/// calling one numbers the sfaces and makes the facets; where it pays for four, two others follow the rays, and one numbers
/// the sfaces. Where a thread can't be made another does its part. `OutOfMemory` says that memory was wanted and not found,
/// by whichever of them.
pub fn parts_by_threads<R: Threads + Sync>(
    rt: &R,
    alloc: Global,
    c: &Complex,
    workers: u32,
) -> Result<Parts, OutOfMemory>
    requires shows { (s : Set) × ShowsSet s c.now }
    ensures parts { IfOk result (λ p. IsParts (complex_of c.now) p) }
    ensures items_joined { IfOk result (λ p. FacetsAreComponents c.now p) }
    ensures sides_joined { IfOk result (λ p. VolumesAreComponents c.now p) }
    ensures counted { IfOk result (λ p. AreCounted c.now p) }
{
    parts_by(rt, alloc, c, workers)
}
