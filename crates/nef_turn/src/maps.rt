//! Turned sphere maps: turned svertices with their new numbers, turned arcs and sloops.

ghost use Rattle.std.specs.Prelude.{◌≡◌};
ghost use Rattle.nef_complex.specs.Prelude.{length, cond, option_map, map, IfOk, IfSome, IsNormal, vector_of, Ordered, Shaped};
ghost use Rattle.nef_smap.specs.Maps.{sloop_of, map_of, IsLeastMap};
ghost use Rattle.law_geometry.specs.turns.Maps.{HasTurnedLists, IsTurnedOption};
ghost use Rattle.nef_turn.specs.Images.{AreApart};
ghost use Rattle.nef_turn.specs.Turning.{HaveSameNumber, AreMoved, AreNewNumbers, AreOldNumbers, svertex_in, EndsBelow, IsSArcImage, Renumbers, AreTurnedArcs};

use crate::OutOfMemory;
use crate::turning::{Turn, turned_dir, turned_normal};
use nef_geo::List;
use nef_smap::{SArc, SLoop, SVertex, SphereMap};
use nef_spair::sort_arcs;
use std::alloc::Global;

// A turned svertex, with its number before the turn.
#[derive(Clone, Copy)]
struct Moved {
    svertex: SVertex,
    old: usize,
}

// The turned svertices of the map, in increasing order of their directions.
fn moved_svertices(alloc: Global, turn: &Turn, map: &SphereMap) -> Result<Vec<Moved>, OutOfMemory>
    requires shaped { Shaped (map_of map.now) }
    ensures moved { IfOk result (λ v. AreMoved turn.now.number map.now.svertices v.items) }
{
    let mut images = Vec::new(alloc);
    for (old, svertex) in map.svertices.as_slice().iter().enumerate() {
        images.push(Moved {
            svertex: SVertex {
                dir: turned_dir(turn, &svertex.dir),
                mark: svertex.mark,
                around: svertex.around,
            },
            old,
        })?;
    }
    images.sort_unstable_by_key(|moved| moved.svertex.dir);
    Ok(images)
}

// For each svertex its new number, in the order of the old numbers.
fn new_numbers(alloc: Global, svertices: &[Moved]) -> Result<Vec<usize>, OutOfMemory>
    requires within { AreOldNumbers svertices.now }
    requires apart { AreApart HaveSameNumber svertices.now }
    ensures count { IfOk result (λ v. length v.items ≡ length svertices.now) }
    ensures numbers { IfOk result (λ v. AreNewNumbers (length svertices.now) svertices.now v.items) }
{
    let mut numbers = vec![in alloc; 0; svertices.len()]?;
    for (new, moved) in svertices.iter().enumerate() {
        numbers[moved.old] = new;
    }
    Ok(numbers)
}

// The svertices without their old numbers.
fn unnumbered(alloc: Global, svertices: &[Moved]) -> Result<Vec<SVertex>, OutOfMemory>
    ensures svertices { IfOk result (λ v. v.items ≡ map svertex_in svertices.now) }
{
    svertices.iter().map(|moved| moved.svertex).collect(alloc)
}

// The two values, swapped if asked.
fn exchanged_if<T: Copy>(exchange: bool, first: T, second: T) -> (T, T)
    ensures first { result.0 ≡ cond exchange second first }
    ensures second { result.1 ≡ cond exchange first second }
{
    if exchange {
        (second, first)
    } else {
        (first, second)
    }
}

// The turned arc. The ends are swapped by a turn that makes counterclockwise clockwise, and the ends and the sides
// where the normal form is opposite to the turned normal.
fn turned_arc(turn: &Turn, numbers: &[usize], arc: &SArc) -> SArc
    requires ends { EndsBelow (length numbers.now) arc.now }
    ensures turned { IsSArcImage turn.now.number numbers.now 0 arc.now result }
{
    let (normal, flipped) = turned_normal(turn, &arc.normal);
    let (source, target) = exchanged_if(
        turn.odd != flipped,
        numbers[arc.source],
        numbers[arc.target],
    );
    let (pos, neg) = exchanged_if(flipped, arc.pos, arc.neg);
    SArc {
        source,
        target,
        normal,
        mark: arc.mark,
        pos,
        neg,
    }
}

// The turned arcs of the map, in order. `numbers` has the new number of each svertex.
fn turned_arcs(
    alloc: Global,
    turn: &Turn,
    numbers: &[usize],
    map: &SphereMap,
) -> Result<Vec<SArc>, OutOfMemory>
    requires shaped { Shaped (map_of map.now) }
    requires numbers { Renumbers turn.now.number map.now.svertices numbers.now }
    ensures turned { IfOk result (λ v. AreTurnedArcs turn.now.number numbers.now map.now.arcs v.items) }
{
    let mut images = Vec::new(alloc);
    for arc in map.arcs.as_slice() {
        images.push(turned_arc(turn, numbers, arc))?;
    }
    sort_arcs(&mut images);
    Ok(images)
}

// The turned sloop, if there is one. The sides are swapped where the normal form is opposite to the turned normal.
fn turned_sloop(turn: &Turn, sloop: Option<SLoop>) -> Option<SLoop>
    ensures turned { IsTurnedOption turn.now.number (option_map sloop_of sloop) (option_map sloop_of result) }
    ensures normal { IfSome result (λ l. IsNormal (vector_of l.normal)) }
{
    let circle = sloop?;
    let (normal, flipped) = turned_normal(turn, &circle.normal);
    let (pos, neg) = exchanged_if(flipped, circle.pos, circle.neg);
    Some(SLoop {
        normal,
        mark: circle.mark,
        pos,
        neg,
    })
}

/// The turned map: its lists have the turned items of the map, in order.
pub(crate) fn turned_map(
    alloc: Global,
    turn: &Turn,
    map: &SphereMap,
) -> Result<SphereMap, OutOfMemory>
    requires map { IsLeastMap map.now }
    ensures lists { IfOk result (λ m. HasTurnedLists turn.now.number (map_of map.now) (map_of m)) }
    ensures ordered { IfOk result (λ m. Ordered (map_of m)) }
{
    let moved = moved_svertices(alloc, turn, map)?;
    let numbers = new_numbers(alloc, moved.as_slice())?;
    let svertices = unnumbered(alloc, moved.as_slice())?;
    let arcs = turned_arcs(alloc, turn, numbers.as_slice(), map)?;
    Ok(SphereMap {
        mark: map.mark,
        svertices: List::from_vec(svertices),
        arcs: List::from_vec(arcs),
        sloop: turned_sloop(turn, map.sloop),
        ground: map.ground,
    })
}
