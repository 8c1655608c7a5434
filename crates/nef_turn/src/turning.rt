//! Turns by their rows; turned points, directions, normals and carriers; and the complex of a turned set.

ghost use Rattle.std.specs.Prelude.{◌≡◌, ◌<◌, ◌≤◌};
ghost use Rattle.nef_complex.specs.Prelude.{nat_abs, All, map, IfOk, point_limit, SamePoint, Set, IsNormal, form_of, point_of, vector_of, vertex_of, AreSorted, ShowsSet, AreInOrder};
ghost use Rattle.law_geometry.specs.turns.Complexes.{AreTurnedPlanes, AreTurnedVertices};
ghost use Rattle.law_geometry.specs.turns.Turned.{is_odd, turned_vector, turned_point, signed};
ghost use Rattle.nef_case.specs.Turns.{IsEntry, IsRowOfTurn, turned};
ghost use Rattle.nef_turn.specs.Shown.{ShowsTurnedSets, BackShowsSame, TwiceShowsComposed};
ghost use Rattle.nef_turn.specs.Turning.{IsTurnedCarrier, HaveLeastMaps};

use crate::OutOfMemory;
use crate::maps::turned_map;
use nef_case::{turn_row, turned_coordinates};
use nef_complex::{Complex, Vertex};
use nef_edges::pair;
use nef_geo::{Dir, List, Oriented, Plane, Point, lex_cmp};
use std::alloc::Global;

/// One of the 48 turns, which put the axes into another order and then negate some of the new coordinates.
#[derive(Clone, Copy)]
pub(crate) struct Turn {
    /// For each new coordinate 1, 2 or 3 for the old x, y or z, negative where the coordinate is negated.
    pub(crate) row: [i8; 3],
    /// Whether the turn makes counterclockwise clockwise.
    pub(crate) odd: bool,
    pub(crate) number: usize,
    pub ghost entries: { All IsEntry row },
    pub ghost is_row: { IsRowOfTurn number row },
    pub ghost parity: { odd ≡ is_odd number },
}

// Whether the turn makes counterclockwise clockwise: it exchanges two axes or negates an odd number of axes, not both.
fn is_odd(k: usize) -> bool
    requires turn { k < 48 }
    ensures odd { result ≡ is_odd k }
{
    // by the coordinates that are negated, and by the order of the axes
    let negates_odd = [false, true, true, false, true, false, false, true];
    let exchanges = [false, true, true, false, false, true];
    negates_odd[k % 8] != exchanges[k / 8]
}

impl Turn {
    /// The turn with the number `k`, which is below 48.
    pub(crate) fn of(k: usize) -> Turn
        requires turn { k < 48 }
        ensures number { result.number ≡ k }
    {
        Turn {
            row: turn_row(k),
            odd: is_odd(k),
            number: k,
        }
    }
}

/// The three coordinates after the turn.
pub(crate) fn turned(turn: &Turn, x: i64, y: i64, z: i64) -> (i64, i64, i64)
    requires x_small { nat_abs x ≤ point_limit }
    requires y_small { nat_abs y ≤ point_limit }
    requires z_small { nat_abs z ≤ point_limit }
    ensures turned { result ≡ turned turn.now.number (x, y, z) }
{
    turned_coordinates(&turn.row, x, y, z)
}

/// The point with the turned coordinates.
pub(crate) fn turned_point(turn: &Turn, p: &Point) -> Point
    ensures same { SamePoint (point_of result) (turned_point turn.now.number (point_of p.now)) }
{
    let (x, y, z) = turned(turn, p.x(), p.y(), p.z());
    Point::of(x, y, z, p.w())
}

/// The direction with the turned coordinates.
pub(crate) fn turned_dir(turn: &Turn, d: &Dir) -> Dir
    ensures turned { vector_of result ≡ turned_vector turn.now.number (vector_of d.now) }
{
    let (x, y, z) = turned(turn, d.x(), d.y(), d.z());
    Dir::reduced(x, y, z)
}

/// The normal form of the turned normal, and whether this form is opposite to the turned normal.
pub(crate) fn turned_normal(turn: &Turn, normal: &Dir) -> (Dir, bool)
    ensures turned { vector_of result.0 ≡ signed result.1 (turned_vector turn.now.number (vector_of normal.now)) }
    ensures normal { IsNormal (vector_of result.0) }
{
    let dir = turned_dir(turn, normal);
    if dir.is_normal() {
        (dir, false)
    } else {
        (dir.back(), true)
    }
}

// The normal form of the turned plane.
fn turned_carrier(turn: &Turn, h: &Plane) -> Plane
    ensures turned { IsTurnedCarrier turn.now.number 0 h.now result }
{
    let (a, b, c) = turned(turn, h.a(), h.b(), h.c());
    Oriented::of(a, b, c, h.d()).plane()
}

// The turned planes, in order of their four numbers.
fn turned_carriers(alloc: Global, turn: &Turn, planes: &[Plane]) -> Result<List<Plane>, OutOfMemory>
    requires ordered { AreInOrder planes.now }
    ensures turned { IfOk result (λ hs. AreTurnedPlanes turn.now.number (map form_of planes.now) (map form_of hs)) }
{
    let mut images = Vec::new(alloc);
    for plane in planes {
        images.push(turned_carrier(turn, plane))?;
    }
    images.sort_unstable();
    Ok(List::from_vec(images))
}

// The turned vertices, in increasing order of their points.
fn turned_vertices(
    alloc: Global,
    turn: &Turn,
    vertices: &[Vertex],
) -> Result<List<Vertex>, OutOfMemory>
    requires least { HaveLeastMaps vertices.now }
    requires sorted { AreSorted vertices.now }
    ensures turned { IfOk result (λ vs. AreTurnedVertices turn.now.number (map vertex_of vertices.now) (map vertex_of vs)) }
{
    let mut images = Vec::new(alloc);
    for vertex in vertices {
        images.push(Vertex {
            point: turned_point(turn, &vertex.point),
            map: turned_map(alloc, turn, &vertex.map)?,
        })?;
    }
    images.sort_unstable_by(|v, w| lex_cmp(&v.point, &w.point));
    Ok(List::from_vec(images))
}

/// What the turn with the number `k`, which is below 48, makes of a complex that shows some set: the complex of the
/// turned set. The turn puts the axes into the order with the number `k / 8` and then negates the new x, y and z where
/// `k % 8` has the bits 1, 2 and 4. `OutOfMemory` says that memory was wanted and not found.
pub fn turn_complex(alloc: Global, c: &Complex, k: usize) -> Result<Complex, OutOfMemory>
    requires turn { k < 48 }
    requires shows { (s : Set) × ShowsSet s c.now }
    ensures shows { IfOk result (λ d. ShowsTurnedSets k c.now d) }
{
    let turn = Turn::of(k);
    let carriers = turned_carriers(alloc, &turn, c.carriers.as_slice())?;
    let vertices = turned_vertices(alloc, &turn, c.vertices.as_slice())?;
    let complex = pair(alloc, carriers, vertices)?;
    Ok(complex)
}

/// A complex turned by a turn, and then by the turn that undoes it, shows the same sets as before, and so has their
/// text. A complex turned by two turns shows what the complex turned by their composition shows.
pub fn turning_laws()
    ensures back { BackShowsSame }
    ensures twice { TwiceShowsComposed }
{}
