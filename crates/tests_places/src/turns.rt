//! Turned complexes, and complexes compared with the frame's.
//!
//! - `turned POINT NUMBER`: whether the complex after the turn with this number has a vertex at the point.
//! - `changed`: the numbers of the turns that don't keep the carriers, vertices and edges, or `none`.
//! - `same_as_empty`, `same_as_full`: whether the complex shows the empty set, or the whole frame.

ghost use Rattle.std.specs.Prelude.{◌<◌};
ghost use Rattle.nef_complex.specs.Prelude.{Set, ShowsSet};

use crate::words::{add_truth, numbers, point};
use nef_complex::{Complex, OutOfMemory};
use nef_geo::Point;
use nef_ops::constant;
use nef_turn::turn_complex;
use nef_unique::{compare, same_vertices};
use std::alloc::Global;

const TURNS: usize = 48;

fn has_vertex_at(c: &Complex, p: &Point) -> bool {
    for vertex in c.vertices.as_slice() {
        if vertex.point == *p {
            return true;
        }
    }
    false
}

// Whether the complex after the turn has a vertex at the point.
fn turns_to(alloc: Global, c: &Complex, k: usize, p: &Point) -> Result<bool, OutOfMemory>
    requires turn { k < 48 }
    requires shows { (s : Set) × ShowsSet s c.now }
{
    let turned = turn_complex(alloc, c, k)?;
    Ok(has_vertex_at(&turned, p))
}

pub(crate) fn add_turned(alloc: Global, text: &mut String, c: &Complex, words: &str) -> Option<()>
    requires shows { (s : Set) × ShowsSet s c.now }
{
    let p = point(words, 0)?;
    let number = usize::try_from(numbers(words, 4)?[0]).ok()?;
    if number >= TURNS {
        return None;
    }
    add_truth(text, turns_to(alloc, c, number, &p).ok()?).ok()
}

// Whether both complexes have the same carriers, vertices and edges.
fn are_alike(c: &Complex, d: &Complex) -> bool {
    same_vertices(c, d)
        && d.carriers.as_slice() == c.carriers.as_slice()
        && d.edges.as_slice() == c.edges.as_slice()
}

// Whether the turn keeps the carriers, vertices and edges.
fn is_kept(alloc: Global, c: &Complex, k: usize) -> Result<bool, OutOfMemory>
    requires turn { k < 48 }
    requires shows { (s : Set) × ShowsSet s c.now }
{
    let turned = turn_complex(alloc, c, k)?;
    Ok(are_alike(c, &turned))
}

// Adds the numbers of the turns that change the complex, or that no turn does.
fn add_changed(alloc: Global, text: &mut String, c: &Complex) -> Result<(), OutOfMemory>
    requires shows { (s : Set) × ShowsSet s c.now }
{
    for k in 0..TURNS {
        if !is_kept(alloc, c, k)? {
            write!(text, " {k}")?;
        }
    }
    text.push_str(if text.is_empty() { "none" } else { "" })
}

// Whether the complex shows the whole frame, or the empty set.
fn is_same(alloc: Global, c: &Complex, full: bool) -> Result<bool, OutOfMemory> {
    let other = constant(alloc, full)?;
    Ok(compare(c, &other))
}

/// Adds the answer to a question about turns or about the frame's sets, and nothing for other questions.
pub(crate) fn add_compared(
    alloc: Global,
    text: &mut String,
    c: &Complex,
    verb: &str,
) -> Result<(), OutOfMemory>
    requires shows { (s : Set) × ShowsSet s c.now }
{
    match verb {
        "changed" => add_changed(alloc, text, c),
        "same_as_empty" => add_truth(text, is_same(alloc, c, false)?),
        "same_as_full" => add_truth(text, is_same(alloc, c, true)?),
        _ => Ok(()),
    }
}
