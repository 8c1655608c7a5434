//! Questions about the parts of a complex, and about joined points.
//!
//! - `volumes`: the labels of the volumes.
//! - `beside`: for each facet the volumes to which its normal points and doesn't point.
//! - `facets`: the planes of the facets; `marks`: their marks.
//! - `cycles`: the cycles of the facets; a corner is a vertex and an item of this vertex.
//! - `joined POINT POINT`: whether both points are joined.
//! - `ties_along`, `ties_across`: the number of ties along edges, or across facets.
//! - `tie_along CORNER CORNER`, `tie_across CORNER CORNER`: whether a tie leads from the first corner, by its vertex
//! and its item, to the second corner.

ghost use Rattle.nef_complex.specs.Prelude.{InFrame, Set, point_of, ShowsSet};

use crate::items::{add_planes, letter};
use crate::words::{add_truth, inner_point, numbers};
use nef_classes::{Cell, Tie};
use nef_complex::{Complex, Corner, Cycle, Facet, OutOfMemory, Parts};
use nef_facets::{FacetParts, across_ties, along_ties, facets};
use nef_geo::{Label, List, Point};
use nef_volumes::{joined, parts};
use std::alloc::Global;

fn add_letters(text: &mut String, labels: &[Label]) -> Result<(), OutOfMemory> {
    for label in labels {
        text.push_str(letter(*label))?;
    }
    Ok(())
}

fn add_sides(text: &mut String, facets: &[Facet]) -> Result<(), OutOfMemory> {
    for facet in facets {
        write!(text, " {}{}", facet.pos, facet.neg)?;
    }
    Ok(())
}

fn add_corners(text: &mut String, corners: &[Corner]) -> Result<(), OutOfMemory> {
    for corner in corners {
        write!(text, "{}{}", corner.vertex, corner.item)?;
    }
    Ok(())
}

fn add_cycles(text: &mut String, cycles: &[Cycle]) -> Result<(), OutOfMemory> {
    for cycle in cycles {
        text.push_str(" ")?;
        add_corners(text, cycle.corners.as_slice())?;
    }
    Ok(())
}

fn add_all_cycles(text: &mut String, facets: &[List<Cycle>]) -> Result<(), OutOfMemory> {
    for cycles in facets {
        add_cycles(text, cycles.as_slice())?;
    }
    Ok(())
}

fn add_of_facets(text: &mut String, found: &FacetParts, verb: &str) -> Result<(), OutOfMemory> {
    match verb {
        "facets" => add_planes(text, found.planes.as_slice()),
        "marks" => add_letters(text, found.marks.as_slice()),
        _ => add_all_cycles(text, found.cycles.as_slice()),
    }
}

// Adds the answer about facets or about the cycles of facets.
fn add_facets(alloc: Global, text: &mut String, c: &Complex, verb: &str) -> Result<(), OutOfMemory>
    requires shows { (s : Set) × ShowsSet s c.now }
{
    let found = facets(alloc, c)?;
    add_of_facets(text, &found, verb)
}

fn add_of_parts(text: &mut String, all: &Parts, verb: &str) -> Result<(), OutOfMemory> {
    match verb {
        "volumes" => add_letters(text, all.volumes.as_slice()),
        _ => add_sides(text, all.facets.as_slice()),
    }
}

// Adds the labels of volumes, or the volumes beside facets.
fn add_volumes(alloc: Global, text: &mut String, c: &Complex, verb: &str) -> Result<(), OutOfMemory>
    requires shows { (s : Set) × ShowsSet s c.now }
{
    let all = parts(alloc, c)?;
    add_of_parts(text, &all, verb)
}

fn ties(alloc: Global, c: &Complex, along: bool) -> Result<Vec<Tie>, OutOfMemory>
    requires shows { (s : Set) × ShowsSet s c.now }
{
    if along {
        along_ties(alloc, c)
    } else {
        across_ties(alloc, c)
    }
}

fn add_count(alloc: Global, text: &mut String, c: &Complex, along: bool) -> Result<(), OutOfMemory>
    requires shows { (s : Set) × ShowsSet s c.now }
{
    let ties = ties(alloc, c, along)?;
    write!(text, "{}", ties.len())
}

/// Adds the answer to a question about all parts of a complex, and nothing for other questions.
pub(crate) fn add_parts(
    alloc: Global,
    text: &mut String,
    c: &Complex,
    verb: &str,
) -> Result<(), OutOfMemory>
    requires shows { (s : Set) × ShowsSet s c.now }
{
    match verb {
        "volumes" | "beside" => add_volumes(alloc, text, c, verb),
        "facets" | "marks" | "cycles" => add_facets(alloc, text, c, verb),
        "ties_along" => add_count(alloc, text, c, true),
        "ties_across" => add_count(alloc, text, c, false),
        _ => Ok(()),
    }
}

fn cell(row: i64, column: i64) -> Option<Cell> {
    Some(Cell {
        row: usize::try_from(row).ok()?,
        column: usize::try_from(column).ok()?,
    })
}

/// Adds whether a tie leads from the first corner to the second corner.
pub(crate) fn add_tie(
    alloc: Global,
    text: &mut String,
    c: &Complex,
    along: bool,
    words: &str,
) -> Option<()>
    requires shows { (s : Set) × ShowsSet s c.now }
{
    let [row, column, next_row, next_column] = numbers(words, 0)?;
    let (first, second) = (cell(row, column)?, cell(next_row, next_column)?);
    let ties = ties(alloc, c, along).ok()?;
    add_truth(text, ties.contains(&Tie { first, second })).ok()
}

fn are_joined(alloc: Global, c: &Complex, p: &Point, q: &Point) -> Result<bool, OutOfMemory>
    requires shows { (s : Set) × ShowsSet s c.now }
    requires first { InFrame (point_of p.now) }
    requires second { InFrame (point_of q.now) }
{
    let all = parts(alloc, c)?;
    Ok(joined(c, &all, p, q))
}

/// Adds `joined` or `apart`, as both points are joined or not.
pub(crate) fn add_joined(alloc: Global, text: &mut String, c: &Complex, words: &str) -> Option<()>
    requires shows { (s : Set) × ShowsSet s c.now }
{
    let (p, q) = (inner_point(words, 0)?, inner_point(words, 4)?);
    let holds = are_joined(alloc, c, &p, &q).ok()?;
    text.push_str(if holds { "joined" } else { "apart" }).ok()
}
