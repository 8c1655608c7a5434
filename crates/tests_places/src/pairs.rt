//! Questions about two sets, whose steps stand with ` | ` between them and before the question.
//!
//! - `kind POINT`: whether the point is a near candidate of both sets, a candidate that isn't near, or no candidate.
//! - `counts`: the numbers of near candidates and of candidates.
//! - `row POINT`: the carriers that hold the union's vertex at the point, if the rows that are taken over from both
//! sets are equal to the rows that are found anew.

ghost use Rattle.nef_complex.specs.Prelude.{Set, ShowsSet};

use crate::sets::Maker;
use crate::words::{add_numbers, case_of, check, parted, point};
use nef_cand::{candidates, named_points, near_candidates};
use nef_complex::{
    Complex, OutOfMemory, SortedCarriers, Table, Vertex, vertex_rows, vertex_rows_from,
};
use nef_core::BoardKind;
use nef_geo::Point;
use nef_result::copy_carriers;
use nef_star::Op;
use std::alloc::Global;
use std::process::Abort;
use std::sync::Wait;
use std::thread::Threads;

// Kinds of points, and the numbers of two cubes far from each other: the corners of the frame and of both cubes, and
// the cuts, of which each side's plane makes four on the frame's edges.
const NEAR: &str = "\
-1 0 0 0, 1 0 0 -4, 0 1 0 0, 0 -1 0 0, 0 0 1 0, 0 0 -1 0 | 1 0 0 -2, -1 0 0 2, 0 -1 0 -1, 0 1 0 -1, 0 0 1 0, 0 0 -1 0 \
| kind 2 0 0 1 => near # two edges without facets cross
-1 0 0 0, 1 0 0 -4, 0 1 0 -1, 0 -1 0 1, 0 0 1 0, 0 0 -1 0 | 1 0 0 -2, -1 0 0 2, 0 -1 0 -1, 0 1 0 -1, 0 0 -1 -1, 0 0 1 -1 \
| kind 2 1 0 1 => near # an edge at y = 1 meets the border of a square in x = 2, at the end of its span
1 0 0 -2, -1 0 0 2, 0 -1 0 -1, 0 1 0 -1, 0 0 -1 -1, 0 0 1 -1 | -1 0 0 0, 1 0 0 -4, 0 1 0 -1, 0 -1 0 1, 0 0 1 0, 0 0 -1 0 \
| kind 2 1 0 1 => near # the same with the sets exchanged
-1 0 0 0, 1 0 0 -4, 0 1 0 1, 0 -1 0 -1, 0 0 1 0, 0 0 -1 0 | 1 0 0 -2, -1 0 0 2, 0 -1 0 -1, 0 1 0 -1, 0 0 -1 -1, 0 0 1 -1 \
| kind 2 -1 0 1 => near # and at the other end
-1 0 0 0, 1 0 0 -4, 0 2 0 -1, 0 -2 0 1, 0 0 1 0, 0 0 -1 0 | 1 0 0 -2, -1 0 0 2, 0 -1 0 -1, 0 1 0 -1, 0 0 -1 -1, 0 0 1 -1 \
| kind 4 1 0 2 => near # at y = 1/2 within the square
-1 0 0 0, 1 0 0 -4, 0 2 0 -3, 0 -2 0 3, 0 0 1 0, 0 0 -1 0 | 1 0 0 -2, -1 0 0 2, 0 -1 0 -1, 0 1 0 -1, 0 0 -1 -1, 0 0 1 -1 \
| kind 4 3 0 2 => cut # at y = 3/2, just beyond the span
-1 0 0 0, 1 0 0 -4, 0 1 0 0, 0 -1 0 0, 0 0 1 0, 0 0 -1 0 | 1 0 0 -2, -1 0 0 2, 0 -1 0 -1, 0 1 0 -1, 0 0 1 0, 0 0 -1 0 \
| kind 3 0 0 1 => nothing # on the first edge, where no carrier cuts it
-1 0 0 0, 1 0 0 -4, 0 1 0 0, 0 -1 0 0, 0 0 1 0, 0 0 -1 0 | 1 0 0 -2, -1 0 0 2, 0 -1 0 -5, 0 1 0 3, 0 0 -1 -1, 0 0 1 -1; \
or 1 0 0 -2, -1 0 0 2, 0 -1 0 3, 0 1 0 -5, 0 0 -1 -1, 0 0 1 -1 | kind 2 0 0 1 => cut # between two squares in x = 2
1 0 0 -2, -1 0 0 2, 0 -1 0 -5, 0 1 0 3, 0 0 -1 -1, 0 0 1 -1; or 1 0 0 -2, -1 0 0 2, 0 -1 0 3, 0 1 0 -5, 0 0 -1 -1, 0 0 1 -1 \
| -1 0 0 0, 1 0 0 -4, 0 1 0 0, 0 -1 0 0, 0 0 1 0, 0 0 -1 0 | kind 2 0 0 1 => cut # the same with the sets exchanged
1 0 0 -2, -1 0 0 2, 0 -1 0 -5, 0 1 0 0, 0 0 -1 -1, 0 0 1 -1; or 1 0 0 -2, -1 0 0 2, 0 -1 0 3, 0 1 0 -5, 0 0 -1 -1, 0 0 1 -1 \
| -1 0 0 0, 1 0 0 -4, 0 1 0 0, 0 -1 0 0, 0 0 1 0, 0 0 -1 0 | kind 2 0 0 1 => near # on the border of one of two squares
-1 0 0 0, 1 0 0 -1, 0 -1 0 0, 0 1 0 -1, 0 0 -1 0, 0 0 1 -1 | -1 0 0 4, 1 0 0 -5, 0 -1 0 4, 0 1 0 -5, 0 0 -1 4, 0 0 1 -5 \
| counts => 24 72 # no edge meets the other cube";

// Carriers stand in the order of their normals, and with one normal from the greatest to the least coordinate: for a
// cube from 0 to 2 in the frame, 0 to 3 have the normal along z, 4 to 7 along y and 8 to 11 along x.
const TAKEN: &str = "\
1 0 0 -2, -1 0 0 0, 0 1 0 -2, 0 -1 0 0, 0 0 1 -2, 0 0 -1 0 | 1 0 0 -2, -1 0 0 0, 0 1 0 -2, 0 -1 0 0, 0 0 1 -2, 0 0 -1 0 | \
row 2 2 0 1 => 2 5 9 # a corner of one set that is both
1 0 0 -2, -1 0 0 0, 0 1 0 -2, 0 -1 0 0, 0 0 1 -2, 0 0 -1 0, 1 1 0 -4 | empty | \
row 2 2 0 1 => 2 5 9 12 # a carrier that holds an edge of the first, and no facet
1 0 0 -2, -1 0 0 0, 0 1 0 -2, 0 -1 0 0, 0 0 1 -2, 0 0 -1 0 | 1 0 0 -3, -1 0 0 1, 0 1 0 -3, 0 -1 0 1, 0 0 1 -3, 0 0 -1 1 | \
row 2 2 1 1 => 3 8 14 # where an edge of the first enters the second, a vertex of neither
1 0 0 -2, -1 0 0 0, 0 1 0 -2, 0 -1 0 0, 0 0 1 -2, 0 0 -1 0 | 1 0 0 -3, -1 0 0 1, 0 1 0 -3, 0 -1 0 1, 0 0 1 -3, 0 0 -1 1 | \
row 3 3 3 1 => 1 7 13 # a corner of the second
1 0 0 -2, -1 0 0 0, 0 1 0 -2, 0 -1 0 0, 0 0 1 -2, 0 0 -1 0 | \
-1 -1 0 4, 0 -1 -1 4, -1 0 -1 4, 1 0 0 -8, 0 1 0 -8, 0 0 1 -8 | \
row 2 2 2 1 => 2 7 10 13 16 17 # a corner of both
1 0 0 -2, -1 0 0 0, 0 1 0 -2, 0 -1 0 0, 0 0 1 -2, 0 0 -1 0 | \
-1 -1 0 4, 0 -1 -1 4, -1 0 -1 4, 1 0 0 -8, 0 1 0 -8, 0 0 1 -8 | \
row 2 2 0 1 => 3 7 13 17 # a corner of the first on a carrier of the second, which doesn't reach it";

fn near_points(alloc: Global, a: &Complex, b: &Complex) -> Result<Vec<Point>, OutOfMemory>
    requires first { (s : Set) × ShowsSet s a.now }
    requires second { (t : Set) × ShowsSet t b.now }
{
    let listed = near_candidates(alloc, a, b)?;
    named_points(alloc, listed.as_slice())
}

fn is_near(alloc: Global, a: &Complex, b: &Complex, p: &Point) -> Result<bool, OutOfMemory>
    requires first { (s : Set) × ShowsSet s a.now }
    requires second { (t : Set) × ShowsSet t b.now }
{
    Ok(near_points(alloc, a, b)?.contains(p))
}

fn is_cut(alloc: Global, a: &Complex, b: &Complex, p: &Point) -> Result<bool, OutOfMemory>
    requires first { (s : Set) × ShowsSet s a.now }
    requires second { (t : Set) × ShowsSet t b.now }
{
    Ok(candidates(alloc, a, b)?.contains(p))
}

fn add_kind(
    alloc: Global,
    text: &mut String,
    a: &Complex,
    b: &Complex,
    p: &Point,
) -> Result<(), OutOfMemory>
    requires first { (s : Set) × ShowsSet s a.now }
    requires second { (t : Set) × ShowsSet t b.now }
{
    if is_near(alloc, a, b, p)? {
        text.push_str("near")
    } else {
        text.push_str(if is_cut(alloc, a, b, p)? {
            "cut"
        } else {
            "nothing"
        })
    }
}

fn add_counts(alloc: Global, text: &mut String, a: &Complex, b: &Complex) -> Result<(), OutOfMemory>
    requires first { (s : Set) × ShowsSet s a.now }
    requires second { (t : Set) × ShowsSet t b.now }
{
    let near = near_points(alloc, a, b)?.len();
    let all = candidates(alloc, a, b)?.len();
    write!(text, "{near} {all}")
}

// Adds the row of the vertex at the point, if each row that is taken over is the row that is found anew.
fn add_alike_row(
    text: &mut String,
    vertices: &[Vertex],
    taken: &Table,
    asked: &Table,
    p: &Point,
) -> Option<()> {
    for (number, vertex) in vertices.iter().enumerate() {
        if number >= taken.len()
            || number >= asked.len()
            || taken.row(number) != asked.row(number)
        {
            return None;
        }
        if vertex.point == *p {
            add_numbers(text, taken.row(number)).ok()?;
        }
    }
    Some(())
}

fn carriers_of(alloc: Global, c: &Complex) -> Result<SortedCarriers, OutOfMemory>
    requires shows { (s : Set) × ShowsSet s c.now }
{
    SortedCarriers::of(alloc, copy_carriers(alloc, c)?)
}

// Adds the row of the union's vertex at the point.
fn add_row_of(
    alloc: Global,
    text: &mut String,
    union: &Complex,
    a: &Complex,
    b: &Complex,
    p: &Point,
) -> Option<()>
    requires shows { (s : Set) × ShowsSet s union.now }
    requires first { (s : Set) × ShowsSet s a.now }
    requires second { (s : Set) × ShowsSet s b.now }
{
    let vertices = union.vertices.as_slice();
    let carriers = carriers_of(alloc, union).ok()?;
    let taken = vertex_rows_from(alloc, &carriers, vertices, a, b).ok()?;
    let asked = vertex_rows(alloc, &carriers, vertices).ok()?;
    add_alike_row(text, vertices, &taken, &asked, p)
}

fn add_row<R: Threads + Wait + Sync>(
    maker: &Maker<R>,
    text: &mut String,
    a: &Complex,
    b: &Complex,
    p: &Point,
) -> Option<()>
    requires first { (s : Set) × ShowsSet s a.now }
    requires second { (s : Set) × ShowsSet s b.now }
{
    let union = maker.combined(Op::Or, a, b)?;
    add_row_of(maker.alloc, text, &union, a, b, p)
}

fn add_answer<R: Threads + Wait + Sync>(
    maker: &Maker<R>,
    text: &mut String,
    a: &Complex,
    b: &Complex,
    question: &str,
) -> Option<()>
    requires first { (s : Set) × ShowsSet s a.now }
    requires second { (s : Set) × ShowsSet s b.now }
{
    let (verb, words) = parted(question, " ");
    match verb {
        "counts" => add_counts(maker.alloc, text, a, b).ok(),
        "kind" => add_kind(maker.alloc, text, a, b, &point(words, 0)?).ok(),
        "row" => add_row(maker, text, a, b, &point(words, 0)?),
        _ => None,
    }
}

// Adds the answer about the first set and the second set, which this function makes.
fn add_with_second<R: Threads + Wait + Sync>(
    maker: &Maker<R>,
    text: &mut String,
    first: &Complex,
    words: &str,
) -> Option<()>
    requires first { (s : Set) × ShowsSet s first.now }
{
    let (steps, question) = parted(words, " | ");
    let second = maker.made(steps)?;
    add_answer(maker, text, first, &second, question)
}

fn add_of_two<R: Threads + Wait + Sync>(
    maker: &Maker<R>,
    text: &mut String,
    words: &str,
) -> Option<()> {
    let (steps, rest) = parted(words, " | ");
    let first = maker.made(steps)?;
    add_with_second(maker, text, &first, rest)
}

fn is_answered<R: Threads + Wait + Sync>(maker: &Maker<R>, row: &str) -> Option<bool> {
    let (question, wanted) = case_of(row)?;
    let mut text = String::new(maker.alloc);
    add_of_two(maker, &mut text, question)?;
    Some(text.as_str().trim() == wanted)
}

fn check_rows<R: Threads + Wait + Sync + Abort>(maker: &Maker<R>, rows: &str) {
    for row in rows.split('\n') {
        check(
            maker.rt,
            is_answered(maker, row) == Some(true),
            "pairs",
            row,
        );
    }
}

#[test]
fn pairs_of_sets(rt: HostRuntime) {
    let maker = Maker::new(&rt, rt.alloc(), BoardKind::Lock);
    check_rows(&maker, NEAR);
    check_rows(&maker, TAKEN);
}
