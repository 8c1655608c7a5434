//! Tables of questions about a set. A table's first line makes the set; each other line is a question, its answer and a
//! reason. After `free ` two workers over the free board work the steps, else one worker over the board with a lock.

ghost use Rattle.nef_complex.specs.Prelude.{IfSome, Set, ShowsSet};

use crate::ends::add_end;
use crate::items::{add_all, add_corner_at, add_cut, add_items};
use crate::parts::{add_joined, add_parts, add_tie};
use crate::places::add_at;
use crate::rays::{add_from_vertex, add_in_plane};
use crate::sets::Maker;
use crate::turns::{add_compared, add_turned};
use crate::words::{case_of, check, parted, plane};
use nef_complex::{Complex, OutOfMemory};
use nef_core::BoardKind;
use std::alloc::Global;
use std::process::Abort;
use std::sync::Wait;
use std::thread::Threads;

// Adds the answer to a question without numbers: exactly one of three calls adds something.
fn add_of_none(alloc: Global, text: &mut String, c: &Complex, verb: &str) -> Result<(), OutOfMemory>
    requires shows { (s : Set) × ShowsSet s c.now }
{
    add_all(alloc, text, c, verb)?;
    add_parts(alloc, text, c, verb)?;
    add_compared(alloc, text, c, verb)
}

// Adds the answer to a question about a plane, a point or two corners.
fn add_of_four(alloc: Global, text: &mut String, c: &Complex, verb: &str, words: &str) -> Option<()>
    requires shows { (s : Set) × ShowsSet s c.now }
{
    match verb {
        "items" => add_items(text, c, &plane(words)?).ok(),
        "cut" => add_cut(alloc, text, c, &plane(words)?).ok(),
        "tie_along" => add_tie(alloc, text, c, true, words),
        "tie_across" => add_tie(alloc, text, c, false, words),
        _ => add_at(alloc, text, c, verb, words),
    }
}

// Adds the answer to a question, by how many numbers the question has.
fn add_answer(alloc: Global, text: &mut String, c: &Complex, verb: &str, words: &str) -> Option<()>
    requires shows { (s : Set) × ShowsSet s c.now }
{
    match words.split_whitespace().count() {
        0 => add_of_none(alloc, text, c, verb).ok(),
        1 => add_corner_at(text, c, words),
        4 => add_of_four(alloc, text, c, verb, words),
        5 if verb == "turned" => add_turned(alloc, text, c, words),
        5 => add_from_vertex(text, c, verb, words),
        7 => add_end(alloc, text, c, words),
        8 if verb == "joined" => add_joined(alloc, text, c, words),
        8 => add_in_plane(text, c, verb, words),
        _ => None,
    }
}

// Whether the row's question has the row's answer.
fn is_answered(alloc: Global, c: &Complex, row: &str) -> Option<bool>
    requires shows { (s : Set) × ShowsSet s c.now }
{
    let (question, wanted) = case_of(row)?;
    let (verb, words) = parted(question, " ");
    let mut text = String::new(alloc);
    add_answer(alloc, &mut text, c, verb, words)?;
    Some(text.as_str().trim() == wanted)
}

fn holds(alloc: Global, made: &Option<Complex>, row: &str) -> bool
    requires shows { IfSome made.now (λ c. (s : Set) × ShowsSet s c) }
{
    match made {
        Some(c) => is_answered(alloc, c, row) == Some(true),
        None => false,
    }
}

fn check_rows(rt: &impl Abort, alloc: Global, made: &Option<Complex>, set: &str, rows: &str)
    requires shows { IfSome made.now (λ c. (s : Set) × ShowsSet s c) }
{
    for row in rows.split('\n') {
        check(rt, holds(alloc, made, row), set, row);
    }
}

fn board_of(set: &str) -> (BoardKind, &str) {
    match set.strip_prefix("free ") {
        Some(steps) => (BoardKind::Free, steps),
        None => (BoardKind::Lock, set),
    }
}

/// Stops the test where a question of the table has another answer than its row tells.
pub(crate) fn check_table<R: Threads + Wait + Sync + Abort>(rt: &R, alloc: Global, table: &str) {
    let (set, rows) = parted(table, "\n");
    let (board, steps) = board_of(set);
    let made = Maker::new(rt, alloc, board).made(steps);
    check_rows(rt, alloc, &made, set, rows);
}

/// Checks several tables, with an empty line between two tables.
pub(crate) fn check_tables<R: Threads + Wait + Sync + Abort>(rt: &R, alloc: Global, tables: &str) {
    for table in tables.split("\n\n") {
        check_table(rt, alloc, table);
    }
}
