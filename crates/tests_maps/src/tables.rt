//! Tables of signs, labels and turns by examples: whether a direction is on an arc, what operations do, what turns do.

ghost use Rattle.nef_geo.specs.Prelude.{IfSome};
ghost use Rattle.std.specs.Prelude.{All, ◌<◌};
ghost use Rattle.nef_case.specs.Keys.{IsSign};

use crate::words::{check, numbers, parted};
use nef_case::{
    arc_closure, arc_interior, between, op_and, op_diff, op_or, op_xor, turn_compose, turn_inverse,
    turn_row,
};
use std::process::Abort;

// On the circle about (0, 0, 1), arcs from (1, 0, 0): three quarters to (0, -1, 0), a half to (-1, 0, 0), and a whole.
const PASSES: &str = "(0, 1, 0) on three quarters: between -1 0 1 0 1 => 1
(-1, 0, 0) on three quarters: between -1 0 0 -1 1 => 1
(1, -1, 0) on three quarters: between -1 0 -1 1 -1 => 0
the source on three quarters: between -1 0 0 1 -1 => 0
(0, 1, 0) on a half: between 0 -1 1 0 1 => 1
(0, -1, 0) on a half: between 0 -1 -1 0 -1 => 0
(-1, 0, 0) on a whole turn: between 0 1 0 -1 0 => 1
the source on a whole turn: between 0 1 0 1 0 => 0
no direction has the signs 0 and 0: between 0 0 1 0 1 => 0";

// Operations on the labels of two sets, and on an arc's label with the labels of both sides.
const LABELS: &str = "in both: and 1 1 => 1
at the frame: and 0 -1 => -1
in one of them: or 0 1 => 1
in the first alone: diff 1 0 => 1
in the second alone: diff 0 1 => 0
in both, of which neither is left: xor 1 1 => 0
an arc within: interior 1 1 1 => 1
an arc with a side that is not in: interior 1 1 0 => 0
an arc beside the set: closure 0 0 1 => 1
an arc at the frame: closure -1 1 1 => -1";

// The turn 25 = 8 * 3 + 1 makes the new x, y, z of y, z, x, and then negates the new x. The turn 24 makes (y, z, x) of
// (x, y, z), and 32 makes (z, x, y); 16 exchanges x and y, 8 exchanges y and z, 2 negates y, and 7 negates x, y and z.
const TURNS: &str = "nothing moved: row 0 => 1 2 3
y, z and x, and -x: row 25 => -2 3 1
z, y and x, and all negated: row 47 => -3 -2 -1
(y, z, x) undone by (z, x, y): inverse 24 => 32
exchanging x and y again: inverse 16 => 16
a quarter about the axis z, and a quarter back: inverse 18 => 17
(y, x, z), then (y, z, x): compose 8 16 => 24
(x, z, y), then (z, x, y): compose 16 8 => 32
(y, x, z), then (y, -x, z): compose 2 16 => 18
(x, -y, z), then (-y, x, z): compose 16 2 => 17
two quarters, (-x, -y, z): compose 18 18 => 3
(y, z, x), then (z, x, y): compose 24 24 => 32
negated twice: compose 7 7 => 0
what was turned and turned back: back_and_forth 25 => 0";

fn sign(word: &str) -> i8
    ensures sign { IsSign result }
{
    match word {
        "-1" => -1,
        "0" => 0,
        _ => 1,
    }
}

fn of_five_words(words: &str) -> i8 {
    let (a, rest) = parted(words, " ");
    let (b, rest) = parted(rest, " ");
    let (c, rest) = parted(rest, " ");
    let (d, e) = parted(rest, " ");
    i8::from(between(&[sign(a), sign(b), sign(c), sign(d), sign(e)]))
}

fn of_three(verb: &str, key: &[i8; 3]) -> i8
    requires signs { All IsSign key.now }
{
    match verb {
        "interior" => arc_interior(key),
        _ => arc_closure(key),
    }
}

fn of_two(verb: &str, key: &[i8; 2]) -> Option<i8>
    requires signs { All IsSign key.now }
{
    match verb {
        "and" => Some(op_and(key)),
        "or" => Some(op_or(key)),
        "diff" => Some(op_diff(key)),
        "xor" => Some(op_xor(key)),
        _ => None,
    }
}

// The answer to a question about signs or labels.
fn of_signs(verb: &str, words: &str) -> Option<i8> {
    let (a, rest) = parted(words, " ");
    let (b, c) = parted(rest, " ");
    match verb {
        "between" => Some(of_five_words(words)),
        "interior" | "closure" => Some(of_three(verb, &[sign(a), sign(b), sign(c)])),
        _ => of_two(verb, &[sign(a), sign(b)]),
    }
}

fn turn(word: &str) -> Option<usize>
    ensures below { IfSome result (λ k. k < 48) }
{
    let turn: usize = word.parse().ok()?;
    if turn < 48 { Some(turn) } else { None }
}

// The answer to a question about the numbers of turns.
fn of_turns(verb: &str, words: &str) -> Option<usize> {
    let (first, second) = parted(words, " ");
    let first = turn(first)?;
    match verb {
        "inverse" => Some(turn_inverse(first)),
        "compose" => Some(turn_compose(first, turn(second)?)),
        _ => Some(turn_compose(turn_inverse(first), first)),
    }
}

// Whether the turn makes these coordinates of x, y and z, which stand as 1, 2 and 3.
fn has_row(word: &str, wanted: &str) -> Option<bool> {
    let [x, y, z] = turn_row(turn(word)?);
    Some(numbers(wanted)? == [i64::from(x), i64::from(y), i64::from(z), 0])
}

// Whether `wanted` is the answer to the question.
fn has_answer(question: &str, wanted: &str) -> Option<bool> {
    let (verb, words) = parted(question, " ");
    match verb {
        "row" => has_row(words, wanted),
        "inverse" | "compose" | "back_and_forth" => {
            Some(of_turns(verb, words)? == wanted.parse().ok()?)
        }
        _ => Some(of_signs(verb, words)? == wanted.parse().ok()?),
    }
}

// Whether the row holds; a name stands before the question.
fn holds(row: &str) -> Option<bool> {
    let (_, rest) = parted(row, ": ");
    let (question, wanted) = parted(rest, " => ");
    has_answer(question, wanted)
}

fn check_rows(rt: &impl Abort, table: &str) {
    for row in table.split('\n') {
        check(rt, holds(row) == Some(true), row);
    }
}

#[test]
fn tables(rt: HostRuntime) {
    check_rows(&rt, PASSES);
    check_rows(&rt, LABELS);
    check_rows(&rt, TURNS);
}
