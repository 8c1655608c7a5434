//! `None` stands for a row that can't be read or has no answer: texts of failures would make the tests dear to prove.

ghost use Rattle.std.specs.Prelude.{◌↔◌};
ghost use Rattle.nef_geo.specs.Prelude.{IsTrue, IfSome, direction_limit, normal_limit, IsAtMost, vector, vector_of};

use nef_geo::{Dir, Label, up};
use nef_star::Op;
use std::process::Abort;

/// Stops the test where `holds` is false.
pub(crate) fn check(rt: &impl Abort, holds: bool, what: &str) {
    assert!(rt; holds, "{what}");
}

/// The text before the separator, and the text behind, which is empty where the separator is absent.
pub(crate) fn parted<'a>(text: &'a str, separator: &str) -> (&'a str, &'a str) {
    text.split_once(separator).unwrap_or((text, ""))
}

/// The first four numbers between the blanks, with 0 for each absent number.
pub(crate) fn numbers(text: &str) -> Option<[i64; 4]> {
    let mut numbers = [0; 4];
    for (place, word) in text.split(' ').enumerate() {
        if place < 4 {
            numbers[place] = word.parse().ok()?;
        }
    }
    Some(numbers)
}

fn are_small(x: i64, y: i64, z: i64) -> bool
    ensures small { IsTrue result ↔ IsAtMost direction_limit (vector x y z) }
{
    let limit = 1 << 37;
    x.unsigned_abs() <= limit && y.unsigned_abs() <= limit && z.unsigned_abs() <= limit
}

fn direction_of(text: &str) -> Option<Dir> {
    let [x, y, z, _] = numbers(text)?;
    if are_small(x, y, z) {
        Dir::of(x, y, z)
    } else {
        None
    }
}

/// The direction of three numbers, or the upward or the downward direction.
pub(crate) fn way(text: &str) -> Option<Dir> {
    match text {
        "up" => Some(up()),
        "down" => Some(up().back()),
        _ => direction_of(text),
    }
}

/// Whether no number of the direction is larger than the limit.
pub(crate) fn is_at_most(d: &Dir, limit: u64) -> bool
    ensures small { IsTrue result ↔ IsAtMost limit (vector_of d.now) }
{
    d.x().unsigned_abs() <= limit && d.y().unsigned_abs() <= limit && d.z().unsigned_abs() <= limit
}

/// The direction of three numbers, if these are as small as those of normals.
pub(crate) fn normal(text: &str) -> Option<Dir>
    ensures small { IfSome result (λ d. IsAtMost normal_limit (vector_of d)) }
{
    let way = way(text)?;
    if is_at_most(&way, 1 << 11) {
        Some(way)
    } else {
        None
    }
}

pub(crate) fn label(letter: &str) -> Option<Label> {
    match letter {
        "o" => Some(Label::Out),
        "n" => Some(Label::Not),
        "i" => Some(Label::In),
        _ => None,
    }
}

pub(crate) fn letter(label: Label) -> &'static str {
    match label {
        Label::Out => "o",
        Label::Not => "n",
        Label::In => "i",
    }
}

pub(crate) fn op(word: &str) -> Option<Op> {
    match word {
        "and" => Some(Op::And),
        "or" => Some(Op::Or),
        "diff" => Some(Op::Diff),
        "xor" => Some(Op::Xor),
        _ => None,
    }
}
