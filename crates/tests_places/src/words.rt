//! Numbers, points, planes and sets by their words, and rows that must hold.
//!
//! `None` or the error of memory alone tells that a question can't be read, has no answer, or wants memory in vain, and
//! each answer is added to one text: failures with texts of their own would make the tests dear to prove.

ghost use Rattle.std.specs.Prelude.{◌≤◌};
ghost use Rattle.nef_complex.specs.Prelude.{nat_abs, IsTrue, IfSome, InClosedFrame, InFrame, point_of};

use nef_geo::{Dir, HALF_SIDE, Label, Oriented, Plane, Point};
use std::alloc::AllocError;
use std::process::Abort;

// The greatest weight of a point, and the greatest size of the point's other numbers.
const GREATEST_WEIGHT: i64 = 1 << 32;

const GREATEST_NUMBER: u64 = 1 << 43;

/// Stops the test where `holds` is false for the row in the table with this name.
pub(crate) fn check(rt: &impl Abort, holds: bool, name: &str, row: &str) {
    assert!(rt; holds, "{name}: {row}");
}

/// The text before the separator, and the text behind, which is empty where the separator is absent.
pub(crate) fn parted<'a>(text: &'a str, separator: &str) -> (&'a str, &'a str) {
    text.split_once(separator).unwrap_or((text, ""))
}

/// The question and the answer of a row, behind which a reason stands.
pub(crate) fn case_of(row: &str) -> Option<(&str, &str)> {
    row.split_once(" # ")?.0.split_once(" => ")
}

/// Four of the numbers between the blanks, from number `first` on, with 0 for each absent number.
pub(crate) fn numbers(words: &str, first: usize) -> Option<[i64; 4]> {
    let mut numbers = [0; 4];
    for (place, word) in words.split(' ').skip(first).enumerate() {
        if place < 4 {
            numbers[place] = word.parse().ok()?;
        }
    }
    Some(numbers)
}

pub(crate) fn is_within(number: i64, limit: u64) -> bool
    ensures within { IsTrue result → nat_abs number ≤ limit }
{
    number.unsigned_abs() <= limit
}

fn is_framed(p: &Point) -> bool
    ensures framed { IsTrue result → InClosedFrame (point_of p.now) }
{
    let limit = HALF_SIDE.unsigned_abs() * p.w().unsigned_abs();
    is_within(p.x(), limit) && is_within(p.y(), limit) && is_within(p.z(), limit)
}

/// The point (x/w, y/w, z/w), if it lies in the closed frame.
pub(crate) fn framed_point(x: i64, y: i64, z: i64, w: i64) -> Option<Point>
    ensures framed { IfSome result (λ p. InClosedFrame (point_of p)) }
{
    let (is_x, is_y) = (is_within(x, GREATEST_NUMBER), is_within(y, GREATEST_NUMBER));
    if !is_x || !is_y || !is_within(z, GREATEST_NUMBER) || w < 1 || w > GREATEST_WEIGHT {
        return None;
    }
    let p = Point::of(x, y, z, w);
    if is_framed(&p) { Some(p) } else { None }
}

/// The point of the four numbers from number `first` on, if the point lies in the closed frame.
pub(crate) fn point(words: &str, first: usize) -> Option<Point>
    ensures framed { IfSome result (λ p. InClosedFrame (point_of p)) }
{
    let [x, y, z, w] = numbers(words, first)?;
    framed_point(x, y, z, w)
}

/// The point of the four numbers from number `first` on, if the point lies inside the frame.
pub(crate) fn inner_point(words: &str, first: usize) -> Option<Point>
    ensures framed { IfSome result (λ p. InFrame (point_of p)) }
{
    let p = point(words, first)?;
    if p.in_frame() { Some(p) } else { None }
}

/// The plane of the first four numbers, with the side that was given.
pub(crate) fn oriented(words: &str) -> Option<Oriented> {
    let [a, b, c, d] = numbers(words, 0)?;
    Plane::read(a, b, c, d).ok()
}

/// The plane of the first four numbers.
pub(crate) fn plane(words: &str) -> Option<Plane> {
    Some(oriented(words)?.plane())
}

pub(crate) fn label_word(label: Label) -> &'static str {
    match label {
        Label::Out => "out",
        Label::Not => "not",
        Label::In => "in",
    }
}

pub(crate) fn add_dir(text: &mut String, d: &Dir) -> Result<(), AllocError> {
    write!(text, " {} {} {}", d.x(), d.y(), d.z())
}

pub(crate) fn add_numbers(text: &mut String, numbers: &[usize]) -> Result<(), AllocError> {
    for number in numbers {
        write!(text, " {number}")?;
    }
    Ok(())
}

pub(crate) fn add_truth(text: &mut String, holds: bool) -> Result<(), AllocError> {
    text.push_str(if holds { "true" } else { "false" })
}
