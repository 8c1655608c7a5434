//! What is written of a command that asks.

ghost use Rattle.std.specs.Prelude.{◌≡◌, ◌++◌};
ghost use Rattle.nef_shell.specs.Prelude.{ℕ, List, None, Some, IfOk, IfSome, OnOk, HasLabel, Set, point_of, vector_of, ShowsSet, IsRayWithin, SpeaksOfFirst, second_asked, IsAskedOf, IsAskedOfOther, IsHeld, IsHeldAt, AreStill, complex_at, IsShown, Node as Expression, IsPiece, printed, piece_bytes, same_answer, joined_answer, answer_of, number_and_blank, end_line, framed, IsJoinedAnswer, IsRayAnswer, IsSameAnswer, IsWrittenOf, count_line};

use crate::held::{Held, Value, complex_at};
use crate::values::{put_at, taken_from};
use itoa::Buffer;
use nef_complex::{Complex, Parts};
use nef_geo::{Dir, Label, Point};
use nef_locate::{locate, place_label};
use nef_ops::same;
use nef_ray::{RayEnd, ray_end};
use nef_script::{Command, Name};
use nef_volumes::joined;
use nef_words::Options;
use std::alloc::{AllocError, Global};
use std::thread::Threads;

/// What is written of a command.
#[derive(Drop)]
pub(crate) enum Piece {
    /// One of the lines that stand in the program.
    Line(&'static [u8]),
    /// A text that was made for the command.
    Text(Vec<u8>),
}

impl Piece {
    /// Its bytes.
    pub(crate) fn as_bytes(&self) -> &[u8]
        ensures bytes { result.now ≡ piece_bytes self.now }
    {
        match self {
            Piece::Line(line) => line,
            Piece::Text(text) => text,
        }
    }
}

// The line that says the label of a point.
fn answer(label: Label) -> &'static [u8]
    ensures bytes { result.now ≡ answer_of label }
{
    match label {
        Label::Out => b"frame\n",
        Label::Not => b"not\n",
        Label::In => b"in\n",
    }
}

// The line that says whether two sets are one.
fn same_answer(same: bool) -> &'static [u8]
    ensures bytes { result.now ≡ same_answer same }
{
    if same { b"same\n" } else { b"differs\n" }
}

// The line that says whether two points are joined.
fn joined_answer(joined: bool) -> &'static [u8]
    ensures bytes { result.now ≡ joined_answer joined }
{
    if joined { b"joined\n" } else { b"apart\n" }
}

// The label of the point in the set that the complex shows.
fn label_at(complex: &Complex, point: &Point) -> Label
    requires shows { (s : Set) × ShowsSet s complex.now }
    ensures label { (s : Set) → ShowsSet s complex.now → HasLabel s (point_of point.now) result }
{
    if point.in_frame() {
        place_label(complex, &locate(complex, point))
    } else {
        Label::Out
    }
}

// The line that says whether the points are joined in the set, or that one of them lies outside the frame. The set's parts
// are worked where both lie in it, unless they are kept. `AllocError` says that memory was wanted and not found.
fn joined_piece<R: Threads + Sync>(
    rt: &R,
    alloc: Global,
    held: &mut Held,
    first: &Point,
    second: &Point,
    options: &Options,
) -> Result<&'static [u8], AllocError>
    requires held { (s : Set) × IsHeld options.now.text s held.old }
    ensures piece { IfOk result (λ v. (s : Set) → IsHeld options.now.text s held.old → IsJoinedAnswer s (point_of first.now) (point_of second.now) v.now) }
    ensures held { OnOk result ((s : Set) → IsHeld options.now.text s held.old → IsHeld options.now.text s held.new) }
{
    if !first.in_frame() {
        return Ok(answer(Label::Out));
    }
    if !second.in_frame() {
        return Ok(answer(Label::Out));
    }
    let parts = held.take_parts(rt, alloc, options)?;
    let line = joined_answer(joined(&held.complex, &parts, first, second));
    held.parts = Some(parts);
    Ok(line)
}

// Adds the number and a blank.
fn add_number(text: &mut Vec<u8>, n: i64) -> Result<(), AllocError>
    ensures added { OnOk result (text.new.items ≡ text.old.items ++ number_and_blank n) }
{
    let mut number = Buffer::new();
    text.extend_from_slice(number.format(n).as_bytes())?;
    text.push(b' ')?;
    Ok(())
}

// Where the ray ends, in one line.
fn end_line(alloc: Global, end: &RayEnd) -> Result<Vec<u8>, AllocError>
    ensures bytes { IfOk result (λ v. v.items ≡ end_line end.now) }
{
    let word: &[u8] = if end.after { b"after " } else { b"at " };
    let mut text = Vec::from_slice(alloc, word)?;
    add_number(&mut text, end.point.x())?;
    add_number(&mut text, end.point.y())?;
    add_number(&mut text, end.point.z())?;
    add_number(&mut text, end.point.w())?;
    text.extend_from_slice(answer(end.label))?;
    Ok(text)
}

// The line that says where the label first changes along the ray from the point, in the set that the complex shows, or that
// the point lies outside the frame. `AllocError` says that memory was wanted and not found.
fn ray_piece(
    alloc: Global,
    complex: &Complex,
    point: &Point,
    dir: &Dir,
) -> Result<Vec<u8>, AllocError>
    requires shows { (s : Set) × ShowsSet s complex.now }
    requires within { IsRayWithin point.now dir.now }
    ensures piece { IfOk result (λ v. (s : Set) → ShowsSet s complex.now → IsRayAnswer s (point_of point.now) (vector_of dir.now) v.items) }
{
    if !point.in_frame() {
        return Vec::from_slice(alloc, answer(Label::Out));
    }
    let end = ray_end(alloc, complex, point, dir)?;
    end_line(alloc, &end)
}

// The numbers of vertices, edges, facets and volumes, in one line.
fn count_line(alloc: Global, complex: &Complex, parts: &Parts) -> Result<Vec<u8>, AllocError>
    ensures bytes { IfOk result (λ v. v.items ≡ count_line complex.now parts.now) }
{
    let mut number = Buffer::new();
    let mut bytes = Vec::from_slice(alloc, number.format(complex.vertices.len()).as_bytes())?;
    bytes.push(b' ')?;
    bytes.extend_from_slice(number.format(complex.edges.len()).as_bytes())?;
    bytes.push(b' ')?;
    bytes.extend_from_slice(number.format(parts.facets.len()).as_bytes())?;
    bytes.push(b' ')?;
    bytes.extend_from_slice(number.format(parts.volumes.len()).as_bytes())?;
    bytes.push(b'\n')?;
    Ok(bytes)
}

// The text under its name.
fn framed_text(alloc: Global, name: &Name, text: &[u8]) -> Result<Vec<u8>, AllocError>
    ensures bytes { IfOk result (λ v. v.items ≡ framed name.now text.now) }
{
    let mut bytes = Vec::from_slice(alloc, b"polyhedron ")?;
    bytes.extend_from_slice(name.as_bytes())?;
    bytes.push(b'\n')?;
    bytes.extend_from_slice(text)?;
    bytes.extend_from_slice(b"end\n")?;
    Ok(bytes)
}

// The line that counts the set's parts, which are worked unless they are kept.
fn count_piece<R: Threads + Sync>(
    rt: &R,
    alloc: Global,
    held: &mut Held,
    options: &Options,
) -> Result<Vec<u8>, AllocError>
    requires held { (s : Set) × IsHeld options.now.text s held.old }
    ensures piece { IfOk result (λ v. (s : Set) → IsHeld options.now.text s held.old → IsWrittenOf s count_line v.items) }
    ensures held { OnOk result ((s : Set) → IsHeld options.now.text s held.old → IsHeld options.now.text s held.new) }
{
    let parts = held.take_parts(rt, alloc, options)?;
    let line = count_line(alloc, &held.complex, &parts)?;
    held.parts = Some(parts);
    Ok(line)
}

// The set's text under its name, which is worked unless it is kept.
fn print_piece<R: Threads + Sync>(
    rt: &R,
    alloc: Global,
    held: &mut Held,
    name: &Name,
    options: &Options,
) -> Result<Vec<u8>, AllocError>
    requires held { (s : Set) × IsHeld options.now.text s held.old }
    ensures piece { IfOk result (λ v. (s : Set) → IsHeld options.now.text s held.old → IsWrittenOf s (printed options.now.text name.now) v.items) }
    ensures held { OnOk result ((s : Set) → IsHeld options.now.text s held.old → IsHeld options.now.text s held.new) }
{
    let text = held.take_text(rt, alloc, options)?;
    let piece = framed_text(alloc, name, &text)?;
    held.text = Some(text);
    Ok(piece)
}

// What is written of a command that asks about one set, and nothing of another one. Parts and text of the set are kept when
// they are worked.
fn single_piece<R: Threads + Sync>(
    rt: &R,
    alloc: Global,
    held: &mut Held,
    command: &Command,
    options: &Options,
) -> Result<Piece, AllocError>
    requires within { (count : ℕ) × SpeaksOfFirst count command.now }
    requires held { (s : Set) × IsHeld options.now.text s held.old }
    ensures piece { IfOk result (λ p. (nodes : List Expression) → IsAskedOf nodes command.now (λ s. IsHeld options.now.text s held.old) → second_asked command.now ≡ None → IsPiece options.now.text nodes command.now (piece_bytes p)) }
    ensures held { OnOk result ((s : Set) → IsHeld options.now.text s held.old → IsHeld options.now.text s held.new) }
{
    match command {
        Command::Has { point, .. } => Ok(Piece::Line(answer(label_at(&held.complex, point)))),
        Command::Joined { first, second, .. } => {
            let line = joined_piece(rt, alloc, held, first, second, options)?;
            Ok(Piece::Line(line))
        }
        Command::Ray { point, dir, .. } => {
            let text = ray_piece(alloc, &held.complex, point, dir)?;
            Ok(Piece::Text(text))
        }
        Command::Count { .. } => {
            let text = count_piece(rt, alloc, held, options)?;
            Ok(Piece::Text(text))
        }
        Command::Print { name, .. } => {
            let text = print_piece(rt, alloc, held, name, options)?;
            Ok(Piece::Text(text))
        }
        Command::Bind { .. } => Ok(Piece::Line(b"")),
        Command::Turn { .. } => Ok(Piece::Line(b"")),
        Command::Same { .. } => Ok(Piece::Line(b"")),
    }
}

// The line that says whether two values are one set, if both are kept.
fn same_piece(values: &[Value], first: usize, second: usize) -> Piece
    requires first { (s : Set) × IsShown s (complex_at values.now (Some first)) }
    requires second { (t : Set) × IsShown t (complex_at values.now (Some second)) }
    ensures piece { (s t : Set) → IsShown s (complex_at values.now (Some first)) → IsShown t (complex_at values.now (Some second)) → IsSameAnswer s t (piece_bytes result) }
{
    match complex_at(values, Some(first)).zip(complex_at(values, Some(second))) {
        Some((a, b)) => Piece::Line(same_answer(same(a, b))),
        None => Piece::Line(b""),
    }
}

/// What is written of the question about these values, with a text of the version that the options choose. Of a set that it
/// asks about, parts and text are kept when they are worked. `AllocError` says that memory was wanted and not found.
pub(crate) fn piece_of<R: Threads + Sync>(
    rt: &R,
    alloc: Global,
    values: &mut [Value],
    command: &Command,
    first: usize,
    second: Option<usize>,
    options: &Options,
) -> Result<Piece, AllocError>
    requires within { (count : ℕ) × SpeaksOfFirst count command.now }
    requires first { (s : Set) × IsHeldAt options.now.text s values.old first }
    requires second { IfSome second (λ j. (t : Set) × IsHeldAt options.now.text t values.old j) }
    ensures piece { IfOk result (λ p. (nodes : List Expression) → IsAskedOf nodes command.now (λ s. IsHeldAt options.now.text s values.old first) → IsAskedOfOther nodes command.now second (λ j s. IsHeldAt options.now.text s values.old j) → IsPiece options.now.text nodes command.now (piece_bytes p)) }
    ensures still { OnOk result (AreStill options.now.text values.old values.new) }
{
    if let Some(second) = second {
        return Ok(same_piece(values, first, second));
    }
    match taken_from(values, first) {
        Some(mut held) => {
            let piece = single_piece(rt, alloc, &mut held, command, options)?;
            put_at(values, first, Some(held));
            Ok(piece)
        }
        None => Ok(Piece::Line(b"")),
    }
}
