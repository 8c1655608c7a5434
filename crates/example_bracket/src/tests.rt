//! Answers about the bracket that follow by hand.
//!
//! The frame has 8 vertices, 12 edges, 6 facets and 2 volumes, its outside and its inside. The bracket without holes is
//! a prism over an L with 6 corners, which adds 12 vertices, 18 edges, 8 facets and a volume. Each hole adds 8
//! vertices, 12 edges and 4 walls, and a cycle to each of the two facets through which the hole leads.

ghost use Rattle.std.specs.Prelude.{◌≤◌};
ghost use Rattle.nef_complex.specs.Prelude.{IfOk, IfSome, InFrame, IsAtMost, IsPointAtMost, IsTrue, Set, ShowsSet, nat_abs, point_of, ray_direction_limit, ray_point_limit, ray_weight_limit, vector_of};

use crate::asked::{are_joined, is_clear, is_in_bracket, is_inside, is_solid};
use crate::made::Maker;
use crate::read::{count_parts, edge_ends, facets_with_holes, volumes_inside};
use nef_complex::{Complex, OutOfMemory};
use nef_core::{BoardKind, How};
use nef_geo::{Dir, Point};
use nef_volumes::parts;
use std::alloc::Global;
use std::process::Abort;
use std::sync::Wait;
use std::thread::Threads;

// Questions with their answers. A point is four numbers x, y, z and w, and stands for (x/w, y/w, z/w).
//
// - `counts`: the numbers of vertices, edges, facets and volumes; `holes`: of facets with a hole; `volumes`: of volumes
// that belong to the bracket; `solid`: whether the bracket is the closure of its interior.
// - `edge NUMBER`: the points at the ends of the edge.
// - `inside POINT`, and `has POINT` of a bracket that is made for this question: whether the point is in the bracket.
// - `clear POINT x y z`: whether the label doesn't change along the ray from the point within the frame.
// - `joined POINT POINT`: whether both points lie in one vertex, edge, facet or volume.
const ROWS: &str = "\
counts => 36 54 22 3 # 8 + 12 + 2 * 8, 12 + 18 + 2 * 12, 6 + 8 + 2 * 4 and 2 + 1
holes => 4 # below and above one leg, before and behind the other
volumes => 1 # both legs are one piece
solid => true # its border belongs to it, and nothing sticks out
edge 0 => -2048 -2048 -2048 1 -2048 -2048 2048 1 # of the frame, from its first vertex up
edge 8 => 0 0 0 1 0 0 8 1 # behind 8 edges from vertices of the frame, up along both legs
edge 10 => 0 0 0 1 8 0 0 1 # behind those along z and y
inside 4 2 1 2 => true # within the leg that lies, as (2, 1, 1/2)
has 4 2 1 2 => true # the same
inside 5 2 0 1 => false # in its hole
has 5 2 0 1 => false # the same
inside 4 2 0 1 => true # on a wall of the hole
inside 1 4 10 2 => false # in the hole of the leg that stands, as (1/2, 2, 5)
inside 1 4 6 2 => true # below this hole
inside 8 4 1 1 => true # a corner
inside 9 4 1 1 => false # beyond it
inside 2 2 2 1 => false # between the legs
inside 0 0 8 1 => true # the top
inside 0 0 17 2 => false # above it
clear 5 2 9 1 0 0 -1 => true # down through a hole
clear 3 2 9 1 0 0 -1 => false # down onto the leg that lies
clear 9 2 5 1 -1 0 0 => true # through the other hole
clear 9 4 1 2 -1 0 0 => false # into the end of the leg that lies
clear 4 2 2 1 0 1 0 => true # out sideways from between the legs
joined 1 1 15 2 15 1 1 2 => true # within one leg and within the other
joined 5 2 0 1 5 2 9 1 => true # in a hole and above it
joined 5 2 0 1 1 1 1 2 => false # in a hole and within a leg
joined 2 2 0 1 7 2 0 1 => true # below the leg that lies, on two sides of its hole
joined 2 2 0 1 2 2 1 1 => false # below it and above
joined 8 4 1 2 12 4 1 2 => false # on walls of a hole that face each other
joined 2 0 0 1 7 0 0 1 => true # on an edge
joined 0 0 0 1 2 0 0 1 => false # at its end and on it";

// The greatest size of a number of a point or of a direction.
const GREATEST: u64 = 1 << 10;

fn is_small(number: i64) -> bool
    ensures small { IsTrue result → nat_abs number ≤ 1024 }
{
    number.unsigned_abs() <= GREATEST
}

fn is_small_point(p: &Point) -> bool
    ensures small { IsTrue result → IsPointAtMost ray_point_limit ray_weight_limit (point_of p.now) }
{
    is_small(p.x()) && is_small(p.y()) && is_small(p.z()) && is_small(p.w())
}

fn is_small_direction(d: &Dir) -> bool
    ensures small { IsTrue result → IsAtMost ray_direction_limit (vector_of d.now) }
{
    is_small(d.x()) && is_small(d.y()) && is_small(d.z())
}

// Four of the numbers between the blanks, from number `first` on, with 0 for each absent number.
fn numbers(words: &str, first: usize) -> Option<[i64; 4]> {
    let mut numbers = [0; 4];
    for (place, word) in words.split(' ').skip(first).enumerate() {
        if place < 4 {
            numbers[place] = word.parse().ok()?;
        }
    }
    Some(numbers)
}

// The point of the four numbers from number `first` on, if the point lies in the frame.
fn point(words: &str, first: usize) -> Option<Point>
    ensures framed { IfSome result (λ p. InFrame (point_of p)) }
{
    let [x, y, z, w] = numbers(words, first)?;
    if !is_small(x) || !is_small(y) || !is_small(z) || !is_small(w) || w < 1 {
        return None;
    }
    let p = Point::of(x, y, z, w);
    if p.in_frame() { Some(p) } else { None }
}

// The direction of the three numbers from number `first` on, if they are small.
fn direction(words: &str, first: usize) -> Option<Dir> {
    let [x, y, z, _] = numbers(words, first)?;
    if !is_small(x) || !is_small(y) || !is_small(z) {
        return None;
    }
    Dir::of(x, y, z)
}

fn add_counts(alloc: Global, text: &mut String, c: &Complex) -> Result<(), OutOfMemory>
    requires shows { (s : Set) × ShowsSet s c.now }
{
    let all = parts(alloc, c)?;
    let n = count_parts(c, &all);
    write!(
        text,
        "{} {} {} {}",
        n.vertices, n.edges, n.facets, n.volumes
    )
}

fn add_holes(alloc: Global, text: &mut String, c: &Complex) -> Result<(), OutOfMemory>
    requires shows { (s : Set) × ShowsSet s c.now }
{
    let all = parts(alloc, c)?;
    write!(text, "{}", facets_with_holes(&all))
}

fn add_volumes(alloc: Global, text: &mut String, c: &Complex) -> Result<(), OutOfMemory>
    requires shows { (s : Set) × ShowsSet s c.now }
{
    let all = parts(alloc, c)?;
    write!(text, "{}", volumes_inside(&all))
}

fn add_point(text: &mut String, p: &Point) -> Result<(), OutOfMemory> {
    write!(text, "{} {} {} {}", p.x(), p.y(), p.z(), p.w())
}

fn add_edge(text: &mut String, c: &Complex, words: &str) -> Option<()>
    requires shows { (s : Set) × ShowsSet s c.now }
{
    let number = words.parse().ok()?;
    if number >= c.edges.len() {
        return None;
    }
    let (low, high) = edge_ends(c, number);
    add_point(text, &low).ok()?;
    text.push_str(" ").ok()?;
    add_point(text, &high).ok()
}

fn add_truth(text: &mut String, holds: bool) -> Option<()> {
    text.push_str(if holds { "true" } else { "false" }).ok()
}

fn is_clear_along(alloc: Global, c: &Complex, p: &Point, d: &Dir) -> Option<bool>
    requires shows { (s : Set) × ShowsSet s c.now }
    requires framed { InFrame (point_of p.now) }
{
    if is_small_point(p) && is_small_direction(d) {
        is_clear(alloc, c, p, d).ok()
    } else {
        None
    }
}

// Whether the answer to a question about points is yes.
fn is_so<R: Threads + Wait + Sync>(
    maker: &Maker<'_, R>,
    c: &Complex,
    verb: &str,
    words: &str,
) -> Option<bool>
    requires shows { (s : Set) × ShowsSet s c.now }
{
    let p = point(words, 0)?;
    match verb {
        "inside" => Some(is_inside(c, &p)),
        "has" => is_in_bracket(maker, &p).ok(),
        "clear" => is_clear_along(maker.alloc, c, &p, &direction(words, 4)?),
        "joined" => are_joined(maker.alloc, c, &p, &point(words, 4)?).ok(),
        _ => None,
    }
}

fn add_answer<R: Threads + Wait + Sync>(
    maker: &Maker<'_, R>,
    text: &mut String,
    c: &Complex,
    verb: &str,
    words: &str,
) -> Option<()>
    requires shows { (s : Set) × ShowsSet s c.now }
{
    match verb {
        "counts" => add_counts(maker.alloc, text, c).ok(),
        "holes" => add_holes(maker.alloc, text, c).ok(),
        "volumes" => add_volumes(maker.alloc, text, c).ok(),
        "solid" => add_truth(text, is_solid(maker, c).ok()?),
        "edge" => add_edge(text, c, words),
        _ => add_truth(text, is_so(maker, c, verb, words)?),
    }
}

// Whether the row's question has the row's answer.
fn is_answered<R: Threads + Wait + Sync>(
    maker: &Maker<'_, R>,
    c: &Complex,
    row: &str,
) -> Option<bool>
    requires shows { (s : Set) × ShowsSet s c.now }
{
    let (question, wanted) = row.split_once(" # ")?.0.split_once(" => ")?;
    let (verb, words) = question.split_once(" ").unwrap_or((question, ""));
    let mut text = String::new(maker.alloc);
    add_answer(maker, &mut text, c, verb, words)?;
    Some(text.as_str() == wanted)
}

fn holds<R: Threads + Wait + Sync>(
    maker: &Maker<'_, R>,
    made: &Result<Complex, OutOfMemory>,
    row: &str,
) -> bool
    requires shows { IfOk made.now (λ c. (s : Set) × ShowsSet s c) }
{
    match made {
        Ok(c) => is_answered(maker, c, row) == Some(true),
        Err(_) => false,
    }
}

fn check(rt: &impl Abort, holds: bool, row: &str) {
    assert!(rt; holds, "{row}");
}

fn check_rows<R: Threads + Wait + Abort + Sync>(
    maker: &Maker<'_, R>,
    made: &Result<Complex, OutOfMemory>,
)
    requires shows { IfOk made.now (λ c. (s : Set) × ShowsSet s c) }
{
    for row in ROWS.lines() {
        check(maker.rt, holds(maker, made, row), row);
    }
}

#[test]
fn the_bracket(rt: HostRuntime) {
    let how = How {
        workers: 2,
        board: BoardKind::Free,
    };
    let maker = Maker {
        rt: &rt,
        alloc: rt.alloc(),
        how,
    };
    check_rows(&maker, &maker.bracket());
}
