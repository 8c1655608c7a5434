//! Stars of planes through one axis: their combinations, and stars with needless rays left out.

ghost use Rattle.std.specs.Prelude.{◌≡◌};
ghost use Rattle.nef_geo.specs.Prelude.{pos, IfOk, IfSome, normal_limit, IsAtMost, IsNormal, dot, vector_of};
ghost use Rattle.nef_star.specs.Stars.{IsStar};

use crate::texts::{add_label, add_labels};
use crate::words::{check, label, normal, op, parted};
use nef_geo::{Dir, Label};
use nef_star::{OutOfMemory, Ray, Star, is_plain, is_straight, merge, simplify};
use std::alloc::Global;

// Planes through the axis (0, 0, 1) by their normals, with labels on the plane and on both sides; the operation on both
// stars, or the first star alone; and whether the result is simplified. The quarters' first ray goes right, the next
// up.
const ROWS: &str = "1 0 0, n i n / 0 1 0, n i n / and => sectors = i n n n
1 0 0, n i n / 0 1 0, n i n / and / simplified => sectors = i n
1 0 0, n i n / 0 1 0, n i n / diff => sectors = n n n i ; first ray = i
1 0 0, i i n / 1 0 0, i i n / alone => straight = true
1 0 0, i i n / 1 0 0, i i n / xor => straight = true
1 0 0, i i n / 1 0 0, i i n / xor / simplified => plain = true ; straight = false
1 0 0, i n n / 1 0 0, i n n / alone / simplified => rays = 2 ; plain = false";

// The star of a plane through the axis, with labels on the plane, above and below.
fn plane_star(
    alloc: Global,
    axis: Dir,
    normal: Dir,
    on: Label,
    above: Label,
    below: Label,
) -> Result<Star, OutOfMemory>
    requires axis_small { IsAtMost normal_limit (vector_of axis) }
    requires normal_small { IsAtMost normal_limit (vector_of normal) }
    requires level { dot (vector_of normal) (vector_of axis) ≡ pos 0 }
    requires normal { IsNormal (vector_of normal) }
    ensures star { IfOk result (λ t. IsStar t) }
    ensures axis { IfOk result (λ t. t.axis ≡ axis) }
{
    let mut rays = Vec::new(alloc);
    rays.push(Ray::of(normal, true, on))?;
    rays.push(Ray::of(normal, false, on))?;
    let mut sectors = Vec::new(alloc);
    sectors.push(above)?;
    sectors.push(below)?;
    Ok(Star::of(axis, rays, sectors, on))
}

fn labelled_star(alloc: Global, axis: Dir, normal: Dir, labels: &str) -> Option<Star>
    requires axis_small { IsAtMost normal_limit (vector_of axis) }
    requires normal_small { IsAtMost normal_limit (vector_of normal) }
    ensures star { IfSome result (λ t. IsStar t) }
    ensures axis { IfSome result (λ t. t.axis ≡ axis) }
{
    let (on, sides) = parted(labels, " ");
    let (pos, neg) = parted(sides, " ");
    let (on, pos, neg) = (label(on)?, label(pos)?, label(neg)?);
    if normal.is_normal() && normal.is_perpendicular(&axis) {
        plane_star(alloc, axis, normal, on, pos, neg).ok()
    } else {
        None
    }
}

// The star about the axis of the plane and the labels in the words.
fn star_of(alloc: Global, axis: Dir, plane: &str) -> Option<Star>
    requires axis_small { IsAtMost normal_limit (vector_of axis) }
    ensures star { IfSome result (λ t. IsStar t) }
    ensures axis { IfSome result (λ t. t.axis ≡ axis) }
{
    let (words, labels) = parted(plane, ", ");
    labelled_star(alloc, axis, normal(words)?, labels)
}

// The operation on the star and the star of a plane.
fn merged(alloc: Global, axis: Dir, star: Star, plane: &str, how: &str) -> Option<Star>
    requires axis_small { IsAtMost normal_limit (vector_of axis) }
    requires star { IsStar star }
    requires axis { star.axis ≡ axis }
    ensures star { IfSome result (λ t. IsStar t) }
{
    let op = op(how)?;
    let second = star_of(alloc, axis, plane)?;
    merge(star, &second, op).ok()
}

// The operation on both stars, or the first star alone.
fn combined(alloc: Global, first: &str, second: &str, how: &str) -> Option<Star>
    ensures star { IfSome result (λ t. IsStar t) }
{
    let axis = normal("0 0 1")?;
    let star = star_of(alloc, axis, first)?;
    if how == "alone" {
        Some(star)
    } else {
        merged(alloc, axis, star, second, how)
    }
}

fn made(alloc: Global, words: &str) -> Option<Star>
    ensures star { IfSome result (λ t. IsStar t) }
{
    let (first, rest) = parted(words, " / ");
    let (second, rest) = parted(rest, " / ");
    let (how, last) = parted(rest, " / ");
    let mut star = combined(alloc, first, second, how)?;
    if last == "simplified" {
        simplify(&mut star);
    }
    Some(star)
}

fn add_first_ray(text: &mut String, star: &Star) -> Option<()> {
    add_label(text, star.rays.as_slice().first()?.mark).ok()
}

// Adds the answer to a question about the star.
fn add_answer(text: &mut String, star: &Star, question: &str) -> Option<()>
    requires star { IsStar star.now }
{
    match question {
        "sectors" => add_labels(text, star.sectors.as_slice()).ok(),
        "rays" => write!(text, "{}", star.rays.len()).ok(),
        "first ray" => add_first_ray(text, star),
        "straight" => write!(text, "{}", is_straight(star)).ok(),
        "plain" => write!(text, "{}", is_plain(star)).ok(),
        _ => None,
    }
}

// Whether the part's question has the part's answer.
fn fits(alloc: Global, star: &Star, part: &str) -> Option<bool>
    requires star { IsStar star.now }
{
    let (question, wanted) = part.split_once(" = ")?;
    let mut text = String::new(alloc);
    add_answer(&mut text, star, question)?;
    Some(text.as_str().trim_start() == wanted)
}

fn all_fit(alloc: Global, star: &Star, answers: &str) -> bool
    requires star { IsStar star.now }
{
    for part in answers.split(" ; ") {
        if fits(alloc, star, part) != Some(true) {
            return false;
        }
    }
    true
}

fn holds(alloc: Global, row: &str) -> bool {
    let (words, answers) = parted(row, " => ");
    match made(alloc, words) {
        Some(star) => all_fit(alloc, &star, answers),
        None => false,
    }
}

#[test]
fn stars(rt: HostRuntime) {
    for row in ROWS.split('\n') {
        check(&rt, holds(rt.alloc(), row), row);
    }
}
