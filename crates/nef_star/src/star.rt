//! Rays, stars, and the boolean operations on labels.

ghost use Rattle.std.specs.Prelude.{◌≡◌, ◌↔◌};
ghost use Rattle.nef_star.specs.Prelude.{IsTrue, vector_of, label_number, IsPlain, IsStraight, star_of, left_of, AreStraight, IsStar, EachHasOneLabel, op_label};

use nef_case::{op_and, op_diff, op_or, op_xor};
use nef_geo::{Dir, Label};

/// A ray leaves the axis of a star along `normal x axis` where it goes ahead, and the opposite way otherwise. The
/// normal is perpendicular to the axis. `mark` is the label on the ray.
#[derive(Clone, Copy)]
pub struct Ray {
    pub normal: Dir,
    pub ahead: bool,
    pub mark: Label,
}

impl Ray {
    pub fn of(normal: Dir, ahead: bool, mark: Label) -> Ray
        ensures normal { result.normal ≡ normal }
        ensures ahead { result.ahead ≡ ahead }
        ensures mark { result.mark ≡ mark }
    {
        Ray {
            normal,
            ahead,
            mark,
        }
    }

    /// The direction to the left of the ray, seen from outside the sphere.
    pub(crate) fn left(&self) -> Dir
        ensures left { vector_of result ≡ left_of self.now }
    {
        if self.ahead {
            self.normal
        } else {
            self.normal.back()
        }
    }
}

/// The neighbourhood of the direction `axis` on the sphere. The rays stand in counterclockwise order, seen from
/// outside, from the least ray on: by normals, and with a ray that goes ahead before its opposite. Sector i lies after
/// ray i, counterclockwise; a star without rays has one sector. `mark` is the label on the axis.
#[derive(Drop)]
pub struct Star {
    pub axis: Dir,
    pub rays: Vec<Ray>,
    pub sectors: Vec<Label>,
    pub mark: Label,
}

impl Star {
    /// The star with these rays, the sectors after them, and the label `mark` on the axis. The rays are to be
    /// perpendicular to the axis, in counterclockwise order from the least ray on, with a sector each.
    pub fn of(axis: Dir, rays: Vec<Ray>, sectors: Vec<Label>, mark: Label) -> Star
        ensures axis { result.axis ≡ axis }
        ensures rays { result.rays.items ≡ rays.items }
        ensures sectors { result.sectors.items ≡ sectors.items }
        ensures mark { result.mark ≡ mark }
        ensures star { IsStar (record { axis = axis; rays = rays; sectors = sectors; mark = mark }) → IsStar result }
    {
        Star {
            axis,
            rays,
            sectors,
            mark,
        }
    }
}

/// Whether the star has no ray, and one label on its axis and in its sector.
pub fn is_plain(star: &Star) -> bool
    requires star { IsStar star.now }
    ensures plain { IsTrue result ↔ IsPlain (star_of star.now) }
{
    star.rays.is_empty() && star.sectors[0] == star.mark
}

// Whether the two rays have one normal, and both have this mark.
fn are_straight(first: &Ray, second: &Ray, mark: Label) -> bool
    ensures both { IsTrue result ↔ AreStraight first.now second.now mark }
{
    if !first.normal.is_same(&second.normal) {
        return false;
    }
    first.mark == mark && second.mark == mark
}

/// Whether the star has exactly two rays, which are opposite, both with its mark: the one ahead stands first.
pub fn is_straight(star: &Star) -> bool
    requires star { IsStar star.now }
    ensures straight { IsTrue result ↔ IsStraight (star_of star.now) }
{
    if star.rays.len() != 2 {
        return false;
    }
    are_straight(&star.rays[0], &star.rays[1], star.mark)
}

/// A star gives each direction that isn't parallel to its axis exactly one label.
pub fn star_laws()
    ensures one_label { EachHasOneLabel }
{}

/// A boolean operation on two sets: CGAL manual, "3D Boolean Operations on Nef Polyhedra".
#[derive(Clone, Copy)]
pub enum Op {
    And,
    Or,
    /// The first set without the second.
    Diff,
    /// Where exactly one of the two sets holds.
    Xor,
}

// The label with this number, from -1 to 1.
fn label_of(number: i8) -> Label
    ensures label { (l : Label) → number ≡ label_number l → result ≡ l }
{
    match number {
        0 => Label::Not,
        1 => Label::In,
        _ => Label::Out,
    }
}

impl Op {
    /// The label of the combination, from the labels of both sets: `Out` where one of them is `Out`; otherwise `In`
    /// exactly where the combination holds.
    pub fn label(self, a: Label, b: Label) -> Label
        ensures label { result ≡ op_label self a b }
    {
        let key = [a.number(), b.number()];
        match self {
            Op::And => label_of(op_and(&key)),
            Op::Or => label_of(op_or(&key)),
            Op::Diff => label_of(op_diff(&key)),
            Op::Xor => label_of(op_xor(&key)),
        }
    }
}
