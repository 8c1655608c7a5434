//! Questions about a set, asked of a complex that shows the set.

ghost use Rattle.std.specs.Prelude.{◌↔◌};
ghost use Rattle.nef_complex.specs.Prelude.{IfOk, InFrame, IsAtMost, IsPointAtMost, IsTrue, Joined, SameSet, Set, ShowsSet, point_of, ray_direction_limit, ray_point_limit, ray_weight_limit, vector_of};
ghost use Rattle.nef_space.specs.Sets.{Holds};
ghost use Rattle.example_bracket.specs.Bracket.{IsInBracket};
ghost use Rattle.example_bracket.specs.Answers.{IsRayClear};

use crate::made::Maker;
use nef_complex::{Complex, OutOfMemory};
use nef_geo::{Dir, Label, Point};
use nef_io::OpenGate;
use nef_locate::{locate, place_label};
use nef_ops::{UnaryOp, same, unary};
use nef_ray::ray_end;
use nef_volumes::{joined, parts};
use std::alloc::Global;
use std::sync::Wait;
use std::thread::Threads;

/// Whether the set holds at the point, which lies in the frame.
pub fn is_inside(c: &Complex, p: &Point) -> bool
    requires shows { (s : Set) × ShowsSet s c.now }
    requires framed { InFrame (point_of p.now) }
    ensures inside { (s : Set) → ShowsSet s c.now → IsTrue result ↔ Holds s (point_of p.now) }
{
    let place = locate(c, p);
    place_label(c, &place) == Label::In
}

/// Whether the point, one of the frame, is in the bracket. `OutOfMemory` says that memory was wanted and not found.
pub fn is_in_bracket<R: Threads + Wait + Sync>(
    maker: &Maker<'_, R>,
    p: &Point,
) -> Result<bool, OutOfMemory>
    requires framed { InFrame (point_of p.now) }
    ensures inside { IfOk result (λ b. IsTrue b ↔ IsInBracket (point_of p.now)) }
{
    let bracket = maker.bracket()?;
    Ok(is_inside(&bracket, p))
}

/// Whether the label along the ray from the point, which lies in the frame, doesn't change within the frame.
pub fn is_clear(alloc: Global, c: &Complex, p: &Point, d: &Dir) -> Result<bool, OutOfMemory>
    requires shows { (s : Set) × ShowsSet s c.now }
    requires framed { InFrame (point_of p.now) }
    requires p_small { IsPointAtMost ray_point_limit ray_weight_limit (point_of p.now) }
    requires d_small { IsAtMost ray_direction_limit (vector_of d.now) }
    ensures clear { IfOk result (λ b. (s : Set) → ShowsSet s c.now → IsTrue b ↔ IsRayClear s (point_of p.now) (vector_of d.now)) }
{
    let end = ray_end(alloc, c, p, d)?;
    Ok(end.label == Label::Out)
}

/// Whether the set is the closure of its interior, without walls and wires of no thickness and without open borders.
pub fn is_solid<R: Threads + Wait + Sync>(
    maker: &Maker<'_, R>,
    c: &Complex,
) -> Result<bool, OutOfMemory>
    requires shows { (s : Set) × ShowsSet s c.now }
    ensures solid { IfOk result (λ b. (s : Set) → ShowsSet s c.now → IsTrue b ↔ SameSet s (Set.regular s)) }
{
    let (rt, alloc, how) = (maker.rt, maker.alloc, &maker.how);
    let regular = unary(rt, alloc, UnaryOp::Reg, c, how, &OpenGate)?;
    Ok(same(c, &regular))
}

/// Whether both points, which lie in the frame, lie in one vertex, edge, facet or volume.
pub fn are_joined(alloc: Global, c: &Complex, p: &Point, q: &Point) -> Result<bool, OutOfMemory>
    requires shows { (s : Set) × ShowsSet s c.now }
    requires first { InFrame (point_of p.now) }
    requires second { InFrame (point_of q.now) }
    ensures joined { IfOk result (λ b. (s : Set) → ShowsSet s c.now → IsTrue b ↔ Joined s (point_of p.now) (point_of q.now)) }
{
    let all = parts(alloc, c)?;
    Ok(joined(c, &all, p, q))
}
