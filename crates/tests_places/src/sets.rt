//! Sets that are made by steps in words, as complexes.
//!
//! Between two steps stands `; `. A step is a part, which begins the set; an operation and a part, as `diff 1 0 0 0`,
//! which combines the set with the part; or an operation on the set: `not`, `int`, `cl`, `bd` or `reg`. A part is
//! `empty` or `full`, made as a constant; `frame not` or `frame in`, made as a frame; or the intersection of halves,
//! with `, ` between: where the form of four numbers is at most zero, or negative with `open` before the first half.

ghost use Rattle.nef_complex.specs.Prelude.{IfSome, Set, ShowsSet};

use crate::words::{oriented, parted};
use nef_complex::Complex;
use nef_core::{BoardKind, How};
use nef_geo::Label;
use nef_io::OpenGate;
use nef_ops::{UnaryOp, binary, constant, half, unary};
use nef_result::frame;
use nef_star::Op;
use std::alloc::Global;
use std::sync::Wait;
use std::thread::Threads;

fn constant_of(alloc: Global, full: bool) -> Option<Complex>
    ensures shows { IfSome result (λ c. (s : Set) × ShowsSet s c) }
{
    constant(alloc, full).ok()
}

fn empty_frame(alloc: Global) -> Option<Complex>
    ensures shows { IfSome result (λ c. (s : Set) × ShowsSet s c) }
{
    frame(alloc, Label::Not).ok()
}

fn whole_frame(alloc: Global) -> Option<Complex>
    ensures shows { IfSome result (λ c. (s : Set) × ShowsSet s c) }
{
    frame(alloc, Label::In).ok()
}

fn op(word: &str) -> Option<Op> {
    match word {
        "and" => Some(Op::And),
        "or" => Some(Op::Or),
        "diff" => Some(Op::Diff),
        _ => None,
    }
}

fn unary_op(word: &str) -> Option<UnaryOp> {
    match word {
        "not" => Some(UnaryOp::Not),
        "int" => Some(UnaryOp::Int),
        "cl" => Some(UnaryOp::Cl),
        "bd" => Some(UnaryOp::Bd),
        "reg" => Some(UnaryOp::Reg),
        _ => None,
    }
}

/// The means to make sets: threads, memory, the number of workers, and the board that hands out the jobs.
#[derive(Drop)]
pub(crate) struct Maker<'a, R> {
    pub(crate) rt: &'a R,
    pub(crate) alloc: Global,
    how: How,
}

impl<'a, R: Threads + Wait + Sync> Maker<'a, R> {
    /// A maker with one worker over the board with a lock, or with two workers over the free board.
    pub(crate) fn new(rt: &'a R, alloc: Global, board: BoardKind) -> Maker<'a, R> {
        let workers = if board == BoardKind::Lock { 1 } else { 2 };
        let how = How { workers, board };
        Maker { rt, alloc, how }
    }

    fn half_of(&self, words: &str, closed: bool) -> Option<Complex>
        ensures shows { IfSome result (λ c. (s : Set) × ShowsSet s c) }
    {
        let oriented = oriented(words)?;
        half(self.rt, self.alloc, &oriented, closed, &self.how, &OpenGate).ok()
    }

    pub(crate) fn combined(&self, op: Op, a: &Complex, b: &Complex) -> Option<Complex>
        requires first { (s : Set) × ShowsSet s a.now }
        requires second { (s : Set) × ShowsSet s b.now }
        ensures shows { IfSome result (λ c. (s : Set) × ShowsSet s c) }
    {
        binary(self.rt, self.alloc, op, a, b, &self.how, &OpenGate).ok()
    }

    // The operation on the set and another set, if this could be made.
    fn with(&self, op: Op, c: &Complex, made: Option<Complex>) -> Option<Complex>
        requires shows { (s : Set) × ShowsSet s c.now }
        requires made { IfSome made (λ d. (s : Set) × ShowsSet s d) }
        ensures shows { IfSome result (λ d. (s : Set) × ShowsSet s d) }
    {
        let other = made?;
        self.combined(op, c, &other)
    }

    fn changed(&self, op: UnaryOp, a: &Complex) -> Option<Complex>
        requires shows { (s : Set) × ShowsSet s a.now }
        ensures shows { IfSome result (λ c. (s : Set) × ShowsSet s c) }
    {
        unary(self.rt, self.alloc, op, a, &self.how, &OpenGate).ok()
    }

    // The set's intersection with the half. The set is let go here, so that a loop over halves owns no set where it
    // returns early.
    fn cut(&self, c: Complex, half: &str, closed: bool) -> Option<Complex>
        requires shows { (s : Set) × ShowsSet s c }
        ensures shows { IfSome result (λ d. (s : Set) × ShowsSet s d) }
    {
        self.with(Op::And, &c, self.half_of(half, closed))
    }

    fn intersection(&self, halves: &str, closed: bool) -> Option<Complex>
        ensures shows { IfSome result (λ c. (s : Set) × ShowsSet s c) }
    {
        let mut complex = constant_of(self.alloc, true)?;
        for half in halves.split(", ") {
            complex = self.cut(complex, half, closed)?;
        }
        Some(complex)
    }

    fn part(&self, words: &str) -> Option<Complex>
        ensures shows { IfSome result (λ c. (s : Set) × ShowsSet s c) }
    {
        match words {
            "empty" => constant_of(self.alloc, false),
            "full" => constant_of(self.alloc, true),
            "frame not" => empty_frame(self.alloc),
            "frame in" => whole_frame(self.alloc),
            _ => self.of_halves(words),
        }
    }

    fn of_halves(&self, words: &str) -> Option<Complex>
        ensures shows { IfSome result (λ c. (s : Set) × ShowsSet s c) }
    {
        match words.strip_prefix("open ") {
            Some(halves) => self.intersection(halves, false),
            None => self.intersection(words, true),
        }
    }

    fn after(&self, c: &Complex, step: &str) -> Option<Complex>
        requires shows { (s : Set) × ShowsSet s c.now }
        ensures shows { IfSome result (λ d. (s : Set) × ShowsSet s d) }
    {
        if let Some(op) = unary_op(step) {
            return self.changed(op, c);
        }
        let (word, words) = parted(step, " ");
        match op(word) {
            Some(op) => self.with(op, c, self.part(words)),
            None => self.part(step),
        }
    }

    // The set after a step from a set that is let go, so that a loop over steps owns no set where it returns early.
    fn stepped(&self, c: Complex, step: &str) -> Option<Complex>
        requires shows { (s : Set) × ShowsSet s c }
        ensures shows { IfSome result (λ d. (s : Set) × ShowsSet s d) }
    {
        self.after(&c, step)
    }

    /// The set that the steps make in order.
    pub(crate) fn made(&self, steps: &str) -> Option<Complex>
        ensures shows { IfSome result (λ c. (s : Set) × ShowsSet s c) }
    {
        let mut complex = constant_of(self.alloc, false)?;
        for step in steps.split("; ") {
            complex = self.stepped(complex, step)?;
        }
        Some(complex)
    }
}
