//! The bracket, made of half-spaces.

ghost use Rattle.std.specs.Prelude.{◌≡◌};
ghost use Rattle.nef_complex.specs.Prelude.{IfOk, IsTrue, Set, ShowsSet, given_form};
ghost use Rattle.nef_stopo.specs.Sets.{op_set};
ghost use Rattle.example_bracket.specs.Bracket.{are_rows, is_row, row_form, cut_set, common_set, leg, bracket};

use nef_complex::{Complex, OutOfMemory};
use nef_core::How;
use nef_geo::Oriented;
use nef_io::OpenGate;
use nef_ops::{binary, constant, half};
use nef_star::Op;
use nef_turn::turn_complex;
use std::alloc::Global;
use std::sync::Wait;
use std::thread::Threads;

// The numbers a, b, c and d of a half-space, where a x + b y + c z + d is at most zero, or negative in an open one.
type FormNumbers = (i64, i64, i64, i64);

// The half-spaces of the plate, which is 8 long, 4 wide and 1 thick.
const PLATE: [FormNumbers; 6] = [
    (-1, 0, 0, 0),
    (1, 0, 0, -8),
    (0, -1, 0, 0),
    (0, 1, 0, -4),
    (0, 0, -1, 0),
    (0, 0, 1, -1),
];

// The half-spaces of the hole, which runs along z, without its walls.
const HOLE: [FormNumbers; 4] = [(-1, 0, 0, 4), (1, 0, 0, -6), (0, -1, 0, 1), (0, 1, 0, -3)];

// The number of the turn that exchanges x and z.
const UPRIGHT: usize = 40;

// The plane of the row, with the side where the row's form is negative.
fn oriented(row: &FormNumbers) -> Oriented
    requires row { IsTrue (is_row row.now) }
    ensures form { given_form result ≡ row_form row.now }
{
    let (a, b, c, d) = *row;
    Oriented::of(a, b, c, d)
}

/// The means to make sets: threads, memory, and how an operation's work is shared.
#[derive(Drop)]
pub struct Maker<'a, R> {
    pub rt: &'a R,
    pub alloc: Global,
    pub how: How,
}

impl<'a, R: Threads + Wait + Sync> Maker<'a, R> {
    fn combined(&self, op: Op, a: &Complex, b: &Complex) -> Result<Complex, OutOfMemory>
        requires first { (s : Set) × ShowsSet s a.now }
        requires second { (t : Set) × ShowsSet t b.now }
        ensures shows { IfOk result (λ c. (s t : Set) → ShowsSet s a.now → ShowsSet t b.now → ShowsSet (op_set op s t) c) }
    {
        binary(self.rt, self.alloc, op, a, b, &self.how, &OpenGate)
    }

    // What the body has in common with the half-space of the row. The body is let go.
    fn cut(&self, body: Complex, row: &FormNumbers, closed: bool) -> Result<Complex, OutOfMemory>
        requires body { (s : Set) × ShowsSet s body }
        requires row { IsTrue (is_row row.now) }
        ensures shows { IfOk result (λ c. (s : Set) → ShowsSet s body → ShowsSet (cut_set s closed row.now) c) }
    {
        let (rt, alloc, how) = (self.rt, self.alloc, &self.how);
        let side = half(rt, alloc, &oriented(row), closed, how, &OpenGate)?;
        self.combined(Op::And, &body, &side)
    }

    // The intersection of the half-spaces of all rows.
    fn common(&self, rows: &[FormNumbers], closed: bool) -> Result<Complex, OutOfMemory>
        requires rows { IsTrue (are_rows rows.now) }
        ensures shows { IfOk result (ShowsSet (common_set Set.full closed rows.now)) }
    {
        let mut body = constant(self.alloc, true)?;
        for row in rows {
            body = self.cut(body, row, closed)?;
        }
        Ok(body)
    }

    // The plate without the hole.
    fn leg(&self) -> Result<Complex, OutOfMemory>
        ensures shows { IfOk result (ShowsSet leg) }
    {
        let plate = self.common(&PLATE, true)?;
        let hole = self.common(&HOLE, false)?;
        self.combined(Op::Diff, &plate, &hole)
    }

    /// The bracket: a leg that lies flat, and one that stands, which is the first with x and z swapped.
    pub fn bracket(&self) -> Result<Complex, OutOfMemory>
        ensures shows { IfOk result (ShowsSet bracket) }
    {
        let flat = self.leg()?;
        let upright = turn_complex(self.alloc, &flat, UPRIGHT)?;
        self.combined(Op::Or, &flat, &upright)
    }
}
