//! All jobs of an operation, worked over the chosen board, and the complex that their results make.

ghost use Rattle.std.specs.Prelude.{◌≡◌, ◌≤◌};
ghost use Rattle.nef_complex.specs.Prelude.{ℕ, [], true, false, length, IfOk, Some, slice_get, vec_len, Set, ShowsSet};
ghost use Rattle.nef_core.specs.Work.{crew_of};
ghost use Rattle.nef_ops.specs.Rights.{IsWorkedBy};

use crate::OutOfMemory;
use nef_board::LockBoard;
use nef_complex::Complex;
use nef_core::{BoardKind, How, Job, Work};
use nef_free::FreeBoard;
use nef_geo::{List, Plane, Point};
use nef_io::Gate;
use nef_pool::finish;
use nef_result::{Outcome, assemble_lent};
use std::alloc::Global;
use std::sync::Wait;
use std::thread::Threads;

// How many workers share the jobs: as many as the jobs pay for, or all where the gate may hold a job back.
fn crew(how: &How, work: Work, holds: bool) -> u32
    ensures few { result ≤ 64 }
    ensures all { holds ≡ true → result ≡ how.now.workers }
    ensures paid { holds ≡ false → result ≡ crew_of work how.now.workers }
{
    if holds {
        how.workers
    } else {
        work.crew(how.workers)
    }
}

// One right result for each job, in the order of the jobs, by `workers` workers over a board of this kind.
fn finished<R: Threads + Wait + Sync, J: Job, G: Gate + Sync>(
    rt: &R,
    alloc: Global,
    job: &J,
    board: BoardKind,
    workers: u32,
    gate: &G,
) -> Result<Vec<J::Out>, OutOfMemory>
    requires workable { J.workable job.now }
    requires workers { workers ≤ 64 }
    ensures len { IfOk result (λ v. vec_len v ≡ J.count job.now) }
    ensures right { IfOk result (λ v. (i : ℕ) (out : _) → slice_get v.items i ≡ Some out → J.right job.now i out) }
{
    let seats = workers + 1;
    match board {
        BoardKind::Lock => {
            let (board, pass) = LockBoard::new(rt, alloc, job, seats)?;
            finish(rt, alloc, board, pass, job, workers, gate)
        }
        BoardKind::Free => {
            let (board, pass) = FreeBoard::new(alloc, job, seats)?;
            finish(rt, alloc, board, pass, job, workers, gate)
        }
    }
}

/// One right result for each job, in the order of the jobs, by as many workers as the work pays for.
pub(crate) fn all_worked<R: Threads + Wait + Sync, J: Job, G: Gate + Sync>(
    rt: &R,
    alloc: Global,
    job: &J,
    work: Work,
    how: &How,
    gate: &G,
) -> Result<Vec<J::Out>, OutOfMemory>
    requires workable { J.workable job.now }
    ensures len { IfOk result (λ v. vec_len v ≡ J.count job.now) }
    ensures right { IfOk result (λ v. (i : ℕ) (out : _) → slice_get v.items i ≡ Some out → J.right job.now i out) }
{
    let workers = crew(how, work, gate.holds());
    finished(rt, alloc, job, how.board, workers, gate)
}

/// The complex of a set with these carriers. The points are the candidates, and each job gives the outcome at one
/// candidate. What the complex tells of vertices and edges is taken over.
pub(crate) fn complex_by_jobs<R: Threads + Wait + Sync, J: Job<Out = Outcome>, G: Gate + Sync>(
    rt: &R,
    alloc: Global,
    job: &J,
    work: Work,
    points: &[Point],
    carriers: List<Plane>,
    from: &Complex,
    how: &How,
    gate: &G,
) -> Result<Complex, OutOfMemory>
    requires from { (s : Set) × ShowsSet s from.now }
    requires workable { J.workable job.now }
    requires alike { J.count job.now ≡ length points.now }
    requires set { (s : Set) × IsWorkedBy (J.right job.now) [] [] s carriers points.now }
    ensures shows { IfOk result (λ c. (s : Set) → IsWorkedBy (J.right job.now) [] [] s carriers points.now → ShowsSet s c) }
{
    let outcomes = all_worked(rt, alloc, job, work, how, gate)?;
    assemble_lent(alloc, carriers, points, outcomes, from, from)
}
