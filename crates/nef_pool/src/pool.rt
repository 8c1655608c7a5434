//! The workers, and the caller that finishes what the workers leave.
ghost use Rattle.std.specs.Prelude.{◌≡◌, ℕ, ◌≤◌, IfOk, Some, None, slice_get, All, vec_len};

use nef_core::{Board, Claim, Job, OutOfMemory};
use nef_io::Gate;
use std::alloc::Global;
use std::thread;
use std::thread::Threads;

// Works jobs until none is left or memory runs out.
fn work_all<J: Job, B: Board<J>, G: Gate>(
    alloc: Global,
    board: &B,
    mut pass: B::Pass,
    job: &J,
    gate: &G,
) -> B::Pass
    requires job { B.made_for board.now ≡ job.now }
    requires workable { J.workable job.now }
    requires pass { B.belongs board.now pass × (B.hand pass ≡ None) }
    ensures pass { B.belongs board.now result × (B.hand result ≡ None) }
{
    // a worker claims each job once at most, so this many rounds are enough
    for _ in 0..job.jobs() {
        let Claim::Got(number) = board.claim(&mut pass) else {
            break;
        };
        gate.before(number, B::FREE);
        match job.work(alloc, number) {
            Ok(out) => {
                board.deposit(&mut pass, number, out);
            }
            Err(OutOfMemory) => {
                board.give_back(&mut pass, number);
                break;
            }
        }
    }
    pass
}

// Works the jobs by all passes, and takes the other passes in. Each other pass works in a thread of its own where one
// can be made. `pass` works in this thread, which starts all other threads itself: a thread that a new thread starts
// often waits for its starter's processor, while another is free. Without other passes no thread starts.
#[cycle(by_threads)]
fn work_by_threads<R: Threads + Sync, J: Job, B: Board<J>, G: Gate + Sync>(
    rt: &R,
    alloc: Global,
    board: &B,
    pass: B::Pass,
    mut others: Vec<B::Pass>,
    job: &J,
    gate: &G,
) -> B::Pass
    requires job { B.made_for board.now ≡ job.now }
    requires workable { J.workable job.now }
    requires pass { B.belongs board.now pass × (B.hand pass ≡ None) }
    requires each { All (λ p. B.belongs board.now p × (B.hand p ≡ None)) others.items }
    ensures pass { B.belongs board.now result × (B.hand result ≡ None) }
{
    let Some(other) = others.pop() else {
        return work_all(alloc, board, pass, job, gate);
    };
    let works = move || -> B::Pass
        requires { (B.made_for board.now ≡ job.now) × J.workable job.now × B.belongs board.now other × (B.hand other ≡ None) }
        ensures { B.belongs board.entry.now result × (B.hand result ≡ None) }
    { work_all(alloc, board, other, job, gate) };
    let goes_on = move || -> B::Pass
        requires { (B.made_for board.now ≡ job.now) × J.workable job.now × B.belongs board.now pass × (B.hand pass ≡ None) × All (λ p. B.belongs board.now p × (B.hand p ≡ None)) others.items }
        ensures { B.belongs board.entry.now result × (B.hand result ≡ None) }
    { work_by_threads(rt, alloc, board, pass, others, job, gate) };
    let (done, mut pass) = thread::join(rt, works, goes_on);
    board.join(&mut pass, done);
    pass
}

// The results in the slots, where each job without a result is worked now.
fn filled<J: Job>(
    alloc: Global,
    job: &J,
    slots: Vec<Option<J::Out>>,
) -> Result<Vec<J::Out>, OutOfMemory>
    requires workable { J.workable job.now }
    requires len { vec_len slots ≡ J.count job.now }
    requires right { (i : ℕ) (out : _) → slice_get slots.items i ≡ Some (Some out) → J.right job.now i out }
    ensures len { IfOk result (λ v. vec_len v ≡ J.count job.now) }
    ensures right { IfOk result (λ v. (i : ℕ) (out : _) → slice_get v.items i ≡ Some out → J.right job.now i out) }
{
    let mut outs = Vec::with_capacity(alloc, slots.len())?;
    for slot in slots {
        let out = match slot {
            Some(out) => out,
            None => job.work(alloc, outs.len() as u64)?,
        };
        outs.push_reserved(out);
    }
    Ok(outs)
}

/// Works every job of the board, and returns one right result for each job, in the order of the jobs.
///
/// The board was made for this job value, whose jobs can be worked. The pass is the board's first one, holds nothing,
/// and may make one pass for each worker. The calling thread is one of the workers, so a single worker starts no
/// thread. A worker claims a job, tells the gate, works the job and deposits the result; where no memory is found the
/// worker gives the job back and ends. Then the caller works the jobs that aren't done.
///
/// `OutOfMemory` says that the caller wanted memory and found none; the results are gone then.
pub fn finish<R: Threads + Sync, J: Job, B: Board<J>, G: Gate + Sync>(
    rt: &R,
    alloc: Global,
    board: B,
    mut pass: B::Pass,
    job: &J,
    workers: u32,
    gate: &G,
) -> Result<Vec<J::Out>, OutOfMemory>
    requires job { B.made_for board ≡ job.now }
    requires workable { J.workable job.now }
    requires pass { B.belongs board pass × (B.hand pass ≡ None) }
    requires workers { workers ≤ B.spare pass }
    ensures len { IfOk result (λ v. vec_len v ≡ J.count job.now) }
    ensures right { IfOk result (λ v. (i : ℕ) (out : _) → slice_get v.items i ≡ Some out → J.right job.now i out) }
{
    let count = workers.saturating_sub(1);
    let mut others = Vec::with_capacity(alloc, count as usize)?;
    for _ in 0..count {
        others.push_reserved(board.split(&mut pass));
    }
    let pass = work_by_threads(rt, alloc, &board, pass, others, job, gate);
    filled(alloc, job, board.close(alloc, pass)?)
}
