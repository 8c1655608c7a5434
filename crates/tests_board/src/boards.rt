//! Two jobs at the plain machine, and at each board with two passes.
ghost use Rattle.std.specs.Prelude.{◌≡◌, ◌<◌, None};

use crate::rows::check;
use crate::trial::Trial;
use nef_board::LockBoard;
use nef_core::{Board, Claim, Event, Job, Machine, OutOfMemory, Slot};
use nef_free::FreeBoard;
use std::alloc::Global;
use std::sync::Wait;

// Whether each call of a board with two passes gives what is right: both passes claim, the second deposits and claims
// again, the first gives back. Neither the board's calls nor this one get the runtime, which alone allows waiting.
fn two_passes<B: Board<Trial>>(
    alloc: Global,
    board: B,
    mut zero: B::Pass,
    job: &Trial,
) -> Result<bool, OutOfMemory>
    requires job { B.made_for board ≡ job.now }
    requires pass { B.belongs board zero × (B.hand zero ≡ None) }
    requires spare { 0 < B.spare zero }
{
    let mut one = board.split(&mut zero);
    let Claim::Got(first) = board.claim(&mut zero) else {
        return Ok(false);
    };
    let Claim::Got(second) = board.claim(&mut one) else {
        return Ok(false);
    };
    let out = job.work(alloc, second)?;
    let receipt = board.deposit(&mut one, second, out);
    let Claim::NoneLeft = board.claim(&mut one) else {
        return Ok(false);
    };
    board.give_back(&mut zero, first);
    board.join(&mut zero, one);
    let results = board.close(alloc, zero)?;
    let are_kept = matches!(results.as_slice(), [None, Some(1)]);
    Ok(are_kept && (first, second, receipt.job) == (0, 1, 1))
}

fn by_turns<R: Wait + Sync>(rt: &R, alloc: Global, job: &Trial) -> Result<bool, OutOfMemory> {
    let (board, pass) = LockBoard::new(rt, alloc, job, 2)?;
    two_passes(alloc, board, pass, job)
}

fn without_turns(alloc: Global, job: &Trial) -> Result<bool, OutOfMemory> {
    let (board, pass) = FreeBoard::new(alloc, job, 2)?;
    two_passes(alloc, board, pass, job)
}

#[test]
fn two_jobs(rt: HostRuntime) {
    let job = Trial::new(2, 0, 0);
    check(&rt, by_turns(&rt, rt.alloc(), &job).ok(), "by turns");
    check(&rt, without_turns(rt.alloc(), &job).ok(), "without turns");
}

// The calls of the two jobs at the machine.
fn machine_of_two_jobs(alloc: Global) -> Result<bool, OutOfMemory> {
    let mut machine = Machine::new(alloc, 2)?;
    let first = machine.step(Event::Claim(0));
    let second = machine.step(Event::Claim(1));
    let deposited = machine.step(Event::Deposit(1, 1));
    let last = machine.step(Event::Claim(1));
    let given_back = machine.step(Event::GiveBack(0, 0));
    let are_kept = matches!(machine.slots(), [Slot::Open, Slot::Done(1)]);
    let are_handed_out = first == Claim::Got(0) && second == Claim::Got(1);
    let are_told = deposited == Claim::Got(1) && given_back == Claim::Got(0);
    Ok(are_kept && are_handed_out && are_told && last == Claim::NoneLeft)
}

#[test]
fn machine(rt: HostRuntime) {
    check(&rt, machine_of_two_jobs(rt.alloc()).ok(), "two jobs");
}
