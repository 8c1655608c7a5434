//! Works a stage round after round.
ghost use Rattle.std.specs.Prelude.{◌≡◌, ℕ, ◌<◌, ◌≤◌, length, All, IfOk, OnOk, None, Some, slice_get, slice_index_or, vec_len};
ghost use Rattle.nef_sched.specs.declared.pass.RoundPass.{RoundPass};
ghost use Rattle.nef_sched.specs.Counts.{Differ};
ghost use Rattle.nef_sched.specs.Results.{kept, IsKept, AreSound, AreFitting, AreReady, HasWorked};
ghost use Rattle.nef_sched.specs.Plans.{IsPlan};
ghost use Rattle.nef_sched.specs.Rounds.{IsPassInRound, parts, known, total_parts, total_worked};

use crate::OutOfMemory;
use crate::pass::{Round, RoundPass};
use crate::stage::{Results, Stage, plan_of};
use nef_core::{Work, empty_places};
use std::alloc::Global;
use std::sync::Wait;
use std::thread;
use std::thread::Threads;

/// Works every number of the stage, and returns one fitting result for each, in order.
///
/// The numbers are worked in rounds: a number comes into the first round after those of the numbers
/// that it needs. A number that is alone in its round is worked by the caller. In a larger round as
/// many workers take numbers as the round's load pays for, `workers` at most, and the caller is one of
/// them; what is left the caller works then.
///
/// `OutOfMemory` says that memory was wanted and not found; the results are gone then.
pub fn run_ahead<R: Threads + Wait + Sync, T: Stage>(
    rt: &R,
    alloc: Global,
    stage: &T,
    workers: u32,
) -> Result<Vec<T::Out>, OutOfMemory>
    requires workers { 1 ≤ workers }
    requires workable { T.workable stage.now }
    ensures len { IfOk result (λ v. vec_len v ≡ T.size stage.now) }
    ensures fits { IfOk result (λ v. (i : ℕ) (out : _) → slice_get v.items i ≡ Some out → T.fits stage.now i out) }
{
    let plan = plan_of(alloc, stage)?;
    let mut done = Results {
        list: empty_places(alloc, stage.count())?,
    };
    work_rounds(rt, alloc, stage, workers, &plan, &mut done)?;
    all_of(alloc, done.list)
}

// Works the rounds of the plan: by workers, as far as its numbers pay for several, and then, by the caller, those that have
// no result. A single number is told that it is alone.
fn work_rounds<R: Threads + Wait + Sync, T: Stage>(
    rt: &R,
    alloc: Global,
    stage: &T,
    workers: u32,
    plan: &[Vec<usize>],
    done: &mut Results<T::Out>,
) -> Result<(), OutOfMemory>
    requires workable { T.workable stage.now }
    requires plan { IsPlan (T.size stage.now) (T.first stage.now) (T.second stage.now) plan.now }
    requires len { vec_len done.old.list ≡ T.size stage.now }
    requires none { (k : ℕ) (out : T.Out) → slice_get done.old.list.items k ≡ Some (Some out) → ⊥ }
    ensures fits { AreSound (T.size stage.now) (T.fits stage.now) done.new.list.items }
    ensures all { OnOk result ((i : ℕ) → i < T.size stage.now → IsKept done.new.list.items i) }
{
    for round in 0..plan.len() {
        let numbers = plan[round].as_slice();
        work_by(rt, alloc, stage, workers, numbers, done)?;
        work_rest(alloc, stage, numbers, numbers.len() == 1, done)?;
    }
    Ok(())
}

// What the numbers together are taken to cost.
fn total_load<T: Stage>(stage: &T, numbers: &[usize], done: &Results<T::Out>) -> u64
    requires workable { T.workable stage.now }
    requires ready { AreReady (T.size stage.now) (T.fits stage.now) (T.first stage.now) (T.second stage.now) numbers.now done.now.list.items }
{
    let mut total: u64 = 0;
    for number in numbers {
        total = total.saturating_add(stage.load(*number, done));
    }
    total
}

// Works the numbers by as many of the workers as they pay for, until none is left or each of them ran out of memory. Where
// they pay for none but the caller, nothing is worked.
fn work_by<R: Threads + Wait + Sync, T: Stage>(
    rt: &R,
    alloc: Global,
    stage: &T,
    workers: u32,
    numbers: &[usize],
    done: &mut Results<T::Out>,
) -> Result<(), OutOfMemory>
    requires workable { T.workable stage.now }
    requires differ { Differ numbers.now }
    requires ready { AreReady (T.size stage.now) (T.fits stage.now) (T.first stage.now) (T.second stage.now) numbers.now done.old.list.items }
    ensures worked { HasWorked (T.size stage.now) (T.fits stage.now) done.old.list.items done.new.list.items }
{
    let load = total_load(stage, numbers, done);
    let crew = Work::Round(numbers.len(), load).crew(workers);
    if crew < 2 {
        return Ok(());
    }
    let (round, passes) = Round::new(rt, alloc, numbers, crew)?;
    let worked = work_apart(rt, alloc, stage, done, numbers, &round, passes)?;
    let passes = gathered(alloc, stage, &round, done, worked)?;
    let _ = round.close(rt, passes);
    Ok(())
}

// What one thread does: it takes numbers until none is left or memory runs out, and hands its pass back beside the
// results. A pass takes no number twice, so a turn for each number is enough.
fn work_all<R: Wait, T: Stage>(
    rt: &R,
    alloc: Global,
    stage: &T,
    done: &Results<T::Out>,
    numbers: &[usize],
    round: &Round,
    mut pass: RoundPass,
) -> (RoundPass, Vec<(usize, T::Out)>)
    requires workable { T.workable stage.now }
    requires of { IsPassInRound round.now pass }
    requires knows { known pass ≡ numbers.now }
    requires ready { AreReady (T.size stage.now) (T.fits stage.now) (T.first stage.now) (T.second stage.now) numbers.now done.now.list.items }
    ensures of { IsPassInRound round.now result.0 }
    ensures parts { parts result.0 ≡ parts pass }
    ensures outs { AreFitting (T.size stage.now) (T.fits stage.now) result.1.items }
{
    let mut outs = Vec::new(alloc);
    for _ in 0..numbers.len() {
        // Without room for a result no number is taken.
        if outs.reserve(1).is_err() {
            break;
        }
        let Some(number) = round.take(rt, &mut pass) else {
            break;
        };
        match stage.work(alloc, number, false, done) {
            Ok(out) => outs.push_reserved((number, out)),
            Err(OutOfMemory) => break,
        }
    }
    (pass, outs)
}

// Each pass but one is worked by a thread of its own, and that one by the caller.
fn work_apart<R: Threads + Wait + Sync, T: Stage>(
    rt: &R,
    alloc: Global,
    stage: &T,
    done: &Results<T::Out>,
    numbers: &[usize],
    round: &Round,
    passes: Vec<RoundPass>,
) -> Result<Vec<(RoundPass, Vec<(usize, T::Out)>)>, OutOfMemory>
    requires workable { T.workable stage.now }
    requires of { All (λ p. IsPassInRound round.now p) passes.items }
    requires knows { All (λ p. known p ≡ numbers.now) passes.items }
    requires ready { AreReady (T.size stage.now) (T.fits stage.now) (T.first stage.now) (T.second stage.now) numbers.now done.now.list.items }
    ensures of { IfOk result (λ v. All (λ w. IsPassInRound round.now w.0) v.items) }
    ensures len { IfOk result (λ v. vec_len v ≡ vec_len passes) }
    ensures parts { IfOk result (λ v. (i : ℕ) (d : _) (e : RoundPass) → i < length passes.items → parts (slice_index_or v.items i d).0 ≡ parts (slice_index_or passes.items i e)) }
    ensures outs { IfOk result (λ v. All (λ w. AreFitting (T.size stage.now) (T.fits stage.now) w.1.items) v.items) }
{
    thread::map_vec(
        rt,
        passes,
        &|mine: RoundPass| -> (RoundPass, Vec<(usize, T::Out)>)
            requires { T.workable stage.now × IsPassInRound round.now mine × (known mine ≡ numbers.now) × AreReady (T.size stage.now) (T.fits stage.now) (T.first stage.now) (T.second stage.now) numbers.now done.now.list.items }
            ensures { IsPassInRound round.entry.now result.0 × (parts result.0 ≡ parts mine) × AreFitting (T.size stage.entry.now) (T.fits stage.entry.now) result.1.items }
        { work_all(rt, alloc, stage, done, numbers, round, mine) },
    )
}

// Puts each result under the number beside it.
fn keep_outs<T: Stage>(stage: &T, done: &mut Results<T::Out>, mut outs: Vec<(usize, T::Out)>)
    requires sound { AreSound (T.size stage.now) (T.fits stage.now) done.old.list.items }
    requires each { AreFitting (T.size stage.now) (T.fits stage.now) outs.items }
    ensures worked { HasWorked (T.size stage.now) (T.fits stage.now) done.old.list.items done.new.list.items }
{
    while let Some((number, out)) = outs.pop() {
        done.set(number, Some(out));
    }
}

// Keeps the results that stand beside the passes, and returns the passes.
fn gathered<T: Stage>(
    alloc: Global,
    stage: &T,
    round: &Round,
    done: &mut Results<T::Out>,
    mut worked: Vec<(RoundPass, Vec<(usize, T::Out)>)>,
) -> Result<Vec<RoundPass>, OutOfMemory>
    requires sound { AreSound (T.size stage.now) (T.fits stage.now) done.old.list.items }
    requires of { All (λ w. IsPassInRound round.now w.0) worked.items }
    requires each { All (λ w. AreFitting (T.size stage.now) (T.fits stage.now) w.1.items) worked.items }
    ensures worked { HasWorked (T.size stage.now) (T.fits stage.now) done.old.list.items done.new.list.items }
    ensures of { IfOk result (λ v. All (λ p. IsPassInRound round.now p) v.items) }
    ensures parts { IfOk result (λ v. total_parts v.items ≡ total_worked worked.items) }
{
    let mut passes = Vec::with_capacity(alloc, worked.len())?;
    while let Some((pass, outs)) = worked.pop() {
        keep_outs(stage, done, outs);
        passes.push_reserved(pass);
    }
    Ok(passes)
}

// Works each of the numbers that has no result, and keeps its result.
fn work_rest<T: Stage>(
    alloc: Global,
    stage: &T,
    numbers: &[usize],
    alone: bool,
    done: &mut Results<T::Out>,
) -> Result<(), OutOfMemory>
    requires workable { T.workable stage.now }
    requires ready { AreReady (T.size stage.now) (T.fits stage.now) (T.first stage.now) (T.second stage.now) numbers.now done.old.list.items }
    ensures worked { HasWorked (T.size stage.now) (T.fits stage.now) done.old.list.items done.new.list.items }
    ensures there { OnOk result (All (IsKept done.new.list.items) numbers.now) }
{
    for number in numbers {
        if done.get(*number).is_none() {
            let out = stage.work(alloc, *number, alone, done)?;
            done.set(*number, Some(out));
        }
    }
    Ok(())
}

// The results themselves, where none is missing.
fn all_of<X: Drop>(alloc: Global, list: Vec<Option<X>>) -> Result<Vec<X>, OutOfMemory>
    requires all { (k : ℕ) → k < length list.items → IsKept list.items k }
    ensures len { IfOk result (λ v. vec_len v ≡ length list.items) }
    ensures same { IfOk result (λ v. (i : ℕ) (out : X) → slice_get v.items i ≡ Some out → kept list.items i ≡ Some out) }
{
    let mut outs = Vec::with_capacity(alloc, list.len())?;
    for slot in list {
        if let Some(out) = slot {
            outs.push_reserved(out);
        }
    }
    Ok(outs)
}
