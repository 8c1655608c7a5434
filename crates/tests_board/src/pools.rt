//! The pool over both boards, as far as no clause speaks of the pool: how many workers start, how often and by whom a
//! job is worked, when the gate hears of a job, and that a worker ends where memory is wanting.
ghost use Rattle.std.specs.Prelude.{◌<◌};

use crate::counted::Counted;
use crate::rows::{check, number};
use crate::trial::Trial;
use nef_board::LockBoard;
use nef_core::OutOfMemory;
use nef_free::FreeBoard;
use nef_pool::finish;
use std::alloc::Global;
use std::process::Abort;
use std::str::Split;
use std::sync::Wait;
use std::sync::atomic::{AtomicU64, Ordering};
use std::thread::Threads;

// Rows of a pool: workers, seats at the board, jobs, the bits of the jobs that want memory in vain at first, and how
// many jobs begin before any job but the first goes on; then the jobs that the gate hears of, the calls, the calls for
// jobs that the gate didn't hear of, and the deposits.
//
// Jobs beyond 16 bits are worked by one worker, by two, and by the most. Where jobs wait until one more began than
// there are workers, each worker has a job at the same time. Where jobs 2 and 5 want memory in vain, a worker ends at
// each of the two, and the caller works the rest.
const ROWS: &str = "1 2 70000 0 0 => 70000 70000 0 70000
2 3 70000 0 0 => 70000 70000 0 70000
64 65 70000 0 0 => 70000 70000 0 70000
2 3 3 0 3 => 3 3 0 3
4 5 10 0 5 => 10 10 0 10
64 65 600 0 65 => 600 600 0 600
2 3 2 0 0 => 2 2 0 2
1 2 10 0 0 => 10 10 0 10
3 4 10 0 0 => 10 10 0 10
1 2 10 4 0 => 3 11 7 2
1 5 10 4 0 => 3 11 7 2
2 5 10 36 0 => 6 12 4 4
4 5 10 36 0 => 10 12 0 8";

// The results of all jobs at the board whose passes take turns.
fn locked<R: Threads + Wait + Sync>(
    rt: &R,
    alloc: Global,
    trial: &Trial,
    workers: u32,
    seats: u32,
) -> Result<Vec<u64>, OutOfMemory>
    requires workers { workers < seats }
{
    let (board, pass) = LockBoard::new(rt, alloc, trial, seats)?;
    let board = Counted::new(board, &trial.deposits);
    finish(rt, alloc, board, pass, trial, workers, trial)
}

// The results of all jobs at the board whose passes wait for nobody.
fn unlocked<R: Threads + Sync>(
    rt: &R,
    alloc: Global,
    trial: &Trial,
    workers: u32,
    seats: u32,
) -> Result<Vec<u64>, OutOfMemory>
    requires workers { workers < seats }
{
    let (board, pass) = FreeBoard::new(alloc, trial, seats)?;
    let board = Counted::new(board, &trial.deposits);
    finish(rt, alloc, board, pass, trial, workers, trial)
}

// Whether there are `count` numbers, each the square of its index.
fn are_squares(numbers: &[u64], count: u32) -> bool {
    for (place, number) in numbers.iter().enumerate() {
        if *number != (place as u64).wrapping_mul(place as u64) {
            return false;
        }
    }
    numbers.len() as u64 == u64::from(count)
}

fn of(counter: &AtomicU64) -> u64 {
    counter.load(Ordering::SeqCst)
}

// The counts of the trial, with the jobs that the gate heard of from the board in use.
fn counts(alloc: Global, trial: &Trial, free: bool) -> Result<String, OutOfMemory> {
    let told = of(if free { &trial.free } else { &trial.locked });
    let (calls, unheard) = (of(&trial.calls), of(&trial.unheard));
    format!(in alloc; "{told} {calls} {unheard} {}", of(&trial.deposits))
}

// Whether all jobs come out, the counts are `wanted`, and no job is told by the other board or held for all turns.
fn is_worked<R: Threads + Wait + Sync>(
    rt: &R,
    alloc: Global,
    trial: &Trial,
    free: bool,
    workers: u32,
    seats: u32,
    wanted: &str,
) -> Result<bool, OutOfMemory>
    requires workers { workers < seats }
{
    let squares = if free {
        unlocked(rt, alloc, trial, workers, seats)?
    } else {
        locked(rt, alloc, trial, workers, seats)?
    };
    let counts = counts(alloc, trial, free)?;
    let others = of(if free { &trial.locked } else { &trial.free });
    let are_right = are_squares(squares.as_slice(), trial.count) && counts.as_str() == wanted;
    Ok(are_right && (others, of(&trial.limits_reached)) == (0, 0))
}

fn trial_of(numbers: &mut Split<'_, char>) -> Option<Trial> {
    let count = number(numbers)?;
    let (refused, crowd) = (number(numbers)?, number(numbers)?);
    Some(Trial::new(count, u64::from(refused), u64::from(crowd)))
}

// Whether the row holds for the board with or without a lock.
fn holds<R: Threads + Wait + Sync>(rt: &R, alloc: Global, free: bool, row: &str) -> Option<bool> {
    let (numbers, wanted) = row.split_once(" => ")?;
    let mut numbers = numbers.split(' ');
    let (workers, seats) = (number(&mut numbers)?, number(&mut numbers)?);
    let trial = trial_of(&mut numbers)?;
    if workers >= seats {
        return None;
    }
    is_worked(rt, alloc, &trial, free, workers, seats, wanted).ok()
}

fn check_rows<R: Threads + Wait + Abort + Sync>(rt: &R, alloc: Global, free: bool) {
    for row in ROWS.split('\n') {
        check(rt, holds(rt, alloc, free, row), row);
    }
}

#[test]
fn jobs_by_turns(rt: HostRuntime) {
    check_rows(&rt, rt.alloc(), false);
}

#[test]
fn jobs_without_turns(rt: HostRuntime) {
    check_rows(&rt, rt.alloc(), true);
}
