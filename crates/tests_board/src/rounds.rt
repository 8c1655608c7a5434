//! Rounds of the numbers 4 and 7, a stage of five numbers, and stages that tell how many are worked side by side.
ghost use Rattle.std.specs.Prelude.{◌≡◌, ◌≤◌, ◌==◌, if◌then◌else◌, nat_lt, Some, None};
ghost use Rattle.nef_sched.specs.Rounds.{IsPassInRound};

use crate::rows::{TURNS, check, number};
use nef_sched::{Needs, OutOfMemory, Results, Round, RoundPass, Stage, Taken, run_ahead};
use std::alloc::Global;
use std::sync::Wait;
use std::sync::atomic::{AtomicBool, AtomicU64, Ordering};
use std::thread;
use std::thread::Threads;

const NUMBERS: [usize; 2] = [4, 7];

// Whether the pass takes both numbers, in any order, and then finds none.
fn takes_both<R: Wait>(rt: &R, round: &Round, pass: &mut RoundPass) -> bool
    requires { IsPassInRound round.now pass.old }
{
    let (first, second) = (round.take(rt, pass), round.take(rt, pass));
    let are_both = matches!((first, second), (Some(4), Some(7)) | (Some(7), Some(4)));
    are_both && round.take(rt, pass).is_none()
}

// Whether the last of `count` passes takes both numbers, and the other pass, if there is one, takes none.
fn last_takes_both<R: Wait>(rt: &R, alloc: Global, count: u32) -> Result<bool, OutOfMemory>
    requires { 1 ≤ count }
{
    let (round, mut passes) = Round::new(rt, alloc, &NUMBERS, count)?;
    let are_taken = match passes.as_mut_slice() {
        [pass] => takes_both(rt, &round, pass),
        [other, pass] => takes_both(rt, &round, pass) && round.take(rt, other).is_none(),
        _ => false,
    };
    Ok(are_taken)
}

#[test]
fn numbers_are_taken(rt: HostRuntime) {
    check(&rt, last_takes_both(&rt, rt.alloc(), 1).ok(), "one pass");
    check(&rt, last_takes_both(&rt, rt.alloc(), 2).ok(), "two passes");
}

// Whether `told` names this number as taken and the other one as left.
fn are_told(number: Option<usize>, told: &Taken) -> bool {
    match number {
        Some(4) => told.taken.as_slice() == [4].as_slice()
            && told.left.as_slice() == [7].as_slice(),
        Some(7) => told.taken.as_slice() == [7].as_slice()
            && told.left.as_slice() == [4].as_slice(),
        _ => false,
    }
}

// Whether a round that is closed tells which number the pass took, and which is left.
fn closes<R: Wait>(rt: &R, alloc: Global) -> Result<bool, OutOfMemory> {
    let (round, mut passes) = Round::new(rt, alloc, &NUMBERS, 1)?;
    let number = match passes.as_mut_slice() {
        [pass] => round.take(rt, pass),
        _ => None,
    };
    let told = round.close(rt, passes);
    Ok(are_told(number, &told))
}

#[test]
fn what_is_left_is_told(rt: HostRuntime) {
    check(&rt, closes(&rt, rt.alloc()).ok(), "one number is left");
}

// A load that pays for any number of workers.
const HEAVY: u64 = 1_000_000;

// Five numbers: 2 needs 0 and 1, 3 needs 2, 4 needs 2 and 1. A result is one more than the sum of the needed results.
// The stage counts calls in which a number is alone, and calls without the result of 0.
#[derive(Drop)]
struct Sums {
    load: u64,
    alone: AtomicU64,
    without_first: AtomicU64,
}

impl Sums {
    fn new(load: u64) -> Sums {
        Sums {
            load,
            alone: AtomicU64::new(0),
            without_first: AtomicU64::new(0),
        }
    }
}

fn first_of(i: usize) -> Option<usize>
    ensures { result ≡ (if i == 2 then Some 0 else (if nat_lt 2 i then Some 2 else None)) }
{
    if i == 2 {
        Some(0)
    } else if 2 < i {
        Some(2)
    } else {
        None
    }
}

fn second_of(i: usize) -> Option<usize>
    ensures { result ≡ (if i == 2 then Some 1 else (if i == 4 then Some 1 else None)) }
{
    if i == 2 || i == 4 { Some(1) } else { None }
}

fn value_of(done: &Results<u64>, number: Option<usize>) -> u64 {
    match number {
        Some(number) => done.get(number).copied().unwrap_or(100),
        None => 0,
    }
}

impl Stage for Sums {
    type Out = u64;

    ghost use Rattle.std.specs.Prelude.{◌==◌, if◌then◌else◌, nat_lt, Some, None, ⊤};

    ghost size = { λ s. 5 };

    ghost first = { λ s i. if i == 2 then Some 0 else (if nat_lt 2 i then Some 2 else None) };

    ghost second = { λ s i. if i == 2 then Some 1 else (if i == 4 then Some 1 else None) };

    ghost fits = { λ s i out. ⊤ };

    fn count(&self) -> usize {
        5
    }

    fn needs(&self, i: usize) -> Needs {
        Needs {
            first: first_of(i),
            second: second_of(i),
        }
    }

    fn load(&self, _i: usize, _done: &Results<u64>) -> u64 {
        self.load
    }

    fn work(
        &self,
        _alloc: Global,
        i: usize,
        alone: bool,
        done: &Results<u64>,
    ) -> Result<u64, OutOfMemory> {
        if alone {
            self.alone.fetch_add(1, Ordering::SeqCst);
        }
        if done.get(0).is_none() {
            self.without_first.fetch_add(1, Ordering::SeqCst);
        }
        let sum = value_of(done, first_of(i)).wrapping_add(value_of(done, second_of(i)));
        Ok(sum.wrapping_add(1))
    }
}

// Whether the results come in order, number 4 alone is alone, and `without_first` calls see no result of 0.
fn come_in_order<R: Threads + Wait + Sync>(
    rt: &R,
    alloc: Global,
    load: u64,
    without_first: u64,
) -> Result<bool, OutOfMemory> {
    let stage = Sums::new(load);
    let results = run_ahead(rt, alloc, &stage, 2)?;
    let alone = stage.alone.load(Ordering::SeqCst);
    let seen = stage.without_first.load(Ordering::SeqCst);
    Ok(matches!(results.as_slice(), [1, 1, 3, 4, 5]) && (alone, seen) == (1, without_first))
}

// With threads, 1 doesn't see the result of 0; with the caller alone, 1 sees this result.
#[test]
fn results_come_in_order(rt: HostRuntime) {
    check(
        &rt,
        come_in_order(&rt, rt.alloc(), HEAVY, 2).ok(),
        "by threads",
    );
    check(
        &rt,
        come_in_order(&rt, rt.alloc(), 0, 1).ok(),
        "by the caller",
    );
}

// Turns in which a further thread begins one more number, if there is such a thread.
const FEW_TURNS: u64 = 200;

// Numbers without needs, each with this load. Each is worked until `crowd` numbers began, for `TURNS` turns at most;
// the first `crowd` numbers wait a few turns more for one more number. The stage counts the numbers that began and the
// most that were worked at one time.
#[derive(Drop)]
struct Waiting {
    count: usize,
    load: u64,
    crowd: u64,
    began: AtomicU64,
    inside: AtomicU64,
    most: AtomicU64,
    limit_reached: AtomicBool,
}

impl Waiting {
    fn new(count: usize, load: u64, crowd: u64) -> Waiting {
        Waiting {
            count,
            load,
            crowd,
            began: AtomicU64::new(0),
            inside: AtomicU64::new(0),
            most: AtomicU64::new(0),
            limit_reached: AtomicBool::new(false),
        }
    }

    fn wait_for_crowd(&self) {
        for _ in 0..TURNS {
            if self.began.load(Ordering::SeqCst) >= self.crowd {
                return;
            }
            thread::yield_now();
        }
        self.limit_reached.store(true, Ordering::SeqCst);
    }

    fn wait_for_one_more(&self) {
        for _ in 0..FEW_TURNS {
            if self.most.load(Ordering::SeqCst) > self.crowd {
                return;
            }
            thread::yield_now();
        }
    }
}

impl Stage for Waiting {
    type Out = usize;

    ghost use Rattle.std.specs.Prelude.{◌≡◌, None};

    ghost size = { λ s. s.count };

    ghost first = { λ s i. None };

    ghost second = { λ s i. None };

    ghost fits = { λ s i out. out ≡ i };

    fn count(&self) -> usize {
        self.count
    }

    fn needs(&self, _i: usize) -> Needs {
        Needs {
            first: None,
            second: None,
        }
    }

    fn load(&self, _i: usize, _done: &Results<usize>) -> u64 {
        self.load
    }

    fn work(
        &self,
        _alloc: Global,
        i: usize,
        _alone: bool,
        _done: &Results<usize>,
    ) -> Result<usize, OutOfMemory> {
        let inside = self.inside.fetch_add(1, Ordering::SeqCst).wrapping_add(1);
        self.most.fetch_max(inside, Ordering::SeqCst);
        self.began.fetch_add(1, Ordering::SeqCst);
        self.wait_for_crowd();
        if (i as u64) < self.crowd {
            self.wait_for_one_more();
        }
        self.inside.fetch_sub(1, Ordering::SeqCst);
        Ok(i)
    }
}

// Whether each result is the number that gave the result.
fn are_in_order(results: &[usize]) -> bool {
    for (number, result) in results.iter().enumerate() {
        if *result != number {
            return false;
        }
    }
    true
}

// Whether each number is worked once, and exactly `crowd` numbers are worked side by side.
fn run_side_by_side<R: Threads + Wait + Sync>(
    rt: &R,
    alloc: Global,
    workers: u32,
    count: usize,
    load: u64,
    crowd: u64,
) -> Result<bool, OutOfMemory>
    requires workers { 1 ≤ workers }
{
    let stage = Waiting::new(count, load, crowd);
    let results = run_ahead(rt, alloc, &stage, workers)?;
    let began = stage.began.load(Ordering::SeqCst);
    let most = stage.most.load(Ordering::SeqCst);
    let waited = stage.limit_reached.load(Ordering::SeqCst);
    Ok(
        are_in_order(results.as_slice())
            && results.len() == count
            && began == count as u64
            && most == crowd
            && !waited,
    )
}

// Workers, numbers, the load of each number, and the numbers worked side by side: as many as workers, as numbers, or as
// the load pays for, one for each 500. Some rows have more numbers than a script may have names.
const CROWDS: &str = "4 4 1000000 4
3 10 1000000 3
2 10 1000000 2
64 2 1000000 2
64 100 1000000 64
4 4 250 2
4 4 249 1
1 4 1000000 1
1 70 1000000 1
4 5000 0 1
2 5000 1000 2";

// Whether the row of `CROWDS` holds.
fn holds<R: Threads + Wait + Sync>(rt: &R, alloc: Global, row: &str) -> Option<bool> {
    let mut numbers = row.split(' ');
    let (workers, count) = (number(&mut numbers)?, number(&mut numbers)? as usize);
    let load = u64::from(number(&mut numbers)?);
    let crowd = u64::from(number(&mut numbers)?);
    if workers == 0 {
        return None;
    }
    run_side_by_side(rt, alloc, workers, count, load, crowd).ok()
}

#[test]
fn numbers_of_a_round_run_side_by_side(rt: HostRuntime) {
    for row in CROWDS.split('\n') {
        check(&rt, holds(&rt, rt.alloc(), row), row);
    }
}
