//! The jobs that the gate hears of, each when a worker begins the job.

use crate::gates::{Counting, Holding};
use crate::runs::{check, told, unfolded};
use crate::tables::UNIT_BOX;
use nef_shell::code;
use std::alloc::{AllocError, Global};
use std::process::Abort;
use std::sync::Wait;
use std::thread::Threads;

// Words, a script, how the run ends, and the calls for each of the jobs 0 to 17, for later jobs, and from the board
// without a lock: two half-spaces, with twelve candidates each, and their intersection, with eighteen; statements of
// each kind, of which seven have twelve candidates and three eighteen; sets of which only one is asked about; and a
// script that is refused for its last line, so that nothing is worked.
const COUNTED: &str = "--workers 3; half A 1 0 0 0 closed / half B 0 1 0 0 closed / and C A B => \
Done: 3 3 3 3 3 3 3 3 3 3 3 3 1 1 1 1 1 1 0 0
--workers 3 --board free; half A 1 0 0 0 closed / half B 0 1 0 0 closed / and C A B => \
Done: 3 3 3 3 3 3 3 3 3 3 3 3 1 1 1 1 1 1 0 42
--ahead --workers 2; half A 1 0 0 0 closed / half B 0 1 0 0 closed / and C A B => \
Done: 3 3 3 3 3 3 3 3 3 3 3 3 1 1 1 1 1 1 0 0
--ahead --workers 2 --board free; half A 1 0 0 0 closed / half B 0 1 0 0 closed / and C A B => \
Done: 3 3 3 3 3 3 3 3 3 3 3 3 1 1 1 1 1 1 0 42
--workers 3; half A 1 0 0 0 closed / half B 0 1 0 0 closed / and C A B / not N A / has B 0 0 0 1 => \
Done: 4 4 4 4 4 4 4 4 4 4 4 4 1 1 1 1 1 1 0 0
--workers 3 --board lock; half A 1 0 0 0 closed / not N A / int I A / cl C A / bd D A / reg R A / \
half B 0 1 0 0 closed / or O A B / diff E A B / xor X A B => \
Done: 10 10 10 10 10 10 10 10 10 10 10 10 3 3 3 3 3 3 0 0
--workers 3 --board free; half A 1 0 0 0 closed / not N A / int I A / cl C A / bd D A / reg R A / \
half B 0 1 0 0 closed / or O A B / diff E A B / xor X A B => \
Done: 10 10 10 10 10 10 10 10 10 10 10 10 3 3 3 3 3 3 0 138
; half A 1 0 0 0 closed / has A 0 0 0 1 / ball B => \
Refused { line: 3, kind: UnknownCommand }: 0 0 0 0 0 0 0 0 0 0 0 0 0 0 0 0 0 0 0 0";

// How the run ends, and the calls, as a text.
fn counted<R: Threads + Wait + Sync>(
    rt: &R,
    alloc: Global,
    words: &str,
    script: &str,
) -> Result<String, AllocError> {
    let script = unfolded(alloc, script)?;
    let gate = Counting::new(alloc, 18)?;
    let status = told(rt, alloc, words, script.as_str(), &gate)?;
    let mut text = format!(in alloc; "{status:?}:")?;
    gate.push_calls(&mut text)?;
    Ok(text)
}

// Whether the row of `COUNTED` holds.
fn holds<R: Threads + Wait + Sync>(rt: &R, alloc: Global, row: &str) -> Option<bool> {
    let (words, rest) = row.split_once("; ")?;
    let (script, wanted) = rest.split_once(" => ")?;
    let given = counted(rt, alloc, words, script).ok()?;
    Some(given.as_str() == wanted)
}

// The gate hears of each job, with `--ahead` as without `--ahead`.
#[test]
fn jobs_counted(rt: HostRuntime) {
    for row in COUNTED.split('\n') {
        check(&rt, holds(&rt, rt.alloc(), row), "", row);
    }
}

// Whether the run works the whole script, and no job was held for all turns.
fn runs_beside<R: Threads + Wait + Sync>(
    rt: &R,
    alloc: Global,
    gate: &Holding,
    words: &str,
    script: &str,
) -> Result<bool, AllocError> {
    let script = unfolded(alloc, script)?;
    let status = told(rt, alloc, words, script.as_str(), gate)?;
    Ok(code(&status) == 0 && !gate.limit_reached())
}

// Stops the test where the run doesn't come out while each job 1 is held until a job 2 began.
fn check_jobs<R: Threads + Wait + Abort + Sync>(rt: &R, alloc: Global, words: &str, script: &str) {
    let gate = Holding::new(1, 2, 1);
    check(
        rt,
        runs_beside(rt, alloc, &gate, words, script).ok(),
        words,
        script,
    );
}

// Stops the test where the run doesn't come out while the first job 0 is held until another job 0 began.
fn check_statements<R: Threads + Wait + Abort + Sync>(
    rt: &R,
    alloc: Global,
    words: &str,
    script: &str,
) {
    let gate = Holding::new(0, 0, 2);
    check(
        rt,
        runs_beside(rt, alloc, &gate, words, script).ok(),
        words,
        script,
    );
}

// Two jobs of one statement run beside each other; with `--ahead`, so do two jobs of a statement that runs beside no
// other, and two statements of which neither needs the other.
#[test]
fn two_beside_each_other(rt: HostRuntime) {
    let alloc = rt.alloc();
    check_jobs(&rt, alloc, "--workers 2", UNIT_BOX);
    check_jobs(&rt, alloc, "--workers 2 --board free", UNIT_BOX);
    check_jobs(&rt, alloc, "--ahead --workers 2", "half A 1 0 0 0 closed");
    let two = "half A 1 0 0 0 closed / half B 1 0 0 0 open / has A 0 0 0 1 / has B 0 0 0 1";
    check_statements(&rt, alloc, "--ahead --workers 2", two);
}
