//! How many workers start under a gate for which the program starts no more workers than the jobs pay for.

use crate::gates::{Crowd, TURNS};
use crate::grids::grid;
use crate::runs::{check, told};
use nef_shell::code;
use std::alloc::{AllocError, Global};
use std::sync::Wait;
use std::thread::Threads;

// Turns in which a worker that started is seen.
const FEW_TURNS: u64 = 200;

// After a statement, by its number, whether so many workers have a job of the statement at once.
//
// Statement 1 is a half-space with 12 candidates. Statement 47 makes 64 boxes, from 512 candidates at least, most of
// them far from one operand; 48 is the complement of the boxes, with 520 candidates; 49 puts boxes and complement
// together, with as many candidates at least, most of them close to both operands.
const CROWDS: &str = "\
--workers 2; 1 2 => false
--workers 2 --board free; 1 2 => false
--workers 64; 47 2 => false
--workers 64; 48 4 => true
--workers 64; 48 5 => false
--workers 64; 49 4 => true
--workers 64 --board free; 47 2 => false
--workers 64 --board free; 48 4 => true
--workers 64 --board free; 48 5 => false
--workers 64 --board free; 49 4 => true
--workers 3; 48 3 => true
--workers 3; 48 4 => false
--ahead --workers 64; 48 4 => true
--ahead --workers 64; 48 5 => false";

// The script of the boxes, of their complement, and of the union of both.
fn script_of_boxes(alloc: Global) -> Result<String, AllocError> {
    let boxes = grid(alloc, 8)?;
    format!(in alloc; "{boxes}not N G\nor W G N\nhas W 0 0 0 1\n")
}

// Whether the run ends well, and so many workers were or weren't there at once, as `wanted` says.
fn is_crowded<R: Threads + Wait + Sync>(
    rt: &R,
    alloc: Global,
    words: &str,
    gate: &Crowd,
    wanted: bool,
) -> Result<bool, AllocError> {
    let script = script_of_boxes(alloc)?;
    let status = told(rt, alloc, words, script.as_str(), gate)?;
    Ok(code(&status) == 0 && gate.gathered() == wanted)
}

// The gate of a statement and a number of workers, by the two numbers.
fn gate_of(numbers: &str, turns: u64) -> Option<Crowd> {
    let (statement, workers) = numbers.split_once(' ')?;
    Some(Crowd::new(statement.parse().ok()?, workers.parse().ok()?, turns))
}

// Whether the row of `CROWDS` holds.
fn holds<R: Threads + Wait + Sync>(rt: &R, alloc: Global, row: &str) -> Option<bool> {
    let (words, rest) = row.split_once("; ")?;
    let (numbers, wanted) = rest.split_once(" => ")?;
    let are_wanted = wanted == "true";
    let gate = gate_of(numbers, if are_wanted { TURNS } else { FEW_TURNS })?;
    is_crowded(rt, alloc, words, &gate, are_wanted).ok()
}

#[test]
fn as_many_workers_as_the_jobs_pay_for(rt: HostRuntime) {
    for row in CROWDS.split('\n') {
        check(&rt, holds(&rt, rt.alloc(), row), "", row);
    }
}
