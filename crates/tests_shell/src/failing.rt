//! Runs in which one call of the source or of the sink fails.

use crate::runs::{check, ended, folded, unfolded};
use nef_io::{MemSink, MemSource, OpenGate};
use nef_shell::{Status, code};
use std::alloc::{AllocError, Global};
use std::sync::Wait;
use std::thread::Threads;

// A script of 70 bytes that writes 7 bytes.
const SCRIPT: &str = "half A 1 0 0 0 closed / has A 0 0 0 1 / half B 1 0 0 0 open / has B 0 0 0 1";

// Which read of ten bytes fails, the sink's room, the most bytes that the sink takes in one write, and which write
// fails; the exit status of the script, and what the sink took, with `/` for line ends. One of the eight reads fails,
// or none; one of seven writes of one byte fails, or none; and a sink has no room.
const FAULTS: &str = "1 64 64 0 => 3:
2 64 64 0 => 3:
3 64 64 0 => 3:
4 64 64 0 => 3:
5 64 64 0 => 3:
6 64 64 0 => 3:
7 64 64 0 => 3:
8 64 64 0 => 3:
9 64 64 0 => 0:in/not/
0 64 1 1 => 4:
0 64 1 2 => 4:i
0 64 1 3 => 4:in
0 64 1 4 => 4:in/
0 64 1 5 => 4:in/n
0 64 1 6 => 4:in/no
0 64 1 7 => 4:in/not
0 64 1 8 => 0:in/not/
0 3 64 0 => 4:in/";

// Rows like those of `FAULTS`, with words and a script: an answer in four writes; a refusal, and refused words; and a
// text in writes of at most 16 bytes.
const LINES: &str = "0 64 2 4;; full U / has U 0 0 0 1 / not N U / has N 0 0 0 1 => 4:in/no
0 64 5 2;; ball A => 4:line 
0 64 5 1;--workers 0; full U => 4:
0 64 16 3;; half Aa -1 0 0 0 closed / half Ab 1 0 0 -1 closed / half Ac 0 -1 0 0 closed / \
    half Ad 0 1 0 -1 closed / half Ae 0 0 -1 0 closed / half Af 0 0 1 -1 closed / and Ag Aa Ab / \
    and Ah Ag Ac / and Ai Ah Ad / and Aj Ai Ae / and A Aj Af / print A => \
    4:polyhedron A/nef3 1 16 24 12 3/v";

// The exit status of a run, and what the sink took, with `/` for line ends.
fn taken<R: Threads + Wait + Sync>(
    rt: &R,
    alloc: Global,
    words: &str,
    source: &mut MemSource,
    sink: &mut MemSink,
) -> Result<String, AllocError> {
    let status = ended(rt, alloc, words, source, sink, &OpenGate)?;
    let text = folded(alloc, sink.taken())?;
    format!(in alloc; "{}:{text}", code(&status))
}

// A source of the script, where the read with this number fails.
fn source_of(alloc: Global, script: &str, fails: u64) -> Result<MemSource, AllocError> {
    let script = unfolded(alloc, script)?;
    MemSource::new(alloc, script.as_bytes(), 10, &[fails])
}

// The sink of three numbers: its room, its most bytes in one write, and the write that fails.
fn sink_of(alloc: Global, numbers: &str) -> Option<MemSink> {
    let (room, rest) = numbers.split_once(' ')?;
    let (most, fails) = rest.split_once(' ')?;
    let (room, most): (usize, usize) = (room.parse().ok()?, most.parse().ok()?);
    if most == 0 {
        return None;
    }
    MemSink::new(alloc, room, most, &[fails.parse().ok()?]).ok()
}

// Whether a run with a source and a sink of these numbers gives what is wanted.
fn fails<R: Threads + Wait + Sync>(
    rt: &R,
    alloc: Global,
    numbers: &str,
    words: &str,
    script: &str,
    wanted: &str,
) -> Option<bool> {
    let (read, numbers) = numbers.split_once(' ')?;
    let mut source = source_of(alloc, script, read.parse().ok()?).ok()?;
    let mut sink = sink_of(alloc, numbers)?;
    let taken = taken(rt, alloc, words, &mut source, &mut sink).ok()?;
    Some(taken.as_str() == wanted)
}

fn script_fails<R: Threads + Wait + Sync>(rt: &R, alloc: Global, row: &str) -> Option<bool> {
    let (numbers, wanted) = row.split_once(" => ")?;
    fails(rt, alloc, numbers, "", SCRIPT, wanted)
}

fn line_fails<R: Threads + Wait + Sync>(rt: &R, alloc: Global, row: &str) -> Option<bool> {
    let (numbers, rest) = row.split_once(';')?;
    let (words, rest) = rest.split_once("; ")?;
    let (script, wanted) = rest.split_once(" => ")?;
    fails(rt, alloc, numbers, words, script, wanted)
}

#[test]
fn failing_calls(rt: HostRuntime) {
    for row in FAULTS.split('\n') {
        check(&rt, script_fails(&rt, rt.alloc(), row), "", row);
    }
}

#[test]
fn failing_lines(rt: HostRuntime) {
    for row in LINES.split('\n') {
        check(&rt, line_fails(&rt, rt.alloc(), row), "", row);
    }
    check(
        &rt,
        Some(code(&Status::OutOfMemory) == 5),
        "",
        "out of memory",
    );
}
