//! Runs of the generated script, and runs that leave the source unread.

use crate::runs::{check, ended, folded, gives, text_of, worked};
use crate::texts::has_part;
use nef_io::{MemSink, MemSource, OpenGate};
use nef_script::stairs;
use std::alloc::{AllocError, Global};
use std::sync::Wait;
use std::thread::Threads;

// A vertex with an arc of three quarters of a circle, behind the vertex's number.
const VERTEX: &str = "16 v 12 8 8 1 i - / s 0 0 1 i - / s 0 1 0 i - / s 1 0 0 i - / \
    a 2 1 0 0 1 i i n / a 0 2 0 1 0 i i n / a 0 1 1 0 0 i n i";

// Which read of the source fails, if one does, and words; and how two runs on one source end and what they write, with
// `/` for line ends: one with the words, and one without words, which finds the refused script or the failing read.
const UNREAD: &str =
    "0; x => Words: words refused/ => Refused { line: 1, kind: UnknownCommand }: line 1: unknown command/
0; --stairs 1 => Done: 16 24 12 3/ => Refused { line: 1, kind: UnknownCommand }: line 1: unknown command/
0; --stairs 2 => Done: 28 42 18 3/ => Refused { line: 1, kind: UnknownCommand }: line 1: unknown command/
1; --stairs=1 --workers 2 --board free => Done: 16 24 12 3/ => ReadFault: ";

const MOST_BOXES: &str = "0; --stairs 32 => Done: 388 582 198 3/ => \
    Refused { line: 1, kind: UnknownCommand }: line 1: unknown command/";

// How the run ends, and what the run writes.
fn told<R: Threads + Wait + Sync>(
    rt: &R,
    alloc: Global,
    words: &str,
    source: &mut MemSource,
) -> Result<String, AllocError> {
    let mut sink = MemSink::new(alloc, 64, 64, &[])?;
    let status = ended(rt, alloc, words, source, &mut sink, &OpenGate)?;
    let taken = folded(alloc, sink.taken())?;
    format!(in alloc; "{status:?}: {taken}")
}

// Whether a run with these words, and then a run without words, end and write as wanted.
fn are_told<R: Threads + Wait + Sync>(
    rt: &R,
    alloc: Global,
    words: &str,
    fails: u64,
    wanted: &str,
) -> Result<bool, AllocError> {
    let mut source = MemSource::new(alloc, b"ball A\n", 10, &[fails])?;
    let first = told(rt, alloc, words, &mut source)?;
    let second = told(rt, alloc, "", &mut source)?;
    let both = format!(in alloc; "{first} => {second}")?;
    Ok(both.as_str() == wanted)
}

fn holds<R: Threads + Wait + Sync>(rt: &R, alloc: Global, row: &str) -> Option<bool> {
    let (fails, rest) = row.split_once("; ")?;
    let (words, wanted) = rest.split_once(" => ")?;
    are_told(rt, alloc, words, fails.parse().ok()?, wanted).ok()
}

// A script of the half `{name}122`: the intersection of 123 halves with this normal, of which it is the least.
fn nested(alloc: Global, name: &str, normal: &str) -> Result<String, AllocError> {
    let mut script = format!(in alloc; "half {name}0 {normal} 0 closed\n")?;
    for number in 1..=122u32 {
        let before = number - 1;
        let lines = format!(in alloc;
            "half {name}h{number} {normal} -{number} closed\nand {name}{number} {name}{before} {name}h{number}\n"
        )?;
        script.push_str(lines.as_str())?;
    }
    Ok(script)
}

#[test]
fn unread(rt: HostRuntime) {
    for row in UNREAD.split('\n') {
        check(&rt, holds(&rt, rt.alloc(), row), "", row);
    }
}

#[test]
fn most_boxes(rt: HostRuntime) {
    check(&rt, holds(&rt, rt.alloc(), MOST_BOXES), "", MOST_BOXES);
}

// Whether the generated script, read from the source with a line more, prints `VERTEX`.
fn has_arc<R: Threads + Wait + Sync>(rt: &R, alloc: Global) -> Result<bool, AllocError> {
    let boxes = stairs(alloc, 2)?;
    let script = format!(in alloc; "{}print u1\n", text_of(boxes.as_slice()))?;
    let (status, text) = worked(rt, alloc, "", script.as_str())?;
    let is_printed = text.starts_with("28 42 18 3\npolyhedron u1\n");
    let is_there = has_part(alloc, text.as_str(), VERTEX) == Some(true);
    Ok(status == 0 && is_printed && is_there)
}

#[test]
fn arc_of_three_quarters(rt: HostRuntime) {
    check(&rt, has_arc(&rt, rt.alloc()).ok(), "", VERTEX);
}

// Whether a set of many carriers is the same as one of few: each operand has the frame's 6 carriers and 123 of its own.
fn are_same<R: Threads + Wait + Sync>(rt: &R, alloc: Global) -> Result<bool, AllocError> {
    let (first, second) = (nested(alloc, "p", "1 0 0")?, nested(alloc, "q", "0 1 0")?);
    let script = format!(in alloc;
        "{first}{second}and many p122 q122\nhalf p 1 0 0 0 closed\nhalf q 0 1 0 0 closed\nand few p q\nsame many few\n"
    )?;
    gives(rt, alloc, "--workers 4", script.as_str(), 0, "same\n")
}

#[test]
fn sets_with_many_carriers(rt: HostRuntime) {
    check(
        &rt,
        are_same(&rt, rt.alloc()).ok(),
        "--workers 4",
        "many carriers",
    );
}
