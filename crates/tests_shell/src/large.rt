//! A large set, beyond each number of candidates, vertices and bytes from which on the program works in another way.

use crate::grids::grid;
use crate::runs::{check, ended, text_of};
use nef_io::{MemSink, OpenGate, SureSource};
use nef_shell::code;
use std::alloc::{AllocError, Global};
use std::process::Abort;
use std::sync::Wait;
use std::thread::Threads;

// More bytes than the text of the large set has.
const ROOM: usize = 4_194_304;

// Questions about 512 boxes, and the answers: about the complement, which has the same parts; about the union of both,
// which is the frame; and about the boxes with y and z swapped, which are the same set.
const QUESTIONS: &str =
    "count G\nnot N G\ncount N\nor U G N\nfull F\nsame U F\nturn T G 8\nsame T G\n\
    joined G 3 3 3 2 7 3 3 2\njoined G 0 0 0 1 0 0 1 2\nray G 3 3 3 2 1 0 0\nprint G\n";

const ANSWERS: &str = "4104 6156 3078 514\n4104 6156 3078 514\nsame\nsame\napart\njoined\n\
    after 4 3 3 2 not\npolyhedron G\n";

// How many lines of the text begin with `start`.
fn lines_with(text: &str, start: &str) -> usize {
    text.lines().filter(|line| line.starts_with(start)).count()
}

// Whether the text is that of 512 boxes: each adds 8 vertices, 12 edges, 6 facets, a volume to the frame's 8, 12, 6, 2.
fn is_of_boxes(text: &str) -> bool {
    text.ends_with("end\n")
        && lines_with(text, "v ") == 8 + 8 * 512
        && lines_with(text, "e ") == 12 + 12 * 512
        && lines_with(text, "f ") == 6 + 6 * 512
        && lines_with(text, "w ") == 2 + 512
}

// Whether the answers and the text of the boxes are what was written.
fn is_answered(written: &str) -> bool {
    match written.strip_prefix(ANSWERS) {
        Some(text) => is_of_boxes(text),
        None => false,
    }
}

// Whether a run with these words gives the answers and the text of the boxes.
fn is_worked<R: Threads + Wait + Sync>(
    rt: &R,
    alloc: Global,
    words: &str,
) -> Result<bool, AllocError> {
    let boxes = grid(alloc, 16)?;
    let script = format!(in alloc; "{boxes}{QUESTIONS}")?;
    let mut source = SureSource::new(alloc, script.as_bytes())?;
    let mut sink = MemSink::new(alloc, ROOM, ROOM, &[])?;
    let status = ended(rt, alloc, words, &mut source, &mut sink, &OpenGate)?;
    Ok(code(&status) == 0 && is_answered(text_of(sink.taken())))
}

fn check_boxes<R: Threads + Wait + Abort + Sync>(rt: &R, alloc: Global, words: &str) {
    check(rt, is_worked(rt, alloc, words).ok(), words, "boxes");
}

#[test]
fn by_one_worker(rt: HostRuntime) {
    check_boxes(&rt, rt.alloc(), "--text 1");
}

#[test]
fn by_most_workers(rt: HostRuntime) {
    check_boxes(&rt, rt.alloc(), "--workers 64 --text 2");
    check_boxes(&rt, rt.alloc(), "--workers 64 --board free --text 1");
}

#[test]
fn by_rounds(rt: HostRuntime) {
    check_boxes(&rt, rt.alloc(), "--ahead --workers 3 --text 2");
}
