//! When answers are written, and in how many pieces.

use crate::runs::{check, ended, unfolded};
use nef_io::{Failed, Gate, Sink, SureSource};
use nef_shell::code;
use std::alloc::{AllocError, Global};
use std::sync::Wait;
use std::sync::atomic::{AtomicU64, Ordering};
use std::thread::Threads;

// A sink that takes each piece whole, and counts the pieces.
#[derive(Drop)]
struct Counted<'a> {
    pieces: &'a AtomicU64,
}

impl Sink for Counted<'_> {
    ghost use Rattle.std.specs.Prelude.{None};

    ghost written = { λ s. None };

    ghost faults = { λ s. 0 };

    fn write(&mut self, piece: &[u8]) -> Result<usize, Failed> {
        self.pieces.fetch_add(1, Ordering::SeqCst);
        Ok(piece.len())
    }
}

// A gate that counts the jobs it hears of before the first piece was written, and those after.
#[derive(Drop)]
struct Hearing<'a> {
    pieces: &'a AtomicU64,
    before: AtomicU64,
    after: AtomicU64,
}

impl Gate for Hearing<'_> {
    fn before(&self, _job: u64, _free: bool) {
        if self.pieces.load(Ordering::SeqCst) == 0 {
            self.before.fetch_add(1, Ordering::SeqCst);
        } else {
            self.after.fetch_add(1, Ordering::SeqCst);
        }
    }
}

// The exit status, the number of pieces, and the jobs that the gate hears of before the first piece and after it.
fn heard<R: Threads + Wait + Sync>(
    rt: &R,
    alloc: Global,
    script: &str,
) -> Result<String, AllocError> {
    let pieces = AtomicU64::new(0);
    let gate = Hearing {
        pieces: &pieces,
        before: AtomicU64::new(0),
        after: AtomicU64::new(0),
    };
    let mut source = SureSource::new(alloc, script.as_bytes())?;
    let mut sink = Counted { pieces: &pieces };
    let status = ended(rt, alloc, "", &mut source, &mut sink, &gate)?;
    let before = gate.before.load(Ordering::SeqCst);
    let after = gate.after.load(Ordering::SeqCst);
    let count = pieces.load(Ordering::SeqCst);
    format!(in alloc; "{} {count} {before} {after}.", code(&status))
}

// Whether the text of `heard` begins with `wanted`.
fn begins<R: Threads + Wait + Sync>(
    rt: &R,
    alloc: Global,
    script: &str,
    wanted: &str,
) -> Result<bool, AllocError> {
    let heard = heard(rt, alloc, script)?;
    Ok(heard.starts_with(wanted))
}

// Questions beyond the number of names that a script may have.
fn many_questions(alloc: Global) -> Result<String, AllocError> {
    let mut script = String::from_str(alloc, "full U\n")?;
    for _ in 0..70_000 {
        script.push_str("has U 0 0 0 1\n")?;
    }
    Ok(script)
}

fn are_whole<R: Threads + Wait + Sync>(rt: &R, alloc: Global) -> Result<bool, AllocError> {
    let script = many_questions(alloc)?;
    begins(rt, alloc, script.as_str(), "0 70000 ")
}

// Scripts, and the beginning of what is heard: two half-spaces of twelve jobs each, with a question between them, with
// both questions behind, and with one question, which needs the first set alone; answers of several lines; a refusal.
const HEARD: &str =
    "half A 1 0 0 0 closed / has A 0 0 0 1 / half B 1 0 0 0 open / has B 0 0 0 1 => 0 2 12 12.
half A 1 0 0 0 closed / half B 1 0 0 0 open / has B 0 0 0 1 / has A 0 0 0 1 => 0 2 12 12.
half A 1 0 0 0 closed / half B 1 0 0 0 open / has A 0 0 0 1 => 0 1 12 12.
empty E / count E / print E / has E 0 0 0 1 / same E E => 0 4 
ball A => 1 1 ";

fn row_begins<R: Threads + Wait + Sync>(rt: &R, alloc: Global, row: &str) -> Option<bool> {
    let (script, wanted) = row.split_once(" => ")?;
    let script = unfolded(alloc, script).ok()?;
    begins(rt, alloc, script.as_str(), wanted).ok()
}

#[test]
fn whole_pieces_as_worked(rt: HostRuntime) {
    for row in HEARD.split('\n') {
        check(&rt, row_begins(&rt, rt.alloc(), row), "", row);
    }
    check(&rt, are_whole(&rt, rt.alloc()).ok(), "", "many questions");
}
