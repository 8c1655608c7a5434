//! The program as it is shipped, over a reader and a writer of std where some call fails.

ghost use Rattle.nef_complex.specs.Prelude.{Some};

use crate::runs::{check, folded, owned, unfolded};
use nef_io::{FromReader, IntoWriter};
use nef_shell::program;
use std::alloc::{AllocError, Global};
use std::env::Args;
use std::io::{self, Error, ErrorKind, Read, Write};
use std::process::{Abort, ExitCode};
use std::sync::Wait;
use std::thread::Threads;

// A script of 70 bytes that writes 7 bytes in two pieces.
const SCRIPT: &str = "half A 1 0 0 0 closed / has A 0 0 0 1 / half B 1 0 0 0 open / has B 0 0 0 1";

// Which read of ten bytes fails, the most bytes that the writer takes in one write, which write fails, and which write
// takes nothing; the exit status of the script, and what the writer took, with `/` for line ends. One of the eight
// reads fails, or none; then one of the writes, also the last, fails.
const FAULTS: &str = "1 9 0 0 => 3:
2 9 0 0 => 3:
3 9 0 0 => 3:
4 9 0 0 => 3:
5 9 0 0 => 3:
6 9 0 0 => 3:
7 9 0 0 => 3:
8 9 0 0 => 3:
9 9 0 0 => 0:in/not/
0 9 1 0 => 4:
0 9 2 0 => 4:in/
0 9 3 0 => 0:in/not/
0 9 0 1 => 4:
0 9 0 2 => 4:in/
0 1 1 0 => 4:
0 1 2 0 => 4:i
0 1 3 0 => 4:in
0 1 4 0 => 4:in/
0 1 5 0 => 4:in/n
0 1 6 0 => 4:in/no
0 1 7 0 => 4:in/not
0 1 0 7 => 4:in/not
0 1 8 0 => 0:in/not/";

// Rows like those of `FAULTS`, with a command line and a script: a refused script; refused words, more than sixteen in
// two rows; a script that stays unread; and a text in writes of at most 16 bytes.
const LINES: &str =
    "0 99 0 0;nef; half A 2048 0 0 0 closed / has A 0 0 0 1 / half B 2049 0 0 0 closed => \
1:line 3: coefficient out of range/
0 5 2 0;nef; ball A => 4:line 
1 5 2 0;nef; ball A => 3:
1 99 0 0;nef --workers 0; full U => 2:words refused/
1 5 1 0;nef --workers 0; full U => 4:
1 5 0 3;nef --workers 0; full U => 4:words refu
1 99 0 0;nef a b c d e f g h i j k l m n o p q; full U => 2:words refused/
1 99 0 0;nef --workers 2 --board free --stairs 1 --text 1 --ahead a b c d e f g h; full U => 2:words refused/
1 99 0 0;nef --stairs 1; full U => 0:16 24 12 3/
1 9 2 0;nef --stairs 1 --workers 2; full U => 4:16 24 12 
0 16 3 0;nef; half Aa -1 0 0 0 closed / half Ab 1 0 0 -1 closed / half Ac 0 -1 0 0 closed / \
    half Ad 0 1 0 -1 closed / half Ae 0 0 -1 0 closed / half Af 0 0 1 -1 closed / and Ag Aa Ab / \
    and Ah Ag Ac / and Ai Ah Ad / and Aj Ai Ae / and A Aj Af / print A => \
    4:polyhedron A/nef3 1 16 24 12 3/v";

// A reader that gives at most ten bytes a read, where the read with the number `fails` fails.
#[derive(Drop)]
struct Giving<'a> {
    rest: &'a [u8],
    reads: u64,
    fails: u64,
}

impl Read for Giving<'_> {
    fn read(&mut self, buf: &mut [u8]) -> io::Result<usize> {
        self.reads = self.reads.saturating_add(1);
        if self.reads == self.fails {
            return Err(Error::from(ErrorKind::Other));
        }
        let end = buf.len().min(10);
        self.rest.read(&mut buf[..end])
    }
}

// A writer that takes at most `most` bytes a write, where the write `fails` fails and the write `idles` takes nothing.
#[derive(Drop)]
struct Taking {
    bytes: Vec<u8>,
    most: usize,
    writes: u64,
    fails: u64,
    idles: u64,
}

impl Write for Taking {
    ghost contents = { λ w. Some w.bytes.items };

    fn write(&mut self, buf: &[u8]) -> io::Result<usize> {
        self.writes = self.writes.saturating_add(1);
        if self.writes == self.fails {
            return Err(Error::from(ErrorKind::Other));
        }
        if self.writes == self.idles {
            return Ok(0);
        }
        let end = buf.len().min(self.most);
        self.bytes.write(&buf[..end])
    }

    fn flush(&mut self) -> io::Result<()> {
        Ok(())
    }
}

// The writer of three numbers: its most bytes in one write, the write that fails, and the write that takes nothing.
fn writer_of(alloc: Global, numbers: &str) -> Option<Taking> {
    let (most, rest) = numbers.split_once(' ')?;
    let (fails, idles) = rest.split_once(' ')?;
    Some(Taking {
        bytes: Vec::new(alloc),
        most: most.parse().ok()?,
        writes: 0,
        fails: fails.parse().ok()?,
        idles: idles.parse().ok()?,
    })
}

fn line_of(alloc: Global, words: &str) -> Result<Args, AllocError> {
    let words = owned(alloc, words)?;
    Ok(words.into_iter())
}

// The exit status, and what the writer took.
fn shipped<R: Threads + Wait + Sync>(
    rt: &R,
    alloc: Global,
    line: io::Result<Args>,
    reader: Giving<'_>,
    writer: Taking,
) -> (ExitCode, Vec<u8>) {
    let mut source = FromReader::new(reader);
    let mut sink = IntoWriter::new(writer);
    let code = program(rt, alloc, line, &mut source, &mut sink);
    (code, sink.into_inner().bytes)
}

// Whether the exit status and the bytes are those that are wanted, with `/` for line ends.
fn is_wanted(alloc: Global, given: &(ExitCode, Vec<u8>), wanted: &str) -> Option<bool> {
    let (status, text) = wanted.split_once(':')?;
    let status: u8 = status.parse().ok()?;
    let taken = folded(alloc, given.1.as_slice()).ok()?;
    Some(given.0 == ExitCode::from(status) && taken.as_str() == text)
}

// Whether a run with a reader and a writer of these numbers ends and writes as wanted.
fn ends<R: Threads + Wait + Sync>(
    rt: &R,
    alloc: Global,
    line: io::Result<Args>,
    numbers: &str,
    script: &str,
    wanted: &str,
) -> Option<bool> {
    let (fails, numbers) = numbers.split_once(' ')?;
    let script = unfolded(alloc, script).ok()?;
    let reader = Giving {
        rest: script.as_bytes(),
        reads: 0,
        fails: fails.parse().ok()?,
    };
    let given = shipped(rt, alloc, line, reader, writer_of(alloc, numbers)?);
    is_wanted(alloc, &given, wanted)
}

fn script_ends<R: Threads + Wait + Sync>(rt: &R, alloc: Global, row: &str) -> Option<bool> {
    let (numbers, wanted) = row.split_once(" => ")?;
    let line = line_of(alloc, "nef").ok()?;
    ends(rt, alloc, Ok(line), numbers, SCRIPT, wanted)
}

fn line_ends<R: Threads + Wait + Sync>(rt: &R, alloc: Global, row: &str) -> Option<bool> {
    let (numbers, rest) = row.split_once(';')?;
    let (words, rest) = rest.split_once("; ")?;
    let (script, wanted) = rest.split_once(" => ")?;
    let line = line_of(alloc, words).ok()?;
    ends(rt, alloc, Ok(line), numbers, script, wanted)
}

#[test]
fn failing_calls(rt: HostRuntime) {
    for row in FAULTS.split('\n') {
        check(&rt, script_ends(&rt, rt.alloc(), row), "", row);
    }
}

#[test]
fn command_lines(rt: HostRuntime) {
    for row in LINES.split('\n') {
        check(&rt, line_ends(&rt, rt.alloc(), row), "", row);
    }
}

// Stops the test where a run whose line can't be read, for a fault of this kind, ends or writes otherwise than wanted.
fn check_no_words<R: Threads + Wait + Abort + Sync>(
    rt: &R,
    alloc: Global,
    kind: ErrorKind,
    numbers: &str,
    wanted: &str,
) {
    let line = Err(Error::from(kind));
    check(
        rt,
        ends(rt, alloc, line, numbers, SCRIPT, wanted),
        "",
        numbers,
    );
}

// A word that isn't text is told as refused words, and not as want of memory.
#[test]
fn lines_without_words(rt: HostRuntime) {
    let alloc = rt.alloc();
    check_no_words(
        &rt,
        alloc,
        ErrorKind::InvalidData,
        "1 99 0 0",
        "2:words refused/",
    );
    check_no_words(
        &rt,
        alloc,
        ErrorKind::InvalidData,
        "1 5 3 0",
        "4:words refu",
    );
    check_no_words(&rt, alloc, ErrorKind::OutOfMemory, "1 99 1 0", "5:");
    check_no_words(&rt, alloc, ErrorKind::Other, "1 99 1 0", "5:");
}
