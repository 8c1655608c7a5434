//! The top call, and the program: from the words of the command line to the exit status.

ghost use Rattle.std.specs.Prelude.{◌≡◌, ◌≤◌};
ghost use Rattle.nef_shell.specs.Prelude.{ℕ, List, Some, IfOk, IfSome, IsOk, IsErr, map, string_bytes, IfErr, exit_status, most_stairs, Rose, Grows, GrowsWithin, MatchStatus, refusal_line, words_line, options_in, RunSays, ProgramSays, status_code, IsText, HasEnded, HasNoScript, IsScriptFor, IsWorked, RunEnds, IsCollected, ProgramEnds, traffic, AreWorkable};

use crate::work::work;
use itoa::Buffer;
use nef_io::{Gate, OpenGate, Sink, Source, put_all, read_all};
use nef_script::{Script, ScriptKind, parse, stairs};
use nef_statement::Status;
use nef_words::{Options, WordsFault, line_words, read_words};
use std::alloc::{AllocError, Global};
use std::env::Args;
use std::io;
use std::process::ExitCode;
use std::sync::Wait;
use std::thread::Threads;

// The line `line L: TEXT`.
fn refusal_line(alloc: Global, line: u64, kind: ScriptKind) -> Result<Vec<u8>, AllocError>
    ensures bytes { IfOk result (λ text. text.items ≡ refusal_line line kind) }
{
    let mut number = Buffer::new();
    let mut text = Vec::from_slice(alloc, b"line ")?;
    text.extend_from_slice(number.format(line).as_bytes())?;
    text.extend_from_slice(b": ")?;
    text.extend_from_slice(kind.text().as_bytes())?;
    text.push(b'\n')?;
    Ok(text)
}

// Writes the refusal's line.
fn refuse<K: Sink>(alloc: Global, sink: &mut K, line: u64, kind: ScriptKind) -> Status
    ensures status { MatchStatus result
        ⊥
        (λ l k. (l ≡ line) × (k ≡ kind) × Grows (K.written sink.old) (K.written sink.new) (refusal_line line kind) × (K.faults sink.new ≡ K.faults sink.old))
        ⊥
        ⊥
        (Rose (K.faults sink.old) (K.faults sink.new) × GrowsWithin (K.written sink.old) (K.written sink.new) (refusal_line line kind))
        ((K.written sink.new ≡ K.written sink.old) × (K.faults sink.new ≡ K.faults sink.old)) }
{
    let Ok(text) = refusal_line(alloc, line, kind) else {
        return Status::OutOfMemory;
    };
    match put_all(sink, &text) {
        Ok(()) => Status::Refused { line, kind },
        Err(_) => Status::WriteFault,
    }
}

// Writes the line of refused words.
fn refuse_words<K: Sink>(sink: &mut K) -> Status
    ensures status { MatchStatus result
        ⊥
        (λ l k. ⊥)
        (Grows (K.written sink.old) (K.written sink.new) words_line × (K.faults sink.new ≡ K.faults sink.old))
        ⊥
        (Rose (K.faults sink.old) (K.faults sink.new) × GrowsWithin (K.written sink.old) (K.written sink.new) words_line)
        ⊥ }
{
    match put_all(sink, b"words refused\n") {
        Ok(()) => Status::Words,
        Err(_) => Status::WriteFault,
    }
}

// The script that is run: the generated one of so many boxes, where `boxes` has their number, and the
// source isn't looked at; otherwise what the source has. Where there is none, how the run ends, before a refusal is
// written.
fn script_for<S: Source>(
    alloc: Global,
    boxes: Option<u32>,
    source: &mut S,
) -> Result<Script, Status>
    requires stairs { IfSome boxes (λ n. (1 ≤ n) × (n ≤ most_stairs)) }
    ensures script { IfOk result (λ s. (bytes : List ℕ) × IsScriptFor boxes (S.rest source.old) (S.rest source.new) bytes × IsWorked bytes s.nodes s.commands) }
    ensures workable { IfOk result (λ s. AreWorkable s.nodes s.commands) }
    ensures none { IfErr result (HasNoScript boxes (S.rest source.old) (S.rest source.new) (S.faults source.old) (S.faults source.new)) }
    ensures quiet { IfOk result (λ _. S.faults source.new ≡ S.faults source.old) }
    ensures unread { (n : ℕ) → boxes ≡ Some n → S.rest source.new ≡ S.rest source.old }
{
    let bytes = match boxes {
        None => read_all(alloc, source)?,
        Some(count) => stairs(alloc, count)?,
    };
    Ok(parse(alloc, &bytes)?)
}

// Runs the script that the options choose: has it checked, and works it.
fn run_script<R: Threads + Wait + Sync, S: Source, K: Sink, G: Gate + Sync>(
    rt: &R,
    alloc: Global,
    options: &Options,
    source: &mut S,
    sink: &mut K,
    gate: &G,
) -> Status
    requires stairs { IfSome options.now.stairs (λ n. (1 ≤ n) × (n ≤ most_stairs)) }
    ensures status { (words : List (List ℕ)) → options_in words ≡ Some options.now → HasEnded words result (traffic S.rest S.faults K.written K.faults source.old source.new sink.old sink.new) }
    ensures unread { (n : ℕ) → options.now.stairs ≡ Some n → S.rest source.new ≡ S.rest source.old }
{
    let script = match script_for(alloc, options.stairs, source) {
        Ok(script) => script,
        Err(status) => match status {
            Status::Refused { line, kind } => return refuse(alloc, sink, line, kind),
            _ => return status,
        },
    };
    match work(rt, alloc, options, &script, sink, gate) {
        Ok(()) => Status::Done,
        Err(status) => status,
    }
}

/// Runs the program: reads the words and then the script, checks the whole script, and works the steps
/// of its plan (`nef_plan`) in order. What a command answers is handed to the sink when it is worked.
/// With `--ahead`, sets of a block of steps are worked ahead of it, several at the same time, where there
/// are workers for it.
///
/// `words` are those after the program's name. Where they give `--stairs N`, the script is the generated
/// one of N boxes (`stairs` of `nef_script`), which is never refused, and the source isn't looked at;
/// otherwise the script is what the source has. Each operation on sets goes through a board of the kind
/// that the words choose, by as many workers, and tells the gate of each job that a worker begins. What
/// is written doesn't depend on board, workers and gate.
/// Sets mean what the CGAL manual, "3D Boolean Operations on Nef Polyhedra", says, within the frame.
///
/// * `Done`: the sink took what the lines of the script say and nothing else; the source is at its end,
///   or, with `--stairs`, as it was. Of any two texts that are printed: they are equal exactly where
///   their sets are the same. A point of the frame belongs to what a printed text spells exactly where
///   the set holds.
/// * `Refused`: the words give no `--stairs`, the script is refused, and nothing was worked; the sink
///   took exactly `line L: TEXT` and LF.
/// * `Words`: the words are refused, and the sink took exactly `words refused` and LF. The source
///   wasn't looked at.
/// * `ReadFault`: the words give no `--stairs`, and the source's count of faults rose, or stands at its
///   last value; nothing was written.
/// * `WriteFault`: the sink's count of faults rose, or stands at its last value; the sink took some
///   front of what the words and the script define.
/// * `OutOfMemory`: memory was wanted and not found; the sink took some front of it.
///
/// The source's count of faults stays as it was but at `ReadFault`, and the sink's but at `WriteFault`. Where no count
/// rises, each status comes where its cause holds, unless memory is wanted. Runs that are asked for the same write fronts
/// of one output, however they end ([`nef_statement::statement_laws`]).
pub fn run<R: Threads + Wait + Sync, S: Source, K: Sink, G: Gate + Sync>(
    rt: &R,
    alloc: Global,
    words: &[String],
    source: &mut S,
    sink: &mut K,
    gate: &G,
) -> Status
    ensures says { RunSays IsText (map string_bytes words.now) result (traffic S.rest S.faults K.written K.faults source.old source.new sink.old sink.new) }
    ensures ends { RunEnds (map string_bytes words.now) result (traffic S.rest S.faults K.written K.faults source.old source.new sink.old sink.new) }
{
    match read_words(alloc, words) {
        Ok(options) => run_script(rt, alloc, &options, source, sink, gate),
        Err(WordsFault::Refused) => refuse_words(sink),
        Err(WordsFault::OutOfMemory) => Status::OutOfMemory,
    }
}

/// The exit status of the program, 0 to 5 in the order of the variants. It takes no memory.
pub fn code(status: &Status) -> u8
    ensures code { result ≡ status_code status.now }
{
    match status {
        Status::Done => 0,
        Status::Refused { .. } => 1,
        Status::Words => 2,
        Status::ReadFault => 3,
        Status::WriteFault => 4,
        Status::OutOfMemory => 5,
    }
}

// All words of the command line, or why they can't be had. It fails for want of memory alone.
fn collected(alloc: Global, line: io::Result<Args>) -> Result<io::Result<Vec<String>>, AllocError>
    ensures words { IfOk result (λ all. IsCollected line all) }
    ensures memory { IsErr result → IsOk line }
{
    match line {
        Ok(args) => Ok(Ok(args.collect(alloc)?)),
        Err(error) => Ok(Err(error)),
    }
}

/// The whole program: [`run`] with the words behind the program's name, of those that `std::env::args`
/// gave, and the exit status of its answer, which is 0 to 5 in the order of [`Status`]. Where a word
/// isn't text, the words are refused. Where they can't be had for another reason, memory is wanted for
/// them, nothing is read and written, and the status is that of `OutOfMemory`. No job is held back: its
/// gate is an [`OpenGate`].
///
/// `main` returns what this gives for standard input and output: a `FromReader` of the one and an
/// `IntoWriter` of the other.
pub fn program<R: Threads + Wait + Sync, S: Source, K: Sink>(
    rt: &R,
    alloc: Global,
    line: io::Result<Args>,
    source: &mut S,
    sink: &mut K,
) -> ExitCode
    ensures says { ProgramSays IsText line (exit_status result) (traffic S.rest S.faults K.written K.faults source.old source.new sink.old sink.new) }
    ensures ends { ProgramEnds line (exit_status result) (traffic S.rest S.faults K.written K.faults source.old source.new sink.old sink.new) }
{
    let Ok(line) = collected(alloc, line) else {
        return ExitCode::from(code(&Status::OutOfMemory));
    };
    let status = match line_words(&line) {
        Ok(words) => run(rt, alloc, words, source, sink, &OpenGate),
        Err(WordsFault::Refused) => refuse_words(sink),
        Err(WordsFault::OutOfMemory) => Status::OutOfMemory,
    };
    ExitCode::from(code(&status))
}
