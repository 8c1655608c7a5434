//! Runs of the program. No contract speaks of their results, so that the tests carry no more than they compare.

use nef_io::{Gate, MemSink, OpenGate, Sink, Source, SureSource};
use nef_shell::{Status, code, run};
use std::alloc::{AllocError, Global};
use std::process::Abort;
use std::str;
use std::sync::Wait;
use std::thread::Threads;

/// The texts between the `/`, each with a line end.
pub(crate) fn unfolded(alloc: Global, text: &str) -> Result<String, AllocError> {
    let mut lines = String::new(alloc);
    for line in text.split(" / ") {
        lines.push_str(line)?;
        lines.push('\n')?;
    }
    Ok(lines)
}

/// The words between the blanks, if there are any.
pub(crate) fn owned(alloc: Global, words: &str) -> Result<Vec<String>, AllocError> {
    let mut owned = Vec::new(alloc);
    if words.is_empty() {
        return Ok(owned);
    }
    for word in words.split(' ') {
        owned.push(String::from_str(alloc, word)?)?;
    }
    Ok(owned)
}

/// How a run with these words ends.
pub(crate) fn ended<R: Threads + Wait + Sync, S: Source, K: Sink, G: Gate + Sync>(
    rt: &R,
    alloc: Global,
    words: &str,
    source: &mut S,
    sink: &mut K,
    gate: &G,
) -> Result<Status, AllocError> {
    let words = owned(alloc, words)?;
    Ok(run(rt, alloc, &words, source, sink, gate))
}

/// How a run of the script ends under this gate.
pub(crate) fn told<R: Threads + Wait + Sync, G: Gate + Sync>(
    rt: &R,
    alloc: Global,
    words: &str,
    script: &str,
    gate: &G,
) -> Result<Status, AllocError> {
    let mut source = SureSource::new(alloc, script.as_bytes())?;
    let mut sink = MemSink::new(alloc, 64, 64, &[])?;
    ended(rt, alloc, words, &mut source, &mut sink, gate)
}

/// The exit status of a run of the script, and what was written.
pub(crate) fn worked<R: Threads + Wait + Sync>(
    rt: &R,
    alloc: Global,
    words: &str,
    script: &str,
) -> Result<(u8, String), AllocError> {
    let mut source = SureSource::new(alloc, script.as_bytes())?;
    let mut sink = MemSink::new(alloc, 32_768, 32_768, &[])?;
    let status = ended(rt, alloc, words, &mut source, &mut sink, &OpenGate)?;
    let written = String::from_str(alloc, text_of(sink.taken()))?;
    Ok((code(&status), written))
}

pub(crate) fn text_of(bytes: &[u8]) -> &str {
    str::from_utf8(bytes).unwrap_or("no text")
}

/// What was written, with `/` for line ends.
pub(crate) fn folded(alloc: Global, bytes: &[u8]) -> Result<String, AllocError> {
    text_of(bytes).replace(alloc, "\n", "/")
}

/// Whether a run of the script with these words ends with the status and writes the output.
pub(crate) fn gives<R: Threads + Wait + Sync>(
    rt: &R,
    alloc: Global,
    words: &str,
    script: &str,
    status: u8,
    output: &str,
) -> Result<bool, AllocError> {
    let (ended, written) = worked(rt, alloc, words, script)?;
    Ok(ended == status && written.as_str() == output)
}

// Whether a run of the script with these words ends and writes so, with `/` between the lines of both.
fn lines_give<R: Threads + Wait + Sync>(
    rt: &R,
    alloc: Global,
    words: &str,
    script: &str,
    status: u8,
    output: &str,
) -> Result<bool, AllocError> {
    let (script, output) = (unfolded(alloc, script)?, unfolded(alloc, output)?);
    gives(rt, alloc, words, script.as_str(), status, output.as_str())
}

fn row_gives<R: Threads + Wait + Sync>(
    rt: &R,
    alloc: Global,
    words: &str,
    row: &str,
    status: u8,
) -> Option<bool> {
    let (script, output) = row.split_once(" => ")?;
    lines_give(rt, alloc, words, script, status, output).ok()
}

/// Stops the test where the row doesn't hold with these words, or couldn't be worked.
pub(crate) fn check(rt: &impl Abort, holds: Option<bool>, words: &str, row: &str) {
    assert!(rt; matches!(holds, Some(true)), "{words}: {row}");
}

/// Stops the test where a run of a row of the table with these words doesn't end with the status or write the answer.
pub(crate) fn check_rows<R: Threads + Wait + Abort + Sync>(
    rt: &R,
    alloc: Global,
    words: &str,
    table: &str,
    status: u8,
) {
    for row in table.split('\n') {
        check(rt, row_gives(rt, alloc, words, row, status), words, row);
    }
}
