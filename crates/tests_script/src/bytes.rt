//! Bytes from sources and into sinks, and reads and writes that fail.

ghost use Rattle.std.specs.Prelude.{◌≡◌, ◌++◌};
ghost use Rattle.nef_geo.specs.Prelude.{IfOk};

use crate::same::{check, check_bytes};
use nef_io::{
    Failed, FromReader, Gate, INPUT_LIMIT, IntoWriter, MemSink, MemSource, OpenGate, OutOfMemory,
    ReadAll, Sink, Source, SureSink, SureSource, put_all, read_all,
};
use std::alloc::Global;
use std::process::Abort;
use std::test::Fail;

// A script of 70 bytes: two half-spaces, and a question about each.
const SCRIPT: &str = "half A 1 0 0 0 closed\nhas A 0 0 0 1\nhalf B 1 0 0 0 open\nhas B 0 0 0 1\n";

// Stops the test where the source doesn't give the script.
fn check_script<S: Source>(rt: &impl Abort, alloc: Global, source: &mut S) {
    let bytes = read_all(alloc, source).expect(rt, "no read fails");
    check_bytes(rt, bytes.as_slice(), SCRIPT.as_bytes(), "the script");
}

#[test]
fn sure_source(rt: HostRuntime) -> Result<(), Fail> {
    let mut source = SureSource::new(rt.alloc(), SCRIPT.as_bytes())?;
    check_script(&rt, rt.alloc(), &mut source);
    Ok(())
}

// Stops the test where the sink doesn't accept the piece.
fn check_put<K: Sink>(rt: &impl Abort, sink: &mut K, piece: &str) {
    check(rt, &put_all(sink, piece.as_bytes()), &Ok(()), piece);
}

// Stops the test where the sink accepts the piece.
fn check_refused<K: Sink>(rt: &impl Abort, sink: &mut K, piece: &str) {
    check(rt, &put_all(sink, piece.as_bytes()), &Err(Failed), piece);
}

// The second of three pieces doesn't fit, and is left out.
#[test]
fn sure_sink(rt: HostRuntime) {
    let mut room = [0u8; 8];
    let mut sink = SureSink::new(&mut room);
    check_put(&rt, &mut sink, "in\n");
    check_put(&rt, &mut sink, "not in\n");
    check_put(&rt, &mut sink, "not\n");
    check_bytes(&rt, sink.kept(), b"in\nnot\n", "what fits");
    OpenGate.before(0, true);
}

// How many bytes the source gives.
fn length_read<S: Source>(alloc: Global, source: &mut S) -> Result<usize, ReadAll> {
    let bytes = read_all(alloc, source)?;
    Ok(bytes.len())
}

// How many of `count` line feeds are read.
fn feeds_read(alloc: Global, count: usize) -> Result<Result<usize, ReadAll>, OutOfMemory> {
    let feeds = vec![in alloc; b'\n'; count]?;
    let mut source = SureSource::new(alloc, &feeds)?;
    Ok(length_read(alloc, &mut source))
}

#[test]
fn longest_input(rt: HostRuntime) -> Result<(), Fail> {
    let longest = feeds_read(rt.alloc(), INPUT_LIMIT)?;
    check(&rt, &longest, &Ok(1_048_576), "the longest input");
    let longer = feeds_read(rt.alloc(), INPUT_LIMIT + 1)?;
    check(&rt, &longer, &Err(ReadAll::TooLong), "a longer one");
    Ok(())
}

#[test]
fn from_reader(rt: HostRuntime) {
    let mut source = FromReader::new(SCRIPT.as_bytes());
    check_script(&rt, rt.alloc(), &mut source);
}

// The bytes of a sink that took two pieces. The result is always the bytes, so that the clause can state them.
fn held(alloc: Global, first: &[u8], second: &[u8]) -> Result<Vec<u8>, Failed>
    ensures { IfOk result (λ v. v.items ≡ first.now ++ second.now) }
{
    let mut sink = IntoWriter::new(Vec::new(alloc));
    put_all(&mut sink, first)?;
    put_all(&mut sink, second)?;
    Ok(sink.into_inner())
}

#[test]
fn into_writer(rt: HostRuntime) -> Result<(), Fail> {
    let bytes = held(rt.alloc(), b"in\n", b"not\n")?;
    check_bytes(&rt, bytes.as_slice(), b"in\nnot\n", "two pieces");
    Ok(())
}

#[test]
fn into_full_writer(rt: HostRuntime) {
    let mut full = [0u8; 0];
    let mut sink = IntoWriter::new(full.as_mut_slice());
    check_refused(&rt, &mut sink, "in\n");
}

// The script as a source of ten bytes a read, where the read with this number fails.
fn failing_at(alloc: Global, number: u64) -> Result<MemSource, OutOfMemory> {
    MemSource::new(alloc, SCRIPT.as_bytes(), 10, &[number])
}

fn check_failing(rt: &impl Abort, alloc: Global, number: u64) -> Result<(), OutOfMemory> {
    let mut source = failing_at(alloc, number)?;
    let read = length_read(alloc, &mut source);
    check(rt, &read, &Err(ReadAll::ReadFault), "a read that fails");
    Ok(())
}

// The script of 70 bytes takes seven reads of ten bytes, and the eighth read finds the end.
#[test]
fn failing_reads(rt: HostRuntime) -> Result<(), Fail> {
    for number in 1..=8u64 {
        check_failing(&rt, rt.alloc(), number)?;
    }
    Ok(())
}

#[test]
fn reads_before_the_failing_one(rt: HostRuntime) -> Result<(), Fail> {
    let mut source = failing_at(rt.alloc(), 9)?;
    check_script(&rt, rt.alloc(), &mut source);
    Ok(())
}

// Five bytes are written at a time, and the second write fails.
#[test]
fn failing_write(rt: HostRuntime) -> Result<(), Fail> {
    let mut sink = MemSink::new(rt.alloc(), 64, 5, &[2])?;
    check_refused(&rt, &mut sink, "line 1: unknown command\n");
    check_bytes(&rt, sink.taken(), b"line ", "before the failing write");
    Ok(())
}

#[test]
fn no_room_left(rt: HostRuntime) -> Result<(), Fail> {
    let mut sink = MemSink::new(rt.alloc(), 3, 64, &[])?;
    check_put(&rt, &mut sink, "in\n");
    check_refused(&rt, &mut sink, "not\n");
    check_bytes(&rt, sink.taken(), b"in\n", "what there is room for");
    Ok(())
}

#[test]
fn writes_before_the_failing_one(rt: HostRuntime) -> Result<(), Fail> {
    let mut sink = MemSink::new(rt.alloc(), 64, 1, &[8])?;
    check_put(&rt, &mut sink, "in\nnot\n");
    check_bytes(&rt, sink.taken(), b"in\nnot\n", "seven writes");
    Ok(())
}
