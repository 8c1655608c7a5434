//! Std's readers and writers as a source and a sink. Nothing tells what standard input gave, and only its own answers
//! tell what standard output took: for this these few lines are trusted.
ghost use Rattle.std.specs.Prelude.{◌≡◌, ℕ, List, ◌<◌, ◌≤◌, ◌++◌, Some, IfOk, OnOk, OnErr, length, take};
ghost use Rattle.std.specs.Borrow.{ftrue};
ghost use Rattle.std.specs.Io.KnownBytes.{Appends, Keeps};
ghost use Rattle.std.proofs.Props.{props};
ghost use Rattle.nef_io.specs.Bytes.{Rose};
ghost use Rattle.nef_io.specs.Telling.{AlwaysTells, told_bytes};

use crate::traits::{Failed, Sink, Source};
use std::io::{Read, Write};
use std::marker::Model;

/// A reader as a source, which tells what the reader tells and counts each error of the reader.
#[derive(Drop)]
pub struct FromReader<R> {
    reader: R,
    faults: u64,
}

impl<R: Read> FromReader<R> {
    /// A source over `reader`, with no fault so far.
    pub fn new(reader: R) -> FromReader<R>
        ensures rest { ⟦<FromReader<R> as Source>⟧.rest result ≡ R.remaining reader }
        ensures faults { ⟦<FromReader<R> as Source>⟧.faults result ≡ 0 }
    {
        FromReader { reader, faults: 0 }
    }
}

impl<R: Read> Source for FromReader<R> {
    ghost rest = { λ s. R.remaining s.reader };

    ghost faults = { λ s. s.faults };

    fn read(&mut self, buf: &mut [u8]) -> Result<usize, Failed> {
        match self.reader.read(buf) {
            Ok(taken) => Ok(taken),
            Err(_) => {
                self.faults = self.faults.saturating_add(1);
                Err(Failed)
            }
        }
    }
}

// The bytes that a writer took so far, for clauses alone: no memory is taken.
#[derive(Drop)]
struct Taken {
    ghost bytes: { List ℕ },
}

impl Model for Taken {
    ghost also_owns = { λ _. ftrue };
}

impl Taken {
    // These bytes to begin with, which may be told of the writer.
    fn new<W>(_writer: &W) -> Taken
        ghost bytes: { List ℕ }
        ensures { result.bytes ≡ bytes }
    {
        Taken {}
    }

    // Adds the piece behind the bytes that were taken before.
    fn note(&mut self, _piece: &[u8])
        ensures { self.new.bytes ≡ self.old.bytes ++ _piece.now }
    {}
}

/// A writer as a sink. The sink tells the bytes that the writer held and told when the sink was made, and behind them
/// the bytes that the writer has since answered to have taken. So if a writer always tells what it holds, the sink
/// tells the same. Errors are counted, and so are writes that took nothing of a piece that isn't empty.
#[derive(Drop)]
pub struct IntoWriter<W: Write> {
    writer: W,
    taken: Taken,
    faults: u64,
    ghost held: { AlwaysTells W.contents → W.contents writer ≡ Some taken.bytes } by { Prim.hlevel props },
}

impl<W: Write> IntoWriter<W> {
    /// A sink over `writer`, with no fault so far.
    pub fn new(writer: W) -> IntoWriter<W>
        ensures written { ⟦<IntoWriter<W> as Sink>⟧.written result ≡ Some (told_bytes (W.contents writer)) }
        ensures faults { ⟦<IntoWriter<W> as Sink>⟧.faults result ≡ 0 }
    {
        let taken = Taken::new(&writer);
        IntoWriter {
            writer,
            taken,
            faults: 0,
        }
    }

    /// The writer, which holds what the sink tells if the writer always tells what it holds.
    pub fn into_inner(self) -> W
        ensures held { AlwaysTells W.contents → W.contents result ≡ ⟦<IntoWriter<W> as Sink>⟧.written self }
    {
        self.writer
    }
}

impl<W: Write> Sink for IntoWriter<W> {
    ghost written = { λ s. Some s.taken.bytes };

    ghost faults = { λ s. s.faults };

    /// Where the writer tells what it holds, the taken bytes come behind what the writer held.
    fn write(&mut self, piece: &[u8]) -> Result<usize, Failed>
        ensures within { IfOk result (λ n. (0 < n) × (n ≤ length piece.now)) }
        ensures taken { IfOk result (λ n. self.new.taken.bytes ≡ self.old.taken.bytes ++ take n piece.now) }
        ensures untaken { OnErr result (self.new.taken.bytes ≡ self.old.taken.bytes) }
        ensures holds { IfOk result (λ n. Appends (W.contents self.old.writer) (W.contents self.new.writer) (take n piece.now)) }
        ensures keeps { OnErr result (Keeps (W.contents self.old.writer) (W.contents self.new.writer)) }
        ensures failed { OnErr result (Rose self.old.faults self.new.faults) }
        ensures quiet { OnOk result (self.new.faults ≡ self.old.faults) }
        ensures count { self.old.faults ≤ self.new.faults }
    {
        match self.writer.write(piece) {
            Ok(count) if count > 0 => {
                self.taken.note(&piece[..count]);
                Ok(count)
            }
            _ => {
                self.faults = self.faults.saturating_add(1);
                Err(Failed)
            }
        }
    }
}
