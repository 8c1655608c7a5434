//! Sources and sinks in memory: a source and a sink that never fail, and a source and a sink whose listed calls fail.
ghost use Rattle.std.specs.Prelude.{◌≡◌, ◌-◌, ◌<◌, ◌≤◌, ◌⊎◌, ◌++◌, [], Some, IfOk, IsErr, MatchResult, length, vec_len, min, take, drop, ◌↔◌, Contains, ◌+◌, ℕ, List, true, false};
ghost use Rattle.nef_io.specs.Memory.{last_count, counted, SourceState, SinkState, SinkBytes, written_of};
ghost use Rattle.nef_io.specs.Bytes.{Rose};

use crate::OutOfMemory;
use crate::traits::{Failed, Sink, Source};
use std::alloc::Global;
use std::marker::Model;

/// A source that gives its bytes, and never fails. Clauses see the list of the bytes that are left.
#[derive(Drop)]
pub struct SureSource {
    bytes: Vec<u8>,
    at: usize,
}

impl Model for SureSource {
    ghost Value = { List ℕ };

    ghost view = { λ s. drop s.at s.bytes.items };

    ghost invariant = { λ s. s.at ≤ vec_len s.bytes };
}

impl SureSource {
    /// A source of a copy of `bytes`.
    pub fn new(alloc: Global, bytes: &[u8]) -> Result<SureSource, OutOfMemory>
        ensures { IfOk result (λ s. s ≡ bytes.now) }
    {
        let bytes = Vec::from_slice(alloc, bytes)?;
        Ok(SureSource { bytes, at: 0 })
    }
}

impl Source for SureSource {
    ghost rest = { λ s. Some s };

    ghost faults = { λ s. 0 };

    /// Gives all bytes that are left, or as many as `buf` holds.
    fn read(&mut self, buf: &mut [u8]) -> Result<usize, Failed>
        ensures gives { result ≡ Ok (min (length self.old) (length buf.old)) }
        ensures buffer { buf.new ≡ take (length buf.old) self.old ++ drop (length self.old) buf.old }
        ensures rest { self.new ≡ drop (length buf.old) self.old }
    {
        let left = self.bytes.len() - self.at;
        let count = left.min(buf.len());
        let end = self.at + count;
        buf[..count].copy_from_slice(&self.bytes[self.at..end]);
        self.at = end;
        Ok(count)
    }
}

/// A sink that writes from the front of a buffer, takes each piece whole, and never fails. A piece that fits into the
/// rest of the buffer is kept. Another is taken and not kept, and from then on the sink doesn't tell what was written.
#[derive(Drop)]
pub struct SureSink<'a> {
    buffer: &'a mut [u8],
    at: usize,
    lost: bool,
}

impl<'a> Model for SureSink<'a> {
    ghost Value = { SinkBytes };

    ghost view = { λ s. record { bytes = take s.at s.buffer.now; free = length s.buffer.now - s.at; lost = s.lost } };

    ghost invariant = { λ s. s.at ≤ length s.buffer.now };
}

impl<'a> SureSink<'a> {
    /// A sink that has kept nothing, over the whole of `buffer`.
    pub fn new(buffer: &'a mut [u8]) -> SureSink<'a>
        ensures { result ≡ record { bytes = []; free = length buffer.old; lost = false } }
    {
        SureSink {
            buffer,
            at: 0,
            lost: false,
        }
    }

    /// The bytes that were kept: all that was written, where the sink tells what was written.
    pub fn kept(&self) -> &[u8]
        ensures { result.now ≡ self.now.bytes }
    {
        &self.buffer[..self.at]
    }
}

impl Sink for SureSink<'_> {
    ghost written = { written_of };

    ghost faults = { λ s. 0 };

    /// Takes the whole piece.
    fn write(&mut self, piece: &[u8]) -> Result<usize, Failed>
        ensures takes { result ≡ Ok (length piece.now) }
        ensures kept { length piece.now ≤ self.old.free → self.new ≡ record { bytes = self.old.bytes ++ piece.now; free = self.old.free - length piece.now; lost = self.old.lost } }
        ensures lost { self.old.free < length piece.now → self.new ≡ record self.old { lost = true } }
    {
        let end = self.at + piece.len();
        if end <= self.buffer.len() {
            self.buffer[self.at..end].copy_from_slice(piece);
            self.at = end;
        } else {
            self.lost = true;
        }
        Ok(piece.len())
    }
}

/// The counts of a [`SureSource`] and of a [`SureSink`] never rise. So a fault that comes with a risen count isn't
/// theirs.
pub fn sure_counts()
    ensures source { (old new : List ℕ) → ¬ (Rose (⟦<SureSource as Source>⟧.faults old) (⟦<SureSource as Source>⟧.faults new)) }
    ensures sink { (old new : SinkBytes) → ¬ (Rose (⟦<SureSink<'static> as Sink>⟧.faults old) (⟦<SureSink<'static> as Sink>⟧.faults new)) }
{}

/// How many calls were made, how many of them failed, and the numbers of the calls that are to fail.
#[derive(Drop)]
struct Calls {
    fails: Vec<u64>,
    made: u64,
    faults: u64,
}

impl Calls {
    fn new(alloc: Global, fails: &[u64]) -> Result<Calls, OutOfMemory>
        ensures { IfOk result (λ c. (c.fails.items ≡ fails.now) × (c.made ≡ 0) × (c.faults ≡ 0)) }
    {
        let fails = Vec::from_slice(alloc, fails)?;
        Ok(Calls {
            fails,
            made: 0,
            faults: 0,
        })
    }

    // Counts one more call, and fails where its number is listed. A number past the counter's last value isn't listed.
    fn begin(&mut self) -> Result<(), Failed>
        ensures failed { IsErr result ↔ Contains self.old.fails.items (self.old.made + 1) }
        ensures fails { self.new.fails.items ≡ self.old.fails.items }
        ensures made { self.new.made ≡ counted self.old.made }
        ensures faults { MatchResult result (λ _. self.new.faults ≡ self.old.faults) (λ _. self.new.faults ≡ counted self.old.faults) }
    {
        let number = u128::from(self.made) + 1;
        let listed = self.fails.iter().any(|fail| u128::from(*fail) == number);
        self.made = self.made.saturating_add(1);
        if listed {
            return Err(self.fault());
        }
        Ok(())
    }

    fn fault(&mut self) -> Failed
        ensures { self.new ≡ record self.old { faults = counted self.old.faults } }
    {
        self.faults = self.faults.saturating_add(1);
        Failed
    }
}

/// A source in memory that gives a limited number of bytes a read, and fails at listed reads. Clauses see its state.
#[derive(Drop)]
pub struct MemSource {
    bytes: Vec<u8>,
    at: usize,
    most: usize,
    calls: Calls,
}

impl Model for MemSource {
    ghost Value = { SourceState };

    ghost view = { λ s. record { rest = drop s.at s.bytes.items; most = s.most; fails = s.calls.fails.items; calls = s.calls.made; faults = s.calls.faults } };

    ghost invariant = { λ s. (s.at ≤ vec_len s.bytes) × (0 < s.most) };
}

impl MemSource {
    /// A source of a copy of `bytes` that gives at most `most` bytes a read. The listed reads fail, counted from 1.
    pub fn new(
        alloc: Global,
        bytes: &[u8],
        most: usize,
        fails: &[u64],
    ) -> Result<MemSource, OutOfMemory>
        requires { 1 ≤ most }
        ensures { IfOk result (λ s. s ≡ record { rest = bytes.now; most = most; fails = fails.now; calls = 0; faults = 0 }) }
    {
        let bytes = Vec::from_slice(alloc, bytes)?;
        let calls = Calls::new(alloc, fails)?;
        Ok(MemSource {
            bytes,
            at: 0,
            most,
            calls,
        })
    }
}

impl Source for MemSource {
    ghost rest = { λ s. Some s.rest };

    ghost faults = { λ s. min s.faults last_count };

    /// Fails exactly where the number of this read is listed.
    fn read(&mut self, buf: &mut [u8]) -> Result<usize, Failed>
        requires { 0 < length buf.old }
        ensures failed { IsErr result ↔ Contains self.old.fails (self.old.calls + 1) }
        ensures gives { IfOk result (λ n. n ≡ min (min (length self.old.rest) (length buf.old)) self.old.most) }
        ensures end { IfOk result (λ n. n ≡ 0 → self.new.rest ≡ []) }
        ensures buffer { IfOk result (λ n. buf.new ≡ take n self.old.rest ++ drop n buf.old) }
        ensures after { MatchResult result
            (λ n. self.new ≡ record self.old { rest = drop n self.old.rest; calls = counted self.old.calls })
            (λ _. self.new ≡ record self.old { calls = counted self.old.calls; faults = counted self.old.faults }) }
    {
        self.calls.begin()?;
        let left = self.bytes.len() - self.at;
        let count = left.min(buf.len()).min(self.most);
        let end = self.at + count;
        buf[..count].copy_from_slice(&self.bytes[self.at..end]);
        self.at = end;
        Ok(count)
    }
}

/// A sink in memory that takes at most a fixed number of bytes a write, and fails at the writes whose numbers are
/// listed, and where no room is left. Clauses see its state.
#[derive(Drop)]
pub struct MemSink {
    room: Vec<u8>,
    at: usize,
    most: usize,
    calls: Calls,
}

impl Model for MemSink {
    ghost Value = { SinkState };

    ghost view = { λ s. record { taken = take s.at s.room.items; free = vec_len s.room - s.at; most = s.most; fails = s.calls.fails.items; calls = s.calls.made; faults = s.calls.faults } };

    ghost invariant = { λ s. (s.at ≤ vec_len s.room) × (0 < s.most) };
}

impl MemSink {
    /// A sink with room for `room` bytes that takes at most `most` bytes a write. The writes that `fails` lists fail;
    /// the first write has the number 1. All the room is made here, so that a write takes no memory.
    pub fn new(
        alloc: Global,
        room: usize,
        most: usize,
        fails: &[u64],
    ) -> Result<MemSink, OutOfMemory>
        requires { 1 ≤ most }
        ensures { IfOk result (λ s. s ≡ record { taken = []; free = room; most = most; fails = fails.now; calls = 0; faults = 0 }) }
    {
        let room = vec![in alloc; 0; room]?;
        let calls = Calls::new(alloc, fails)?;
        Ok(MemSink {
            room,
            at: 0,
            most,
            calls,
        })
    }

    /// The bytes that the sink took.
    pub fn taken(&self) -> &[u8]
        ensures { result.now ≡ self.now.taken }
    {
        &self.room[..self.at]
    }
}

impl Sink for MemSink {
    ghost written = { λ s. Some s.taken };

    ghost faults = { λ s. min s.faults last_count };

    /// Fails exactly where the number of this write is listed, or no room is left.
    fn write(&mut self, piece: &[u8]) -> Result<usize, Failed>
        requires { 0 < length piece.now }
        ensures failed { IsErr result ↔ (Contains self.old.fails (self.old.calls + 1) ⊎ (self.old.free ≡ 0)) }
        ensures takes { IfOk result (λ n. n ≡ min (min self.old.free (length piece.now)) self.old.most) }
        ensures within { IfOk result (λ n. (0 < n) × (n ≤ length piece.now)) }
        ensures after { MatchResult result
            (λ n. self.new ≡ record self.old { taken = self.old.taken ++ take n piece.now; free = self.old.free - n; calls = counted self.old.calls })
            (λ _. self.new ≡ record self.old { calls = counted self.old.calls; faults = counted self.old.faults }) }
    {
        self.calls.begin()?;
        let left = self.room.len() - self.at;
        let count = left.min(piece.len()).min(self.most);
        if count == 0 {
            return Err(self.calls.fault());
        }
        let end = self.at + count;
        self.room[self.at..end].copy_from_slice(&piece[..count]);
        self.at = end;
        Ok(count)
    }
}
