//! Sources and sinks, reading and writing to the end, and gates, which are told of each job.
ghost use Rattle.std.specs.Prelude.{◌≡◌, ℕ, false, ◌<◌, ◌≤◌, IfOk, OnOk, OnErr, Option, List, [], take, length, ◌+◌, vec_len};
ghost use Rattle.std.specs.Io.KnownBytes.{Consumes, Keeps, IsAtEnd};
ghost use Rattle.nef_io.specs.Bytes.{Rose, Grows, GrowsWithin, input_limit};

use std::alloc::{AllocError, Global};

/// A read or a write failed, as the count of faults of the object that failed tells.
#[derive(Debug, Clone, Copy, PartialEq, Eq)]
pub struct Failed;

/// Bytes to be read. `rest` is the bytes that are left, where the source tells them. `faults` is the number of failed
/// reads, which stops at the last value of a `u64`.
pub trait Source {
    ghost rest: { Self → Option (List ℕ) };

    ghost faults: { Self → ℕ };

    /// Reads the next bytes into the front of `buf`, at most as many as `buf` holds, and returns their number, which is
    /// 0 only at the end; a source that tells its rest, and has bytes left, gives at least one. At `Failed` the rest is
    /// what it was. The count rises at `Failed` alone.
    fn read(&mut self, buf: &mut [u8]) -> Result<usize, Failed>
        requires { 0 < length buf.old }
        ensures within { IfOk result (λ n. n ≤ length buf.new) }
        ensures bytes { IfOk result (λ n. Consumes (rest self.old) (rest self.new) (take n buf.new)) }
        ensures end { IfOk result (λ n. n ≡ 0 → IsAtEnd (rest self.new)) }
        ensures failed { OnErr result (Rose (faults self.old) (faults self.new) × Keeps (rest self.old) (rest self.new)) }
        ensures quiet { OnOk result (faults self.new ≡ faults self.old) }
        ensures count { faults self.old ≤ faults self.new };
}

/// A taker of bytes. `written` is the bytes written so far, where the sink tells them. A sink that tells after a call
/// told before the call. `faults` is the number of failed writes, which stops at the last value of a `u64`.
pub trait Sink {
    ghost written: { Self → Option (List ℕ) };

    ghost faults: { Self → ℕ };

    /// Takes bytes from the front of `piece`, one at least, and returns how many. At `Failed` the sink took no byte.
    /// The count rises at `Failed` alone.
    fn write(&mut self, piece: &[u8]) -> Result<usize, Failed>
        requires { 0 < length piece.now }
        ensures within { IfOk result (λ n. (0 < n) × (n ≤ length piece.now)) }
        ensures bytes { IfOk result (λ n. Grows (written self.old) (written self.new) (take n piece.now)) }
        ensures failed { OnErr result (Rose (faults self.old) (faults self.new) × Grows (written self.old) (written self.new) []) }
        ensures quiet { OnOk result (faults self.new ≡ faults self.old) }
        ensures count { faults self.old ≤ faults self.new };
}

/// Writes the whole piece. No memory is taken. At `Failed` the sink took some front of the piece, and its count of
/// faults rose in this call, or stands at its last value; otherwise the count stays as it was. Each write that doesn't
/// fail takes at least one byte, so the call returns.
pub fn put_all<K: Sink>(sink: &mut K, piece: &[u8]) -> Result<(), Failed>
    ensures ok { OnOk result (Grows (K.written sink.old) (K.written sink.new) piece.now) }
    ensures failed { OnErr result (Rose (K.faults sink.old) (K.faults sink.new)) }
    ensures quiet { OnOk result (K.faults sink.new ≡ K.faults sink.old) }
    ensures part { OnErr result (GrowsWithin (K.written sink.old) (K.written sink.new) piece.now) }
    ensures count { K.faults sink.old ≤ K.faults sink.new }
{
    let mut at = 0;
    while at < piece.len() {
        at += sink.write(&piece[at..])?;
    }
    Ok(())
}

/// How many bytes an input has at most.
pub const INPUT_LIMIT: usize = 1_048_576;

/// How many bytes a source is asked for at once, at most.
const BUFFER_SIZE: usize = 4096;

/// Why [`read_all`] gave no bytes.
#[derive(Debug, Clone, Copy, PartialEq, Eq)]
pub enum ReadAll {
    /// A read failed.
    ReadFault,
    /// There are more than [`INPUT_LIMIT`] bytes.
    TooLong,
    /// There was no memory for the bytes.
    OutOfMemory,
}

impl From<AllocError> for ReadAll {
    ghost use Rattle.nef_io.specs.declared.traits.ReadAll.{ReadAll};
    ghost use Rattle.std.specs.Prelude.{◌≡◌};

    ghost from_gives = { λ e r. r ≡ ReadAll.OutOfMemory };

    fn from(_error: AllocError) -> Self {
        ReadAll::OutOfMemory
    }
}

/// Reads `source` to its end, and returns the bytes that the source still had, where it tells them. `TooLong` comes
/// exactly where `INPUT_LIMIT + 1` bytes were taken, and no further byte is asked for. `ReadFault` comes only where the
/// source's count of faults rose in this call, or stands at its last value; else the count stays as it was. Each read
/// but the last takes at least one byte, so the call returns.
pub fn read_all<S: Source>(alloc: Global, source: &mut S) -> Result<Vec<u8>, ReadAll>
    ensures bytes { IfOk result (λ v. Consumes (S.rest source.old) (S.rest source.new) v.items × IsAtEnd (S.rest source.new)) }
    ensures most { IfOk result (λ v. vec_len v ≤ input_limit) }
    ensures long { result ≡ Err ReadAll.TooLong → (bs : List ℕ) × Consumes (S.rest source.old) (S.rest source.new) bs × (length bs ≡ input_limit + 1) }
    ensures fault { result ≡ Err ReadAll.ReadFault → Rose (S.faults source.old) (S.faults source.new) }
    ensures quiet { IfOk result (λ _. S.faults source.new ≡ S.faults source.old) }
    ensures quiet_too_long { result ≡ Err ReadAll.TooLong → S.faults source.new ≡ S.faults source.old }
    ensures quiet_memory { result ≡ Err ReadAll.OutOfMemory → S.faults source.new ≡ S.faults source.old }
    ensures before_fault { result ≡ Err ReadAll.ReadFault → (bs : List ℕ) × Consumes (S.rest source.old) (S.rest source.new) bs × (length bs ≤ input_limit) }
    ensures before_memory { result ≡ Err ReadAll.OutOfMemory → (bs : List ℕ) × Consumes (S.rest source.old) (S.rest source.new) bs × (length bs ≤ input_limit + 1) }
    ensures count { S.faults source.old ≤ S.faults source.new }
{
    let mut all = Vec::new(alloc);
    let mut buf = [0u8; BUFFER_SIZE];
    while all.len() <= INPUT_LIMIT {
        let room = (INPUT_LIMIT + 1 - all.len()).min(BUFFER_SIZE);
        let Ok(taken) = source.read(&mut buf[..room]) else {
            return Err(ReadAll::ReadFault);
        };
        if taken == 0 {
            return Ok(all);
        }
        all.extend_from_slice(&buf[..taken])?;
    }
    Err(ReadAll::TooLong)
}

/// What is called for each job that was claimed, before the job is worked. The call tells nothing and can't fail.
/// `free` is true where the job was claimed from the board without a lock. A test counts the calls, or holds a job
/// back.
pub trait Gate {
    fn before(&self, job: u64, free: bool);

    /// Whether the gate may hold a job back until another job began. Then as many workers start as were asked for,
    /// whether the jobs pay for them or not.
    fn holds(&self) -> bool {
        true
    }
}

/// The gate of the program: it does nothing, and holds no job back.
#[derive(Clone, Copy)]
pub struct OpenGate;

impl Gate for OpenGate {
    fn before(&self, _job: u64, _free: bool) {}

    fn holds(&self) -> bool
        ensures { result ≡ false }
    {
        false
    }
}
