//! Bytes in and out. A [`Source`] gives bytes and a [`Sink`] takes bytes. Each keeps a count of its faults, so that a
//! caller's contract can say of a failed read or write that it was the object's own.
#![tactic(auto)]

mod adapters;
mod memory;
mod traits;

pub use adapters::{FromReader, IntoWriter};
pub use memory::{MemSink, MemSource, SureSink, SureSource, sure_counts};
pub use std::alloc::AllocError as OutOfMemory;
pub use traits::{Failed, Gate, INPUT_LIMIT, OpenGate, ReadAll, Sink, Source, put_all, read_all};
