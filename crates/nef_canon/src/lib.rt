//! The canonical text of a complex with its parts, written into one buffer. Its grammar stands in docs/text-format.md.
#![tactic(auto)]

mod text;
mod words;

pub use std::alloc::AllocError as OutOfMemory;
pub use text::write_text;
