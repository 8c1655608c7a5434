//! Scripts: what a script means, or its first refusal.
#![tactic(auto)]

mod arguments;
mod reader;
mod script;
mod statement;
mod steps;

pub use reader::{parse, refusal_examples, refusal_laws};
pub use script::{Command, Name, Script, ScriptFault, ScriptKind};
pub use std::alloc::AllocError as OutOfMemory;
pub use steps::stairs;
