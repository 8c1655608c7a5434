//! Works the jobs of a board by workers side by side.
#![tactic(auto)]

mod pool;

pub use pool::finish;
