//! Rounds of numbers that are handed out through a queue.
#![tactic(auto)]

mod ahead;
mod pass;
mod round;
mod stage;

pub use ahead::run_ahead;
pub use nef_core::empty_places;
pub use pass::{Round, RoundPass, RoundRule, View};
pub use round::{Taken, passes_agree, steps_keep_the_rule};
pub use stage::{Needs, Results, Stage};
pub use std::alloc::AllocError as OutOfMemory;
