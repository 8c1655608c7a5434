//! Jobs, the boards that hand them out, the plain machine that every board follows, and tasks that are worked side by side.
#![tactic(auto)]

mod board;
mod machine;
mod sharing;
mod work;

pub use board::{Board, Claim, Job, Order, Receipt, View, empty_places};
pub use machine::{Event, Machine, Slot, every_claim_is_accounted_for, every_schedule};
pub use sharing::{all_four, both};
pub use std::alloc::AllocError as OutOfMemory;
pub use work::{BoardKind, How, TextVersion, Work};
