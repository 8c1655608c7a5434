//! The board whose passes take turns.
#![tactic(auto)]

mod board;
mod state;

pub use board::{LockBoard, LockPass, LockRule, board_runs, steps_are_events};
pub use state::BoardState;
