//! The board whose passes wait for nobody.
#![tactic(auto)]

mod board;

pub use board::{FreeBoard, FreePass, FreeRule, board_runs, steps_are_events};
