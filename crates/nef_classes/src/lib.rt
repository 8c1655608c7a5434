//! Classes of numbers that links join and of table elements that ties join, numbered by first appearance.
#![tactic(auto)]

mod forest;
mod table;

pub use forest::{Link, class_numbers, class_of_each, own_numbers};
pub use std::alloc::AllocError as OutOfMemory;
pub use table::{Cell, Tie, empty_rows, number_at, number_rows};
