//! The work of a script in steps: which sets are made, of which others, and in which order, and when each question is
//! answered.
//!
//! In a row of unions each takes one set more to the union of those before, and costs that whole union. So a row is worked
//! as a tree, where no three of its sets meet, and so is a row of symmetric differences; of a row of differences neighbours
//! that are apart are joined, and taken away together. Source: the CGAL manual, "3D Boolean Operations on Nef Polyhedra", on
//! `Nef_nary_union_3`.
#![tactic(auto)]

mod blocks;
mod hints;
mod needed;
mod notes;
mod numbering;
mod planner;
mod planning;
mod row;
mod step;

pub use planning::plan;
pub use std::alloc::AllocError as OutOfMemory;
pub use step::{Plan, Step, Task};
