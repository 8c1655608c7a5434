//! The index of a skeleton: which carriers hold each point and each edge, what each carrier holds, and where it lies.
#![tactic(auto)]

mod counting;
mod groups;
mod index;
mod making;
mod peaks;
mod skeleton;
mod sorted_carriers;
mod spans;
mod table;

pub use groups::{Cluster, Group};
pub use index::Index;
pub use peaks::passed_from;
pub use skeleton::Edge;
pub use sorted_carriers::{SortedCarriers, holds};
pub use spans::{Bounds, Span, may_meet};
pub use std::alloc::AllocError as OutOfMemory;
pub use table::Table;
