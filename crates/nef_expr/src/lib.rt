//! Set expressions: the nodes that a script's names stand for, where their sets hold, and the label of a point for a
//! node without interior, closure, boundary and regularisation. In specs/ `Nodes` says what set a node of a list is,
//! and `Plain` which sets use no topology.
#![tactic(auto)]

mod nodes;
mod plain;
mod table;

pub use nodes::{Node, Nodes};
pub use plain::{node_laws, plain_has};
pub use std::alloc::AllocError as OutOfMemory;
pub use table::{Origin, TurnedNodes};
