//! Tables over keys of signs or labels, with three rows for each number of the key to the next; and the kernel's
//! tables: whether a direction is strictly passed on an arc, the labels of combinations and of an arc in the interior
//! and in the closure, and the 48 turns of space. Every row is proved to be the value of a plain definition in specs/.
#![tactic(auto)]

// A row of a table: T and F for a truth value; O, N and I for the labels Out, Not and In as numbers.
macro_rules! row {
    (T) => {
        true
    };
    (F) => {
        false
    };
    (O) => {
        -1
    };
    (N) => {
        0
    };
    (I) => {
        1
    };
}

macro_rules! rows {
    ($($row:ident)*) => {
        [$(row!($row)),*]
    };
}

mod table;
mod turns;

pub use table::{CaseTable, arc_closure, arc_interior, between, op_and, op_diff, op_or, op_xor};
pub use turns::{turn_compose, turn_inverse, turn_row, turned_coordinates};
