//! The definitions that the other crates cite: vectors, points, the frame, planes as linear forms, sets and where they
//! hold, labels, and what a set looks like near a point.
//!
//! The definitions stand in specs/, over whole numbers of any size. Beside them stand laws of exact arithmetic in
//! proofs: polynomial identities and bounds of machine arithmetic, both by computation, and facts on signs, fractions
//! and sizes. A law is a clause of a function with an empty body; the crates above cite the lemmas that prove it.
#![tactic(auto)]

mod arithmetic;
mod label;
mod limits;

pub use arithmetic::{
    definition_examples, fraction_laws, identity_laws, machine_laws, sample_laws, sign_laws,
    size_laws,
};
pub use label::Label;
pub use limits::{
    AXIS_FACTOR, HALF_SIDE, MOST_STAIRS, NORMAL_LIMIT, OFFSET_LIMIT, QUERY_LIMIT,
    QUERY_WEIGHT_LIMIT, RAY_ENTRY_LIMIT, RAY_LIMIT, RAY_WEIGHT_LIMIT, UP_X, UP_Y,
};
