//! What the program says, in few words: what words and bytes mean, and that a run writes this output and ends so. In
//! specs/ `Statement` is to be read first, then `Means`, `Said`, `Denotes` and `Reader`. `Same` has what follows for
//! all runs. `Texts` and `Meanings` are for the proofs: what has the laws of `Statement` is a text, whatever makes it.
#![tactic(auto)]

mod status;
pub mod text;

pub use status::{Status, statement_examples, statement_laws};
