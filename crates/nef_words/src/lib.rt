//! The words of the command line: one simple command with five options, of which four take one value each. The options
//! are a function of the words.
#![tactic(auto)]

mod laws;
mod words;

pub use laws::words_laws;
pub use words::{DEFAULT_WORKERS, MOST_WORKERS, Options, WordsFault, line_words, read_words};
