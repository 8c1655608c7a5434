//! Lines, words, numbers and names of a script.
#![tactic(auto)]

mod line;
mod word;

pub use line::{Line, Lines};
pub use word::{NumberWord, is_name, line_laws, lines, whole_number, word_laws, words};
