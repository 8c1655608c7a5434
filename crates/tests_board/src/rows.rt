//! Rows of tables, read number by number and checked.
use std::process::Abort;
use std::str::Split;

/// More turns than another thread needs to begin a job.
pub(crate) const TURNS: u64 = 20_000_000;

/// The next number of a row.
pub(crate) fn number(words: &mut Split<'_, char>) -> Option<u32> {
    words.next()?.parse().ok()
}

/// Stops the test where the row doesn't hold or couldn't be worked.
pub(crate) fn check(rt: &impl Abort, holds: Option<bool>, row: &str) {
    assert!(rt; matches!(holds, Some(true)), "{row}");
}
