//! Comparisons that stop a test.

use std::fmt::Debug;
use std::process::Abort;

/// Stops the test where what was found isn't what was wanted.
pub(crate) fn check<T: PartialEq + Debug>(rt: &impl Abort, found: &T, wanted: &T, of: &str) {
    assert_eq!(rt; *found, *wanted, "{of}");
}

/// Stops the test where the text that was found isn't the text that was wanted.
pub(crate) fn check_text(rt: &impl Abort, found: &str, wanted: &str, of: &str) {
    assert_eq!(rt; found, wanted, "{of:?}");
}

/// Stops the test where the bytes that were found aren't the bytes that were wanted.
pub(crate) fn check_bytes(rt: &impl Abort, found: &[u8], wanted: &[u8], of: &str) {
    assert_eq!(rt; found, wanted, "{of:?}");
}
