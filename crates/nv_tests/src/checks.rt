//! Comparisons that many tests make. Here, each is proved once for all of them.

use std::process::Abort;

/// Checks that a number is the wanted one.
pub(crate) fn check_number(rt: &impl Abort, found: u64, want: u64, what: &str) {
    assert_eq!(rt; found, want, "{what}");
}

/// Checks that bytes are the wanted ones.
pub(crate) fn check_bytes(rt: &impl Abort, found: &[u8], want: &[u8], what: &str) {
    assert_eq!(rt; found, want, "{what}");
}

/// Checks that a text is the wanted one.
pub(crate) fn check_text(rt: &impl Abort, found: &str, want: &str, what: &str) {
    assert_eq!(rt; found, want, "{what}");
}
