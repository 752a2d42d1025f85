//! What is said, and what it must be.

use std::process::Abort;

/// The text that a case came to has to be this one.
pub(crate) fn expect_said(rt: &impl Abort, case: &str, said: String, wanted: &str) {
    assert_eq!(rt; said.as_str(), wanted, "at {case}");
}

/// The text has to be this one.
pub(crate) fn expect_text(rt: &impl Abort, said: String, wanted: &str) {
    assert_eq!(rt; said.as_str(), wanted);
}
