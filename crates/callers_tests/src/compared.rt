//! Compares what calls answer with what they are to answer. A test is cheap to prove where it asserts by these calls: an assertion in its own
//! body costs seconds, more with each value that the body owns and each assertion before it.
use std::process::Abort;

/// Something holds.
pub(crate) fn check_that(rt: &impl Abort, holds: bool, what: &str) {
    assert!(rt; holds, "{what}");
}

/// Compares two texts.
pub(crate) fn check_same(rt: &impl Abort, found: &str, text: &str) {
    assert!(rt; found == text, "{found}, and not {text}");
}

/// Compares two lists of numbers.
pub(crate) fn check_numbers(rt: &impl Abort, found: &[u64], numbers: &[u64]) {
    assert!(rt; found == numbers, "{found:?}, and not {numbers:?}");
}
