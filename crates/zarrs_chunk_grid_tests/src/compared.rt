//! Compares what calls answer with what they are to answer. A test is cheap to prove where it asserts by these calls: an assertion in its own
//! body costs seconds, more with each value that the body owns and each assertion before it.
use std::process::Abort;
use std::test::Fail;
use zarrs_chunk_base::Refusal;

/// Something holds.
pub(crate) fn check_that(rt: &impl Abort, holds: bool, what: &str) {
    assert!(rt; holds, "{what}");
}

/// Compares two texts.
pub(crate) fn check_same(rt: &impl Abort, found: &str, text: &str) {
    assert!(rt; found == text, "{found}, and not {text}");
}

/// Compares two lists of numbers.
pub(crate) fn check_numbers(rt: &impl Abort, found: &[u64], numbers: &[u64]) {
    assert!(rt; found == numbers, "{found:?}, and not {numbers:?}");
}

/// What a call refuses with.
pub(crate) fn refusal<T: Drop, E: Drop>(answer: Result<T, Refusal<E>>) -> Result<E, Fail> {
    match answer {
        Err(Refusal::Refused(error)) => Ok(error),
        Err(Refusal::Memory(error)) => Err(error.into()),
        Ok(_) => Err("nothing is refused".into()),
    }
}
