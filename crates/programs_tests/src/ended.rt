//! Compares how a run ended with how it is to end. A test is cheap to prove where it asserts by these calls: an assertion in its own body costs
//! seconds, more with each value that the body owns and each assertion before it.
use std::process::Abort;

/// After so many reads or writes a run succeeded, with the status 0 and nothing told, or it failed, with the status 1 and this line.
pub fn check_ending(rt: &impl Abort, ended: (u8, &[u8]), succeeds: bool, line: &str, after: usize) {
    let (status, errors) = ended;
    let told = if succeeds { "" } else { line };
    let is_told = errors == told.as_bytes();
    assert!(rt;
        is_told && status == u8::from(!succeeds),
        "after {after}: {status}"
    );
}

/// Something holds after so many reads or writes.
pub fn check_that(rt: &impl Abort, holds: bool, after: usize) {
    assert!(rt; holds, "after {after}");
}

/// Compares bytes.
pub fn check_bytes(rt: &impl Abort, found: &[u8], bytes: &[u8], after: usize) {
    assert!(rt;
        found == bytes,
        "after {after}: {found:?}, and not {bytes:?}"
    );
}
