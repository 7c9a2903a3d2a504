//! What is found in a test is what is wanted. A test that calls these is short to prove.
use morris_jobs::fault::Fault;
use std::process::Abort;

pub(crate) fn same(rt: &impl Abort, found: u64, wanted: u64, what: &str) {
    assert_eq!(rt; found, wanted, "{what}");
}

pub(crate) fn same_text(rt: &impl Abort, found: &str, wanted: &str) {
    assert_eq!(rt; found, wanted);
}

pub(crate) fn holds(rt: &impl Abort, is_so: bool, what: &str) {
    assert!(rt; is_so, "{what}");
}

/// A call is answered with this, and has printed this text.
pub(crate) fn assert_answered(
    rt: &impl Abort,
    answer: Result<(), Fault>,
    printed: &[u8],
    wanted: Result<(), Fault>,
    text: &str,
) {
    holds(rt, answer == wanted, text);
    holds(rt, printed == text.as_bytes(), text);
}
