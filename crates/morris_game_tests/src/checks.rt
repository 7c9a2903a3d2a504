//! What is found in a test is what is wanted. A test that calls these is short to prove.
use std::process::Abort;

pub(crate) fn same(rt: &impl Abort, found: u64, wanted: u64, what: &str) {
    assert_eq!(rt; found, wanted, "{what}");
}

pub(crate) fn same_bytes(rt: &impl Abort, found: &[u8], wanted: &[u8]) {
    assert_eq!(rt; found, wanted);
}

pub(crate) fn holds(rt: &impl Abort, is_so: bool, what: &str) {
    assert!(rt; is_so, "{what}");
}
