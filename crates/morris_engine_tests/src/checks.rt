//! What is found in a test is what is wanted. A test that calls these is short to prove.
use std::process::Abort;

pub(crate) fn same(rt: &impl Abort, found: u64, want: u64, what: &str) {
    assert_eq!(rt; found, want, "{what}");
}

pub(crate) fn same_text(rt: &impl Abort, found: &str, want: &str) {
    assert_eq!(rt; found, want);
}

pub(crate) fn same_bytes(rt: &impl Abort, found: &[u8], want: &[u8]) {
    assert_eq!(rt; found, want);
}

pub(crate) fn same_nodes(rt: &impl Abort, found: &[u64], want: &[u64], what: &str) {
    assert_eq!(rt; found, want, "{what}");
}

pub(crate) fn same_codes(rt: &impl Abort, found: &[u16], want: &[u16], what: &str) {
    assert_eq!(rt; found, want, "{what}");
}

pub(crate) fn holds(rt: &impl Abort, is_so: bool, what: &str) {
    assert!(rt; is_so, "{what}");
}
