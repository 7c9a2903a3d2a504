// The files that tests are made with. A test ends where memory is refused.
use morris_board::streams::IntoWrite;
use morris_commands::build::build_out;
use morris_pairs::layout::Layout;
use sha2::{Digest, Sha256};
use std::process::Abort;
use std::sync::Wait;
use std::thread::Threads;

/// The file of a pair of `grid`, in a layout.
pub fn file_of(
    rt: &(impl AllocGlobal + Threads + Wait + Sync),
    pair: &str,
    layout: Layout,
) -> Vec<u8> {
    let mut output = IntoWrite::new(Vec::new(rt.alloc()));
    let classes = layout == Layout::Classes;
    // A test sees that no byte went out where the build is refused.
    let _ = build_out(
        rt,
        rt.alloc(),
        "grid",
        pair,
        1,
        1,
        false,
        classes,
        &mut output,
    );
    output.into_inner()
}

/// The same bytes.
pub fn copied(rt: &(impl Abort + AllocGlobal), bytes: &[u8]) -> Vec<u8> {
    Vec::from_slice(rt.alloc(), bytes).expect(rt, "memory")
}

/// Strings or files, one after the other.
pub fn joined(rt: &(impl Abort + AllocGlobal), parts: &[&[u8]]) -> Vec<u8> {
    let mut whole = Vec::new(rt.alloc());
    for part in parts {
        whole.extend_from_slice(*part).expect(rt, "memory");
    }
    whole
}

/// A file whose byte at a place is another.
pub fn changed(rt: &(impl Abort + AllocGlobal), file: &[u8], place: usize, byte: u8) -> Vec<u8> {
    let mut bytes = copied(rt, file);
    if let Some(there) = bytes.get_mut(place) {
        *there = byte;
    }
    bytes
}

/// A file of 3-3 by positions, with the digest of what stands before it.
pub fn sealed(rt: &(impl Abort + AllocGlobal), file: &[u8]) -> Vec<u8> {
    let mut bytes = copied(rt, file);
    bytes.truncate(3376);
    let digest = Sha256::digest(bytes.as_slice());
    bytes.extend_from_slice(&digest).expect(rt, "memory");
    bytes
}
