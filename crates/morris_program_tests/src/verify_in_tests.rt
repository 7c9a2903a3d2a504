// `verify_in`, which verifies on the thread of the caller: what it prints, what it refuses, and in
// which order.
use crate::checks::{assert_answered, holds};
use crate::making::{changed, file_of, sealed};
use morris_board::streams::{FromRead, IntoWrite};
use morris_commands::verify_in::verify_in;
use morris_engine_tests::counting::Counting;
use morris_engine_tests::drip::Drip;
use morris_jobs::fault::Fault;
use morris_pairs::layout::Layout;
use std::process::Abort;
use std::sync::Wait;
use std::thread::Threads;

/// `verify_in` answers this to a file, with such a text.
fn assert_verifies(
    rt: &(impl Abort + AllocGlobal),
    file: &[u8],
    wanted: Result<(), Fault>,
    text: &str,
) {
    let mut output = IntoWrite::new(Vec::new(rt.alloc()));
    let mut input = FromRead::new(file);
    let answer = verify_in(rt.alloc(), "grid", &mut input, &mut output);
    assert_answered(rt, answer, output.into_inner().as_slice(), wanted, text);
}

/// `verify_in` states that the file of a pair is right, with such a text.
fn assert_right(
    rt: &(impl Abort + AllocGlobal + Threads + Wait + Sync),
    pair: &str,
    layout: Layout,
    text: &str,
) {
    let file = file_of(rt, pair, layout);
    assert_verifies(rt, file.as_slice(), Ok(()), text);
}

#[test]
fn verify_in_tells_of_right_files(rt: HostRuntime) {
    assert_right(&rt, "3-3", Layout::Full, "verified 3-3: 1680 entries\n");
    assert_right(&rt, "3-3", Layout::Classes, "verified 3-3: 320 entries\n");
    assert_right(&rt, "4-3", Layout::Full, "verified 4-3: 2520 entries\n");
    assert_right(&rt, "4-3", Layout::Classes, "verified 4-3: 470 entries\n");
}

// No capture is there among the first twenty positions, and the next one wins by one.
#[test]
fn verify_in_names_the_first_entry_that_differs(rt: HostRuntime) {
    let mut equal = file_of(&rt, "3-3", Layout::Full);
    let one = changed(&rt, equal.as_slice(), 57, 0);
    let wrong = sealed(&rt, one.as_slice());
    assert_verifies(&rt, wrong.as_slice(), Err(Fault::Differs(20)), "");
    for byte in equal.as_mut_slice().iter_mut().skip(16) {
        *byte = 0;
    }
    let draws = sealed(&rt, equal.as_slice());
    assert_verifies(&rt, draws.as_slice(), Err(Fault::Differs(20)), "");
}

/// A file on a board is refused for this fault where reads fail after so many calls, and nothing is
/// printed.
fn assert_unread(
    rt: &(impl Abort + AllocGlobal),
    board: &str,
    file: &[u8],
    before: u64,
    fault: Fault,
) {
    let mut output = IntoWrite::new(Vec::new(rt.alloc()));
    let mut input = FromRead::new(Drip::new(file, before));
    let answer = verify_in(rt.alloc(), board, &mut input, &mut output);
    assert_answered(rt, answer, output.into_inner().as_slice(), Err(fault), "");
}

#[test]
fn streams_that_fail_end_verify_in(rt: HostRuntime) {
    let right = file_of(&rt, "3-3", Layout::Full);
    for before in [0, 1, 16, 3407, 3408] {
        assert_unread(&rt, "grid", right.as_slice(), before, Fault::Read);
    }
    assert_unread(&rt, "round", right.as_slice(), 0, Fault::Board);
    let mut input = FromRead::new(right.as_slice());
    let mut full = Counting::new(rt.alloc(), 1, 0);
    let answer = verify_in(rt.alloc(), "grid", &mut input, &mut full);
    holds(&rt, answer == Err(Fault::Write(0)), "a full output");
}
