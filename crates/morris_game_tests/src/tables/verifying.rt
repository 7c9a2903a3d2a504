// Lists of codes that are verified, where it is known from outside which entry is the first that
// doesn't agree.
use crate::checks::same;
use crate::tables::making::{empty, pair, three_three};
use morris_board::grid::Grid;
use morris_pairs::exact::Exact;
use morris_pairs::layout::Layout;
use morris_pairs::raw::Raw;
use morris_pairs::shelf::Shelf;
use morris_pairs::verify::VerifyFault;
use std::alloc::Global;
use std::process::Abort;

/// The codes of a table, in order.
fn codes_of(rt: &impl Abort, alloc: Global, table: &Exact<Grid>) -> Vec<u16> {
    let mut codes = Vec::new(alloc);
    for i in 0..table.len() {
        codes.push(table.code(i)).expect(rt, "memory");
    }
    codes
}

/// The first entry of 3-3 that doesn't agree, where these codes are stated.
fn told(rt: &impl Abort, shelf: &Shelf<Grid>, codes: Vec<u16>) -> u64 {
    let raw = Raw::from_codes(pair(rt, 3, 3), Layout::Full, codes).ok();
    let (_, fault) = raw
        .expect(rt, "a code for each position")
        .verify(shelf)
        .err()
        .expect(rt, "a fault");
    match fault {
        VerifyFault::Differs(index) => index,
        VerifyFault::Needs(_) => panic!(rt; "3-3 needs no table"),
    }
}

/// This is the first entry that doesn't agree, where as many equal codes are stated as 3-3 has
/// entries.
fn assert_told_of_equal(rt: &impl Abort, alloc: Global, code: u16, wanted: u64) {
    let codes = vec![in alloc; code; 1680].expect(rt, "memory");
    same(rt, told(rt, &empty(rt, alloc), codes), wanted, "entry");
}

/// The first entry that doesn't agree, where one of the right codes is replaced: a draw is stated
/// where there is none, and a loss at once where there is a draw.
fn told_of_wrong(
    rt: &impl Abort,
    alloc: Global,
    shelf: &Shelf<Grid>,
    right: &[u16],
    wrong: usize,
) -> u64 {
    let mut codes = Vec::from_slice(alloc, right).expect(rt, "memory");
    let code = codes.get_mut(wrong).expect(rt, "a code");
    *code = if *code == 0 { 1 } else { 0 };
    told(rt, shelf, codes)
}

/// Each entry wrong in turn: how often the wrong entry is the first that doesn't agree, and the sum
/// of the first such entries.
fn told_of_each(rt: &impl Abort, alloc: Global, shelf: &Shelf<Grid>, right: &[u16]) -> (u64, u64) {
    let (mut themselves, mut sum) = (0u64, 0u64);
    for wrong in 0..right.len() {
        let entry = told_of_wrong(rt, alloc, shelf, right, wrong);
        themselves = themselves.saturating_add(u64::from(entry == wrong as u64));
        sum = sum.saturating_add(entry);
    }
    (themselves, sum)
}

// The first entries that don't agree are those that another program finds by the rules alone: it
// may be an earlier one from which a move leads to the wrong one.
#[test]
fn one_wrong_entry_is_told_or_an_earlier_one_that_leads_to_it(rt: HostRuntime) {
    let empty = empty(&rt, rt.alloc());
    let table = three_three(&rt, rt.alloc());
    let right = codes_of(&rt, rt.alloc(), &table);
    for (wrong, entry) in [(0, 0), (201, 180), (282, 100), (1000, 127), (1679, 1679)] {
        let told = told_of_wrong(&rt, rt.alloc(), &empty, right.as_slice(), wrong);
        same(&rt, told, entry, "entry");
    }
    // The other program counts and adds the same.
    let (themselves, sum) = told_of_each(&rt, rt.alloc(), &empty, right.as_slice());
    same(&rt, themselves, 1062, "entries that are told themselves");
    same(&rt, sum, 906_366, "sum");
}

#[test]
fn equal_codes_are_refused(rt: HostRuntime) {
    // No capture is there among the first twenty positions, and the next one wins by one.
    assert_told_of_equal(&rt, rt.alloc(), 0, 20);
    assert_told_of_equal(&rt, rt.alloc(), 2, 0);
    // These losses would be won a ply later, by a code that is one more than the greatest of 16
    // bits.
    assert_told_of_equal(&rt, rt.alloc(), 65_535, 0);
}
