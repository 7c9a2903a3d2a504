// Tables that several workers verify.
use crate::checks::holds;
use crate::tables::making::pair;
use morris_board::nine::Nine;
use morris_pairs::layout::Layout;
use morris_pairs::raw::Raw;
use morris_pairs::table_set::TableSet;
use morris_pairs::verify::VerifyFault;
use morris_workers::NoProgress;
use std::alloc::Global;
use std::process::Abort;
use std::thread::Threads;

/// So many workers report this entry as the first one that doesn't agree, where a list states that
/// each position of 3-3 is a draw.
fn assert_told<R: Abort + Threads + Sync>(rt: &R, alloc: Global, workers: usize, wanted: u64) {
    assert!(rt; 1 <= workers && workers <= 64);
    let codes = vec![in alloc; 0u16; 2_691_920].expect(rt, "memory");
    let raw = Raw::from_codes(pair::<Nine>(rt, 3, 3), Layout::Full, codes);
    let raw = raw.ok().expect(rt, "a code for each position");
    let tables = TableSet::new(alloc).expect(rt, "memory");
    let (_, fault) = raw
        .verify_watched(rt, alloc, &tables, workers, &mut NoProgress)
        .err()
        .expect(rt, "a fault");
    holds(rt, fault == VerifyFault::Differs(wanted), "entry");
}

#[test]
fn each_number_of_workers_tells_the_first_entry_that_differs(rt: HostRuntime) {
    // The stones of the first 1,330 positions stand on 0, 1 and 2, and no move closes a mill. Then
    // they stand on 0, 1 and 3, and a jump from 3 to 2 closes one, but in the first three point 2
    // has a stone of the opponent.
    for workers in 1..=3 {
        assert_told(&rt, rt.alloc(), workers, 1333);
    }
    assert_told(&rt, rt.alloc(), 64, 1333);
}
