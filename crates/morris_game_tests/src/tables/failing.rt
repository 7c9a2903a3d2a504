// Streams that give or take a byte a call, and fail at one of their calls: at any of them.
use crate::checks::{holds, same, same_bytes};
use crate::tables::making::{file_of, three_three};
use morris_board::grid::Grid;
use morris_board::streams::FromRead;
use morris_engine_tests::counting::Counting;
use morris_engine_tests::drip::Drip;
use morris_pairs::exact::Exact;
use morris_pairs::file_faults::{ReadFault, Write};
use morris_pairs::reading::{read_next, read_table};
use morris_pairs::writing::write_table;
use std::alloc::Global;
use std::process::Abort;

/// Reading the file of 3-3 alone ends at the call that fails after so many others.
fn assert_ends_reading(rt: &impl Abort, alloc: Global, file: &[u8], before: u64) {
    let mut source = FromRead::new(Drip::new(file, before));
    let fault = read_table::<Grid, _>(alloc, &mut source).err();
    holds(rt, fault == Some(ReadFault::Read), "a read fails");
    let calls = source.into_inner().calls;
    same(rt, calls, before.saturating_add(1), "reads");
}

/// So does reading it as the next of several.
fn assert_ends_reading_next(rt: &impl Abort, alloc: Global, file: &[u8], before: u64) {
    let mut source = FromRead::new(Drip::new(file, before));
    let fault = read_next::<Grid, _>(alloc, &mut source).err();
    holds(rt, fault == Some(ReadFault::Read), "a read fails");
    let calls = source.into_inner().calls;
    same(rt, calls, before.saturating_add(1), "reads");
}

// A call for each byte, and one more by which a table alone is known to end.
#[test]
fn a_read_that_fails_ends_it(rt: HostRuntime) {
    let table = three_three(&rt, rt.alloc());
    let file = file_of(&rt, rt.alloc(), &table);
    for before in 0..3408 {
        assert_ends_reading(&rt, rt.alloc(), file.as_slice(), before);
        assert_ends_reading_next(&rt, rt.alloc(), file.as_slice(), before);
    }
    assert_ends_reading(&rt, rt.alloc(), file.as_slice(), 3408);
    let mut source = FromRead::new(Drip::new(file.as_slice(), 3408));
    let found = read_next::<Grid, _>(rt.alloc(), &mut source);
    holds(&rt, matches!(found, Ok(Some(_))), "a table");
}

/// Writing a table ends at the call that fails after so many others, and the bytes of those went
/// out.
fn assert_ends_writing(
    rt: &impl Abort,
    alloc: Global,
    table: &Exact<Grid>,
    file: &[u8],
    room: u64,
) {
    let mut sink = Counting::new(alloc, 1, room as usize);
    let is_reported = write_table(&mut sink, table) == Err(Write(room));
    holds(rt, is_reported, "a write fails");
    same(rt, sink.calls, room.saturating_add(1), "writes");
    let taken = file.get(..room as usize).expect(rt, "bytes");
    same_bytes(rt, sink.taken.as_slice(), taken);
}

#[test]
fn a_write_that_fails_ends_it(rt: HostRuntime) {
    let table = three_three(&rt, rt.alloc());
    let file = file_of(&rt, rt.alloc(), &table);
    for room in 0..3408 {
        assert_ends_writing(&rt, rt.alloc(), &table, file.as_slice(), room);
    }
}
