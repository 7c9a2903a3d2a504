// Files of 3-3 that are cut, have a byte changed, or have one more: what both calls answer that read
// a file.
use crate::checks::{holds, same_bytes};
use crate::tables::making::{file_of, three_by_classes, three_three};
use morris_board::grid::Grid;
use morris_board::streams::FromRead;
use morris_pairs::file_faults::ReadFault;
use morris_pairs::reading::{read_next, read_table};
use std::alloc::Global;
use std::process::Abort;
use std::sync::Wait;
use std::thread::Threads;

/// How many entries the only table of a file has.
fn read_alone(alloc: Global, file: &[u8]) -> Result<u64, ReadFault> {
    read_table::<Grid, _>(alloc, &mut FromRead::new(file)).map(|raw| raw.len())
}

/// How many entries the next table of a file has.
fn read_as_next(alloc: Global, file: &[u8]) -> Result<Option<u64>, ReadFault> {
    read_next::<Grid, _>(alloc, &mut FromRead::new(file)).map(|found| found.map(|raw| raw.len()))
}

/// Both calls refuse a file for this fault.
fn assert_refused(rt: &impl Abort, alloc: Global, file: &[u8], fault: ReadFault) {
    holds(rt, read_alone(alloc, file) == Err(fault), "alone");
    holds(rt, read_as_next(alloc, file) == Err(fault), "as the next");
}

/// The files of 3-3 by positions and by classes.
fn both_files<R: Abort + Threads + Wait + Sync>(rt: &R, alloc: Global) -> [Vec<u8>; 2] {
    let by_positions = file_of(rt, alloc, &three_three(rt, alloc));
    let by_classes = file_of(rt, alloc, &three_by_classes(rt, alloc));
    [by_positions, by_classes]
}

#[test]
fn a_file_that_is_cut_is_too_short(rt: HostRuntime) {
    for file in &both_files(&rt, rt.alloc()) {
        for size in 1..file.len() {
            assert_refused(&rt, rt.alloc(), &file[..size], ReadFault::Short);
        }
    }
    let short = read_alone(rt.alloc(), &[]) == Err(ReadFault::Short);
    holds(&rt, short, "nothing, alone");
    holds(
        &rt,
        read_as_next(rt.alloc(), &[]) == Ok(None),
        "nothing, as the next",
    );
}

/// A file whose byte at a place is another.
fn changed(rt: &impl Abort, alloc: Global, file: &[u8], place: usize, byte: u8) -> Vec<u8> {
    let mut changed = Vec::from_slice(alloc, file).expect(rt, "memory");
    let there = changed.get_mut(place).expect(rt, "a byte");
    *there = byte;
    changed
}

/// The fault of a file of which the byte at this place was taken from 255.
fn fault_at(place: usize) -> ReadFault {
    match place {
        0..=3 => ReadFault::Magic,
        4 => ReadFault::Version,
        5 => ReadFault::BoardId,
        6 | 7 => ReadFault::Counts,
        8..=15 => ReadFault::Count,
        _ => ReadFault::Digest,
    }
}

#[test]
fn each_byte_of_a_file_counts(rt: HostRuntime) {
    for file in &both_files(&rt, rt.alloc()) {
        for (place, byte) in file.iter().enumerate() {
            let wrong = changed(&rt, rt.alloc(), file, place, 255 - *byte);
            assert_refused(&rt, rt.alloc(), &wrong, fault_at(place));
        }
    }
}

// The version is of one layout, and the number of entries of the other.
#[test]
fn the_first_step_that_refuses_a_file_decides(rt: HostRuntime) {
    let [file, by_classes] = both_files(&rt, rt.alloc());
    for (place, byte, fault) in [
        (0, b'M', ReadFault::Magic),
        (4, 9, ReadFault::Version),
        (4, 2, ReadFault::Count),
        (5, 0, ReadFault::BoardId),
        (6, 7, ReadFault::Crowded),
        (6, 4, ReadFault::Count),
        (7, 4, ReadFault::Counts),
        (15, 0x8f, ReadFault::Count),
        (16, 1, ReadFault::Digest),
    ] {
        let wrong = changed(&rt, rt.alloc(), &file, place, byte);
        assert_refused(&rt, rt.alloc(), &wrong, fault);
    }
    let unknown = changed(&rt, rt.alloc(), &file, 4, 9);
    let wrong = changed(&rt, rt.alloc(), &unknown, 0, b'M');
    assert_refused(&rt, rt.alloc(), &wrong, ReadFault::Magic);
    let wrong = changed(&rt, rt.alloc(), &by_classes, 4, 1);
    assert_refused(&rt, rt.alloc(), &wrong, ReadFault::Count);
}

#[test]
fn a_byte_after_a_table_is_left_for_the_next_one(rt: HostRuntime) {
    let mut file = file_of(&rt, rt.alloc(), &three_three(&rt, rt.alloc()));
    file.push(7).expect(&rt, "memory");
    let trailing = read_alone(rt.alloc(), &file) == Err(ReadFault::Trailing);
    holds(&rt, trailing, "alone");
    let mut source = FromRead::new(file.as_slice());
    let found = read_next::<Grid, _>(rt.alloc(), &mut source);
    holds(&rt, matches!(found, Ok(Some(_))), "as the next");
    same_bytes(&rt, source.into_inner(), &[7]);
}
