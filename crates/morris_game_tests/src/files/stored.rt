// The file of a table in a folder in memory.
use crate::memory::MemoryFolder;
use crate::tables::making::three_three;
use morris_board::grid::Grid;
use morris_engine_tests::digests::BY_POSITIONS;
use morris_files::checksum_list::write_list;
use morris_files::folder::Folder;
use morris_files::old_checksums::retained_lines;
use morris_files::stored::{StoredFault, read_table_file};
use morris_files::table_file::{Written, write_table_file};
use morris_index::pair::Pair;
use morris_pairs::file_faults::ReadFault;
use morris_workers::NoProgress;
use std::alloc::Global;
use std::process::Abort;

/// The SHA-256 of the whole file of 3-3, as another program computes it.
const WHOLE: [u8; 32] = [
    0xf8, 0xc4, 0x8a, 0x20, 0xf9, 0x6d, 0x42, 0x47, 0x48, 0xed, 0x4c, 0x63, 0x1d, 0x94, 0xd9, 0x8d,
    0x80, 0xb8, 0xb0, 0x0b, 0xe2, 0xf1, 0x7e, 0xb8, 0x13, 0x2b, 0x23, 0x3d, 0x2b, 0x18, 0x40, 0x76,
];

/// The list of digests of that file alone.
const LINE: &[u8] =
    b"f8c48a20f96d424748ed4c631d94d98d80b8b00be2f17eb8132b233d2b184076  grid-3-3.nmmt\n";

/// A list of another file of 3-3 and one of 4-3.
const TWO: &[u8] = b"\
0000000000000000000000000000000000000000000000000000000000000033  grid-3-3.nmmt\n\
0000000000000000000000000000000000000000000000000000000000000043  grid-4-3.nmmt\n";

/// Its line of 4-3.
const OTHER: &[u8] =
    b"0000000000000000000000000000000000000000000000000000000000000043  grid-4-3.nmmt\n";

/// Whether the folder has the file of 3-3 under its name, and no other.
fn has_file(folder: &MemoryFolder) -> bool {
    match folder.get("grid-3-3.nmmt") {
        Some(file) => {
            folder.count() == 1 && file.len() == 3408 && file.ends_with(BY_POSITIONS.as_slice())
        }
        None => false,
    }
}

#[test]
fn the_file_of_a_table_has_the_name_of_its_pair(rt: HostRuntime) {
    let table = three_three(&rt, rt.alloc());
    let mut folder = MemoryFolder::new(rt.alloc(), 0, 0);
    let written = write_table_file(rt.alloc(), &mut folder, "grid", &table, &mut NoProgress).ok();
    let written = written.expect(&rt, "the file of 3-3");
    assert!(rt; written.entries == 1680 && written.bytes == 3408 && written.digest == WHOLE);
    assert!(rt; has_file(&folder));
}

/// The folder with the file of 3-3, and what was answered when that was written.
fn stored_three(rt: &impl Abort, alloc: Global, calls: u64) -> (MemoryFolder, Written<Grid>) {
    let table = three_three(rt, alloc);
    let mut folder = MemoryFolder::new(alloc, calls, 0);
    let written = write_table_file(alloc, &mut folder, "grid", &table, &mut NoProgress).ok();
    (folder, written.expect(rt, "the file of 3-3"))
}

#[test]
fn the_digests_stand_in_a_file_of_their_own(rt: HostRuntime) {
    let (mut folder, written) = stored_three(&rt, rt.alloc(), 0);
    assert!(rt; folder.failures() == 0);
    let answer = write_list(rt.alloc(), &mut folder, "grid", b"", &[written]);
    assert!(rt; answer == Ok(()) && folder.get("grid.sha256") == Some(LINE));
    assert!(rt; folder.count() == 2);
}

/// The list of these bytes and then the line of 3-3.
fn with_line(alloc: Global, lines: &[u8]) -> Option<Vec<u8>> {
    let mut list = Vec::from_slice(alloc, lines).ok()?;
    list.extend_from_slice(LINE).ok()?;
    Some(list)
}

// A build of 3-3 where 4-3 was built before.
#[test]
fn the_digests_of_other_files_stay(rt: HostRuntime) {
    let alloc = rt.alloc();
    let (mut folder, written) = stored_three(&rt, alloc, 0);
    assert!(rt; folder.put("grid.sha256", TWO).is_ok() && folder.failures() == 0);
    let stored_three = retained_lines(alloc, &mut folder, "grid", written.pair);
    let stored_three = stored_three.ok().expect(&rt, "the lines that are kept");
    assert!(rt; folder.failures() == 0);
    let answer = write_list(
        alloc,
        &mut folder,
        "grid",
        stored_three.as_slice(),
        &[written],
    );
    let list = with_line(alloc, OTHER).expect(&rt, "room for a list");
    assert!(rt; answer == Ok(()) && folder.get("grid.sha256") == Some(list.as_slice()));
}

/// Whether the file of a pair is answered by a table of so many entries, by none, or by this fault.
fn reads(
    alloc: Global,
    folder: &mut MemoryFolder,
    pair: (u8, u8),
    wanted: Result<Option<u64>, StoredFault>,
) -> bool {
    let Ok(pair) = Pair::<Grid>::new(pair.0, pair.1) else {
        return false;
    };
    if folder.failures() > 1 {
        return false;
    }
    let answer = match read_table_file(alloc, folder, "grid", pair) {
        Ok(Some(raw)) => Ok(Some(raw.len())),
        Ok(None) => Ok(None),
        Err(fault) => Err(fault),
    };
    answer == wanted
}

// The first five calls write the file of 3-3, and the next two open it.
#[test]
fn a_table_is_read_from_the_file_of_its_pair(rt: HostRuntime) {
    let alloc = rt.alloc();
    let (mut folder, _) = stored_three(&rt, alloc, 0b100000);
    let folder = &mut folder;
    assert!(rt; reads(alloc, folder, (3, 3), Err(StoredFault::Unopened)));
    assert!(rt; reads(alloc, folder, (3, 3), Ok(Some(1680))));
    assert!(rt; reads(alloc, folder, (4, 3), Ok(None)));
    let file = Vec::from_slice(alloc, folder.get("grid-3-3.nmmt").unwrap_or_default());
    let mut file = file.expect(&rt, "room for the file");
    assert!(rt; folder.put("grid-4-3.nmmt", file.as_slice()).is_ok());
    assert!(rt; reads(alloc, folder, (4, 3), Err(StoredFault::OtherPair)));
    assert!(rt; file.push(0).is_ok());
    assert!(rt; folder.put("grid-3-3.nmmt", file.as_slice()).is_ok());
    let trailing = StoredFault::Refused(ReadFault::Trailing);
    assert!(rt; reads(alloc, folder, (3, 3), Err(trailing)));
}
