// Tables that are built into a folder in memory, while its calls fail one after the other.
use crate::checks::{assert_answered, holds};
use crate::making::joined;
use morris_board::streams::IntoWrite;
use morris_commands::build::build_out;
use morris_files::folder::Folder;
use morris_folder_commands::into::build_into;
use morris_game_tests::memory::MemoryFolder;
use morris_jobs::fault::Fault;
use morris_workers::NoProgress;
use std::process::Abort;
use std::sync::Wait;
use std::thread::Threads;

/// The lines of 3-3 and of 4-3. The SHA-256 of each file is that of the file that another program
/// makes.
const FIRST: &str =
    "3-3 1680 entries 3408 bytes f8c48a20f96d424748ed4c631d94d98d80b8b00be2f17eb8132b233d2b184076\n";

const SECOND: &str =
    "4-3 2520 entries 5088 bytes d8deb5fa7254d81b0c875ea8de2c9ba02ef7ccbda064d75c7ff60a2b862dcc32\n";

/// The list of digests.
const DIGESTS: &str =
    "f8c48a20f96d424748ed4c631d94d98d80b8b00be2f17eb8132b233d2b184076  grid-3-3.nmmt
d8deb5fa7254d81b0c875ea8de2c9ba02ef7ccbda064d75c7ff60a2b862dcc32  grid-4-3.nmmt
";

/// What 4-3 into a folder answers whose calls and writes fail that are set in the bits, the folder,
/// and what is printed.
fn build(
    rt: &(impl AllocGlobal + Threads + Wait + Sync),
    calls: u64,
    writes: u64,
) -> (Result<(), Fault>, MemoryFolder, Vec<u8>) {
    let alloc = rt.alloc();
    let mut folder = MemoryFolder::new(alloc, calls, writes);
    let (answer, printed) = build_onto(rt, &mut folder);
    (answer, folder, printed)
}

/// What 4-3 into this folder answers, and what is printed.
fn build_onto(
    rt: &(impl AllocGlobal + Threads + Wait + Sync),
    folder: &mut MemoryFolder,
) -> (Result<(), Fault>, Vec<u8>) {
    let alloc = rt.alloc();
    let mut output = IntoWrite::new(Vec::new(alloc));
    // No more than half of the calls that a count can count may have failed before.
    if folder.failures() > 64 {
        return (Err(Fault::Memory), output.into_inner());
    }
    let answer = build_into(
        rt,
        alloc,
        "grid",
        "4-3",
        2,
        4,
        false,
        folder,
        &mut output,
        &mut NoProgress,
    );
    (answer, output.into_inner())
}

/// Whether a text is some lines, one after the other.
fn is_lines(text: &[u8], lines: &[&str]) -> bool {
    let mut rest = text;
    for line in lines {
        match rest.strip_prefix(line.as_bytes()) {
            Some(after) => rest = after,
            None => return false,
        }
    }
    rest.is_empty()
}

#[test]
fn the_files_are_those_that_go_out(rt: HostRuntime) {
    let (answer, folder, printed) = build(&rt, 0, 0);
    holds(&rt, answer == Ok(()), "the answer");
    holds(
        &rt,
        is_lines(printed.as_slice(), &[FIRST, SECOND]),
        "the lines",
    );
    holds(&rt, folder.count() == 4, "the files");
    holds(&rt, folder.get(".morris.lock").is_some(), "the lock");
    assert_file(&rt, &folder, "grid.sha256", DIGESTS.as_bytes());
    assert_goes_out(&rt, &folder);
}

/// A file of a folder has these bytes.
fn assert_file(rt: &impl Abort, folder: &MemoryFolder, name: &str, bytes: &[u8]) {
    holds(rt, folder.get(name) == Some(bytes), name);
}

/// What goes out of a build of 4-3 with the pair below it is the files of a folder.
fn assert_goes_out(rt: &(impl Abort + AllocGlobal + Threads + Wait + Sync), folder: &MemoryFolder) {
    let alloc = rt.alloc();
    let mut all = IntoWrite::new(Vec::new(alloc));
    let answer = build_out(rt, alloc, "grid", "4-3", 1, 1, true, false, &mut all);
    holds(rt, answer == Ok(()), "the answer");
    let first = folder.get("grid-3-3.nmmt").unwrap_or_default();
    let second = folder.get("grid-4-3.nmmt").unwrap_or_default();
    let is_same = all.into_inner() == joined(rt, &[first, second]);
    holds(rt, is_same, "the files");
}

/// A build whose calls and writes fail that are set in the bits answers a fault, prints these
/// lines, and leaves so many files.
fn assert_refused_with(
    rt: &(impl Abort + AllocGlobal + Threads + Wait + Sync),
    (calls, writes): (u64, u64),
    fault: Fault,
    lines: &[&str],
    files: usize,
) {
    let (answer, folder, printed) = build(rt, calls, writes);
    let is_reported = answer == Err(fault) && is_lines(printed.as_slice(), lines);
    assert!(rt;
        is_reported && folder.count() == files,
        "{calls} {writes}: {fault}"
    );
}

/// The same of calls alone.
fn assert_refused(
    rt: &(impl Abort + AllocGlobal + Threads + Wait + Sync),
    calls: u64,
    fault: Fault,
    lines: &[&str],
    files: usize,
) {
    assert_refused_with(rt, (calls, 0), fault, lines, files);
}

// The folder is made, found and locked; the list of digests is opened, removed, and that settled.
// For each file its part is removed, created, synced and renamed, and that settled.
#[test]
fn a_call_that_fails_leaves_whole_files_alone(rt: HostRuntime) {
    assert_refused(&rt, 1 << 0, Fault::Folder, &[], 0);
    assert_refused(&rt, 1 << 1, Fault::NoFolder, &[], 0);
    assert_refused(&rt, 1 << 2, Fault::Unlocked, &[], 0);
    for calls in [1 << 3, 1 << 4, 1 << 5] {
        assert_refused(&rt, calls, Fault::Digests, &[], 1);
    }
    for calls in [1 << 6, 1 << 7, 1 << 8, 1 << 9] {
        assert_refused(&rt, calls, Fault::Unwritten(3, 3), &[], 1);
    }
    for calls in [1 << 11, 1 << 12, 1 << 13, 1 << 14] {
        assert_refused(&rt, calls, Fault::Unwritten(4, 3), &[FIRST], 2);
    }
    for calls in [1 << 16, 1 << 17, 1 << 18, 1 << 19] {
        assert_refused(&rt, calls, Fault::Digests, &[FIRST, SECOND], 3);
    }
}

// Where the names may not last the file is there, and no line says so.
#[test]
fn a_file_whose_name_may_not_last_is_not_told(rt: HostRuntime) {
    assert_refused(&rt, 1 << 10, Fault::Unwritten(3, 3), &[], 2);
    assert_refused(&rt, 1 << 15, Fault::Unwritten(4, 3), &[FIRST], 3);
    assert_refused(&rt, 1 << 20, Fault::Digests, &[FIRST, SECOND], 4);
    assert_refused_with(&rt, (0, 0b1), Fault::Unwritten(3, 3), &[], 1);
}

/// The line of a file that the build leaves alone, as another build wrote it.
const OTHER: &str =
    "0000000000000000000000000000000000000000000000000000000000000000  grid-5-4.nmmt\n";

/// What the list says of the file of 3-3 that was there before.
const STALE: &str =
    "1111111111111111111111111111111111111111111111111111111111111111  grid-3-3.nmmt\n";

/// A folder whose calls that are set in the bits fail, with a list of digests of these lines.
fn folder_with(rt: &(impl Abort + AllocGlobal), calls: u64, lines: &[&[u8]]) -> MemoryFolder {
    let mut folder = MemoryFolder::new(rt.alloc(), calls, 0);
    let list = joined(rt, lines);
    folder
        .put("grid.sha256", list.as_slice())
        .expect(rt, "memory");
    folder
}

#[test]
fn a_folder_that_another_has_locked_is_left_alone(rt: HostRuntime) {
    let mut folder = folder_with(&rt, 0, &[OTHER.as_bytes()]);
    folder.set_taken(true);
    let (answer, printed) = build_onto(&rt, &mut folder);
    assert_answered(&rt, answer, printed.as_slice(), Err(Fault::Busy), "");
    assert_file(&rt, &folder, "grid.sha256", OTHER.as_bytes());
    holds(&rt, folder.get("grid-3-3.nmmt").is_none(), "no file");
}

#[test]
fn the_digests_of_other_files_are_kept(rt: HostRuntime) {
    let mut folder = folder_with(&rt, 0, &[STALE.as_bytes(), OTHER.as_bytes()]);
    let (answer, _) = build_onto(&rt, &mut folder);
    holds(&rt, answer == Ok(()), "the answer");
    let wanted = joined(&rt, &[OTHER.as_bytes(), DIGESTS.as_bytes()]);
    assert_file(&rt, &folder, "grid.sha256", wanted.as_slice());
}

// The first file isn't renamed: the list has dropped those that were to be replaced.
#[test]
fn the_digests_of_files_to_be_replaced_are_forgotten_first(rt: HostRuntime) {
    let mut folder = folder_with(&rt, 1 << 12, &[STALE.as_bytes(), OTHER.as_bytes()]);
    let (answer, _) = build_onto(&rt, &mut folder);
    holds(&rt, answer == Err(Fault::Unwritten(3, 3)), "the answer");
    assert_file(&rt, &folder, "grid.sha256", OTHER.as_bytes());
}
