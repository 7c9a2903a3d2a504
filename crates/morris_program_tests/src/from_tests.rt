// Tables of a folder in memory that are verified.
use crate::checks::{assert_answered, same, same_text};
use crate::making::{changed, copied, file_of, sealed};
use morris_board::board::Geometry;
use morris_board::streams::IntoWrite;
use morris_files::folder::Folder;
use morris_folder_commands::from::verify_from;
use morris_game_tests::memory::MemoryFolder;
use morris_index::pair::Pair;
use morris_jobs::context::Parallelism;
use morris_jobs::fault::Fault;
use morris_jobs::flaw::Flaw;
use morris_jobs::progress::Progress;
use morris_jobs::size::{Plan, Size};
use morris_pairs::exact::Exact;
use morris_pairs::layout::Layout;
use morris_workers::{NoProgress, Watch};
use std::process::Abort;
use std::sync::Wait;
use std::thread::Threads;

const FIRST: &str = "verified 3-3: 1680 entries\n";

const BOTH: &str = "verified 3-3: 1680 entries\nverified 4-3: 2520 entries\n";

/// Counts the entries that are reported to it.
#[derive(Drop)]
struct Tally {
    whole: u64,
    done: u64,
}

impl Watch for Tally {
    ghost use Rattle.std.specs.Prelude.{⊤};

    ghost becomes = { λ old new. ⊤ };

    fn wave(&mut self, _wave: u16) {}

    fn entries(&mut self, _done: u64) {}

    ghost stays = { λ told. tt };

    ghost joins = { λ first midway last once again. tt };
}

impl Progress for Tally {
    ghost use Rattle.std.specs.Prelude.{true};

    ghost is_reported = { λ _. true };

    fn is_reported(&self) -> bool {
        true
    }

    fn start_with_size(&mut self, size: Size) {
        self.whole = size.entries;
    }

    fn start<B: Geometry>(&mut self, _pair: Pair<B>, _layout: Layout, _plan: Plan) {}

    fn begin_pair<B: Geometry>(&mut self, _pair: Pair<B>) {}

    fn end_pair<B: Geometry>(&mut self, table: &Exact<B>) {
        self.done = self.done.saturating_add(table.len());
    }
}

fn assert_answers(
    rt: &(impl Abort + AllocGlobal + Threads + Sync),
    folder: &mut MemoryFolder,
    wanted: Result<(), Fault>,
    lines: &str,
) {
    assert_tells(rt, folder, &mut NoProgress, wanted, lines);
}

fn assert_tells<T: Progress>(
    rt: &(impl Abort + AllocGlobal + Threads + Sync),
    folder: &mut MemoryFolder,
    told: &mut T,
    wanted: Result<(), Fault>,
    lines: &str,
) {
    assert!(rt; folder.failures() == 0);
    let mut output = IntoWrite::new(Vec::new(rt.alloc()));
    let parallelism = Parallelism::new(3, 5).expect(rt, "a team");
    let answer = verify_from(
        rt,
        rt.alloc(),
        "grid",
        parallelism,
        folder,
        &mut output,
        told,
    );
    assert_answered(rt, answer, output.into_inner().as_slice(), wanted, lines);
}

/// The name of the file of 3-3.
const THREE: &str = "grid-3-3.nmmt";

/// The name of the file of 4-3.
const FOUR: &str = "grid-4-3.nmmt";

/// Another file under a name.
fn put(rt: &impl Abort, folder: &mut MemoryFolder, name: &str, file: &[u8]) {
    folder.put(name, file).expect(rt, "memory");
}

/// The bytes of the file under a name, or none.
fn bytes_of(rt: &(impl Abort + AllocGlobal), folder: &MemoryFolder, name: &str) -> Vec<u8> {
    copied(rt, folder.get(name).unwrap_or_default())
}

/// A folder whose calls that are set in the bits fail, with the files of 3-3 and 4-3 where these
/// are wanted.
fn folder_with(
    rt: &(impl Abort + AllocGlobal + Threads + Wait + Sync),
    calls: u64,
    has_three: bool,
    has_four: bool,
) -> MemoryFolder {
    let mut folder = MemoryFolder::new(rt.alloc(), calls, 0);
    if has_three {
        let file = file_of(rt, "3-3", Layout::Full);
        put(rt, &mut folder, THREE, file.as_slice());
    }
    if has_four {
        let file = file_of(rt, "4-3", Layout::Full);
        put(rt, &mut folder, FOUR, file.as_slice());
    }
    folder
}

#[test]
fn each_table_is_told(rt: HostRuntime) {
    assert_answers(&rt, &mut folder_with(&rt, 0, true, true), Ok(()), BOTH);
    assert_answers(&rt, &mut folder_with(&rt, 0, true, false), Ok(()), FIRST);
}

#[test]
fn files_that_are_missing_are_named(rt: HostRuntime) {
    let none = Err(Fault::NoFiles);
    assert_answers(&rt, &mut folder_with(&rt, 0, false, false), none, "");
    let needs = Err(Fault::InFile(4, 3, Flaw::Needs(3, 3)));
    assert_answers(&rt, &mut folder_with(&rt, 0, false, true), needs, "");
}

#[test]
fn a_file_that_is_not_opened_is_named(rt: HostRuntime) {
    let first = Err(Fault::Unopened(3, 3));
    assert_answers(&rt, &mut folder_with(&rt, 0b10, true, true), first, "");
    let second = Err(Fault::Unopened(4, 3));
    assert_answers(&rt, &mut folder_with(&rt, 0b100, true, true), second, FIRST);
}

#[test]
fn a_folder_that_is_not_found_is_told(rt: HostRuntime) {
    let folder = &mut folder_with(&rt, 0b1, true, true);
    assert_answers(&rt, folder, Err(Fault::NoFolder), "");
    same(&rt, folder.failures(), 1, "failures");
}

#[test]
fn the_entries_of_all_files_are_told_first(rt: HostRuntime) {
    let mut told = Tally { whole: 0, done: 0 };
    let folder = &mut folder_with(&rt, 0, true, true);
    assert_tells(&rt, folder, &mut told, Ok(()), BOTH);
    same(&rt, told.whole, 4200, "the entries that were told first");
    same(&rt, told.done, 4200, "the entries that were told");
}

// The first call finds the folder, and the next two read the headers.
#[test]
fn a_file_that_is_not_opened_at_first_is_not_opened_again(rt: HostRuntime) {
    let mut told = Tally { whole: 0, done: 0 };
    let folder = &mut folder_with(&rt, 0b100, true, true);
    let second = Err(Fault::Unopened(4, 3));
    assert_tells(&rt, folder, &mut told, second, FIRST);
    same(&rt, told.whole, 1680, "the entries that were told first");
    same(&rt, told.done, 1680, "the entries that were told");
    same(&rt, folder.failures(), 1, "failures");
}

#[test]
fn a_damaged_file_is_named(rt: HostRuntime) {
    let folder = &mut folder_with(&rt, 0, true, true);
    let right = bytes_of(&rt, folder, FOUR);
    let byte = right.as_slice().get(100).copied().unwrap_or_default();
    let damaged = changed(&rt, right.as_slice(), 100, byte ^ 1);
    put(&rt, folder, FOUR, damaged.as_slice());
    let fault = Err(Fault::InFile(4, 3, Flaw::Digest));
    assert_answers(&rt, folder, fault, FIRST);
    let short = &right.as_slice()[..right.len().saturating_sub(1)];
    put(&rt, folder, FOUR, short);
    assert_answers(&rt, folder, Err(Fault::InFile(4, 3, Flaw::Short)), FIRST);
    let other = bytes_of(&rt, folder, THREE);
    put(&rt, folder, FOUR, other.as_slice());
    assert_answers(&rt, folder, Err(Fault::OtherPair(4, 3)), FIRST);
}

/// A fault has this number and this text.
fn assert_text(rt: &(impl Abort + AllocGlobal), fault: Fault, number: u64, wanted: &str) {
    let text = format!(in rt.alloc(); "{fault}").expect(rt, "memory");
    same(rt, u64::from(fault.number()), number, wanted);
    same_text(rt, text.as_str(), wanted);
}

// Entry 20 of 3-3 is won in 1; here it is a draw, under a digest that is right.
#[test]
fn a_false_file_is_named(rt: HostRuntime) {
    let folder = &mut folder_with(&rt, 0, true, true);
    let right = bytes_of(&rt, folder, THREE);
    let wrong = changed(&rt, right.as_slice(), 57, 0);
    put(&rt, folder, THREE, sealed(&rt, wrong.as_slice()).as_slice());
    let fault = Fault::InFile(3, 3, Flaw::Differs(20));
    assert_answers(&rt, folder, Err(fault), "");
    assert_text(&rt, fault, 14, "entry 20 differs, in the file of 3-3");
}
