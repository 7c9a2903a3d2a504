// What is answered to strings over the files of 3-3 and 4-3 on `grid`, in either version. The
// values and moves follow from the rules.
use crate::checks::holds;
use crate::held::Held;
use crate::making::file_of;
use morris_board::streams::IntoWrite;
use morris_files::reason::Reason;
use morris_jobs::fault::Fault;
use morris_pairs::layout::Layout;
use morris_queries::library::Library;
use morris_queries::lookup::lookup_strings;
use morris_queries::show::Show;
use morris_queries::system::SystemLibrary;
use std::fs::File;
use std::io::Write;
use std::process::Abort;
use std::rt::Files;
use std::sync::Wait;
use std::thread::Threads;

/// Strings are answered by this text and this number of faults.
pub(crate) fn assert_asked<L: Library>(
    rt: &(impl Abort + AllocGlobal),
    held: &mut L,
    strings: &[&str],
    show: Show,
    wanted: &str,
    faults: u64,
) {
    let mut output = IntoWrite::new(Vec::new(rt.alloc()));
    let refused = lookup_strings(rt.alloc(), "grid", held, strings, show, &mut output);
    holds(rt, refused == Ok(faults), wanted);
    holds(
        rt,
        output.into_inner().as_slice() == wanted.as_bytes(),
        wanted,
    );
}

const FOUR: &str = "\
XXXOOO... draw: 0-6 1-7 2-8
XXX.OO.O. won in 3: 2-3
OO.OXX.X. lost in 2: 4-2 4-6 4-8 5-2 5-6 5-8 7-2 7-6 7-8
XX..OO.OX won in 1: 8-2x4 8-2x5 8-2x7
";

const MIXED: &str = "\
XX.X: fault 1: text is not one character per point
XX.OOO... lost in 0
XXXOOO..?: fault 2: bad character at 8
XXXXXXOOO: fault 13: needs 6-3
XXXOOO... (too long): fault 1: text is not one character per point
XXXXXXXXX: fault 3: bad number of stones
XXX.OO.O. won in 3: 2-3
: fault 1: text is not one character per point
";

const LINE: &str = "\
XXX.OO.O. won in 3: 2-3
  2-3 OO.OXX.X. lost in 2
  4-2 XXOX.O.O. won in 1
  1-6x2 O..O.XOX. lost in 0
XXXOOO... draw: 0-6 1-7 2-8
";

const FIELDS: &str = "\
text,move,result,depth
XXX.OO.O.,0-3,draw,
XXX.OO.O.,0-6,lost,2
XXX.OO.O.,0-8,lost,2
XXX.OO.O.,1-3,lost,2
XXX.OO.O.,1-6,lost,2
XXX.OO.O.,1-8,lost,2
XXX.OO.O.,2-3,won,3
XXX.OO.O.,2-6,lost,2
XXX.OO.O.,2-8,lost,2
XX.X: fault 1: text is not one character per point
";

/// All answers are right that need no more than 3-3.
fn assert_right<L: Library>(rt: &(impl Abort + AllocGlobal), held: &mut L) {
    let four = ["XXXOOO...", "XXX.OO.O.", "OO.OXX.X.", "XX..OO.OX"];
    assert_asked(rt, held, &four, Show::Best, FOUR, 0);
    let mixed = [
        "XX.X",
        "XX.OOO...",
        "XXXOOO..?",
        "XXXXXXOOO",
        "XXXOOO....",
        "XXXXXXXXX",
        "XXX.OO.O.",
        "",
    ];
    assert_asked(rt, held, &mixed, Show::Best, MIXED, 6);
    let line = ["XXX.OO.O.", "XXXOOO..."];
    assert_asked(rt, held, &line, Show::Line, LINE, 0);
    let fields = ["XXX.OO.O.", "XX.OOO...", "XX.X"];
    assert_asked(rt, held, &fields, Show::Csv, FIELDS, 1);
}

/// How many lines a text has, and whether this one is among them.
fn has_line(text: &[u8], line: &str) -> (usize, bool) {
    let (mut count, mut is_there) = (0usize, false);
    for part in text.split(|byte| *byte == b'\n') {
        count = count.saturating_add(1);
        is_there = is_there || part == line.as_bytes();
    }
    (count, is_there)
}

/// The moves of a position are shown: eight quiet ones and three captures, below the first line;
/// the text after the last line feed is empty.
fn assert_moves_shown<L: Library>(rt: &(impl Abort + AllocGlobal), held: &mut L) {
    let mut output = IntoWrite::new(Vec::new(rt.alloc()));
    let strings = ["XX..OO.OX"];
    let refused = lookup_strings(rt.alloc(), "grid", held, &strings, Show::Moves, &mut output);
    holds(rt, refused == Ok(0), "an answer");
    let text = output.into_inner();
    let has = |line| has_line(text.as_slice(), line) == (13, true);
    holds(rt, has("  8-2x4 won in 1"), "a capture");
    holds(rt, has("  8-3 won in 3"), "a quiet move");
}

/// A position of 4-3, one of whose captures leads to 3-3, is answered over these files by a text
/// and a number of faults.
fn assert_capture_asked(
    rt: &(impl Abort + AllocGlobal),
    files: &[(&str, &[u8])],
    wanted: &str,
    faults: u64,
) {
    let held = &mut Held { files };
    assert_asked(rt, held, &["XX.OOX.OO"], Show::Best, wanted, faults);
}

const DRAWN: &str = "XX.OOX.OO draw: 0-6 1-6\n";

const NEEDS: &str = "XX.OOX.OO: fault 13: needs 3-3\n";

const SHORT: &str = "XX.OOX.OO: fault 15: file is too short\n";

/// That position is answered, and by what is needed where the file of 3-3 isn't there or is one of
/// another pair, or by what is wrong with it.
fn assert_four_three_right(rt: &(impl Abort + AllocGlobal), small: &[u8], large: &[u8]) {
    let (first, second) = ("grid-3-3.nmmt", "grid-4-3.nmmt");
    assert_capture_asked(rt, &[(first, small), (second, large)], DRAWN, 0);
    assert_capture_asked(rt, &[(second, large)], NEEDS, 1);
    assert_capture_asked(rt, &[(first, large), (second, large)], NEEDS, 1);
    assert_capture_asked(rt, &[(first, b"NMMT"), (second, large)], SHORT, 1);
}

/// The files of 3-3 and of 4-3 in a layout answer.
fn assert_files_answer(rt: &(impl Abort + AllocGlobal + Threads + Wait + Sync), layout: Layout) {
    let small = file_of(rt, "3-3", layout);
    let large = file_of(rt, "4-3", layout);
    let held = [("grid-3-3.nmmt", small.as_slice())];
    let mut held = Held { files: &held };
    assert_right(rt, &mut held);
    assert_moves_shown(rt, &mut held);
    assert_four_three_right(rt, small.as_slice(), large.as_slice());
}

#[test]
fn files_by_positions_answer(rt: HostRuntime) {
    assert_files_answer(&rt, Layout::Full);
}

#[test]
fn files_by_classes_answer(rt: HostRuntime) {
    assert_files_answer(&rt, Layout::Classes);
}

/// Strings on a board over a folder of this path are answered by this fault, for this reason, and
/// nothing is written.
fn assert_refused<R: Files<File = File> + AllocGlobal + Abort>(
    rt: &R,
    board: &str,
    path: &str,
    fault: Fault,
    why: Option<Reason>,
) {
    let mut folder = SystemLibrary::new(rt, path);
    let mut output = IntoWrite::new(Vec::new(rt.alloc()));
    let strings = ["XXXOOO..."];
    let answer = lookup_strings(
        rt.alloc(),
        board,
        &mut folder,
        &strings,
        Show::Best,
        &mut output,
    );
    holds(rt, answer == Err(fault), path);
    holds(rt, output.into_inner().is_empty(), path);
    holds(rt, folder.why() == why, path);
}

#[test]
fn a_folder_on_a_disk_answers(rt: HostRuntime) {
    let small = file_of(&rt, "3-3", Layout::Classes);
    let mut file = File::create(&rt, "grid-3-3.nmmt").expect(&rt, "a place to write");
    file.write_all(small.as_slice()).expect(&rt, "room");
    drop(file);
    let mut folder = SystemLibrary::new(&rt, ".");
    assert_right(&rt, &mut folder);
    holds(&rt, folder.why() == None, "no reason");
    assert_refused(&rt, "none", ".", Fault::Board, None);
}

#[test]
fn what_is_no_folder_is_told(rt: HostRuntime) {
    let file = File::create(&rt, "no-folder").expect(&rt, "a place to write");
    drop(file);
    let none = Fault::NoFolder;
    assert_refused(&rt, "grid", "", none, Some(Reason::Nameless));
    assert_refused(&rt, "grid", "no-folder", none, Some(Reason::NotAFolder));
    assert_refused(
        &rt,
        "grid",
        "no-folder/below",
        none,
        Some(Reason::NotAFolder),
    );
    assert_refused(&rt, "grid", "misspelt", none, Some(Reason::NotFound));
}
