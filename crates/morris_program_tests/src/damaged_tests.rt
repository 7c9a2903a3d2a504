// Files by positions of 3-3 on `grid` of which entries were changed: where what the file states of
// a position doesn't follow from what it states of the results of the legal moves, that is the
// answer.
use crate::asking_tests::assert_asked;
use crate::held::Held;
use crate::making::file_of;
use morris_pairs::layout::Layout;
use morris_queries::show::Show;
use std::process::Abort;

/// The entries of positions: 20 times the rank of the own three points, and the rank of the others
/// among the six points that are left.
const WON: usize = 6; // XXX.OO.O., won in 3, whose best move leads to the next

const LOST: usize = 981; // OO.OXX.X., lost in 2, whose best move leads to the next

const LAST: usize = 25; // XXOX.O.O., won in 1

const DRAWN: usize = 0; // XXXOOO..., a draw, of which the move 0-6 leads to the next

const AFTER: usize = 383; // .OOXXXO..

/// Sets the code at an entry.
fn set_code(bytes: &mut [u8], entry: usize, code: u16) {
    let place = entry.saturating_mul(2).saturating_add(16);
    for (at, byte) in bytes.iter_mut().enumerate() {
        let [high, low] = code.to_be_bytes();
        if at == place {
            *byte = high;
        } else if at == place.saturating_add(1) {
            *byte = low;
        }
    }
}

/// This is answered over the file to a string alone, with so many faults.
fn assert_answers(
    rt: &(impl Abort + AllocGlobal),
    small: &[u8],
    text: &str,
    show: Show,
    wanted: &str,
    faults: u64,
) {
    let files = [("grid-3-3.nmmt", small)];
    assert_asked(
        rt,
        &mut Held { files: &files },
        &[text],
        show,
        wanted,
        faults,
    );
}

const WON_FAULT: &str = "\
XXX.OO.O.: fault 37: the files of this position and its moves disagree
";

const LOST_FAULT: &str = "\
OO.OXX.X.: fault 37: the files of this position and its moves disagree
";

const DRAWN_FAULT: &str = "\
XXXOOO...: fault 37: the files of this position and its moves disagree
";

/// The three answers to a string are this fault.
fn assert_disagrees(rt: &(impl Abort + AllocGlobal), small: &[u8], text: &str, fault: &str) {
    assert_answers(rt, small, text, Show::Best, fault, 1);
    assert_answers(rt, small, text, Show::Moves, fault, 1);
    assert_answers(rt, small, text, Show::Line, fault, 1);
}

// A draw is stated of what is won in 3.
#[test]
fn a_value_that_does_not_follow_is_not_told(rt: HostRuntime) {
    let mut small = file_of(&rt, "3-3", Layout::Full);
    set_code(small.as_mut_slice(), WON, 0);
    assert_disagrees(&rt, small.as_slice(), "XXX.OO.O.", WON_FAULT);
}

// A depth is stated that no move leads to: 5 and not 3; then the greatest of a win and of a loss.
#[test]
fn a_depth_that_does_not_follow_is_not_told(rt: HostRuntime) {
    let mut small = file_of(&rt, "3-3", Layout::Full);
    for code in [6, 65534, 65535] {
        set_code(small.as_mut_slice(), WON, code);
        assert_disagrees(&rt, small.as_slice(), "XXX.OO.O.", WON_FAULT);
    }
}

// The result of the best move is stated as a draw, as lost in 0 and as lost in 65,534: what the
// move leads to is then a draw, won in 1 and won in 65,535.
#[test]
fn a_result_that_contradicts_the_value_is_told(rt: HostRuntime) {
    let mut small = file_of(&rt, "3-3", Layout::Full);
    for code in [0, 1, 65535] {
        set_code(small.as_mut_slice(), LOST, code);
        assert_disagrees(&rt, small.as_slice(), "XXX.OO.O.", WON_FAULT);
        assert_disagrees(&rt, small.as_slice(), "OO.OXX.X.", LOST_FAULT);
    }
}

// The files disagree on the second position of the line alone.
#[test]
fn a_line_ends_at_the_first_position_that_disagrees(rt: HostRuntime) {
    let mut small = file_of(&rt, "3-3", Layout::Full);
    set_code(small.as_mut_slice(), LAST, 0);
    let small = small.as_slice();
    let told = "XXX.OO.O. won in 3: 2-3\n";
    assert_answers(&rt, small, "XXX.OO.O.", Show::Best, told, 0);
    assert_answers(&rt, small, "XXX.OO.O.", Show::Line, WON_FAULT, 1);
}

// A win in 1 is stated of a draw, and that its result is lost at once: the position and its moves
// agree, and at the end of the line there are moves.
#[test]
fn a_line_does_not_end_where_there_are_moves(rt: HostRuntime) {
    let mut small = file_of(&rt, "3-3", Layout::Full);
    set_code(small.as_mut_slice(), DRAWN, 2);
    set_code(small.as_mut_slice(), AFTER, 1);
    let small = small.as_slice();
    let told = "XXXOOO... won in 1: 0-6\n";
    assert_answers(&rt, small, "XXXOOO...", Show::Best, told, 0);
    assert_answers(&rt, small, "XXXOOO...", Show::Line, DRAWN_FAULT, 1);
}

// Where each entry is lost in 65,534, each move leads to a win in 65,535, which no file states; a
// player with two stones has lost all the same.
#[test]
fn the_greatest_depth_agrees_with_none(rt: HostRuntime) {
    let mut small = file_of(&rt, "3-3", Layout::Full);
    let count = small.len();
    for (place, byte) in small.as_mut_slice().iter_mut().enumerate() {
        if 16 <= place && place.saturating_add(32) < count {
            *byte = 255;
        }
    }
    let small = small.as_slice();
    assert_disagrees(&rt, small, "XXXOOO...", DRAWN_FAULT);
    let lost = "XX.OOO... lost in 0\n";
    assert_answers(&rt, small, "XX.OOO...", Show::Line, lost, 0);
}
