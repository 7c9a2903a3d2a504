// What is answered to the lines of an input, over the file of 3-3 on `grid`. The values and moves
// follow from the rules.
use crate::checks::holds;
use crate::held::Held;
use crate::making::file_of;
use morris_board::streams::{FromRead, IntoWrite};
use morris_engine_tests::drip::Drip;
use morris_jobs::fault::Fault;
use morris_pairs::layout::Layout;
use morris_queries::lookup::lookup_lines;
use morris_queries::show::Show;
use std::io::Read;
use std::process::Abort;

/// The lines that a reader gives are answered with this text, and with so many faults or this one.
fn assert_lines<R: Read>(
    rt: &(impl Abort + AllocGlobal),
    board: &str,
    held: &mut Held<'_>,
    reader: R,
    wanted: &str,
    faults: Result<u64, Fault>,
)
where
    R: Drop,
{
    let mut input = FromRead::new(reader);
    let mut output = IntoWrite::new(Vec::new(rt.alloc()));
    let refused = lookup_lines(rt.alloc(), board, held, &mut input, Show::Best, &mut output);
    holds(rt, refused == faults, wanted);
    holds(
        rt,
        output.into_inner().as_slice() == wanted.as_bytes(),
        wanted,
    );
}

// A line that is empty or begins with `#` is passed over.
const GIVEN: &str =
    "XXXOOO...\n# XX\nXXX.OO.O.\r\nXX.X\n\n\r\n#\r\n #\nXXXOOO...XXXOOO...XXXOOO...XXXOOO...\n\
    XXXOOO...\r\r\nOO.OXX.X.";

const ANSWERED: &str = "\
XXXOOO... draw: 0-6 1-7 2-8
XXX.OO.O. won in 3: 2-3
XX.X: fault 1: text is not one character per point
 #: fault 1: text is not one character per point
XXXOOO... (too long): fault 1: text is not one character per point
XXXOOO... (too long): fault 1: text is not one character per point
OO.OXX.X. lost in 2: 4-2 4-6 4-8 5-2 5-6 5-8 7-2 7-6 7-8
";

#[test]
fn lines_are_answered(rt: HostRuntime) {
    let small = file_of(&rt, "3-3", Layout::Full);
    let held = [("grid-3-3.nmmt", small.as_slice())];
    let held = &mut Held { files: &held };
    let given = GIVEN.as_bytes();
    assert_lines(&rt, "grid", held, given, ANSWERED, Ok(4));
    assert_lines(
        &rt,
        "grid",
        held,
        Drip::new(given, u64::MAX),
        ANSWERED,
        Ok(4),
    );
}

// An escape (27), the first byte of a character that is cut off, a delete (127), a backslash and a
// tabulator; of a line that is too long the first nine bytes.
const BYTES: &[u8] = b"XX\x1b[2J.O\nXXXOO\xc3...\nX~ \x7f\x80\xff\n\\x1b\t\n\x1b[31mXXX.OO.O.\n";

const SHOWN: &str = r"XX\x1b[2J.O: fault 1: text is not one character per point
XXXOO\xc3...: fault 2: bad character at 5
X~ \x7f\x80\xff: fault 1: text is not one character per point
\\x1b\x09: fault 1: text is not one character per point
\x1b[31mXXX. (too long): fault 1: text is not one character per point
";

#[test]
fn bytes_that_are_not_printable_are_shown_by_their_digits(rt: HostRuntime) {
    let held = &mut Held { files: &[] };
    assert_lines(&rt, "grid", held, BYTES, SHOWN, Ok(5));
}

#[test]
fn no_line_has_no_answer(rt: HostRuntime) {
    let held = &mut Held { files: &[] };
    for none in ["", "\n", "\r", "# XXXOOO...\n\n#"] {
        assert_lines(&rt, "nine", held, none.as_bytes(), "", Ok(0));
    }
    assert_lines(&rt, "none", held, b"X\n".as_slice(), "", Err(Fault::Board));
}

// The answer to the line before the failure is out, and the line that was begun has none.
#[test]
fn a_read_that_fails_ends_the_answers(rt: HostRuntime) {
    let small = file_of(&rt, "3-3", Layout::Full);
    let held = [("grid-3-3.nmmt", small.as_slice())];
    let held = &mut Held { files: &held };
    let first = "XXXOOO... draw: 0-6 1-7 2-8\n";
    let reader = Drip::new(GIVEN.as_bytes(), 11);
    assert_lines(&rt, "grid", held, reader, first, Err(Fault::Read));
}
