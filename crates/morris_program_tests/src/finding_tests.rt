// `stats_from` and `find_from` over the file of 3-3 on `grid`: what is refused, and in which order,
// and what a read or a write that fails leaves.
use crate::checks::{assert_answered, holds};
use crate::held::Held;
use crate::making::file_of;
use morris_board::streams::{Failed, IntoWrite};
use morris_files::folder::Folder;
use morris_files::reason::Reason;
use morris_game_tests::memory::MemoryFolder;
use morris_jobs::fault::Fault;
use morris_lookup::storage::Storage;
use morris_pairs::layout::Layout;
use morris_queries::file_questions::{find_from, stats_from};
use morris_queries::find::Shown;
use morris_queries::library::{Library, Unfound};
use std::process::Abort;

/// The counts of a pair are refused for this fault, and nothing is printed.
fn assert_uncounted<L: Library>(
    rt: &(impl Abort + AllocGlobal),
    library: &mut L,
    board: &str,
    pair: &str,
    fault: Fault,
) {
    let mut output = IntoWrite::new(Vec::new(rt.alloc()));
    let answer = stats_from(rt.alloc(), board, pair, false, library, &mut output);
    assert_answered(rt, answer, output.into_inner().as_slice(), Err(fault), "");
}

/// The positions of a pair of `grid` with this value are refused for this fault, and nothing is
/// printed.
fn assert_unfound<L: Library>(
    rt: &(impl Abort + AllocGlobal),
    library: &mut L,
    pair: &str,
    value: &str,
    fault: Fault,
) {
    let mut output = IntoWrite::new(Vec::new(rt.alloc()));
    let shown = Shown::Strings(9);
    let answer = find_from(
        rt.alloc(),
        "grid",
        pair,
        value,
        true,
        shown,
        library,
        &mut output,
    );
    assert_answered(rt, answer, output.into_inner().as_slice(), Err(fault), "");
}

// First the board, then the pair, then the value, then what is under the name of the pair's file.
#[test]
fn refusals_of_questions_to_a_file_come_in_order(rt: HostRuntime) {
    let large = file_of(&rt, "4-3", Layout::Full);
    let held: [(&str, &[u8]); 2] = [
        ("grid-3-3.nmmt", large.as_slice()),
        ("grid-4-3.nmmt", b"NMMT"),
    ];
    let held = &mut Held { files: &held };
    assert_uncounted(&rt, held, "round", "33", Fault::Board);
    assert_uncounted(&rt, held, "grid", "33", Fault::PairText);
    assert_uncounted(&rt, held, "grid", "9-9", Fault::Crowded);
    assert_uncounted(&rt, held, "grid", "3-3", Fault::Needs(3, 3));
    assert_uncounted(&rt, held, "grid", "4-3", Fault::Short);
    assert_uncounted(&rt, held, "grid", "4-4", Fault::Needs(4, 4));
    assert_unfound(&rt, held, "33", "Won", Fault::PairText);
    assert_unfound(&rt, held, "4-4", "Won", Fault::ValueText);
    assert_unfound(&rt, held, "4-4", "won", Fault::Needs(4, 4));
}

/// A file of which only the first bytes can be read.
#[derive(Clone, Copy)]
struct Cut<'a> {
    readable: &'a [u8],
    size: u64,
}

impl Storage for Cut<'_> {
    ghost use Rattle.std.specs.Prelude.{None};

    ghost contents = { λ _. None };

    ghost held = { λ _. None };

    ghost contents_held = { λ _. tt };

    fn len(&self) -> Result<u64, Failed> {
        Ok(self.size)
    }

    fn read_at(&self, place: u64, out: &mut [u8]) -> Result<(), Failed> {
        let start = place as usize;
        match self.readable.get(start..start.saturating_add(out.len())) {
            Some(bytes) if bytes.len() == out.len() => {
                out.copy_from_slice(bytes);
                Ok(())
            }
            _ => Err(Failed),
        }
    }
}

/// A folder in which each name is that of this file.
impl<'a> Library for Cut<'a> {
    ghost use Rattle.std.specs.Prelude.{None};

    type Bytes = Cut<'a>;

    ghost files = { λ _. None };

    fn find(&mut self) -> Result<(), Unfound> {
        Ok(())
    }

    fn open(&mut self, _name: &str) -> Result<Option<Cut<'a>>, Reason> {
        Ok(Some(*self))
    }
}

// The header has 16 bytes.
#[test]
fn a_file_that_can_not_be_read_is_told(rt: HostRuntime) {
    let small = file_of(&rt, "3-3", Layout::Full);
    for count in [15, 16, 17, 3375] {
        let mut cut = Cut {
            readable: &small.as_slice()[..count.min(small.len())],
            size: small.len() as u64,
        };
        assert_uncounted(&rt, &mut cut, "grid", "3-3", Fault::Read);
        assert_unfound(&rt, &mut cut, "3-3", "won", Fault::Read);
    }
}

// The second write fails. Before it the buffer of 8,192 bytes went out, with lines of 10 bytes.
#[test]
fn a_write_of_positions_that_fails_is_counted(rt: HostRuntime) {
    let small = file_of(&rt, "3-3", Layout::Full);
    let held = [("grid-3-3.nmmt", small.as_slice())];
    let held = &mut Held { files: &held };
    let mut folder = MemoryFolder::new(rt.alloc(), 0, 2);
    let mut output = folder.create("out").expect(&rt, "a file");
    let (alloc, shown) = (rt.alloc(), Shown::Strings(u64::MAX));
    let answer = find_from(alloc, "grid", "3-3", "won", true, shown, held, &mut output);
    holds(
        &rt,
        answer == Err(Fault::Write(8190)),
        "the bytes that went out",
    );
}
