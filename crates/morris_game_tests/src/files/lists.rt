// The list of digests in a folder in memory: the lines of an old one that are retained, and what is
// written.
use crate::memory::MemoryFolder;
use morris_board::grid::Grid;
use morris_files::checksum_list::write_list;
use morris_files::folder::Folder;
use morris_files::old_checksums::{ListFault, retained_lines};
use morris_files::whole::Step;
use morris_index::pair::Pair;
use std::alloc::Global;
use std::process::Abort;

/// A list of the five pairs below 5-4.
const FIVE: &[u8] = b"\
0000000000000000000000000000000000000000000000000000000000000033  grid-3-3.nmmt\n\
0000000000000000000000000000000000000000000000000000000000000043  grid-4-3.nmmt\n\
0000000000000000000000000000000000000000000000000000000000000044  grid-4-4.nmmt\n\
0000000000000000000000000000000000000000000000000000000000000053  grid-5-3.nmmt\n\
abcdef0123456789abcdef0123456789abcdef0123456789abcdef0123456789  grid-5-4.nmmt\n";

/// Its lines of the three pairs that aren't below 4-3.
const THREE: &[u8] = b"\
0000000000000000000000000000000000000000000000000000000000000044  grid-4-4.nmmt\n\
0000000000000000000000000000000000000000000000000000000000000053  grid-5-3.nmmt\n\
abcdef0123456789abcdef0123456789abcdef0123456789abcdef0123456789  grid-5-4.nmmt\n";

/// Its last line.
const LAST: &[u8] =
    b"abcdef0123456789abcdef0123456789abcdef0123456789abcdef0123456789  grid-5-4.nmmt\n";

/// Lines of which none is that of a file as this program writes it, in one way each: a digit too
/// few, one too many, a digit that is none, one in upper case, one blank, a mark for binary files,
/// another name, the name with more after it or before it, a number of stones that no pair has, one
/// that is written otherwise, numbers in the wrong order, another board, a line of no digest, an
/// empty one, a digest alone, and an end of a line of another system.
const OTHERS: &[u8] = b"\
bcdef0123456789abcdef0123456789abcdef0123456789abcdef0123456789  grid-5-4.nmmt\n\
0abcdef0123456789abcdef0123456789abcdef0123456789abcdef0123456789  grid-5-4.nmmt\n\
gbcdef0123456789abcdef0123456789abcdef0123456789abcdef0123456789  grid-5-4.nmmt\n\
abcdef0123456789abcdef0123456789abcdef0123456789abcdef012345678F  grid-5-4.nmmt\n\
abcdef0123456789abcdef0123456789abcdef0123456789abcdef0123456789 grid-5-4.nmmt\n\
abcdef0123456789abcdef0123456789abcdef0123456789abcdef0123456789 *grid-5-4.nmmt\n\
abcdef0123456789abcdef0123456789abcdef0123456789abcdef0123456789  grid-5-4.nmmt.part\n\
abcdef0123456789abcdef0123456789abcdef0123456789abcdef0123456789   grid-5-4.nmmt\n\
abcdef0123456789abcdef0123456789abcdef0123456789abcdef0123456789  ./grid-5-4.nmmt\n\
abcdef0123456789abcdef0123456789abcdef0123456789abcdef0123456789  grid-5-2.nmmt\n\
abcdef0123456789abcdef0123456789abcdef0123456789abcdef0123456789  grid-10-4.nmmt\n\
abcdef0123456789abcdef0123456789abcdef0123456789abcdef0123456789  grid-05-4.nmmt\n\
abcdef0123456789abcdef0123456789abcdef0123456789abcdef0123456789  grid-4-5.nmmt\n\
abcdef0123456789abcdef0123456789abcdef0123456789abcdef0123456789  nine-5-4.nmmt\n\
# grid-5-4.nmmt\n\
\n\
abcdef0123456789abcdef0123456789abcdef0123456789abcdef0123456789\n\
abcdef0123456789abcdef0123456789abcdef0123456789abcdef0123456789  grid-5-4.nmmt\r\n";

/// The lines of this list that are retained where a build of the pair replaces files, as the caller
/// gets them.
fn retains(
    alloc: Global,
    list: Option<&[u8]>,
    pair: (u8, u8),
    wanted: Result<&[u8], ListFault>,
) -> bool {
    let mut folder = MemoryFolder::new(alloc, 0, 0);
    let Ok(pair) = Pair::<Grid>::new(pair.0, pair.1) else {
        return false;
    };
    if let Some(list) = list {
        if folder.put("grid.sha256", list).is_err() {
            return false;
        }
    }
    let retained = retained_lines(alloc, &mut folder, "grid", pair);
    let same = match (&retained, wanted) {
        (Ok(retained), Ok(wanted)) => retained.as_slice() == wanted,
        (Err(fault), Err(wanted)) => *fault == wanted,
        _ => false,
    };
    same && folder.get("grid.sha256") == list
}

#[test]
fn the_lines_of_files_that_stay_are_kept(rt: HostRuntime) {
    let alloc = rt.alloc();
    assert!(rt; retains(alloc, Some(FIVE), (4, 3), Ok(THREE)));
    assert!(rt;
        retains(
            alloc,
            Some(FIVE),
            (5, 3),
            Ok(
                b"\
0000000000000000000000000000000000000000000000000000000000000044  grid-4-4.nmmt\n\
abcdef0123456789abcdef0123456789abcdef0123456789abcdef0123456789  grid-5-4.nmmt\n"
            )
        )
    );
    assert!(rt; retains(alloc, Some(FIVE), (5, 4), Ok(b"")));
    assert!(rt; retains(alloc, Some(THREE), (3, 3), Ok(THREE)));
}

#[test]
fn nothing_is_kept_of_no_list(rt: HostRuntime) {
    assert!(rt; retains(rt.alloc(), None, (3, 3), Ok(b"")));
    assert!(rt; retains(rt.alloc(), Some(b""), (3, 3), Ok(b"")));
}

/// Whether each line of `OTHERS` is dropped, and the lines before and after it are not.
fn drops_others(alloc: Global) -> Option<bool> {
    let mut list = Vec::from_slice(alloc, THREE).ok()?;
    list.extend_from_slice(OTHERS).ok()?;
    list.extend_from_slice(LAST).ok()?;
    let mut retained = Vec::from_slice(alloc, THREE).ok()?;
    retained.extend_from_slice(LAST).ok()?;
    Some(retains(
        alloc,
        Some(list.as_slice()),
        (4, 3),
        Ok(retained.as_slice()),
    ))
}

#[test]
fn other_lines_are_dropped(rt: HostRuntime) {
    assert!(rt; retains(rt.alloc(), Some(OTHERS), (3, 3), Ok(b"")));
    assert!(rt; drops_others(rt.alloc()) == Some(true));
}

#[test]
fn the_last_line_of_a_list_may_have_no_line_feed(rt: HostRuntime) {
    let alloc = rt.alloc();
    let short = LAST.split_last().expect(&rt, "the last line").1;
    assert!(rt; retains(alloc, Some(short), (4, 3), Ok(LAST)));
    assert!(rt; retains(alloc, Some(short), (5, 4), Ok(b"")));
    let shorter = short.split_last().expect(&rt, "the last line").1;
    assert!(rt; retains(alloc, Some(shorter), (4, 3), Ok(b"")));
}

/// So many lines of FIVE's last pair, and then so many blanks.
fn long_list(alloc: Global, lines: usize, blanks: usize) -> Option<Vec<u8>> {
    let mut list = Vec::new(alloc);
    for _ in 0..lines {
        list.extend_from_slice(LAST).ok()?;
    }
    for _ in 0..blanks {
        list.push(b' ').ok()?;
    }
    Some(list)
}

// 819 lines of 80 bytes and 16 more are 65,536.
#[test]
fn a_list_that_is_too_long_is_refused(rt: HostRuntime) {
    let alloc = rt.alloc();
    let list = long_list(alloc, 819, 16).expect(&rt, "room for a list");
    let retained = long_list(alloc, 819, 0).expect(&rt, "room for a list");
    assert!(rt;
        retains(
            alloc,
            Some(list.as_slice()),
            (4, 3),
            Ok(retained.as_slice())
        )
    );
    let list = long_list(alloc, 819, 17).expect(&rt, "room for a list");
    assert!(rt; retains(alloc, Some(list.as_slice()), (4, 3), Err(ListFault::Long)));
}

#[test]
fn a_list_that_cannot_be_opened_is_refused(rt: HostRuntime) {
    let pair = Pair::<Grid>::new(4, 3).ok().expect(&rt, "a pair");
    let mut folder = MemoryFolder::new(rt.alloc(), 1, 0);
    assert!(rt; folder.put("grid.sha256", FIVE).is_ok());
    let retained = retained_lines(rt.alloc(), &mut folder, "grid", pair);
    assert!(rt; retained.err() == Some(ListFault::Unopened));
    assert!(rt; folder.failures() == 1 && folder.get("grid.sha256") == Some(FIVE));
}

// The list before the first file is replaced has the retained lines and no other. The first five
// calls write it, and the seventh is to make the part of the next.
#[test]
fn a_list_is_written_whole_or_not_at_all(rt: HostRuntime) {
    let alloc = rt.alloc();
    let mut folder = MemoryFolder::new(alloc, 0b1000000, 0);
    assert!(rt; folder.put("grid.sha256", FIVE).is_ok());
    assert!(rt; write_list::<Grid, MemoryFolder>(alloc, &mut folder, "grid", THREE, &[]).is_ok());
    assert!(rt; folder.get("grid.sha256") == Some(THREE) && folder.count() == 1);
    let answer = write_list::<Grid, MemoryFolder>(alloc, &mut folder, "grid", LAST, &[]);
    assert!(rt; answer.err().map(|fault| fault.step) == Some(Step::Create));
    assert!(rt; folder.get("grid.sha256") == Some(THREE) && folder.count() == 1);
}
