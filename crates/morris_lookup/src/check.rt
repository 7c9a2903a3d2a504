//! Whether bytes are a table file.
ghost use Rattle.std.specs.Prelude.{◌≡◌, ◌<◌, ◌^◌};
ghost use Rattle.morris_index.specs.Pairs.{IsPair};
ghost use Rattle.morris_pairs.specs.Entries.{entry_count};
ghost use Rattle.morris_lookup.specs.Checking.{header_said};

use crate::file_checks::{check_length, read_header};
use morris_board::board::Geometry;
use morris_index::class_sizes::class_size;
use morris_index::pair::Pair;
use morris_pairs::file_faults::ReadFault;
use morris_pairs::header::version_of;
use morris_pairs::layout::Layout;

/// What the header of a table file says, as numbers that other languages read.
#[repr(C)]
#[derive(Clone, Copy)]
pub struct HeaderRecord {
    /// 1 for a file with an entry for each position, 2 for one by classes.
    pub version: u8,
    /// The number of the board.
    pub board: u8,
    /// The greater number of stones of the pair.
    pub greater: u8,
    /// The lesser number of stones.
    pub lesser: u8,
    /// Always 0.
    pub pad: u32,
    /// How many entries the table has.
    pub entries: u64,
}

/// What the header of a table file of this board says, where it and the number of bytes are right.
/// The codes and the digest aren't checked. For a file by classes it goes through all sets of as
/// many points as either player has stones. No memory is taken.
///
/// # Errors
/// The first that applies: `Short` where there are fewer bytes than a header has; `Magic`,
/// `Version`, `BoardId`, `Counts`, `Crowded` and `Count` for the header; `Short` and `Trailing`
/// where there are fewer or more bytes than the file of that table has.
pub fn check<B: Geometry>(bytes: &[u8]) -> Result<HeaderRecord, ReadFault>
    ensures { result ≡ header_said B.shape bytes.now }
{
    let (layout, pair, stated, length) = read_header::<B, &[u8]>(&bytes)?;
    let entries = count_of(pair, layout);
    check_length(stated, length, entries)?;
    Ok(HeaderRecord {
        version: version_of(layout),
        board: B::ID,
        greater: pair.greater(),
        lesser: pair.lesser(),
        pad: 0,
        entries,
    })
}

/// How many entries a pair has in a layout.
fn count_of<B: Geometry>(pair: Pair<B>, layout: Layout) -> u64
    ensures value { result ≡ entry_count B.shape B.POINTS layout pair }
    ensures few { result < 2 ^ 56 }
{
    // The proof learns the pair's rules where a number is asked for.
    let _ = pair.greater();
    match layout {
        Layout::Full => pair.size(),
        Layout::Classes => class_size(pair),
    }
}
