//! The header of the file of a pair's table, and what it says of a file that a folder has.
ghost use Rattle.std.specs.Prelude.{◌≡◌, ℕ, ◌+◌, ◌-◌, ◌<◌, ◌^◌, Err};
ghost use Rattle.morris_files.specs.Files.{HasFailed, AreUnchanged};
ghost use Rattle.morris_pairs.specs.TableFiles.{header_of};
ghost use Rattle.morris_files.specs.Headers.{AnswersHeader, header_in};
ghost use Rattle.morris_files.specs.Stored.{failures_opening};
ghost use Rattle.morris_files.specs.Names.{name_of};

use crate::folder::Folder;
use crate::stored::{StoredFault, open_table_file};
use morris_board::board::Geometry;
use morris_board::streams::Failed;
use morris_index::class_sizes::class_size;
use morris_index::pair::Pair;
use morris_pairs::file_faults::ReadFault;
use morris_pairs::header::{HEADER, Header as Fields, MAGIC, version_of};
use morris_pairs::layout::Layout;
use morris_pairs::reading::fill;
use std::alloc::Global;

/// What the header of the file of a pair's table says of the table.
#[derive(Clone, Copy, Debug, PartialEq, Eq)]
pub struct Header {
    /// How the entries are laid out.
    pub layout: Layout,
    /// How many there are, which is as many as the pair has in that layout.
    pub entries: u64,
}

/// Reads the header of the file that a folder has of a pair's table, under the name of the pair on
/// the board of this name: `None` where there is no such file, or its first bytes aren't the header
/// of a table of the pair. No more of the file is read.
///
/// Fewer than `u64::MAX` calls of the folder may have failed before.
///
/// # Errors
/// [`StoredFault::Memory`] where memory is refused for the name, else [`StoredFault::Unopened`] where
/// the file can't be opened, else [`StoredFault::Refused`] with `Read` where a read of it failed.
pub fn read_header<B: Geometry, F: Folder>(
    alloc: Global,
    folder: &mut F,
    board: &str,
    pair: Pair<B>,
) -> Result<Option<Header>, StoredFault>
    requires { F.failures folder.old < 2 ^ 64 - 1 }
    ensures answer { AnswersHeader B.shape B.POINTS (F.files folder.old) (name_of board.now pair) pair result }
    ensures unread { result ≡ Err (StoredFault.Refused ReadFault.Read) → HasFailed F.Reader.failures }
    ensures unchanged { AreUnchanged (F.files folder.old) (F.files folder.new) }
    ensures counted { F.failures folder.new ≡ F.failures folder.old + failures_opening result }
{
    let Some(mut reader) = open_table_file(alloc, folder, board, pair)? else {
        return Ok(None);
    };
    let mut bytes = [0; HEADER];
    match fill(&mut reader, &mut bytes) {
        Ok(count) => Ok(header_in(&bytes[..count], pair)),
        Err(Failed) => Err(StoredFault::Refused(ReadFault::Read)),
    }
}

/// What these bytes say as the header of the file of a pair's table; `None` where they are none.
fn header_in<B: Geometry>(bytes: &[u8], pair: Pair<B>) -> Option<Header>
    ensures { result ≡ header_in B.shape B.POINTS pair bytes.now }
{
    let (layout, entries) = (Layout::Full, pair.size());
    if bytes == header_of(layout, pair, entries).as_slice() {
        return Some(Header { layout, entries });
    }
    let (layout, entries) = (Layout::Classes, class_size(pair));
    if bytes == header_of(layout, pair, entries).as_slice() {
        return Some(Header { layout, entries });
    }
    None
}

/// The header of the file of a pair's table in a layout, with so many entries.
#[tactic(auto, unfolding(morris_pairs::specs::TableFiles::header_of, morris_pairs::specs::Headers::header_bytes))]
fn header_of<B: Geometry>(layout: Layout, pair: Pair<B>, entries: u64) -> [u8; HEADER]
    ensures { result ≡ header_of B.shape layout pair entries }
{
    let fields = Fields {
        magic: MAGIC,
        version: version_of(layout),
        board: B::ID,
        greater: pair.greater(),
        lesser: pair.lesser(),
        entries,
    };
    fields.to_bytes()
}
