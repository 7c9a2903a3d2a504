//! The tables that are stored in a folder.
ghost use Rattle.std.specs.Prelude.{◌≡◌, ℕ, ◌+◌, ◌-◌, ◌^◌, ◌<◌, List, Option, Err, IfErr};
ghost use Rattle.morris_files.specs.Files.{Files, HasFailed, IsOpened, IsReaderOf, AreUnchanged};
ghost use Rattle.morris_files.specs.Stored.{AnswersStored, IsUnopened, failures_opening};
ghost use Rattle.morris_files.specs.Names.{name_of};

use crate::folder::Folder;
use crate::names::file_name;
use morris_board::board::Geometry;
use morris_board::streams::{Failed, Source};
use morris_index::pair::Pair;
use morris_pairs::file_faults::ReadFault;
use morris_pairs::raw::Raw;
use morris_pairs::reading::read_table;
use std::alloc::Global;
use thiserror::Error;

/// Why the table of a pair isn't had from its file.
#[derive(Debug, Clone, Copy, PartialEq, Eq, Error)]
pub enum StoredFault {
    /// Memory was refused for the name of the file.
    #[error("out of memory")]
    Memory,
    /// The file can't be opened.
    #[error("not opened")]
    Unopened,
    /// The file isn't that of a table of the board, or wasn't read to its end.
    #[error("{0}")]
    Refused(ReadFault),
    /// The file is that of the table of another pair.
    #[error("table of another pair")]
    OtherPair,
}

/// Reads the table of a pair from the file that a folder has of it, under the name of the pair on
/// the board of this name; `None` where there is no such file. The codes may be wrong.
///
/// Fewer than `u64::MAX` calls of the folder may have failed before. A file that is there is read
/// to its end, or up to the step that refuses it, as `read_table` of `morris_pairs` does.
///
/// # Errors
/// [`StoredFault::Memory`] where memory is refused for the name, else [`StoredFault::Unopened`]
/// where the file can't be opened, else [`StoredFault::Refused`] where it isn't exactly one file of
/// a table of the board, else [`StoredFault::OtherPair`] where the table is that of another pair.
pub fn read_table_file<B: Geometry, F: Folder>(
    alloc: Global,
    folder: &mut F,
    board: &str,
    pair: Pair<B>,
) -> Result<Option<Raw<B>>, StoredFault>
    requires { F.failures folder.old < 2 ^ 64 - 1 }
    ensures answer { AnswersStored B.shape (F.files folder.old) (name_of board.now pair) pair result }
    ensures unread { result ≡ Err (StoredFault.Refused ReadFault.Read) → HasFailed F.Reader.failures }
    ensures unchanged { AreUnchanged (F.files folder.old) (F.files folder.new) }
    ensures counted { F.failures folder.new ≡ F.failures folder.old + failures_opening result }
{
    let Some(mut reader) = open_table_file(alloc, folder, board, pair)? else {
        return Ok(None);
    };
    read_opened(alloc, &mut reader, pair)
}

/// Reads the table of a pair from a file that was opened, as [`read_table_file`] does.
///
/// Fewer than `u64::MAX` calls of the reader may have failed before.
///
/// # Errors
/// Those of [`read_table_file`] but for [`StoredFault::Unopened`], and for want of memory for a
/// name.
pub fn read_opened<B: Geometry, S: Source>(
    alloc: Global,
    reader: &mut S,
    pair: Pair<B>,
) -> Result<Option<Raw<B>>, StoredFault>
    requires { S.failures reader.old < 2 ^ 64 - 1 }
    ensures answer { (files : Option Files) (name : List ℕ) → IsReaderOf files name (S.remaining reader.old) → AnswersStored B.shape files name pair result }
    ensures unread { result ≡ Err (StoredFault.Refused ReadFault.Read) → HasFailed S.failures }
    ensures opened { failures_opening result ≡ 0 }
{
    let raw = match read_table::<B, S>(alloc, reader) {
        Ok(raw) => raw,
        Err(refused) => return Err(StoredFault::Refused(refused)),
    };
    if raw.pair() != pair {
        return Err(StoredFault::OtherPair);
    }
    Ok(Some(raw))
}

/// Opens the file that a folder has of a pair's table, under the name of the pair on the board of
/// this name; `None` where there is no such file.
///
/// Fewer than `u64::MAX` calls of the folder may have failed before.
///
/// # Errors
/// [`StoredFault::Memory`] where memory is refused for the name, else [`StoredFault::Unopened`]
/// where the file can't be opened.
pub fn open_table_file<B: Geometry, F: Folder>(
    alloc: Global,
    folder: &mut F,
    board: &str,
    pair: Pair<B>,
) -> Result<Option<F::Reader>, StoredFault>
    requires { F.failures folder.old < 2 ^ 64 - 1 }
    ensures opened { IsOpened F.Reader.remaining F.Reader.failures (F.files folder.old) (name_of board.now pair) result }
    ensures refused { IfErr result IsUnopened }
    ensures unchanged { AreUnchanged (F.files folder.old) (F.files folder.new) }
    ensures counted { F.failures folder.new ≡ F.failures folder.old + failures_opening result }
{
    let Ok(name) = file_name(alloc, board, pair) else {
        return Err(StoredFault::Memory);
    };
    match folder.open(name.as_str()) {
        Ok(opened) => Ok(opened),
        Err(Failed) => Err(StoredFault::Unopened),
    }
}
