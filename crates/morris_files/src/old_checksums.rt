//! The list of digests that a folder has, and its lines that are retained.
ghost use Rattle.std.specs.Prelude.{◌≡◌, ℕ, ◌+◌, ◌-◌, ◌^◌, ◌<◌, ◌++◌, length, Err, IfOk, MatchResult, OnOk};
ghost use Rattle.morris_index.specs.Pairs.{counts};
ghost use Rattle.morris_files.specs.Files.{HasFailed, AreUnchanged};
ghost use Rattle.morris_files.specs.Digests.{retained_line, retained_of};
ghost use Rattle.morris_files.specs.Lists.{AreAll, AreRetainedLines, IsList, IsUnlisted, IsUnread, failures_listing};

use crate::checksum_line::is_retained;
use crate::folder::Folder;
use crate::names::digests_name;
use morris_board::board::Geometry;
use morris_board::streams::{Failed, Source};
use morris_index::pair::Pair;
use morris_pairs::reading::fill;
use std::alloc::{AllocError, Global};
use thiserror::Error;

/// How many bytes a list may have. That of all pairs of a board has a thirtieth of it, so a longer
/// file is none.
const LIST: usize = 65536;

/// Why the list of digests isn't had from its file.
#[derive(Debug, Clone, Copy, PartialEq, Eq, Error)]
pub enum ListFault {
    /// Memory was refused.
    #[error("out of memory")]
    Memory,
    /// The file can't be opened.
    #[error("not opened")]
    Unopened,
    /// A read of it failed.
    #[error("not read")]
    Unread,
    /// It is longer than 65,536 bytes.
    #[error("too long")]
    Long,
}

/// The lines that are retained of the list of digests that a folder has of the board of this name,
/// where the files of all pairs below a pair, its own among them, are replaced: those of the files
/// of other pairs, in order, each with a line feed at its end. Each stands in the list byte for
/// byte as [`write_list`](crate::checksum_list::write_list) writes it, but the digest, which may be
/// any; all other lines are dropped. Nothing is retained where there is no list.
///
/// Fewer than `u64::MAX` calls of the folder may have failed before.
///
/// # Errors
/// [`ListFault::Unopened`] where the list can't be opened, else [`ListFault::Unread`] where a read
/// of it failed, else [`ListFault::Long`] where it is longer than 65,536 bytes;
/// [`ListFault::Memory`] where memory is refused.
pub fn retained_lines<B: Geometry, F: Folder>(
    alloc: Global,
    folder: &mut F,
    board: &str,
    replaced: Pair<B>,
) -> Result<Vec<u8>, ListFault>
    requires { F.failures folder.old < 2 ^ 64 - 1 }
    ensures answer { MatchResult result (λ retained. AreRetainedLines board.now replaced (F.files folder.old) retained.items) (IsUnlisted board.now (F.files folder.old)) }
    ensures unread { result ≡ Err ListFault.Unread → HasFailed F.Reader.failures }
    ensures retained { AreUnchanged (F.files folder.old) (F.files folder.new) }
    ensures counted { F.failures folder.new ≡ F.failures folder.old + failures_listing result }
    ensures held { F.locked folder.new ≡ F.locked folder.old }
{
    let list = list_of(alloc, folder, board)?;
    let replaced = (replaced.greater(), replaced.lesser());
    match retain_lines(alloc, board, replaced, list.as_slice()) {
        Ok(retained) => Ok(retained),
        Err(AllocError) => Err(ListFault::Memory),
    }
}

/// The list that a folder has of the board of this name, empty where there is none.
fn list_of<F: Folder>(alloc: Global, folder: &mut F, board: &str) -> Result<Vec<u8>, ListFault>
    requires { F.failures folder.old < 2 ^ 64 - 1 }
    ensures answer { MatchResult result (λ list. IsList board.now (F.files folder.old) list.items) (IsUnlisted board.now (F.files folder.old)) }
    ensures unread { result ≡ Err ListFault.Unread → HasFailed F.Reader.failures }
    ensures retained { AreUnchanged (F.files folder.old) (F.files folder.new) }
    ensures counted { F.failures folder.new ≡ F.failures folder.old + failures_listing result }
    ensures held { F.locked folder.new ≡ F.locked folder.old }
{
    let Ok(name) = digests_name(alloc, board) else {
        return Err(ListFault::Memory);
    };
    match folder.open(name.as_str()) {
        Ok(Some(mut reader)) => read_all(alloc, &mut reader),
        Ok(None) => Ok(Vec::new(alloc)),
        Err(Failed) => Err(ListFault::Unopened),
    }
}

/// All that a source has to give, which isn't more than a list may have.
fn read_all<S: Source>(alloc: Global, source: &mut S) -> Result<Vec<u8>, ListFault>
    requires { S.failures source.old < 2 ^ 64 - 1 }
    ensures read { MatchResult result (λ bytes. AreAll (S.remaining source.old) bytes.items) (IsUnread (S.remaining source.old)) }
    ensures unread { result ≡ Err ListFault.Unread → S.failures source.new ≡ S.failures source.old + 1 }
{
    let Ok(mut bytes) = zeros(alloc) else {
        return Err(ListFault::Memory);
    };
    match fill(source, bytes.as_mut_slice()) {
        Ok(count) if count <= LIST => {
            bytes.truncate(count);
            Ok(bytes)
        }
        Ok(_) => Err(ListFault::Long),
        Err(Failed) => Err(ListFault::Unread),
    }
}

/// Room for a list and one byte more, which shows whether a list ends in time.
fn zeros(alloc: Global) -> Result<Vec<u8>, AllocError>
    ensures { IfOk result (λ bytes. length bytes.items ≡ 65537) }
{
    vec![in alloc; 0; LIST + 1]
}

/// The lines of a list that are retained.
fn retain_lines(
    alloc: Global,
    board: &str,
    replaced: (u8, u8),
    list: &[u8],
) -> Result<Vec<u8>, AllocError>
    ensures { IfOk result (λ retained. retained.items ≡ retained_of board.now (counts replaced.0 replaced.1) list.now) }
{
    let mut retained = Vec::new(alloc);
    for line in list.split(|byte| *byte == b'\n') {
        retain_line(alloc, board, replaced, line, &mut retained)?;
    }
    Ok(retained)
}

/// Adds a line, with its line feed, if it is retained.
fn retain_line(
    alloc: Global,
    board: &str,
    replaced: (u8, u8),
    line: &[u8],
    retained: &mut Vec<u8>,
) -> Result<(), AllocError>
    ensures { OnOk result (retained.new.items ≡ retained.old.items ++ retained_line board.now (counts replaced.0 replaced.1) line.now) }
{
    if is_retained(alloc, board, replaced, line)? {
        retained.extend_from_slice(line)?;
        retained.push(b'\n')?;
    }
    Ok(())
}
