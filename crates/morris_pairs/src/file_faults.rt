//! Why a table file isn't read, and how far the writing of one got.
ghost use Rattle.morris_pairs.specs.declared.file_faults.ReadFault.TheVariants as fault;

use morris_board::streams::Failed;
use std::alloc::AllocError;
use thiserror::Error;

/// Why reading a table file was refused. The steps of reading come in the order of the variants up
/// to `Trailing`, where `Short` is the answer of each step that finds too few bytes; the first step
/// that refuses decides.
#[derive(Clone, Copy, Debug, PartialEq, Eq, Error)]
pub enum ReadFault {
    /// The source ended within the file.
    #[error("file is too short")]
    Short,
    /// The file doesn't begin with `NMMT`.
    #[error("not a table file")]
    Magic,
    /// The version is neither 1 nor 2.
    #[error("unknown version")]
    Version,
    /// The table is one of another board.
    #[error("another board")]
    BoardId,
    /// A number of stones isn't 3 to 9, or the first is less than the second.
    #[error("bad counts")]
    Counts,
    /// The board has fewer points than there are stones.
    #[error("more stones than points")]
    Crowded,
    /// The number of entries isn't that of the pair in the layout of the version.
    #[error("wrong number of entries")]
    Count,
    /// The digest isn't that of the bytes before it.
    #[error("digest is wrong")]
    Digest,
    /// There are bytes after the file.
    #[error("bytes after the table")]
    Trailing,
    /// A read of the source failed.
    #[error("reading failed")]
    Read,
    /// There was no room for the classes of a file of version 2, or for the codes.
    #[error("out of memory")]
    Memory,
}

impl From<Failed> for ReadFault {
    ghost use Rattle.std.specs.Prelude.{◌≡◌};

    ghost from_gives = { λ _ refusal. refusal ≡ fault.Read };

    fn from(_failed: Failed) -> ReadFault {
        ReadFault::Read
    }
}

impl From<AllocError> for ReadFault {
    ghost use Rattle.std.specs.Prelude.{◌≡◌};

    ghost from_gives = { λ _ refusal. refusal ≡ fault.Memory };

    fn from(_refused: AllocError) -> ReadFault {
        ReadFault::Memory
    }
}

/// A write of a table file failed after this many bytes of the file had gone out.
#[derive(Clone, Copy, Debug, PartialEq, Eq, Error)]
#[error("writing failed after {0} bytes")]
pub struct Write(pub u64);
