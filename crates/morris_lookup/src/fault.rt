//! Why a file isn't opened, why there is no answer, and why masks aren't a position.
ghost use Rattle.std.specs.Prelude.{◌≡◌};

use morris_board::board::Geometry;
use morris_board::streams::Failed;
use morris_pairs::file_faults::ReadFault;
use morris_pairs::shelf::Needs;
use std::alloc::AllocError;
use thiserror::Error;

/// Why a file isn't opened as the one of a pair's table.
#[derive(Clone, Copy, Debug, PartialEq, Eq, Error)]
pub enum OpenFault {
    /// It isn't the file of a table of this board, by its header and its length; or it can't be
    /// read; or there is no room for the classes.
    #[error("{0}")]
    File(ReadFault),
    /// It is the file of another pair's table.
    #[error("table of another pair")]
    Pair,
}

impl From<ReadFault> for OpenFault {
    ghost use Rattle.morris_lookup.specs.declared.fault.OpenFault.TheVariants.{File};

    ghost from_gives = { λ refusal fault. fault ≡ File refusal };

    fn from(refusal: ReadFault) -> OpenFault {
        OpenFault::File(refusal)
    }
}

/// Why there is no answer for a position.
#[derive(Drop, Error)]
#[derive_where(Clone, Copy, Debug, PartialEq, Eq)]
pub enum LookFault<B: Geometry> {
    /// No file of this pair is open.
    #[error("{0}")]
    Needs(Needs<B>),
    /// A file couldn't be read.
    #[error("reading failed")]
    Read,
    /// Want of memory.
    #[error("out of memory")]
    Memory,
}

impl<B: Geometry> From<Failed> for LookFault<B> {
    ghost use Rattle.morris_lookup.specs.declared.fault.LookFault.TheVariants.{Read};

    ghost from_gives = { λ _ fault. fault ≡ Read };

    fn from(_failed: Failed) -> LookFault<B> {
        LookFault::Read
    }
}

impl<B: Geometry> From<AllocError> for LookFault<B> {
    ghost use Rattle.morris_lookup.specs.declared.fault.LookFault.TheVariants.{Memory};

    ghost from_gives = { λ _ fault. fault ≡ Memory };

    fn from(_refused: AllocError) -> LookFault<B> {
        LookFault::Memory
    }
}

/// Why two masks aren't a position.
#[derive(Clone, Copy, Debug, PartialEq, Eq, Error)]
pub enum MaskFault {
    /// A mask has a bit that stands for no point of the board.
    #[error("point that the board doesn't have")]
    OffBoard,
    /// A point has a stone of both players.
    #[error("two stones on a point")]
    Overlap,
    /// A player has a number of stones that no position has: the player to move has 2 to 9, the
    /// opponent 3 to 9.
    #[error("bad number of stones")]
    Stones,
}

/// Why there is no value.
#[derive(Clone, Copy, Debug, PartialEq, Eq, Error)]
pub enum ViewFault {
    /// No file is that of the position's pair.
    #[error("no table of the pair")]
    NoFile,
    /// The file of the pair isn't one of this board, by its header and by how many bytes it has.
    #[error("{0}")]
    File(ReadFault),
    /// The file of the pair is one by classes, and the words aren't prepared ones.
    #[error("words aren't prepared")]
    Words,
    /// The memory that the caller handed in is too small for the answer.
    #[error("too little room")]
    Room,
}

impl From<ReadFault> for ViewFault {
    ghost use Rattle.morris_lookup.specs.declared.fault.ViewFault.TheVariants.{File};

    ghost from_gives = { λ refusal fault. fault ≡ File refusal };

    fn from(refusal: ReadFault) -> ViewFault {
        ViewFault::File(refusal)
    }
}
