//! What a probe can be refused for.
ghost use Rattle.std.specs.Prelude.{◌≡◌};

use morris_board::board::Geometry;
use morris_pairs::shelf::Needs;
use std::alloc::AllocError;
use thiserror::Error;

/// Why a position's best moves weren't listed, or not all of its report was written.
#[derive(Drop, Error)]
#[derive_where(Clone, Copy, Debug, PartialEq, Eq)]
pub enum ProbeFault<B: Geometry> {
    /// The table of the position's pair isn't on the shelf.
    #[error("{0}")]
    Needs(Needs<B>),
    /// Want of memory.
    #[error("out of memory")]
    Memory,
    /// A write failed after this many bytes of the report had gone out.
    #[error("writing failed after {0} bytes")]
    Write(u64),
}

impl<B: Geometry> From<Needs<B>> for ProbeFault<B> {
    ghost use Rattle.morris_probe.specs.declared.fault.ProbeFault.TheVariants.{Needs};

    ghost from_gives = { λ needs fault. fault ≡ Needs needs };

    fn from(needs: Needs<B>) -> ProbeFault<B> {
        ProbeFault::Needs(needs)
    }
}

impl<B: Geometry> From<AllocError> for ProbeFault<B> {
    ghost use Rattle.morris_probe.specs.declared.fault.ProbeFault.TheVariants.{Memory};

    ghost from_gives = { λ refused fault. fault ≡ Memory };

    fn from(_refused: AllocError) -> ProbeFault<B> {
        ProbeFault::Memory
    }
}
