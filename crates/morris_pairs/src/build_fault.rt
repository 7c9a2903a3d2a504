//! Why a table isn't made.
ghost use Rattle.std.specs.Prelude.{◌≡◌};

use crate::shelf::Needs;
use morris_board::board::Geometry;
use morris_wave::SweepFault;
use std::alloc::AllocError;
use thiserror::Error;

/// Why a table wasn't made.
#[derive(Drop, Error)]
#[derive_where(Clone, Copy, Debug, PartialEq, Eq)]
pub enum BuildFault<B: Geometry> {
    /// The table of a pair that is needed isn't on the shelf.
    #[error("{0}")]
    Needs(Needs<B>),
    /// The number of workers isn't 1 to 64.
    #[error("workers must be 1 to 64")]
    Workers,
    /// The number of blocks isn't 1 to 1,024.
    #[error("blocks must be 1 to 1024")]
    Blocks,
    /// Want of memory.
    #[error("out of memory")]
    Memory,
    /// The block of this number isn't complete, since a worker left its work undone.
    #[error("block {0} is not complete")]
    Missing(u64),
    /// Some depth is too great for a code of 16 bits.
    #[error("depth is too great")]
    TooDeep,
}

impl<B: Geometry> From<Needs<B>> for BuildFault<B> {
    ghost use Rattle.morris_pairs.specs.declared.build_fault.BuildFault.TheVariants.{Needs};

    ghost from_gives = { λ needs fault. fault ≡ Needs needs };

    fn from(needs: Needs<B>) -> BuildFault<B> {
        BuildFault::Needs(needs)
    }
}

impl<B: Geometry> From<AllocError> for BuildFault<B> {
    ghost use Rattle.morris_pairs.specs.declared.build_fault.BuildFault.TheVariants.{Memory};

    ghost from_gives = { λ refusal fault. fault ≡ Memory };

    fn from(_: AllocError) -> BuildFault<B> {
        BuildFault::Memory
    }
}

impl<B: Geometry> From<SweepFault> for BuildFault<B> {
    ghost use Rattle.morris_pairs.specs.Building.{build_fault_of};

    ghost from_gives = { λ fault result. result ≡ build_fault_of fault };

    fn from(fault: SweepFault) -> BuildFault<B> {
        match fault {
            SweepFault::TooDeep => BuildFault::TooDeep,
            SweepFault::Memory => BuildFault::Memory,
        }
    }
}
