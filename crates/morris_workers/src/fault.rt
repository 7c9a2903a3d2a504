//! Why a graph isn't solved.
ghost use Rattle.std.specs.Prelude.{◌≡◌};

use morris_wave::GatherFault;
use std::alloc::AllocError;
use thiserror::Error;

// The last wave whose nodes have codes of 16 bits.
pub(crate) const LAST_WAVE: u16 = 65534;

/// Why a graph wasn't solved.
#[derive(Clone, Copy, Debug, PartialEq, Eq, Error)]
pub enum SolveFault {
    /// The number of workers isn't 1 to 64.
    #[error("workers must be 1 to 64")]
    Workers,
    /// The number of blocks isn't 1 to 1,024.
    #[error("blocks must be 1 to 1024")]
    Blocks,
    /// Want of memory.
    #[error("out of memory")]
    Memory,
    /// The block of this number isn't complete: something wasn't sent to it.
    #[error("block {0} is not complete")]
    Missing(u64),
    /// A depth is too great for a code of 16 bits.
    #[error("depth is too great")]
    TooDeep,
}

impl From<AllocError> for SolveFault {
    ghost use Rattle.morris_workers.specs.declared.fault.SolveFault.TheVariants.{Memory};

    ghost from_gives = { λ _ e. e ≡ Memory };

    fn from(_fault: AllocError) -> SolveFault {
        SolveFault::Memory
    }
}

// Blocks that were solved together gather without a fault, want of memory aside. Where they don't,
// one of them isn't what it should be, and counts as missing.
impl From<GatherFault> for SolveFault {
    ghost use Rattle.morris_workers.specs.Ranges.{solve_fault_of};

    ghost from_gives = { λ fault e. e ≡ solve_fault_of fault };

    fn from(fault: GatherFault) -> SolveFault {
        match fault {
            GatherFault::Foreign(place) => SolveFault::Missing(place as u64),
            GatherFault::Double(number) => SolveFault::Missing(number),
            GatherFault::Missing(number) => SolveFault::Missing(number),
            GatherFault::Memory => SolveFault::Memory,
        }
    }
}
