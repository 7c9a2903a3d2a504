//! The statuses that calls answer.
ghost use Rattle.std.specs.Prelude.{◌≡◌, pos};
ghost use Rattle.morris_c.specs.Statuses.{mask_status, read_status, view_status};

use morris_lookup::fault::{MaskFault, ViewFault};
use morris_pairs::file_faults::ReadFault;

/// The call did what was asked.
pub const DONE: i32 = 0;
/// There is no board with this number.
pub const NO_BOARD: i32 = 1;
/// There is too little room for the results.
pub const ROOM: i32 = 7;
/// A file has too few bytes.
pub const SHORT: i32 = 8;
/// A digest isn't that of the bytes before it.
pub const DIGEST: i32 = 16;

/// The move isn't legal.
pub const ILLEGAL: i32 = 19;

/// The status of masks that aren't a position.
pub fn mask_status(fault: MaskFault) -> i32
    ensures { result ≡ pos (mask_status fault) }
{
    match fault {
        MaskFault::OffBoard => 2,
        MaskFault::Overlap => 3,
        MaskFault::Stones => 4,
    }
}

/// The status of a file that isn't one.
pub fn read_status(fault: ReadFault) -> i32
    ensures { result ≡ pos (read_status fault) }
{
    match fault {
        ReadFault::Short => SHORT,
        ReadFault::Magic => 9,
        ReadFault::Version => 10,
        ReadFault::BoardId => 11,
        ReadFault::Counts => 12,
        ReadFault::Crowded => 13,
        ReadFault::Count => 14,
        ReadFault::Trailing => 15,
        ReadFault::Digest => DIGEST,
        ReadFault::Read => 17,
        ReadFault::Memory => 18,
    }
}

/// The status where there is no value.
pub fn view_status(fault: ViewFault) -> i32
    ensures { result ≡ pos (view_status fault) }
{
    match fault {
        ViewFault::NoFile => 5,
        ViewFault::Words => 6,
        ViewFault::Room => ROOM,
        ViewFault::File(refusal) => read_status(refusal),
    }
}
