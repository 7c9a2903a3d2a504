//! Why a position is refused.
ghost use Rattle.std.specs.Prelude.{◌≡◌};
ghost use Rattle.morris_board.specs.declared.faults.TextFault.TheVariants as fault;

use thiserror::Error;

/// A player has a number of stones that no position has: the player to move has 2 to 9, the
/// opponent 3 to 9.
#[derive(Clone, Copy, Debug, PartialEq, Eq, Error)]
#[error("bad number of stones")]
pub struct Stones;

/// Why bytes are no position string. The first of these that applies is the answer.
#[derive(Clone, Copy, Debug, PartialEq, Eq, Error)]
pub enum TextFault {
    /// The string hasn't one character per point of the board.
    #[error("text is not one character per point")]
    Length,
    /// The first character that is none of `X`, `O` and `.` stands at this place, counted from 0.
    #[error("bad character at {0}")]
    Character(usize),
    /// A player has a number of stones that no position has.
    #[error("bad number of stones")]
    Stones,
}

impl From<Stones> for TextFault {
    ghost from_gives = { λ _ e. e ≡ fault.Stones };

    fn from(_: Stones) -> TextFault {
        TextFault::Stones
    }
}
