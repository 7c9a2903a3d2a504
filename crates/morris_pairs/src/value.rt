//! The value of a position.

/// What best play of both players leads to from a position.
#[derive(Clone, Copy, Debug, PartialEq, Eq)]
pub enum Value {
    /// Neither player can force a win in any number of plies.
    Draw,
    /// The player to move wins in this number of plies, which is odd: the opponent can't hold out
    /// longer.
    Won(u16),
    /// The player to move has lost in this number of plies, which is even: the opponent can't win
    /// sooner.
    Lost(u16),
}
