//! A move.
ghost use Rattle.std.specs.Prelude.{Some};
ghost use Rattle.morris_moves.specs.MoveText.{move_text};

use std::fmt;

/// A move of one stone from a point to another, and the stone of the opponent that it takes from
/// the board, if any.
///
/// It is printed as `3-2`, and with a capture as `3-2x22`.
#[derive(Clone, Copy, PartialEq, Eq, Debug)]
pub struct Move {
    /// The point that the stone leaves.
    pub from: u8,
    /// The point that it goes to.
    pub to: u8,
    /// The point of the stone that is taken: one where the move closes a mill, none where it
    /// doesn't.
    pub taken: Option<u8>,
}

impl fmt::Display for Move {
    ghost output = { λ m. Some (move_text m) };

    fn fmt<W: fmt::Write>(&self, f: &mut fmt::Formatter<W>) -> fmt::Result {
        match self.taken {
            None => write!(f, "{}-{}", self.from, self.to),
            Some(taken) => write!(f, "{}-{}x{taken}", self.from, self.to),
        }
    }
}
