//! What a search a few plies ahead finds.

/// What is known of a position after a search to some number of plies.
#[derive(Clone, Copy, PartialEq, Eq, Debug)]
pub enum Within {
    /// The player to move has lost, in this many plies under best play: an even number.
    Lost(u8),
    /// The player to move has won, in this many plies under best play: an odd number.
    Won(u8),
    /// Neither side can force the end within the number of plies that was searched.
    Unknown,
}
