//! What is shown of a position.

/// What is shown of a position beside its value and its best moves, which stand in the first line.
#[derive(Clone, Copy, Debug, PartialEq, Eq)]
pub enum Show {
    /// Nothing more.
    Best,
    /// Every legal move in order, with the value that it leads to for the player who makes it.
    Moves,
    /// The line of best play to the end of the game, the first best move at each ply.
    Line,
    /// What [`Moves`](Show::Moves) shows, and in place of that first line too: for every legal move
    /// a line of fields with commas between them. A line with their names stands before all
    /// answers.
    Csv,
}
