//! The graphs of all pairs of a board.
use morris_board::board::Board;
use morris_wave::Levels;
use std::marker::PhantomData;

/// The family of the graphs of a board's pairs. The level of a pair is its two numbers of stones as
/// digits, such as 43 for 4-3, 143 for the graph of its classes, and 243 for that of its rows.
pub struct PairLevels<B: Board> {
    board: PhantomData<B>,
}

impl<B: Board> Levels for PairLevels<B> {
    ghost use Rattle.morris_pairs.specs.PairNets.{net_at};
    ghost use Rattle.morris_pairs.specs.NetLaws.{IsNet-net_at};

    ghost net = { net_at B.shape };

    ghost lawful = { IsNet-net_at B.shape };
}
