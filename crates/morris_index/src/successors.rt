//! The indices of the successors of a position.
ghost use Rattle.std.specs.Prelude.{◌≡◌, ◌<◌, ◌||◌, not, true};
ghost use Rattle.morris_board.specs.Sets.{has};
ghost use Rattle.morris_index.specs.Pairs.{is_of, index_of};
ghost use Rattle.morris_index.specs.Moves.{in_pair, move_sides};

use crate::binomials::binomial;
use crate::pair::Pair;
use crate::ranks::rank;
use crate::sums::KeptSums;
use morris_board::board::Geometry;
use morris_board::position::Position;
use std::marker::Model;

/// A position, with sums by which the index of each successor by a quiet move is found in constant
/// time.
#[derive(Drop)]
pub struct SuccessorIndices<B: Geometry> {
    /// The pair that the position is one of.
    pair: Pair<B>,
    /// The position.
    position: Position<B>,
    /// The sums of the stones of the player to move, of which one moves.
    moved: KeptSums,
    /// The index of the first position in which the player to move has the stones that the opponent
    /// has here.
    start: u64,
}

impl<B: Geometry> Model for SuccessorIndices<B> {
    ghost use Rattle.morris_index.specs.Moves.{InPair, in_pair, IsMovedOn};

    ghost Value = { InPair };

    ghost view = { λ indices. in_pair indices.pair indices.position };

    ghost invariant = { λ indices. IsMovedOn B.shape B.POINTS (in_pair indices.pair indices.position) indices.moved indices.start };
}

impl<B: Geometry> SuccessorIndices<B> {
    /// A position of the pair, with its sums.
    pub fn of(pair: &Pair<B>, position: &Position<B>) -> SuccessorIndices<B>
        requires { is_of pair.now position.now ≡ true }
        ensures { result ≡ in_pair pair.now position.now }
    {
        let own = position.own();
        let other = position.other();
        let choices = binomial(B::POINTS - other.count(), own.count());
        SuccessorIndices {
            pair: *pair,
            position: *position,
            moved: KeptSums::of(own, other, 1),
            start: pair.start_of(other.count()) + rank(other) * choices,
        }
    }

    /// The index of the successor by the quiet move from `from` to `to`: a stone of the player to
    /// move stands on `from`, and `to` is vacant.
    pub fn index(&self, from: u8, to: u8) -> u64
        requires start { has self.now.position.own from ≡ true }
        requires end { to < B.POINTS }
        requires vacant { not (has self.now.position.own to || has self.now.position.other to) ≡ true }
        ensures { result ≡ index_of B.POINTS self.now.pair (move_sides self.now.position from to) }
    {
        let own = self.position.own();
        let other = self.position.other();
        self.start + self.moved.rank(other, own, from, to)
    }
}
