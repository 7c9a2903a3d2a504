//! The entries of positions that differ in where one stone of the opponent stands.
ghost use Rattle.std.specs.Prelude.{◌≡◌, ◌<◌, true, false};
ghost use Rattle.morris_board.specs.Sets.{has, with_point, without_point, count_of};
ghost use Rattle.morris_board.specs.Positions.{sides, IsPosition};
ghost use Rattle.morris_index.specs.Classes.{representative_of};
ghost use Rattle.morris_index.specs.ClassPairs.{class_size_of, class_index_of};
ghost use Rattle.morris_index.specs.Moves.{in_pair};
ghost use Rattle.morris_index.specs.Pairs.{is_of};
ghost use Rattle.morris_index.specs.Standings.{IsCanonicalStanding};

use crate::class_pair::ClassPair;
use crate::pair::Pair;
use crate::rank_tables::RankRows;
use crate::ranks::number_outside;
use crate::standing::Standing;
use morris_board::board::Geometry;
use morris_board::points::Points;
use morris_board::position::Position;
use std::marker::Model;

/// What is kept of a position in which the player to move stands on a representative, less one
/// stone of the opponent, so that the entry of the position with this stone on another point is
/// found by its number alone.
#[derive(Drop)]
pub struct Elsewhere<'a, B: Geometry> {
    /// The pair that the positions are of.
    pair: Pair<B>,
    /// Where the entries stand of the positions with these stones of the player to move.
    standing: Standing,
    /// The other stones of the opponent.
    rest: Points,
    /// Their numbers among the points that the player to move leaves free.
    numbers: Points,
    /// The rows by which the opponent's sets are ranked.
    rows: RankRows<'a>,
}

impl<'a, B: Geometry> Model for Elsewhere<'a, B> {
    ghost use Rattle.morris_board.specs.Positions.{sides};
    ghost use Rattle.morris_index.specs.Moves.{InPair, in_pair};
    ghost use Rattle.morris_index.specs.Standings.{IsElsewhere};

    ghost Value = { InPair };

    ghost view = { λ it. in_pair it.pair (sides it.standing.own it.rest) };

    ghost invariant = { λ it. IsElsewhere B.shape B.POINTS (in_pair it.pair (sides it.standing.own it.rest)) it.standing it.numbers it.rows };
}

impl<B: Geometry> ClassPair<B> {
    /// A position without the opponent's stone on `point`: the stones that stay are numbered once
    /// for all points on which that one may stand instead. The player to move stands on a
    /// representative, and `standing` is where the entries of such positions begin.
    pub fn elsewhere(
        &self,
        standing: &Standing,
        position: &Position<B>,
        point: u8,
    ) -> Elsewhere<'_, B>
        requires counts { is_of self.now position.now ≡ true }
        requires least { representative_of B.shape position.now.own ≡ position.now.own }
        requires own { standing.now.own ≡ position.now.own }
        requires stands { IsCanonicalStanding B.shape B.POINTS self.now (count_of position.now.other) standing.now }
        requires stone { has position.now.other point ≡ true }
        ensures value { result ≡ in_pair self.now (sides position.now.own (without_point position.now.other point)) }
        ensures lawful { IsPosition B.shape position.now }
    {
        let rest = position.other().without(point);
        let (numbers, rows) = self.numbers_outside(rest, position.own());
        Elsewhere {
            pair: self.pair(),
            standing: *standing,
            rest,
            numbers,
            rows,
        }
    }
}

impl<'a, B: Geometry> Elsewhere<'a, B> {
    /// The entry of the position in which the stone stands on `point`.
    pub fn entry_on(&self, point: u8) -> u64
        requires free { has self.now.position.other point ≡ false }
        requires lawful { IsPosition B.shape (sides self.now.position.own (with_point self.now.position.other point)) }
        ensures value { result ≡ class_index_of B.shape B.POINTS self.now.pair (sides self.now.position.own (with_point self.now.position.other point)) }
        ensures below { result < class_size_of B.shape B.POINTS self.now.pair }
    {
        let number = number_outside(self.standing.own, point);
        let numbers = self.numbers.mask() + (1 << number);
        self.standing.start + self.rows.rank(Points::from_mask(numbers))
    }
}
