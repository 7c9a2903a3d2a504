//! The half of a pair: the positions in which the player to move and the opponent have given
//! numbers of stones.
ghost use Rattle.std.specs.Prelude.{◌≡◌, ◌+◌, ◌<◌, ◌≤◌, ◌^◌, true, IfSome};
ghost use Rattle.morris_board.specs.Sets.{count_of};
ghost use Rattle.morris_board.specs.Positions.{IsPosition};
ghost use Rattle.morris_index.specs.Numbering.{half_size, half_index};
ghost use Rattle.morris_index.specs.Pairs.{has_counts, IsHalf};

use crate::binomials::binomial;
use crate::ranks::{next_set, rank, rank_outside, unrank};
use morris_board::board::Geometry;
use morris_board::points::Points;
use morris_board::position::Position;

/// How many positions have `own` stones of the player to move and `other` of the opponent.
pub(crate) fn half_size<B: Geometry>(own: u8, other: u8) -> u64
    requires { IsHalf B.POINTS own other }
    ensures value { result ≡ half_size B.POINTS own other }
    ensures few { result ≤ 2 ^ 39 }
{
    binomial(B::POINTS, own) * binomial(B::POINTS - own, other)
}

/// The index of a position among those with as many stones of either player.
pub(crate) fn half_index<B: Geometry>(position: &Position<B>) -> u64
    ensures value { result ≡ half_index B.POINTS position.now }
    ensures below { result < half_size B.POINTS (count_of position.now.own) (count_of position.now.other) }
    ensures lawful { IsPosition B.shape position.now }
{
    let own = position.own();
    let other = position.other();
    let choices = binomial(B::POINTS - own.count(), other.count());
    rank(own) * choices + rank_outside(other, own)
}

/// The position with this index among those with `own` stones of the player to move and `other` of
/// the opponent.
pub(crate) fn half_position<B: Geometry>(own: u8, other: u8, index: u64) -> Position<B>
    requires half { IsHalf B.POINTS own other }
    requires small { index < half_size B.POINTS own other }
    ensures index { half_index B.POINTS result ≡ index }
    ensures counts { has_counts own other result ≡ true }
    ensures lawful { IsPosition B.shape result }
{
    let choices = binomial(B::POINTS - own, other);
    let own_points = unrank(B::POINTS, Points::EMPTY, own, index / choices);
    let other_points = unrank(B::POINTS, own_points, other, index % choices);
    match Position::new(own_points, other_points) {
        Ok(position) => position,
        Err(_) => unreachable!(),
    }
}

/// The position that comes next among those with the same points of the player to move and as many
/// stones of the opponent.
pub(crate) fn next_of_own<B: Geometry>(position: &Position<B>) -> Option<Position<B>>
    ensures index { IfSome result (λ next. half_index B.POINTS next ≡ half_index B.POINTS position.now + 1) }
    ensures own { IfSome result (λ next. next.own ≡ position.now.own) }
    ensures other { IfSome result (λ next. count_of next.other ≡ count_of position.now.other) }
    ensures lawful { IfSome result (IsPosition B.shape) }
{
    let own = position.own();
    let other = next_set(B::POINTS, own, position.other())?;
    match Position::new(own, other) {
        Ok(next) => Some(next),
        Err(_) => None,
    }
}
