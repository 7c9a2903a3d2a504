//! Quiet un-moves of a position, and the predecessors that they give.
ghost use Rattle.std.specs.Prelude.{◌≡◌, ℕ, ◌<◌, ◌≤◌, ◌*◌, ◌&&◌, ◌↔◌, nat_lt, true, None, length};
ghost use Rattle.std.specs.List.{AllPairs, Contains};
ghost use Rattle.std.specs.Iterator.{YieldsFirst, item_count};
ghost use Rattle.morris_board.specs.Sets.{has, count_of};
ghost use Rattle.morris_board.specs.Positions.{Sides, IsPosition};
ghost use Rattle.morris_moves.specs.declared.game_move.Move.{Move};
ghost use Rattle.morris_moves.specs.Rules.{is_vacant, move, result_of};
ghost use Rattle.morris_moves.specs.Backward.{LeadsTo, MovePrecedes, unmove, has_come};
ghost use Rattle.morris_moves.specs.Listing.{stones_to_unmove, targets, backs_left};

use crate::game_move::Move;
use crate::rules::{free_stones, in_mill, steps, vacant};
use morris_board::board::Geometry;
use morris_board::points::Points;
use morris_board::position::Position;
use std::marker::Model;

/// The points from which the stone on `to`, one of the opponent's, may have come by a quiet move.
/// They are none where it stands in a mill, since the move would have closed that mill and taken a
/// stone. Where the player to move has two stones the points are given too, though the position has
/// no predecessor: the opponent of the one who moves has at least three.
pub fn sources<B: Geometry>(position: &Position<B>, to: u8) -> Points
    requires { has position.now.other to ≡ true }
    ensures come { (u : ℕ) → has result u ≡ (nat_lt u B.POINTS && has_come B.shape position.now (move u to None)) }
    ensures complete { (u : ℕ) (p : Sides) → LeadsTo B.shape position.now p (move u to None) → has result u ≡ true }
{
    let other = position.other();
    if in_mill::<B>(other, to) {
        return Points::EMPTY;
    }
    steps::<B>(other.count(), to).intersection(vacant(position))
}

/// The predecessor that the un-move from `to` back to `from` gives, where the move took no stone: a
/// stone of the opponent stands on `to`, and `from` is vacant. The player to move has at least
/// three stones, as the opponent of the one who moved.
pub fn unmove<B: Geometry>(position: &Position<B>, from: u8, to: u8) -> Position<B>
    requires start { from < B.POINTS }
    requires vacant { is_vacant position.now from ≡ true }
    requires end { has position.now.other to ≡ true }
    requires enough { 3 ≤ count_of position.now.own }
    ensures value { result ≡ unmove position.now (move from to None) }
    ensures leads { result_of result (move from to None) ≡ position.now }
    ensures own { count_of result.own ≡ count_of position.now.other }
    ensures other { count_of result.other ≡ count_of position.now.own }
{
    let mover = position.other().without(to).with(from);
    match Position::new(mover, position.own()) {
        Ok(predecessor) => predecessor,
        Err(_) => unreachable!(),
    }
}

/// The stones that a quiet un-move may take back: those of the opponent that stand in no mill. They
/// are none where the player to move has two stones, since the opponent of the one who moved has
/// three at least.
fn stones_to_unmove<B: Geometry>(position: &Position<B>) -> Points
    ensures stones { result ≡ stones_to_unmove B.shape position.now }
    ensures lawful { IsPosition B.shape position.now }
{
    if position.own().count() < 3 {
        return Points::EMPTY;
    }
    free_stones::<B>(position.other())
}

/// Those of `stones`, which may have moved, that may have come from `from`.
fn targets<B: Geometry>(position: &Position<B>, stones: Points, from: u8) -> Points
    requires stones { stones ≡ stones_to_unmove B.shape position.now }
    requires start { from < B.POINTS }
    ensures { result ≡ targets B.shape position.now from }
{
    steps::<B>(position.other().count(), from).intersection(stones)
}

/// An iterator over the quiet moves that lead to a position, each once and with the predecessor, in
/// order of the point that the stone left, then of the one it went to.
#[derive(Drop)]
#[derive_where(Debug)]
pub struct Backs<B: Geometry> {
    position: Position<B>,
    /// The stones that may have moved.
    stones: Points,
    /// The points that a stone may have left whose moves are still to come.
    from_left: Points,
    /// The point that the stone left in the moves that are listed now.
    from: u8,
    /// The stones that are still to come of those that may have come from there.
    to_left: Points,
}

impl<B: Geometry> Model for Backs<B> {
    ghost use Rattle.std.specs.Prelude.{◌≡◌, List};
    ghost use Rattle.morris_board.specs.Positions.{Sides};
    ghost use Rattle.morris_moves.specs.declared.game_move.Move.{Move};
    ghost use Rattle.morris_moves.specs.Listing.{AreVacant, AreTargets, stones_to_unmove, backs_left};

    ghost Value = { List (Sides × Move) };

    ghost view = { λ list. backs_left B.shape list.position list.from_left list.from list.to_left };

    ghost invariant = { λ list. (list.stones ≡ stones_to_unmove B.shape list.position)
        × (AreVacant B.shape list.position list.from_left)
        × (AreTargets B.shape list.position list.from list.to_left) };
}

impl<B: Geometry> Backs<B> {
    /// The quiet legal moves that lead to a position.
    pub(crate) fn new(position: Position<B>) -> Backs<B>
        ensures listed { (p : Sides) (m : Move) → Contains result (p, m) ↔ LeadsTo B.shape position p m }
        ensures ascending { AllPairs MovePrecedes result }
        ensures few { length result ≤ 24 * 9 }
    {
        Backs {
            position,
            stones: stones_to_unmove(&position),
            from_left: vacant(&position),
            from: 0,
            to_left: Points::EMPTY,
        }
    }
}

impl<B: Geometry> Iterator for Backs<B> {
    type Item = (Position<B>, Move);

    ghost next_gives = { YieldsFirst (λ list. list) };

    ghost remaining = { item_count (λ list. list) };

    fn next(&mut self) -> Option<(Position<B>, Move)> {
        loop {
            match self.to_left.first() {
                Some(to) => {
                    self.to_left = self.to_left.without(to);
                    let from = self.from;
                    let m = Move {
                        from,
                        to,
                        taken: None,
                    };
                    return Some((unmove(&self.position, from, to), m));
                }
                None => {
                    let from = self.from_left.first()?;
                    self.from_left = self.from_left.without(from);
                    self.from = from;
                    self.to_left = targets(&self.position, self.stones, from);
                }
            }
        }
    }
}
