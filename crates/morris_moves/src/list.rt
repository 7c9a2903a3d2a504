//! The list of the legal moves of a position.
ghost use Rattle.std.specs.Prelude.{◌≡◌, ◌≤◌, ◌*◌, length};
ghost use Rattle.std.specs.Iterator.{YieldsFirst, item_count};
ghost use Rattle.morris_moves.specs.Rules.{moves_of};

use crate::game_move::Move;
use crate::rules::{closes, reach, takable_stones};
use morris_board::board::Geometry;
use morris_board::points::Points;
use morris_board::position::Position;
use std::marker::Model;

/// An iterator over the legal moves of a position, each once, in order of the point that the stone
/// leaves, then of the one it goes to, then of the stone that is taken.
#[derive(Drop)]
#[derive_where(Debug)]
pub struct Moves<B: Geometry> {
    position: Position<B>,
    /// The stones whose moves are still to come.
    from_left: Points,
    /// The stone whose moves are listed now.
    from: u8,
    /// The points that are still to come of those it may go to.
    to_left: Points,
    /// The point to which the captures that are listed now go.
    to: u8,
    /// The stones that are still to come of those that these captures may take.
    take_left: Points,
}

impl<B: Geometry> Model for Moves<B> {
    ghost use Rattle.std.specs.Prelude.{List, ◌<◌, ◌^◌};
    ghost use Rattle.morris_moves.specs.declared.game_move.Move.{Move};
    ghost use Rattle.morris_moves.specs.Listing.{moves_left};

    ghost Value = { List Move };

    ghost view = { λ list. moves_left B.shape list.position list.from_left list.from list.to_left list.to list.take_left };

    ghost invariant = { λ list. (list.from_left < 2 ^ B.POINTS) × (list.from < 32) × (list.to_left < 2 ^ B.POINTS) };
}

impl<B: Geometry> Moves<B> {
    /// The legal moves of a position.
    pub(crate) fn new(position: Position<B>) -> Moves<B>
        ensures listed { result ≡ moves_of B.shape position }
        ensures few { length result ≤ 9 * 24 * 9 }
    {
        Moves {
            position,
            from_left: position.own(),
            from: 0,
            to_left: Points::EMPTY,
            to: 0,
            take_left: Points::EMPTY,
        }
    }
}

impl<B: Geometry> Iterator for Moves<B> {
    type Item = Move;

    ghost next_gives = { YieldsFirst (λ list. list) };

    ghost remaining = { item_count (λ list. list) };

    fn next(&mut self) -> Option<Move> {
        loop {
            match self.take_left.first() {
                Some(taken) => {
                    self.take_left = self.take_left.without(taken);
                    return Some(Move {
                        from: self.from,
                        to: self.to,
                        taken: Some(taken),
                    });
                }
                None => match self.to_left.first() {
                    Some(to) => {
                        self.to_left = self.to_left.without(to);
                        self.to = to;
                        if !closes::<B>(self.position.own(), self.from, to) {
                            return Some(Move {
                                from: self.from,
                                to,
                                taken: None,
                            });
                        }
                        self.take_left = takable_stones::<B>(self.position.other());
                    }
                    None => {
                        let from = self.from_left.first()?;
                        self.from_left = self.from_left.without(from);
                        self.from = from;
                        self.to_left = reach(&self.position, from);
                    }
                },
            }
        }
    }
}
