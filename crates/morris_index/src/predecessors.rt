//! The indices of the predecessors of a position.
ghost use Rattle.std.specs.Prelude.{◌≡◌, ℕ, ◌<◌, ◌^◌, ◌||◌, ◌++◌, not, nat_lt, true, map, OnOk};
ghost use Rattle.morris_board.specs.Sets.{has, members};
ghost use Rattle.morris_index.specs.Pairs.{is_of, index_of};
ghost use Rattle.morris_index.specs.Moves.{in_pair, unmove_sides, end_taken_back};

use crate::binomials::binomial;
use crate::pair::Pair;
use crate::sums::KeptSums;
use morris_board::board::Geometry;
use morris_board::points::Points;
use morris_board::position::Position;
use std::alloc::AllocError;
use std::marker::Model;

/// A position, with sums by which the index of each predecessor by a quiet un-move is found in
/// constant time.
#[derive(Drop)]
pub struct PredecessorIndices<B: Geometry> {
    /// The pair that the position is one of.
    pair: Pair<B>,
    /// The position.
    position: Position<B>,
    /// The sums of the stones of the opponent, of which one is taken back.
    moved: KeptSums,
    /// The sums of the stones of the player to move, which stay.
    renumbered: KeptSums,
    /// The index of the position with the same stones in which the opponent is to move.
    swap_sides: u64,
    /// How many sets of as many stones as the player to move has here there are outside the stones
    /// of the opponent.
    choices: u64,
}

impl<B: Geometry> Model for PredecessorIndices<B> {
    ghost use Rattle.morris_index.specs.Moves.{InPair, in_pair, IsTakenBack};

    ghost Value = { InPair };

    ghost view = { λ indices. in_pair indices.pair indices.position };

    ghost invariant = { λ indices. IsTakenBack B.shape B.POINTS (in_pair indices.pair indices.position) indices.moved indices.renumbered indices.swap_sides indices.choices };
}

impl<B: Geometry> PredecessorIndices<B> {
    /// A position of the pair, with its sums.
    // Out of line, so that what may do without it doesn't make room for its sums.
    #[inline(never)]
    pub fn of(pair: &Pair<B>, position: &Position<B>) -> PredecessorIndices<B>
        requires { is_of pair.now position.now ≡ true }
        ensures { result ≡ in_pair pair.now position.now }
    {
        let own = position.own();
        let other = position.other();
        let moved = KeptSums::of(other, Points::EMPTY, 1);
        let renumbered = KeptSums::of(own, other, 0);
        let choices = binomial(B::POINTS - other.count(), own.count());
        PredecessorIndices {
            pair: *pair,
            position: *position,
            moved,
            renumbered,
            swap_sides: pair.start_of(other.count()) + (moved.rank * choices + renumbered.rank),
            choices,
        }
    }

    /// What `point` comes to where a stone of the opponent goes back to a lesser point, or else to
    /// a greater one: added to the index for the point that it goes back to, and taken away for the
    /// one that it leaves.
    #[inline(always)]
    fn end(&self, point: u8, lower: bool) -> u64
        requires { point < B.POINTS }
        ensures value { result ≡ end_taken_back lower B.POINTS self.now.position point }
        ensures few { result < 2 ^ 60 }
    {
        let own = self.position.own();
        let other = self.position.other();
        self.moved.moved_end(Points::EMPTY, other, point, lower) * self.choices
            + self.renumbered.renumbered_end(other, own, point, lower)
    }

    /// The index of the predecessor by the un-move from `to` back to `from`: a stone of the
    /// opponent stands on `to`, and `from` is vacant.
    pub fn index(&self, from: u8, to: u8) -> u64
        requires start { from < B.POINTS }
        requires vacant { not (has self.now.position.own from || has self.now.position.other from) ≡ true }
        requires end { has self.now.position.other to ≡ true }
        ensures { result ≡ index_of B.POINTS self.now.pair (unmove_sides self.now.position from to) }
    {
        let lower = from < to;
        (self.swap_sides + self.end(from, lower)) - self.end(to, lower)
    }

    /// Adds what [`PredecessorIndices::add`] adds, for sources that all lie below `to`, or all past
    /// it.
    // Inlined, so that either case has a loop of its own, without a test in it.
    #[inline(always)]
    fn add_from(
        &self,
        to: u8,
        sources: Points,
        lower: bool,
        out: &mut Vec<u64>,
    ) -> Result<(), AllocError>
        requires end { has self.now.position.other to ≡ true }
        requires sources { (p : ℕ) → has sources p ≡ true → (p < B.POINTS) × (not (has self.now.position.own p || has self.now.position.other p) ≡ true) }
        requires side { (p : ℕ) → has sources p ≡ true → nat_lt p to ≡ lower }
        ensures { OnOk result (out.new.items ≡ out.old.items ++ map (λ p. index_of B.POINTS self.now.pair (unmove_sides self.now.position p to)) (members sources)) }
    {
        let swap_sides = self.swap_sides;
        let gone = self.end(to, lower);
        for from in sources.iter() {
            out.push((swap_sides + self.end(from, lower)) - gone)?;
        }
        Ok(())
    }

    /// Adds the indices of the predecessors by the un-moves from `to` back to each of `sources`, in
    /// ascending order of these: a stone of the opponent stands on `to`, and the sources are
    /// vacant.
    ///
    /// # Errors
    /// [`AllocError`] where memory runs out. Then some of the indices may have been added.
    pub fn add(&self, to: u8, sources: Points, out: &mut Vec<u64>) -> Result<(), AllocError>
        requires end { has self.now.position.other to ≡ true }
        requires sources { (p : ℕ) → has sources p ≡ true → (p < B.POINTS) × (not (has self.now.position.own p || has self.now.position.other p) ≡ true) }
        ensures { OnOk result (out.new.items ≡ out.old.items ++ map (λ p. index_of B.POINTS self.now.pair (unmove_sides self.now.position p to)) (members sources)) }
    {
        // The proof learns here that `to` is a point of the board.
        let _ = self.position.other();
        let below = Points::below(to);
        self.add_from(to, sources.intersection(below), true, out)?;
        self.add_from(to, sources.difference(below), false, out)
    }
}
