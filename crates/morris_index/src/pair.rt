//! Pairs of numbers of stones.
ghost use Rattle.std.specs.Prelude.{◌≡◌, ◌+◌, ◌<◌, ◌≤◌, ◌^◌, ◌++◌, length, true, IfSome};
ghost use Rattle.std.specs.Option.{option_to_list};
ghost use Rattle.morris_board.specs.Positions.{Sides, IsPosition, is_between};
ghost use Rattle.morris_index.specs.Pairs.{counts, IsPair, make_pair, pair_of, is_of, size_of, index_of, needs_of, all_needs, below_of, EndsIn, NeedsFirst};
ghost use Rattle.morris_index.specs.Moves.{start_of};
ghost use Rattle.morris_index.specs.Numbering.{half_size};

use crate::below::Below;
use crate::faults::PairFault;
use crate::halves::{half_index, half_position, half_size, next_of_own};
use morris_board::board::Geometry;
use morris_board::position::Position;
use std::fmt;
use std::marker::{Model, PhantomData};

/// Two numbers of stones, each 3 to 9 and together no more than the board has points. The pair
/// stands for all positions in which one player has the greater number and the other the lesser
/// one.
#[derive_where(Clone, Copy, Debug, PartialEq, Eq)]
pub struct Pair<B: Geometry> {
    /// The greater number.
    greater: u8,
    /// The lesser number.
    lesser: u8,
    /// The board, of which nothing is stored.
    #[derive_where(skip)]
    board: PhantomData<B>,
}

impl<B: Geometry> Model for Pair<B> {
    ghost use Rattle.morris_index.specs.Pairs.{Counts, IsPair};

    ghost Value = { Counts };

    ghost view = { λ pair. record { greater = pair.greater; lesser = pair.lesser } };

    ghost invariant = { λ pair. IsPair B.POINTS (record { greater = pair.greater; lesser = pair.lesser }) };

    ghost inverse = { λ c. record { greater = c.greater; lesser = c.lesser; board = record {} } };
}

impl<B: Geometry> Pair<B> {
    /// The pair of two numbers of stones, given in either order.
    ///
    /// # Errors
    /// [`PairFault::Counts`] where a number isn't 3 to 9, else [`PairFault::Crowded`] where the
    /// board has fewer points than there are stones.
    pub fn new(a: u8, b: u8) -> Result<Pair<B>, PairFault>
        ensures { result ≡ make_pair B.POINTS a b }
    {
        if !is_count(a) || !is_count(b) {
            return Err(PairFault::Counts);
        }
        if a + b > B::POINTS {
            return Err(PairFault::Crowded);
        }
        Ok(Pair::from_counts(a.max(b), a.min(b)))
    }

    /// The pair with these numbers of stones.
    pub(crate) fn from_counts(greater: u8, lesser: u8) -> Pair<B>
        requires { IsPair B.POINTS (counts greater lesser) }
        ensures { result ≡ counts greater lesser }
    {
        Pair {
            greater,
            lesser,
            board: PhantomData,
        }
    }

    /// The pair that a position belongs to, or `None` where the player to move has two stones.
    pub fn of(position: &Position<B>) -> Option<Pair<B>>
        ensures pair { result ≡ pair_of position.now }
        ensures counts { IfSome result (λ c. is_of c position.now ≡ true) }
    {
        Pair::new(position.own().count(), position.other().count()).ok()
    }

    /// The greater number of stones, 3 to 9.
    pub fn greater(&self) -> u8
        ensures value { result ≡ self.now.greater }
        ensures lawful { IsPair B.POINTS self.now }
    {
        self.greater
    }

    /// The lesser number of stones, 3 to 9.
    pub fn lesser(&self) -> u8
        ensures value { result ≡ self.now.lesser }
        ensures lawful { IsPair B.POINTS self.now }
    {
        self.lesser
    }

    /// The pairs that captures from this one lead to, so that its values rest on theirs: the one
    /// with one stone less in the lesser number, where that is above 3, and then the one with one
    /// stone less in the greater number, where that is above the lesser one. Those that there are
    /// stand first.
    pub fn needs(&self) -> (Option<Pair<B>>, Option<Pair<B>>)
        ensures value { result ≡ needs_of self.now }
        ensures all { option_to_list result.0 ++ option_to_list result.1 ≡ all_needs self.now }
    {
        let less_greater = if self.lesser < self.greater {
            Some(Pair::from_counts(self.greater - 1, self.lesser))
        } else {
            None
        };
        if 3 < self.lesser {
            let less_lesser = Pair::from_counts(self.greater, self.lesser - 1);
            (Some(less_lesser), less_greater)
        } else {
            (less_greater, None)
        }
    }

    /// The pairs whose greater and lesser numbers are at most those of this pair, in order of the
    /// sum of their numbers and then of the greater one. Each stands after the pairs that it needs,
    /// and the last one is this pair.
    pub fn below(&self) -> Below<B>
        ensures pairs { result ≡ below_of self.now }
        ensures few { length (below_of self.now) ≤ 28 }
        ensures last { EndsIn (below_of self.now) self.now }
        ensures needs_first { NeedsFirst (below_of self.now) }
    {
        // The proof learns the pair's invariant where a field is used.
        let _ = &self.greater;
        Below::of(*self)
    }

    /// How many positions the pair has.
    pub fn size(&self) -> u64
        ensures value { result ≡ size_of B.POINTS self.now }
        ensures few { result ≤ 2 ^ 40 }
    {
        let first = half_size::<B>(self.greater, self.lesser);
        if self.greater == self.lesser {
            first
        } else {
            first + half_size::<B>(self.lesser, self.greater)
        }
    }

    /// The index of the first position in which the player to move has `own` stones, one of the
    /// pair's numbers.
    pub(crate) fn start_of(&self, own: u8) -> u64
        ensures value { result ≡ start_of B.POINTS self.now own }
        ensures few { result ≤ 2 ^ 39 }
        ensures lawful { IsPair B.POINTS self.now }
    {
        if own == self.greater {
            0
        } else {
            half_size::<B>(self.greater, self.lesser)
        }
    }

    /// How many of the positions have the greater number of stones of the player to move. They have
    /// the first indices.
    pub fn first_half(&self) -> u64
        ensures value { result ≡ half_size B.POINTS self.now.greater self.now.lesser }
        ensures within { result ≤ size_of B.POINTS self.now }
        ensures few { result ≤ 2 ^ 39 }
    {
        half_size::<B>(self.greater, self.lesser)
    }

    /// The index of a position of the pair, below [`Pair::size`]. The positions in which the player
    /// to move has the greater number of stones come first, then those in which it is the opponent.
    /// Within either half they are ordered by the points of the player to move, and then by the
    /// points of the opponent.
    pub fn index(&self, position: &Position<B>) -> u64
        requires { is_of self.now position.now ≡ true }
        ensures value { result ≡ index_of B.POINTS self.now position.now }
        ensures below { result < size_of B.POINTS self.now }
        ensures alone { (s : Sides) → IsPosition B.shape s → is_of self.now s ≡ true → index_of B.POINTS self.now s ≡ result → s ≡ position.now }
    {
        let within_half = half_index(position);
        if position.own().count() == self.greater {
            within_half
        } else {
            half_size::<B>(self.greater, self.lesser) + within_half
        }
    }

    /// The position of the pair with this index.
    pub fn position(&self, index: u64) -> Position<B>
        requires { index < size_of B.POINTS self.now }
        ensures index { index_of B.POINTS self.now result ≡ index }
        ensures counts { is_of self.now result ≡ true }
        ensures lawful { IsPosition B.shape result }
        ensures alone { (s : Sides) → IsPosition B.shape s → is_of self.now s ≡ true → index_of B.POINTS self.now s ≡ index → result ≡ s }
    {
        let first = half_size::<B>(self.greater, self.lesser);
        if index < first {
            half_position(self.greater, self.lesser, index)
        } else {
            half_position(self.lesser, self.greater, index - first)
        }
    }

    /// [`Pair::position`], where the position of the index before is at hand. The next one is found
    /// from it while the points of the player to move stay the same.
    pub fn next_position(&self, before: &Position<B>, index: u64) -> Position<B>
        requires counts { is_of self.now before.now ≡ true }
        requires before { index_of B.POINTS self.now before.now + 1 ≡ index }
        requires inside { index < size_of B.POINTS self.now }
        ensures index { index_of B.POINTS self.now result ≡ index }
        ensures counts { is_of self.now result ≡ true }
        ensures lawful { IsPosition B.shape result }
        ensures alone { (s : Sides) → IsPosition B.shape s → is_of self.now s ≡ true → index_of B.POINTS self.now s ≡ index → result ≡ s }
    {
        match next_of_own(before) {
            Some(next) => next,
            None => self.position(index),
        }
    }
}

/// Whether a player may have `n` stones in a pair.
fn is_count(n: u8) -> bool
    ensures { result ≡ is_between 3 n 9 }
{
    3 <= n && n <= 9
}

impl<B: Geometry> fmt::Display for Pair<B> {
    ghost use Rattle.std.specs.Prelude.{Some};
    ghost use Rattle.morris_index.specs.Pairs.{pair_text};

    ghost output = { λ c. Some (pair_text c) };

    fn fmt<W: fmt::Write>(&self, f: &mut fmt::Formatter<W>) -> fmt::Result {
        let greater = self.greater;
        let lesser = self.lesser;
        write!(f, "{greater}-{lesser}")
    }
}
