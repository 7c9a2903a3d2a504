//! Rows of entries: entries that follow one another, in all of which the player to move has the
//! same stones.
ghost use Rattle.std.specs.Prelude.{◌≡◌, ℕ, ◌+◌, ◌-◌, ◌<◌, ◌≤◌, ◌^◌, true, length};
ghost use Rattle.morris_board.specs.Sets.{count_of};
ghost use Rattle.morris_board.specs.Positions.{Sides, IsPosition};
ghost use Rattle.morris_index.specs.Classes.{representative_of};
ghost use Rattle.morris_index.specs.ClassPairs.{canonical_form, class_index_of};
ghost use Rattle.morris_index.specs.EntryRows.{in_row, IsInRow, IsEntryRow, StandsIn};
ghost use Rattle.morris_index.specs.Pairs.{is_of};
ghost use Rattle.morris_index.specs.Parts.{squeeze_below};

use crate::pair::Pair;
use crate::ranks::spread;
use morris_board::board::Geometry;
use morris_board::points::Points;
use morris_board::position::Position;
use std::marker::Model;

/// Entries that follow one another, in all of which the player to move stands on one
/// representative. The stones of the opponent are read as numbers, so that a row is gone through
/// without a position for each entry.
#[derive(Drop)]
pub struct EntryRow<'a, B: Geometry> {
    /// The pair that the entries are of.
    pair: Pair<B>,
    /// The first of them.
    first: u64,
    /// The stones of the player to move.
    own: Points,
    /// The masks of the opponent's sets, entry by entry, as numbers of the points that are free.
    numbers: &'a [u32],
}

impl<'a, B: Geometry> Model for EntryRow<'a, B> {
    ghost use Rattle.std.specs.Prelude.{length};
    ghost use Rattle.morris_index.specs.EntryRows.{InRow, in_row, IsEntryRow};

    ghost Value = { InRow };

    ghost view = { λ row. in_row row.pair row.first row.own (length row.numbers.now) };

    ghost invariant = { λ row. IsEntryRow B.shape B.POINTS (in_row row.pair row.first row.own (length row.numbers.now)) row.numbers.now };
}

impl<'a, B: Geometry> EntryRow<'a, B> {
    /// The entries of the pair from `first` on with these stones of the player to move, as many as
    /// there are sets of the opponent.
    pub(crate) fn of(pair: Pair<B>, first: u64, own: Points, numbers: &'a [u32]) -> EntryRow<'a, B>
        requires { IsEntryRow B.shape B.POINTS (in_row pair first own (length numbers.now)) numbers.now }
        ensures { result ≡ in_row pair first own (length numbers.now) }
    {
        EntryRow {
            pair,
            first,
            own,
            numbers,
        }
    }

    /// The stones of the player to move in each of the entries: the representative of a class.
    pub fn own(&self) -> Points
        ensures value { result ≡ self.now.own }
        ensures least { representative_of B.shape self.now.own ≡ self.now.own }
        ensures within { self.now.own < 2 ^ B.POINTS }
    {
        self.own
    }

    /// How many entries there are, at least one.
    pub fn len(&self) -> usize
        ensures value { result ≡ self.now.len }
        ensures some { 1 ≤ result }
        ensures stand { (place : ℕ) → place < result → (s : Sides) × StandsIn B.shape B.POINTS self.now place s }
    {
        self.numbers.len()
    }

    /// The stones of the opponent in the entry at a place, counted from 0, as numbers: the points
    /// that the player to move leaves free are numbered in ascending order, from 0.
    pub fn numbers(&self, place: usize) -> Points
        requires { place < self.now.len }
        ensures stands { (s : Sides) × IsInRow B.shape B.POINTS self.now place s }
        ensures value { (s : Sides) → IsInRow B.shape B.POINTS self.now place s → result ≡ squeeze_below self.now.own s.other B.POINTS }
        ensures within { result < 2 ^ (B.POINTS - count_of self.now.own) }
    {
        let numbers = self.numbers;
        Points::from_mask(numbers[place])
    }

    /// The position of the entry at a place, see [`ClassPair::position`].
    ///
    /// [`ClassPair::position`]: crate::class_pair::ClassPair::position
    pub fn position(&self, place: usize) -> Position<B>
        requires { place < self.now.len }
        ensures index { class_index_of B.shape B.POINTS self.now.pair result ≡ self.now.first + place }
        ensures counts { is_of self.now.pair result ≡ true }
        ensures lawful { IsPosition B.shape result }
        ensures own { result.own ≡ self.now.own }
        ensures canonical_form { (s : Sides) → IsPosition B.shape s → is_of self.now.pair s ≡ true → class_index_of B.shape B.POINTS self.now.pair s ≡ self.now.first + place → result ≡ canonical_form B.shape s }
    {
        let numbers = self.numbers;
        let other = spread(Points::from_mask(numbers[place]), self.own);
        match Position::new(self.own, other) {
            Ok(position) => position,
            Err(_) => unreachable!(),
        }
    }
}
