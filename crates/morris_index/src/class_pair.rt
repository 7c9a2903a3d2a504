//! Pairs of numbers of stones, with their positions numbered by classes.
ghost use Rattle.std.specs.Prelude.{◌≡◌, ◌≢◌, ◌↔◌, ℕ, ◌+◌, ◌-◌, ◌<◌, ◌≤◌, ◌^◌, length, map, true, false, IfOk};
ghost use Rattle.std.specs.List.{AllPairs, Contains};
ghost use Rattle.morris_board.specs.Sets.{has, members, count_of};
ghost use Rattle.morris_board.specs.Positions.{Sides, sides, IsPosition};
ghost use Rattle.morris_index.specs.Numbering.{rank_of, number_outside};
ghost use Rattle.morris_index.specs.Parts.{squeeze_below};
ghost use Rattle.morris_index.specs.Pairs.{IsPair, is_of};
ghost use Rattle.morris_index.specs.Classes.{symmetry_of, representative_of};
ghost use Rattle.morris_index.specs.ClassPairs.{canonical_form, class_half_size, class_size_of, class_index_of};
ghost use Rattle.morris_index.specs.ClassMoves.{class_start_of};
ghost use Rattle.morris_index.specs.EntryRows.{row_end};
ghost use Rattle.morris_index.specs.Orbits.{HasEntry, HasPositions, orbit_from};
ghost use Rattle.morris_index.specs.Halves.{half_of};
ghost use Rattle.morris_index.specs.Unmoves.{IsTransversal};
ghost use Rattle.morris_index.specs.Standings.{are_of};

use crate::class_halves::{CountTables, Half};
use crate::class_sizes::class_half_size;
use crate::classes::least_canonicalizing;
use crate::entry_rows::EntryRow;
use crate::halves::next_of_own;
use crate::orbits::FallsOn;
use crate::pair::Pair;
use crate::rank_tables::{RankRows, RankTable};
use crate::rings::Outside;
use crate::transversals::transversal_of;
use morris_board::board::Geometry;
use morris_board::points::Points;
use morris_board::position::Position;
use std::alloc::{AllocError, Global};
use std::marker::Model;

/// A pair, with its positions numbered by classes: all positions with one canonical form have one
/// entry. So positions that a symmetry takes into one another mostly have the same entry.
#[derive(Drop)]
pub struct ClassPair<B: Geometry> {
    pair: Pair<B>,
    greater: CountTables<B>,
    lesser: CountTables<B>,
    /// How many entries the first half has, in which the player to move has the greater number.
    first: u64,
    /// What the halves of sets add to ranks.
    ranks: RankTable,
}

impl<B: Geometry> Model for ClassPair<B> {
    ghost use Rattle.std.specs.Prelude.{◌≡◌, ◌≤◌, ◌^◌};
    ghost use Rattle.morris_index.specs.Pairs.{Counts};
    ghost use Rattle.morris_index.specs.ClassPairs.{class_half_size};
    ghost use Rattle.morris_index.specs.Halves.{AreCountTables};

    ghost Value = { Counts };

    ghost view = { λ pair. pair.pair };

    ghost invariant = { λ pair. (pair.first ≡ class_half_size B.shape B.POINTS pair.pair.greater pair.pair.lesser) × (pair.first ≤ 2 ^ 39)
        × AreCountTables B.shape B.POINTS pair.pair.greater pair.pair.lesser pair.greater.classes pair.greater.transversal.items pair.greater.others.points pair.greater.others.count pair.greater.choices
        × AreCountTables B.shape B.POINTS pair.pair.lesser pair.pair.greater pair.lesser.classes pair.lesser.transversal.items pair.lesser.others.points pair.lesser.others.count pair.lesser.choices };
}

impl<B: Geometry> ClassPair<B> {
    /// The entries of a pair.
    ///
    /// # Errors
    /// [`AllocError`] where memory runs out. No other call takes memory.
    pub fn make(alloc: Global, pair: Pair<B>) -> Result<ClassPair<B>, AllocError>
        ensures { IfOk result (λ made. made ≡ pair) }
    {
        let (more, fewer) = (pair.greater(), pair.lesser());
        let ranks = RankTable::make(alloc)?;
        let greater = CountTables::<B>::make(alloc, more, fewer)?;
        let lesser = CountTables::<B>::make(alloc, fewer, more)?;
        let first = class_half_size::<B>(greater.classes.count(), more, fewer);
        Ok(ClassPair {
            pair,
            greater,
            lesser,
            first,
            ranks,
        })
    }

    /// The pair.
    pub fn pair(&self) -> Pair<B>
        ensures value { result ≡ self.now }
        ensures lawful { IsPair B.POINTS self.now }
    {
        // The proof learns the pair's invariant where a number is asked for.
        let _ = self.pair.greater();
        self.pair
    }

    /// How many entries the pair has.
    pub fn size(&self) -> u64
        ensures value { result ≡ class_size_of B.shape B.POINTS self.now }
        ensures few { result ≤ 2 ^ 40 }
    {
        let (greater, lesser) = (self.pair.greater(), self.pair.lesser());
        if greater == lesser {
            self.first
        } else {
            self.first + class_half_size::<B>(self.lesser.classes.count(), lesser, greater)
        }
    }

    /// How many of the entries have the greater number of stones of the player to move. They are
    /// the first ones.
    pub fn first_half(&self) -> u64
        ensures value { result ≡ class_half_size B.shape B.POINTS self.now.greater self.now.lesser }
        ensures within { result ≤ class_size_of B.shape B.POINTS self.now }
        ensures few { result ≤ 2 ^ 39 }
    {
        self.first
    }

    /// The entry of a position of the pair, below [`ClassPair::size`]: the entry of its canonical
    /// form, the image under the canonicalizing symmetry of the points of the player to move, see
    /// [`Classes::class_of`]. Positions with the same canonical form have the same entry, and no
    /// others have it.
    pub fn index(&self, position: &Position<B>) -> u64
        requires { is_of self.now position.now ≡ true }
        ensures value { result ≡ class_index_of B.shape B.POINTS self.now position.now }
        ensures below { result < class_size_of B.shape B.POINTS self.now }
    {
        let own = position.own();
        let other = position.other();
        let standing = self.standing(own, other.count());
        self.entry_at(&standing, other)
    }

    /// The first entry in which the player to move stands on the representative of the class of
    /// `own`, where the opponent has `other` stones; this representative, and the canonicalizing
    /// symmetry of `own`.
    pub(crate) fn start_of(&self, own: Points, other: u8) -> (u64, Outside, u8)
        requires within { own < 2 ^ B.POINTS }
        requires counts { are_of self.now (count_of own) other ≡ true }
        ensures start { result.0 ≡ class_start_of B.shape B.POINTS self.now own other }
        ensures representative { result.1 ≡ representative_of B.shape own }
        ensures symmetry { result.2 ≡ symmetry_of B.shape own }
        ensures one { result.2 < B.SYMMETRIES }
        ensures few { result.0 ≤ 2 ^ 54 }
    {
        let half = self.half(own.count(), other);
        let (start, representative, canonicalizing) = half.canonicalize(own);
        (
            start,
            representative,
            least_canonicalizing::<B>(own, canonicalizing),
        )
    }

    /// The entries in which the player to move has `own` stones and the opponent `other`.
    pub(crate) fn half(&self, own: u8, other: u8) -> Half<'_, B>
        requires { are_of self.now own other ≡ true }
        ensures { result ≡ half_of self.now own other }
    {
        // The proof learns here that the numbers of stones are those of a pair.
        let greater = self.pair.greater();
        let (tables, first) = if own == greater {
            (&self.greater, 0)
        } else {
            (&self.lesser, self.first)
        };
        Half::of(
            self.pair,
            own,
            other,
            &tables.classes,
            &self.ranks,
            first,
            tables.choices,
        )
    }

    /// The entry that comes as many after `start` as the rank of `set` is among the sets of as many
    /// points, which are `count`, that have none in common with `outside`.
    pub(crate) fn entry_outside(&self, start: u64, set: Points, count: u8, outside: Outside) -> u64
        requires start { start ≤ 2 ^ 54 }
        requires board { set < 2 ^ 24 }
        requires counted { count ≡ count_of set }
        requires few { count_of set ≤ 9 }
        requires apart { (p : ℕ) → has set p ≡ true → has outside p ≡ false }
        ensures { result ≡ start + rank_of (map (number_outside outside) (members set)) }
    {
        start + self.ranks.rank_outside(set, count, outside)
    }

    /// The numbers of the points of `set` outside `outside`, and the rows by which sets of one more
    /// number are ranked.
    pub(crate) fn numbers_outside(&self, set: Points, outside: Points) -> (Points, RankRows<'_>)
        requires board { set < 2 ^ 24 }
        requires few { count_of set < 9 }
        ensures numbers { result.0 ≡ squeeze_below outside set 24 }
        ensures rows { result.1 ≡ count_of set + 1 }
    {
        let rows = self.ranks.rows(set.count() + 1);
        (self.ranks.numbers(set, Outside::of(outside)), rows)
    }

    /// The transversal of `own`: the symmetries whose inverse is the canonicalizing symmetry of the
    /// image of `own` under them.
    pub(crate) fn transversal_of(&self, own: Points, other: Points) -> Points
        requires within { own < 2 ^ B.POINTS }
        requires counts { is_of self.now (sides own other) ≡ true }
        ensures { IsTransversal B.shape own result }
    {
        // The proof learns here that the numbers of stones are those of a pair.
        let greater = self.pair.greater();
        let count = own.count();
        let tables = if count == greater {
            &self.greater
        } else {
            &self.lesser
        };
        let rows = self.ranks.rows(count);
        transversal_of(&tables.classes, &rows, &tables.transversal, own)
    }

    /// The position of an entry, below [`ClassPair::size`]: the canonical form of all positions
    /// with this entry.
    pub fn position(&self, index: u64) -> Position<B>
        requires { index < class_size_of B.shape B.POINTS self.now }
        ensures index { class_index_of B.shape B.POINTS self.now result ≡ index }
        ensures counts { is_of self.now result ≡ true }
        ensures lawful { IsPosition B.shape result }
        ensures own { representative_of B.shape result.own ≡ result.own }
        ensures canonical_form { (s : Sides) → IsPosition B.shape s → is_of self.now s ≡ true → class_index_of B.shape B.POINTS self.now s ≡ index → result ≡ canonical_form B.shape s }
    {
        self.row_from(index).position(0)
    }

    /// [`ClassPair::position`], where the position of the entry before is at hand. The next one is
    /// found from it while the player to move stands on the same representative.
    pub fn next_position(&self, before: &Position<B>, index: u64) -> Position<B>
        requires counts { is_of self.now before.now ≡ true }
        requires own { representative_of B.shape before.now.own ≡ before.now.own }
        requires before { class_index_of B.shape B.POINTS self.now before.now + 1 ≡ index }
        requires inside { index < class_size_of B.shape B.POINTS self.now }
        ensures index { class_index_of B.shape B.POINTS self.now result ≡ index }
        ensures counts { is_of self.now result ≡ true }
        ensures lawful { IsPosition B.shape result }
        ensures own { representative_of B.shape result.own ≡ result.own }
        ensures canonical_form { (s : Sides) → IsPosition B.shape s → is_of self.now s ≡ true → class_index_of B.shape B.POINTS self.now s ≡ index → result ≡ canonical_form B.shape s }
    {
        // The proof learns the rules of a position where its stones are read.
        let _ = before.own();
        match next_of_own(before) {
            Some(next) => next,
            None => self.position(index),
        }
    }

    /// The entries from `index` on, below [`ClassPair::size`], up to the last one in which the
    /// player to move stands on the same representative.
    pub fn row_from(&self, index: u64) -> EntryRow<'_, B>
        requires { index < class_size_of B.shape B.POINTS self.now }
        ensures pair { result.pair ≡ self.now }
        ensures first { result.first ≡ index }
        ensures some { 1 ≤ result.len }
        ensures whole { index + result.len ≡ row_end B.shape B.POINTS result }
        ensures inside { index + result.len ≤ class_size_of B.shape B.POINTS self.now }
    {
        let (greater, lesser) = (self.pair.greater(), self.pair.lesser());
        if index < self.first {
            let (own, numbers) = self.greater.row(greater, lesser, index);
            EntryRow::of(self.pair, index, own, numbers)
        } else {
            let (own, numbers) = self.lesser.row(lesser, greater, index - self.first);
            EntryRow::of(self.pair, index, own, numbers)
        }
    }

    /// All positions whose entry is `index`, below [`ClassPair::size`], each once: those whose
    /// canonical form is [`ClassPair::position`].
    pub fn falls_on(&self, index: u64) -> FallsOn<'_, B>
        requires { index < class_size_of B.shape B.POINTS self.now }
        ensures listed { (s : Sides) → Contains result s ↔ HasEntry B.shape B.POINTS self.now index s }
        ensures once { AllPairs (λ s t. s ≢ t) result }
        ensures few { length result ≤ B.SYMMETRIES }
    {
        let position = self.position(index);
        self.orbit_of(position)
    }

    /// The orbit size of the entries of a row of the pair: how many positions have each of them. It
    /// is the same for all.
    pub fn orbit_size(&self, row: &EntryRow<'_, B>) -> u64
        requires { row.now.pair ≡ self.now }
        ensures each { (place : ℕ) → place < row.now.len → HasPositions B.shape B.POINTS self.now (row.now.first + place) result }
        ensures few { result ≤ 16 }
    {
        // The proof learns here that there is an entry, and what stands in each.
        let _ = row.len();
        let first = row.position(0);
        self.orbit_of(first).count() as u64
    }

    /// The orbit of `position`, one of the pair: the positions whose canonical form it is.
    fn orbit_of(&self, position: Position<B>) -> FallsOn<'_, B>
        requires { is_of self.now position ≡ true }
        ensures value { result ≡ orbit_from B.shape position 0 }
        ensures few { length result ≤ B.SYMMETRIES }
    {
        let tables = if position.own().count() == self.pair.greater() {
            &self.greater
        } else {
            &self.lesser
        };
        FallsOn::of(&tables.classes, position)
    }
}
