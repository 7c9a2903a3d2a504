//! The half of a pair by classes: the positions in which the player to move and the opponent have
//! given numbers of stones, and the player to move stands on the representative of a class.
ghost use Rattle.std.specs.Prelude.{◌≡◌, ◌<◌, ◌≤◌, ◌^◌, IfOk};
ghost use Rattle.morris_board.specs.Sets.{count_of};
ghost use Rattle.morris_index.specs.Classes.{representative_of, class_of, AreCanonicalizing};
ghost use Rattle.morris_index.specs.ClassPairs.{class_half_size};
ghost use Rattle.morris_index.specs.ClassMoves.{class_start_of};
ghost use Rattle.morris_index.specs.EntryRows.{IsHalfRow};
ghost use Rattle.morris_index.specs.Halves.{half_of, IsHalfTable, AreCountTables};
ghost use Rattle.morris_index.specs.Pairs.{IsHalf, IsPair};

use crate::binomials::binomial;
use crate::classes::Classes;
use crate::pair::Pair;
use crate::rank_tables::{RankRows, RankTable};
use crate::rings::Outside;
use crate::set_lists::SetList;
use crate::transversals::make_transversals;
use morris_board::board::Geometry;
use morris_board::points::Points;
use std::alloc::{AllocError, Global};
use std::marker::Model;

/// Tables for the sets of one of a pair's two numbers of stones.
#[derive(Drop)]
pub(crate) struct CountTables<B: Geometry> {
    /// Their classes.
    pub(crate) classes: Classes<B>,
    /// For each class, the transversal of its representative: one symmetry for each image of it,
    /// whose inverse is the canonicalizing symmetry of the image.
    pub(crate) transversal: Vec<Points>,
    /// The sets of the other number among the points that one of these leaves free.
    others: SetList,
    /// How many those are.
    pub(crate) choices: u64,
}

impl<B: Geometry> CountTables<B> {
    /// The tables for the sets of `own` points, where the other number is `other`.
    ///
    /// # Errors
    /// [`AllocError`] where memory runs out.
    pub(crate) fn make(alloc: Global, own: u8, other: u8) -> Result<CountTables<B>, AllocError>
        requires { IsHalf B.POINTS own other }
        ensures { IfOk result (λ tables. AreCountTables B.shape B.POINTS own other tables.classes tables.transversal.items tables.others.points tables.others.count tables.choices) }
    {
        let others = SetList::make(alloc, B::POINTS - own, other)?;
        let classes = Classes::make(alloc, own)?;
        let transversal = make_transversals(alloc, &classes)?;
        Ok(CountTables {
            classes,
            transversal,
            others,
            choices: binomial(B::POINTS - own, other),
        })
    }

    /// The stones of the player to move in the entry with this number among those with `own` stones
    /// of the player to move and `other` of the opponent; and the masks of the opponent's sets in
    /// it and in the further entries with these stones, as numbers of the points that are free.
    pub(crate) fn row(&self, own: u8, other: u8, index: u64) -> (Points, &[u32])
        requires half { IsHalf B.POINTS own other }
        requires tables { AreCountTables B.shape B.POINTS own other self.now.classes self.now.transversal.items self.now.others.points self.now.others.count self.now.choices }
        requires small { index < class_half_size B.shape B.POINTS own other }
        ensures count { count_of result.0 ≡ own }
        ensures row { IsHalfRow B.shape B.POINTS result.0 other index result.1.now }
    {
        // The proof learns here that a class fits 32 bits.
        let _ = self.classes.count();
        let own_points = self.classes.representative((index / self.choices) as u32);
        (own_points, self.others.sets_from(index % self.choices))
    }
}

/// The entries of a pair in which the two players have given numbers of stones, with the tables by
/// which the class of the stones of the player to move is looked up for many of them.
#[derive(Drop)]
pub(crate) struct Half<'a, B: Geometry> {
    /// The pair.
    pair: Pair<B>,
    /// How many stones the player to move has.
    own: u8,
    /// How many stones the opponent has.
    other: u8,
    /// The classes of the sets of the player to move.
    classes: &'a Classes<B>,
    /// The rows by which these sets are ranked.
    rows: RankRows<'a>,
    /// The first of the entries.
    first: u64,
    /// How many of them there are for a class.
    choices: u64,
}

impl<'a, B: Geometry> Model for Half<'a, B> {
    ghost use Rattle.morris_index.specs.Halves.{HalfOf, half_of, IsHalfTable};

    ghost Value = { HalfOf };

    ghost view = { λ half. half_of half.pair half.own half.other };

    ghost invariant = { λ half. IsHalfTable B.shape B.POINTS (half_of half.pair half.own half.other) half.classes.now half.rows half.first half.choices };
}

impl<'a, B: Geometry> Half<'a, B> {
    /// The entries of the pair in which the player to move has `own` stones and the opponent
    /// `other`; `first` is the first of them.
    pub(crate) fn of(
        pair: Pair<B>,
        own: u8,
        other: u8,
        classes: &'a Classes<B>,
        ranks: &'a RankTable,
        first: u64,
        choices: u64,
    ) -> Half<'a, B>
        requires few { own ≤ 9 }
        requires tables { IsHalfTable B.shape B.POINTS (half_of pair own other) classes.now own first choices }
        ensures { result ≡ half_of pair own other }
    {
        Half {
            pair,
            own,
            other,
            classes,
            rows: ranks.rows(own),
            first,
            choices,
        }
    }

    /// The first entry in which the player to move stands on the representative of the class of
    /// `own`, this representative, and all canonicalizing symmetries of `own`.
    pub(crate) fn canonicalize(&self, own: Points) -> (u64, Outside, Points)
        requires within { own < 2 ^ B.POINTS }
        requires count { count_of own ≡ self.now.own }
        ensures start { result.0 ≡ class_start_of B.shape B.POINTS self.now.pair own self.now.other }
        ensures representative { result.1 ≡ representative_of B.shape own }
        ensures symmetries { AreCanonicalizing B.shape own result.2 }
        ensures few { result.0 ≤ 2 ^ 54 }
        ensures lawful { IsPair B.POINTS self.now.pair }
    {
        let (class, representative, symmetries) = self.classes.canonicalize(&self.rows, own);
        let start = self.first + u64::from(class) * self.choices;
        (start, representative, symmetries)
    }
}
