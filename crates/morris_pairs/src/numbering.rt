//! The entries of a table: how many there are, and which positions they are of.
ghost use Rattle.std.specs.Prelude.{◌≡◌, ℕ, ◌+◌, ◌<◌, ◌≤◌, ◌^◌, ◌||◌, ◌++◌, not, true, map, None, IfOk, OnOk, IsOk};
ghost use Rattle.morris_board.specs.Sets.{has, members, count_of};
ghost use Rattle.morris_board.specs.Positions.{sides, IsPosition};
ghost use Rattle.morris_moves.specs.Rules.{move};
ghost use Rattle.morris_index.specs.Pairs.{IsPair, is_of};
ghost use Rattle.morris_index.specs.Moves.{in_pair, move_sides};
ghost use Rattle.morris_index.specs.Standings.{are_of};
ghost use Rattle.morris_pairs.specs.Entries.{entry_count, entry_index, has_own_entry};
ghost use Rattle.morris_pairs.specs.Numberings.{layout_of, pair_of, layout_after, position_before, layout_before, position_after};
ghost use Rattle.morris_pairs.specs.Predecessors.{predecessors_of};
ghost use Rattle.morris_pairs.specs.Captured.{IsStandingIn};

use crate::layout::Layout;
use morris_board::board::Geometry;
use morris_board::points::Points;
use morris_board::position::Position;
use morris_index::class_pair::ClassPair;
use morris_index::pair::Pair;
use morris_index::predecessor_entries::PredecessorEntries;
use morris_index::predecessors::PredecessorIndices;
use morris_index::standing::Standing;
use morris_index::successor_entries::SuccessorEntries;
use morris_index::successors::SuccessorIndices;
use std::alloc::{AllocError, Global};

/// How the entries of a pair are numbered, by their layout.
pub(crate) enum Numbering<B: Geometry> {
    /// Each position has an entry.
    Full(Pair<B>),
    /// Each position has the entry of its canonical form.
    Classes(ClassPair<B>),
}

// Written by hand: with a derived one the proof of each function that drops a numbering goes
// through all parts of it.
impl<B: Geometry> Drop for Numbering<B> {
    fn drop(self) {
        match self {
            Numbering::Full(_) => {}
            Numbering::Classes(_) => {}
        }
    }
}

impl<B: Geometry> Numbering<B> {
    /// The entries of a pair in a layout.
    ///
    /// # Errors
    /// [`AllocError`] where memory runs out, which isn't asked for in layout `Full`. No other call
    /// takes memory.
    pub(crate) fn make(
        alloc: Global,
        pair: Pair<B>,
        layout: Layout,
    ) -> Result<Numbering<B>, AllocError>
        ensures layout { IfOk result (λ made. layout_of made ≡ layout) }
        ensures pair { IfOk result (λ made. pair_of made ≡ pair) }
        ensures full { layout ≡ Layout.Full → IsOk result }
    {
        match layout {
            Layout::Full => Ok(Numbering::Full(pair)),
            Layout::Classes => Ok(Numbering::Classes(ClassPair::make(alloc, pair)?)),
        }
    }

    /// The pair.
    pub(crate) fn pair(&self) -> Pair<B>
        ensures value { result ≡ pair_of self.now }
        ensures lawful { IsPair B.POINTS (pair_of self.now) }
    {
        let pair = match self {
            Numbering::Full(pair) => *pair,
            Numbering::Classes(classes) => classes.pair(),
        };
        // The proof learns here that the numbers of stones are those of a pair.
        let _ = pair.greater();
        pair
    }

    /// The layout.
    pub(crate) fn layout(&self) -> Layout
        ensures { result ≡ layout_of self.now }
    {
        match self {
            Numbering::Full(_) => Layout::Full,
            Numbering::Classes(_) => Layout::Classes,
        }
    }

    /// How many entries there are.
    pub(crate) fn count(&self) -> u64
        ensures value { result ≡ entry_count B.shape B.POINTS (layout_of self.now) (pair_of self.now) }
        ensures few { result ≤ 2 ^ 40 }
    {
        match self {
            Numbering::Full(pair) => pair.size(),
            Numbering::Classes(classes) => classes.size(),
        }
    }

    /// The entry that states the value of a position of the pair, below [`Numbering::count`].
    pub(crate) fn entry(&self, position: &Position<B>) -> u64
        requires { is_of (pair_of self.now) position.now ≡ true }
        ensures value { result ≡ entry_index B.shape B.POINTS (layout_of self.now) (pair_of self.now) position.now }
        ensures below { result < entry_count B.shape B.POINTS (layout_of self.now) (pair_of self.now) }
    {
        match self {
            Numbering::Full(pair) => pair.index(position),
            Numbering::Classes(classes) => classes.index(position),
        }
    }

    /// Where the entries stand of the positions of the pair in which the player to move has the
    /// stones `own` and the opponent `other` stones.
    pub(crate) fn standing(&self, own: Points, other: u8) -> Standing
        requires within { own < 2 ^ B.POINTS }
        requires counts { are_of (pair_of self.now) (count_of own) other ≡ true }
        ensures own { result.own ≡ own }
        ensures stands { IsStandingIn B.shape B.POINTS (layout_of self.now) (pair_of self.now) other result }
    {
        match self {
            Numbering::Full(pair) => pair.standing(own, other),
            Numbering::Classes(classes) => classes.standing(own, other),
        }
    }

    /// The entry of the position with these own stones in which the opponent has the stones
    /// `other`, as many as the standing was asked for.
    pub(crate) fn entry_at(&self, standing: &Standing, other: Points) -> u64
        requires stands { IsStandingIn B.shape B.POINTS (layout_of self.now) (pair_of self.now) (count_of other) standing.now }
        requires lawful { IsPosition B.shape (sides standing.now.own other) }
        ensures value { result ≡ entry_index B.shape B.POINTS (layout_of self.now) (pair_of self.now) (sides standing.now.own other) }
        ensures below { result < entry_count B.shape B.POINTS (layout_of self.now) (pair_of self.now) }
    {
        match self {
            Numbering::Full(pair) => pair.index_at(standing, other),
            Numbering::Classes(classes) => classes.entry_at(standing, other),
        }
    }

    /// The position whose own entry is `index`, which is below [`Numbering::count`].
    pub(crate) fn position(&self, index: u64) -> Position<B>
        requires { index < entry_count B.shape B.POINTS (layout_of self.now) (pair_of self.now) }
        ensures entry { entry_index B.shape B.POINTS (layout_of self.now) (pair_of self.now) result ≡ index }
        ensures counts { is_of (pair_of self.now) result ≡ true }
        ensures lawful { IsPosition B.shape result }
        ensures own { has_own_entry B.shape (layout_of self.now) result ≡ true }
    {
        match self {
            Numbering::Full(pair) => pair.position(index),
            Numbering::Classes(classes) => classes.position(index),
        }
    }

    /// [`Numbering::position`], where the position of the preceding entry is at hand.
    pub(crate) fn next_position(&self, before: &Position<B>, index: u64) -> Position<B>
        requires counts { is_of (pair_of self.now) before.now ≡ true }
        requires own { has_own_entry B.shape (layout_of self.now) before.now ≡ true }
        requires before { entry_index B.shape B.POINTS (layout_of self.now) (pair_of self.now) before.now + 1 ≡ index }
        requires inside { index < entry_count B.shape B.POINTS (layout_of self.now) (pair_of self.now) }
        ensures entry { entry_index B.shape B.POINTS (layout_of self.now) (pair_of self.now) result ≡ index }
        ensures counts { is_of (pair_of self.now) result ≡ true }
        ensures lawful { IsPosition B.shape result }
        ensures own { has_own_entry B.shape (layout_of self.now) result ≡ true }
    {
        match self {
            Numbering::Full(pair) => pair.next_position(before, index),
            Numbering::Classes(classes) => classes.next_position(before, index),
        }
    }
}

/// A position whose successors, the entries after its quiet moves, are found in constant time each.
#[derive(Drop)]
pub(crate) enum Successors<'a, B: Geometry> {
    /// Among the entries of all positions.
    Full(SuccessorIndices<B>),
    /// Among those of classes.
    Classes(SuccessorEntries<'a, B>),
}

impl<'a, B: Geometry> Successors<'a, B> {
    /// Those of a position of the pair.
    pub(crate) fn of(numbering: &'a Numbering<B>, position: &Position<B>) -> Successors<'a, B>
        requires { is_of (pair_of numbering.now) position.now ≡ true }
        ensures layout { layout_after result ≡ layout_of numbering.now }
        ensures position { position_before result ≡ in_pair (pair_of numbering.now) position.now }
    {
        match numbering {
            Numbering::Full(pair) => Successors::Full(SuccessorIndices::of(pair, position)),
            Numbering::Classes(classes) => {
                Successors::Classes(SuccessorEntries::of(classes, position))
            }
        }
    }

    /// The entry of the position after a quiet move from `from` to `to`: a stone of the player to
    /// move stands on `from`, and `to` is vacant.
    pub(crate) fn entry(&self, from: u8, to: u8) -> u64
        requires start { has (position_before self.now).position.own from ≡ true }
        requires end { to < B.POINTS }
        requires vacant { not (has (position_before self.now).position.own to || has (position_before self.now).position.other to) ≡ true }
        ensures { result ≡ entry_index B.shape B.POINTS (layout_after self.now) (position_before self.now).pair (move_sides (position_before self.now).position from to) }
    {
        match self {
            Successors::Full(indices) => indices.index(from, to),
            Successors::Classes(entries) => entries.entry(from, to),
        }
    }
}

/// A position whose predecessors, the entries before a quiet move to it, are found in constant time
/// each. It is borrowed: it may hold some 200 bytes, which each move of the enum would copy.
#[derive(Drop)]
pub(crate) enum Predecessors<'a, B: Geometry> {
    /// Among the entries of all positions.
    Full(&'a PredecessorIndices<B>),
    /// Among those of classes.
    Classes(&'a PredecessorEntries<'a, B>),
}

/// Adds the predecessors of the entry of the position of `entries` by the quiet moves to `to` from
/// each of `sources`: see [`Predecessors::add`].
fn add_predecessor<B: Geometry>(
    entries: &PredecessorEntries<'_, B>,
    to: u8,
    sources: Points,
    out: &mut Vec<u64>,
) -> Result<(), AllocError>
    requires end { has entries.now.position.other to ≡ true }
    requires sources { (p : ℕ) → has sources p ≡ true → (p < B.POINTS) × (not (has entries.now.position.own p || has entries.now.position.other p) ≡ true) }
    ensures { OnOk result (out.new.items ≡ out.old.items
        ++ predecessors_of Layout.Classes B.shape B.POINTS entries.now.pair entries.now.position (map (λ u. move u to None) (members sources))) }
{
    for from in sources.iter() {
        entries.add(from, to, out)?;
    }
    Ok(())
}

impl<'a, B: Geometry> Predecessors<'a, B> {
    /// Adds the predecessors of the position's entry by the quiet moves to `to` from each of
    /// `sources`, in order of the sources: a stone of the opponent stands on `to`, and the sources
    /// are vacant.
    ///
    /// # Errors
    /// [`AllocError`] where memory runs out. Then some of the entries may have been added.
    pub(crate) fn add(&self, to: u8, sources: Points, out: &mut Vec<u64>) -> Result<(), AllocError>
        requires end { has (position_after self.now).position.other to ≡ true }
        requires sources { (p : ℕ) → has sources p ≡ true
            → (p < B.POINTS) × (not (has (position_after self.now).position.own p || has (position_after self.now).position.other p) ≡ true) }
        ensures { OnOk result (out.new.items ≡ out.old.items
            ++ predecessors_of (layout_before self.now) B.shape B.POINTS (position_after self.now).pair (position_after self.now).position (map (λ u. move u to None) (members sources))) }
    {
        match self {
            Predecessors::Full(indices) => indices.add(to, sources, out),
            Predecessors::Classes(entries) => add_predecessor(entries, to, sources, out),
        }
    }
}
