//! The graph of a pair.
ghost use Rattle.std.specs.Prelude.{◌≡◌, ℕ, ◌+◌, ◌*◌, ◌<◌, ◌↔◌, true, Some, None, List, ◌++◌, slice_index, vec_len, is_some, IfOk, IfErr, OnOk, IfSome, MatchResult};
ghost use Rattle.std.specs.Option.{option_copied};
ghost use Rattle.morris_board.specs.Positions.{IsPosition};
ghost use Rattle.morris_board.specs.Sets.{has, members, count_of};
ghost use Rattle.morris_moves.specs.declared.game_move.Move.{Move};
ghost use Rattle.morris_moves.specs.Rules.{takable_stones};
ghost use Rattle.morris_index.specs.Pairs.{IsPair, is_of, less_lesser, less_greater};
ghost use Rattle.morris_pairs.specs.Rows.{AreClosing, IsRow};
ghost use Rattle.morris_wave.specs.Blocks.{BlockState};
ghost use Rattle.morris_wave.specs.Exits.{exits_of};
ghost use Rattle.morris_wave.specs.Values.{HasCode, IsTooDeep};
ghost use Rattle.morris_pairs.specs.Numberings.{layout_of, pair_of};
ghost use Rattle.morris_pairs.specs.Orders.{Order};
ghost use Rattle.morris_pairs.specs.PairNets.{capture_codes, level_in, level_of, net_at};
ghost use Rattle.morris_pairs.specs.Known.{IsBeyondCodes};
ghost use Rattle.morris_pairs.specs.Tables.{table};
ghost use Rattle.morris_pairs.specs.Shelves.{table_on, first_missing};
ghost use Rattle.morris_pairs.specs.Headline.{IsBlockIn, StatesIn};
ghost use Rattle.morris_pairs.specs.Captured.{captured_pair, IsLeft, IsClosing, captures_at, captures_to};
ghost use Rattle.morris_pairs.specs.Graphs.{IsTableOf, IsNeeded, exits_by, HasGameValues, HasValuesIn};
ghost use Rattle.morris_pairs.specs.CaptureCaches.{IsCaptureCache, codes_left, open_ends};

use crate::capture_cache::CaptureCache;
use crate::exact::Exact;
use crate::layout::Layout;
use crate::levels::PairLevels;
use crate::numbering::Numbering;
use crate::predecessors::{list_predecessors, list_predecessors_of_all};
use crate::rows::Row;
use crate::shelf::{Needs, Shelf};
use crate::table_set::TableSet;
use morris_board::board::{Board, Geometry};
use morris_board::points::Points;
use morris_board::position::Position;
use morris_index::pair::Pair;
use morris_index::standing::Standing;
use morris_moves::rules::takable_stones;
use morris_wave::{Exits, Graph};
use std::alloc::{AllocError, Global};
use std::marker::Model;

/// The summary of the exits of a node that has some, each of them lost already.
const LOST_AT_ONCE: Exits = Exits {
    least_lost: Some(0),
    greatest_won: None,
    drawn: false,
};

/// The graph of a pair, over the tables of the pairs that it needs. Its nodes are the pair's
/// positions, by their indices. Quiet moves lead to nodes, and captures out of the graph.
#[derive(Drop)]
pub struct PairGraph<'a, B: Geometry> {
    pair: Pair<B>,
    /// The table of the pair with one stone less in the lesser number, where there is such a pair.
    less_lesser: Option<&'a Exact<B>>,
    /// The table of the pair with one stone less in the greater number, where there is such a pair.
    less_greater: Option<&'a Exact<B>>,
}

impl<'a, B: Geometry> Model for PairGraph<'a, B> {
    ghost use Rattle.std.specs.Option.{option_copied};
    ghost use Rattle.morris_index.specs.Pairs.{Counts};
    ghost use Rattle.morris_pairs.specs.Graphs.{IsPairGraph};

    ghost Value = { Counts };

    ghost view = { λ graph. graph.pair };

    ghost invariant = { λ graph. IsPairGraph B.shape graph.pair (option_copied graph.less_lesser) (option_copied graph.less_greater) };
}

/// The pairs that captures from a pair lead to: the one with one stone less in the lesser number,
/// and the one with one stone less in the greater number.
fn captured_pairs<B: Geometry>(pair: &Pair<B>) -> (Option<Pair<B>>, Option<Pair<B>>)
    ensures lesser { result.0 ≡ less_lesser pair.now }
    ensures greater { result.1 ≡ less_greater pair.now }
    ensures lawful { IsPair B.POINTS pair.now }
{
    let (first, second) = pair.needs();
    if 3 < pair.lesser() {
        (first, second)
    } else {
        (None, first)
    }
}

/// The table of a needed pair.
fn needed_table<'a, B: Geometry>(
    tables: &'a TableSet<B>,
    need: Option<Pair<B>>,
) -> Option<&'a Exact<B>>
    requires { IfSome need (λ d. is_some (table_on tables.now d) ≡ true) }
    ensures { IsNeeded B.shape need (option_copied result) }
{
    tables.get(need?)
}

/// The points at which the captures of a position close a mill, from those at which a move does
/// where they are vacant. Of these, points on which the opponent stands may be left out.
///
/// # Errors
/// The summary of the captures where no table is needed for it: there are none, or the opponent has
/// three stones, so that any capture leaves two, and so lost.
pub(crate) fn capture_ends<B: Geometry>(
    position: &Position<B>,
    closing: Points,
) -> Result<Points, Exits>
    requires lawful { IsPosition B.shape position.now }
    requires closing { AreClosing B.shape B.POINTS position.now closing }
    ensures ends { IfOk result (λ ends. ends ≡ open_ends B.shape position.now.own position.now.other) }
    ensures above { OnOk result (3 < count_of position.now.other) }
    ensures known { IfErr result (λ exits. exits ≡ exits_of (capture_codes B.shape position.now)) }
{
    let other = position.other();
    let ends = closing.difference(other);
    if ends == Points::EMPTY {
        return Err(Exits::NONE);
    }
    if other.count() == 3 {
        return Err(LOST_AT_ONCE);
    }
    Ok(ends)
}

/// Goes on with the summary `known`: each capture of the stone of `standing` by a move of one of
/// `closers` to `to`.
fn with_closers<B: Geometry>(
    table: &Exact<B>,
    standing: &Standing,
    position: &Position<B>,
    to: u8,
    closers: Points,
    known: Exits,
) -> Exits
    requires table { IsTableOf B.shape (captured_pair position.now) table.now }
    requires standing { (taken : ℕ) × IsLeft B.shape B.POINTS position.now table.now taken standing.now }
    requires lawful { IsPosition B.shape position.now }
    requires closers { (u : ℕ) → has closers u ≡ true → IsClosing B.shape position.now u to }
    ensures { (taken : ℕ) → IsLeft B.shape B.POINTS position.now table.now taken standing.now
        → (done : List Move) → known ≡ exits_by B.shape position.now done
        → result ≡ exits_by B.shape position.now (done ++ captures_at taken closers to) }
{
    let own = position.own();
    let mut exits = known;
    for from in closers.iter() {
        let opponent_set = own.without(from).with(to);
        exits = exits.with(table.code_at(standing, opponent_set));
    }
    exits
}

/// Goes on with the summary `known`: each capture of the stone on `taken`, by the moves that close
/// a mill at one of `ends`. In the results the player to move has the stones that are left,
/// whatever move took the stone.
fn with_captures<B: Geometry>(
    table: &Exact<B>,
    row: &Row,
    position: &Position<B>,
    taken: u8,
    ends: Points,
    known: Exits,
) -> Exits
    requires table { IsTableOf B.shape (captured_pair position.now) table.now }
    requires row { IsRow B.shape B.POINTS row.now }
    requires own { row.now.own ≡ position.now.own }
    requires lawful { IsPosition B.shape position.now }
    requires taken { has (takable_stones B.shape position.now.other) taken ≡ true }
    requires ends { ends ≡ open_ends B.shape position.now.own position.now.other }
    ensures { (done : List Move) → known ≡ exits_by B.shape position.now done
        → result ≡ exits_by B.shape position.now (done ++ captures_to row.now.closers taken (members ends)) }
{
    let left = position.other().without(taken);
    let standing = table.standing(left, position.own().count());
    let mut exits = known;
    for to in ends.iter() {
        let closers = Points::from_mask(row.closers[to as usize]);
        exits = with_closers(table, &standing, position, to, closers, exits);
    }
    exits
}

/// The summary of the captures of the stone on `taken`: the cached one of the stones that are left,
/// or else one that is cached from now on. Nothing is cached where a move closes a mill on the
/// point of the stone, since it is in the way of that move.
fn captures_of<B: Geometry>(
    table: &Exact<B>,
    row: &Row,
    position: &Position<B>,
    taken: u8,
    ends: Points,
    cache: &mut CaptureCache,
) -> Exits
    requires table { IsTableOf B.shape (captured_pair position.now) table.now }
    requires row { IsRow B.shape B.POINTS row.now }
    requires own { row.now.own ≡ position.now.own }
    requires lawful { IsPosition B.shape position.now }
    requires taken { has (takable_stones B.shape position.now.other) taken ≡ true }
    requires ends { ends ≡ open_ends B.shape position.now.own position.now.other }
    requires cache { IsCaptureCache (codes_left B.shape) cache.old }
    ensures value { result ≡ exits_by B.shape position.now (captures_to row.now.closers taken (members ends)) }
    ensures cache { IsCaptureCache (codes_left B.shape) cache.new }
{
    if row.closing.has(taken) {
        return with_captures(table, row, position, taken, ends, Exits::NONE);
    }
    let left = position.other().without(taken);
    if let Some(results) = cache.get(row.own, left) {
        return results;
    }
    let results = with_captures(table, row, position, taken, ends, Exits::NONE);
    cache.put(row.own, left, results);
    results
}

impl<'a, B: Geometry> PairGraph<'a, B> {
    /// The graph of a pair over the tables of a shelf. It takes no memory.
    ///
    /// # Errors
    /// [`Needs`] with the first of the pairs that the pair needs whose table isn't on the shelf.
    pub fn new(shelf: &'a Shelf<B>, pair: Pair<B>) -> Result<PairGraph<'a, B>, Needs<B>>
        ensures needs { MatchResult result (λ _. first_missing shelf.now pair ≡ None) (λ needs. first_missing shelf.now pair ≡ Some needs.0) }
        ensures pair { IfOk result (λ graph. graph ≡ pair) }
        ensures values { OnOk result ((l : Layout) → HasGameValues B.shape l pair) }
        ensures deep { OnOk result ((l : Layout) → (IsTooDeep (net_at B.shape (level_of l pair)) ↔ IsBeyondCodes B.shape pair)) }
        // What the blocks of the graph hold, at any wave and whatever is applied, is the game's,
        // also where a table is missing.
        ensures blocks { (o : Order) (s : BlockState) → IsBlockIn B.shape o pair s → StatesIn B.shape o pair s }
    {
        PairGraph::over(shelf.tables(), pair)
    }

    /// The graph of a pair over a set of tables. It takes no memory.
    ///
    /// # Errors
    /// [`Needs`] with the first of the pairs that the pair needs whose table isn't there.
    pub fn over(tables: &'a TableSet<B>, pair: Pair<B>) -> Result<PairGraph<'a, B>, Needs<B>>
        ensures needs { MatchResult result (λ _. first_missing tables.now pair ≡ None) (λ needs. first_missing tables.now pair ≡ Some needs.0) }
        ensures pair { IfOk result (λ graph. graph ≡ pair) }
        ensures values { OnOk result ((l : Layout) → HasGameValues B.shape l pair) }
        ensures deep { OnOk result ((l : Layout) → (IsTooDeep (net_at B.shape (level_of l pair)) ↔ IsBeyondCodes B.shape pair)) }
        // What the blocks of the graph hold, at any wave and whatever is applied, is the game's,
        // also where a table is missing.
        ensures blocks { (o : Order) (s : BlockState) → IsBlockIn B.shape o pair s → StatesIn B.shape o pair s }
    {
        let (less_lesser, less_greater) = captured_pairs(&pair);
        if let Some(needs) = tables.missing(pair) {
            return Err(needs);
        }
        Ok(PairGraph {
            pair,
            less_lesser: needed_table(tables, less_lesser),
            less_greater: needed_table(tables, less_greater),
        })
    }

    /// The table of the pair in layout `Full`, of the codes of all nodes in order.
    pub fn into_table(self, codes: Vec<u16>) -> Exact<B>
        requires len { vec_len codes ≡ (net_at B.shape (level_of Layout.Full self)).size }
        requires codes { (i : ℕ) → i < (net_at B.shape (level_of Layout.Full self)).size → HasCode (net_at B.shape (level_of Layout.Full self)) i (slice_index codes.items i) }
        ensures { result ≡ table Layout.Full self.entry codes.items }
    {
        self.table_by(Numbering::Full(self.pair), codes)
    }

    /// The table of the pair with this numbering of its entries, of their codes in order.
    pub(crate) fn table_by(&self, numbering: Numbering<B>, codes: Vec<u16>) -> Exact<B>
        requires pair { pair_of numbering ≡ self.now }
        requires len { vec_len codes ≡ (net_at B.shape (level_of (layout_of numbering) self.now)).size }
        requires codes { (i : ℕ) → i < (net_at B.shape (level_of (layout_of numbering) self.now)).size
            → HasCode (net_at B.shape (level_of (layout_of numbering) self.now)) i (slice_index codes.items i) }
        ensures { result ≡ table (layout_of numbering) self.now codes.items }
    {
        // The proof learns here that the graph has the tables that it needs.
        let _ = &self.pair;
        Exact::new(numbering, codes)
    }

    /// What the proof knows of the values of the graph, in each order of its nodes.
    pub(crate) fn values(&self)
        ensures values { (o : Order) → HasValuesIn B.shape o self.now }
        ensures deep { (o : Order) → (IsTooDeep (net_at B.shape (level_in o self.now)) ↔ IsBeyondCodes B.shape self.now) }
    {
        // The proof learns here that the graph has the tables that it needs.
        let _ = &self.pair;
    }

    /// The table of the results of the captures of a position of the pair, in which the opponent
    /// has more than three stones.
    pub(crate) fn captured_table(&self, position: &Position<B>) -> &Exact<B>
        requires counts { is_of self.now position.now ≡ true }
        requires above { 3 < count_of position.now.other }
        ensures { IsTableOf B.shape (captured_pair position.now) result.now }
    {
        let table = if position.other().count() == self.pair.lesser() {
            self.less_lesser
        } else {
            self.less_greater
        };
        match table {
            Some(table) => table,
            None => unreachable!(),
        }
    }

    /// The summary of what the captures of a position of the pair lead to, from the row of its own
    /// stones.
    pub(crate) fn exits_by_row(&self, row: &Row, position: &Position<B>) -> Exits
        requires counts { is_of self.now position.now ≡ true }
        requires lawful { IsPosition B.shape position.now }
        requires own { row.now.own ≡ position.now.own }
        requires row { IsRow B.shape B.POINTS row.now }
        ensures { result ≡ exits_of (capture_codes B.shape position.now) }
    {
        let ends = match capture_ends(position, row.closing) {
            Ok(ends) => ends,
            Err(known) => return known,
        };
        let table = self.captured_table(position);
        let mut exits = Exits::NONE;
        for taken in takable_stones::<B>(position.other()).iter() {
            exits = with_captures(table, row, position, taken, ends, exits);
        }
        exits
    }

    /// The same, with summaries that are cached from position to position.
    pub(crate) fn exits_with_cache(
        &self,
        row: &Row,
        position: &Position<B>,
        cache: &mut CaptureCache,
    ) -> Exits
        requires counts { is_of self.now position.now ≡ true }
        requires lawful { IsPosition B.shape position.now }
        requires own { row.now.own ≡ position.now.own }
        requires row { IsRow B.shape B.POINTS row.now }
        requires cache { IsCaptureCache (codes_left B.shape) cache.old }
        ensures value { result ≡ exits_of (capture_codes B.shape position.now) }
        ensures cache { IsCaptureCache (codes_left B.shape) cache.new }
    {
        let ends = match capture_ends(position, row.closing) {
            Ok(ends) => ends,
            Err(known) => return known,
        };
        let table = self.captured_table(position);
        let mut exits = Exits::NONE;
        for taken in takable_stones::<B>(position.other()).iter() {
            exits = exits.merge(captures_of(table, row, position, taken, ends, cache));
        }
        exits
    }

    /// The summary of what the captures of a position of the pair lead to.
    pub(crate) fn exits_at(&self, position: &Position<B>) -> Exits
        requires counts { is_of self.now position.now ≡ true }
        requires lawful { IsPosition B.shape position.now }
        ensures { result ≡ exits_of (capture_codes B.shape position.now) }
    {
        self.exits_by_row(&Row::of::<B>(position.own()), position)
    }
}

impl<'a, B: Board> Graph for PairGraph<'a, B> {
    ghost use Rattle.morris_pairs.specs.PairNets.{level_of};
    ghost use Rattle.morris_pairs.specs.declared.layout.Layout.TheVariants.{Full};

    type Name = PairLevels<B>;

    ghost level = { λ pair. level_of Full pair };

    fn level(&self) -> u64 {
        u64::from(self.pair.greater()) * 10 + u64::from(self.pair.lesser())
    }

    fn size(&self) -> u64 {
        self.pair.size()
    }

    fn quiet_count(&self, i: u64) -> u16 {
        let position = self.pair.position(i);
        Row::of::<B>(position.own()).quiet_moves(&position)
    }

    fn exits(&self, i: u64) -> Exits {
        self.exits_at(&self.pair.position(i))
    }

    fn read_nodes(&self, first: u64, counts: &mut [u16], exits: &mut [Exits]) {
        // The proof learns here that there are few nodes.
        let _ = self.pair.size();
        if counts.is_empty() {
            return;
        }
        let mut position = self.pair.position(first);
        let mut row = Row::of::<B>(position.own());
        for place in 0..counts.len() {
            counts[place] = row.quiet_moves(&position);
            exits[place] = self.exits_by_row(&row, &position);
            if place + 1 < counts.len() {
                position = self.pair.next_position(&position, first + place as u64 + 1);
                row.follow(&position);
            }
        }
    }

    fn back(&self, i: u64, out: &mut Vec<u64>) -> Result<(), AllocError> {
        list_predecessors(&Numbering::Full(self.pair), &self.pair.position(i), out)
    }

    fn back_from(
        &self,
        _alloc: Global,
        nodes: &[u64],
        out: &mut Vec<u64>,
    ) -> Result<(), AllocError> {
        list_predecessors_of_all(&Numbering::Full(self.pair), nodes, out)
    }
}
