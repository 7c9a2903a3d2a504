//! The graph of a pair of two different numbers by rows.
//!
//! A row is all nodes in which the side with more stones has one set in canonical form. They follow
//! one another, in each half of the graph, so what depends on these stones alone is found once for
//! all of them: where their predecessors stand, and what captures lead to. By classes, only the
//! nodes of the first half are together like this: in the second half it is the set of the side
//! with fewer stones that is in canonical form.
ghost use Rattle.std.specs.Prelude.{◌≡◌, ℕ, ◌+◌, ◌<◌, ◌≤◌, true, false, min, length, slice_index, vec_len, ◌↔◌, None, IfErr, IfOk, OnOk, MatchResult};
ghost use Rattle.morris_board.specs.Positions.{IsPosition};
ghost use Rattle.morris_board.specs.Sets.{count_of};
ghost use Rattle.morris_index.specs.ClassPairs.{class_half_size};
ghost use Rattle.morris_index.specs.ByOpponent.{swap_sides};
ghost use Rattle.morris_index.specs.Pairs.{IsPair, is_of};
ghost use Rattle.morris_wave.specs.Blocks.{BlockState};
ghost use Rattle.morris_wave.specs.Exits.{exits_of};
ghost use Rattle.morris_wave.specs.Solving.{exits_at};
ghost use Rattle.morris_wave.specs.Values.{HasCode, IsTooDeep};
ghost use Rattle.morris_pairs.specs.Entries.{entry_count};
ghost use Rattle.morris_pairs.specs.Graphs.{HasValuesIn};
ghost use Rattle.morris_pairs.specs.CaptureCaches.{IsCaptureCache, codes_by_opponent};
ghost use Rattle.morris_pairs.specs.Headline.{IsBlockIn, StatesIn};
ghost use Rattle.morris_pairs.specs.Known.{IsBeyondCodes};
ghost use Rattle.morris_pairs.specs.Orders.{Order, Rows, is_first_half, index_in, own_in};
ghost use Rattle.morris_pairs.specs.RowGraphs.{AreCodesFrom, AreNodesFrom};
ghost use Rattle.morris_pairs.specs.PairNets.{level_in, level_of, net_at};
ghost use Rattle.morris_pairs.specs.Shelves.{first_missing};
ghost use Rattle.morris_pairs.specs.Sweeping.{needs_in, is_of_graph};

use crate::build_fault::BuildFault;
use crate::capture_cache::CaptureCache;
use crate::exact::Exact;
use crate::graph::PairGraph;
use crate::layout::Layout;
use crate::levels::PairLevels;
use crate::numbering::Numbering;
use crate::row_predecessors::{first_half_row, list_predecessors_by_rows};
use crate::row_reading::read_rows;
use crate::rows::Row;
use crate::set_moves::SetTable;
use crate::table_set::TableSet;
use morris_board::board::{Board, Geometry};
use morris_board::position::Position;
use morris_index::class_pair::ClassPair;
use morris_index::classes::Classes;
use morris_index::entry_rows::EntryRow;
use morris_index::pair::Pair;
use morris_wave::{Exits, Graph};
use std::alloc::{AllocError, Global};
use std::marker::Model;
use std::thread;
use std::thread::Threads;

/// The graph of a pair of two different numbers by rows, over the tables of the pairs that it
/// needs. A node is a position in which the set of the side with more stones is in canonical form.
/// Those in which this side is to move come first, as the entries of the first half by classes. The
/// same positions with the other side to move are the second half, in the same order.
#[derive(Drop)]
pub struct RowGraph<'a, B: Geometry> {
    /// The graph of all positions of the pair, which knows what captures lead to.
    graph: PairGraph<'a, B>,
    /// The pair by classes. The nodes of its first half are those here.
    classes: ClassPair<B>,
    /// The classes of the sets of the greater number.
    sets: Classes<B>,
    /// What the moves are of each set of the lesser number.
    moves: SetTable,
    /// What gives memory for the cache of captures while nodes are read, and for the un-moves of a
    /// row.
    alloc: Global,
}

impl<'a, B: Geometry> Model for RowGraph<'a, B> {
    ghost use Rattle.morris_index.specs.Pairs.{Counts};
    ghost use Rattle.morris_pairs.specs.RowGraphs.{IsRowGraph};

    ghost Value = { Counts };

    ghost view = { λ graph. graph.graph };

    ghost invariant = { λ graph. IsRowGraph B.shape B.POINTS graph.graph graph.classes graph.sets graph.moves };
}

/// How many nodes are found before their codes are read.
const CHUNK: usize = 256;

impl<'a, B: Geometry> RowGraph<'a, B> {
    /// The graph of a pair of two different numbers by rows, over a set of tables, which may be of
    /// either layout.
    ///
    /// # Errors
    /// `Needs` with the first of the pairs that the pair needs whose table isn't there, before
    /// `Memory`, where memory for the classes is refused. Other calls take memory for the lists
    /// that are asked for; while nodes are read, also some 100 KiB for a cache of captures, and
    /// where these are refused, nodes are read without it.
    pub fn over(
        alloc: Global,
        tables: &'a TableSet<B>,
        pair: Pair<B>,
    ) -> Result<RowGraph<'a, B>, BuildFault<B>>
        requires two { pair.lesser < pair.greater }
        ensures needs { MatchResult result (λ _. first_missing tables.now pair ≡ None) (λ fault. needs_in fault ≡ first_missing tables.now pair) }
        // Nothing but a table or memory can be wanting.
        ensures alone { IfErr result (λ fault. is_of_graph fault ≡ true) }
        ensures pair { IfOk result (λ graph. graph ≡ pair) }
        ensures values { OnOk result ((o : Order) → HasValuesIn B.shape o pair) }
        ensures deep { OnOk result ((o : Order) → (IsTooDeep (net_at B.shape (level_in o pair)) ↔ IsBeyondCodes B.shape pair)) }
        // What the blocks of the graph hold, at any wave and whatever is applied, is the game's,
        // also where a table is missing.
        ensures blocks { (o : Order) (s : BlockState) → IsBlockIn B.shape o pair s → StatesIn B.shape o pair s }
    {
        // The proof learns here that the numbers of stones are those of a pair.
        let greater = pair.greater();
        let lesser = pair.lesser();
        let graph = PairGraph::over(tables, pair)?;
        graph.values();
        let classes = ClassPair::make(alloc, pair)?;
        let sets = Classes::make(alloc, greater)?;
        let moves = SetTable::make::<B>(alloc, lesser)?;
        Ok(RowGraph {
            graph,
            classes,
            sets,
            moves,
            alloc,
        })
    }

    /// The position with the same stones in which the other player is to move.
    fn swap_sides(&self, position: &Position<B>) -> Position<B>
        requires { is_of self.now position.now ≡ true }
        ensures value { result ≡ swap_sides position.now }
        ensures lawful { IsPosition B.shape position.now }
    {
        // The proof learns here that the numbers of stones are those of a pair.
        let _ = self.classes.pair();
        match Position::new(position.other(), position.own()) {
            Ok(swapped) => swapped,
            Err(_) => unreachable!(),
        }
    }

    /// The position of a node.
    fn position(&self, node: u64) -> Position<B>
        requires { node < (net_at B.shape (level_in Rows self.now)).size }
        ensures node { index_in B.shape B.POINTS Rows self.now result ≡ node }
        ensures counts { is_of self.now result ≡ true }
        ensures lawful { IsPosition B.shape result }
        ensures own { own_in B.shape Rows result ≡ true }
        ensures pair { IsPair B.POINTS self.now }
    {
        let split = self.classes.first_half();
        if node < split {
            self.classes.position(node)
        } else {
            self.swap_sides(&self.classes.position(node - split))
        }
    }

    /// The node of a position of the pair in which the opponent has more stones.
    fn second_half_node(&self, position: &Position<B>) -> u64
        requires counts { is_of self.now position.now ≡ true }
        requires second_half { is_first_half position.now ≡ false }
        ensures value { result ≡ index_in B.shape B.POINTS Rows self.now position.now }
        ensures below { result < (net_at B.shape (level_in Rows self.now)).size }
    {
        let own = position.own();
        let standing = self.classes.standing(position.other(), own.count());
        self.classes.first_half() + self.classes.entry_at(&standing, own)
    }

    /// Reads the nodes of the positions of a row of entries of the first half with their sides
    /// swapped, from the first of them on, as many as there is room for. It returns how many these
    /// are.
    fn read_swapped_row(
        &self,
        entries: &EntryRow<B>,
        cache: &mut CaptureCache,
        counts: &mut [u16],
        exits: &mut [Exits],
    ) -> usize
        requires pair { entries.now.pair ≡ self.now }
        requires greater { count_of entries.now.own ≡ self.now.greater }
        requires room { length exits.old ≡ length counts.old }
        requires cache { IsCaptureCache (codes_by_opponent B.shape) cache.old }
        ensures cache { IsCaptureCache (codes_by_opponent B.shape) cache.new }
        ensures many { result ≡ min entries.now.len (length counts.old) }
        ensures counts { (k : ℕ) → k < result → slice_index counts.new k
            ≡ length ((net_at B.shape (level_in Rows self.now)).quiet (class_half_size B.shape B.POINTS self.now.greater self.now.lesser + (entries.now.first + k))) }
        ensures exits { (k : ℕ) → k < result → exits_at exits.new k
            ≡ exits_of ((net_at B.shape (level_in Rows self.now)).exits (class_half_size B.shape B.POINTS self.now.greater self.now.lesser + (entries.now.first + k))) }
    {
        let many = entries.len().min(counts.len());
        for place in 0..many {
            let position = self.swap_sides(&entries.position(place));
            let moves = self.moves.moves_of::<B>(position.own());
            counts[place] = moves.quiet_moves(&position);
            exits[place] = self
                .graph
                .exits_by_opponent(&position, moves.closing, cache);
        }
        many
    }

    /// Reads the nodes of the second half from the one of the entry `first` on, which is of the
    /// first half, as many as there is room for. Where memory is refused, nothing is cached from
    /// node to node.
    fn read_swapped(&self, first: u64, counts: &mut [u16], exits: &mut [Exits])
        requires room { length exits.old ≡ length counts.old }
        requires inside { first + length counts.old ≤ class_half_size B.shape B.POINTS self.now.greater self.now.lesser }
        ensures counts { (k : ℕ) → k < length counts.old → slice_index counts.new k
            ≡ length ((net_at B.shape (level_in Rows self.now)).quiet (class_half_size B.shape B.POINTS self.now.greater self.now.lesser + (first + k))) }
        ensures exits { (k : ℕ) → k < length exits.old → exits_at exits.new k
            ≡ exits_of ((net_at B.shape (level_in Rows self.now)).exits (class_half_size B.shape B.POINTS self.now.greater self.now.lesser + (first + k))) }
    {
        // The proof learns here that the entries are few.
        let _ = self.classes.first_half();
        let mut cache = CaptureCache::new(self.alloc);
        let mut done = 0;
        while done < counts.len() {
            let entries = first_half_row(&self.classes, first + done as u64);
            done += self.read_swapped_row(
                &entries,
                &mut cache,
                &mut counts[done..],
                &mut exits[done..],
            );
        }
    }

    /// The nodes of the positions of a row of entries by classes in which the opponent has more
    /// stones, from the first of them on, as many as there is room for. It returns how many these
    /// are.
    fn list_nodes(&self, entries: &EntryRow<B>, nodes: &mut [u64]) -> usize
        requires pair { entries.now.pair ≡ self.now }
        requires second_half { class_half_size B.shape B.POINTS self.now.greater self.now.lesser ≤ entries.now.first }
        ensures many { result ≡ min entries.now.len (length nodes.old) }
        ensures nodes { AreNodesFrom B.shape B.POINTS self.now entries.now.first result nodes.new }
        ensures below { (k : ℕ) → k < result → slice_index nodes.new k < (net_at B.shape (level_in Rows self.now)).size }
    {
        // The proof learns here that the numbers of stones are those of a pair.
        let _ = self.classes.pair();
        let many = entries.len().min(nodes.len());
        for place in 0..many {
            nodes[place] = self.second_half_node(&entries.position(place));
        }
        many
    }

    /// Writes the codes of a row of entries of the second half by classes, from the first of them
    /// on, as many as there is room for, up to a [`CHUNK`]. It returns how many these are. All
    /// nodes are found first, so that their codes are read side by side.
    fn fill_row(&self, codes: &[u16], entries: &EntryRow<B>, part: &mut [u16]) -> usize
        requires pair { entries.now.pair ≡ self.now }
        requires second_half { class_half_size B.shape B.POINTS self.now.greater self.now.lesser ≤ entries.now.first }
        requires codes { length codes.now ≡ (net_at B.shape (level_in Rows self.now)).size }
        ensures many { result ≡ min entries.now.len (min CHUNK (length part.old)) }
        ensures each { AreCodesFrom B.shape B.POINTS self.now codes.now entries.now.first result part.new }
    {
        let mut room = [0; CHUNK];
        let nodes = &mut room[..CHUNK.min(part.len())];
        let many = self.list_nodes(entries, nodes);
        for place in 0..many {
            part[place] = codes[nodes[place] as usize];
        }
        many
    }

    /// Writes the codes of the entries of the second half by classes from the one of this number
    /// on, counted within the half, as many as there is room for.
    fn fill(&self, codes: &[u16], start: usize, part: &mut [u16])
        requires codes { length codes.now ≡ (net_at B.shape (level_in Rows self.now)).size }
        requires inside { class_half_size B.shape B.POINTS self.now.greater self.now.lesser + (start + length part.old) ≤ entry_count B.shape B.POINTS Layout.Classes self.now }
        ensures { AreCodesFrom B.shape B.POINTS self.now codes.now (class_half_size B.shape B.POINTS self.now.greater self.now.lesser + start) (length part.old) part.new }
    {
        // The proof learns here that the entries are few.
        let _ = self.classes.size();
        let first = self.classes.first_half() + start as u64;
        let mut done = 0;
        while done < part.len() {
            let entries = self.classes.row_from(first + done as u64);
            done += self.fill_row(codes, &entries, &mut part[done..]);
        }
    }

    /// The codes of the entries by classes in their order, from those of the nodes and those of the
    /// second half. The entries of the first half are its nodes, and their codes stay where they
    /// are.
    ///
    /// # Errors
    /// [`AllocError`] where memory for the codes of the second half is refused.
    fn in_entry_order(
        &self,
        mut codes: Vec<u16>,
        second_half: &[u16],
    ) -> Result<Vec<u16>, AllocError>
        requires len { vec_len codes ≡ (net_at B.shape (level_in Rows self.now)).size }
        requires codes { (i : ℕ) → i < (net_at B.shape (level_in Rows self.now)).size → HasCode (net_at B.shape (level_in Rows self.now)) i (slice_index codes.items i) }
        requires rest { class_half_size B.shape B.POINTS self.now.greater self.now.lesser + length second_half.now ≡ entry_count B.shape B.POINTS Layout.Classes self.now }
        requires second_half { AreCodesFrom B.shape B.POINTS self.now codes.items (class_half_size B.shape B.POINTS self.now.greater self.now.lesser) (length second_half.now) second_half.now }
        ensures len { IfOk result (λ made. vec_len made ≡ (net_at B.shape (level_of Layout.Classes self.now)).size) }
        ensures codes { IfOk result (λ made. (i : ℕ) → i < (net_at B.shape (level_of Layout.Classes self.now)).size → HasCode (net_at B.shape (level_of Layout.Classes self.now)) i (slice_index made.items i)) }
    {
        self.graph.values();
        codes.truncate(self.classes.first_half() as usize);
        codes.reserve_exact(second_half.len())?;
        codes.extend_from_slice(second_half)?;
        Ok(codes)
    }
}

impl<'a, B: Board> RowGraph<'a, B> {
    /// The codes of the entries of the second half by classes in their order, from those of the
    /// nodes. Each worker writes a range of them. Where a thread is refused, the caller's own does
    /// its work.
    ///
    /// # Errors
    /// [`AllocError`] where memory for them is refused.
    fn second_half_codes<R: Threads + Sync>(
        &self,
        rt: &R,
        alloc: Global,
        codes: &[u16],
        workers: usize,
    ) -> Result<Vec<u16>, AllocError>
        requires { length codes.now ≡ (net_at B.shape (level_in Rows self.now)).size }
        ensures len { IfOk result (λ made. class_half_size B.shape B.POINTS self.now.greater self.now.lesser + vec_len made ≡ entry_count B.shape B.POINTS Layout.Classes self.now) }
        ensures each { IfOk result (λ made. AreCodesFrom B.shape B.POINTS self.now codes.now (class_half_size B.shape B.POINTS self.now.greater self.now.lesser) (vec_len made) made.items) }
    {
        let count = (self.classes.size() - self.classes.first_half()) as usize;
        let mut second_half = vec![in alloc; 0u16; count]?;
        let chunk = count / workers.max(1) + 1;
        thread::for_each_chunk_mut(
            rt,
            &mut second_half,
            chunk,
            &|start, part|
                requires { (length codes.now ≡ (net_at B.shape (level_in Rows self.now)).size)
                    × (class_half_size B.shape B.POINTS self.now.greater self.now.lesser + (start + length part.now) ≤ entry_count B.shape B.POINTS Layout.Classes self.now) }
                ensures { AreCodesFrom B.shape B.POINTS self.entry.now codes.entry.now (class_half_size B.shape B.POINTS self.entry.now.greater self.entry.now.lesser + start)
                    (length part.entry.now) part.exit.now }
            { self.fill(codes, start, part) },
        );
        Ok(second_half)
    }

    /// The table of the pair in layout `Classes`, of the codes of all nodes in order. So many
    /// workers put them into the order of the entries, one at least.
    ///
    /// # Errors
    /// [`AllocError`] where memory for the codes in the order of the entries is refused. Where a
    /// thread is refused, the caller's own does its work.
    pub fn into_table<R: Threads + Sync>(
        self,
        rt: &R,
        alloc: Global,
        codes: Vec<u16>,
        workers: usize,
    ) -> Result<Exact<B>, AllocError>
        requires len { vec_len codes ≡ (net_at B.shape (level_in Rows self)).size }
        requires codes { (i : ℕ) → i < (net_at B.shape (level_in Rows self)).size → HasCode (net_at B.shape (level_in Rows self)) i (slice_index codes.items i) }
        ensures layout { IfOk result (λ table. table.layout ≡ Layout.Classes) }
        ensures pair { IfOk result (λ table. table.pair ≡ self.entry) }
    {
        let second_half = self.second_half_codes(rt, alloc, &codes, workers)?;
        let ordered = self.in_entry_order(codes, &second_half)?;
        let numbering = Numbering::Classes(self.classes);
        Ok(self.graph.table_by(numbering, ordered))
    }
}

impl<'a, B: Board> Graph for RowGraph<'a, B> {
    ghost use Rattle.morris_pairs.specs.Orders.{Rows};
    ghost use Rattle.morris_pairs.specs.PairNets.{level_in};

    type Name = PairLevels<B>;

    ghost level = { λ pair. level_in Rows pair };

    fn level(&self) -> u64 {
        let pair = self.classes.pair();
        200 + (u64::from(pair.greater()) * 10 + u64::from(pair.lesser()))
    }

    fn size(&self) -> u64 {
        2 * self.classes.first_half()
    }

    fn quiet_count(&self, i: u64) -> u16 {
        let position = self.position(i);
        Row::of::<B>(position.own()).quiet_moves(&position)
    }

    fn exits(&self, i: u64) -> Exits {
        self.graph.exits_at(&self.position(i))
    }

    fn read_nodes(&self, first: u64, counts: &mut [u16], exits: &mut [Exits]) {
        let split = self.classes.first_half();
        let end = first + counts.len() as u64;
        if end <= split {
            return read_rows(self.alloc, &self.graph, &self.classes, first, counts, exits);
        }
        if split <= first {
            return self.read_swapped(first - split, counts, exits);
        }
        // Here the halves meet.
        for place in 0..counts.len() {
            counts[place] = self.quiet_count(first + place as u64);
            exits[place] = self.exits(first + place as u64);
        }
    }

    fn back(&self, i: u64, out: &mut Vec<u64>) -> Result<(), AllocError> {
        list_predecessors_by_rows(self.alloc, &self.classes, &self.sets, &[i], out)
    }

    fn back_from(
        &self,
        alloc: Global,
        nodes: &[u64],
        out: &mut Vec<u64>,
    ) -> Result<(), AllocError> {
        list_predecessors_by_rows(alloc, &self.classes, &self.sets, nodes, out)
    }
}
