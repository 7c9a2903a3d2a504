//! The graph of a pair by classes.
ghost use Rattle.std.specs.Prelude.{◌≡◌, ℕ, ◌↔◌, None, true, IfErr, IfOk, OnOk, MatchResult, vec_len, slice_index, ◌<◌};
ghost use Rattle.morris_wave.specs.Blocks.{BlockState};
ghost use Rattle.morris_wave.specs.Values.{HasCode, IsTooDeep};
ghost use Rattle.morris_pairs.specs.Graphs.{HasGameValues};
ghost use Rattle.morris_pairs.specs.Headline.{IsBlockIn, StatesIn};
ghost use Rattle.morris_pairs.specs.Known.{IsBeyondCodes};
ghost use Rattle.morris_pairs.specs.Orders.{Order};
ghost use Rattle.morris_pairs.specs.PairNets.{level_of, net_at};
ghost use Rattle.morris_pairs.specs.Shelves.{first_missing};
ghost use Rattle.morris_pairs.specs.Sweeping.{needs_in, is_of_graph};
ghost use Rattle.morris_pairs.specs.Tables.{table};

use crate::build_fault::BuildFault;
use crate::exact::Exact;
use crate::graph::PairGraph;
use crate::layout::Layout;
use crate::levels::PairLevels;
use crate::numbering::Numbering;
use crate::predecessors::{list_predecessors, list_predecessors_of_all};
use crate::row_reading::read_rows;
use crate::rows::Row;
use crate::shelf::Shelf;
use crate::table_set::TableSet;
use morris_board::board::{Board, Geometry};
use morris_index::pair::Pair;
use morris_wave::{Exits, Graph};
use std::alloc::{AllocError, Global};
use std::marker::Model;

/// The graph of a pair by classes, over the tables of the pairs that it needs. Its nodes are the
/// entries of classes, each for the position whose own entry it is. A quiet move leads to the entry
/// of its result, and captures lead out of the graph.
#[derive(Drop)]
pub struct ClassGraph<'a, B: Geometry> {
    /// The graph of all positions of the pair, which knows what captures lead to.
    graph: PairGraph<'a, B>,
    /// The entries, which are those of classes.
    numbering: Numbering<B>,
    /// What gives memory for the cache of captures while entries are read.
    alloc: Global,
}

impl<'a, B: Geometry> Model for ClassGraph<'a, B> {
    ghost use Rattle.morris_index.specs.Pairs.{Counts};
    ghost use Rattle.morris_pairs.specs.Numberings.{layout_of, pair_of};
    ghost use Rattle.morris_pairs.specs.ClassGraphs.{IsClassGraph};

    ghost Value = { Counts };

    ghost view = { λ graph. graph.graph };

    ghost invariant = { λ graph. IsClassGraph B.POINTS graph.graph (layout_of graph.numbering) (pair_of graph.numbering) };
}

impl<'a, B: Geometry> ClassGraph<'a, B> {
    /// The graph of a pair by classes, over the tables of a shelf, which may be of either layout.
    ///
    /// # Errors
    /// `Needs` with the first of the pairs that the pair needs whose table isn't on the shelf,
    /// before `Memory`, where memory for the classes is refused. Other calls take memory for the
    /// lists that are asked for; while nodes are read, also some 80 KiB for a cache of captures,
    /// and where these are refused, nodes are read without it.
    pub fn new(
        alloc: Global,
        shelf: &'a Shelf<B>,
        pair: Pair<B>,
    ) -> Result<ClassGraph<'a, B>, BuildFault<B>>
        ensures needs { MatchResult result (λ _. first_missing shelf.now pair ≡ None) (λ fault. needs_in fault ≡ first_missing shelf.now pair) }
        // Nothing but a table or memory can be wanting.
        ensures alone { IfErr result (λ fault. is_of_graph fault ≡ true) }
        ensures pair { IfOk result (λ graph. graph ≡ pair) }
        ensures values { OnOk result (HasGameValues B.shape Layout.Classes pair) }
        ensures deep { OnOk result (IsTooDeep (net_at B.shape (level_of Layout.Classes pair)) ↔ IsBeyondCodes B.shape pair) }
        // What the blocks of the graph hold, at any wave and whatever is applied, is the game's,
        // also where a table is missing.
        ensures blocks { (o : Order) (s : BlockState) → IsBlockIn B.shape o pair s → StatesIn B.shape o pair s }
    {
        ClassGraph::over(alloc, shelf.tables(), pair)
    }

    /// [`new`](ClassGraph::new) over a set of tables.
    ///
    /// # Errors
    /// Those of [`new`](ClassGraph::new), in the same order.
    pub fn over(
        alloc: Global,
        tables: &'a TableSet<B>,
        pair: Pair<B>,
    ) -> Result<ClassGraph<'a, B>, BuildFault<B>>
        ensures needs { MatchResult result (λ _. first_missing tables.now pair ≡ None) (λ fault. needs_in fault ≡ first_missing tables.now pair) }
        // Nothing but a table or memory can be wanting.
        ensures alone { IfErr result (λ fault. is_of_graph fault ≡ true) }
        ensures pair { IfOk result (λ graph. graph ≡ pair) }
        ensures values { OnOk result (HasGameValues B.shape Layout.Classes pair) }
        ensures deep { OnOk result (IsTooDeep (net_at B.shape (level_of Layout.Classes pair)) ↔ IsBeyondCodes B.shape pair) }
        // What the blocks of the graph hold, at any wave and whatever is applied, is the game's,
        // also where a table is missing.
        ensures blocks { (o : Order) (s : BlockState) → IsBlockIn B.shape o pair s → StatesIn B.shape o pair s }
    {
        // The proof learns here that the numbers of stones are those of a pair.
        let _ = pair.greater();
        let graph = PairGraph::over(tables, pair)?;
        let numbering = Numbering::make(alloc, pair, Layout::Classes)?;
        Ok(ClassGraph {
            graph,
            numbering,
            alloc,
        })
    }

    /// The table of the pair in layout `Classes`, of the codes of all nodes in order.
    pub fn into_table(self, codes: Vec<u16>) -> Exact<B>
        requires len { vec_len codes ≡ (net_at B.shape (level_of Layout.Classes self)).size }
        requires codes { (i : ℕ) → i < (net_at B.shape (level_of Layout.Classes self)).size → HasCode (net_at B.shape (level_of Layout.Classes self)) i (slice_index codes.items i) }
        ensures { result ≡ table Layout.Classes self.entry codes.items }
    {
        let numbering = self.numbering;
        self.graph.table_by(numbering, codes)
    }
}

impl<'a, B: Board> Graph for ClassGraph<'a, B> {
    ghost use Rattle.morris_pairs.specs.PairNets.{level_of};
    ghost use Rattle.morris_pairs.specs.declared.layout.Layout.TheVariants.{Classes};

    type Name = PairLevels<B>;

    ghost level = { λ pair. level_of Classes pair };

    fn level(&self) -> u64 {
        let pair = self.numbering.pair();
        100 + (u64::from(pair.greater()) * 10 + u64::from(pair.lesser()))
    }

    fn size(&self) -> u64 {
        self.numbering.count()
    }

    fn quiet_count(&self, i: u64) -> u16 {
        let position = self.numbering.position(i);
        Row::of::<B>(position.own()).quiet_moves(&position)
    }

    fn exits(&self, i: u64) -> Exits {
        self.graph.exits_at(&self.numbering.position(i))
    }

    fn read_nodes(&self, first: u64, counts: &mut [u16], exits: &mut [Exits]) {
        match &self.numbering {
            Numbering::Classes(classes) => {
                read_rows(self.alloc, &self.graph, classes, first, counts, exits)
            }
            Numbering::Full(_) => unreachable!(),
        }
    }

    fn back(&self, i: u64, out: &mut Vec<u64>) -> Result<(), AllocError> {
        list_predecessors(&self.numbering, &self.numbering.position(i), out)
    }

    fn back_from(
        &self,
        _alloc: Global,
        nodes: &[u64],
        out: &mut Vec<u64>,
    ) -> Result<(), AllocError> {
        list_predecessors_of_all(&self.numbering, nodes, out)
    }
}
