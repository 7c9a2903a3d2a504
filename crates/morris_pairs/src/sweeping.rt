//! The baseline: tables made on one thread.
ghost use Rattle.std.specs.Prelude.{◌≡◌, None, IfOk, IfErr, OnOk};
ghost use Rattle.morris_pairs.specs.Shelves.{first_missing};
ghost use Rattle.morris_pairs.specs.Building.{IsBuilt, IsUnswept};

use crate::build_fault::BuildFault;
use crate::exact::Exact;
use crate::graph::PairGraph;
use crate::layout::Layout;
use crate::shelf::Shelf;
use morris_board::board::Board;
use morris_index::pair::Pair;
use morris_wave::{NoProgress, Watch, sweep_watched};
use std::alloc::Global;

/// The exact table of a pair, over the tables of the pairs that it needs.
///
/// # Errors
/// `Needs` with the first of the pairs that the pair needs whose table isn't on the shelf, before
/// all else. Then `Memory` where memory is refused, and `TooDeep` where codes of 16 bits can't
/// state all values.
pub fn sweep_pair<B: Board>(
    alloc: Global,
    shelf: &Shelf<B>,
    pair: Pair<B>,
) -> Result<Exact<B>, BuildFault<B>>
    ensures ready { OnOk result (first_missing shelf.now pair ≡ None) }
    ensures exact { IfOk result (IsBuilt B.shape Layout.Full pair) }
    ensures refused { IfErr result (IsUnswept B.shape shelf.now pair) }
{
    sweep_pair_watched(alloc, shelf, pair, &mut NoProgress)
}

/// [`sweep_pair`], which reports each wave to `watch` as it begins (see [`Watch`]).
///
/// # Errors
/// Those of [`sweep_pair`], in the same order. Nothing is reported before the graph of the pair is
/// made.
pub fn sweep_pair_watched<B: Board, W: Watch>(
    alloc: Global,
    shelf: &Shelf<B>,
    pair: Pair<B>,
    watch: &mut W,
) -> Result<Exact<B>, BuildFault<B>>
    ensures ready { OnOk result (first_missing shelf.now pair ≡ None) }
    ensures exact { IfOk result (IsBuilt B.shape Layout.Full pair) }
    ensures refused { IfErr result (IsUnswept B.shape shelf.now pair) }
    // The watch is as it may be after reports, whatever the answer.
    ensures watched { W.becomes watch.old watch.new }
{
    let graph = PairGraph::new(shelf, pair)?;
    let codes = sweep_watched(alloc, &graph, watch)?;
    Ok(graph.into_table(codes))
}
