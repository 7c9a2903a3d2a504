//! Batches for all blocks of a cut, from the fresh nodes of one block.
ghost use Rattle.std.specs.Prelude.{◌≡◌, ℕ, ◌<◌, ◌≤◌, [], OnOk, IfOk, vec_len, slice_index_or};
ghost use Rattle.std.specs.List.{All};
ghost use Rattle.morris_wave.specs.Batches.{BatchState, BatchHolds};
ghost use Rattle.morris_wave.specs.Lists.{contents, list_at};
ghost use Rattle.morris_wave.specs.Scattering.{AreSorted, Deals, LeadTo, batch_of, IsBatchOf};

use crate::block::{Batch, Fresh};
use crate::cut::{Cut, Finder};
use crate::graph::{Graph, Levels};
use crate::node_list::{NodeList, put_into};
use std::alloc::{AllocError, Global};
use std::marker::PhantomData;

// How many nodes a graph goes back from in one call: enough that a call costs little beside them,
// and few enough that the list of their predecessors stays small.
const PIECE: usize = 256;

// An empty list, one of those at hand if there is one.
fn empty_list<L: NodeList>(alloc: Global, spare: &mut Vec<L>) -> L
    ensures { L.items result ≡ [] }
{
    match spare.pop() {
        Some(mut list) => {
            list.empty();
            list
        }
        None => L::none(alloc),
    }
}

// So many empty lists.
fn no_lists<L: NodeList>(
    alloc: Global,
    count: usize,
    spare: &mut Vec<L>,
) -> Result<Vec<L>, AllocError>
    ensures len { IfOk result (λ v. vec_len v ≡ count) }
    ensures empty { IfOk result (λ v. (t : ℕ) → list_at (contents L.items v.items) t ≡ []) }
{
    let mut lists = Vec::with_capacity(alloc, count)?;
    for _ in 0..count {
        lists.push(empty_list(alloc, spare))?;
    }
    Ok(lists)
}

// Puts each node into the list of its block.
fn deal<L: NodeList>(lists: &mut Vec<L>, finder: &Finder, nodes: &[u64]) -> Result<(), AllocError>
    requires small { finder.now.cut.size ≤ L.limit }
    requires count { vec_len lists.old ≡ finder.now.cut.blocks }
    requires inside { All (λ i. i < finder.now.cut.size) nodes.now }
    requires sorted { AreSorted finder.now.cut (contents L.items lists.old.items) }
    ensures len { vec_len lists.new ≡ vec_len lists.old }
    ensures sorted { OnOk result (AreSorted finder.now.cut (contents L.items lists.new.items)) }
    ensures dealt { OnOk result (Deals finder.now.cut (contents L.items lists.old.items) (contents L.items lists.new.items) nodes.now) }
{
    // A copy stays in registers: what is written to the lists might change one in memory.
    let saved = *finder;
    for node in nodes {
        put_into(lists, saved.find(*node) as usize, *node)?;
    }
    Ok(())
}

// Puts the predecessors of these nodes, each as often as it leads to one of them, into the empty
// lists of their blocks.
fn deal_behind<G: Graph, L: NodeList>(
    alloc: Global,
    graph: &G,
    cut: &Cut,
    nodes: &[u64],
    lists: &mut Vec<L>,
) -> Result<(), AllocError>
    requires small { cut.now.size ≤ L.limit }
    requires size { (G.Name.net (G.level graph.now)).size ≡ cut.now.size }
    requires inside { All (λ j. j < cut.now.size) nodes.now }
    requires count { vec_len lists.old ≡ cut.now.blocks }
    requires empty { (t : ℕ) → list_at (contents L.items lists.old.items) t ≡ [] }
    ensures count { OnOk result (vec_len lists.new ≡ cut.now.blocks) }
    ensures sorted { OnOk result (AreSorted cut.now (contents L.items lists.new.items)) }
    ensures behind { OnOk result (LeadTo (G.Name.net (G.level graph.now)) cut.now (contents L.items lists.new.items) nodes.now) }
{
    let finder = Finder::new(cut);
    let mut before = Vec::new(alloc);
    for piece in nodes.chunks(PIECE) {
        graph.back_from(alloc, piece, &mut before)?;
        deal(lists, &finder, &before)?;
    }
    Ok(())
}

// The batch of these nodes.
fn seal<N: Levels, L: NodeList>(fresh: &Fresh<N>, target: u64, nodes: L) -> Batch<N, L>
    requires { BatchHolds (N.net fresh.now.level) (batch_of fresh.now target (L.items nodes)) }
    ensures made { result ≡ batch_of fresh.now target (L.items nodes) }
    ensures holds { BatchHolds (N.net fresh.now.level) result }
{
    Batch {
        level: fresh.level,
        cut: fresh.cut,
        wave: fresh.wave,
        source: fresh.source,
        low: fresh.low,
        high: fresh.high,
        target,
        nodes,
        family: PhantomData,
    }
}

/// One batch for each block of the cut, in their order, of the nodes that lead to the fresh nodes.
///
/// Each names the level, the cut, the wave and the source of the fresh nodes. It lists the quiet
/// predecessors in its target, each as often as it leads to a fresh node. The graph is the one that
/// the fresh nodes are of.
///
/// # Errors
///
/// `AllocError` where memory is refused.
pub fn scatter<N: Levels, G: Graph<Name = N>>(
    alloc: Global,
    graph: &G,
    fresh: &Fresh<N>,
) -> Result<Vec<Batch<N>>, AllocError>
    requires { G.level graph.now ≡ fresh.now.level }
    ensures count { IfOk result (λ v. vec_len v ≡ fresh.now.cut.blocks) }
    ensures batches { IfOk result (λ v. (t : ℕ) (d : BatchState) → t < fresh.now.cut.blocks
        → IsBatchOf (N.net fresh.now.level) fresh.now t (slice_index_or v.items t d)) }
{
    let mut spare: Vec<Vec<u64>> = Vec::new(alloc);
    scatter_reusing(alloc, graph, fresh, &mut spare)
}

/// The batches that `scatter` gives, in lists taken from the end of `spare` as long as there are
/// any.
///
/// What stands in those lists is forgotten; only their room is used. `Batch::into_nodes` gives a
/// list back. So one who scatters often asks seldom for memory. The lists may be of either kind
/// that has room for each node of the graph.
///
/// # Errors
///
/// `AllocError` where memory is refused.
pub fn scatter_reusing<N: Levels, G: Graph<Name = N>, L: NodeList>(
    alloc: Global,
    graph: &G,
    fresh: &Fresh<N>,
    spare: &mut Vec<L>,
) -> Result<Vec<Batch<N, L>>, AllocError>
    requires level { G.level graph.now ≡ fresh.now.level }
    requires small { (N.net fresh.now.level).size ≤ L.limit }
    ensures count { IfOk result (λ v. vec_len v ≡ fresh.now.cut.blocks) }
    ensures batches { IfOk result (λ v. (t : ℕ) (d : BatchState) → t < fresh.now.cut.blocks
        → IsBatchOf (N.net fresh.now.level) fresh.now t (slice_index_or v.items t d)) }
{
    let mut lists = no_lists(alloc, fresh.cut.blocks() as usize, spare)?;
    deal_behind(alloc, graph, &fresh.cut, &fresh.nodes, &mut lists)?;
    let mut batches = Vec::with_capacity(alloc, lists.len())?;
    for nodes in lists {
        let target = batches.len() as u64;
        batches.push(seal(fresh, target, nodes))?;
    }
    Ok(batches)
}
