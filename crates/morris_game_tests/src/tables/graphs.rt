// The graphs of pairs, beside what another program finds by the rules alone.
use crate::checks::{holds, same};
use crate::tables::making::{pair, shelf_of_three};
use morris_board::grid::Grid;
use morris_index::pair::Pair;
use morris_pairs::class_graph::ClassGraph;
use morris_pairs::graph::PairGraph;
use morris_pairs::row_graph::RowGraph;
use morris_pairs::shelf::Shelf;
use morris_wave::{Graph, Levels};
use std::alloc::Global;
use std::process::Abort;

/// The sum of the products i * i * j over the quiet moves from the nodes j of a list to a node i.
fn sum_to(node: u64, list: &[u64]) -> u64 {
    let square = node.wrapping_mul(node);
    list.iter().fold(
        0u64,
        |sum, before| sum.wrapping_add(square.wrapping_mul(*before)),
    )
}

/// The sum of these products over all quiet moves, as the lists of a graph have them, modulo
/// 99,991.
fn sum_of_lists<N: Levels, G: Graph<Name = N>>(rt: &impl Abort, alloc: Global, graph: &G) -> u64 {
    let mut list = Vec::new(alloc);
    let mut sum = 0u64;
    for node in 0..graph.size() {
        graph.back(node, &mut list).expect(rt, "memory");
        sum = sum.wrapping_add(sum_to(node, list.as_slice()));
    }
    sum % 99_991
}

/// The graph of a pair over a shelf.
fn graph_of<'a>(rt: &impl Abort, shelf: &'a Shelf<Grid>, pair: Pair<Grid>) -> PairGraph<'a, Grid> {
    PairGraph::new(shelf, pair).expect(rt, "a graph")
}

/// The graph of a pair by classes.
fn class_graph_of<'a>(
    rt: &impl Abort,
    alloc: Global,
    shelf: &'a Shelf<Grid>,
    pair: Pair<Grid>,
) -> ClassGraph<'a, Grid> {
    ClassGraph::new(alloc, shelf, pair).expect(rt, "a graph by classes")
}

/// The graph of a pair of two different numbers by rows.
pub(crate) fn row_graph_of<'a>(
    rt: &impl Abort,
    alloc: Global,
    shelf: &'a Shelf<Grid>,
    pair: Pair<Grid>,
) -> RowGraph<'a, Grid> {
    assert!(rt; pair.lesser() < pair.greater());
    RowGraph::over(alloc, shelf.tables(), pair).expect(rt, "a graph by rows")
}

/// The sum for the graph of a pair, and for its graph by classes.
fn assert_sums(rt: &impl Abort, alloc: Global, greater: u8, full: u64, classes: u64) {
    let shelf = shelf_of_three(rt, alloc);
    let pair = pair(rt, greater, 3);
    let graph = graph_of(rt, &shelf, pair);
    same(rt, sum_of_lists(rt, alloc, &graph), full, "by positions");
    let graph = class_graph_of(rt, alloc, &shelf, pair);
    same(rt, sum_of_lists(rt, alloc, &graph), classes, "by classes");
}

#[test]
fn lists_have_each_quiet_move(rt: HostRuntime) {
    assert_sums(&rt, rt.alloc(), 3, 1_168, 25_614);
    assert_sums(&rt, rt.alloc(), 4, 54_606, 87_080);
}

#[test]
fn lists_by_rows_have_each_quiet_move(rt: HostRuntime) {
    let shelf = shelf_of_three(&rt, rt.alloc());
    let graph = row_graph_of(&rt, rt.alloc(), &shelf, pair(&rt, 4, 3));
    same(
        &rt,
        sum_of_lists(&rt, rt.alloc(), &graph),
        28_781,
        "by rows",
    );
}

/// How many quiet moves the nodes of a graph have in all, and how many of the nodes have a capture
/// that leads to a loss, to a win and to a draw.
fn moves_in_all<N: Levels, G: Graph<Name = N>>(graph: &G) -> (u64, u64, u64, u64) {
    let (mut quiet, mut lost, mut won, mut drawn) = (0u64, 0u64, 0u64, 0u64);
    for node in 0..graph.size() {
        let exits = graph.exits(node);
        quiet = quiet.saturating_add(u64::from(graph.quiet_count(node)));
        lost = lost.saturating_add(u64::from(exits.least_lost.is_some()));
        won = won.saturating_add(u64::from(exits.greatest_won.is_some()));
        drawn = drawn.saturating_add(u64::from(exits.drawn));
    }
    (quiet, lost, won, drawn)
}

// The graph of 4-3, its graph by classes and the one by rows.
#[test]
fn nodes_have_their_moves(rt: HostRuntime) {
    let shelf = shelf_of_three(&rt, rt.alloc());
    let pair = pair(&rt, 4, 3);
    let full = moves_in_all(&graph_of(&rt, &shelf, pair));
    holds(&rt, full == (9900, 380, 288, 216), "by positions");
    let classes = moves_in_all(&class_graph_of(&rt, rt.alloc(), &shelf, pair));
    holds(&rt, classes == (1894, 62, 48, 36), "by classes");
    let rows = moves_in_all(&row_graph_of(&rt, rt.alloc(), &shelf, pair));
    holds(&rt, rows == (1822, 62, 54, 36), "by rows");
}
