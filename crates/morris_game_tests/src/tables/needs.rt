// What is refused for want of the table of a pair that is needed.
use crate::checks::holds;
use crate::tables::making::{empty, pair, shelf_of_three, swept};
use morris_board::grid::Grid;
use morris_index::pair::Pair;
use morris_pairs::exact::Exact;
use morris_pairs::graph::PairGraph;
use morris_pairs::raw::Raw;
use morris_pairs::shelf::{Needs, Shelf};
use morris_pairs::verify::VerifyFault;
use std::process::Abort;

/// The pair whose table the graph of a pair needs first and a shelf hasn't.
fn first_need(rt: &impl Abort, shelf: &Shelf<Grid>, a: u8, b: u8) -> Option<Pair<Grid>> {
    match PairGraph::new(shelf, pair(rt, a, b)) {
        Ok(_) => None,
        Err(Needs(missing)) => Some(missing),
    }
}

#[test]
fn a_graph_needs_the_tables_of_others(rt: HostRuntime) {
    let empty = empty(&rt, rt.alloc());
    holds(&rt, first_need(&rt, &empty, 3, 3).is_none(), "3-3");
    holds(
        &rt,
        first_need(&rt, &empty, 4, 3) == Some(pair(&rt, 3, 3)),
        "4-3",
    );
    // The pair with one stone fewer in the smaller number comes first.
    holds(
        &rt,
        first_need(&rt, &empty, 5, 4) == Some(pair(&rt, 5, 3)),
        "5-4",
    );
}

/// The table that a shelf refuses to take, for want of the one of 3-3.
fn not_put(rt: &impl Abort, shelf: &mut Shelf<Grid>, table: Exact<Grid>) -> Exact<Grid> {
    let (table, Needs(missing)) = shelf.put(table).err().expect(rt, "the table");
    holds(rt, missing == pair(rt, 3, 3), "3-3 is needed");
    table
}

/// The table that isn't verified over a shelf, for want of the one of 3-3.
fn not_verified(rt: &impl Abort, shelf: &Shelf<Grid>, raw: Raw<Grid>) -> Raw<Grid> {
    let (raw, fault) = raw.verify(shelf).err().expect(rt, "the table");
    let needs = VerifyFault::Needs(Needs(pair(rt, 3, 3)));
    holds(rt, fault == needs, "3-3 is needed");
    raw
}

#[test]
fn a_table_that_is_refused_comes_back_unharmed(rt: HostRuntime) {
    let shelf = shelf_of_three(&rt, rt.alloc());
    let table = swept(&rt, rt.alloc(), &shelf, pair(&rt, 4, 3));
    let mut empty = empty(&rt, rt.alloc());
    let table = not_put(&rt, &mut empty, table);
    let raw = not_verified(&rt, &empty, table.into_raw());
    holds(&rt, raw.verify(&shelf).is_ok(), "verified");
}
