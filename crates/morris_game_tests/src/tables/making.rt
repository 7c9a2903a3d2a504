// Tables, their files and shelves of them, which the tests are made with. A test ends where a call
// is refused.
use crate::checks::holds;
use morris_board::board::{Board, Geometry};
use morris_board::grid::Grid;
use morris_board::position::Position;
use morris_board::streams::IntoWrite;
use morris_index::pair::Pair;
use morris_pairs::exact::Exact;
use morris_pairs::layout::Layout;
use morris_pairs::shelf::Shelf;
use morris_pairs::sweeping::sweep_pair;
use morris_pairs::writing::write_table;
use morris_table::building::build_as;
use morris_workers::OpenGate;
use std::alloc::Global;
use std::process::Abort;
use std::sync::Wait;
use std::thread::Threads;

/// The pair of two numbers of stones.
pub(crate) fn pair<B: Geometry>(rt: &impl Abort, a: u8, b: u8) -> Pair<B> {
    Pair::new(a, b).expect(rt, "a pair")
}

/// The position of a position string.
pub(crate) fn position<B: Geometry>(rt: &impl Abort, text: &[u8]) -> Position<B> {
    Position::read(text).expect(rt, "a position")
}

/// A shelf without a table.
pub(crate) fn empty<B: Board>(rt: &impl Abort, alloc: Global) -> Shelf<B> {
    Shelf::new(alloc).expect(rt, "a shelf")
}

/// The table of a pair, swept over the tables of a shelf.
pub(crate) fn swept<B: Board>(
    rt: &impl Abort,
    alloc: Global,
    shelf: &Shelf<B>,
    pair: Pair<B>,
) -> Exact<B> {
    sweep_pair(alloc, shelf, pair).expect(rt, "a table")
}

/// The table of a pair in a layout, built by three workers over the tables of a shelf.
pub(crate) fn built<R: Abort + Threads + Wait + Sync>(
    rt: &R,
    alloc: Global,
    shelf: &Shelf<Grid>,
    pair: Pair<Grid>,
    layout: Layout,
) -> Exact<Grid> {
    build_as(rt, alloc, shelf, pair, layout, &OpenGate, 3, 16).expect(rt, "a table")
}

/// The swept table of 3-3.
pub(crate) fn three_three(rt: &impl Abort, alloc: Global) -> Exact<Grid> {
    let shelf = empty(rt, alloc);
    swept(rt, alloc, &shelf, pair(rt, 3, 3))
}

/// The table of 3-3 by classes.
pub(crate) fn three_by_classes<R: Abort + Threads + Wait + Sync>(
    rt: &R,
    alloc: Global,
) -> Exact<Grid> {
    let shelf = empty(rt, alloc);
    built(rt, alloc, &shelf, pair(rt, 3, 3), Layout::Classes)
}

/// A shelf with this table, which needs no other.
pub(crate) fn shelf_with<B: Board>(rt: &impl Abort, alloc: Global, table: Exact<B>) -> Shelf<B> {
    let mut shelf = empty(rt, alloc);
    let is_put = shelf.put(table).is_ok();
    holds(rt, is_put, "a table is put");
    shelf
}

/// A shelf with the swept table of 3-3.
pub(crate) fn shelf_of_three(rt: &impl Abort, alloc: Global) -> Shelf<Grid> {
    shelf_with(rt, alloc, three_three(rt, alloc))
}

/// The bytes that writing a table gives.
pub(crate) fn file_of(rt: &impl Abort, alloc: Global, table: &Exact<Grid>) -> Vec<u8> {
    let mut sink = IntoWrite::new(Vec::new(alloc));
    let is_written = write_table(&mut sink, table).is_ok();
    holds(rt, is_written, "a file is written");
    sink.into_inner()
}

/// Whether two tables of one pair give each of its positions the same value.
pub(crate) fn agree(a: &Exact<Grid>, b: &Exact<Grid>) -> bool {
    let pair = a.pair();
    if b.pair() != pair {
        return false;
    }
    (0..pair.size()).all(|i| {
        i < pair.size()
            && {
                let position = pair.position(i);
                a.value_of(&position) == b.value_of(&position)
            }
    })
}
