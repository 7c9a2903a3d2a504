//! The calls that build a table by several workers.
use crate::tables::{tell_shelf, tell_table};
use morris_board::grid::Grid;
use morris_engine_tests::printing::mark;
use morris_index::pair::Pair;
use morris_pairs::layout::Layout;
use morris_pairs::shelf::Shelf;
use morris_table::building::{build, build_as};
use morris_workers::OpenGate;
use std::alloc::Global;
use std::sync::Wait;
use std::thread::Threads;

pub(crate) fn builds<R: Print + Threads + Wait + Sync>(rt: &R, alloc: Global) -> Option<()> {
    let shelf = Shelf::<Grid>::new(alloc).ok()?;
    let pair = Pair::new(3, 3).ok()?;
    mark(alloc)?;
    let first = build(rt, alloc, &shelf, pair, &OpenGate, 2, 5);
    mark(alloc)?;
    tell_table(rt, alloc, "build", "first", &first)?;
    tell_shelf(rt, "build", &shelf)?;
    let again = build(rt, alloc, &shelf, pair, &OpenGate, 2, 5);
    tell_table(rt, alloc, "build", "again", &again)
}

pub(crate) fn builds_by_classes<R: Print + Threads + Wait + Sync>(
    rt: &R,
    alloc: Global,
) -> Option<()> {
    let shelf = Shelf::<Grid>::new(alloc).ok()?;
    let pair = Pair::new(3, 3).ok()?;
    let layout = Layout::Classes;
    mark(alloc)?;
    let first = build_as(rt, alloc, &shelf, pair, layout, &OpenGate, 2, 5);
    mark(alloc)?;
    tell_table(rt, alloc, "build_classes", "first", &first)?;
    tell_shelf(rt, "build_classes", &shelf)?;
    let again = build_as(rt, alloc, &shelf, pair, layout, &OpenGate, 2, 5);
    tell_table(rt, alloc, "build_classes", "again", &again)
}
