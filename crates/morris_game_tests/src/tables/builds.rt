// Tables built by many workers, of whom some are sent away: they are right, or none is answered.
use crate::checks::{holds, same};
use crate::tables::graphs::row_graph_of;
use crate::tables::making::{
    agree, built, empty, file_of, pair, shelf_with, swept, three_by_classes, three_three,
};
use morris_board::grid::Grid;
use morris_engine_tests::digests::BY_POSITIONS;
use morris_engine_tests::gates::{HoledGate, MeetingGate, ShutGate};
use morris_index::pair::Pair;
use morris_pairs::build_fault::BuildFault;
use morris_pairs::exact::Exact;
use morris_pairs::layout::Layout;
use morris_pairs::shelf::{Needs, Shelf};
use morris_table::building::{build, build_as};
use morris_workers::{Gate, OpenGate, Turn, solve};
use std::alloc::Global;
use std::process::Abort;
use std::sync::Wait;
use std::sync::atomic::{AtomicBool, Ordering};
use std::thread::Threads;

/// A table's file is that of 3-3.
fn assert_right(rt: &impl Abort, alloc: Global, table: &Exact<Grid>) {
    let file = file_of(rt, alloc, table);
    same(rt, file.len() as u64, 3_408, "bytes");
    holds(
        rt,
        file.as_slice().ends_with(BY_POSITIONS.as_slice()),
        "digest",
    );
}

/// Whether a build of 3-3 answers a table, which has to be right, and otherwise that block 0 isn't
/// complete.
fn is_built<A: Gate, R: Abort + Threads + Wait + Sync>(
    rt: &R,
    alloc: Global,
    gate: &A,
    workers: usize,
    blocks: usize,
) -> bool {
    let shelf = empty(rt, alloc);
    match build(rt, alloc, &shelf, pair(rt, 3, 3), gate, workers, blocks) {
        Ok(table) => {
            assert_right(rt, alloc, &table);
            true
        }
        Err(fault) => {
            holds(rt, fault == BuildFault::Missing(0), "block 0 is missing");
            false
        }
    }
}

/// Each of so many builds by an open gate answers the right table.
fn assert_built<R: Abort + Threads + Wait + Sync>(
    rt: &R,
    alloc: Global,
    workers: usize,
    blocks: usize,
    times: u32,
) {
    for _ in 0..times {
        holds(
            rt,
            is_built(rt, alloc, &OpenGate, workers, blocks),
            "a table",
        );
    }
}

#[test]
fn few_and_many_workers_build_the_same_table(rt: HostRuntime) {
    assert_built(&rt, rt.alloc(), 1, 1, 1);
    assert_built(&rt, rt.alloc(), 2, 5, 1);
    assert_built(&rt, rt.alloc(), 7, 64, 1);
    assert_built(&rt, rt.alloc(), 64, 1_024, 20);
    assert_built(&rt, rt.alloc(), 64, 64, 100);
}

/// The table of a pair of two different numbers, from its graph by rows; so many workers put the
/// codes into the order of the entries.
fn built_by_rows<R: Abort + Threads + Wait + Sync>(
    rt: &R,
    alloc: Global,
    shelf: &Shelf<Grid>,
    pair: Pair<Grid>,
    workers: usize,
) -> Exact<Grid> {
    let graph = row_graph_of(rt, alloc, shelf, pair);
    let codes = solve(rt, alloc, &graph, &OpenGate, 3, 16).expect(rt, "the codes");
    graph
        .into_table(rt, alloc, codes, workers)
        .expect(rt, "a table")
}

/// The builds of 4-3 in both layouts and from the graph by rows, over a table of 3-3, agree with
/// its sweep.
fn assert_agree_over<R: Abort + Threads + Wait + Sync>(rt: &R, alloc: Global, low: Exact<Grid>) {
    let shelf = shelf_with(rt, alloc, low);
    let pair = pair(rt, 4, 3);
    let swept = swept(rt, alloc, &shelf, pair);
    let full = built(rt, alloc, &shelf, pair, Layout::Full);
    holds(rt, agree(&full, &swept), "by positions");
    let classes = built(rt, alloc, &shelf, pair, Layout::Classes);
    holds(rt, agree(&classes, &swept), "by classes");
    for workers in [0, 1, 2, 3, 7] {
        let rows = built_by_rows(rt, alloc, &shelf, pair, workers);
        holds(rt, agree(&rows, &swept), "by rows");
    }
}

#[test]
fn builds_agree_over_tables_of_either_layout(rt: HostRuntime) {
    assert_agree_over(&rt, rt.alloc(), three_three(&rt, rt.alloc()));
    assert_agree_over(&rt, rt.alloc(), three_by_classes(&rt, rt.alloc()));
}

/// A build of a pair over an empty shelf, whose workers are all sent away, is refused for this.
fn assert_refused<R: Abort + Threads + Wait + Sync>(
    rt: &R,
    alloc: Global,
    layout: Layout,
    greater: u8,
    (workers, blocks): (usize, usize),
    fault: BuildFault<Grid>,
) {
    let (empty, pair) = (empty(rt, alloc), pair(rt, greater, 3));
    let answer = build_as(rt, alloc, &empty, pair, layout, &ShutGate, workers, blocks);
    holds(rt, answer.err() == Some(fault), "fault");
}

/// Builds in a layout are refused in the order in which the faults are looked for.
fn assert_refused_in_order<R: Abort + Threads + Wait + Sync>(
    rt: &R,
    alloc: Global,
    layout: Layout,
) {
    let needs = BuildFault::Needs(Needs(pair(rt, 3, 3)));
    assert_refused(rt, alloc, layout, 4, (0, 0), needs);
    assert_refused(rt, alloc, layout, 3, (0, 0), BuildFault::Workers);
    assert_refused(rt, alloc, layout, 3, (65, 1), BuildFault::Workers);
    assert_refused(rt, alloc, layout, 3, (1, 0), BuildFault::Blocks);
    assert_refused(rt, alloc, layout, 3, (1, 1025), BuildFault::Blocks);
    assert_refused(rt, alloc, layout, 3, (2, 5), BuildFault::Missing(0));
}

#[test]
fn builds_are_refused_in_order(rt: HostRuntime) {
    assert_refused_in_order(&rt, rt.alloc(), Layout::Full);
    assert_refused_in_order(&rt, rt.alloc(), Layout::Classes);
}

// No block is complete then, and the first one is reported.
#[test]
fn a_number_that_is_left_out_leaves_every_block_incomplete(rt: HostRuntime) {
    let is_built_without_3 = is_built(&rt, rt.alloc(), &HoledGate { number: 3 }, 2, 5);
    holds(&rt, !is_built_without_3, "3 is left out");
    let is_built_without_5 = is_built(&rt, rt.alloc(), &HoledGate { number: 5 }, 2, 5);
    holds(&rt, is_built_without_5, "no number is left out");
}

/// Sends a worker away by a rule that looks like chance, and notes that it did.
#[derive(Drop)]
struct Whims {
    seed: u64,
    /// One in so many is sent away.
    rarity: u64,
    sent_away: AtomicBool,
}

/// A number that looks like chance.
fn mixed(seed: u64, worker: u64, number: u64) -> u64 {
    let mut state = seed
        .wrapping_mul(0x9e37_79b9_7f4a_7c15)
        .wrapping_add(worker.wrapping_mul(0xbf58_476d_1ce4_e5b9))
        .wrapping_add(number.wrapping_mul(0x94d0_49bb_1331_11eb));
    state = (state ^ (state >> 30)).wrapping_mul(0xbf58_476d_1ce4_e5b9);
    state = (state ^ (state >> 27)).wrapping_mul(0x94d0_49bb_1331_11eb);
    state ^ (state >> 31)
}

impl Gate for Whims {
    fn pass(&self, worker: usize, number: u64) -> Turn {
        if mixed(self.seed, worker as u64, number) % self.rarity.max(1) > 0 {
            return Turn::Go;
        }
        self.sent_away.store(true, Ordering::SeqCst);
        Turn::Leave
    }
}

/// Whether a build with some workers sent away answered the table, which it does where none was.
fn is_built_by_whim<R: Abort + Threads + Wait + Sync>(rt: &R, alloc: Global, seed: u64) -> bool {
    let (rarity, sent_away) = (200, AtomicBool::new(false));
    let gate = Whims {
        seed,
        rarity,
        sent_away,
    };
    let workers = 1 + (mixed(seed, 1, 0) % 64) as usize;
    let blocks = 1 + (mixed(seed, 2, 0) % 100) as usize;
    let is_built = is_built(rt, alloc, &gate, workers, blocks);
    let was_sent_away = gate.sent_away.load(Ordering::SeqCst);
    assert!(rt; is_built != was_sent_away, "at seed {seed}");
    is_built
}

// Where one worker was sent away, what it drew is undone, and so no block is complete.
#[test]
fn workers_are_sent_away_at_random(rt: HostRuntime) {
    let mut built = 0u32;
    for seed in 0..200 {
        if is_built_by_whim(&rt, rt.alloc(), seed) {
            built = built.saturating_add(1);
        }
    }
    // Both came often.
    assert!(rt; built > 25 && built < 175, "{built} of 200 were built");
}

#[test]
fn two_workers_are_at_work_at_once(rt: HostRuntime) {
    let gate = MeetingGate::new();
    holds(&rt, is_built(&rt, rt.alloc(), &gate, 2, 5), "a table");
    holds(&rt, gate.have_met(), "met");
}
