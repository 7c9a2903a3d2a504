ghost use Rattle.std.specs.Prelude.{◌≡◌, ◌<◌, ◌≤◌};

use crate::bares::BareGraph;
use crate::checks::{holds, same, same_codes};
use crate::gates::{CountingGate, HoledGate, MeetingGate, PickyGate, ShutGate};
use crate::lones::LoneGraph;
use crate::meetings::{Meeting, MeetingGraph};
use crate::pairs::PairGraph;
use crate::trios::TrioGraph;
use morris_wave::Graph;
use morris_workers::{Gate, NoProgress, OpenGate, SolveFault, check_numbers, solve, solve_with};
use std::alloc::Global;
use std::process::Abort;
use std::sync::Wait;
use std::thread::Threads;

const PAIR: PairGraph = PairGraph {
    level: 0,
    refuses: false,
};

// The graph is solved, and has these codes.
fn solves<G: Graph + Send + Sync, A: Gate, R: Abort + Threads + Wait + Sync>(
    rt: &R,
    alloc: Global,
    graph: &G,
    gate: &A,
    workers: usize,
    blocks: usize,
    codes: &[u16],
) {
    let found = solve(rt, alloc, graph, gate, workers, blocks).expect(rt, "codes");
    same_codes(rt, &found, codes, "codes");
}

// The graph isn't solved, for this fault.
fn refuses<G: Graph + Send + Sync, A: Gate, R: Abort + Threads + Wait + Sync>(
    rt: &R,
    alloc: Global,
    graph: &G,
    gate: &A,
    workers: usize,
    blocks: usize,
    want: SolveFault,
) {
    let answer = solve(rt, alloc, graph, gate, workers, blocks);
    holds(rt, matches!(&answer, Err(fault) if *fault == want), "fault");
}

#[test]
fn a_pair_is_solved_by_any_number_of_workers_and_blocks(rt: HostRuntime) {
    // Node 1 is won in 41 and node 0 lost in 42; waves 1 to 40 decide nothing.
    let codes = [43, 42].as_slice();
    solves(&rt, rt.alloc(), &PAIR, &OpenGate, 2, 2, codes);
    solves(&rt, rt.alloc(), &PAIR, &OpenGate, 1, 1, codes);
    solves(&rt, rt.alloc(), &PAIR, &OpenGate, 1, 5, codes);
    solves(&rt, rt.alloc(), &PAIR, &OpenGate, 7, 3, codes);
    solves(&rt, rt.alloc(), &PAIR, &OpenGate, 64, 2, codes);
}

#[test]
fn what_a_block_finds_is_sent_in_pieces(rt: HostRuntime) {
    // All nodes are lost in 0, so that one block finds more of them than go into a piece.
    let graph = BareGraph { level: 5000 };
    let codes = [1u16; 5000];
    solves(&rt, rt.alloc(), &graph, &OpenGate, 1, 1, &codes);
    solves(&rt, rt.alloc(), &graph, &OpenGate, 3, 1, &codes);
}

// The graph is solved with lists of 64 bits a node, since it has more than no nodes.
fn solves_in_long_lists<G: Graph + Send + Sync, R: Abort + Threads + Wait + Sync>(
    rt: &R,
    alloc: Global,
    graph: &G,
    workers: usize,
    blocks: usize,
    codes: &[u16],
) {
    let watch = &mut NoProgress;
    let found = solve_with(rt, alloc, graph, &OpenGate, workers, blocks, 0, watch).expect(
        rt, "codes",
    );
    same_codes(rt, &found, codes, "codes");
}

#[test]
fn two_workers_send_lists_of_64_bits(rt: HostRuntime) {
    solves_in_long_lists(&rt, rt.alloc(), &PAIR, 2, 2, &[43, 42]);
    // Node 1 is lost in 8, and node 2, which leads to it, won in 9.
    solves_in_long_lists(&rt, rt.alloc(), &TrioGraph, 2, 3, &[6, 9, 10]);
}

#[test]
fn exits_are_waited_for(rt: HostRuntime) {
    // The only exit is lost in 0, and in 2,000.
    let soon = LoneGraph { level: 2 };
    solves(&rt, rt.alloc(), &soon, &OpenGate, 2, 1024, &[2]);
    let late = LoneGraph { level: 2 * 2001 };
    solves(&rt, rt.alloc(), &late, &OpenGate, 2, 2, &[2002]);
}

#[test]
fn the_last_exit_that_is_waited_for_is_lost_in_65532(rt: HostRuntime) {
    let last = LoneGraph { level: 2 * 65533 };
    solves(&rt, rt.alloc(), &last, &OpenGate, 1, 1, &[65534]);
}

#[test]
fn too_deep_graphs_are_not_solved(rt: HostRuntime) {
    for level in [2 * 65534, 2 * 65535] {
        let deep = LoneGraph { level };
        refuses(&rt, rt.alloc(), &deep, &OpenGate, 1, 1, SolveFault::TooDeep);
    }
}

#[test]
fn numbers_out_of_range_are_refused_workers_first(rt: HostRuntime) {
    for (workers, blocks, fault) in [
        (0, 2, SolveFault::Workers),
        (65, 2, SolveFault::Workers),
        (0, 0, SolveFault::Workers),
        (2, 0, SolveFault::Blocks),
        (2, 1025, SolveFault::Blocks),
    ] {
        refuses(&rt, rt.alloc(), &PAIR, &OpenGate, workers, blocks, fault);
    }
    holds(&rt, check_numbers(64, 1024).is_ok(), "the greatest numbers");
}

#[test]
fn block_that_is_not_sent_from_is_told(rt: HostRuntime) {
    refuses(
        &rt,
        rt.alloc(),
        &PAIR,
        &ShutGate,
        2,
        2,
        SolveFault::Missing(0),
    );
    let holed = HoledGate { number: 3 };
    refuses(&rt, rt.alloc(), &PAIR, &holed, 2, 5, SolveFault::Missing(0));
    // The other worker may have drawn all numbers, in each of the waves.
    match solve(&rt, rt.alloc(), &PAIR, &PickyGate { worker: 1 }, 2, 5) {
        Ok(codes) => same_codes(&rt, &codes, &[43, 42], "codes"),
        Err(fault) => holds(&rt, fault == SolveFault::Missing(0), "fault"),
    }
}

#[test]
fn a_worker_that_is_told_to_leave_draws_no_more(rt: HostRuntime) {
    let gate = CountingGate::new();
    refuses(&rt, rt.alloc(), &PAIR, &gate, 1, 5, SolveFault::Missing(0));
    same(&rt, gate.passes(), 1, "draws");
}

#[test]
fn want_of_memory_comes_before_what_it_leaves_undone(rt: HostRuntime) {
    // The graph refuses memory for the first predecessors, which are listed after wave 41.
    let refusing = PairGraph {
        level: 0,
        refuses: true,
    };
    refuses(
        &rt,
        rt.alloc(),
        &refusing,
        &OpenGate,
        2,
        2,
        SolveFault::Memory,
    );
}

#[test]
fn two_workers_make_blocks_side_by_side(rt: HostRuntime) {
    let graph = MeetingGraph::new(Meeting::ReadNodes);
    solves(&rt, rt.alloc(), &graph, &OpenGate, 2, 2, &[1, 1]);
    holds(&rt, graph.have_met(), "met");
}

#[test]
fn two_workers_look_at_the_graph_side_by_side(rt: HostRuntime) {
    let graph = MeetingGraph::new(Meeting::Back);
    solves(&rt, rt.alloc(), &graph, &OpenGate, 2, 2, &[1, 1]);
    holds(&rt, graph.have_met(), "met");
}

#[test]
fn two_workers_meet_at_the_gate(rt: HostRuntime) {
    let gate = MeetingGate::new();
    solves(&rt, rt.alloc(), &PAIR, &gate, 2, 5, &[43, 42]);
    holds(&rt, gate.have_met(), "met");
}
