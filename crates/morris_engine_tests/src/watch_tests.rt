ghost use Rattle.std.specs.Prelude.{◌≡◌, ◌<◌, ◌≤◌};

use crate::bares::BareGraph;
use crate::checks::{holds, same, same_codes};
use crate::gates::ShutGate;
use crate::lones::LoneGraph;
use crate::pairs::PairGraph;
use crate::scribes::Scribe;
use morris_wave::{Graph, sweep_watched};
use morris_workers::{Gate, OpenGate, SHORT_NODES, SolveFault, solve_with};
use std::alloc::Global;
use std::process::Abort;
use std::sync::Wait;
use std::thread::Threads;

const PAIR: PairGraph = PairGraph {
    level: 0,
    refuses: false,
};

// The waves that are reported are 1, 2, .. up to this one, each once.
fn are_waves_to(rt: &impl Abort, waves: &[u16], last: u16) {
    same(rt, waves.len() as u64, u64::from(last), "waves");
    let are_in_order = waves
        .iter()
        .enumerate()
        .all(|(place, wave)| *wave as usize == place + 1);
    holds(rt, are_in_order, "order");
}

// Solves a graph, and looks at the waves that are reported.
fn tells<G: Graph + Send + Sync, A: Gate, R: Abort + Threads + Wait + Sync>(
    rt: &R,
    alloc: Global,
    graph: &G,
    gate: &A,
    workers: usize,
    blocks: usize,
    last: u16,
) -> Result<Vec<u16>, SolveFault> {
    let mut scribe = Scribe::new(alloc);
    let watch = &mut scribe;
    let answer = solve_with(rt, alloc, graph, gate, workers, blocks, SHORT_NODES, watch);
    are_waves_to(rt, &scribe.waves, last);
    answer
}

// So many waves are reported, and then the codes are these.
fn ends<G: Graph + Send + Sync, R: Abort + Threads + Wait + Sync>(
    rt: &R,
    alloc: Global,
    graph: &G,
    workers: usize,
    blocks: usize,
    last: u16,
    codes: &[u16],
) {
    let found = tells(rt, alloc, graph, &OpenGate, workers, blocks, last).expect(rt, "codes");
    same_codes(rt, &found, codes, "codes");
}

// So many waves are reported, and then the graph is refused for this fault.
fn breaks_off<G: Graph + Send + Sync, A: Gate, R: Abort + Threads + Wait + Sync>(
    rt: &R,
    alloc: Global,
    graph: &G,
    gate: &A,
    workers: usize,
    last: u16,
    want: SolveFault,
) {
    let answer = tells(rt, alloc, graph, gate, workers, 2, last);
    holds(rt, matches!(&answer, Err(fault) if *fault == want), "fault");
}

#[test]
fn each_wave_is_told_once_in_order(rt: HostRuntime) {
    // Node 0 is lost in 42, and wave 43 decides nothing more.
    let codes = [43, 42].as_slice();
    ends(&rt, rt.alloc(), &PAIR, 2, 2, 43, codes);
    ends(&rt, rt.alloc(), &PAIR, 1, 5, 43, codes);
    ends(&rt, rt.alloc(), &PAIR, 7, 3, 43, codes);
}

#[test]
fn each_wave_of_a_sweep_is_told_once_in_order(rt: HostRuntime) {
    let mut scribe = Scribe::new(rt.alloc());
    let codes = sweep_watched(rt.alloc(), &PAIR, &mut scribe).expect(&rt, "codes");
    same_codes(&rt, &codes, &[43, 42], "codes");
    are_waves_to(&rt, &scribe.waves, 43);
}

#[test]
fn a_wave_that_decides_nothing_is_told_too(rt: HostRuntime) {
    // Both nodes are lost before the first wave.
    let bare = BareGraph { level: 2 };
    ends(&rt, rt.alloc(), &bare, 2, 2, 1, &[1, 1]);
    // The only exit of the only node is lost in 2, so that the node is won in 3.
    let lone = LoneGraph { level: 2 * 3 };
    ends(&rt, rt.alloc(), &lone, 2, 3, 4, &[4]);
}

#[test]
fn waves_go_on_past_the_numbers_of_one_counter(rt: HostRuntime) {
    // A counter has the numbers of 64 blocks for 15,625 waves. The exit is lost in 16,000.
    let late = LoneGraph { level: 2 * 16001 };
    ends(&rt, rt.alloc(), &late, 2, 64, 16002, &[16002]);
}

// The graph is solved with no draw in a wave, and no wave is reported.
fn is_settled_at_once<G: Graph + Send + Sync, R: Abort + Threads + Wait + Sync>(
    rt: &R,
    alloc: Global,
    graph: &G,
    codes: &[u16],
) {
    let found = tells(rt, alloc, graph, &ShutGate, 2, 3, 0).expect(rt, "codes");
    same_codes(rt, &found, codes, "codes");
}

#[test]
fn nothing_is_told_of_a_graph_that_is_settled_at_once(rt: HostRuntime) {
    let none = BareGraph { level: 0 };
    is_settled_at_once(&rt, rt.alloc(), &none, &[]);
    // The only exit of the only node is drawn.
    let drawn = LoneGraph { level: 0 };
    is_settled_at_once(&rt, rt.alloc(), &drawn, &[0]);
}

#[test]
fn nothing_is_told_where_no_wave_begins(rt: HostRuntime) {
    breaks_off(&rt, rt.alloc(), &PAIR, &OpenGate, 0, 0, SolveFault::Workers);
    breaks_off(
        &rt,
        rt.alloc(),
        &PAIR,
        &OpenGate,
        65,
        0,
        SolveFault::Workers,
    );
    // The exit is lost in 65,534, so that it would come due after the last wave.
    let deep = LoneGraph { level: 2 * 65535 };
    breaks_off(&rt, rt.alloc(), &deep, &OpenGate, 1, 0, SolveFault::TooDeep);
}

#[test]
fn a_wave_that_is_refused_is_the_last_that_is_told(rt: HostRuntime) {
    breaks_off(
        &rt,
        rt.alloc(),
        &PAIR,
        &ShutGate,
        2,
        1,
        SolveFault::Missing(0),
    );
    // Memory is refused for the first predecessors, which are those of node 1, won in 41.
    let refusing = PairGraph {
        level: 0,
        refuses: true,
    };
    breaks_off(
        &rt,
        rt.alloc(),
        &refusing,
        &OpenGate,
        2,
        42,
        SolveFault::Memory,
    );
}
