ghost use Rattle.std.specs.Prelude.{◌≡◌, ◌<◌, ◌≤◌};

use crate::bares::BareGraph;
use crate::checks::{holds, same_codes};
use crate::lones::LoneGraph;
use crate::pairs::PairGraph;
use crate::trios::TrioGraph;
use morris_wave::{Graph, SweepFault, sweep};
use std::alloc::Global;
use std::process::Abort;

// The codes of a graph.
fn has_codes<G: Graph>(rt: &impl Abort, alloc: Global, graph: &G, codes: &[u16]) {
    let found = sweep(alloc, graph).expect(rt, "codes");
    same_codes(rt, &found, codes, "codes");
}

#[test]
fn quiet_results_and_exits_decide(rt: HostRuntime) {
    let pair = PairGraph {
        level: 7,
        refuses: false,
    };
    has_codes(&rt, rt.alloc(), &pair, &[43, 42]);
    has_codes(&rt, rt.alloc(), &TrioGraph, &[6, 9, 10]);
    // Nodes without any result are lost in 0.
    let bare = BareGraph { level: 2 };
    has_codes(&rt, rt.alloc(), &bare, &[1, 1]);
    let none = BareGraph { level: 0 };
    has_codes(&rt, rt.alloc(), &none, &[]);
}

#[test]
fn exits_decide_a_lone_node(rt: HostRuntime) {
    // An exit of code 65,533 is lost; of 65,534 it is won, which a drawn one beside it saves.
    let won = LoneGraph { level: 2 * 65533 };
    has_codes(&rt, rt.alloc(), &won, &[65534]);
    let drawn = LoneGraph {
        level: 2 * 65534 + 1,
    };
    has_codes(&rt, rt.alloc(), &drawn, &[0]);
}

// The only exit of the only node is of this code, which is too deep.
fn is_too_deep(rt: &impl Abort, alloc: Global, code: u64) {
    let deep = LoneGraph {
        level: code.saturating_mul(2),
    };
    let answer = sweep(alloc, &deep);
    holds(rt, matches!(&answer, Err(SweepFault::TooDeep)), "too deep");
}

#[test]
fn too_deep_graphs_are_not_swept(rt: HostRuntime) {
    is_too_deep(&rt, rt.alloc(), 65534);
    is_too_deep(&rt, rt.alloc(), 65535);
}
