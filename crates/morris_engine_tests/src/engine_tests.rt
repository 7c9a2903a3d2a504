ghost use Rattle.std.specs.Prelude.{◌≡◌, ◌<◌, ◌≤◌, ◌^◌};

use crate::checks::{holds, same, same_nodes};
use crate::lones::{LoneGraph, Lones};
use crate::pairs::{PairGraph, Pairs};
use crate::runs::{advance, blocks_after, blocks_of, send};
use crate::trios::TrioGraph;
use morris_wave::{AdvanceFault, Block, Cut, Levels};
use std::alloc::Global;
use std::process::Abort;

const PAIR: PairGraph = PairGraph {
    level: 7,
    refuses: false,
};

// The nodes of a block.
fn has_range(rt: &impl Abort, cut: &Cut, number: u64, start: u64, end: u64) {
    assert!(rt; number < cut.blocks());
    let range = cut.range(number);
    same(rt, range.start, start, "first node");
    same(rt, range.end, end, "end");
}

#[test]
fn two_nodes_in_five_blocks(rt: HostRuntime) {
    let cut = Cut::new(2, 5).expect(&rt, "a cut");
    has_range(&rt, &cut, 0, 0, 0);
    has_range(&rt, &cut, 1, 0, 0);
    has_range(&rt, &cut, 2, 0, 1);
    has_range(&rt, &cut, 3, 1, 1);
    has_range(&rt, &cut, 4, 1, 2);
    same(&rt, cut.block_of(0), 2, "block of node 0");
    same(&rt, cut.block_of(1), 4, "block of node 1");
}

// The nodes that are fresh in a block.
fn shows<N: Levels>(rt: &impl Abort, alloc: Global, block: &Block<N>, nodes: &[u64]) {
    let fresh = block.fresh(alloc).expect(rt, "memory");
    same_nodes(rt, fresh.nodes(), nodes, "fresh");
}

// What a block of one open node shows before the first wave. It is settled where it waits for no
// exit.
fn is_open(rt: &impl Abort, alloc: Global, block: &Block<Pairs>, last_due: u32) {
    same(
        rt,
        u64::from(block.last_due()),
        u64::from(last_due),
        "last exit",
    );
    holds(rt, block.is_complete(), "complete");
    holds(rt, block.settled() == (last_due == 0), "settled");
    same(rt, block.tallies().undecided, 1, "open nodes");
    same(rt, block.cut().blocks(), 2, "blocks");
    shows(rt, alloc, block, &[]);
}

#[test]
fn nothing_is_fresh_before_the_first_wave(rt: HostRuntime) {
    let blocks = blocks_of(rt.alloc(), &PAIR, 2).expect(&rt, "blocks");
    let [left, right] = blocks.as_slice() else {
        panic!(rt; "not two blocks");
    };
    is_open(&rt, rt.alloc(), left, 0);
    is_open(&rt, rt.alloc(), right, 41);
}

// What the block of the one node shows at a wave.
fn is_lone(rt: &impl Abort, block: &Block<Lones>, wave: u16, code: u16) {
    same(rt, u64::from(block.wave()), u64::from(wave), "wave");
    let won = if code == 0 { 0 } else { 1 };
    same(rt, block.tallies().won, won, "won nodes");
    let range = block.range();
    assert!(rt; range.start == 0 && range.end == 1);
    same(rt, u64::from(block.code(0)), u64::from(code), "code");
}

// The node is decided, and the block isn't settled yet.
fn is_open_at_65533(rt: &impl Abort, blocks: &[Block<Lones>]) {
    let [block] = blocks else {
        panic!(rt; "not one block");
    };
    is_lone(rt, block, 65533, 65534);
    holds(rt, !block.settled(), "not settled");
}

// A settled block at the last wave can't go on, and stays as it is.
fn is_at_its_end(rt: &impl Abort, block: &mut Block<Lones>) {
    holds(rt, block.settled(), "settled");
    let answer = block.advance();
    holds(rt, matches!(answer, Err(AdvanceFault::TooDeep)), "too deep");
    is_lone(rt, block, 65534, 65534);
}

#[test]
fn the_last_wave_is_65534(rt: HostRuntime) {
    // The only exit of the only node is lost in 65,532, so that the node is won in 65,533.
    let late = LoneGraph { level: 2 * 65533 };
    let mut blocks = blocks_after(rt.alloc(), &late, 1, 65533).expect(&rt, "blocks");
    is_open_at_65533(&rt, &blocks);
    holds(&rt, advance(&mut blocks).is_some(), "went on");
    holds(
        &rt,
        send(rt.alloc(), &late, &mut blocks, 0).is_some(),
        "sent",
    );
    let block = blocks.get_mut(0).expect(&rt, "a block");
    is_at_its_end(&rt, block);
}

// The nodes that are decided in the pair graph after so many waves.
fn decides(rt: &impl Abort, alloc: Global, waves: u16, nodes: &[u64]) {
    let blocks = blocks_after(alloc, &PAIR, 1, waves).expect(rt, "blocks");
    let [block] = blocks.as_slice() else {
        panic!(rt; "not one block");
    };
    same_nodes(rt, block.decided(), nodes, "decided");
}

#[test]
fn decided_nodes_stand_in_order_of_their_depths(rt: HostRuntime) {
    decides(&rt, rt.alloc(), 40, &[]);
    decides(&rt, rt.alloc(), 41, &[1]);
    decides(&rt, rt.alloc(), 42, &[1, 0]);
}

// What is fresh in the trio after so many waves.
fn finds(rt: &impl Abort, alloc: Global, waves: u16, nodes: &[u64]) {
    let blocks = blocks_after(alloc, &TrioGraph, 1, waves).expect(rt, "blocks");
    let [block] = blocks.as_slice() else {
        panic!(rt; "not one block");
    };
    same(rt, u64::from(block.last_due()), 43, "last exit");
    holds(rt, block.settled() == (waves == 43), "settled");
    shows(rt, alloc, block, nodes);
}

#[test]
fn a_trio_finds_a_node_at_waves_6_9_and_10(rt: HostRuntime) {
    finds(&rt, rt.alloc(), 5, &[]);
    finds(&rt, rt.alloc(), 6, &[0]);
    finds(&rt, rt.alloc(), 7, &[]);
    finds(&rt, rt.alloc(), 9, &[1]);
    finds(&rt, rt.alloc(), 10, &[2]);
    finds(&rt, rt.alloc(), 42, &[]);
    finds(&rt, rt.alloc(), 43, &[]);
}
