ghost use Rattle.std.specs.Prelude.{◌≡◌, ◌<◌, ◌≤◌, ◌^◌};

use crate::checks::{holds, same, same_codes, same_nodes};
use crate::pairs::{PairGraph, Pairs};
use crate::runs::{advance, batches_from, blocks_after, send};
use morris_wave::{
    AdvanceFault, Applied, Batch, Block, Cut, GatherFault, Graph, gather, gather_from,
    scatter_reusing,
};
use std::alloc::Global;
use std::process::Abort;

const PAIR: PairGraph = PairGraph {
    level: 7,
    refuses: false,
};

// The two blocks of the pair graph at wave 42, with no source applied: node 1, which is won in 41,
// is fresh in block 1.
fn blocks_at_42(alloc: Global) -> Option<Vec<Block<Pairs>>> {
    let mut blocks = blocks_after(alloc, &PAIR, 2, 41)?;
    advance(&mut blocks)?;
    Some(blocks)
}

// The batches of block 1.
fn batches_of(alloc: Global, blocks: &[Block<Pairs>]) -> Option<Vec<Batch<Pairs>>> {
    batches_from(alloc, &PAIR, blocks.get(1)?)
}

// The same in the lists that are at hand.
fn batches_reusing(
    alloc: Global,
    blocks: &[Block<Pairs>],
    spare: &mut Vec<Vec<u64>>,
) -> Option<Vec<Batch<Pairs>>> {
    let block = blocks.get(1)?;
    if block.level() != 7 {
        return None;
    }
    let fresh = block.fresh(alloc).ok()?;
    scatter_reusing(alloc, &PAIR, &fresh, spare).ok()
}

// Node 0 leads to the fresh node, and is in the first batch.
fn lead_to_node_0(rt: &impl Abort, batches: &[Batch<Pairs>]) {
    let [left, right] = batches else {
        panic!(rt; "not two batches");
    };
    same_nodes(rt, left.nodes(), &[0], "batch for block 0");
    same_nodes(rt, right.nodes(), &[], "batch for block 1");
}

// What block 0 answers to the first batch, after which node 0 is lost in 42.
fn answers(rt: &impl Abort, blocks: &mut [Block<Pairs>], batches: &[Batch<Pairs>], want: Applied) {
    let ([left, _], [batch, _]) = (blocks, batches) else {
        panic!(rt; "not two of each");
    };
    holds(rt, left.apply(batch) == want, "answer");
    same(rt, left.tallies().lost, 1, "lost nodes");
    let range = left.range();
    assert!(rt; range.start == 0 && range.end == 1);
    same(rt, u64::from(left.code(0)), 43, "code");
}

#[test]
fn a_batch_takes_a_loss_to_the_node_before(rt: HostRuntime) {
    let mut blocks = blocks_at_42(rt.alloc()).expect(&rt, "blocks");
    let batches = batches_of(rt.alloc(), &blocks).expect(&rt, "batches");
    lead_to_node_0(&rt, &batches);
    answers(&rt, &mut blocks, &batches, Applied::Done);
    answers(&rt, &mut blocks, &batches, Applied::Again);
    let sent = send(rt.alloc(), &PAIR, &mut blocks, 0);
    holds(&rt, sent.is_some(), "sent");
    let left = blocks.get_mut(0).expect(&rt, "block 0");
    holds(&rt, left.advance().is_ok(), "went on");
    let refused = matches!(left.advance(), Err(AdvanceFault::NotComplete));
    holds(&rt, refused, "refused");
    answers(&rt, &mut blocks, &batches, Applied::Stranger);
}

// Three lists with a node each.
fn three_lists(alloc: Global) -> Option<Vec<Vec<u64>>> {
    let mut lists = Vec::new(alloc);
    for node in 7..10u64 {
        let mut list = Vec::new(alloc);
        list.push(node).ok()?;
        lists.push(list).ok()?;
    }
    Some(lists)
}

#[test]
fn lists_of_batches_are_used_again(rt: HostRuntime) {
    let blocks = blocks_at_42(rt.alloc()).expect(&rt, "blocks");
    // Of three lists two are taken, whatever is in them.
    let mut spare = three_lists(rt.alloc()).expect(&rt, "lists");
    let mut batches = batches_reusing(rt.alloc(), &blocks, &mut spare).expect(&rt, "batches");
    same(&rt, spare.len() as u64, 1, "lists left");
    lead_to_node_0(&rt, &batches);
    batches.truncate(1);
    let left = batches.pop().expect(&rt, "a batch");
    same_nodes(&rt, &left.into_nodes(), &[0], "list given back");
}

// The codes of the pair graph in so many blocks after so many waves, and whether all are settled.
fn gathers(
    rt: &impl Abort,
    alloc: Global,
    parts: u64,
    waves: u16,
    codes: &[u16],
    is_settled: bool,
) {
    let cut = Cut::new(2, parts).expect(rt, "a cut");
    let blocks = blocks_after(alloc, &PAIR, parts, waves).expect(rt, "blocks");
    let are_settled = blocks.iter().all(|block| block.settled());
    holds(rt, are_settled == is_settled, "settled");
    let gathered = gather(alloc, 7, waves, &cut, &blocks).expect(rt, "codes");
    same_codes(rt, &gathered, codes, "gathered");
    let taken = gather_from(alloc, 7, waves, &cut, blocks).expect(rt, "codes");
    same_codes(rt, &taken, codes, "taken");
}

#[test]
fn two_blocks_are_settled_first_at_wave_43(rt: HostRuntime) {
    // Node 1 is won in 41 and node 0 lost in 42; waves 0 to 40 decide nothing.
    gathers(&rt, rt.alloc(), 2, 0, &[0, 0], false);
    gathers(&rt, rt.alloc(), 2, 40, &[0, 0], false);
    gathers(&rt, rt.alloc(), 2, 41, &[0, 42], false);
    gathers(&rt, rt.alloc(), 2, 42, &[43, 42], false);
    gathers(&rt, rt.alloc(), 2, 43, &[43, 42], true);
    // Three of five blocks are empty.
    gathers(&rt, rt.alloc(), 5, 43, &[43, 42], true);
}

// The first of two blocks of the pair graph after so many waves, and those of another list.
fn first_and(alloc: Global, level: u64, waves: u16) -> Option<Vec<Block<Pairs>>> {
    let mut blocks = blocks_after(alloc, &PAIR, 2, 43)?;
    blocks.truncate(1);
    let other = PairGraph {
        level,
        refuses: false,
    };
    blocks
        .append(&mut blocks_after(alloc, &other, 2, waves)?)
        .ok()?;
    Some(blocks)
}

// What is wrong with blocks at a wave.
fn is_reported(
    rt: &impl Abort,
    alloc: Global,
    wave: u16,
    blocks: &[Block<Pairs>],
    want: GatherFault,
) {
    let cut = Cut::new(2, 2).expect(rt, "a cut");
    let answer = gather(alloc, 7, wave, &cut, blocks);
    holds(rt, matches!(&answer, Err(fault) if *fault == want), "fault");
}

#[test]
fn gather_says_which_block_is_missing(rt: HostRuntime) {
    let mut blocks = blocks_after(rt.alloc(), &PAIR, 2, 43).expect(&rt, "blocks");
    is_reported(&rt, rt.alloc(), 42, &blocks, GatherFault::Missing(0));
    blocks.truncate(1);
    is_reported(&rt, rt.alloc(), 43, &blocks, GatherFault::Missing(1));
}

#[test]
fn gather_says_which_block_is_of_another_build_or_came_twice(rt: HostRuntime) {
    let foreign = first_and(rt.alloc(), 8, 0).expect(&rt, "blocks of another level");
    is_reported(&rt, rt.alloc(), 43, &foreign, GatherFault::Foreign(1));
    let twice = first_and(rt.alloc(), 7, 43).expect(&rt, "blocks");
    is_reported(&rt, rt.alloc(), 43, &twice, GatherFault::Double(0));
}
