//! Blocks of a graph, taken from wave to wave by one thread.
ghost use Rattle.std.specs.Prelude.{◌≡◌, ◌≤◌, ◌<◌, ◌^◌, ◌+◌};

use morris_wave::{Applied, Batch, Block, Cut, Graph, Levels, scatter};
use std::alloc::Global;

/// So many blocks of a graph before the first wave, in the order of their numbers.
///
/// `None` where memory is refused, or where there can't be so many blocks.
pub fn blocks_of<G: Graph>(alloc: Global, graph: &G, parts: u64) -> Option<Vec<Block<G::Name>>> {
    let cut = Cut::new(graph.size(), parts).ok()?;
    let mut blocks = Vec::new(alloc);
    for number in 0..cut.blocks() {
        let block = Block::make(alloc, graph, &cut, number).ok()?;
        blocks.push(block).ok()?;
    }
    Some(blocks)
}

/// Takes complete blocks to the next wave.
///
/// `None` where one isn't complete.
pub fn advance<N: Levels>(blocks: &mut Vec<Block<N>>) -> Option<()> {
    for block in blocks.iter_mut() {
        block.advance().ok()?;
    }
    Some(())
}

/// The batches that a block of a graph sends.
///
/// `None` where memory is refused, or where the block is of another level.
pub fn batches_from<G: Graph>(
    alloc: Global,
    graph: &G,
    block: &Block<G::Name>,
) -> Option<Vec<Batch<G::Name>>> {
    if block.level() != graph.level() {
        return None;
    }
    let fresh = block.fresh(alloc).ok()?;
    scatter(alloc, graph, &fresh).ok()
}

/// Has each block take the batch at its place in.
///
/// `None` where one of them doesn't.
fn apply_all<N: Levels>(blocks: &mut [Block<N>], batches: &[Batch<N>]) -> Option<()> {
    for (target, batch) in blocks.iter_mut().zip(batches.iter()) {
        if target.apply(batch) != Applied::Done {
            return None;
        }
    }
    Some(())
}

/// Sends the batches of the block at a place to all.
///
/// `None` where memory is refused, or where one of them doesn't take its batch in.
pub fn send<G: Graph>(
    alloc: Global,
    graph: &G,
    blocks: &mut Vec<Block<G::Name>>,
    place: usize,
) -> Option<()> {
    let batches = batches_from(alloc, graph, blocks.get(place)?)?;
    apply_all(blocks.as_mut_slice(), batches.as_slice())
}

/// So many blocks of a graph after so many complete waves, in the order of their numbers.
///
/// `None` where memory is refused, or where there can't be so many blocks or waves.
pub fn blocks_after<G: Graph>(
    alloc: Global,
    graph: &G,
    parts: u64,
    waves: u16,
) -> Option<Vec<Block<G::Name>>> {
    let mut blocks = blocks_of(alloc, graph, parts)?;
    for _ in 0..waves {
        advance(&mut blocks)?;
        for place in 0..blocks.len() {
            send(alloc, graph, &mut blocks, place)?;
        }
    }
    Some(blocks)
}
