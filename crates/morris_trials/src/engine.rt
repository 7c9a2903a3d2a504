//! The calls on graphs and their blocks.
ghost use Rattle.std.specs.Prelude.{◌≡◌, ◌<◌};

use morris_engine_tests::printing::{mark, or_refused, print_answer};
use morris_engine_tests::{PairGraph, Pairs, advance, blocks_after};
use morris_wave::{Batch, Block, Cut, Graph, gather, scatter, sweep};
use morris_workers::{Tickets, Yard};
use std::alloc::Global;

/// Node 1 is won in 41 and node 0 lost in 42.
const PAIR: PairGraph = PairGraph {
    level: 0,
    refuses: false,
};

pub(crate) fn sweeps(rt: &impl Print, alloc: Global) -> Option<()> {
    mark(alloc)?;
    let first = sweep(alloc, &PAIR);
    mark(alloc)?;
    print_answer(rt, "sweep", "first", &first)?;
    print_answer(rt, "sweep", "again", &sweep(alloc, &PAIR))
}

pub(crate) fn makes_a_block(rt: &impl Print, alloc: Global) -> Option<()> {
    let cut = Cut::new(2, 2).ok()?;
    mark(alloc)?;
    let first = second_block(alloc, &cut);
    mark(alloc)?;
    print_answer(rt, "make", "first", &first)?;
    print_answer(rt, "make", "again", &second_block(alloc, &cut))
}

/// What block 1 of a cut shows.
fn second_block(alloc: Global, cut: &Cut) -> Result<Shown, &'static str>
    requires size { cut.now.size ≡ 2 }
    requires number { 1 < cut.now.blocks }
{
    or_refused(Block::make(alloc, &PAIR, cut, 1)).map(|block| shown(&block))
}

/// The wave of a block, whether it is complete, its last exit, and how many of its nodes are won,
/// lost and open.
type Shown = (u16, bool, u32, u64, u64, u64);

/// What a block shows.
fn shown(block: &Block<Pairs>) -> Shown {
    let tallies = block.tallies();
    let (won, lost, open) = (tallies.won, tallies.lost, tallies.undecided);
    (
        block.wave(),
        block.is_complete(),
        block.last_due(),
        won,
        lost,
        open,
    )
}

/// Block 1 at wave 42, with no source applied: node 1 is fresh there.
fn fresh_blocks(alloc: Global) -> Option<Vec<Block<Pairs>>> {
    let mut blocks = blocks_after(alloc, &PAIR, 2, 41)?;
    advance(&mut blocks)?;
    Some(blocks)
}

pub(crate) fn lists_fresh_nodes(rt: &impl Print, alloc: Global) -> Option<()> {
    let blocks = fresh_blocks(alloc)?;
    let block = blocks.get(1)?;
    mark(alloc)?;
    let first = block.fresh(alloc);
    mark(alloc)?;
    let first = or_refused(first);
    print_answer(
        rt,
        "fresh",
        "first",
        &first.as_ref().map(|fresh| fresh.nodes()),
    )?;
    println!(rt; "fresh after: {:?}", shown(block)).ok()?;
    let again = or_refused(block.fresh(alloc));
    print_answer(
        rt,
        "fresh",
        "again",
        &again.as_ref().map(|fresh| fresh.nodes()),
    )
}

/// The nodes of both batches.
fn tell_batches(
    rt: &impl Print,
    when: &str,
    answer: &Result<Vec<Batch<Pairs>>, &'static str>,
) -> Option<()> {
    match answer {
        Ok(batches) => {
            for batch in batches {
                println!(rt; "scatter {when}: {:?}", batch.nodes()).ok()?;
            }
            Some(())
        }
        Err(fault) => println!(rt; "scatter {when}: {fault}").ok(),
    }
}

pub(crate) fn scatters(rt: &impl Print, alloc: Global) -> Option<()> {
    let blocks = fresh_blocks(alloc)?;
    let block = blocks.get(1)?;
    if block.level() != PAIR.level() {
        return None;
    }
    let fresh = block.fresh(alloc).ok()?;
    mark(alloc)?;
    let first = scatter(alloc, &PAIR, &fresh);
    mark(alloc)?;
    tell_batches(rt, "first", &or_refused(first))?;
    println!(rt; "scatter after: {:?} {:?}", shown(block), fresh.nodes()).ok()?;
    let again = scatter(alloc, &PAIR, &fresh);
    tell_batches(rt, "again", &or_refused(again))
}

pub(crate) fn gathers(rt: &impl Print, alloc: Global) -> Option<()> {
    let cut = Cut::new(2, 2).ok()?;
    let blocks = blocks_after(alloc, &PAIR, 2, 43)?;
    mark(alloc)?;
    let first = gather(alloc, 0, 43, &cut, &blocks);
    mark(alloc)?;
    print_answer(rt, "gather", "first", &first)?;
    print_answer(rt, "gather", "again", &gather(alloc, 0, 43, &cut, &blocks))
}

/// How many blocks a yard of these gives back.
fn given_back(yard: Yard<Pairs>) -> usize {
    yard.into_blocks().len()
}

pub(crate) fn makes_a_yard(rt: &impl Print, alloc: Global) -> Option<()> {
    let blocks = blocks_after(alloc, &PAIR, 2, 0)?;
    let others = blocks_after(alloc, &PAIR, 2, 0)?;
    mark(alloc)?;
    let first = Yard::new(alloc, blocks);
    mark(alloc)?;
    print_answer(rt, "yard", "first", &or_refused(first).map(given_back))?;
    let again = Yard::new(alloc, others);
    print_answer(rt, "yard", "again", &or_refused(again).map(given_back))
}

pub(crate) fn makes_tickets(rt: &impl Print, alloc: Global) -> Option<()> {
    mark(alloc)?;
    let first = seat_count(alloc);
    mark(alloc)?;
    print_answer(rt, "tickets", "first", &first)?;
    print_answer(rt, "tickets", "again", &seat_count(alloc))
}

/// How many seats are made that share five tickets.
fn seat_count(alloc: Global) -> Result<usize, &'static str> {
    or_refused(Tickets::new(alloc, 5, 4)).map(|made| made.1.len())
}
