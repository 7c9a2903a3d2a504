ghost use Rattle.std.specs.Prelude.{◌≡◌, ◌<◌};

use crate::checks::{holds, same};
use crate::pairs::{PairGraph, Pairs};
use crate::runs::blocks_of;
use morris_wave::Block;
use morris_workers::Yard;
use std::alloc::Global;
use std::process::Abort;

const PAIR: PairGraph = PairGraph {
    level: 0,
    refuses: false,
};

// The pair graph in two blocks, each behind its lock.
fn yard_of_two(alloc: Global) -> Option<Yard<Pairs>> {
    Yard::new(alloc, blocks_of(alloc, &PAIR, 2)?).ok()
}

#[test]
fn block_is_free_beside_one_that_is_held(rt: HostRuntime) {
    let yard = yard_of_two(rt.alloc()).expect(&rt, "a yard");
    assert_eq!(rt; yard.count(), 2);
    let held = yard.lock(&rt, 0);
    same(&rt, held.number(), 0, "held");
    let other = yard.try_lock(1).expect(&rt, "block 1");
    same(&rt, other.number(), 1, "other");
    holds(&rt, yard.try_lock(0).is_none(), "not free");
    drop(held);
    holds(&rt, yard.try_lock(0).is_some(), "free again");
}

// The number and the wave of a block.
fn is_at(rt: &impl Abort, block: &Block<Pairs>, number: u64, wave: u16) {
    same(rt, block.number(), number, "number");
    same(rt, u64::from(block.wave()), u64::from(wave), "wave");
}

#[test]
fn blocks_come_back_in_order(rt: HostRuntime) {
    let yard = yard_of_two(rt.alloc()).expect(&rt, "a yard");
    assert_eq!(rt; yard.count(), 2);
    let advanced = yard.lock(&rt, 1).advance();
    holds(&rt, advanced.is_ok(), "went on");
    let blocks = yard.into_blocks();
    let [left, right] = blocks.as_slice() else {
        panic!(rt; "not two blocks");
    };
    is_at(&rt, left, 0, 0);
    is_at(&rt, right, 1, 1);
}
