//! Blocks behind locks, one for each.
ghost use Rattle.std.specs.Prelude.{◌≡◌, ℕ, ◌<◌, ◌≤◌, IfOk, IfSome, vec_len};
ghost use Rattle.std.specs.Sync.Mutex.{mutex_guard_value};
ghost use Rattle.morris_wave.specs.Blocks.{IsBlock};
ghost use Rattle.morris_workers.specs.Exact.{IsExact};

use morris_wave::{Block, Levels, NodeList};
use std::alloc::{AllocError, Global};
use std::marker::Model;
use std::sync::{Mutex, MutexGuard, Wait};

/// Blocks of a graph, each behind a lock of its own, with lists of the kind `L`.
///
/// Contracts see a yard as the number of its locks, which are counted from 0.
#[derive(Drop)]
pub struct Yard<N: Levels, L: NodeList = Vec<u64>> {
    locks: Vec<Mutex<Block<N, L>>>,
    // The vector that the blocks came in, emptied: its room is for when they are given back.
    home: Vec<Block<N, L>>,
}

impl<N: Levels, L: NodeList> Model for Yard<N, L> {
    ghost use Rattle.std.specs.Prelude.{◌≡◌, ◌≤◌, ℕ, vec_len, vec_capacity};

    ghost Value = { ℕ };

    ghost view = { λ y. vec_len y.locks };

    ghost invariant = { λ y. (vec_len y.home ≡ 0) × (vec_len y.locks ≤ vec_capacity y.home) };
}

// Looks at the block of a guard. Of what stands behind a lock nothing is known but what holds of
// every block, and the block states that to whoever asks for its cut.
fn with_facts<N: Levels, L: NodeList>(
    guard: MutexGuard<'_, Block<N, L>>,
) -> MutexGuard<'_, Block<N, L>>
    ensures block { IsBlock (N.net (mutex_guard_value result).level) (mutex_guard_value result) }
    ensures exact { IsExact (N.net (mutex_guard_value result).level) (mutex_guard_value result) }
{
    let _ = guard.cut();
    guard
}

impl<N: Levels, L: NodeList> Yard<N, L> {
    /// Puts each block behind a lock, in the same order.
    ///
    /// # Errors
    ///
    /// `AllocError` where memory is refused; the blocks are then dropped.
    pub fn new(alloc: Global, mut blocks: Vec<Block<N, L>>) -> Result<Yard<N, L>, AllocError>
        ensures { IfOk result (λ y. y ≡ vec_len blocks) }
    {
        let mut locks = Vec::with_capacity(alloc, blocks.len())?;
        blocks.reverse();
        while let Some(block) = blocks.pop() {
            locks.push(Mutex::new(block))?;
        }
        Ok(Yard {
            locks,
            home: blocks,
        })
    }

    /// How many locks there are.
    pub fn count(&self) -> usize
        ensures { result ≡ self.now }
    {
        self.locks.len()
    }

    /// Waits until block `k` is free, and locks it until the guard is dropped.
    ///
    /// Whoever gets a guard, at whatever moment, finds one of the blocks into which the graph of
    /// its level is cut, at one of the waves from 0 to 65,534. Of any such block [`Block::code`]
    /// and [`Block::tallies`] answer what its wave and its applied sources say: an entry that is
    /// there is the code of its node, and the tallies count the entries.
    pub fn lock<R: Wait>(&self, rt: &R, k: usize) -> MutexGuard<'_, Block<N, L>>
        requires { k < self.now }
        // What is said of all blocks of a graph, at every wave and whatever is applied, holds of
        // this one with no test but that of its level.
        ensures block { IsBlock (N.net (mutex_guard_value result).level) (mutex_guard_value result) }
        // And its entries are right for that graph.
        ensures exact { IsExact (N.net (mutex_guard_value result).level) (mutex_guard_value result) }
    {
        with_facts(self.locks[k].lock(rt))
    }

    /// Locks block `k` if it is free, and waits for nobody.
    ///
    /// The block is then as `lock` finds it.
    pub fn try_lock(&self, k: usize) -> Option<MutexGuard<'_, Block<N, L>>>
        requires { k < self.now }
        ensures block { IfSome result (λ guard. IsBlock (N.net (mutex_guard_value guard).level) (mutex_guard_value guard)) }
        ensures exact { IfSome result (λ guard. IsExact (N.net (mutex_guard_value guard).level) (mutex_guard_value guard)) }
    {
        let guard = self.locks[k].try_lock()?;
        Some(with_facts(guard))
    }

    /// Gives the blocks back, in their order. It takes no memory and waits for nobody.
    pub fn into_blocks(self) -> Vec<Block<N, L>>
        ensures { vec_len result ≡ self }
    {
        let Yard {
            mut locks,
            mut home,
        } = self;
        while let Some(lock) = locks.pop() {
            let Ok(()) = home.push(lock.into_inner()) else {
                unreachable!()
            };
        }
        home.reverse();
        home
    }
}
