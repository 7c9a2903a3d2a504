//! What a build runs with: threads, memory, workers and blocks.
ghost use Rattle.std.specs.Prelude.{◌≡◌, None, Some, MatchResult, option_map};
ghost use Rattle.morris_workers.specs.Ranges.{range_fault};
ghost use Rattle.morris_jobs.specs.Faults.{solve_fault};

use crate::fault::Fault;
use morris_workers::check_numbers;
use std::alloc::Global;

/// How many workers build, and over how many blocks; both in range.
#[derive(Clone, Copy, Debug, PartialEq, Eq)]
pub struct Parallelism {
    /// 1 to 64.
    pub workers: usize,
    /// 1 to 1,024.
    pub blocks: usize,
    ghost in_range: { range_fault workers blocks ≡ None },
}

impl Parallelism {
    /// So many workers, over so many blocks.
    ///
    /// # Errors
    /// [`Fault::Workers`] where there aren't 1 to 64 workers, else [`Fault::Blocks`] where there
    /// aren't 1 to 1,024 blocks.
    pub fn new(workers: usize, blocks: usize) -> Result<Parallelism, Fault>
        ensures { MatchResult result (λ parallelism. (parallelism.workers ≡ workers) × (parallelism.blocks ≡ blocks) × (range_fault workers blocks ≡ None))
            (λ refused. option_map solve_fault (range_fault workers blocks) ≡ Some refused) }
    {
        check_numbers(workers, blocks)?;
        Ok(Parallelism { workers, blocks })
    }
}

/// What a build runs with: the runtime that starts its threads, the allocator, and how many workers
/// and blocks there are.
#[derive_where(Clone, Copy)]
pub struct Context<'a, R> {
    /// The runtime, which starts the threads.
    pub rt: &'a R,
    /// The allocator.
    pub alloc: Global,
    /// How many workers and blocks there are.
    pub parallelism: Parallelism,
}
