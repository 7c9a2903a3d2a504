//! Lists of all sets of a number of points.
ghost use Rattle.std.specs.Prelude.{◌≡◌, ℕ, ◌+◌, ◌<◌, ◌≤◌, length, slice_index, IfOk};
ghost use Rattle.morris_index.specs.Binomials.{choose};
ghost use Rattle.morris_index.specs.Numbering.{IsRanked, AreRanked};

use crate::binomials::binomial;
use crate::ranks::{least, next_set};
use morris_board::points::Points;
use std::alloc::{AllocError, Global};

/// The masks of the sets of `count` of the points below `points`, in the order of their ranks. It
/// is made once, so that a set of free points is found from its rank in constant time.
#[derive(Drop)]
pub(crate) struct SetList {
    points: u8,
    count: u8,
    sets: Vec<u32>,
    ghost listed: { AreRanked points count sets.items },
}

impl SetList {
    /// The sets of `count` of the points below `points`.
    ///
    /// # Errors
    /// [`AllocError`] where memory runs out. No other call takes memory.
    pub(crate) fn make(alloc: Global, points: u8, count: u8) -> Result<SetList, AllocError>
        requires board { points ≤ 24 }
        requires few { count ≤ 9 }
        requires fits { count ≤ points }
        ensures points { IfOk result (λ list. list.points ≡ points) }
        ensures count { IfOk result (λ list. list.count ≡ count) }
    {
        let all = binomial(points, count);
        let mut sets = Vec::with_capacity(alloc, all as usize)?;
        let mut set = least(points, Points::EMPTY, count);
        for _index in 0..all {
            sets.push(set.mask())?;
            if let Some(next) = next_set(points, Points::EMPTY, set) {
                set = next;
            }
        }
        Ok(SetList {
            points,
            count,
            sets,
        })
    }

    /// The masks of the sets from a rank on.
    pub(crate) fn sets_from(&self, rank: u64) -> &[u32]
        requires { rank < choose self.now.points self.now.count }
        ensures len { rank + length result.now ≡ choose self.now.points self.now.count }
        ensures each { (place : ℕ) → place < length result.now → IsRanked self.now.points 0 self.now.count (rank + place) (slice_index result.now place) }
    {
        &self.sets[rank as usize..]
    }
}
