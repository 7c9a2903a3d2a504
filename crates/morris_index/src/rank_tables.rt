//! The table of ranks: what each half of the board's points adds to the rank of a set.
ghost use Rattle.std.specs.Prelude.{◌≡◌, ℕ, ◌+◌, ◌-◌, ◌*◌, ◌<◌, ◌≤◌, ◌^◌, true, false, map, IfOk};
ghost use Rattle.morris_board.specs.Sets.{has, members, count_of};
ghost use Rattle.morris_index.specs.Numbering.{count_below, rank_of, number_outside};
ghost use Rattle.morris_index.specs.Parts.{part_rank, squeeze_below, IsRankTable};

use crate::binomials::binomial;
use crate::rings::{Outside, RingTable};
use morris_board::points::Points;
use std::alloc::{AllocError, Global};
use std::marker::Model;

/// How many sums the table has: eleven rows of 4,096, one sum for each half of a set.
const SUMS: u32 = 45056;

/// What each half of a set adds to its rank: in the first row that of the points 0 to 11, and in
/// the further ones that of the points 12 to 23 of sets of 0, 1, .. 9 points. It is made once, so
/// that the rank of a set takes two look-ups, and for sets of as many points always in the same two
/// rows.
#[derive(Drop)]
pub(crate) struct RankTable {
    sums: Vec<u32>,
    /// The numbers of points outside a set, by which sets outside it are ranked.
    rings: RingTable,
    ghost full: { IsRankTable sums.items },
}

/// What a half adds to a rank, where `place` points of the set stand below it; 0 where more than
/// nine points stand up to its end.
fn half_rank(half: u8, place: u8, points: u32) -> u32
    requires half { half < 2 }
    requires points { points < 4096 }
    requires place { place ≤ 9 }
    ensures { place + count_below (has points) 12 ≤ 9 → result ≡ part_rank (12 * half) 12 place points }
{
    let set = Points::from_mask(points);
    if place + set.count() > 9 {
        return 0;
    }
    let mut rank = 0;
    let mut placed = place;
    for point in set.iter() {
        placed += 1;
        rank += binomial(12 * half + point, placed);
    }
    rank as u32
}

/// What the points 12 to 23 of a set of `count` points add to its rank; 0 where they are more.
fn upper_rank(count: u8, points: u32) -> u32
    requires count { count ≤ 9 }
    requires points { points < 4096 }
    ensures { count_below (has points) 12 ≤ count → result ≡ part_rank 12 12 (count - count_below (has points) 12) points }
{
    let own = Points::from_mask(points).count();
    if own > count {
        return 0;
    }
    half_rank(1, count - own, points)
}

impl RankTable {
    /// The table.
    ///
    /// # Errors
    /// [`AllocError`] where memory runs out. No other call takes memory.
    pub(crate) fn make(alloc: Global) -> Result<RankTable, AllocError> {
        let mut sums = Vec::with_capacity(alloc, SUMS as usize)?;
        for at in 0..SUMS {
            let sum = if at < 4096 {
                half_rank(0, 0, at)
            } else {
                upper_rank((at / 4096 - 1) as u8, at % 4096)
            };
            sums.push(sum)?;
        }
        Ok(RankTable {
            sums,
            rings: RingTable::make(alloc)?,
        })
    }

    /// The rows by which sets of `count` points are ranked.
    pub(crate) fn rows(&self, count: u8) -> RankRows<'_>
        requires { count ≤ 9 }
        ensures { result ≡ count }
    {
        let upper = (1 + usize::from(count)) * 4096;
        RankRows {
            count,
            lower: &self.sums[..4096],
            upper: &self.sums[upper..upper + 4096],
        }
    }

    /// The numbers of the points of `set` outside another set.
    pub(crate) fn numbers(&self, set: Points, outside: Outside) -> Points
        requires { set < 2 ^ 24 }
        ensures { result ≡ squeeze_below outside set 24 }
    {
        self.rings.squeeze(set, outside)
    }

    /// The rank of `set` among the sets of as many points, which are `count`, that have none in
    /// common with `outside`.
    pub(crate) fn rank_outside(&self, set: Points, count: u8, outside: Outside) -> u64
        requires board { set < 2 ^ 24 }
        requires counted { count ≡ count_of set }
        requires few { count_of set ≤ 9 }
        requires apart { (p : ℕ) → has set p ≡ true → has outside p ≡ false }
        ensures { result ≡ rank_of (map (number_outside outside) (members set)) }
    {
        self.rows(count).rank(self.rings.squeeze(set, outside))
    }
}

/// The two rows of the table by which sets of one number of points are ranked.
#[derive(Drop)]
pub(crate) struct RankRows<'a> {
    /// How many points the sets have.
    count: u8,
    /// What the points 0 to 11 add to a rank.
    lower: &'a [u32],
    /// What the points 12 to 23 add to it.
    upper: &'a [u32],
}

impl<'a> Model for RankRows<'a> {
    ghost use Rattle.std.specs.Prelude.{ℕ};
    ghost use Rattle.morris_index.specs.Parts.{AreRankRows};

    ghost Value = { ℕ };

    ghost view = { λ rows. rows.count };

    ghost invariant = { λ rows. AreRankRows rows.count rows.lower.now rows.upper.now };
}

impl<'a> RankRows<'a> {
    /// The rank of `set` among the sets of as many points.
    pub(crate) fn rank(&self, set: Points) -> u64
        requires board { set < 2 ^ 24 }
        requires counted { count_of set ≡ self.now }
        ensures { result ≡ rank_of (map (number_outside 0) (members set)) }
    {
        let lower = set.mask() % 4096;
        let upper = set.mask() / 4096;
        u64::from(self.lower[lower as usize]) + u64::from(self.upper[upper as usize])
    }
}
