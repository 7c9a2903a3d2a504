//! The rank of a set once a stone has moved, from sums over the stones of the set.
ghost use Rattle.std.specs.Prelude.{◌≡◌, ◌+◌, ◌<◌, ◌≤◌, ◌^◌, true, false, map};
ghost use Rattle.morris_board.specs.Sets.{has, members, count_of, with_point, without_point};
ghost use Rattle.morris_index.specs.Numbering.{rank_of, number_outside};
ghost use Rattle.morris_index.specs.Sums.{AreKept, moved_end, renumbered_end};

use crate::binomials::binomial;
use crate::ranks::number_outside;
use morris_board::points::Points;

/// What is added to each difference that is kept, so that none is below 0.
const BIAS: u64 = 33_554_432;

/// Sums over the stones of a set, from which its rank is found once one of them has moved, or one
/// of the stones outside which it is numbered. Those between the two points stand a place later in
/// it, or get the number before their own, where that stone goes to a lesser point; and a place
/// earlier, or the number after, where it goes to a greater one.
#[derive(Clone, Copy)]
pub(crate) struct KeptSums {
    /// For each number of stones, what the first so many of them add to the rank less what they add
    /// where a stone goes to a lesser point past them, and [`BIAS`].
    lower: [u32; 10],
    /// For each number of stones, what the first so many of them add where a stone goes to a
    /// greater point past them less what they add to the rank, and [`BIAS`].
    higher: [u32; 10],
    /// The rank of the set.
    pub(crate) rank: u64,
}

impl KeptSums {
    /// The sums of `set`, numbered outside `outside`, for a stone of its own that moves where
    /// `moved` is 1, and for one of the others where it is 0.
    pub(crate) fn of(set: Points, outside: Points, moved: u8) -> KeptSums
        requires board { set < 2 ^ 24 }
        requires few { count_of set ≤ 9 }
        requires moved { moved ≤ 1 }
        ensures { AreKept moved outside set result }
    {
        let mut lower = [BIAS as u32; 10];
        let mut higher = [BIAS as u32; 10];
        let mut rank = 0;
        let mut rank_lower = 0;
        let mut rank_higher = 0;
        let mut place = 0;
        let renumbered = 1 - moved;
        for point in set.iter() {
            place += 1;
            let number = number_outside(outside, point);
            rank += binomial(number, place);
            rank_lower += binomial(number.saturating_sub(renumbered), place + moved);
            rank_higher += binomial(number + renumbered, place - moved);
            lower[place as usize] = ((BIAS + rank) - rank_lower) as u32;
            higher[place as usize] = ((BIAS + rank_higher) - rank) as u32;
        }
        KeptSums {
            lower,
            higher,
            rank,
        }
    }

    /// What `point` and the stones of `set`, the set of these sums, below it come to where a stone
    /// of it goes to a lesser point, or else to a greater one: added for the point that it goes to,
    /// and taken away for the one that it leaves.
    // Inlined, so that each caller's loop has the sums of one way alone.
    #[inline(always)]
    pub(crate) fn moved_end(&self, outside: Points, set: Points, point: u8, lower: bool) -> u64
        requires sums { AreKept 1 outside set self.now }
        requires board { set < 2 ^ 24 }
        requires few { count_of set ≤ 9 }
        requires point { point < 24 }
        ensures value { result ≡ moved_end lower outside set point }
        ensures few { result ≤ 1200000000 }
    {
        let place = set.count_below(point);
        let number = number_outside(outside, point);
        if lower {
            u64::from(self.lower[place as usize]) + binomial(number, place + 1)
        } else {
            u64::from(self.higher[place as usize]) + binomial(number, place)
        }
    }

    /// The rank of `set`, the set of these sums, once its stone on `from` has gone to `to`.
    pub(crate) fn rank(&self, outside: Points, set: Points, from: u8, to: u8) -> u64
        requires sums { AreKept 1 outside set self.now }
        requires board { set < 2 ^ 24 }
        requires few { count_of set ≤ 9 }
        requires start { has set from ≡ true }
        requires end { has set to ≡ false }
        requires from { from < 24 }
        requires to { to < 24 }
        ensures { result ≡ rank_of (map (number_outside outside) (members (with_point (without_point set from) to))) }
    {
        if to < from {
            (self.rank + self.moved_end(outside, set, to, true))
                - self.moved_end(outside, set, from, true)
        } else {
            (self.rank + self.moved_end(outside, set, to, false))
                - self.moved_end(outside, set, from, false)
        }
    }

    /// What the stones of `set`, the set of these sums, below `point` come to where a stone outside
    /// which they are numbered goes to a lesser point, or else to a greater one: added for the
    /// point that it goes to, and taken away for the one that it leaves.
    #[inline(always)]
    pub(crate) fn renumbered_end(&self, outside: Points, set: Points, point: u8, lower: bool) -> u64
        requires sums { AreKept 0 outside set self.now }
        requires board { set < 2 ^ 24 }
        requires few { count_of set ≤ 9 }
        requires point { point < 24 }
        ensures value { result ≡ renumbered_end lower outside set point }
        ensures few { result ≤ 1200000000 }
    {
        let place = set.count_below(point);
        if lower {
            u64::from(self.lower[place as usize])
        } else {
            u64::from(self.higher[place as usize])
        }
    }
}
