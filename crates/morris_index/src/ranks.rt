//! Ranks of sets of points.
ghost use Rattle.std.specs.Prelude.{◌≡◌, ℕ, suc, ◌<◌, ◌≤◌, ◌^◌, true, false, nat_lt, length, filter, map, MatchOption};
ghost use Rattle.morris_board.specs.Sets.{has, members, count_of};
ghost use Rattle.morris_index.specs.Binomials.{choose};
ghost use Rattle.morris_index.specs.Numbering.{rank_of, number_outside, IsRanked};
ghost use Rattle.morris_index.specs.Parts.{squeeze_below};

use crate::binomials::{binomial, highest_point};
use morris_board::points::Points;

/// The rank of `set` among the sets of as many points.
#[inline]
pub fn rank(set: Points) -> u64
    requires board { set < 2 ^ 24 }
    requires few { count_of set ≤ 9 }
    ensures value { result ≡ rank_of (map (number_outside 0) (members set)) }
    ensures few { result < 2 ^ 25 }
{
    rank_outside(set, Points::EMPTY)
}

/// The rank of `set` among the sets of as many points that have none in common with `outside`.
#[inline]
pub fn rank_outside(set: Points, outside: Points) -> u64
    requires board { set < 2 ^ 24 }
    requires few { count_of set ≤ 9 }
    ensures value { result ≡ rank_of (map (number_outside outside) (members set)) }
    ensures few { result < 2 ^ 25 }
{
    let mut rank = 0;
    let mut place = 0;
    for point in set.iter() {
        place += 1;
        rank += binomial(number_outside(outside, point), place);
    }
    rank
}

/// The set of the points outside `outside` that have these numbers there.
pub(crate) fn spread(numbers: Points, outside: Points) -> Points
    requires board { outside < 2 ^ 24 }
    requires fits { numbers < 2 ^ number_outside outside 24 }
    ensures within { result < 2 ^ 24 }
    ensures apart { (p : ℕ) → has result p ≡ true → has outside p ≡ false }
    ensures squeeze { squeeze_below outside result 24 ≡ numbers }
{
    let mut spread = numbers.mask();
    // Each point of `outside` moves up by one what stands there or past it.
    for point in outside.iter() {
        spread += spread >> point << point;
    }
    Points::from_mask(spread)
}

/// The number of `point` among the points that aren't in `outside`, in ascending order.
pub(crate) fn number_outside(outside: Points, point: u8) -> u8
    requires { point < 32 }
    ensures { result ≡ number_outside outside point }
{
    point - outside.count_below(point)
}

/// The set of `count` points below `points`, none of them in `outside`, that has this rank.
pub(crate) fn unrank(points: u8, outside: Points, count: u8, rank: u64) -> Points
    requires board { points ≤ 24 }
    requires within { outside < 2 ^ points }
    requires few { count ≤ 9 }
    requires small { rank < choose (number_outside outside points) count }
    ensures { IsRanked points outside count rank result }
{
    // The numbers of the points outside `outside`, from the highest one down.
    let mut numbers = Points::EMPTY;
    let mut left = count;
    let mut rest = rank as u32;
    while left > 1 {
        let (number, lower) = highest_point(left, rest);
        numbers = numbers.with(number);
        rest = lower;
        left -= 1;
    }
    // The rank of a set of one point is the point.
    if left == 1 {
        numbers = numbers.with(rest as u8);
    }
    spread(numbers, outside)
}

/// The set of the least `count` points below `end` that aren't in `outside`.
pub(crate) fn least(end: u8, outside: Points, count: u8) -> Points
    requires board { end < 32 }
    requires fits { count ≤ number_outside outside end }
    ensures { IsRanked end outside count 0 result }
{
    let mut found = Points::EMPTY;
    let mut left = count;
    for point in 0..end {
        if left == 0 {
            return found;
        }
        if !outside.has(point) {
            found = found.with(point);
            left -= 1;
        }
    }
    found
}

/// The set of as many points below `points`, none of them in `outside`, that comes next in the
/// order of ranks.
pub(crate) fn next_set(points: u8, outside: Points, set: Points) -> Option<Points>
    requires board { points ≤ 24 }
    requires within { set < 2 ^ points }
    requires apart { (p : ℕ) → has set p ≡ true → has outside p ≡ false }
    ensures { MatchOption result
        (suc (rank_of (map (number_outside outside) (members set))) ≡ choose (number_outside outside points) (count_of set))
        (λ next. IsRanked points outside (count_of set) (suc (rank_of (map (number_outside outside) (members set)))) next) }
{
    let first = set.first()?;
    // The free points above the set's first one.
    let free = Points::below(points)
        .difference(Points::below(first))
        .difference(set)
        .difference(outside);
    let point = free.first()?;
    let least = least(point, outside, set.count_below(point) - 1);
    Some(
        set.difference(Points::below(point))
            .with(point)
            .union(least),
    )
}
