//! Sets of points of a board.
ghost use Rattle.std.specs.Prelude.{◌≡◌, ℕ, ◌<◌, ◌≤◌, ◌^◌, length, List, [], ◌∷◌, filter, drop, nat_lt, true, not, ◌&&◌, ◌||◌, IfSome, MatchOption};
ghost use Rattle.std.specs.Iterator.{YieldsFirst, item_count};
ghost use Rattle.morris_board.specs.Sets.{has, members, count_of, with_point, without_point, is_subset};

use std::marker::Model;

/// A set of points of a board as a mask: bit `p` stands for point `p`. Points are below 32.
#[derive(Clone, Copy, PartialEq, Eq, Debug)]
pub struct Points {
    mask: u32,
}

impl Model for Points {
    ghost Value = { ℕ };

    ghost view = { λ points. points.mask };

    ghost invariant = { λ points. points.mask < 2 ^ 32 };

    ghost inverse = { λ n. record { mask = n } };
}

impl Points {
    /// The set with no point.
    pub const EMPTY: Points = Points { mask: 0 };

    /// The set of the points whose bits are set in `mask`.
    pub fn from_mask(mask: u32) -> Points
        ensures { result ≡ mask }
    {
        Points { mask }
    }

    /// The mask of the set: bit `p` is set where the set has point `p`.
    pub fn mask(self) -> u32
        ensures { result ≡ self }
    {
        self.mask
    }

    /// Whether the set has `point`.
    pub fn has(self, point: u8) -> bool
        requires { point < 32 }
        ensures { result ≡ has self point }
    {
        (self.mask >> point) & 1 == 1
    }

    /// How many points the set has.
    pub fn count(self) -> u8
        ensures value { result ≡ count_of self }
        ensures few { result ≤ 32 }
    {
        self.mask.count_ones() as u8
    }

    /// How many points of the set are below `point`.
    pub fn count_below(self, point: u8) -> u8
        requires { point < 32 }
        ensures { result ≡ length (filter (λ p. nat_lt p point) (members self)) }
    {
        (self.mask & ((1 << point) - 1)).count_ones() as u8
    }

    /// The set and `point`.
    pub fn with(self, point: u8) -> Points
        requires { point < 32 }
        ensures { result ≡ with_point self point }
    {
        Points {
            mask: self.mask | 1 << point,
        }
    }

    /// The set without `point`.
    pub fn without(self, point: u8) -> Points
        requires { point < 32 }
        ensures { result ≡ without_point self point }
    {
        Points {
            mask: self.mask & !(1 << point),
        }
    }

    /// The points below `count`.
    pub fn below(count: u8) -> Points
        requires { count < 32 }
        ensures { (p : ℕ) → has result p ≡ nat_lt p count }
    {
        Points {
            mask: (1 << count) - 1,
        }
    }

    /// The points of this set and those of `other`.
    pub fn union(self, other: Points) -> Points
        ensures { (p : ℕ) → has result p ≡ (has self p || has other p) }
    {
        Points {
            mask: self.mask | other.mask,
        }
    }

    /// The points of this set that are points of `other` too.
    pub fn intersection(self, other: Points) -> Points
        ensures { (p : ℕ) → has result p ≡ (has self p && has other p) }
    {
        Points {
            mask: self.mask & other.mask,
        }
    }

    /// The points of this set that aren't points of `other`.
    pub fn difference(self, other: Points) -> Points
        ensures { (p : ℕ) → has result p ≡ (has self p && not (has other p)) }
    {
        Points {
            mask: self.mask & (self.mask ^ other.mask),
        }
    }

    /// Whether each point of this set is one of `other`.
    pub fn is_subset(self, other: Points) -> bool
        ensures { result ≡ is_subset self other }
    {
        self.mask & other.mask == self.mask
    }

    /// The least point of the set, or `None` where it has none.
    pub fn first(self) -> Option<u8>
        ensures point { IfSome result (λ p. (p < 32) × (has self p ≡ true)) }
        ensures rest { MatchOption result (members self ≡ [])
            (λ p. members self ≡ p ∷ members (without_point self p)) }
    {
        if self.mask == 0 {
            return None;
        }
        Some(self.mask.trailing_zeros() as u8)
    }

    /// The set without its least point; the empty set where it has none.
    pub fn without_first(self) -> Points
        ensures { members result ≡ drop 1 (members self) }
    {
        Points {
            mask: self.mask & self.mask.wrapping_sub(1),
        }
    }

    /// The points of the set, in ascending order.
    pub fn iter(self) -> PointsIter
        ensures points { result ≡ self }
        ensures few { length (members self) ≤ 32 }
    {
        PointsIter { left: self }
    }
}

/// An iterator over the points of a set, in ascending order.
#[derive(Clone, Copy, Debug)]
pub struct PointsIter {
    left: Points,
}

impl Model for PointsIter {
    ghost Value = { ℕ };

    ghost view = { λ iter. iter.left };

    ghost inverse = { λ n. record { left = n } };
}

impl Iterator for PointsIter {
    type Item = u8;

    ghost next_gives = { YieldsFirst members };

    ghost remaining = { item_count members };

    fn next(&mut self) -> Option<u8> {
        let point = self.left.first()?;
        self.left = self.left.without_first();
        Some(point)
    }
}
