//! The numbers of the points outside a set, read ring by ring: eight points at a time.
//!
//! A ring of a set is a number below 256: bit `i` stands for the ring's point `i`.
ghost use Rattle.std.specs.Prelude.{◌≡◌, ℕ, ◌<◌, ◌≤◌, ◌^◌, true, false, IfOk};
ghost use Rattle.morris_board.specs.Sets.{has};
ghost use Rattle.morris_index.specs.Numbering.{number_outside};
ghost use Rattle.morris_index.specs.Parts.{squeeze_below, IsRingTable};

use crate::ranks::number_outside;
use morris_board::points::Points;
use std::alloc::{AllocError, Global};
use std::marker::Model;

/// How many rings the table has: 256 of a set for each of the 256 of the set outside.
const RINGS: u32 = 65536;

/// A set outside which points are numbered, with where the numbers of each ring's free points
/// begin. Those of the first ring begin with 0.
#[derive(Clone, Copy)]
pub(crate) struct Outside {
    /// The set.
    pub(crate) points: Points,
    /// How many of the points 0 to 7 it leaves free.
    pub(crate) second: u8,
    /// How many of the points 0 to 15 it leaves free.
    pub(crate) third: u8,
}

impl Model for Outside {
    ghost use Rattle.std.specs.Prelude.{◌≡◌, ℕ};
    ghost use Rattle.std.proofs.Common.{sym};
    ghost use Rattle.morris_index.specs.Numbering.{number_outside};

    ghost Value = { ℕ };

    ghost view = { λ outside. outside.points };

    ghost invariant = { λ outside. (outside.second ≡ number_outside outside.points 8) × (outside.third ≡ number_outside outside.points 16) };

    ghost inverse = { λ n. record { points = n; second = number_outside n 8; third = number_outside n 16 } };

    ghost inverse_ok = { λ outside h i. record { points = outside.points; second = sym h.0 i; third = sym h.1 i } };
}

impl Outside {
    /// The set, with where the numbers of the free points begin in its second and third ring.
    pub(crate) fn of(points: Points) -> Outside
        ensures { result ≡ points }
    {
        Outside {
            points,
            second: number_outside(points, 8),
            third: number_outside(points, 16),
        }
    }
}

/// The table by which sets are squeezed: for each ring of an outer set, and for each ring of a set,
/// the numbers of this one's points outside that one. It is made once, so that the numbers of a
/// set's points take three look-ups.
#[derive(Drop)]
pub(crate) struct RingTable {
    rings: Vec<u8>,
    ghost full: { IsRingTable rings.items },
}

/// The numbers of the points of a ring outside a ring of another set, as a ring.
fn squeeze_ring(outside: u32, points: u32) -> u8
    requires outside { outside < 256 }
    requires points { points < 256 }
    ensures { result ≡ squeeze_below outside points 8 }
{
    let taken = Points::from_mask(outside);
    let set = Points::from_mask(points).difference(taken);
    let mut squeeze = 0;
    for point in 0..8_u8 {
        if set.has(point) {
            squeeze += 1 << number_outside(taken, point);
        }
    }
    squeeze
}

impl RingTable {
    /// The table.
    ///
    /// # Errors
    /// [`AllocError`] where memory runs out. No other call takes memory.
    pub(crate) fn make(alloc: Global) -> Result<RingTable, AllocError> {
        let mut rings = Vec::with_capacity(alloc, RINGS as usize)?;
        for at in 0..RINGS {
            rings.push(squeeze_ring(at / 256, at % 256))?;
        }
        Ok(RingTable { rings })
    }

    /// The numbers of the points of a ring outside a ring of another set, as a ring.
    fn ring(&self, outside: u32, points: u32) -> u32
        requires outside { outside < 256 }
        requires points { points < 256 }
        ensures value { result ≡ squeeze_below outside points 8 }
        ensures small { result < 256 }
    {
        u32::from(self.rings[(outside * 256 + points) as usize])
    }

    /// The set of the numbers of the points of `set` outside another set.
    pub(crate) fn squeeze(&self, set: Points, outside: Outside) -> Points
        requires { set < 2 ^ 24 }
        ensures { result ≡ squeeze_below outside set 24 }
    {
        let points = set.mask();
        let taken = outside.points.mask();
        let first = self.ring(taken % 256, points % 256);
        let second = self.ring(taken / 256 % 256, points / 256 % 256);
        let third = self.ring(taken / 65536 % 256, points / 65536);
        Points::from_mask(first + (second << outside.second) + (third << outside.third))
    }
}
