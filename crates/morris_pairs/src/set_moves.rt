//! The moves of one player's stones, in a table of all sets of as many stones.
ghost use Rattle.std.specs.Prelude.{◌≡◌, ◌<◌, ◌^◌, length, filter, OnOk, IfOk};
ghost use Rattle.morris_moves.specs.Rules.{moves_of};
ghost use Rattle.morris_pairs.specs.PairNets.{is_quiet};
ghost use Rattle.morris_pairs.specs.SetMoves.{IsSetTabled, AreSetsTabled};

use crate::numbered_row::SmallCounts;
use crate::rows::Row;
use morris_board::board::Geometry;
use morris_board::points::Points;
use morris_board::position::Position;
use std::alloc::{AllocError, Global};

/// The moves of one player's stones, whatever the opponent has: the part of a [`Row`] by which
/// positions with these stones are read, in little room.
#[derive(Clone, Copy)]
pub(crate) struct SetMoves {
    /// The stones.
    pub(crate) own: Points,
    /// For each point, how many of them may come there by a quiet move, where it is vacant.
    pub(crate) arrivals: SmallCounts,
    /// All of these together.
    pub(crate) all: u16,
    /// The points at which a move closes a mill, where they are vacant.
    pub(crate) closing: Points,
}

impl SetMoves {
    /// The moves of these stones.
    pub(crate) fn of<B: Geometry>(own: Points) -> SetMoves
        requires { own < 2 ^ B.POINTS }
        ensures own { result.own ≡ own }
        ensures tabled { IsSetTabled B.shape B.POINTS result }
    {
        let row = Row::of::<B>(own);
        let mut arrivals = SmallCounts::NONE;
        for point in 0..B::POINTS {
            arrivals = arrivals.with(point, row.arrivals[point as usize]);
        }
        SetMoves {
            own,
            arrivals,
            all: row.all,
            closing: row.closing,
        }
    }

    /// How many of the legal moves of a position with these own stones are quiet.
    pub(crate) fn quiet_moves<B: Geometry>(&self, position: &Position<B>) -> u16
        requires own { self.now.own ≡ position.now.own }
        requires tabled { IsSetTabled B.shape B.POINTS self.now }
        ensures { result ≡ length (filter is_quiet (moves_of B.shape position.now)) }
    {
        self.all - self.arrivals.sum_over(position.other())
    }
}

/// How many sets of the points 0 to 11 there are, and so of the points 12 to 23.
const PARTS: usize = 4096;

/// The moves of each set of as many points, in ascending order of the masks: sets that have the
/// same points from 12 on follow one another.
#[derive(Drop)]
pub(crate) struct SetTable {
    /// For each set of points from 12 on, the place of the first set that has these, less the rank
    /// of its other points.
    starts: Vec<usize>,
    /// For each set of points below 12 its rank: how many sets of as many points come before it.
    ranks: Vec<usize>,
    /// The sets, each with its moves.
    pub(crate) sets: Vec<SetMoves>,
}

/// The points of a set below 12, and those from 12 on, each as a place in a list.
fn parts_of(set: Points) -> (usize, usize)
    ensures { result.0 < 4096 }
{
    (set.mask() as usize % PARTS, set.mask() as usize / PARTS)
}

/// The ranks of the sets of points below 12, each among those of as many points. No proof rests on
/// them: see [`SetTable::place_of`].
fn part_ranks(alloc: Global) -> Result<Vec<usize>, AllocError> {
    let mut counts = [0_usize; 33];
    let mut ranks = Vec::with_capacity(alloc, PARTS)?;
    for mask in 0..PARTS {
        let count = Points::from_mask(mask as u32).count() as usize;
        ranks.push(counts[count])?;
        counts[count] = counts[count].wrapping_add(1);
    }
    Ok(ranks)
}

impl SetTable {
    /// The table of all sets of `count` points.
    ///
    /// # Errors
    /// [`AllocError`] where memory for it is refused.
    pub(crate) fn make<B: Geometry>(alloc: Global, count: u8) -> Result<SetTable, AllocError>
        ensures { IfOk result (λ made. AreSetsTabled B.shape B.POINTS made) }
    {
        let mut table = SetTable {
            starts: vec![in alloc; 0_usize; PARTS]?,
            ranks: part_ranks(alloc)?,
            sets: Vec::new(alloc),
        };
        for mask in 0..1_u32 << B::POINTS {
            let set = Points::from_mask(mask);
            if set.count() == count {
                table.push::<B>(set)?;
            }
        }
        Ok(table)
    }

    /// Adds a set at the end of the table.
    fn push<B: Geometry>(&mut self, set: Points) -> Result<(), AllocError>
        requires within { set < 2 ^ B.POINTS }
        requires tabled { AreSetsTabled B.shape B.POINTS self.old }
        ensures { OnOk result (AreSetsTabled B.shape B.POINTS self.new) }
    {
        self.fill_place(set);
        self.sets.push(SetMoves::of::<B>(set))?;
        Ok(())
    }

    /// Notes that a set is to stand at the end of the table.
    fn fill_place(&mut self, set: Points)
        ensures { self.new.sets ≡ self.old.sets }
    {
        let (low, high) = parts_of(set);
        if let (Some(rank), Some(start)) = (self.ranks.get(low), self.starts.get_mut(high)) {
            *start = self.sets.len().wrapping_sub(*rank);
        }
    }

    /// Where a set stands, if the table has it. Any place will do, since the set that stands there
    /// is compared with it.
    fn place_of(&self, set: Points) -> usize {
        let (low, high) = parts_of(set);
        match (self.ranks.get(low), self.starts.get(high)) {
            (Some(rank), Some(start)) => start.wrapping_add(*rank),
            _ => 0,
        }
    }

    /// The moves of a set, made anew where the table doesn't have it.
    pub(crate) fn moves_of<B: Geometry>(&self, set: Points) -> SetMoves
        requires within { set < 2 ^ B.POINTS }
        requires tabled { AreSetsTabled B.shape B.POINTS self.now }
        ensures own { result.own ≡ set }
        ensures tabled { IsSetTabled B.shape B.POINTS result }
    {
        match self.sets.get(self.place_of(set)) {
            Some(moves) if moves.own == set => *moves,
            _ => SetMoves::of::<B>(set),
        }
    }
}
