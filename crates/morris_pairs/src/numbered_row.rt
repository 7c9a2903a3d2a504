//! The moves of one player's stones, by the numbers of the points that they leave free. These
//! points are numbered in ascending order, from 0.
ghost use Rattle.std.specs.Prelude.{◌≡◌, ℕ, ◌+◌, ◌%◌, ◌<◌, ◌&&◌, ◌||◌, nat_eq, false, length, filter, if◌then◌else◌};
ghost use Rattle.std.specs.List.{list_any, sum_by};
ghost use Rattle.morris_board.specs.Sets.{has, members};
ghost use Rattle.morris_board.specs.Positions.{Sides};
ghost use Rattle.morris_moves.specs.Rules.{moves_of};
ghost use Rattle.morris_pairs.specs.NumberedRows.{count_at, IsNumbered, AreNumbers};
ghost use Rattle.morris_pairs.specs.PairNets.{is_quiet, is_capture};
ghost use Rattle.morris_pairs.specs.Rows.{IsRow};

use crate::rows::Row;
use morris_board::board::Geometry;
use morris_board::points::Points;

/// A count below 16 for each number below 32, in binary: so the counts of several numbers are
/// summed without going through these one by one.
#[derive(Clone, Copy)]
pub(crate) struct SmallCounts {
    /// The numbers whose count is odd.
    pub(crate) ones: Points,
    /// Those whose count has the second binary digit.
    pub(crate) twos: Points,
    /// Those whose count has the third.
    pub(crate) fours: Points,
    /// Those whose count has the fourth.
    pub(crate) eights: Points,
}

/// The moves of one player's stones, so that positions with these stones are read from the numbers
/// of the opponent's alone.
#[derive(Clone, Copy)]
pub(crate) struct NumberedRow {
    /// The same by points.
    pub(crate) row: Row,
    /// For the number of each free point, how many stones may come there by a quiet move, where it
    /// is vacant.
    pub(crate) arrivals: SmallCounts,
    /// The numbers of the points at which a move closes a mill, where they are vacant.
    pub(crate) closing: Points,
}

/// A set with `number` beside what it has, where that is asked for.
fn with_where(set: Points, number: u8, here: bool) -> Points
    requires { number < 32 }
    ensures { (v : ℕ) → has result v ≡ (has set v || (nat_eq v number && here)) }
{
    if here { set.with(number) } else { set }
}

impl SmallCounts {
    /// No number has a count.
    pub(crate) const NONE: SmallCounts = SmallCounts {
        ones: Points::EMPTY,
        twos: Points::EMPTY,
        fours: Points::EMPTY,
        eights: Points::EMPTY,
    };

    /// These with the last four binary digits of `count` for `number`, which has no count yet.
    pub(crate) fn with(self, number: u8, count: u16) -> SmallCounts
        requires number { number < 32 }
        requires none { count_at self number ≡ 0 }
        ensures { (v : ℕ) → count_at result v ≡ count_at self v + (if nat_eq v number then count % 16 else 0) }
    {
        SmallCounts {
            ones: with_where(self.ones, number, count % 2 == 1),
            twos: with_where(self.twos, number, count / 2 % 2 == 1),
            fours: with_where(self.fours, number, count / 4 % 2 == 1),
            eights: with_where(self.eights, number, count / 8 % 2 == 1),
        }
    }

    /// The counts of these numbers together.
    pub(crate) fn sum_over(self, numbers: Points) -> u16
        ensures { result ≡ sum_by (count_at self) (members numbers) }
    {
        u16::from(numbers.intersection(self.ones).count())
            + 2 * u16::from(numbers.intersection(self.twos).count())
            + 4 * u16::from(numbers.intersection(self.fours).count())
            + 8 * u16::from(numbers.intersection(self.eights).count())
    }
}

impl NumberedRow {
    /// The moves of the stones of `row`, by numbers as well.
    pub(crate) fn of<B: Geometry>(row: &Row) -> NumberedRow
        requires { IsRow B.shape B.POINTS row.now }
        ensures row { result.row ≡ row.now }
        ensures numbered { IsNumbered B.shape B.POINTS result }
    {
        let mut arrivals = SmallCounts::NONE;
        let mut closing = Points::EMPTY;
        let mut number = 0;
        for point in 0..B::POINTS {
            if !row.own.has(point) {
                arrivals = arrivals.with(number, row.arrivals[point as usize]);
                closing = with_where(closing, number, row.closing.has(point));
                number += 1;
            }
        }
        NumberedRow {
            row: *row,
            arrivals,
            closing,
        }
    }

    /// How many of the legal moves are quiet where the opponent's stones have these numbers.
    pub(crate) fn quiet_moves<B: Geometry>(&self, numbers: Points) -> u16
        requires cache { IsNumbered B.shape B.POINTS self.now }
        requires stands { (s : Sides) × AreNumbers B.shape B.POINTS self.now.row.own numbers s }
        ensures { (s : Sides) → AreNumbers B.shape B.POINTS self.now.row.own numbers s
            → result ≡ length (filter is_quiet (moves_of B.shape s)) }
    {
        self.row.all - self.arrivals.sum_over(numbers)
    }

    /// Whether there may be captures where the opponent's stones have these numbers: there are none
    /// where each point at which a move closes a mill has one of them.
    pub(crate) fn may_capture<B: Geometry>(&self, numbers: Points) -> bool
        requires cache { IsNumbered B.shape B.POINTS self.now }
        ensures { result ≡ false → (s : Sides) → AreNumbers B.shape B.POINTS self.now.row.own numbers s
            → list_any is_capture (moves_of B.shape s) ≡ false }
    {
        let open = self.closing.difference(numbers);
        open != Points::EMPTY
    }
}
