//! All pairs in one order, and the pairs below a pair.
ghost use Rattle.std.specs.Prelude.{◌≡◌, ◌<◌, Some, slice_get};
ghost use Rattle.std.specs.Iterator.{YieldsFirst, item_count};
ghost use Rattle.morris_index.specs.Pairs.{counts, IsPair, all_pairs, is_below, below_of};

use crate::pair::Pair;
use morris_board::board::Geometry;
use std::marker::Model;

/// How many pairs there are, from 3-3 to 9-9.
pub const PAIR_COUNT: usize = 28;

/// All pairs, the greater number first, in order of their sum and then of the greater one.
const PAIRS: [(u8, u8); PAIR_COUNT] = [
    (3, 3),
    (4, 3),
    (4, 4),
    (5, 3),
    (5, 4),
    (6, 3),
    (5, 5),
    (6, 4),
    (7, 3),
    (6, 5),
    (7, 4),
    (8, 3),
    (6, 6),
    (7, 5),
    (8, 4),
    (9, 3),
    (7, 6),
    (8, 5),
    (9, 4),
    (7, 7),
    (8, 6),
    (9, 5),
    (8, 7),
    (9, 6),
    (8, 8),
    (9, 7),
    (9, 8),
    (9, 9),
];

/// An iterator over the pairs below a pair, in the order of [`Pair::below`].
#[derive(Drop)]
pub struct Below<B: Geometry> {
    /// The pair.
    pair: Pair<B>,
    /// How many of all pairs are passed.
    place: usize,
}

impl<B: Geometry> Model for Below<B> {
    ghost use Rattle.std.specs.Prelude.{List};
    ghost use Rattle.morris_index.specs.Pairs.{Counts, below_from};

    ghost Value = { List Counts };

    ghost view = { λ below. below_from below.pair below.place };
}

impl<B: Geometry> Below<B> {
    /// All pairs below a pair.
    pub(crate) fn of(pair: Pair<B>) -> Below<B>
        ensures { result ≡ below_of pair }
    {
        Below { pair, place: 0 }
    }
}

impl<B: Geometry> Iterator for Below<B> {
    type Item = Pair<B>;

    ghost next_gives = { YieldsFirst (λ s. s) };

    ghost remaining = { item_count (λ s. s) };

    fn next(&mut self) -> Option<Pair<B>> {
        while self.place < PAIRS.len() {
            let (greater, lesser) = pair_at(self.place);
            self.place += 1;
            if is_below(&self.pair, greater, lesser) {
                return Some(Pair::from_counts(greater, lesser));
            }
        }
        None
    }
}

/// The numbers of the pair at a place, below [`PAIR_COUNT`], of all pairs: the greater number
/// first, in order of their sum and then of the greater one. A board may have too few points for
/// them.
pub fn pair_at(place: usize) -> (u8, u8)
    requires { place < 28 }
    ensures { slice_get all_pairs place ≡ Some (counts result.0 result.1) }
{
    PAIRS[place]
}

/// Whether two numbers are at most those of a pair.
fn is_below<B: Geometry>(pair: &Pair<B>, greater: u8, lesser: u8) -> bool
    ensures value { result ≡ is_below pair.now (counts greater lesser) }
    ensures lawful { IsPair B.POINTS pair.now }
{
    greater <= pair.greater() && lesser <= pair.lesser()
}
