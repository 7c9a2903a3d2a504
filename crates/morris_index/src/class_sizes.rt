//! How many entries pairs have by classes, counted without memory.
ghost use Rattle.std.specs.Prelude.{◌≡◌, ◌<◌, ◌≤◌, ◌^◌};
ghost use Rattle.morris_index.specs.Binomials.{choose};
ghost use Rattle.morris_index.specs.Classes.{class_count, is_representative};
ghost use Rattle.morris_index.specs.ClassPairs.{class_half_size, class_size_of};
ghost use Rattle.morris_index.specs.Pairs.{IsHalf};

use crate::binomials::binomial;
use crate::pair::Pair;
use crate::ranks::{least, next_set};
use morris_board::board::Geometry;
use morris_board::points::Points;

/// How many entries a pair has by classes: what [`size`](crate::class_pair::ClassPair::size)
/// answers, without the memory that the classes take. It looks at every set of as many points as
/// either player has stones.
pub fn class_size<B: Geometry>(pair: Pair<B>) -> u64
    ensures { result ≡ class_size_of B.shape B.POINTS pair }
{
    let (greater, lesser) = (pair.greater(), pair.lesser());
    let first = class_half_size::<B>(class_count::<B>(greater), greater, lesser);
    if greater == lesser {
        first
    } else {
        first + class_half_size::<B>(class_count::<B>(lesser), lesser, greater)
    }
}

/// How many entries there are for `own` stones of the player to move, whose sets have so many
/// classes, and `other` of the opponent.
pub(crate) fn class_half_size<B: Geometry>(classes: u32, own: u8, other: u8) -> u64
    requires half { IsHalf B.POINTS own other }
    requires classes { classes ≡ class_count B.shape own }
    requires few { classes ≤ choose B.POINTS own }
    ensures value { result ≡ class_half_size B.shape B.POINTS own other }
    ensures few { result ≤ 2 ^ 39 }
{
    u64::from(classes) * binomial(B::POINTS - own, other)
}

/// How many classes of sets of `count` points there are.
fn class_count<B: Geometry>(count: u8) -> u32
    requires most { count ≤ 9 }
    requires fits { count ≤ B.POINTS }
    ensures value { result ≡ class_count B.shape count }
    ensures few { result ≤ choose B.POINTS count }
{
    let sets = binomial(B::POINTS, count);
    let mut classes = 0;
    let mut set = least(B::POINTS, Points::EMPTY, count);
    for _ in 0..sets {
        if is_representative::<B>(count, set) {
            classes += 1;
        }
        if let Some(next) = next_set(B::POINTS, Points::EMPTY, set) {
            set = next;
        }
    }
    classes
}

/// Whether a set has `count` points and no image with a lesser mask.
pub fn is_representative<B: Geometry>(count: u8, set: Points) -> bool
    requires { set < 2 ^ B.POINTS }
    ensures { result ≡ is_representative B.shape count set }
{
    if set.count() != count {
        return false;
    }
    for symmetry in 1..B::SYMMETRIES {
        if B::image_of(symmetry, set).mask() < set.mask() {
            return false;
        }
    }
    true
}
