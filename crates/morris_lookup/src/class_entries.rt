//! The entries of a pair by classes, by the lists of the representatives of the classes.
ghost use Rattle.std.specs.Prelude.{◌≡◌, ◌<◌, ◌^◌, true, length};
ghost use Rattle.morris_board.specs.Sets.{count_of};
ghost use Rattle.morris_index.specs.Pairs.{IsHalf, is_of};
ghost use Rattle.morris_index.specs.ClassPairs.{class_half_size, class_half_index, class_size_of, class_index_of};
ghost use Rattle.morris_lookup.specs.Prepared.{AreClassWords};
ghost use Rattle.morris_lookup.specs.Representatives.{representatives_of};

use crate::classes::class_by;
use morris_board::board::Geometry;
use morris_board::position::Position;
use morris_index::binomials::binomial;
use morris_index::pair::Pair;
use morris_index::ranks::rank_outside;

/// How many entries a pair has by classes, where the representatives of the classes of sets of its
/// greater and of its lesser number of points are listed.
pub(crate) fn class_size<B: Geometry>(pair: Pair<B>, greater: &[u32], lesser: &[u32]) -> u64
    requires greater { length greater.now < 2 ^ 32 }
    requires lesser { length lesser.now < 2 ^ 32 }
    ensures value { greater.now ≡ representatives_of B.shape pair.greater → lesser.now ≡ representatives_of B.shape pair.lesser → result ≡ class_size_of B.shape B.POINTS pair }
    ensures few { result < 2 ^ 54 }
{
    let (most, least) = (pair.greater(), pair.lesser());
    let first = class_half_size::<B>(greater, most, least);
    if most == least {
        first
    } else {
        first + class_half_size::<B>(lesser, least, most)
    }
}

/// The entry of a position of the pair by classes, by the same lists and by the class words of the
/// sets of either number of points, where there are any. By other lists or words it is any number.
pub(crate) fn class_index<B: Geometry>(
    pair: Pair<B>,
    greater: &[u32],
    lesser: &[u32],
    greater_class_words: &[u32],
    lesser_class_words: &[u32],
    position: &Position<B>,
) -> u64
    requires of { is_of pair position.now ≡ true }
    requires greater { length greater.now < 2 ^ 32 }
    requires lesser { length lesser.now < 2 ^ 32 }
    ensures value { greater.now ≡ representatives_of B.shape pair.greater → lesser.now ≡ representatives_of B.shape pair.lesser
        → AreClassWords B.shape pair.greater greater_class_words.now → AreClassWords B.shape pair.lesser lesser_class_words.now → result ≡ class_index_of B.shape B.POINTS pair position.now }
    ensures few { result < 2 ^ 55 }
{
    let most = pair.greater();
    if position.own().count() == most {
        class_half_index(greater, greater_class_words, position)
    } else {
        class_half_size::<B>(greater, most, pair.lesser())
            + class_half_index(lesser, lesser_class_words, position)
    }
}

/// How many entries there are for `own` stones of the player to move and `other` of the opponent.
fn class_half_size<B: Geometry>(list: &[u32], own: u8, other: u8) -> u64
    requires half { IsHalf B.POINTS own other }
    requires few { length list.now < 2 ^ 32 }
    ensures value { list.now ≡ representatives_of B.shape own → result ≡ class_half_size B.shape B.POINTS own other }
    ensures few { result < 2 ^ 53 }
{
    list.len() as u64 * binomial(B::POINTS - own, other)
}

/// The number of a position's entry among those with as many stones of either player, by the list
/// of the representatives for those of the player to move and by the class words of sets of as many
/// points, where there are any.
fn class_half_index<B: Geometry>(list: &[u32], class_words: &[u32], position: &Position<B>) -> u64
    requires few { length list.now < 2 ^ 32 }
    ensures value { list.now ≡ representatives_of B.shape (count_of position.now.own) → AreClassWords B.shape (count_of position.now.own) class_words.now → result ≡ class_half_index B.shape B.POINTS position.now }
    ensures few { result < 2 ^ 54 }
{
    let (own, other) = position.counts();
    let (class, symmetry) = class_by::<B>(list, class_words, position.own());
    let choices = binomial(B::POINTS - own, other);
    let canonical_form = position.image(symmetry);
    class as u64 * choices + rank_outside(canonical_form.other(), canonical_form.own())
}
