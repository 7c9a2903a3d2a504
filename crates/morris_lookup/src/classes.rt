//! The class of a set of points, by the list of the representatives.
ghost use Rattle.std.specs.Prelude.{◌≡◌, ◌/◌, ◌%◌, ◌≤◌, ◌<◌, ◌^◌, length, slice_index, IfNone, IfSome};
ghost use Rattle.morris_board.specs.Sets.{count_of};
ghost use Rattle.morris_index.specs.Classes.{symmetry_of, representative_of, class_of};
ghost use Rattle.morris_lookup.specs.Prepared.{AreClassWords};
ghost use Rattle.morris_lookup.specs.Representatives.{representatives_of};

use morris_board::board::Geometry;
use morris_board::points::Points;
use morris_index::ranks::rank;

/// The class of a set of points, and the least symmetry that brings the set to canonical form: by
/// the class word of the set where there are words of all sets of as many points, and else by the
/// list of the representatives. By other words or another list they are any class, and any symmetry
/// of the board.
pub(crate) fn class_by<B: Geometry>(
    representatives: &[u32],
    class_words: &[u32],
    set: Points,
) -> (usize, u8)
    requires within { set < 2 ^ B.POINTS }
    requires most { count_of set ≤ 9 }
    requires few { length representatives.now < 2 ^ 32 }
    ensures class { representatives.now ≡ representatives_of B.shape (count_of set) → AreClassWords B.shape (count_of set) class_words.now → result.0 ≡ class_of B.shape set }
    ensures symmetry { AreClassWords B.shape (count_of set) class_words.now → result.1 ≡ symmetry_of B.shape set }
    ensures few { result.0 < 2 ^ 32 }
    ensures one { result.1 < B.SYMMETRIES }
{
    if !class_words.is_empty()
        && let Some((class, symmetry)) = class_word_at(class_words, rank(set))
        && symmetry < B::SYMMETRIES
    {
        return (class, symmetry);
    }
    let (least, symmetry) = least_image::<B>(set);
    let mask = least.mask();
    let class = representatives.partition_point(|other| *other < mask);
    (class, symmetry)
}

/// The class and the symmetry that the word at a place says, where there is one.
pub(crate) fn class_word_at(words: &[u32], place: u64) -> Option<(usize, u8)>
    ensures class { IfSome result (λ found. found.0 ≡ slice_index words.now place / 16) }
    ensures symmetry { IfSome result (λ found. found.1 ≡ slice_index words.now place % 16) }
    ensures few { IfSome result (λ found. found.0 < 2 ^ 28) }
    ensures inside { IfSome result (λ _. place < length words.now) }
    ensures outside { IfNone result (length words.now ≤ place) }
{
    let class_word = words.get(place as usize)?;
    Some(((*class_word / 16) as usize, (*class_word % 16) as u8))
}

/// The canonical form of a set, which is its image with the least mask, and the least symmetry that
/// brings the set there.
fn least_image<B: Geometry>(set: Points) -> (Points, u8)
    requires { set < 2 ^ B.POINTS }
    ensures image { result.0 ≡ representative_of B.shape set }
    ensures symmetry { result.1 ≡ symmetry_of B.shape set }
    ensures one { result.1 < B.SYMMETRIES }
{
    let mut least = set;
    let mut symmetry = 0;
    for other in 1..B::SYMMETRIES {
        let image = B::image_of(other, set);
        if image.mask() < least.mask() {
            least = image;
            symmetry = other;
        }
    }
    (least, symmetry)
}
