//! The class words of sets of few points: the class of each set and the least symmetry that brings
//! it to canonical form, in one number, written at its rank.
ghost use Rattle.std.specs.Prelude.{◌≡◌, ℕ, ◌+◌, ◌<◌, ◌≤◌, ◌^◌, length, slice_index, IfOk};
ghost use Rattle.morris_board.specs.Sets.{count_of};
ghost use Rattle.morris_index.specs.Binomials.{choose};
ghost use Rattle.morris_index.specs.Classes.{representative_of};
ghost use Rattle.morris_lookup.specs.Prepared.{HaveClassWords, HaveClassWord, AreClassWords, OthersStay, StayBefore};
ghost use Rattle.morris_lookup.specs.Representatives.{representatives_of};

use morris_board::board::Geometry;
use morris_board::points::Points;
use morris_index::binomials::binomial;
use morris_index::ranks::rank;
use std::alloc::{AllocError, Global};

/// The greatest number of points of sets that have class words.
pub(crate) const MOST_WITH_WORDS: u8 = 6;

/// The class words of the sets of `count` points, of which the representatives are listed; nothing
/// where the sets have more points than [`MOST_WITH_WORDS`].
///
/// # Errors
/// [`AllocError`] where memory runs out: 4 bytes are taken for each set, and for a while twice as
/// much.
pub(crate) fn class_words<B: Geometry>(
    alloc: Global,
    count: u8,
    list: &[u32],
) -> Result<Vec<u32>, AllocError>
    requires few { count ≤ 9 }
    requires listed { list.now ≡ representatives_of B.shape count }
    ensures { IfOk result (λ class_words. AreClassWords B.shape count class_words.items) }
{
    if count > MOST_WITH_WORDS {
        return Ok(Vec::new(alloc));
    }
    let classes = list.len();
    let sets = binomial(B::POINTS, count) as usize;
    let mut room = vec![in alloc; 0u32; classes + sets]?;
    let words = room.as_mut_slice();
    words[..classes].copy_from_slice(list);
    write_class_words::<B>(count, words, 0, classes, classes);
    Ok(Vec::from_slice(alloc, &words[classes..])?)
}

/// Writes the class word of each set of `count` points, at its rank from `start` on. The
/// representatives of these sets are the `classes` words from `list` on.
pub(crate) fn write_class_words<B: Geometry>(
    count: u8,
    words: &mut [u32],
    list: usize,
    classes: usize,
    start: usize,
)
    requires few { count ≤ 9 }
    requires room { start + choose B.POINTS count ≤ length words.old }
    requires before { list + classes ≤ start }
    requires classes { classes ≡ length (representatives_of B.shape count) }
    requires listed { (i : ℕ) → i < classes → slice_index words.old (list + i) ≡ slice_index (representatives_of B.shape count) i }
    ensures canonical_form { HaveClassWords B.shape count start words.new }
    ensures before { StayBefore start words.new words.old }
{
    for class in 0..classes {
        let representative = Points::from_mask(words[list + class]);
        write_images::<B>(count, words, start, class as u32, representative);
    }
}

/// Writes the class word of each image of a representative of sets of `count` points. Several
/// symmetries may bring an image back to the representative: the least of them is written last.
fn write_images<B: Geometry>(
    count: u8,
    words: &mut [u32],
    start: usize,
    class: u32,
    representative: Points,
)
    requires few { count ≤ 9 }
    requires room { start + choose B.POINTS count ≤ length words.old }
    requires class { class < 2 ^ 24 }
    requires within { representative < 2 ^ B.POINTS }
    requires counted { count_of representative ≡ count }
    requires least { representative_of B.shape representative ≡ representative }
    ensures canonical_form { HaveClassWord B.shape start class representative words.new }
    ensures others { OthersStay B.shape count start representative words.new words.old }
    ensures before { StayBefore start words.new words.old }
{
    for k in 0..B::SYMMETRIES {
        let symmetry = B::SYMMETRIES - 1 - k;
        let set = B::image_of(B::inverse(symmetry), representative);
        let place = start + rank(set) as usize;
        words[place] = class * 16 + u32::from(symmetry);
    }
}
