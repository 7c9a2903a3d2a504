//! The lists of the representatives of classes. Chunks of masks that have none are passed over.
ghost use Rattle.std.specs.Prelude.{◌≡◌, ℕ, ◌+◌, ◌-◌, ◌*◌, ◌/◌, ◌<◌, ◌≤◌, ◌^◌, true, false, slice_set, IsTrue, IfOk};
ghost use Rattle.morris_board.specs.Sets.{is_subset};
ghost use Rattle.morris_index.specs.Classes.{is_representative};
ghost use Rattle.morris_lookup.specs.Representatives.{representatives_of, representatives_at, chunk_size, AreListed};

use morris_board::board::Geometry;
use morris_board::points::Points;
use morris_index::binomials::binomial;
use morris_index::class_sizes::is_representative;
use std::alloc::{AllocError, Global};

/// The representatives of the classes of sets of `count` points, in ascending order of their masks.
///
/// # Errors
/// [`AllocError`] where memory runs out: 4 bytes are taken for each representative, and 4 for each
/// set until they are listed.
pub(crate) fn representatives<B: Geometry>(alloc: Global, count: u8) -> Result<Vec<u32>, AllocError>
    requires most { count ≤ 9 }
    requires fits { count ≤ B.POINTS }
    ensures { IfOk result (λ list. list.items ≡ representatives_of B.shape count) }
{
    let mut room = vec![in alloc; 0u32; binomial(B::POINTS, count) as usize]?;
    let words = room.as_mut_slice();
    let end = list::<B>(count, words, 0);
    Ok(Vec::from_slice(alloc, &words[..end])?)
}

/// Lists the representatives of the classes of sets of `count` points from `start` on, in ascending
/// order of their masks, as far as there is room, and answers where all of them end.
pub(crate) fn list<B: Geometry>(count: u8, words: &mut [u32], start: usize) -> usize
    requires { start ≤ 2 ^ 27 }
    ensures listed { AreListed (representatives_of B.shape count) start result words.new words.old }
    ensures few { result ≤ start + 2 ^ 24 }
{
    let mut end = start;
    for number in 0..chunk_count::<B>() {
        end = list_chunk::<B>(count, number, words, end);
    }
    end
}

/// Lists those of a chunk from `start` on, as [`list`] does. A chunk has none where its first set,
/// which is a part of all others, and its last one, which has all of them, show that.
fn list_chunk<B: Geometry>(count: u8, number: u32, words: &mut [u32], start: usize) -> usize
    requires number { number < 2 ^ (B.POINTS - B.POINTS / 3) }
    requires few { start ≤ 2 ^ 28 }
    ensures { AreListed (representatives_at B.shape B.POINTS count number) start result words.new words.old }
{
    let first = chunk_start::<B>(number);
    let after = first + chunk_size::<B>();
    if is_passed_over::<B>(
        count,
        Points::from_mask(first),
        Points::from_mask(after - 1),
    ) {
        return start;
    }
    let mut end = start;
    for mask in first..after {
        if is_representative::<B>(count, Points::from_mask(mask)) {
            put(words, end, mask);
            end += 1;
        }
    }
    end
}

/// Writes a word at a place, where there is one.
pub(crate) fn put(words: &mut [u32], place: usize, word: u32)
    ensures { words.new ≡ slice_set words.old place word }
{
    if place < words.len() {
        words[place] = word;
    }
}

/// Whether no set between two is a representative of sets of `count` points: one has more points or
/// the other has fewer; or an image of the greater one has a lesser mask than the other, and so has
/// that of each set between them.
fn is_passed_over<B: Geometry>(count: u8, first: Points, last: Points) -> bool
    requires first { first < 2 ^ B.POINTS }
    requires last { last < 2 ^ B.POINTS }
    ensures { IsTrue result → (set : ℕ) → set < 2 ^ B.POINTS → is_subset first set ≡ true → is_subset set last ≡ true → is_representative B.shape count set ≡ false }
{
    if count < first.count() || last.count() < count {
        return true;
    }
    for symmetry in 1..B::SYMMETRIES {
        if B::image_of(symmetry, last).mask() < first.mask() {
            return true;
        }
    }
    false
}

/// How many masks a chunk has.
fn chunk_size<B: Geometry>() -> u32
    ensures value { result ≡ chunk_size B.POINTS }
    ensures few { result ≤ 2 ^ 8 }
    ensures some { 0 < result }
{
    1 << (B::POINTS / 3)
}

/// How many chunks there are.
fn chunk_count<B: Geometry>() -> u32
    ensures value { result ≡ 2 ^ (B.POINTS - B.POINTS / 3) }
    ensures few { result ≤ 2 ^ 24 }
{
    1 << (B::POINTS - B::POINTS / 3)
}

/// The first mask of a chunk.
fn chunk_start<B: Geometry>(number: u32) -> u32
    requires { number < 2 ^ (B.POINTS - B.POINTS / 3) }
    ensures value { result ≡ number * chunk_size B.POINTS }
    ensures within { result + chunk_size B.POINTS ≤ 2 ^ B.POINTS }
    ensures few { 2 ^ B.POINTS ≤ 2 ^ 24 }
{
    number * chunk_size::<B>()
}
