//! Prepared words: what files by classes need to know of the classes of sets of points, in memory
//! that the caller hands in.
ghost use Rattle.std.specs.Prelude.{◌≡◌, ◌<◌, ◌≤◌, ◌^◌, true, length, IsOk, IfOk, IfSome, IfNone, MatchResult};
ghost use Rattle.morris_index.specs.Binomials.{choose};
ghost use Rattle.morris_lookup.specs.Numberings.{AreListsFor};
ghost use Rattle.morris_lookup.specs.Prepared.{prepared_count, section_at, start_of, looks_prepared, IsPrepared, IsPreparedTo, AreClassWords};
ghost use Rattle.morris_lookup.specs.Representatives.{representatives_of};

use crate::class_words::write_class_words;
use crate::fault::ViewFault;
use crate::representatives::{list, put};
use morris_board::board::Geometry;
use morris_index::binomials::binomial;
use morris_index::pair::Pair;
use morris_pairs::layout::Layout;

/// What prepared words begin with, before the number of the board is added.
const FIRST: u32 = 0x4D57_4300;

/// How many words stand before the sections.
const PREFACE: usize = 13;

/// The least number of points of sets whose classes are prepared, and how many numbers there are.
const LEAST: u8 = 3;

const NUMBERS: u8 = 7;

/// For how many of these numbers, from the least on, each set has a class word.
const SIZES_WITH_WORDS: u8 = 4;

/// How many prepared words there are. It goes through the sets of points of the board, and passes
/// over most of those that aren't representatives.
pub fn prepared_count<B: Geometry>() -> usize
    ensures { result ≡ prepared_count B.shape }
{
    let mut end = list_all::<B>(&mut []);
    for k in 0..SIZES_WITH_WORDS {
        end += set_count::<B>(LEAST + k);
    }
    end
}

/// How many sets of `count` points there are.
fn set_count<B: Geometry>(count: u8) -> usize
    requires { count ≤ 9 }
    ensures value { result ≡ choose B.POINTS count }
    ensures few { result < 2 ^ 21 }
{
    binomial(B::POINTS, count) as usize
}

/// Fills the first words with the prepared ones, and answers how many these are; `None` where there
/// are fewer words than [`prepared_count`] says, of which some may have changed then. It goes
/// through the sets of points as [`prepared_count`] does, and takes no memory.
pub fn prepare<B: Geometry>(words: &mut [u32]) -> Option<usize>
    ensures prepared { IfSome result (λ _. IsPrepared B.shape words.new) }
    ensures count { IfSome result (λ count. count ≡ prepared_count B.shape) }
    ensures room { IfNone result (length words.old < prepared_count B.shape) }
{
    let listed = list_all::<B>(words);
    if words.len() < listed {
        return None;
    }
    write_all::<B>(words, listed)
}

/// Fills the preface and the sections with representatives, as far as there is room, and answers
/// where these sections end.
fn list_all<B: Geometry>(words: &mut [u32]) -> usize
    ensures end { result ≡ start_of B.shape 7 }
    ensures few { result ≤ 2 ^ 27 }
    ensures prepared { result ≤ length words.old → IsPreparedTo B.shape 7 result words.new }
{
    put(words, 0, FIRST + u32::from(B::ID));
    put(words, 1, PREFACE as u32);
    let mut end = PREFACE;
    for k in 0..NUMBERS {
        end = list::<B>(LEAST + k, words, end);
        put(words, usize::from(k) + 2, end as u32);
    }
    end
}

/// Fills the sections with class words after those that end at `listed`, and answers where they
/// end; `None` where there is too little room for them.
fn write_all<B: Geometry>(words: &mut [u32], listed: usize) -> Option<usize>
    requires prepared { IsPreparedTo B.shape 7 listed words.old }
    requires few { listed ≤ 2 ^ 27 }
    ensures prepared { IfSome result (λ end. IsPreparedTo B.shape 11 end words.new) }
    ensures room { IfNone result (length words.old < start_of B.shape 11) }
{
    let mut end = listed;
    for k in 0..SIZES_WITH_WORDS {
        let place = usize::from(k) + 1;
        let (first, last) = (words[place] as usize, words[place + 1] as usize);
        let sets = set_count::<B>(LEAST + k);
        if words.len() - end < sets {
            return None;
        }
        write_class_words::<B>(LEAST + k, words, first, last - first, end);
        end += sets;
        words[place + 8] = end as u32;
    }
    Some(end)
}

/// The words of a section of those that may be prepared ones.
///
/// # Errors
/// [`ViewFault::Words`] where the words aren't prepared ones. That is known by what they begin with
/// and by how many they are: what stands in the sections isn't checked.
fn section<B: Geometry>(words: &[u32], number: usize) -> Result<&[u32], ViewFault>
    requires { number < 11 }
    ensures found { MatchResult result (λ section. section.now ≡ section_at words.now number) (λ fault. (fault ≡ ViewFault.Words) × (IsPrepared B.shape words.now → ⊥)) }
    ensures tested { IfOk result (λ _. looks_prepared B.shape words.now ≡ true) }
    ensures few { IfOk result (λ section. length section.now < 2 ^ 32) }
{
    if words.len() < PREFACE || words[0] != FIRST + u32::from(B::ID) {
        return Err(ViewFault::Words);
    }
    if words.len() < words[PREFACE - 1] as usize {
        return Err(ViewFault::Words);
    }
    let (start, end) = (words[number + 1] as usize, words[number + 2] as usize);
    if start <= end && end <= words.len() {
        Ok(&words[start..end])
    } else {
        Err(ViewFault::Words)
    }
}

/// What stands in words that may be prepared ones for the sets of `count` points, 3 to 9: the list
/// of the representatives of their classes; and the class words of the sets, or, where the points
/// are many, none.
///
/// # Errors
/// Those of [`section`].
fn lists_for<B: Geometry>(words: &[u32], count: u8) -> Result<(&[u32], &[u32]), ViewFault>
    requires least { 3 ≤ count }
    requires most { count ≤ 9 }
    ensures list { IsPrepared B.shape words.now → IfOk result (λ lists. lists.0.now ≡ representatives_of B.shape count) }
    ensures class_words { IsPrepared B.shape words.now → IfOk result (λ lists. AreClassWords B.shape count lists.1.now) }
    ensures ready { IsPrepared B.shape words.now → IsOk result }
    ensures tested { IfOk result (λ _. looks_prepared B.shape words.now ≡ true) }
    ensures few { IfOk result (λ lists. length lists.0.now < 2 ^ 32) }
{
    let number = usize::from(count - LEAST);
    let list = section::<B>(words, number)?;
    if count >= LEAST + SIZES_WITH_WORDS {
        return Ok((list, &words[..0]));
    }
    let class_words = section::<B>(words, number + usize::from(NUMBERS))?;
    Ok((list, class_words))
}

/// What the entries of a pair go by in a layout, in words that may be prepared ones: the lists of
/// the representatives of the classes of sets of its greater and of its lesser number of points,
/// each with the class words of the sets.
///
/// # Errors
/// [`ViewFault::Words`] in layout `Classes` where the words aren't prepared ones, as far as that is
/// known.
pub(crate) fn lists_in<B: Geometry>(
    words: &[u32],
    layout: Layout,
    pair: Pair<B>,
) -> Result<((&[u32], &[u32]), (&[u32], &[u32])), ViewFault>
    ensures lists_fit { (layout ≡ Layout.Classes → IsPrepared B.shape words.now) → IfOk result (λ lists. AreListsFor B.shape layout pair lists.0.0.now lists.1.0.now lists.0.1.now lists.1.1.now) }
    ensures ready { (layout ≡ Layout.Classes → IsPrepared B.shape words.now) → IsOk result }
    ensures tested { IfOk result (λ _. layout ≡ Layout.Classes → looks_prepared B.shape words.now ≡ true) }
    ensures few { IfOk result (λ lists. (length lists.0.0.now < 2 ^ 32) × (length lists.1.0.now < 2 ^ 32)) }
{
    let none = &words[..0];
    match layout {
        Layout::Full => Ok(((none, none), (none, none))),
        Layout::Classes => {
            let greater = lists_for::<B>(words, pair.greater())?;
            let lesser = lists_for::<B>(words, pair.lesser())?;
            Ok((greater, lesser))
        }
    }
}
