//! How the entries of a file are numbered.
ghost use Rattle.std.specs.Prelude.{◌≡◌, ◌<◌, ◌≤◌, ◌^◌, true, IfOk, IsOk};
ghost use Rattle.morris_index.specs.Pairs.{IsPair, is_of};
ghost use Rattle.morris_pairs.specs.Entries.{entry_count, entry_index};
ghost use Rattle.morris_lookup.specs.Numberings.{AreListsFor, FitsNumbering, Fits};

use crate::class_entries::{class_index, class_size};
use crate::class_words::class_words;
use crate::representatives::representatives;
use morris_board::board::Geometry;
use morris_board::position::Position;
use morris_index::pair::Pair;
use morris_pairs::layout::Layout;
use std::alloc::{AllocError, Global};

/// The entries of a pair in a layout. In layout `Classes` they go by two lists, of the
/// representatives of the classes of sets of its greater and of its lesser number of points; in
/// layout `Full` these are empty. By other lists an entry is any number.
#[derive(Drop)]
pub(crate) struct Numbering<'a, B: Geometry> {
    pub(crate) layout: Layout,
    pub(crate) pair: Pair<B>,
    pub(crate) greater: &'a [u32],
    pub(crate) lesser: &'a [u32],
    /// The class words of the sets of either number of points, or nothing.
    pub(crate) greater_class_words: &'a [u32],
    pub(crate) lesser_class_words: &'a [u32],
}

impl<B: Geometry> Numbering<'_, B> {
    /// How many entries there are.
    pub(crate) fn count(&self) -> u64
        requires { Fits self.now }
        ensures value { FitsNumbering B.shape self.now → result ≡ entry_count B.shape B.POINTS self.now.layout self.now.pair }
        ensures few { result < 2 ^ 54 }
    {
        match self.layout {
            Layout::Full => self.pair.size(),
            Layout::Classes => class_size(self.pair, self.greater, self.lesser),
        }
    }

    /// The entry that states the value of a position of the pair.
    pub(crate) fn entry(&self, position: &Position<B>) -> u64
        requires fits { Fits self.now }
        requires of { is_of self.now.pair position.now ≡ true }
        ensures value { FitsNumbering B.shape self.now → result ≡ entry_index B.shape B.POINTS self.now.layout self.now.pair position.now }
        ensures below { FitsNumbering B.shape self.now → result < entry_count B.shape B.POINTS self.now.layout self.now.pair }
        ensures few { result < 2 ^ 55 }
    {
        // The proof learns the rules of a position where its stones are read, and how many entries
        // there may be.
        let _ = position.own();
        let _ = self.pair.size();
        match self.layout {
            Layout::Full => self.pair.index(position),
            Layout::Classes => class_index(
                self.pair,
                self.greater,
                self.lesser,
                self.greater_class_words,
                self.lesser_class_words,
                position,
            ),
        }
    }
}

/// What the entries of a pair go by in a layout: the lists of the representatives for its greater
/// and for its lesser number of points, 4 bytes for each class; then the class words of the sets of
/// either number, 4 bytes for each set where these are few. In layout `Full` there is nothing in
/// them.
///
/// # Errors
/// [`AllocError`] where memory runs out, which isn't asked for in layout `Full`.
pub(crate) fn lists_of<B: Geometry>(
    alloc: Global,
    layout: Layout,
    pair: Pair<B>,
) -> Result<(Vec<u32>, Vec<u32>, Vec<u32>, Vec<u32>), AllocError>
    ensures lists_fit { IfOk result (λ lists. AreListsFor B.shape layout pair lists.0.items lists.1.items lists.2.items lists.3.items) }
    ensures full { layout ≡ Layout.Full → IsOk result }
{
    match layout {
        Layout::Full => Ok((
            Vec::new(alloc),
            Vec::new(alloc),
            Vec::new(alloc),
            Vec::new(alloc),
        )),
        Layout::Classes => {
            let greater = representatives::<B>(alloc, pair.greater())?;
            let lesser = if pair.lesser() == pair.greater() {
                Vec::from_slice(alloc, greater.as_slice())?
            } else {
                representatives::<B>(alloc, pair.lesser())?
            };
            let greater_class_words = class_words::<B>(alloc, pair.greater(), greater.as_slice())?;
            let lesser_class_words = class_words::<B>(alloc, pair.lesser(), lesser.as_slice())?;
            Ok((greater, lesser, greater_class_words, lesser_class_words))
        }
    }
}
