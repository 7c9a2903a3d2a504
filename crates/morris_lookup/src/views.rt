//! Table files as they lie in memory, and the value of a position by them.
ghost use Rattle.std.specs.Prelude.{◌≡◌, ◌≤◌, true, IfOk};
ghost use Rattle.std.specs.Option.{option_copied};
ghost use Rattle.morris_index.specs.Pairs.{is_of};
ghost use Rattle.morris_pairs.specs.Codes.{IsValue};
ghost use Rattle.morris_lookup.specs.Lookups.{depth_of};
ghost use Rattle.morris_lookup.specs.Prepared.{looks_prepared};
ghost use Rattle.morris_lookup.specs.Views.{contents, file_of_pair, names_pair, value_said, value_of_bytes, is_by_classes, needs_words, HasWordsFor, HasWordsForAll, IsExactAt};

use crate::codes::code_in;
use crate::fault::ViewFault;
use crate::file_checks::{check_length, read_header};
use crate::numbering::Numbering;
use crate::prepared::lists_in;
use morris_board::board::Geometry;
use morris_board::position::Position;
use morris_index::pair::Pair;
use morris_pairs::exact::value_of_code;
use morris_pairs::header::HEADER;
use morris_pairs::value::Value;

/// The bytes of a table file, which somebody else owns and nobody changes meanwhile.
#[repr(C)]
#[derive(Clone, Copy)]
pub struct View<'a> {
    /// All bytes of the file, from the first on.
    pub bytes: &'a [u8],
}

/// The value that files state for a position: that of the first file that names its pair in the
/// header. A player to move with two stones has lost in 0 plies: that needs no file. Of the file
/// the header is read, and two bytes. No memory is taken.
///
/// `words` are needed for files by classes alone, and have to be those that
/// [`prepare`](crate::prepared) filled for this board: else the value is any. Where that file is
/// the one of an exact table, it is the position's value in the game.
///
/// # Errors
/// [`ViewFault::NoFile`] where no file names the position's pair. [`ViewFault::File`] where the
/// file isn't one of this board, by its header and by how many bytes it has. [`ViewFault::Words`]
/// where the file is one by classes and the words don't begin as prepared ones, or are too few.
pub fn value<B: Geometry>(
    files: &[View<'_>],
    words: &[u32],
    position: &Position<B>,
) -> Result<Value, ViewFault>
    ensures said { HasWordsForAll B.shape words.now (contents files.now) → result ≡ value_said B.shape (contents files.now) position.now }
    ensures exact { HasWordsForAll B.shape words.now (contents files.now) → IsExactAt B.shape (contents files.now) position.now → IfOk result (IsValue B.shape position.now) }
    ensures unready { IfOk result (λ _. needs_words (contents files.now) position.now ≡ true → looks_prepared B.shape words.now ≡ true) }
    ensures few { IfOk result (λ value. depth_of value ≤ 65534) }
{
    // The proof learns the rules of a position where its stones are read.
    let _ = position.own();
    match Pair::of(position) {
        None => Ok(Value::Lost(0)),
        Some(pair) => match file_of_pair(files, pair) {
            None => Err(ViewFault::NoFile),
            Some(bytes) => value_of_file(bytes, words, pair, position),
        },
    }
}

/// The value that the bytes of a file state for a position, whose pair they name.
///
/// # Errors
/// [`ViewFault::File`] with the first that applies: `Short` where there are fewer bytes than a
/// header has; `Magic`, `Version` and `BoardId` for the header; `Count` where it states another
/// number of entries; `Short` and `Trailing` where there are fewer or more bytes than the file of
/// that table has. Before `Count`, [`ViewFault::Words`] where the file is one by classes and the
/// words don't look prepared.
fn value_of_file<B: Geometry>(
    bytes: &[u8],
    words: &[u32],
    pair: Pair<B>,
    position: &Position<B>,
) -> Result<Value, ViewFault>
    requires of { is_of pair position.now ≡ true }
    requires named { names_pair pair bytes.now ≡ true }
    ensures said { HasWordsFor B.shape words.now bytes.now → result ≡ value_of_bytes B.shape position.now bytes.now }
    ensures unready { IfOk result (λ _. is_by_classes bytes.now ≡ true → looks_prepared B.shape words.now ≡ true) }
    ensures few { IfOk result (λ value. depth_of value ≤ 65534) }
{
    let (layout, _, entries, length) = read_header::<B, &[u8]>(&bytes)?;
    let (greater, lesser) = lists_in(words, layout, pair)?;
    let numbering = Numbering {
        layout,
        pair,
        greater: greater.0,
        lesser: lesser.0,
        greater_class_words: greater.1,
        lesser_class_words: lesser.1,
    };
    check_length(entries, length, numbering.count())?;
    let place = HEADER / 2 + numbering.entry(position) as usize;
    if bytes.len() < 2 * place + 2 {
        // The entry lies in the file where the words are prepared ones.
        return Err(ViewFault::Words);
    }
    Ok(value_of_code(code_in(bytes, place)))
}

/// The bytes of the first file that names this pair in its header.
fn file_of_pair<'a, B: Geometry>(files: &[View<'a>], pair: Pair<B>) -> Option<&'a [u8]>
    ensures { option_copied result ≡ file_of_pair (contents files.now) pair }
{
    for view in files {
        if names_pair(view.bytes, pair) {
            return Some(view.bytes);
        }
    }
    None
}

/// Whether the bytes have a header, with the numbers of stones of this pair.
fn names_pair<B: Geometry>(bytes: &[u8], pair: Pair<B>) -> bool
    ensures { result ≡ names_pair pair bytes.now }
{
    HEADER <= bytes.len() && bytes[6] == pair.greater() && bytes[7] == pair.lesser()
}
