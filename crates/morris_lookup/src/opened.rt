//! A table file that was opened: its codes are read where they lie.
ghost use Rattle.std.specs.Prelude.{◌≡◌, ◌-◌, ◌*◌, ◌<◌, ◌≤◌, ◌^◌, true, length, Ok, Err, Some, IfOk, IfErr, IfSome, IsOk, IsSome};
ghost use Rattle.morris_index.specs.Pairs.{is_of};
ghost use Rattle.morris_pairs.specs.Codes.{IsCodeOf, IsValue, value_in};
ghost use Rattle.morris_pairs.specs.Entries.{entry_count, entry_index};
ghost use Rattle.morris_pairs.specs.Raws.{IsRaw};
ghost use Rattle.morris_pairs.specs.Tables.{Table};
ghost use Rattle.morris_pairs.specs.TableFiles.{file_of};
ghost use Rattle.morris_lookup.specs.Opening.{IsCheckRefusal, IsOpeningRefusal, IsOpen, Opens};
ghost use Rattle.morris_lookup.specs.FileCodes.{IsChunk};
ghost use Rattle.morris_lookup.specs.Lookups.{code_for, depth_of, IsExactFile};
ghost use Rattle.morris_lookup.specs.Numberings.{Fits, FitsNumbering};

use crate::fault::OpenFault;
use crate::file_checks::{check_length, read_header};
use crate::numbering::{Numbering, lists_of};
use crate::storage::Storage;
use morris_board::board::Geometry;
use morris_board::position::Position;
use morris_board::streams::Failed;
use morris_index::pair::Pair;
use morris_pairs::exact::value_of_code;
use morris_pairs::file_faults::ReadFault;
use morris_pairs::header::HEADER;
use morris_pairs::layout::Layout;
use morris_pairs::value::Value;
use std::alloc::Global;
use std::marker::Model;

/// The file of a pair's table, whose bytes stay where they lie. Its header and its length were
/// found to be right; its codes and its digest weren't checked.
#[derive(Drop)]
pub struct Opened<B: Geometry, S: Storage> {
    layout: Layout,
    pair: Pair<B>,
    /// The representatives of the classes of sets of the greater number of points of the pair, and
    /// of the lesser one, in layout `Classes`.
    greater: Vec<u32>,
    lesser: Vec<u32>,
    /// The class words of the sets of either number of points, where these are few.
    greater_class_words: Vec<u32>,
    lesser_class_words: Vec<u32>,
    storage: S,
}

impl<B: Geometry, S: Storage> Model for Opened<B, S> {
    ghost use Rattle.morris_lookup.specs.Numberings.{AreListsFor};
    ghost use Rattle.morris_lookup.specs.Opening.{OpenFile, open_file, IsOpen};

    ghost Value = { OpenFile };

    ghost view = { λ file. open_file file.layout file.pair (S.contents file.storage) (S.held file.storage) };

    ghost invariant = { λ file. IsOpen B.shape (open_file file.layout file.pair (S.contents file.storage) (S.held file.storage))
        × AreListsFor B.shape file.layout file.pair file.greater.items file.lesser.items file.greater_class_words.items file.lesser_class_words.items };
}

impl<B: Geometry, S: Storage> Opened<B, S> {
    /// The pair of the file's positions.
    pub fn pair(&self) -> Pair<B>
        ensures value { result ≡ self.now.pair }
        ensures lawful { IsOpen B.shape self.now }
    {
        // The proof learns here what the header says.
        let _ = &self.storage;
        self.pair
    }

    /// How the entries of the file are laid out.
    pub fn layout(&self) -> Layout
        ensures { result ≡ self.now.layout }
    {
        self.layout
    }

    /// How many entries the file has.
    pub fn count(&self) -> u64
        ensures value { result ≡ entry_count B.shape B.POINTS self.now.layout self.now.pair }
        ensures few { result < 2 ^ 54 }
    {
        self.numbering().count()
    }

    /// Reads the codes from the entry `first` on, as many as there are and as there is room for:
    /// two bytes each, the high one first. Answers the entry after the last of them.
    ///
    /// # Errors
    /// [`Failed`] where they can't be read. Then `out` is open.
    pub(crate) fn read_codes(&self, first: u64, out: &mut [u8]) -> Result<u64, Failed>
        requires inside { first < entry_count B.shape B.POINTS self.now.layout self.now.pair }
        requires room { 2 ≤ length out.old }
        ensures more { IfOk result (λ end. first < end) }
        ensures fits { IfOk result (λ end. 2 * (end - first) ≤ length out.old) }
        ensures within { IfOk result (λ end. end ≤ entry_count B.shape B.POINTS self.now.layout self.now.pair) }
        ensures read { IfSome self.now.held (λ bytes. IfOk result (λ end. IsChunk bytes first end out.new)) }
        ensures sure { IsSome self.now.bytes → IsOk result }
    {
        let many = (self.count() - first).min((out.len() / 2) as u64);
        let chunk = &mut out[..2 * many as usize];
        self.storage.read_at(HEADER as u64 + 2 * first, chunk)?;
        Ok(first + many)
    }

    /// How the entries are numbered.
    fn numbering(&self) -> Numbering<'_, B>
        ensures layout { result.layout ≡ self.now.layout }
        ensures pair { result.pair ≡ self.now.pair }
        ensures lists_fit { FitsNumbering B.shape result }
        ensures fits { Fits result }
    {
        Numbering {
            layout: self.layout,
            pair: self.pair,
            greater: self.greater.as_slice(),
            lesser: self.lesser.as_slice(),
            greater_class_words: self.greater_class_words.as_slice(),
            lesser_class_words: self.lesser_class_words.as_slice(),
        }
    }

    /// The code that the file states at the entry of a position of its pair: the two bytes that
    /// stand there, the high one first. They are all that is read.
    ///
    /// # Errors
    /// [`Failed`] where they can't be read.
    pub fn code(&self, position: &Position<B>) -> Result<u16, Failed>
        requires { is_of self.now.pair position.now ≡ true }
        ensures stated { IfSome self.now.bytes (λ bytes. result ≡ Ok (code_for B.shape self.now bytes position.now)) }
        ensures exact { IsExactFile B.shape self.now → IfOk result (IsCodeOf B.shape position.now) }
    {
        // The proof learns the rules of a position where its stones are read.
        let _ = position.own();
        let mut code = [0; 2];
        let place = HEADER as u64 + 2 * self.numbering().entry(position);
        self.storage.read_at(place, &mut code)?;
        Ok(u16::from_be_bytes(code))
    }

    /// The value that the file states for a position of its pair. If the file is that of an exact
    /// table, it is the position's value in the game.
    ///
    /// # Errors
    /// [`Failed`] where the file can't be read.
    pub fn value(&self, position: &Position<B>) -> Result<Value, Failed>
        requires { is_of self.now.pair position.now ≡ true }
        ensures stated { IfSome self.now.bytes (λ bytes. result ≡ Ok (value_in (code_for B.shape self.now bytes position.now))) }
        ensures exact { IsExactFile B.shape self.now → IfOk result (IsValue B.shape position.now) }
        ensures few { IfOk result (λ value. depth_of value ≤ 65534) }
    {
        Ok(value_of_code(self.code(position)?))
    }
}

impl<B: Geometry, S: Storage + Drop> Opened<B, S> {
    /// Opens a file as that of a pair's table. Its header and its number of bytes have to be right;
    /// the codes and the digest aren't read.
    ///
    /// # Errors
    /// The first that applies: `Short` where there are fewer bytes than a header has; `Magic`,
    /// `Version`, `BoardId`, `Counts`, `Crowded` and `Count` for the header, as [`ReadFault`] says;
    /// `Short` and `Trailing` where there are fewer or more bytes than the file of that table has;
    /// [`OpenFault::Pair`] where it is a table of another pair. Before `Count`, `Memory` where
    /// there is no room for the classes of a file of version 2. `Read` where the file can't be
    /// read.
    pub fn open(alloc: Global, storage: S, pair: Pair<B>) -> Result<Opened<B, S>, OpenFault>
        ensures pair { IfOk result (λ file. file.pair ≡ pair) }
        ensures bytes { IfOk result (λ file. file.bytes ≡ S.contents storage) }
        ensures held { IfOk result (λ file. file.held ≡ S.held storage) }
        ensures right { IfOk result (IsOpen B.shape) }
        ensures refused { IfErr result (λ fault. IfSome (S.contents storage) (λ bytes. IsOpeningRefusal B.shape pair bytes fault)) }
        // The file of any table of the pair is opened, in either layout.
        ensures complete { (t : Table) → IsRaw B.shape t → t.pair ≡ pair → S.contents storage ≡ Some (file_of B.shape t) → Opens t.layout result }
    {
        let file = open_by_header(alloc, storage)?;
        if file.pair() != pair {
            return Err(OpenFault::Pair);
        }
        Ok(file)
    }
}

/// Opens a file as that of the pair that its header names.
///
/// # Errors
/// Those of [`Opened::open`], but for another pair.
fn open_by_header<B: Geometry, S: Storage + Drop>(
    alloc: Global,
    storage: S,
) -> Result<Opened<B, S>, ReadFault>
    ensures bytes { IfOk result (λ file. file.bytes ≡ S.contents storage) }
    ensures held { IfOk result (λ file. file.held ≡ S.held storage) }
    ensures right { IfOk result (IsOpen B.shape) }
    ensures refused { IfErr result (λ fault. IfSome (S.contents storage) (λ bytes. IsCheckRefusal B.shape bytes fault)) }
{
    let (layout, pair, entries, length) = read_header::<B, S>(&storage)?;
    // The proof learns the pair's invariant where a number is asked for.
    let _ = pair.greater();
    let (greater, lesser, greater_class_words, lesser_class_words) = lists_of(alloc, layout, pair)?;
    let numbering = Numbering {
        layout,
        pair,
        greater: greater.as_slice(),
        lesser: lesser.as_slice(),
        greater_class_words: greater_class_words.as_slice(),
        lesser_class_words: lesser_class_words.as_slice(),
    };
    check_length(entries, length, numbering.count())?;
    Ok(Opened {
        layout,
        pair,
        greater,
        lesser,
        greater_class_words,
        lesser_class_words,
        storage,
    })
}
