//! The entries of a pair with codes that are read one after the other, and how many positions have
//! each code.
ghost use Rattle.std.specs.Prelude.{◌≡◌, ◌≢◌, ℕ, ◌*◌, ◌^◌, ◌<◌, ◌≤◌, Bool, List, Option, Some, Err, None, true, false, length, slice_index, IfOk, IfSome, IsOk, MatchOption, OnOk, vec_len};
ghost use Rattle.morris_board.specs.Boards.{Shape};
ghost use Rattle.morris_board.specs.Positions.{IsPosition};
ghost use Rattle.morris_index.specs.ClassPairs.{class_size_of};
ghost use Rattle.morris_index.specs.Pairs.{IsPair, is_of};
ghost use Rattle.morris_pairs.specs.Counting.{AreSoMany, AreTalliesOf, IsOfEntry, coded_entries, first_half_of, table_of};
ghost use Rattle.morris_pairs.specs.Entries.{entry_count, entry_index, has_own_entry};
ghost use Rattle.morris_pairs.specs.Numberings.{layout_of, pair_of};
ghost use Rattle.morris_pairs.specs.Tables.{Table};

use crate::exact::Exact;
use crate::layout::Layout;
use crate::numbering::Numbering;
use morris_board::board::Geometry;
use morris_board::position::Position;
use morris_board::streams::Failed;
use morris_index::class_pair::ClassPair;
use morris_index::pair::Pair;
use std::alloc::{AllocError, Global};
use std::marker::Model;
use thiserror::Error;

/// How many codes there are.
const CODES: usize = 1 << 16;

/// Codes of entries, which are read one after the other.
pub trait Coded {
    // The codes, where they are known. A call may fail all the same.
    ghost stated: { Self → Option (List ℕ) };
    // Whether no call fails.
    ghost unfailing: { Self → Bool };
    // How many there are.
    ghost many: { Self → ℕ };

    /// The code of an entry. It is at hand soonest where that of the preceding entry was read last.
    ///
    /// # Errors
    /// [`Failed`] where it can't be read.
    fn read_code(&mut self, entry: u64) -> Result<u16, Failed>
        requires { entry < many self.old }
        ensures stays { stated self.new ≡ stated self.old }
        ensures as_sure { unfailing self.new ≡ unfailing self.old }
        ensures as_many { many self.new ≡ many self.old }
        ensures read { IfSome (stated self.old) (λ known. IfOk result (λ code. code ≡ slice_index known entry)) }
        ensures sure { unfailing self.old ≡ true → IsOk result };
}

/// The codes of a table.
impl<B: Geometry> Coded for &Exact<B> {
    ghost stated = { λ table. Some table.now.codes };

    ghost unfailing = { λ _. true };

    ghost many = { λ table. length table.now.codes };

    fn read_code(&mut self, entry: u64) -> Result<u16, Failed> {
        let table: &Exact<B> = *self;
        // The proof learns here that there is a code for each entry.
        let _ = table.len();
        Ok(table.code(entry))
    }
}

/// Why positions aren't counted.
#[derive(Clone, Copy, Debug, PartialEq, Eq, Error)]
pub enum CountFault {
    /// Want of memory.
    #[error("out of memory")]
    Memory,
    /// A code couldn't be read.
    #[error("reading failed")]
    Read,
}

impl From<AllocError> for CountFault {
    ghost use Rattle.morris_pairs.specs.declared.counting.CountFault.TheVariants.{Memory};

    ghost from_gives = { λ _ fault. fault ≡ Memory };

    fn from(_refused: AllocError) -> CountFault {
        CountFault::Memory
    }
}

impl From<Failed> for CountFault {
    ghost use Rattle.morris_pairs.specs.declared.counting.CountFault.TheVariants.{Read};

    ghost from_gives = { λ _ fault. fault ≡ Read };

    fn from(_failed: Failed) -> CountFault {
        CountFault::Read
    }
}

/// The entries of a pair, and their codes.
#[derive(Drop)]
pub struct Entries<B: Geometry, C: Coded> {
    numbering: Numbering<B>,
    codes: C,
}

impl<B: Geometry, C: Coded> Model for Entries<B, C> {
    ghost use Rattle.std.specs.Prelude.{◌≤◌};
    ghost use Rattle.morris_pairs.specs.Counting.{CodedEntries, coded_entries};
    ghost use Rattle.morris_pairs.specs.Entries.{entry_count};
    ghost use Rattle.morris_pairs.specs.Numberings.{layout_of, pair_of};

    ghost Value = { CodedEntries };

    ghost view = { λ entries. coded_entries (layout_of entries.numbering) (pair_of entries.numbering) (C.stated entries.codes) (C.unfailing entries.codes) };

    ghost invariant = { λ entries. entry_count B.shape B.POINTS (layout_of entries.numbering) (pair_of entries.numbering) ≤ C.many entries.codes };
}

impl<B: Geometry, C: Coded + Drop> Entries<B, C> {
    /// The entries of a pair in a layout, with these codes, one for each of them.
    ///
    /// # Errors
    /// [`AllocError`] where memory runs out, which isn't asked for in layout `Full`.
    pub fn of(
        alloc: Global,
        pair: Pair<B>,
        layout: Layout,
        codes: C,
    ) -> Result<Entries<B, C>, AllocError>
        requires { entry_count B.shape B.POINTS layout pair ≤ C.many codes }
        ensures { IfOk result (λ entries. entries ≡ coded_entries layout pair (C.stated codes) (C.unfailing codes)) }
    {
        let numbering = Numbering::make(alloc, pair, layout)?;
        Ok(Entries { numbering, codes })
    }
}

impl<B: Geometry, C: Coded> Entries<B, C> {
    /// The pair.
    pub fn pair(&self) -> Pair<B>
        ensures value { result ≡ self.now.pair }
        ensures lawful { IsPair B.POINTS self.now.pair }
    {
        self.numbering.pair()
    }

    /// How many entries there are.
    pub fn count(&self) -> u64
        ensures value { result ≡ entry_count B.shape B.POINTS self.now.layout self.now.pair }
        ensures few { result ≤ 2 ^ 40 }
        ensures lawful { IsPair B.POINTS self.now.pair }
    {
        // The proof learns here that the numbers of stones are those of a pair.
        let _ = self.numbering.pair();
        self.numbering.count()
    }

    /// How many of the entries have the greater number of stones of the player to move. They are
    /// the first ones.
    pub fn first_half(&self) -> u64
        ensures value { result ≡ first_half_of B.shape B.POINTS self.now.layout self.now.pair }
        ensures within { result ≤ entry_count B.shape B.POINTS self.now.layout self.now.pair }
        ensures few { result ≤ 2 ^ 39 }
    {
        match &self.numbering {
            Numbering::Full(pair) => pair.first_half(),
            Numbering::Classes(classes) => classes.first_half(),
        }
    }

    /// The position whose own entry this is.
    pub fn position(&self, entry: u64) -> Position<B>
        requires { entry < entry_count B.shape B.POINTS self.now.layout self.now.pair }
        ensures entry { entry_index B.shape B.POINTS self.now.layout self.now.pair result ≡ entry }
        ensures counts { is_of self.now.pair result ≡ true }
        ensures lawful { IsPosition B.shape result }
        ensures own { has_own_entry B.shape self.now.layout result ≡ true }
    {
        self.numbering.position(entry)
    }

    /// The entries by classes, in layout `Classes`.
    pub fn classes(&self) -> Option<&ClassPair<B>>
        ensures { MatchOption result (self.now.layout ≡ Layout.Full) (λ classes. (self.now.layout ≡ Layout.Classes) × (classes.now ≡ self.now.pair)) }
    {
        match &self.numbering {
            Numbering::Full(_) => None,
            Numbering::Classes(classes) => Some(classes),
        }
    }

    /// The code of an entry, see [`Coded::read_code`].
    ///
    /// # Errors
    /// [`Failed`] where it can't be read.
    pub fn read_code(&mut self, entry: u64) -> Result<u16, Failed>
        requires { entry < entry_count B.shape B.POINTS self.old.layout self.old.pair }
        ensures stays { self.new ≡ self.old }
        ensures read { IfSome self.old.stated (λ known. IfOk result (λ code. code ≡ slice_index known entry)) }
        ensures sure { self.old.unfailing ≡ true → IsOk result }
    {
        self.codes.read_code(entry)
    }

    /// How many positions have each code of 16 bits, where these have an entry from `first` on and
    /// below `end`: all of them, or, where `all` is false, those that have an entry of their own.
    ///
    /// # Errors
    /// [`CountFault::Memory`] where memory runs out, and [`CountFault::Read`] where a code can't be
    /// read.
    pub fn tally(
        &mut self,
        alloc: Global,
        all: bool,
        first: u64,
        end: u64,
    ) -> Result<Vec<u64>, CountFault>
        requires order { first ≤ end }
        requires inside { end ≤ entry_count B.shape B.POINTS self.old.layout self.old.pair }
        ensures stays { self.new ≡ self.old }
        ensures room { IfOk result (λ tallies. length tallies.items ≡ 2 ^ 16) }
        ensures small { IfOk result (λ tallies. (code : ℕ) → slice_index tallies.items code ≤ 2 ^ 44) }
        ensures counted { IfOk result (λ tallies. IfSome self.old.stated (λ known. AreTalliesOf B.shape (table_of self.old known) all first end tallies.items)) }
        ensures sure { self.old.unfailing ≡ true → result ≢ Err CountFault.Read }
    {
        let mut tallies = no_tallies(alloc, CODES)?;
        self.count_into(all, first, end, tallies.as_mut_slice())?;
        Ok(tallies)
    }

    /// Adds the positions of [`Entries::tally`] to tallies of none.
    ///
    /// # Errors
    /// [`Failed`] where a code can't be read.
    fn count_into(
        &mut self,
        all: bool,
        first: u64,
        end: u64,
        tallies: &mut [u64],
    ) -> Result<(), Failed>
        requires order { first ≤ end }
        requires inside { end ≤ entry_count B.shape B.POINTS self.old.layout self.old.pair }
        requires room { length tallies.old ≡ 2 ^ 16 }
        requires none { (code : ℕ) → slice_index tallies.old code ≡ 0 }
        ensures stays { self.new ≡ self.old }
        ensures small { OnOk result ((code : ℕ) → slice_index tallies.new code ≤ 2 ^ 44) }
        ensures counted { OnOk result (IfSome self.old.stated (λ known. AreTalliesOf B.shape (table_of self.old known) all first end tallies.new)) }
        ensures sure { self.old.unfailing ≡ true → IsOk result }
    {
        // The proof learns here how many entries there may be, and the pair's rules.
        let _ = (self.numbering.count(), self.numbering.pair());
        match &self.numbering {
            Numbering::Full(_) => count_chunk(&mut self.codes, first, end, 1, tallies),
            Numbering::Classes(classes) if all => {
                count_rows(classes, &mut self.codes, first, end, tallies)
            }
            Numbering::Classes(_) => count_chunk(&mut self.codes, first, end, 1, tallies),
        }
    }
}

/// As many tallies, none of which has counted anything.
fn no_tallies(alloc: Global, count: usize) -> Result<Vec<u64>, AllocError>
    ensures room { IfOk result (λ tallies. vec_len tallies ≡ count) }
    ensures none { IfOk result (λ tallies. (code : ℕ) → slice_index tallies.items code ≡ 0) }
{
    let tallies = vec![in alloc; 0u64; count]?;
    Ok(tallies)
}

/// Adds `orbit_size` for the code of each entry from `first` on and below `end`. Each of these
/// entries has an orbit of this size.
///
/// # Errors
/// [`Failed`] where a code can't be read.
fn count_chunk<C: Coded>(
    codes: &mut C,
    first: u64,
    end: u64,
    orbit_size: u64,
    tallies: &mut [u64],
) -> Result<(), Failed>
    requires order { first ≤ end }
    requires inside { end ≤ C.many codes.old }
    requires few { end ≤ 2 ^ 40 }
    requires orbit_size { orbit_size ≤ 16 }
    requires room { length tallies.old ≡ 2 ^ 16 }
    requires small { (code : ℕ) → slice_index tallies.old code ≤ 16 * first }
    ensures stays { (C.stated codes.new ≡ C.stated codes.old) × (C.unfailing codes.new ≡ C.unfailing codes.old) × (C.many codes.new ≡ C.many codes.old) }
    ensures small { OnOk result ((code : ℕ) → slice_index tallies.new code ≤ 16 * end) }
    ensures counted { OnOk result ((board : Shape) (t : Table) (all : Bool) (start : ℕ) → start ≤ first → C.stated codes.old ≡ Some t.codes
        → ((entry : ℕ) → first ≤ entry → entry < end → AreSoMany (IsOfEntry board t.layout t.pair all entry) orbit_size)
        → AreTalliesOf board t all start first tallies.old → AreTalliesOf board t all start end tallies.new) }
    ensures sure { C.unfailing codes.old ≡ true → IsOk result }
{
    for entry in first..end {
        let code = codes.read_code(entry)?;
        tallies[usize::from(code)] += orbit_size;
    }
    Ok(())
}

/// Adds the orbit size of each entry from `first` on and below `end` for its code, row by row: the
/// orbits of the entries of a row have the same size.
///
/// # Errors
/// [`Failed`] where a code can't be read.
fn count_rows<B: Geometry, C: Coded>(
    classes: &ClassPair<B>,
    codes: &mut C,
    first: u64,
    end: u64,
    tallies: &mut [u64],
) -> Result<(), Failed>
    requires order { first ≤ end }
    requires inside { end ≤ C.many codes.old }
    requires within { end ≤ class_size_of B.shape B.POINTS classes.now }
    requires room { length tallies.old ≡ 2 ^ 16 }
    requires none { (code : ℕ) → slice_index tallies.old code ≡ 0 }
    ensures stays { (C.stated codes.new ≡ C.stated codes.old) × (C.unfailing codes.new ≡ C.unfailing codes.old) × (C.many codes.new ≡ C.many codes.old) }
    ensures small { OnOk result ((code : ℕ) → slice_index tallies.new code ≤ 16 * end) }
    ensures counted { OnOk result ((t : Table) → t.layout ≡ Layout.Classes → t.pair ≡ classes.now → C.stated codes.old ≡ Some t.codes
        → AreTalliesOf B.shape t true first end tallies.new) }
    ensures sure { C.unfailing codes.old ≡ true → IsOk result }
{
    // The proof learns here how many entries there may be, and the pair's rules.
    let _ = (classes.size(), classes.pair());
    let mut entry = first;
    while entry < end {
        let row = classes.row_from(entry);
        let next = end.min(entry + row.len() as u64);
        count_chunk(codes, entry, next, classes.orbit_size(&row), tallies)?;
        entry = next;
    }
    Ok(())
}
