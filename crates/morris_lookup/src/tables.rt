//! The open files of many pairs.
ghost use Rattle.std.specs.Prelude.{◌≡◌, ◌≢◌, ◌<◌, ◌≤◌, None, Some, Ok, IfOk, IfSome, MatchResult};
ghost use Rattle.std.specs.Option.{option_copied};
ghost use Rattle.morris_index.specs.Pairs.{Counts, IsPair};
ghost use Rattle.morris_pairs.specs.Codes.{IsValue};
ghost use Rattle.morris_pairs.specs.Shelves.{place_of};
ghost use Rattle.morris_lookup.specs.Opening.{IsOpen};
ghost use Rattle.morris_lookup.specs.Lookups.{depth_of};
ghost use Rattle.morris_lookup.specs.FileSets.{file_for, AreFiles, IsExactAt, said_of, missing_file, IsValueRefusal};

use crate::fault::LookFault;
use crate::opened::Opened;
use crate::storage::Storage;
use morris_board::board::Geometry;
use morris_board::position::Position;
use morris_index::pair::Pair;
use morris_pairs::shelf::Needs;
use morris_pairs::value::Value;
use std::alloc::{AllocError, Global};
use std::marker::Model;

/// How many places there are: one for each two numbers of stones from 3 to 9.
const PLACES: usize = 49;

/// Open files, one for each pair at most.
#[derive(Drop)]
pub struct Tables<B: Geometry, S: Storage> {
    files: Vec<Option<Opened<B, S>>>,
}

impl<B: Geometry, S: Storage> Model for Tables<B, S> {
    ghost use Rattle.morris_lookup.specs.Lookups.{depth_of};
    ghost use Rattle.morris_lookup.specs.FileSets.{Files, AreFiles};

    ghost Value = { Files };

    ghost view = { λ tables. tables.files.items };

    ghost invariant = { λ tables. AreFiles B.shape tables.files.items };
}

impl<B: Geometry, S: Storage> Tables<B, S> {
    /// The open file of a pair, where there is one.
    pub fn get(&self, pair: Pair<B>) -> Option<&Opened<B, S>>
        ensures value { option_copied result ≡ file_for self.now pair }
        ensures right { IfSome result (λ file. (file.now.pair ≡ pair) × IsOpen B.shape file.now) }
        ensures all { AreFiles B.shape self.now }
    {
        self.files[place_of(pair)].as_ref()
    }

    /// The value that the files state for a position: that of the file of its pair. A player to
    /// move with two stones has lost in 0 plies: that needs no file. If the file is that of an
    /// exact table, it is the position's value in the game. Two bytes are read.
    ///
    /// # Errors
    /// [`LookFault::Needs`] with the pair of the position, where no file of it is open.
    /// [`LookFault::Read`] where the file can't be read.
    pub fn value(&self, position: &Position<B>) -> Result<Value, LookFault<B>>
        ensures said { (value : Value) → said_of B.shape self.now position.now ≡ Some value → result ≡ Ok value }
        ensures exact { IsExactAt B.shape self.now position.now → IfOk result (IsValue B.shape position.now) }
        ensures few { IfOk result (λ value. depth_of value ≤ 65534) }
        ensures refused { MatchResult result (λ _. missing_file self.now position.now ≡ None) (IsValueRefusal B.shape self.now position.now) }
    {
        // The proof learns the rules of a position where its stones are read.
        let _ = position.own();
        match Pair::of(position) {
            None => Ok(Value::Lost(0)),
            Some(pair) => match self.get(pair) {
                Some(file) => Ok(file.value(position)?),
                None => Err(LookFault::Needs(Needs(pair))),
            },
        }
    }
}

impl<B: Geometry, S: Storage + Drop> Tables<B, S> {
    /// No open files, with room for those of all pairs.
    ///
    /// # Errors
    /// [`AllocError`] where memory runs out. No other call takes memory.
    pub fn new(alloc: Global) -> Result<Tables<B, S>, AllocError>
        ensures { IfOk result (λ tables. (c : Counts) → file_for tables c ≡ None) }
    {
        let mut files = Vec::with_capacity(alloc, PLACES)?;
        for _ in 0..PLACES {
            files.push(None)?;
        }
        Ok(Tables { files })
    }

    /// Adds a file, in the place of the one of its pair that is there.
    pub fn put(&mut self, file: Opened<B, S>)
        ensures this { file_for self.new file.pair ≡ Some file }
        ensures others { (c : Counts) → c ≢ file.pair → file_for self.new c ≡ file_for self.old c }
    {
        let pair = file.pair();
        self.files[place_of(pair)] = Some(file);
    }
}

/// The place of a pair's file.
fn place_of<B: Geometry>(pair: Pair<B>) -> usize
    ensures place { result ≡ place_of pair }
    ensures inside { result < 49 }
    ensures lawful { IsPair B.POINTS pair }
{
    (usize::from(pair.greater()) - 3) * 7 + (usize::from(pair.lesser()) - 3)
}
