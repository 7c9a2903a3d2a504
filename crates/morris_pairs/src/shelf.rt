//! The tables that others rest on.
ghost use Rattle.std.specs.Prelude.{◌≡◌, ◌≢◌, ◌<◌, Some, None, OnOk, OnErr, IfOk, IfErr, IfSome, MatchResult};
ghost use Rattle.std.specs.Option.{option_copied};
ghost use Rattle.morris_index.specs.Pairs.{Counts};
ghost use Rattle.morris_pairs.specs.Tables.{IsTable};
ghost use Rattle.morris_pairs.specs.Shelves.{table_on, first_missing, HasAllBelow};

use crate::exact::Exact;
use crate::table_set::TableSet;
use morris_board::board::Geometry;
use morris_index::pair::Pair;
use std::alloc::{AllocError, Global};
use std::marker::Model;
use thiserror::Error;

/// The table of this pair is needed and isn't on the shelf.
#[derive(Drop, Error)]
#[derive_where(Clone, Copy, Debug, PartialEq, Eq)]
#[error("needs {0}")]
pub struct Needs<B: Geometry>(pub Pair<B>);

/// A shelf with room for the tables of all pairs. A shelf that has the table of a pair has those of
/// all pairs below it.
#[derive(Drop)]
pub struct Shelf<B: Geometry> {
    tables: TableSet<B>,
}

impl<B: Geometry> Model for Shelf<B> {
    ghost use Rattle.morris_pairs.specs.Shelves.{Stored, IsShelf};

    ghost Value = { Stored };

    ghost view = { λ shelf. shelf.tables };

    ghost invariant = { λ shelf. IsShelf B.shape shelf.tables };
}

impl<B: Geometry> Shelf<B> {
    /// An empty shelf.
    ///
    /// # Errors
    /// [`AllocError`] where memory runs out. No other call takes memory.
    pub fn new(alloc: Global) -> Result<Shelf<B>, AllocError>
        ensures { IfOk result (λ shelf. (c : Counts) → table_on shelf c ≡ None) }
    {
        let tables = TableSet::new(alloc)?;
        Ok(Shelf { tables })
    }

    /// Puts a table on the shelf, in the place of the one of its pair that is there.
    ///
    /// # Errors
    /// The table and [`Needs`] with the first of the pairs that its pair needs whose table isn't on
    /// the shelf. Then the shelf is unchanged.
    pub fn put(&mut self, table: Exact<B>) -> Result<(), (Exact<B>, Needs<B>)>
        ensures needs { MatchResult result (λ _. first_missing self.old table.pair ≡ None)
            (λ refused. first_missing self.old table.pair ≡ Some refused.1.0) }
        ensures given_back { IfErr result (λ refused. refused.0 ≡ table) }
        ensures unchanged { OnErr result (self.new ≡ self.old) }
        ensures this { OnOk result (table_on self.new table.pair ≡ Some table) }
        ensures others { OnOk result ((c : Counts) → c ≢ table.pair → table_on self.new c ≡ table_on self.old c) }
    {
        if let Some(needs) = self.tables.missing(table.pair()) {
            return Err((table, needs));
        }
        self.tables.put(table);
        Ok(())
    }

    /// The table of a pair, where the shelf has it.
    pub fn get(&self, pair: Pair<B>) -> Option<&Exact<B>>
        ensures value { option_copied result ≡ table_on self.now pair }
        ensures exact { IfSome result (λ t. (t.now.pair ≡ pair) × IsTable B.shape t.now) }
        ensures below { IfSome result (λ _. HasAllBelow self.now pair) }
    {
        self.tables.get(pair)
    }

    /// All of its tables.
    pub fn tables(&self) -> &TableSet<B>
        ensures { result.now ≡ self.now }
    {
        &self.tables
    }
}
