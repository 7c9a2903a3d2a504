//! The tables that graphs are made over.
ghost use Rattle.std.specs.Prelude.{◌≡◌, ◌≢◌, ◌+◌, ◌/◌, ◌%◌, ◌<◌, ◌==◌, true, Some, None, IfOk, IfSome, MatchOption, if◌then◌else◌};
ghost use Rattle.std.specs.Option.{option_copied};
ghost use Rattle.morris_index.specs.Pairs.{Counts, IsPair};
ghost use Rattle.morris_pairs.specs.Tables.{IsTable};
ghost use Rattle.morris_pairs.specs.Shelves.{AreTables, first_missing, has_place, retained_from, place_of, table_on};

use crate::exact::Exact;
use crate::shelf::Needs;
use morris_board::board::Geometry;
use morris_index::pair::Pair;
use std::alloc::{AllocError, Global};
use std::marker::Model;

/// How many places there are: one for each two numbers of stones from 3 to 9.
const PLACES: usize = 49;

/// The exact tables of some pairs. Those that no pair to come needs can be let go: a pair needs
/// tables of one stone less than its own, and no others, so whoever builds pair after pair holds
/// those of two neighbouring numbers of stones.
#[derive(Drop)]
pub struct TableSet<B: Geometry> {
    tables: Vec<Option<Exact<B>>>,
}

impl<B: Geometry> Model for TableSet<B> {
    ghost use Rattle.morris_pairs.specs.Shelves.{AreTables, Stored};

    ghost Value = { Stored };

    ghost view = { λ set. set.tables.items };

    ghost invariant = { λ set. AreTables B.shape set.tables.items };
}

impl<B: Geometry> TableSet<B> {
    /// No tables.
    ///
    /// # Errors
    /// [`AllocError`] where memory runs out. No other call takes memory.
    pub fn new(alloc: Global) -> Result<TableSet<B>, AllocError>
        ensures none { IfOk result (λ set. (c : Counts) → table_on set c ≡ None) }
        ensures lawful { IfOk result (AreTables B.shape) }
    {
        let mut tables = Vec::with_capacity(alloc, PLACES)?;
        for _ in 0..PLACES {
            tables.push_reserved(None);
        }
        Ok(TableSet { tables })
    }

    /// Puts a table into the set, in the place of the one of its pair that is there.
    pub fn put(&mut self, table: Exact<B>)
        ensures this { table_on self.new table.pair ≡ Some table }
        ensures others { (c : Counts) → c ≢ table.pair → table_on self.new c ≡ table_on self.old c }
        ensures lawful { AreTables B.shape self.new }
    {
        let pair = table.pair();
        self.tables[place_of(pair)] = Some(table);
    }

    /// The table of a pair, where it is there.
    pub fn get(&self, pair: Pair<B>) -> Option<&Exact<B>>
        ensures value { option_copied result ≡ table_on self.now pair }
        ensures exact { IfSome result (λ t. (t.now.pair ≡ pair) × IsTable B.shape t.now) }
    {
        self.tables[place_of(pair)].as_ref()
    }

    /// The first of the pairs that this pair needs whose table isn't there.
    pub(crate) fn missing(&self, pair: Pair<B>) -> Option<Needs<B>>
        ensures { MatchOption result (first_missing self.now pair ≡ None) (λ needs. first_missing self.now pair ≡ Some needs.0) }
    {
        let (first, second) = pair.needs();
        if let Some(need) = first {
            if self.get(need).is_none() {
                return Some(Needs(need));
            }
        }
        if let Some(need) = second {
            if self.get(need).is_none() {
                return Some(Needs(need));
            }
        }
        None
    }

    /// Lets the tables go of all pairs that have fewer stones together than this.
    pub fn let_go(&mut self, stones: u8)
        ensures { (c : Counts) → table_on self.new c ≡ retained_from stones self.old c }
    {
        for place in 0..PLACES {
            let (greater, lesser) = (3 + place / 7, 3 + place % 7);
            if greater + lesser < usize::from(stones) {
                self.forget(place);
            }
        }
    }

    /// Lets the table at a place go.
    fn forget(&mut self, place: usize)
        requires { place < 49 }
        ensures { (c : Counts) → has_place c ≡ true → table_on self.new c ≡ (if place_of c == place then None else table_on self.old c) }
    {
        self.tables[place] = None;
    }
}

/// The place of a pair's table.
fn place_of<B: Geometry>(pair: Pair<B>) -> usize
    ensures place { result ≡ place_of pair }
    ensures inside { result < 49 }
    ensures lawful { IsPair B.POINTS pair }
{
    (usize::from(pair.greater()) - 3) * 7 + (usize::from(pair.lesser()) - 3)
}
