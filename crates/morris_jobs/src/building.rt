//! What to build, and how the tables are built or verified, one after the other.
ghost use Rattle.std.specs.Prelude.{◌≡◌, ◌≢◌, None, true, false, IfErr, IfOk, OnOk};
ghost use Rattle.morris_index.specs.Pairs.{Counts};
ghost use Rattle.morris_pairs.specs.Building.{IsBuilt};
ghost use Rattle.morris_pairs.specs.Known.{IsBeyondCodes};
ghost use Rattle.morris_pairs.specs.Shelves.{first_missing, table_on};
ghost use Rattle.morris_pairs.specs.Tables.{IsTable};
ghost use Rattle.morris_jobs.specs.Faults.{is_write};
ghost use Rattle.morris_jobs.specs.Inputs.{IsUnfit};
ghost use Rattle.morris_jobs.specs.Building.{HasExactAt, ArePruned, IsUnbuiltAt, RetainsNear, layout_for};

use crate::context::Context;
use crate::fault::Fault;
use crate::progress::Progress;
use morris_board::board::{Board, Geometry};
use morris_index::pair::Pair;
use morris_pairs::exact::Exact;
use morris_pairs::layout::Layout;
use morris_pairs::raw::Raw;
use morris_pairs::table_set::TableSet;
use morris_table::building::build_watched;
use morris_workers::OpenGate;
use std::sync::Wait;
use std::thread::Threads;

/// Which tables to build, and by how many workers over how many blocks.
#[derive(Clone, Copy, Debug)]
pub struct BuildArgs<'a> {
    /// The name of the board.
    pub board: &'a str,
    /// The pair, such as `4-3`. Its table comes after those of all pairs below it.
    pub pair: &'a str,
    /// How many workers there are.
    pub workers: usize,
    /// How many blocks the entries of each pair are divided into.
    pub blocks: usize,
}

/// The layout of the tables: by classes where that is asked for, else full.
pub fn layout_of(classes: bool) -> Layout
    ensures { result ≡ layout_for classes }
{
    if classes {
        Layout::Classes
    } else {
        Layout::Full
    }
}

/// Drops the tables that neither this pair nor any after it needs, unless all are to be retained.
pub fn drop_unneeded<B: Geometry>(tables: &mut TableSet<B>, all: bool, pair: Pair<B>)
    ensures near { ArePruned tables.old tables.new pair }
    ensures all { all ≡ true → (c : Counts) → table_on tables.new c ≡ table_on tables.old c }
    ensures gone { all ≡ false → RetainsNear tables.old tables.new pair }
{
    if !all {
        tables.let_go(pair.greater() + pair.lesser() - 1);
    }
}

/// Builds the table of a pair in a layout from the tables that it needs, which `tables` has.
pub fn build_over<B: Board, R: Threads + Wait + Sync, T: Progress>(
    context: Context<'_, R>,
    tables: &TableSet<B>,
    layout: Layout,
    pair: Pair<B>,
    progress: &mut T,
) -> Result<Exact<B>, Fault>
    requires ready { first_missing tables.now pair ≡ None }
    ensures built { IfOk result (IsBuilt B.shape layout pair) }
    ensures refused { IfErr result (IsUnbuiltAt B.shape pair context.entry.parallelism.blocks) }
    ensures reported { T.becomes progress.old progress.new }
{
    let Context {
        rt,
        alloc,
        parallelism,
    } = context;
    let (gate, workers, blocks) = (&OpenGate, parallelism.workers, parallelism.blocks);
    progress.begin_pair(pair);
    let table = build_watched(
        rt, alloc, tables, pair, layout, gate, progress, workers, blocks,
    )?;
    progress.end_pair(&table);
    Ok(table)
}

/// Builds the table of a pair in a layout from the tables that it needs, which `tables` has, and
/// adds it to them.
pub fn build_onto<B: Board, R: Threads + Wait + Sync, T: Progress>(
    context: Context<'_, R>,
    tables: &mut TableSet<B>,
    layout: Layout,
    pair: Pair<B>,
    progress: &mut T,
) -> Result<(), Fault>
    requires ready { first_missing tables.old pair ≡ None }
    ensures exact { OnOk result (HasExactAt B.shape layout tables.new pair) }
    ensures others { OnOk result ((other : Counts) → other ≢ pair → table_on tables.new other ≡ table_on tables.old other) }
    ensures within { OnOk result (¬ IsBeyondCodes B.shape pair) }
    ensures refused { IfErr result (IsUnbuiltAt B.shape pair context.entry.parallelism.blocks) }
    ensures reported { T.becomes progress.old progress.new }
{
    let table = build_over(context, tables, layout, pair, progress)?;
    tables.put(table);
    Ok(())
}

/// Verifies a table that was read: it is returned as exact once each of its entries is known to be
/// right by the tables that it needs. The workers divide the entries among themselves.
///
/// # Errors
/// [`Fault::Needs`] with the first pair that the table's pair needs and that has no table in
/// `tables`, else [`Fault::Differs`] with the index of the first entry that isn't what the rules
/// give from the entries of its results.
pub fn verify_over<B: Board, R: Threads + Sync, T: Progress>(
    context: Context<'_, R>,
    tables: &TableSet<B>,
    raw: Raw<B>,
    progress: &mut T,
) -> Result<Exact<B>, Fault>
    ensures ready { OnOk result (first_missing tables.now raw.pair ≡ None) }
    ensures value { IfOk result (λ exact. exact ≡ raw) }
    ensures exact { OnOk result (IsTable B.shape raw) }
    ensures refused { IfErr result (IsUnfit B.shape tables.now raw) }
    ensures unwritten { IfErr result (λ refused. is_write refused ≡ false) }
    ensures reported { T.becomes progress.old progress.new }
{
    let Context {
        rt,
        alloc,
        parallelism,
    } = context;
    match raw.verify_watched(rt, alloc, tables, parallelism.workers, progress) {
        Ok(exact) => Ok(exact),
        Err((_raw, refused)) => Err(Fault::from(refused)),
    }
}
