//! The command `build`.
ghost use Rattle.std.specs.Prelude.{◌≡◌, ◌+◌, ◌-◌, ◌^◌, ◌<◌, ◌≤◌, None, true, is_some, length, IfErr, IfOk, OnOk};
ghost use Rattle.std.specs.List.{flat_map};
ghost use Rattle.morris_board.specs.Streams.{CountsFailure, HasSent};
ghost use Rattle.morris_commands.specs.Build.{AnswersBuild, AnswersBuildOn, AnswersFiles, HasExact, HasExactBut, HasTables, IsUnbuiltBefore, RestsOnTooDeep, file_on, pairs_written};
ghost use Rattle.morris_jobs.specs.BoardNames.{board_of};
ghost use Rattle.morris_jobs.specs.Faults.{CountsWrites, is_write};
ghost use Rattle.morris_index.specs.Pairs.{EndsIn, below_of};
ghost use Rattle.morris_pairs.specs.Shelves.{first_missing, table_on};
ghost use Rattle.morris_pairs.specs.TableFiles.{file_of};

use morris_board::board::{Board, Geometry};
use morris_board::streams::Sink;
use morris_index::pair::Pair;
use morris_jobs::building::{BuildArgs, build_onto, drop_unneeded, layout_of};
use morris_jobs::context::{Context, Parallelism};
use morris_jobs::fault::Fault;
use morris_jobs::on_board;
use morris_jobs::pairs::read_pair;
use morris_jobs::progress::Progress;
use morris_jobs::size::Plan;
use morris_pairs::exact::Exact;
use morris_pairs::file_faults::Write;
use morris_pairs::layout::Layout;
use morris_pairs::table_set::TableSet;
use morris_pairs::writing::write_table;
use morris_workers::NoProgress;
use std::alloc::Global;
use std::sync::Wait;
use std::thread::Threads;

/// Builds the tables of all pairs below a pair on the board named `board`, in order and the pair's
/// own among them, and writes the file of the pair's table; or, with `all`, the files of all of
/// them, one after the other in that order. `pair` is the name of the pair, such as `4-3`. With
/// `classes` each table has an entry for each class of positions, and its file is of version 2;
/// otherwise it has one for each position, and its file is of version 1. Each is built by so many
/// workers over so many blocks; the bytes are the same for every number of them.
///
/// # Errors
/// [`Fault::Board`] where there is no such board, else [`Fault::PairText`], [`Fault::Counts`] or
/// [`Fault::Crowded`] where the text names no pair of the board, in this order; else
/// [`Fault::Workers`] where there aren't 1 to 64 workers, else [`Fault::Blocks`] where there aren't
/// 1 to 1,024 blocks; else the first refusal of a build: [`Fault::Memory`] where memory is refused,
/// [`Fault::Missing`] with the number of a block that was left incomplete, or [`Fault::TooDeep`]
/// where depths go past what a table can hold. Nothing is then written, since writing begins when
/// the last table is built. Else [`Fault::Write`], with the bytes that went out, at the first write
/// that fails.
pub fn build_out<R: Threads + Wait + Sync, O: Sink>(
    rt: &R,
    alloc: Global,
    board: &str,
    pair: &str,
    workers: usize,
    blocks: usize,
    all: bool,
    classes: bool,
    output: &mut O,
) -> Result<(), Fault>
    requires { O.failures output.old < 2 ^ 64 - 1 }
    ensures answer { AnswersBuild (board_of board.now) pair.now workers blocks all classes (O.contents output.old) (O.contents output.new) result }
    ensures counted { CountsWrites (O.failures output.old) (O.failures output.new) result }
{
    let build_args = BuildArgs {
        board,
        pair,
        workers,
        blocks,
    };
    let layout = layout_of(classes);
    on_board!(
        board,
        build_on::<R, O, NoProgress>(rt, alloc, build_args, all, layout, output, &mut NoProgress)
    )
}

/// Builds and writes on the board `B` what [`build_out`] does on the board of a name, in this
/// layout; the name in `build_args` isn't looked at. Reports to `progress`.
///
/// # Errors
/// Those of [`build_out`], in the same order, but for [`Fault::Board`].
pub fn build_on<B: Board, R: Threads + Wait + Sync, O: Sink, T: Progress>(
    rt: &R,
    alloc: Global,
    build_args: BuildArgs<'_>,
    all: bool,
    layout: Layout,
    output: &mut O,
    progress: &mut T,
) -> Result<(), Fault>
    requires { O.failures output.old < 2 ^ 64 - 1 }
    ensures answer { AnswersBuildOn B.shape layout build_args.entry.pair.now build_args.entry.workers build_args.entry.blocks all
        (O.contents output.old) (O.contents output.new) result }
    ensures counted { CountsWrites (O.failures output.old) (O.failures output.new) result }
    ensures reported { T.becomes progress.old progress.new }
{
    let pair = read_pair::<B>(build_args.pair)?;
    let parallelism = Parallelism::new(build_args.workers, build_args.blocks)?;
    let context = Context {
        rt,
        alloc,
        parallelism,
    };
    progress.start(pair, layout, Plan::Built { parallelism, all });
    let mut tables = build_before(context, layout, all, pair, progress)?;
    build_onto(context, &mut tables, layout, pair, progress)?;
    write_files(&tables, layout, pair, all, output)
}

/// Builds the tables of all pairs below a pair but its own, in order and in a layout; among them
/// are those that the pair needs. Unless `all`, each is dropped once no later pair needs it.
pub(crate) fn build_before<B: Board, R: Threads + Wait + Sync, T: Progress>(
    context: Context<'_, R>,
    layout: Layout,
    all: bool,
    pair: Pair<B>,
    progress: &mut T,
) -> Result<TableSet<B>, Fault>
    // The caller's proof learns here that the board has as many points as its shape says.
    ensures points { B.shape.points ≡ B.POINTS }
    ensures ready { IfOk result (λ tables. first_missing tables pair ≡ None) }
    ensures every { IfOk result (λ tables. all ≡ true → HasExactBut B.shape layout tables pair (below_of pair)) }
    ensures last { OnOk result (EndsIn (below_of pair) pair) }
    ensures within { OnOk result (¬ RestsOnTooDeep B.shape pair) }
    ensures refused { IfErr result (IsUnbuiltBefore B.shape pair context.entry.parallelism.blocks) }
    ensures reported { T.becomes progress.old progress.new }
{
    let mut tables = TableSet::new(context.alloc)?;
    for below in pair.below() {
        drop_unneeded(&mut tables, all, below);
        if below != pair {
            build_onto(context, &mut tables, layout, below, progress)?;
        }
    }
    Ok(tables)
}

/// Writes the file of a pair's table, or those of all pairs below it, in a layout.
fn write_files<B: Geometry, O: Sink>(
    tables: &TableSet<B>,
    layout: Layout,
    pair: Pair<B>,
    all: bool,
    output: &mut O,
) -> Result<(), Fault>
    requires failures { O.failures output.old < 2 ^ 64 - 1 }
    requires exact { HasExact B.shape layout tables.now (pairs_written all pair) }
    ensures files { AnswersFiles B.shape layout (pairs_written all pair) (O.contents output.old) (O.contents output.new) result }
    ensures unrefused { IfErr result (λ refused. is_write refused ≡ true) }
    ensures counted { CountsWrites (O.failures output.old) (O.failures output.new) result }
{
    match send_files(tables, layout, pair, all, output) {
        Ok(_) => Ok(()),
        Err(sent) => Err(Fault::Write(sent)),
    }
}

/// Sends these files, and answers how many bytes went out.
fn send_files<B: Geometry, O: Sink>(
    tables: &TableSet<B>,
    layout: Layout,
    pair: Pair<B>,
    all: bool,
    output: &mut O,
) -> Result<u64, u64>
    requires failures { O.failures output.old < 2 ^ 64 - 1 }
    requires exact { HasExact B.shape layout tables.now (pairs_written all pair) }
    ensures sent { HasSent (O.contents output.old) (O.contents output.new) 0 (flat_map (file_on B.shape tables.now) (pairs_written all pair)) result }
    ensures counted { CountsFailure (O.failures output.old) (O.failures output.new) result }
{
    if all {
        write_below(tables, pair, output)
    } else {
        write_one(tables, pair, 0, output)
    }
}

/// Writes the files of the tables of all pairs below a pair, and answers how many bytes went out.
fn write_below<B: Geometry, O: Sink>(
    tables: &TableSet<B>,
    pair: Pair<B>,
    output: &mut O,
) -> Result<u64, u64>
    requires failures { O.failures output.old < 2 ^ 64 - 1 }
    requires there { HasTables tables.now (below_of pair) }
    ensures sent { HasSent (O.contents output.old) (O.contents output.new) 0 (flat_map (file_on B.shape tables.now) (below_of pair)) result }
    ensures counted { CountsFailure (O.failures output.old) (O.failures output.new) result }
{
    let mut sent = 0;
    for below in pair.below() {
        sent = write_one(tables, below, sent, output)?;
    }
    Ok(sent)
}

/// Writes the file of a pair's table. `sent` counts the bytes that went out before it; the answer
/// counts those of the file too.
fn write_one<B: Geometry, O: Sink>(
    tables: &TableSet<B>,
    pair: Pair<B>,
    sent: u64,
    output: &mut O,
) -> Result<u64, u64>
    requires failures { O.failures output.old < 2 ^ 64 - 1 }
    requires there { is_some (table_on tables.now pair) ≡ true }
    requires room { sent < 2 ^ 60 }
    ensures sent { HasSent (O.contents output.old) (O.contents output.new) sent (file_on B.shape tables.now pair) result }
    ensures counted { CountsFailure (O.failures output.old) (O.failures output.new) result }
    ensures few { IfOk result (λ now. now ≤ sent + 2 ^ 42) }
{
    let Some(table) = tables.get(pair) else {
        unreachable!()
    };
    let length = file_length(table);
    match write_table(output, table) {
        Ok(()) => Ok(sent + length),
        Err(Write(more)) => Err(sent + more),
    }
}

/// How many bytes the file of a table has: 16 before the codes, 2 for each code, and 32 after them.
fn file_length<B: Geometry>(table: &Exact<B>) -> u64
    ensures value { result ≡ length (file_of B.shape table.now) }
    ensures few { result ≤ 2 ^ 42 }
{
    // The proof learns here how many entries there may be.
    let _ = table.len();
    16 + 2 * table.len() + 32
}
