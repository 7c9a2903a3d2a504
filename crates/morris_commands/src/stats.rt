//! The command `stats`.
ghost use Rattle.std.specs.Prelude.{◌≡◌, ◌≢◌, ◌-◌, ◌^◌, ◌<◌, None, Some, true, IfErr, IfOk, OnOk};
ghost use Rattle.morris_index.specs.Pairs.{Counts, EndsIn, below_of};
ghost use Rattle.morris_pairs.specs.Counting.{coded_entries};
ghost use Rattle.morris_pairs.specs.Known.{IsBeyondCodes};
ghost use Rattle.morris_pairs.specs.Shelves.{first_missing, table_on};
ghost use Rattle.morris_pairs.specs.Tables.{IsTable};
ghost use Rattle.morris_jobs.specs.Faults.{CountsWrites};
ghost use Rattle.morris_jobs.specs.BoardNames.{board_of};
ghost use Rattle.morris_jobs.specs.Building.{HasExactAt, IsUnbuiltAt};
ghost use Rattle.morris_commands.specs.Build.{IsUnbuiltBefore, RestsOnTooDeep};
ghost use Rattle.morris_commands.specs.Stats.{AnswersByClasses, AnswersByClassesOn, AnswersCounts, AnswersOn, AnswersStats};

use crate::build::build_before;
use crate::deepest::Deepest;
use crate::print_stats::Counted;
use morris_board::board::{Board, Geometry};
use morris_board::streams::Sink;
use morris_index::pair::Pair;
use morris_jobs::building::{BuildArgs, build_onto};
use morris_jobs::context::{Context, Parallelism};
use morris_jobs::counts::{Form, Tallied, print_counts};
use morris_jobs::fault::Fault;
use morris_jobs::on_board;
use morris_jobs::pairs::read_pair;
use morris_jobs::print::print;
use morris_jobs::progress::Progress;
use morris_jobs::size::Plan;
use morris_pairs::counting::Entries;
use morris_pairs::exact::Exact;
use morris_pairs::layout::Layout;
use morris_pairs::shelf::Shelf;
use morris_pairs::sweeping::sweep_pair_watched;
use morris_workers::NoProgress;
use std::alloc::Global;
use std::sync::Wait;
use std::thread::Threads;

/// Counts the values of all positions of a pair on the board named `board`; `pair` is its name,
/// such as `4-3`. It prints how many positions there are, how many of them are lost or won in each
/// depth that some position has, in ascending order, and how many are draws. The pairs below it are
/// swept first, in order, since the values of a pair rest on theirs.
///
/// # Errors
/// Those of [`stats_with`].
pub fn stats<S: Sink>(alloc: Global, board: &str, pair: &str, output: &mut S) -> Result<(), Fault>
    requires { S.failures output.old < 2 ^ 64 - 1 }
    ensures answer { AnswersStats (board_of board.now) pair.now Form.Text (S.contents output.old) (S.contents output.new) result }
    ensures counted { CountsWrites (S.failures output.old) (S.failures output.new) result }
{
    stats_with(alloc, board, pair, Form::Text, output, &mut NoProgress)
}

/// Prints what [`stats`] prints in this form, and reports to `progress`. With [`Form::Deepest`] two
/// lines more show positions of the pair with the greatest depths: one that is won, and one that is
/// lost; of several the one with the least index. With [`Form::Csv`] there is a line of fields for
/// each number of stones of the player to move and each value that occurs.
///
/// # Errors
/// [`Fault::Board`] where there is no such board, else [`Fault::PairText`], [`Fault::Counts`] or
/// [`Fault::Crowded`] where the text names no pair of the board, in this order; else
/// [`Fault::Memory`] where memory is refused, or [`Fault::TooDeep`] where depths in the pair, or in
/// one that it rests on, go past what a table can hold. Nothing is then written. Else
/// [`Fault::Write`], with the bytes that went out, at the first write that fails.
pub fn stats_with<S: Sink, T: Progress>(
    alloc: Global,
    board: &str,
    pair: &str,
    form: Form,
    output: &mut S,
    progress: &mut T,
) -> Result<(), Fault>
    requires { S.failures output.old < 2 ^ 64 - 1 }
    ensures answer { AnswersStats (board_of board.now) pair.now form (S.contents output.old) (S.contents output.new) result }
    ensures counted { CountsWrites (S.failures output.old) (S.failures output.new) result }
    ensures reported { T.becomes progress.old progress.new }
{
    on_board!(board, stats_on::<S, T>(alloc, pair, form, output, progress))
}

fn stats_on<B: Board, S: Sink, T: Progress>(
    alloc: Global,
    text: &str,
    form: Form,
    output: &mut S,
    progress: &mut T,
) -> Result<(), Fault>
    requires { S.failures output.old < 2 ^ 64 - 1 }
    ensures answer { AnswersOn B.shape text.now form (S.contents output.old) (S.contents output.new) result }
    ensures counted { CountsWrites (S.failures output.old) (S.failures output.new) result }
    ensures reported { T.becomes progress.old progress.new }
{
    let pair = read_pair::<B>(text)?;
    progress.start(pair, Layout::Full, Plan::Swept);
    let mut shelf = sweep_before(alloc, pair, progress)?;
    sweep_onto(alloc, &mut shelf, pair, progress)?;
    let Some(table) = shelf.get(pair) else {
        unreachable!()
    };
    print_form(alloc, table, form, output)
}

/// Prints how many positions of a table's pair have each value, in the form that is asked for.
fn print_form<B: Geometry, S: Sink>(
    alloc: Global,
    table: &Exact<B>,
    form: Form,
    output: &mut S,
) -> Result<(), Fault>
    requires { S.failures output.old < 2 ^ 64 - 1 }
    ensures answer { AnswersCounts B.shape table.now.pair form (S.contents output.old) (S.contents output.new) result }
    ensures counted { CountsWrites (S.failures output.old) (S.failures output.new) result }
{
    // The proof learns here that the table is exact, and how many codes it has.
    let (pair, _) = (table.pair(), table.len());
    let mut entries = Entries::of(alloc, pair, table.layout(), table)?;
    match form {
        Form::Text => print_counts(alloc, &mut entries, false, output),
        Form::Csv => print_counts(alloc, &mut entries, true, output),
        Form::Deepest => print_deepest(alloc, table, &mut entries, output),
    }
}

/// Prints how many positions of a table's pair have each value, and the deepest ones. The entries
/// are those of the table.
fn print_deepest<B: Geometry, S: Sink>(
    alloc: Global,
    table: &Exact<B>,
    entries: &mut Entries<B, &Exact<B>>,
    output: &mut S,
) -> Result<(), Fault>
    requires failures { S.failures output.old < 2 ^ 64 - 1 }
    requires exact { IsTable B.shape table.now }
    requires same { entries.old ≡ coded_entries table.now.layout table.now.pair (Some table.now.codes) true }
    ensures answer { AnswersCounts B.shape table.now.pair Form.Deepest (S.contents output.old) (S.contents output.new) result }
    ensures counted { CountsWrites (S.failures output.old) (S.failures output.new) result }
{
    let tallied = Tallied::of(alloc, entries)?;
    let deepest = Deepest::of(alloc, table)?;
    print(&Counted { tallied, deepest }, output)
}

/// The tables of all pairs below a pair but its own, among them those that it needs.
pub(crate) fn sweep_before<B: Board, T: Progress>(
    alloc: Global,
    pair: Pair<B>,
    progress: &mut T,
) -> Result<Shelf<B>, Fault>
    // The caller's proof learns here that the board has as many points as its shape says.
    ensures points { B.shape.points ≡ B.POINTS }
    ensures ready { IfOk result (λ shelf. first_missing shelf pair ≡ None) }
    ensures last { OnOk result (EndsIn (below_of pair) pair) }
    ensures within { OnOk result (¬ RestsOnTooDeep B.shape pair) }
    ensures refused { IfErr result (IsUnbuiltBefore B.shape pair 0) }
    ensures reported { T.becomes progress.old progress.new }
{
    let mut shelf = Shelf::new(alloc)?;
    for below in pair.below() {
        if below != pair {
            sweep_onto(alloc, &mut shelf, below, progress)?;
        }
    }
    Ok(shelf)
}

/// Puts the table of a pair on a shelf that has those that it needs.
fn sweep_onto<B: Board, T: Progress>(
    alloc: Global,
    shelf: &mut Shelf<B>,
    pair: Pair<B>,
    progress: &mut T,
) -> Result<(), Fault>
    requires { first_missing shelf.old pair ≡ None }
    ensures exact { OnOk result (HasExactAt B.shape Layout.Full shelf.new pair) }
    ensures others { OnOk result ((other : Counts) → other ≢ pair → table_on shelf.new other ≡ table_on shelf.old other) }
    ensures within { OnOk result (¬ IsBeyondCodes B.shape pair) }
    ensures refused { IfErr result (IsUnbuiltAt B.shape pair 0) }
    ensures reported { T.becomes progress.old progress.new }
{
    progress.begin_pair(pair);
    let table = sweep_pair_watched(alloc, shelf, pair, progress)?;
    progress.end_pair(&table);
    match shelf.put(table) {
        Ok(()) => Ok(()),
        Err(_) => unreachable!(),
    }
}

/// Prints what [`stats_with`] prints, counted from tables by classes. So many workers build each of
/// these over so many blocks; the text is the same for every number of them. Reports to `progress`.
///
/// # Errors
/// [`Fault::Board`] where there is no such board, else [`Fault::PairText`], [`Fault::Counts`] or
/// [`Fault::Crowded`] where the text names no pair of the board, in this order; else
/// [`Fault::Workers`] where there aren't 1 to 64 workers, else [`Fault::Blocks`] where there aren't
/// 1 to 1,024 blocks; else the first refusal of a build: [`Fault::Memory`] where memory is refused,
/// [`Fault::Missing`] with the number of a block that was left incomplete, or [`Fault::TooDeep`]
/// where depths go past what a table can hold. Nothing is then written. Else [`Fault::Write`], with
/// the bytes that went out, at the first write that fails.
pub fn stats_by_classes<R: Threads + Wait + Sync, S: Sink, T: Progress>(
    rt: &R,
    alloc: Global,
    build_args: BuildArgs<'_>,
    form: Form,
    output: &mut S,
    progress: &mut T,
) -> Result<(), Fault>
    requires { S.failures output.old < 2 ^ 64 - 1 }
    ensures answer { AnswersByClasses (board_of build_args.entry.board.now) build_args.entry.pair.now build_args.entry.workers build_args.entry.blocks form
        (S.contents output.old) (S.contents output.new) result }
    ensures counted { CountsWrites (S.failures output.old) (S.failures output.new) result }
    ensures reported { T.becomes progress.old progress.new }
{
    on_board!(
        build_args.board,
        by_classes_on::<R, S, T>(rt, alloc, build_args, form, output, progress)
    )
}

fn by_classes_on<B: Board, R: Threads + Wait + Sync, S: Sink, T: Progress>(
    rt: &R,
    alloc: Global,
    build_args: BuildArgs<'_>,
    form: Form,
    output: &mut S,
    progress: &mut T,
) -> Result<(), Fault>
    requires { S.failures output.old < 2 ^ 64 - 1 }
    ensures answer { AnswersByClassesOn B.shape build_args.entry.pair.now build_args.entry.workers build_args.entry.blocks form
        (S.contents output.old) (S.contents output.new) result }
    ensures counted { CountsWrites (S.failures output.old) (S.failures output.new) result }
    ensures reported { T.becomes progress.old progress.new }
{
    let pair = read_pair::<B>(build_args.pair)?;
    let parallelism = Parallelism::new(build_args.workers, build_args.blocks)?;
    let context = Context {
        rt,
        alloc,
        parallelism,
    };
    // Tables that the pair rests on are dropped once no later pair needs them.
    let (layout, all) = (Layout::Classes, false);
    progress.start(pair, layout, Plan::Built { parallelism, all });
    let mut tables = build_before(context, layout, all, pair, progress)?;
    build_onto(context, &mut tables, layout, pair, progress)?;
    let Some(table) = tables.get(pair) else {
        unreachable!()
    };
    print_form(alloc, table, form, output)
}
