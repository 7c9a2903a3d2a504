//! The command `verify`.
ghost use Rattle.std.specs.Prelude.{◌≡◌, None, IfErr, IfOk, IfSome, OnOk};
ghost use Rattle.morris_pairs.specs.Tables.{IsTable};
ghost use Rattle.morris_jobs.specs.Faults.{CountsWrites};
ghost use Rattle.morris_jobs.specs.BoardNames.{board_of};
ghost use Rattle.morris_commands.specs.Build.{RestsOnTooDeep};
ghost use Rattle.morris_commands.specs.Verify.{AnswersInput, AnswersVerify, IsUnverified};
ghost use Rattle.morris_jobs.specs.Inputs.{IsUnfit, MayFail, input_of};

use crate::build::build_before;
use morris_board::board::Board;
use morris_board::streams::{Sink, Source};
use morris_jobs::building::verify_over;
use morris_jobs::context::Context;
use morris_jobs::fault::Fault;
use morris_jobs::on_board;
use morris_jobs::print::print;
use morris_jobs::print_verified::Verified;
use morris_jobs::progress::Progress;
use morris_jobs::size::Plan;
use morris_pairs::exact::Exact;
use morris_pairs::raw::Raw;
use morris_pairs::reading::read_table;
use morris_pairs::table_set::TableSet;
use morris_table::building::build_watched;
use morris_workers::OpenGate;
use std::sync::Wait;
use std::thread::Threads;

/// Reads the file of one table from `input`, which ends with it, for the board named `board`, and
/// states whether each of its codes is that of the game. It first builds the pairs below that of
/// the file, in order and in the layout of the file, since the values of a pair rest on theirs, and
/// then the pair itself. Where that table isn't the same, the workers divide the entries of the
/// file among themselves to find the first that is wrong. Reports to `progress`.
///
/// # Errors
/// [`Fault::Board`] where there is no such board, before anything is read; else the fault of the
/// file, as `read_table` of `morris_pairs` has it; else the first refusal of a pair below:
/// [`Fault::Memory`] where memory is refused, [`Fault::Missing`] with the number of a block that
/// was left incomplete, or [`Fault::TooDeep`] where depths in another pair, on which the file's
/// rests, go past what a table can hold; else [`Fault::Differs`] with the index of the first entry
/// that isn't what the rules give from the entries of its results. Nothing is then written. Else
/// [`Fault::Write`], with the bytes that went out, at the first write that fails.
pub fn verify_with<R: Threads + Wait + Sync, I: Source, O: Sink, T: Progress>(
    context: Context<'_, R>,
    board: &str,
    input: &mut I,
    output: &mut O,
    progress: &mut T,
) -> Result<(), Fault>
    requires streams { MayFail (I.failures input.old) (O.failures output.old) }
    ensures answer { AnswersVerify (board_of board.now) context.entry.parallelism.blocks (input_of (I.remaining input.old) (I.failures input.old)) (input_of (I.remaining input.new) (I.failures input.new))
        (O.contents output.old) (O.contents output.new) result }
    ensures unread { board_of board.now ≡ None → input.new ≡ input.old }
    ensures counted { CountsWrites (O.failures output.old) (O.failures output.new) result }
    ensures reported { T.becomes progress.old progress.new }
{
    on_board!(
        board,
        verify_on::<R, I, O, T>(context, input, output, progress)
    )
}

fn verify_on<B: Board, R: Threads + Wait + Sync, I: Source, O: Sink, T: Progress>(
    context: Context<'_, R>,
    input: &mut I,
    output: &mut O,
    progress: &mut T,
) -> Result<(), Fault>
    requires streams { MayFail (I.failures input.old) (O.failures output.old) }
    ensures answer { AnswersInput B.shape context.entry.parallelism.blocks (input_of (I.remaining input.old) (I.failures input.old)) (input_of (I.remaining input.new) (I.failures input.new))
        (O.contents output.old) (O.contents output.new) result }
    ensures counted { CountsWrites (O.failures output.old) (O.failures output.new) result }
    ensures reported { T.becomes progress.old progress.new }
{
    let raw = read_table::<B, I>(context.alloc, input)?;
    let exact = believe(context, raw, progress)?;
    let (pair, entries) = (exact.pair(), exact.len());
    print(&Verified { pair, entries }, output)
}

/// The table that was read, once each of its entries is known to be right.
fn believe<B: Board, R: Threads + Wait + Sync, T: Progress>(
    context: Context<'_, R>,
    raw: Raw<B>,
    progress: &mut T,
) -> Result<Exact<B>, Fault>
    ensures exact { IfOk result (λ exact. IsTable B.shape raw) }
    ensures value { IfOk result (λ exact. exact ≡ raw) }
    ensures within { OnOk result (¬ RestsOnTooDeep B.shape raw.pair) }
    ensures refused { IfErr result (IsUnverified B.shape raw context.entry.parallelism.blocks) }
    ensures reported { T.becomes progress.old progress.new }
{
    let (pair, layout) = (raw.pair(), raw.layout());
    progress.start(
        pair,
        layout,
        Plan::Verified {
            parallelism: context.parallelism,
            entries: raw.len(),
        },
    );
    let tables = build_before(context, layout, false, pair, progress)?;
    progress.begin_pair(pair);
    let exact = judge(context, &tables, raw, progress)?;
    progress.end_pair(&exact);
    Ok(exact)
}

/// The table that was read, once each of its entries is known to be right over a set of tables.
fn judge<B: Board, R: Threads + Wait + Sync, T: Progress>(
    context: Context<'_, R>,
    tables: &TableSet<B>,
    raw: Raw<B>,
    progress: &mut T,
) -> Result<Exact<B>, Fault>
    ensures exact { OnOk result (IsTable B.shape raw) }
    ensures value { IfOk result (λ exact. exact ≡ raw) }
    ensures refused { IfErr result (IsUnfit B.shape tables.now raw) }
    ensures reported { T.becomes progress.old progress.new }
{
    match build_alike(context, tables, &raw, progress) {
        Some(exact) => Ok(exact),
        None => verify_over(context, tables, raw, progress),
    }
}

/// The table of a pair as it is built from those of a set, where it is the same as one that was
/// read. `None` where it isn't, or where the build is refused.
///
/// Where few positions are decided, building a table takes less time than looking at all results of
/// its positions.
fn build_alike<B: Board, R: Threads + Wait + Sync, T: Progress>(
    context: Context<'_, R>,
    tables: &TableSet<B>,
    raw: &Raw<B>,
    progress: &mut T,
) -> Option<Exact<B>>
    ensures same { IfSome result (λ exact. exact ≡ raw.now) }
    ensures reported { T.becomes progress.old progress.new }
{
    let Context {
        rt,
        alloc,
        parallelism,
    } = context;
    let (pair, layout, gate) = (raw.pair(), raw.layout(), &OpenGate);
    let (workers, blocks) = (parallelism.workers, parallelism.blocks);
    match build_watched(
        rt, alloc, tables, pair, layout, gate, progress, workers, blocks,
    ) {
        Ok(built) if built.is_same(raw) => Some(built),
        Ok(_) | Err(_) => None,
    }
}
