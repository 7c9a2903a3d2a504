//! The verification of one file on the thread of the caller.
ghost use Rattle.std.specs.Prelude.{◌≡◌, None, IfErr, IfOk, OnOk};
ghost use Rattle.morris_pairs.specs.Tables.{IsTable};
ghost use Rattle.morris_jobs.specs.Faults.{CountsWrites};
ghost use Rattle.morris_jobs.specs.BoardNames.{board_of};
ghost use Rattle.morris_commands.specs.Build.{RestsOnTooDeep};
ghost use Rattle.morris_commands.specs.Verify.{AnswersInput, AnswersVerify, IsUnverified};
ghost use Rattle.morris_jobs.specs.Inputs.{MayFail, input_of};

use crate::probe::verify_over;
use crate::stats::sweep_before;
use morris_board::board::Board;
use morris_board::streams::{Sink, Source};
use morris_jobs::fault::Fault;
use morris_jobs::on_board;
use morris_jobs::print::print;
use morris_jobs::print_verified::Verified;
use morris_pairs::exact::Exact;
use morris_pairs::raw::Raw;
use morris_pairs::reading::read_table;
use morris_workers::NoProgress;
use std::alloc::Global;

/// Reads the file of one table from `input`, which ends with it, for the board named `board`, and
/// states whether each of its codes is that of the game. It starts no thread: the pairs below that
/// of the file are swept on the thread of the caller, in order and with an entry for each position,
/// since the values of a pair rest on theirs; then the entries of the file are verified there.
///
/// # Errors
/// Those of [`verify_with`](crate::verify::verify_with), in the same order, but for
/// [`Fault::Missing`]: there are no blocks.
pub fn verify_in<I: Source, O: Sink>(
    alloc: Global,
    board: &str,
    input: &mut I,
    output: &mut O,
) -> Result<(), Fault>
    requires streams { MayFail (I.failures input.old) (O.failures output.old) }
    ensures answer { AnswersVerify (board_of board.now) 0 (input_of (I.remaining input.old) (I.failures input.old)) (input_of (I.remaining input.new) (I.failures input.new))
        (O.contents output.old) (O.contents output.new) result }
    ensures unread { board_of board.now ≡ None → input.new ≡ input.old }
    ensures counted { CountsWrites (O.failures output.old) (O.failures output.new) result }
{
    on_board!(board, verify_alone::<I, O>(alloc, input, output))
}

fn verify_alone<B: Board, I: Source, O: Sink>(
    alloc: Global,
    input: &mut I,
    output: &mut O,
) -> Result<(), Fault>
    requires streams { MayFail (I.failures input.old) (O.failures output.old) }
    ensures answer { AnswersInput B.shape 0 (input_of (I.remaining input.old) (I.failures input.old)) (input_of (I.remaining input.new) (I.failures input.new))
        (O.contents output.old) (O.contents output.new) result }
    ensures counted { CountsWrites (O.failures output.old) (O.failures output.new) result }
{
    let raw = read_table::<B, I>(alloc, input)?;
    let exact = believe_alone(alloc, raw)?;
    let (pair, entries) = (exact.pair(), exact.len());
    print(&Verified { pair, entries }, output)
}

/// The table that was read, once each of its entries is known to be right over the tables of the
/// pairs below, which are swept first.
fn believe_alone<B: Board>(alloc: Global, raw: Raw<B>) -> Result<Exact<B>, Fault>
    ensures exact { OnOk result (IsTable B.shape raw) }
    ensures value { IfOk result (λ exact. exact ≡ raw) }
    ensures within { OnOk result (¬ RestsOnTooDeep B.shape raw.pair) }
    ensures refused { IfErr result (IsUnverified B.shape raw 0) }
{
    let shelf = sweep_before(alloc, raw.pair(), &mut NoProgress)?;
    verify_over(&shelf, raw)
}
