//! The command `verify` over the table files of one input.
ghost use Rattle.std.specs.Prelude.{◌≡◌, None};
ghost use Rattle.morris_jobs.specs.Faults.{CountsWrites};
ghost use Rattle.morris_jobs.specs.BoardNames.{board_of};
ghost use Rattle.morris_folder_commands.specs.Bundle.{AnswersBundle, AnswersBundleOn};
ghost use Rattle.morris_jobs.specs.Inputs.{MayFail, input_of};

use crate::from::{end_of, take_in};
use morris_board::board::Board;
use morris_board::streams::{Sink, Source};
use morris_jobs::building::drop_unneeded;
use morris_jobs::context::{Context, Parallelism};
use morris_jobs::fault::Fault;
use morris_jobs::on_board;
use morris_jobs::progress::Progress;
use morris_jobs::size::FolderSize;
use morris_pairs::reading::read_next;
use morris_pairs::table_set::TableSet;
use std::alloc::Global;
use std::thread::Threads;

/// How many table files are taken from the input at most, as by `probe`.
const MOST_FILES: u8 = 64;

/// Reads table files of the board named `board` from `input`, one after the other to its end, at
/// most 64 of them, in either version; and before it reads the next, states of each on `output`
/// that its table is right: that each of its codes is known to be that of the game, by the tables
/// before it. A table rests on those of the pairs that its pair needs, whose files have to come
/// before it. Once a file is read, those tables are dropped that neither its pair needs nor one of
/// more stones: so the files come in order of the stones of their pairs, as `build` writes all of
/// them. The workers divide the entries of a table among themselves.
///
/// At first `progress` gets the number of entries of the first file alone, since it isn't known how
/// many files follow.
///
/// Fewer than `u64::MAX` calls of either stream may have failed before.
///
/// # Errors
/// [`Fault::Board`] where there is no such board, before anything is read. Else the first refusal,
/// after which nothing is read: that of a file, as `read_next` of `morris_pairs` has it;
/// [`Fault::InFile`], with the file's pair, where its table needs one that isn't there, or where an
/// entry isn't what the rules give from the entries of its results; [`Fault::TooMany`] where a 65th
/// file was read; [`Fault::Memory`] where memory is refused; [`Fault::Write`], with all bytes that
/// went out, at the first write to `output` that fails. Else [`Fault::NoFiles`] where the input was
/// empty.
pub fn verify_bundle<R: Threads + Sync, I: Source, O: Sink, T: Progress>(
    rt: &R,
    alloc: Global,
    board: &str,
    parallelism: Parallelism,
    input: &mut I,
    output: &mut O,
    progress: &mut T,
) -> Result<(), Fault>
    requires streams { MayFail (I.failures input.old) (O.failures output.old) }
    ensures answer { AnswersBundle (board_of board.now) (input_of (I.remaining input.old) (I.failures input.old)) (input_of (I.remaining input.new) (I.failures input.new))
        (O.contents output.old) (O.contents output.new) result }
    ensures unread { board_of board.now ≡ None → input.new ≡ input.old }
    ensures counted { CountsWrites (O.failures output.old) (O.failures output.new) result }
    ensures reported { T.becomes progress.old progress.new }
{
    let context = Context {
        rt,
        alloc,
        parallelism,
    };
    on_board!(
        board,
        bundle_on::<R, I, O, T>(context, input, output, progress)
    )
}

fn bundle_on<B: Board, R: Threads + Sync, I: Source, O: Sink, T: Progress>(
    context: Context<'_, R>,
    input: &mut I,
    output: &mut O,
    progress: &mut T,
) -> Result<(), Fault>
    requires streams { MayFail (I.failures input.old) (O.failures output.old) }
    ensures answer { AnswersBundleOn B.shape (input_of (I.remaining input.old) (I.failures input.old)) (input_of (I.remaining input.new) (I.failures input.new))
        (O.contents output.old) (O.contents output.new) result }
    ensures counted { CountsWrites (O.failures output.old) (O.failures output.new) result }
    ensures reported { T.becomes progress.old progress.new }
{
    let mut tables = TableSet::new(context.alloc)?;
    let (mut sent, mut found) = (0, false);
    for place in 0..=MOST_FILES {
        let Some(raw) = read_next::<B, I>(context.alloc, input)? else {
            return end_of(found);
        };
        if place == MOST_FILES {
            return Err(Fault::TooMany);
        }
        let (pair, entries) = (raw.pair(), raw.len());
        // What was reported before isn't reported again.
        progress.start_with_size(FolderSize::NONE.with(pair, entries).size);
        drop_unneeded(&mut tables, false, pair);
        sent = take_in(context, &mut tables, raw, sent, output, progress)?;
        found = true;
    }
    unreachable!()
}
