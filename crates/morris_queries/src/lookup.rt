//! The command `lookup`, for a list of position strings and for the lines of an input.
ghost use Rattle.std.specs.Prelude.{◌≡◌, ◌-◌, ◌^◌, ◌<◌, Err, map};
ghost use Rattle.morris_jobs.specs.BoardNames.{board_of};
ghost use Rattle.morris_jobs.specs.Faults.{CountsWrites};
ghost use Rattle.morris_queries.specs.Answers.{AnswersLookup};
ghost use Rattle.morris_queries.specs.LineAnswers.{AnswersInput, CountsReads};

use crate::library::Library;
use crate::lines::answer_lines;
use crate::show::Show;
use crate::strings::answer_strings;
use morris_board::streams::{Sink, Source};
use morris_jobs::fault::Fault;
use morris_jobs::on_board;
use std::alloc::Global;

/// Answers position strings on the board named `board`, each in turn, from the table files of a
/// library, and counts those that are answered by a fault. What an answer is,
/// [`answer_string`](crate::answer::answer_string) says. A file is opened when a position first
/// needs it, and stays open.
///
/// # Errors
/// [`Fault::Board`] where there is no such board; then [`Fault::NoFolder`] where the
/// place of the files isn't there; then [`Fault::Memory`] where there is no room for the
/// places of open files; in these cases nothing was written. [`Fault::Write`], with the bytes
/// that went out, at the first write that fails.
pub fn lookup_strings<L: Library, O: Sink>(
    alloc: Global,
    board: &str,
    library: &mut L,
    strings: &[&str],
    show: Show,
    output: &mut O,
) -> Result<u64, Fault>
    requires failures { O.failures output.old < 2 ^ 64 - 1 }
    ensures unchanged { L.files library.new ≡ L.files library.old }
    ensures answer { AnswersLookup (board_of board.now) board.now (L.files library.old) show (map (λ text. text.now) strings.now) (O.contents output.old) (O.contents output.new) result }
    ensures counted { CountsWrites (O.failures output.old) (O.failures output.new) result }
{
    on_board!(
        board,
        answer_strings::<L, O>(alloc, board, library, strings, show, output)
    )
}

/// Answers positions on the board named `board`, one on each line of an input, each as soon as its
/// line has come, from the table files of a library, and counts those that are answered by a fault.
/// What a line is, [`answer_lines`] says.
///
/// # Errors
/// [`Fault::Board`] where there is no such board, before anything is read; otherwise those of
/// [`answer_lines`].
pub fn lookup_lines<L: Library, I: Source, O: Sink>(
    alloc: Global,
    board: &str,
    library: &mut L,
    input: &mut I,
    show: Show,
    output: &mut O,
) -> Result<u64, Fault>
    requires reading { I.failures input.old < 2 ^ 64 - 1 }
    requires writing { O.failures output.old < 2 ^ 64 - 1 }
    ensures unchanged { L.files library.new ≡ L.files library.old }
    ensures answer { AnswersInput (board_of board.now) board.now (L.files library.old) show (I.remaining input.old) (I.remaining input.new) (O.contents output.old) (O.contents output.new) result }
    ensures unread { result ≡ Err Fault.Board → input.new ≡ input.old }
    ensures unfound { result ≡ Err Fault.NoFolder → input.new ≡ input.old }
    ensures reads { CountsReads (I.remaining input.old) (I.remaining input.new) (I.failures input.old) (I.failures input.new) result }
    ensures counted { CountsWrites (O.failures output.old) (O.failures output.new) result }
{
    on_board!(
        board,
        answer_lines::<L, I, O>(alloc, board, library, input, show, output)
    )
}
