//! The command `probe`.
ghost use Rattle.std.specs.Prelude.{◌≡◌, ◌-◌, ◌^◌, ◌<◌, None, Some, false, IfErr, IfOk, OnOk};
ghost use Rattle.morris_pairs.specs.Shelves.{first_missing};
ghost use Rattle.morris_pairs.specs.Tables.{IsTable};
ghost use Rattle.morris_jobs.specs.Faults.{CountsWrites, is_write};
ghost use Rattle.morris_jobs.specs.BoardNames.{board_of};
ghost use Rattle.morris_commands.specs.Probe.{AnswersOnBoard, AnswersProbe, IsAsked, LoadsBundle, AnswersReport};
ghost use Rattle.morris_jobs.specs.Inputs.{IsUnfit, Joins};
ghost use Rattle.morris_jobs.specs.Inputs.{MayFail, input_of};

use morris_board::board::Board;
use morris_board::position::Position;
use morris_board::streams::{Sink, Source};
use morris_index::pair::Pair;
use morris_jobs::fault::Fault;
use morris_jobs::on_board;
use morris_jobs::progress::Progress;
use morris_jobs::size::Plan;
use morris_pairs::exact::Exact;
use morris_pairs::raw::Raw;
use morris_pairs::reading::read_next;
use morris_pairs::shelf::Shelf;
use morris_probe::report::report;
use morris_workers::NoProgress;
use std::alloc::Global;

/// How many table files are taken from the input at most.
const MOST_FILES: u8 = 64;

/// Reports a position on the board named `board`, from its position string `text`: its value and
/// its best moves, as the tables on the input have them. The input is a bundle: table files one
/// after the other to its end, at most 64 of them. A table comes after those of the pairs that its
/// pair needs; each is verified as it comes, and takes the place of an earlier one of its pair.
///
/// # Errors
/// Those of [`probe_with`].
pub fn probe_in<I: Source, O: Sink>(
    alloc: Global,
    board: &str,
    text: &str,
    input: &mut I,
    output: &mut O,
) -> Result<(), Fault>
    requires streams { MayFail (I.failures input.old) (O.failures output.old) }
    ensures answer { AnswersProbe (board_of board.now) text.now (input_of (I.remaining input.old) (I.failures input.old))
        (input_of (I.remaining input.new) (I.failures input.new)) (O.contents output.old) (O.contents output.new) result }
    ensures unread { ¬ IsAsked (board_of board.now) text.now → input.new ≡ input.old }
    ensures counted { CountsWrites (O.failures output.old) (O.failures output.new) result }
{
    probe_with(alloc, board, text, input, output, &mut NoProgress)
}

/// Reports what [`probe_in`] reports, with its progress to `progress`.
///
/// # Errors
/// [`Fault::Board`] where there is no such board, else [`Fault::Length`], [`Fault::Character`] or
/// [`Fault::Stones`] where the text isn't a position string, in this order and before anything is
/// read. Else the first fault of the bundle: that of a file, as `read_next` of `morris_pairs` has
/// it; [`Fault::TooMany`] where a 65th file was read; [`Fault::Needs`] with the first pair that a
/// table needs and that isn't there, or [`Fault::Differs`] with the index of the first entry that
/// isn't what the rules give from the entries of its results. Else [`Fault::Needs`] with the pair
/// of the position, where its table isn't there. [`Fault::Memory`] where memory is refused. In all
/// these cases nothing is written. Else [`Fault::Write`], with the bytes that went out, at the
/// first write that fails.
pub fn probe_with<I: Source, O: Sink, T: Progress>(
    alloc: Global,
    board: &str,
    text: &str,
    input: &mut I,
    output: &mut O,
    progress: &mut T,
) -> Result<(), Fault>
    requires streams { MayFail (I.failures input.old) (O.failures output.old) }
    ensures answer { AnswersProbe (board_of board.now) text.now (input_of (I.remaining input.old) (I.failures input.old))
        (input_of (I.remaining input.new) (I.failures input.new)) (O.contents output.old) (O.contents output.new) result }
    ensures unread { ¬ IsAsked (board_of board.now) text.now → input.new ≡ input.old }
    ensures counted { CountsWrites (O.failures output.old) (O.failures output.new) result }
    ensures reported { T.becomes progress.old progress.new }
{
    on_board!(
        board,
        probe_on::<I, O, T>(alloc, text, input, output, progress)
    )
}

fn probe_on<B: Board, I: Source, O: Sink, T: Progress>(
    alloc: Global,
    text: &str,
    input: &mut I,
    output: &mut O,
    progress: &mut T,
) -> Result<(), Fault>
    requires streams { MayFail (I.failures input.old) (O.failures output.old) }
    ensures answer { AnswersOnBoard B.shape text.now (input_of (I.remaining input.old) (I.failures input.old))
        (input_of (I.remaining input.new) (I.failures input.new)) (O.contents output.old) (O.contents output.new) result }
    ensures unread { ¬ IsAsked (Some B.shape) text.now → input.new ≡ input.old }
    ensures counted { CountsWrites (O.failures output.old) (O.failures output.new) result }
    ensures reported { T.becomes progress.old progress.new }
{
    let position = Position::<B>::read(text.as_bytes())?;
    let asked = Pair::of(&position);
    let shelf = load_bundle::<B, I, T>(alloc, asked.as_ref(), input, progress)?;
    show_report(alloc, output, &shelf, &position)
}

/// Prints the report of a position.
fn show_report<B: Board, O: Sink>(
    alloc: Global,
    output: &mut O,
    shelf: &Shelf<B>,
    position: &Position<B>,
) -> Result<(), Fault>
    requires { O.failures output.old < 2 ^ 64 - 1 }
    ensures answer { AnswersReport B.shape shelf.now position.now (O.contents output.old) (O.contents output.new) result }
    ensures counted { CountsWrites (O.failures output.old) (O.failures output.new) result }
{
    match report(alloc, output, shelf, position) {
        Ok(()) => Ok(()),
        Err(refused) => Err(Fault::from(refused)),
    }
}

/// The tables of the files on the input, each verified before the next is read; `asked` is the pair
/// of the position.
fn load_bundle<B: Board, I: Source, T: Progress>(
    alloc: Global,
    asked: Option<&Pair<B>>,
    input: &mut I,
    progress: &mut T,
) -> Result<Shelf<B>, Fault>
    requires { I.failures input.old < 2 ^ 64 - 1 }
    ensures loaded { LoadsBundle B.shape (input_of (I.remaining input.old) (I.failures input.old))
        (input_of (I.remaining input.new) (I.failures input.new)) result }
    ensures unwritten { IfErr result (λ refused. is_write refused ≡ false) }
    ensures reported { T.becomes progress.old progress.new }
{
    let mut shelf = Shelf::new(alloc)?;
    for place in 0..=MOST_FILES {
        let Some(raw) = read_next::<B, I>(alloc, input)? else {
            return Ok(shelf);
        };
        if place == MOST_FILES {
            return Err(Fault::TooMany);
        }
        join_shelf(&mut shelf, raw, asked, progress)?;
    }
    unreachable!()
}

/// Puts a table on the shelf once each of its entries is known to be right. How much there is to do
/// is reported for the pair `asked`, or for that of the first file where the position is of no
/// pair.
fn join_shelf<B: Board, T: Progress>(
    shelf: &mut Shelf<B>,
    raw: Raw<B>,
    asked: Option<&Pair<B>>,
    progress: &mut T,
) -> Result<(), Fault>
    ensures joined { OnOk result (Joins B.shape shelf.old shelf.new raw) }
    ensures refused { IfErr result (IsUnfit B.shape shelf.old raw) }
    ensures unwritten { IfErr result (λ refused. is_write refused ≡ false) }
    ensures reported { T.becomes progress.old progress.new }
{
    let pair = match asked {
        Some(pair) => *pair,
        None => raw.pair(),
    };
    // The other files are taken to be in the layout of the first.
    progress.start(pair, raw.layout(), Plan::Read);
    let exact = verify_over(shelf, raw)?;
    progress.end_pair(&exact);
    match shelf.put(exact) {
        Ok(()) => Ok(()),
        Err(_) => unreachable!(),
    }
}

/// The table, once each of its entries is known to be right over the tables of a shelf.
pub(crate) fn verify_over<B: Board>(shelf: &Shelf<B>, raw: Raw<B>) -> Result<Exact<B>, Fault>
    ensures ready { OnOk result (first_missing shelf.now raw.pair ≡ None) }
    ensures value { IfOk result (λ exact. exact ≡ raw) }
    ensures exact { OnOk result (IsTable B.shape raw) }
    ensures refused { IfErr result (IsUnfit B.shape shelf.now raw) }
    ensures unwritten { IfErr result (λ refused. is_write refused ≡ false) }
{
    match raw.verify(shelf) {
        Ok(exact) => Ok(exact),
        Err((_raw, refused)) => Err(Fault::from(refused)),
    }
}
