//! What is asked of the table file of a pair as it lies in a folder: how many positions have each
//! value, and which positions have one.
ghost use Rattle.std.specs.Prelude.{◌≡◌, ◌-◌, ◌^◌, ◌<◌, ℕ, List, Option};
ghost use Rattle.morris_files.specs.Files.{Files};
ghost use Rattle.morris_jobs.specs.BoardNames.{board_of};
ghost use Rattle.morris_jobs.specs.Faults.{CountsWrites};
ghost use Rattle.morris_lookup.specs.Opening.{IsOpen};
ghost use Rattle.morris_queries.specs.Asked.{AnswersCountsFrom, AnswersFile, AnswersFindFrom, AnswersFrom, CountsOn, FindsOn};
ghost use Rattle.morris_queries.specs.Folders.{IsOf, Stays};

use crate::find::{Search, Shown, find};
use crate::library::Library;
use crate::values::{Folder, no_files};
use crate::wanted::read_wanted;
use morris_board::board::Geometry;
use morris_board::streams::Sink;
use morris_index::pair::Pair;
use morris_jobs::counts::print_counts;
use morris_jobs::fault::Fault;
use morris_jobs::on_board;
use morris_jobs::pairs::read_pair;
use morris_lookup::codes::Codes;
use morris_lookup::opened::Opened;
use morris_lookup::storage::Storage;
use morris_pairs::counting::{Coded, Entries};
use std::alloc::Global;

/// What is asked of the file of a pair.
#[derive(Clone, Copy, Debug, PartialEq, Eq)]
pub enum Question {
    /// How many positions have each value: as lines of plain text, or, where this is true, as lines
    /// of fields with commas between them.
    Counts(bool),
    /// Which positions have a value.
    Positions(Search),
}

/// Prints how many positions of a pair have each value, as the file of the pair in a library states
/// the values: what `stats` prints, where the file is that of an exact table. `pair` is the name of
/// the pair, such as `4-3`, on the board named `board`; with `csv` lines of fields are printed. The
/// file is read once.
///
/// # Errors
/// [`Fault::Board`] where there is no such board, else [`Fault::PairText`], [`Fault::Counts`] or
/// [`Fault::Crowded`] where the text names no pair of the board, in this order; else
/// [`Fault::NoFolder`] where the place of the files isn't there; else the fault that `lookup`
/// answers with where the file of the pair isn't there or isn't one by its header and its length;
/// else [`Fault::Read`] where it can't be read, or [`Fault::Memory`], at any step, where memory is
/// refused. Nothing is then written. Else [`Fault::Write`], with the bytes that went out, at the
/// first write that fails.
pub fn stats_from<L: Library, O: Sink>(
    alloc: Global,
    board: &str,
    pair: &str,
    csv: bool,
    library: &mut L,
    output: &mut O,
) -> Result<(), Fault>
    requires { O.failures output.old < 2 ^ 64 - 1 }
    ensures unchanged { L.files library.new ≡ L.files library.old }
    ensures answer { AnswersCountsFrom (board_of board.now) board.now (L.files library.old) pair.now csv (O.contents output.old) (O.contents output.new) result }
    ensures counted { CountsWrites (O.failures output.old) (O.failures output.new) result }
{
    on_board!(
        board,
        count_on::<L, O>(alloc, board, pair, csv, library, output)
    )
}

fn count_on<B: Geometry, L: Library, O: Sink>(
    alloc: Global,
    board: &str,
    pair: &str,
    csv: bool,
    library: &mut L,
    output: &mut O,
) -> Result<(), Fault>
    requires { O.failures output.old < 2 ^ 64 - 1 }
    ensures unchanged { L.files library.new ≡ L.files library.old }
    ensures answer { CountsOn B.shape board.now (L.files library.old) pair.now csv (O.contents output.old) (O.contents output.new) result }
    ensures counted { CountsWrites (O.failures output.old) (O.failures output.new) result }
{
    let pair = read_pair::<B>(pair)?;
    ask(alloc, board, pair, Question::Counts(csv), library, output)
}

/// Prints the positions of a pair that have a value, as the file of the pair in a library states
/// the values; where the file is that of an exact table, their values in the game. `value` names
/// the value, as `won in 3`. The positions stand in the order of their entries, one position string
/// a line, as `lookup` takes them. Where `all` is false, only the canonical form of each entry's
/// orbit is printed. The lines go out as the file is read.
///
/// # Errors
/// Those of [`stats_from`], with [`Fault::ValueText`] after those of the pair where `value` doesn't
/// name a value. Where a part of the file can't be read, the positions that were found before have
/// gone out.
pub fn find_from<L: Library, O: Sink>(
    alloc: Global,
    board: &str,
    pair: &str,
    value: &str,
    all: bool,
    shown: Shown,
    library: &mut L,
    output: &mut O,
) -> Result<(), Fault>
    requires { O.failures output.old < 2 ^ 64 - 1 }
    ensures unchanged { L.files library.new ≡ L.files library.old }
    ensures answer { AnswersFindFrom (board_of board.now) board.now (L.files library.old) pair.now value.now all shown (O.contents output.old) (O.contents output.new) result }
    ensures counted { CountsWrites (O.failures output.old) (O.failures output.new) result }
{
    on_board!(
        board,
        find_on::<L, O>(alloc, board, pair, value, all, shown, library, output)
    )
}

fn find_on<B: Geometry, L: Library, O: Sink>(
    alloc: Global,
    board: &str,
    pair: &str,
    value: &str,
    all: bool,
    shown: Shown,
    library: &mut L,
    output: &mut O,
) -> Result<(), Fault>
    requires { O.failures output.old < 2 ^ 64 - 1 }
    ensures unchanged { L.files library.new ≡ L.files library.old }
    ensures answer { FindsOn B.shape board.now (L.files library.old) pair.now value.now all shown (O.contents output.old) (O.contents output.new) result }
    ensures counted { CountsWrites (O.failures output.old) (O.failures output.new) result }
{
    let pair = read_pair::<B>(pair)?;
    let wanted = read_wanted(value)?;
    let search = Search { wanted, all, shown };
    ask(
        alloc,
        board,
        pair,
        Question::Positions(search),
        library,
        output,
    )
}

/// Answers a question from the file of a pair in a library.
fn ask<B: Geometry, L: Library, O: Sink>(
    alloc: Global,
    board: &str,
    pair: Pair<B>,
    question: Question,
    library: &mut L,
    output: &mut O,
) -> Result<(), Fault>
    requires { O.failures output.old < 2 ^ 64 - 1 }
    ensures unchanged { L.files library.new ≡ L.files library.old }
    ensures answer { AnswersFrom B.shape board.now (L.files library.old) pair question (O.contents output.old) (O.contents output.new) result }
    ensures counted { CountsWrites (O.failures output.old) (O.failures output.new) result }
{
    library.find()?;
    let mut tables = no_files::<B, L>(alloc)?;
    let mut folder = Folder::new(alloc, board, library, &mut tables);
    ask_in(&mut folder, pair, question, output)
}

/// Answers a question from the file of a pair in a folder.
fn ask_in<B: Geometry, L: Library, O: Sink>(
    folder: &mut Folder<'_, '_, '_, B, L>,
    pair: Pair<B>,
    question: Question,
    output: &mut O,
) -> Result<(), Fault>
    requires { O.failures output.old < 2 ^ 64 - 1 }
    ensures stays { Stays B.shape L.files folder.old folder.new }
    ensures answer { (name : List ℕ) (known : Option Files) → IsOf B.shape L.files name known folder.old
        → AnswersFrom B.shape name known pair question (O.contents output.old) (O.contents output.new) result }
    ensures counted { CountsWrites (O.failures output.old) (O.failures output.new) result }
{
    folder.make_ready(pair)?;
    let Some(file) = folder.tables.get(pair) else {
        unreachable!()
    };
    answer_from(folder.alloc, file, question, output)
}

/// Answers a question from an open file.
fn answer_from<B: Geometry, S: Storage, O: Sink>(
    alloc: Global,
    file: &Opened<B, S>,
    question: Question,
    output: &mut O,
) -> Result<(), Fault>
    requires opened { IsOpen B.shape file.now }
    requires failures { O.failures output.old < 2 ^ 64 - 1 }
    ensures answer { AnswersFile B.shape file.now question (O.contents output.old) (O.contents output.new) result }
    ensures counted { CountsWrites (O.failures output.old) (O.failures output.new) result }
{
    let codes = Codes::new(alloc, file)?;
    let mut entries = Entries::of(alloc, file.pair(), file.layout(), codes)?;
    match question {
        Question::Counts(csv) => print_counts(alloc, &mut entries, csv, output),
        Question::Positions(search) => find(alloc, &mut entries, search, output),
    }
}
