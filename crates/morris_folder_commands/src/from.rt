//! The command `verify` over the files of a folder.
ghost use Rattle.std.specs.Prelude.{◌≡◌, ℕ, ◌+◌, ◌-◌, ◌^◌, ◌<◌, ◌≤◌, Option, Some, None, Err, false, IfErr, IfOk, IfSome};
ghost use Rattle.morris_jobs.specs.Inputs.{MayFail};
ghost use Rattle.morris_jobs.specs.BoardNames.{board_of};
ghost use Rattle.morris_jobs.specs.Faults.{CountsWrites, is_write};
ghost use Rattle.morris_folder_commands.specs.Causes.{HasCause};
ghost use Rattle.morris_folder_commands.specs.From.{AnswersFound, AnswersFrom, AnswersFromOn, TakesIn, Verifies, end_of, pairs_of};
ghost use Rattle.morris_folder_commands.specs.FromSteps.{AnswersFile, StopsAt};
ghost use Rattle.morris_files.specs.Files.{Files, HasFailed, AreUnchanged};
ghost use Rattle.morris_files.specs.Stored.{AnswersStored, failures_opening};
ghost use Rattle.morris_files.specs.Names.{name_of};

use crate::ahead::{Ahead, open_next, take_in_beside};
use crate::places::pair_at;
use crate::survey::look_ahead;
use morris_board::board::{Board, Geometry};
use morris_board::streams::{Failed, Sink};
use morris_files::folder::Folder;
use morris_files::stored::{StoredFault, read_table_file};
use morris_index::below::PAIR_COUNT;
use morris_index::pair::Pair;
use morris_jobs::building::{drop_unneeded, verify_over};
use morris_jobs::context::{Context, Parallelism};
use morris_jobs::fault::Fault;
use morris_jobs::on_board;
use morris_jobs::print::print_after;
use morris_jobs::print_verified::Verified;
use morris_jobs::progress::Progress;
use morris_pairs::file_faults::ReadFault;
use morris_pairs::raw::Raw;
use morris_pairs::table_set::TableSet;
use std::alloc::Global;
use std::thread::Threads;

/// Goes through all pairs of the board named `board`, in order of their sum of stones and then of
/// the larger number: reads the file of each that a folder has, under the name of its pair, and
/// states on `output` that the table is right as soon as each of its codes is known to be that of
/// the game, by the tables before it. A table rests on those of the pairs that its pair needs,
/// whose files have to be there; before the file of a pair is read, those tables are dropped that
/// neither it needs nor any pair after it. The workers divide its entries among themselves, and
/// where there are several, a thread of its own meanwhile reads the file of the next pair. What
/// comes of that is answered at its turn; if memory is refused for it, it is read then. Where
/// progress is reported, the header of each file is read first, so that it is known how much there
/// is to do.
///
/// Fewer than `u64::MAX` calls of the folder may have failed before.
///
/// # Errors
/// [`Fault::Board`] where there is no such board, before the folder is touched. Else
/// [`Fault::NoFolder`] where there is no such folder. Else the first refusal: [`Fault::Unopened`]
/// where a file can't be opened; [`Fault::OtherPair`] where it has the table of another pair;
/// [`Fault::InFile`] where it has a flaw, as `read_table` of `morris_pairs` has it, where it needs
/// a table that isn't there, or where an entry isn't what the rules give from the entries of its
/// results; [`Fault::Memory`] where memory is refused; [`Fault::Write`],
/// with all bytes that went out, at the first write to `output` that fails. Else [`Fault::NoFiles`]
/// where the folder has none of these files.
pub fn verify_from<R: Threads + Sync, F: Folder, O: Sink, T: Progress>(
    rt: &R,
    alloc: Global,
    board: &str,
    parallelism: Parallelism,
    folder: &mut F,
    output: &mut O,
    progress: &mut T,
) -> Result<(), Fault>
where
    F::Reader: Send,
    requires room { MayFail (F.failures folder.old) (O.failures output.old) }
    ensures answer { AnswersFrom (board_of board.now) (F.files folder.old) board.now (O.contents output.old) (O.contents output.new) result }
    ensures unchanged { AreUnchanged (F.files folder.old) (F.files folder.new) }
    ensures untouched { board_of board.now ≡ None → folder.new ≡ folder.old }
    ensures caused { HasCause F.Reader.failures F.Writer.failures (Some false) ⊥ (F.failures folder.old) (F.failures folder.new) result }
    ensures counted { CountsWrites (O.failures output.old) (O.failures output.new) result }
    ensures reported { T.becomes progress.old progress.new }
{
    let context = Context {
        rt,
        alloc,
        parallelism,
    };
    on_board!(
        board,
        from_on::<R, F, O, T>(context, board, folder, output, progress)
    )
}

fn from_on<B: Board, R: Threads + Sync, F: Folder, O: Sink, T: Progress>(
    context: Context<'_, R>,
    board: &str,
    folder: &mut F,
    output: &mut O,
    progress: &mut T,
) -> Result<(), Fault>
where
    F::Reader: Send,
    requires room { MayFail (F.failures folder.old) (O.failures output.old) }
    ensures answer { AnswersFromOn B.shape (F.files folder.old) board.now (O.contents output.old) (O.contents output.new) result }
    ensures unchanged { AreUnchanged (F.files folder.old) (F.files folder.new) }
    ensures caused { HasCause F.Reader.failures F.Writer.failures (Some false) ⊥ (F.failures folder.old) (F.failures folder.new) result }
    ensures counted { CountsWrites (O.failures output.old) (O.failures output.new) result }
    ensures reported { T.becomes progress.old progress.new }
{
    match folder.find() {
        Ok(()) => verify_found::<B, R, F, O, T>(context, board, folder, output, progress),
        Err(Failed) => Err(Fault::NoFolder),
    }
}

/// Verifies the tables of a folder that is there.
fn verify_found<B: Board, R: Threads + Sync, F: Folder, O: Sink, T: Progress>(
    context: Context<'_, R>,
    board: &str,
    folder: &mut F,
    output: &mut O,
    progress: &mut T,
) -> Result<(), Fault>
where
    F::Reader: Send,
    requires room { MayFail (F.failures folder.old) (O.failures output.old) }
    ensures answer { (found : Option Files) × AreUnchanged (F.files folder.old) found × AnswersFound B.shape found board.now (O.contents output.old) (O.contents output.new) result }
    ensures unchanged { AreUnchanged (F.files folder.old) (F.files folder.new) }
    ensures caused { HasCause F.Reader.failures F.Writer.failures (Some false) ⊥ (F.failures folder.old) (F.failures folder.new) result }
    ensures counted { CountsWrites (O.failures output.old) (O.failures output.new) result }
    ensures reported { T.becomes progress.old progress.new }
{
    let mut tables: TableSet<B> = TableSet::new(context.alloc)?;
    let end = look_ahead::<B, F, T>(context.alloc, board, folder, progress)?;
    let mut ahead = Ahead { end, answer: None };
    verify_pairs(
        context,
        board,
        &mut tables,
        &mut ahead,
        folder,
        output,
        progress,
    )
}

/// Verifies the tables of all pairs, over a set without tables, where nothing was read ahead.
fn verify_pairs<B: Board, R: Threads + Sync, F: Folder, O: Sink, T: Progress>(
    context: Context<'_, R>,
    board: &str,
    tables: &mut TableSet<B>,
    ahead: &mut Ahead<B>,
    folder: &mut F,
    output: &mut O,
    progress: &mut T,
) -> Result<(), Fault>
where
    F::Reader: Send,
    requires room { MayFail (F.failures folder.old) (O.failures output.old) }
    requires unread { ahead.old.answer ≡ None }
    requires stops { (before : ℕ) × StopsAt B.shape ahead.old.end before (F.failures folder.old) }
    ensures answer { Verifies B.shape (F.files folder.old) board.now (pairs_of B.shape) tables.old false 0 (O.contents output.old) (O.contents output.new) result }
    ensures unchanged { AreUnchanged (F.files folder.old) (F.files folder.new) }
    ensures caused { (before : ℕ) → StopsAt B.shape ahead.old.end before (F.failures folder.old)
        → HasCause F.Reader.failures F.Writer.failures (Some false) ⊥ before (F.failures folder.new) result }
    ensures counted { CountsWrites (O.failures output.old) (O.failures output.new) result }
    ensures reported { T.becomes progress.old progress.new }
{
    let mut sent = 0;
    let mut found = false;
    for place in 0..PAIR_COUNT {
        let Some(pair) = pair_at::<B>(place) else {
            continue;
        };
        // Also where the folder has no file of the pair.
        drop_unneeded(tables, false, pair);
        if place == ahead.end {
            return Err(Fault::Unopened(pair.greater(), pair.lesser()));
        }
        let known = ahead.answer.take();
        let Some(raw) = read_stored(context.alloc, board, folder, pair, known)? else {
            continue;
        };
        let opened = open_next(
            context.alloc,
            context.parallelism,
            board,
            place,
            folder,
            ahead,
        );
        sent = take_in_beside(context, tables, raw, sent, output, progress, opened, ahead)?;
        found = true;
    }
    end_of(found)
}

/// The end, by whether there was a file.
pub(crate) fn end_of(found: bool) -> Result<(), Fault>
    ensures { result ≡ end_of found }
{
    if found { Ok(()) } else { Err(Fault::NoFiles) }
}

/// The answer to reading the file of a pair: the one that is known, or what reading it answers now.
fn read_or_known<B: Geometry, F: Folder>(
    alloc: Global,
    board: &str,
    folder: &mut F,
    pair: Pair<B>,
    known: Option<Result<Option<Raw<B>>, StoredFault>>,
) -> Result<Option<Raw<B>>, StoredFault>
    requires failures { F.failures folder.old < 2 ^ 64 - 1 }
    requires opened { IfSome known (λ answer. failures_opening answer ≡ 0) }
    requires unread { IfSome known (λ answer. answer ≡ Err (StoredFault.Refused ReadFault.Read) → HasFailed F.Reader.failures) }
    ensures answer { (files : Option Files) → AreUnchanged files (F.files folder.old) → IfSome known (AnswersStored B.shape files (name_of board.now pair) pair)
        → AnswersStored B.shape files (name_of board.now pair) pair result }
    ensures unread { result ≡ Err (StoredFault.Refused ReadFault.Read) → HasFailed F.Reader.failures }
    ensures unchanged { AreUnchanged (F.files folder.old) (F.files folder.new) }
    ensures counted { F.failures folder.new ≡ F.failures folder.old + failures_opening result }
{
    match known {
        Some(answer) => answer,
        None => read_table_file(alloc, folder, board, pair),
    }
}

/// The table of a pair, where a folder has its file; the answer to reading that may be known.
fn read_stored<B: Geometry, F: Folder>(
    alloc: Global,
    board: &str,
    folder: &mut F,
    pair: Pair<B>,
    known: Option<Result<Option<Raw<B>>, StoredFault>>,
) -> Result<Option<Raw<B>>, Fault>
    requires failures { F.failures folder.old < 2 ^ 64 - 1 }
    requires opened { IfSome known (λ answer. failures_opening answer ≡ 0) }
    requires unread { IfSome known (λ answer. answer ≡ Err (StoredFault.Refused ReadFault.Read) → HasFailed F.Reader.failures) }
    ensures answer { (files : Option Files) → AreUnchanged files (F.files folder.old) → IfSome known (AnswersStored B.shape files (name_of board.now pair) pair)
        → AnswersFile B.shape files (name_of board.now pair) pair result }
    ensures unchanged { AreUnchanged (F.files folder.old) (F.files folder.new) }
    ensures caused { HasCause F.Reader.failures F.Writer.failures (Some false) ⊥ (F.failures folder.old) (F.failures folder.new) result }
    ensures unwritten { IfErr result (λ refused. is_write refused ≡ false) }
{
    match read_or_known(alloc, board, folder, pair, known) {
        Ok(found) => Ok(found),
        Err(StoredFault::Memory) => Err(Fault::Memory),
        Err(StoredFault::Unopened) => Err(Fault::Unopened(pair.greater(), pair.lesser())),
        Err(StoredFault::Refused(refused)) => Err(Fault::from(refused).in_file(pair)),
        Err(StoredFault::OtherPair) => Err(Fault::OtherPair(pair.greater(), pair.lesser())),
    }
}

/// Adds a table to a set once each of its entries is known to be right by those in the set, and
/// prints its line. So many bytes were printed before; the answer counts these as well.
pub(crate) fn take_in<B: Board, R: Threads + Sync, O: Sink, T: Progress>(
    context: Context<'_, R>,
    tables: &mut TableSet<B>,
    raw: Raw<B>,
    sent: u64,
    output: &mut O,
    progress: &mut T,
) -> Result<u64, Fault>
    requires failures { O.failures output.old < 2 ^ 64 - 1 }
    requires room { sent < 2 ^ 32 }
    ensures taken { TakesIn B.shape tables.old tables.new raw sent (O.contents output.old) (O.contents output.new) result }
    ensures few { IfOk result (λ now. now ≤ sent + 2 ^ 10) }
    ensures counted { CountsWrites (O.failures output.old) (O.failures output.new) result }
    ensures reported { T.becomes progress.old progress.new }
{
    let pair = raw.pair();
    progress.begin_pair(pair);
    let exact = match verify_over(context, tables, raw, progress) {
        Ok(exact) => exact,
        Err(refused) => return Err(refused.in_file(pair)),
    };
    progress.end_pair(&exact);
    let entries = exact.len();
    tables.put(exact);
    print_after(&Verified { pair, entries }, sent, output)
}
