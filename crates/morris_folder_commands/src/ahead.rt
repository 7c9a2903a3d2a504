//! The file of the next pair, which is read while the table of a pair is verified.
ghost use Rattle.std.specs.Prelude.{◌≡◌, ℕ, ◌+◌, ◌-◌, ◌^◌, ◌<◌, ◌≤◌, List, Option, Err, None, Some, is_some, true, IfOk, IfSome};
ghost use Rattle.morris_files.specs.Files.{Files, HasFailed, IsReaderOf, AreUnchanged};
ghost use Rattle.morris_files.specs.Stored.{AnswersStored, failures_opening};
ghost use Rattle.morris_files.specs.Names.{name_of};
ghost use Rattle.morris_jobs.specs.Faults.{CountsWrites};
ghost use Rattle.morris_folder_commands.specs.From.{TakesIn};
ghost use Rattle.morris_folder_commands.specs.FromSteps.{IsAhead, IsReadAhead, StopsAt, place_is};

use crate::from::take_in;
use crate::places::pair_at;
use morris_board::board::{Board, Geometry};
use morris_board::streams::{Sink, Source};
use morris_files::folder::Folder;
use morris_files::stored::{StoredFault, open_table_file, read_opened};
use morris_index::below::PAIR_COUNT;
use morris_index::pair::Pair;
use morris_jobs::context::{Context, Parallelism};
use morris_jobs::fault::Fault;
use morris_jobs::progress::Progress;
use morris_pairs::file_faults::ReadFault;
use morris_pairs::raw::Raw;
use morris_pairs::table_set::TableSet;
use std::alloc::Global;
use std::thread;
use std::thread::Threads;

/// What is known of the files of later pairs.
#[derive(Drop)]
pub(crate) struct Ahead<B: Geometry> {
    /// The place of the first pair whose file can't be opened, as far as is known; past all pairs
    /// where each can.
    pub(crate) end: usize,
    /// What reading the file of the next pair answered, where it was read ahead.
    pub(crate) answer: Option<Result<Option<Raw<B>>, StoredFault>>,
}

/// The file of a pair, opened to be read ahead.
#[derive(Drop)]
pub(crate) struct Opened<B: Geometry, S> {
    /// The pair.
    pub(crate) pair: Pair<B>,
    /// Its file.
    pub(crate) reader: S,
}

/// Opens the file of the pair after this place, to be read while that of the place is verified,
/// where there are several workers. That there is no file, or that it can't be opened, is answered
/// at its turn, and it isn't opened again.
pub(crate) fn open_next<B: Geometry, F: Folder>(
    alloc: Global,
    parallelism: Parallelism,
    board: &str,
    place: usize,
    folder: &mut F,
    ahead: &mut Ahead<B>,
) -> Option<Opened<B, F::Reader>>
    requires place { place < 28 }
    requires inside { place < ahead.old.end }
    requires unread { ahead.old.answer ≡ None }
    requires room { F.failures folder.old < 2 ^ 64 - 1 }
    ensures opened { IfSome result (λ opened. place_is B.shape (place + 1) (Some opened.pair)
        × IsReaderOf (F.files folder.old) (name_of board.now opened.pair) (F.Reader.remaining opened.reader) × (F.Reader.failures opened.reader ≡ 0)) }
    ensures ahead { IsAhead F.Reader.failures B.shape (F.files folder.old) board.now (place + 1) ahead.new.answer }
    ensures inside { place < ahead.new.end }
    ensures stops { (before : ℕ) → StopsAt B.shape ahead.old.end before (F.failures folder.old) → StopsAt B.shape ahead.new.end before (F.failures folder.new) }
    ensures room { F.failures folder.new < 2 ^ 64 - 1 }
    ensures unchanged { AreUnchanged (F.files folder.old) (F.files folder.new) }
{
    let next = place + 1;
    // Where it isn't opened, there has to be room to count one more failure.
    if parallelism.workers == 1 || next >= PAIR_COUNT || next == ahead.end {
        return None;
    }
    if folder.failures() >= u64::MAX - 1 {
        return None;
    }
    let Some(pair) = pair_at::<B>(next) else {
        return None;
    };
    match open_table_file(alloc, folder, board, pair) {
        Ok(Some(reader)) => return Some(Opened { pair, reader }),
        Ok(None) => ahead.answer = Some(Ok(None)),
        Err(StoredFault::Unopened) => ahead.end = next,
        // Memory was refused for its name, and may be there at its turn.
        Err(_) => {}
    }
    None
}

/// What was read ahead, unless memory ran out: at its turn no other table is being verified, and
/// there may be room for it.
fn unless_roomless<B: Geometry>(
    answer: Result<Option<Raw<B>>, StoredFault>,
) -> Option<Result<Option<Raw<B>>, StoredFault>>
    ensures { IfSome result (λ known. known ≡ answer) }
{
    match answer {
        Err(StoredFault::Memory | StoredFault::Refused(ReadFault::Memory)) => None,
        answer => Some(answer),
    }
}

/// Takes in a table that is held, as [`take_in`] does.
fn take_held<B: Board, R: Threads + Sync, O: Sink, T: Progress>(
    rt: &R,
    alloc: Global,
    parallelism: Parallelism,
    tables: &mut TableSet<B>,
    held: &mut Option<Raw<B>>,
    sent: u64,
    output: &mut O,
    progress: &mut T,
) -> Result<u64, Fault>
    requires held { is_some held.old ≡ true }
    requires failures { O.failures output.old < 2 ^ 64 - 1 }
    requires room { sent < 2 ^ 32 }
    ensures taken { IfSome held.old (λ raw. TakesIn B.shape tables.old tables.new raw sent (O.contents output.old) (O.contents output.new) result) }
    ensures few { IfOk result (λ now. now ≤ sent + 2 ^ 10) }
    ensures counted { CountsWrites (O.failures output.old) (O.failures output.new) result }
    ensures reported { T.becomes progress.old progress.new }
{
    let Some(raw) = held.take() else {
        unreachable!()
    };
    let context = Context {
        rt,
        alloc,
        parallelism,
    };
    take_in(context, tables, raw, sent, output, progress)
}

/// Takes in a table, as [`take_in`] does, while another thread reads the file of a pair. Where no
/// thread can be started, this one reads it afterwards.
fn take_in_reading<B: Board, R: Threads + Sync, S: Source + Send, O: Sink, T: Progress>(
    rt: &R,
    alloc: Global,
    parallelism: Parallelism,
    tables: &mut TableSet<B>,
    raw: Raw<B>,
    sent: u64,
    output: &mut O,
    progress: &mut T,
    pair: &Pair<B>,
    reader: &mut S,
) -> (Result<u64, Fault>, Result<Option<Raw<B>>, StoredFault>)
    requires failures { O.failures output.old < 2 ^ 64 - 1 }
    requires room { sent < 2 ^ 32 }
    requires reader { S.failures reader.old < 2 ^ 64 - 1 }
    ensures taken { TakesIn B.shape tables.old tables.new raw sent (O.contents output.old) (O.contents output.new) result.0 }
    ensures few { IfOk result.0 (λ now. now ≤ sent + 2 ^ 10) }
    ensures counted { CountsWrites (O.failures output.old) (O.failures output.new) result.0 }
    ensures reported { T.becomes progress.old progress.new }
    ensures read { (files : Option Files) (name : List ℕ) → IsReaderOf files name (S.remaining reader.old) → AnswersStored B.shape files name pair.now result.1 }
    ensures unread { result.1 ≡ Err (StoredFault.Refused ReadFault.Read) → HasFailed S.failures }
    ensures opened { failures_opening result.1 ≡ 0 }
{
    let held = &mut Some(raw);
    let mut aside = || -> Result<Option<Raw<B>>, StoredFault>
        requires { S.failures reader.now < 2 ^ 64 - 1 }
        ensures { ((files : Option Files) (name : List ℕ) → IsReaderOf files name (S.remaining reader.entry.now) → AnswersStored B.shape files name pair.entry.now result)
            × (result ≡ Err (StoredFault.Refused ReadFault.Read) → HasFailed S.failures) × (failures_opening result ≡ 0) }
    { read_opened::<B, S>(alloc, reader, *pair) };
    let mut here = || -> Result<u64, Fault>
        requires { (is_some held.now ≡ true) × (O.failures output.now < 2 ^ 64 - 1) × (sent < 2 ^ 32) }
        ensures { IfSome held.entry.now (λ raw. TakesIn B.shape tables.entry.now tables.exit.now raw sent (O.contents output.entry.now) (O.contents output.exit.now) result)
            × IfOk result (λ now. now ≤ sent + 2 ^ 10) × CountsWrites (O.failures output.entry.now) (O.failures output.exit.now) result
            × T.becomes progress.entry.now progress.exit.now }
    { take_held::<B, R, O, T>(rt, alloc, parallelism, tables, held, sent, output, progress) };
    let (read, taken) = thread::join_mut(rt, &mut aside, &mut here);
    (taken, read)
}

/// Takes in a table, as [`take_in`] does, and meanwhile reads the file that was opened ahead, where
/// one was.
pub(crate) fn take_in_beside<
    B: Board,
    R: Threads + Sync,
    S: Source + Send + Drop,
    O: Sink,
    T: Progress,
>(
    context: Context<'_, R>,
    tables: &mut TableSet<B>,
    raw: Raw<B>,
    sent: u64,
    output: &mut O,
    progress: &mut T,
    opened: Option<Opened<B, S>>,
    ahead: &mut Ahead<B>,
) -> Result<u64, Fault>
    requires failures { O.failures output.old < 2 ^ 64 - 1 }
    requires room { sent < 2 ^ 32 }
    requires opened { IfSome opened (λ opened. S.failures opened.reader ≡ 0) }
    ensures taken { TakesIn B.shape tables.old tables.new raw sent (O.contents output.old) (O.contents output.new) result }
    ensures few { IfOk result (λ now. now ≤ sent + 2 ^ 10) }
    ensures counted { CountsWrites (O.failures output.old) (O.failures output.new) result }
    ensures reported { T.becomes progress.old progress.new }
    ensures ahead { (files : Option Files) (name : List ℕ) (place : ℕ) → IsAhead S.failures B.shape files name place ahead.old.answer
        → IfSome opened (λ opened. place_is B.shape place (Some opened.pair) × IsReaderOf files (name_of name opened.pair) (S.remaining opened.reader))
        → IsAhead S.failures B.shape files name place ahead.new.answer }
    ensures end { ahead.new.end ≡ ahead.old.end }
{
    let Some(Opened { pair, mut reader }) = opened else {
        return take_in(context, tables, raw, sent, output, progress);
    };
    let Context {
        rt,
        alloc,
        parallelism,
    } = context;
    let (taken, read) = take_in_reading(
        rt,
        alloc,
        parallelism,
        tables,
        raw,
        sent,
        output,
        progress,
        &pair,
        &mut reader,
    );
    ahead.answer = unless_roomless(read);
    taken
}
