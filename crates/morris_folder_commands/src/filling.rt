//! The steps of `build --into`: a table is built while the file of the one before it is written.
ghost use Rattle.std.specs.Prelude.{◌≡◌, ℕ, ◌+◌, ◌-◌, ◌^◌, ◌<◌, ◌≤◌, ◌∷◌, List, Option, None, Some, true, false, is_some, length, option_to_list, vec_len, IfErr, IfOk, IfSome, OnOk};
ghost use Rattle.std.specs.Io.KnownBytes.{Appends};
ghost use Rattle.sha2.specs.Sha256.{sha256};
ghost use Rattle.morris_board.specs.Streams.{CountsFailure};
ghost use Rattle.morris_index.specs.Pairs.{Counts};
ghost use Rattle.morris_pairs.specs.Building.{IsBuilt};
ghost use Rattle.morris_pairs.specs.Shelves.{first_missing, table_on};
ghost use Rattle.morris_pairs.specs.TableFiles.{file_of};
ghost use Rattle.morris_files.specs.Files.{Files};
ghost use Rattle.morris_files.specs.Names.{name_of};
ghost use Rattle.morris_files.specs.Parts.{HasNames, IsPaired};
ghost use Rattle.morris_files.specs.Whole.{IsBegun};
ghost use Rattle.morris_jobs.specs.Faults.{CountsWrites, is_write};
ghost use Rattle.morris_jobs.specs.Building.{IsUnbuiltAt};
ghost use Rattle.morris_folder_commands.specs.Causes.{HasCause};
ghost use Rattle.morris_folder_commands.specs.Filling.{GoesOn, IsThere, StoresTable, rest_of};
ghost use Rattle.morris_folder_commands.specs.Into.{IsUnfiled, filed_text, place_of, step_fault};

use crate::entering::step_fault;
use crate::filled::Filled;
use morris_board::board::{Board, Geometry};
use morris_board::streams::{Failed, Sink};
use morris_files::folder::Folder;
use morris_files::table_file::{TablePart, Written, begin_table_file, end_table_file};
use morris_files::whole::{Contents, NotWhole};
use morris_index::pair::Pair;
use morris_jobs::building::build_over;
use morris_jobs::context::Context;
use morris_jobs::fault::Fault;
use morris_jobs::progress::Progress;
use morris_pairs::exact::Exact;
use morris_pairs::layout::Layout;
use morris_pairs::table_set::TableSet;
use morris_workers::{NoProgress, Watch};
use std::alloc::Global;
use std::sync::Wait;
use std::thread;
use std::thread::Threads;

/// The tables that go into a folder, and what they are built with.
#[derive_where(Clone, Copy)]
pub(crate) struct Filling<'a, B: Geometry, R> {
    pub(crate) context: Context<'a, R>,
    // The name of the board.
    pub(crate) board: &'a str,
    // The layout of the tables.
    pub(crate) layout: Layout,
    // The pair whose table comes last, after those of all pairs below it.
    pub(crate) pair: Pair<B>,
}

/// The table of a pair, which a set of tables has.
fn table_there<B: Geometry>(tables: &TableSet<B>, pair: Pair<B>) -> &Exact<B>
    requires { is_some (table_on tables.now pair) ≡ true }
    ensures { table_on tables.now pair ≡ Some result.now }
{
    let Some(table) = tables.get(pair) else {
        unreachable!()
    };
    table
}

/// The fault of the file of a table that isn't written.
fn write_fault<B: Geometry>(table: &Exact<B>, fault: NotWhole) -> Fault
    ensures { result ≡ step_fault (Fault.Unwritten table.now.pair.greater table.now.pair.lesser) fault.step }
{
    let pair = table.pair();
    step_fault(Fault::Unwritten(pair.greater(), pair.lesser()), fault.step)
}

/// Begins the file of a table in a folder.
fn begin_file<B: Geometry, F: Folder>(
    alloc: Global,
    board: &str,
    table: &Exact<B>,
    folder: &mut F,
) -> Result<TablePart<F::Writer>, Fault>
    requires failures { F.failures folder.old < 2 ^ 64 - 2 }
    requires locked { F.locked folder.old ≡ true }
    ensures begun { IfOk result (λ part. IsBegun F.Writer.contents (F.files folder.old) (F.files folder.new) (name_of board.now table.now.pair) part.part.writer) }
    ensures unfailed { IfOk result (λ part. F.Writer.failures part.part.writer ≡ 0) }
    ensures names { IfOk result (λ part. HasNames part (name_of board.now table.now.pair)) }
    ensures paired { IfOk result (λ part. IsPaired part) }
    ensures unbegun { IfErr result (IsUnfiled B.shape board.now table.now (F.files folder.old) (F.files folder.new)) }
    ensures locked { F.locked folder.new ≡ true }
    ensures caused { HasCause F.Reader.failures F.Writer.failures (Some false) ⊥ (F.failures folder.old) (F.failures folder.new) result }
    ensures unwritten { IfErr result (λ refused. is_write refused ≡ false) }
{
    match begin_table_file(alloc, folder, board, table) {
        Ok(part) => Ok(part),
        Err(fault) => Err(write_fault(table, fault)),
    }
}

/// Ends the file of a table: `written` is what was answered where its writer was given the table.
fn end_file<B: Geometry, F: Folder>(
    table: &Exact<B>,
    part: TablePart<F::Writer>,
    written: Result<[u8; 32], Failed>,
    folder: &mut F,
) -> Result<Written<B>, Fault>
    requires failures { F.failures folder.old < 2 ^ 64 - 2 }
    requires locked { F.locked folder.old ≡ true }
    requires paired { IsPaired part }
    requires unwritten { IfErr written (λ _. 0 < F.Writer.failures part.part.writer) }
    requires digest { IfOk written (λ digest. digest ≡ sha256 (file_of B.shape table.now)) }
    ensures unchanged { (board : List ℕ) (files : Option Files) (start : F.Writer) → HasNames part (name_of board table.now.pair)
        → IsBegun F.Writer.contents files (F.files folder.old) (name_of board table.now.pair) start
        → OnOk written (Appends (F.Writer.contents start) (F.Writer.contents part.part.writer) (file_of B.shape table.now))
        → StoresTable B.shape board table.now files (F.files folder.new) result }
    ensures short { IfOk result (λ file. length (filed_text file.pair file.entries file.bytes file.digest) ≤ 2 ^ 10) }
    ensures locked { F.locked folder.new ≡ true }
    ensures caused { HasCause F.Reader.failures F.Writer.failures (Some false) ⊥ (F.failures folder.old) (F.failures folder.new) result }
    ensures unwritten { IfErr result (λ refused. is_write refused ≡ false) }
{
    match end_table_file(folder, table, part, written) {
        Ok(written) => Ok(written),
        Err(fault) => Err(write_fault(table, fault)),
    }
}

/// Writes the file of a table into a folder.
fn store_table<B: Geometry, F: Folder, W: Watch>(
    alloc: Global,
    board: &str,
    table: &Exact<B>,
    folder: &mut F,
    watch: &mut W,
) -> Result<Written<B>, Fault>
    requires failures { F.failures folder.old < 2 ^ 64 - 2 }
    requires locked { F.locked folder.old ≡ true }
    ensures unchanged { StoresTable B.shape board.now table.now (F.files folder.old) (F.files folder.new) result }
    ensures short { IfOk result (λ file. length (filed_text file.pair file.entries file.bytes file.digest) ≤ 2 ^ 10) }
    ensures locked { F.locked folder.new ≡ true }
    ensures caused { HasCause F.Reader.failures F.Writer.failures (Some false) ⊥ (F.failures folder.old) (F.failures folder.new) result }
    ensures unwritten { IfErr result (λ refused. is_write refused ≡ false) }
    ensures reported { W.becomes watch.old watch.new }
{
    let mut part = begin_file(alloc, board, table, folder)?;
    let written = table.write_to(&mut part.part.writer, watch);
    end_file(table, part, written, folder)
}

/// Writes the file that waits, where one does, and prints its line.
pub(crate) fn file_waiting<B: Geometry, R, F: Folder, O: Sink, W: Watch>(
    filling: &Filling<'_, B, R>,
    filled: &mut Filled<B>,
    tables: &TableSet<B>,
    folder: &mut F,
    output: &mut O,
    watch: &mut W,
) -> Result<(), Fault>
    requires folder { F.failures folder.old < 2 ^ 64 - 2 }
    requires locked { F.locked folder.old ≡ true }
    requires output { O.failures output.old < 2 ^ 64 - 1 }
    requires there { IfSome filled.old.waiting (IsThere B.shape filling.now.layout tables.now) }
    requires room { vec_len filled.old.written + length (option_to_list filled.old.waiting) ≤ 28 }
    ensures filled { (pairs : List Counts) → GoesOn B.shape filling.now.layout filling.now.board.now filling.now.context.parallelism.blocks
        (rest_of filling.now.board.now filled.old.written.items filled.old.sent filled.old.waiting pairs (place_of (F.files folder.old) (O.contents output.old)))
        (rest_of filling.now.board.now filled.new.written.items filled.new.sent filled.new.waiting pairs (place_of (F.files folder.new) (O.contents output.new))) result }
    ensures none { OnOk result (filled.new.waiting ≡ None) }
    ensures count { OnOk result (vec_len filled.new.written ≡ vec_len filled.old.written + length (option_to_list filled.old.waiting)) }
    ensures locked { F.locked folder.new ≡ true }
    ensures caused { HasCause F.Reader.failures F.Writer.failures (Some false) ⊥ (F.failures folder.old) (F.failures folder.new) result }
    ensures counted { CountsWrites (O.failures output.old) (O.failures output.new) result }
    ensures reported { W.becomes watch.old watch.new }
{
    let Some(pair) = filled.waiting.take() else {
        return Ok(());
    };
    let table = table_there(tables, pair);
    let file = store_table(filling.context.alloc, filling.board, table, folder, watch);
    filled.print_line(file, output)
}

/// Builds the table of a pair, while another thread gives one that is there to a writer. Where no
/// thread can be started, this one does so afterwards.
fn build_writing<B: Board, R: Threads + Wait + Sync, S: Sink + Send, T: Progress>(
    filling: &Filling<'_, B, R>,
    tables: &TableSet<B>,
    next: Pair<B>,
    table: &Exact<B>,
    writer: &mut S,
    progress: &mut T,
) -> (Result<[u8; 32], Failed>, Result<Exact<B>, Fault>)
    requires ready { first_missing tables.now next ≡ None }
    requires writer { S.failures writer.old < 2 ^ 64 - 1 }
    ensures whole { OnOk result.0 (Appends (S.contents writer.old) (S.contents writer.new) (file_of B.shape table.now)) }
    ensures digest { IfOk result.0 (λ digest. digest ≡ sha256 (file_of B.shape table.now)) }
    ensures counted { CountsFailure (S.failures writer.old) (S.failures writer.new) result.0 }
    ensures built { IfOk result.1 (IsBuilt B.shape filling.now.layout next) }
    ensures unbuilt { IfErr result.1 (IsUnbuiltAt B.shape next filling.now.context.parallelism.blocks) }
    ensures reported { T.becomes progress.old progress.new }
{
    let Filling {
        context,
        layout,
        ..
    } = *filling;
    let Context {
        rt,
        alloc,
        parallelism,
    } = context;
    let mut aside = || -> Result<[u8; 32], Failed>
        requires { S.failures writer.now < 2 ^ 64 - 1 }
        ensures { OnOk result (Appends (S.contents writer.entry.now) (S.contents writer.exit.now) (file_of B.shape table.entry.now))
            × IfOk result (λ digest. digest ≡ sha256 (file_of B.shape table.entry.now))
            × CountsFailure (S.failures writer.entry.now) (S.failures writer.exit.now) result }
    { table.write_to::<S, NoProgress>(writer, &mut NoProgress) };
    let mut here = || -> Result<Exact<B>, Fault>
        requires { first_missing tables.now next ≡ None }
        ensures { IfOk result (IsBuilt B.shape layout next) × IfErr result (IsUnbuiltAt B.shape next parallelism.blocks) × T.becomes progress.entry.now progress.exit.now }
    {
        build_over::<B, R, T>(
            Context {
                rt,
                alloc,
                parallelism,
            },
            tables,
            layout,
            next,
            progress,
        )
    };
    thread::join_mut(rt, &mut aside, &mut here)
}

/// Builds the table of a pair, and meanwhile writes the file that waits, where one does, and then
/// prints its line.
pub(crate) fn build_beside<B: Board, R: Threads + Wait + Sync, F: Folder, O: Sink, T: Progress>(
    filling: &Filling<'_, B, R>,
    filled: &mut Filled<B>,
    tables: &TableSet<B>,
    next: Pair<B>,
    folder: &mut F,
    output: &mut O,
    progress: &mut T,
) -> Result<Exact<B>, Fault>
where
    F::Writer: Send,
    requires folder { F.failures folder.old < 2 ^ 64 - 2 }
    requires locked { F.locked folder.old ≡ true }
    requires output { O.failures output.old < 2 ^ 64 - 1 }
    requires there { IfSome filled.old.waiting (IsThere B.shape filling.now.layout tables.now) }
    requires room { vec_len filled.old.written + length (option_to_list filled.old.waiting) ≤ 28 }
    requires ready { first_missing tables.now next ≡ None }
    ensures filled { (pairs : List Counts) → GoesOn B.shape filling.now.layout filling.now.board.now filling.now.context.parallelism.blocks
        (rest_of filling.now.board.now filled.old.written.items filled.old.sent filled.old.waiting (next ∷ pairs) (place_of (F.files folder.old) (O.contents output.old)))
        (rest_of filling.now.board.now filled.new.written.items filled.new.sent filled.new.waiting (next ∷ pairs) (place_of (F.files folder.new) (O.contents output.new))) result }
    ensures built { IfOk result (IsBuilt B.shape filling.now.layout next) }
    ensures none { OnOk result (filled.new.waiting ≡ None) }
    ensures count { OnOk result (vec_len filled.new.written ≡ vec_len filled.old.written + length (option_to_list filled.old.waiting)) }
    ensures locked { F.locked folder.new ≡ true }
    ensures caused { HasCause F.Reader.failures F.Writer.failures (Some false) ⊥ (F.failures folder.old) (F.failures folder.new) result }
    ensures counted { CountsWrites (O.failures output.old) (O.failures output.new) result }
    ensures reported { T.becomes progress.old progress.new }
{
    let Some(waiting) = filled.waiting.take() else {
        return build_over(filling.context, tables, filling.layout, next, progress);
    };
    let last = table_there(tables, waiting);
    let mut part = begin_file(filling.context.alloc, filling.board, last, folder)?;
    let (written, table) = build_writing(
        filling,
        tables,
        next,
        last,
        &mut part.part.writer,
        progress,
    );
    let file = end_file(last, part, written, folder);
    filled.print_line(file, output)?;
    table
}
