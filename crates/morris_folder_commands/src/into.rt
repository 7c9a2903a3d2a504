//! The command `build` into a folder.
ghost use Rattle.std.specs.Prelude.{◌≡◌, ℕ, ◌-◌, ◌^◌, ◌<◌, ◌++◌, List, [], None, Option, Some, true, false, Err, IfErr, MatchResult};
ghost use Rattle.morris_jobs.specs.Building.{layout_for};
ghost use Rattle.morris_jobs.specs.Faults.{CountsWrites, is_write};
ghost use Rattle.morris_folder_commands.specs.Causes.{HasCause, MayBeLong};
ghost use Rattle.morris_folder_commands.specs.Filling.{IsFilledBut};
ghost use Rattle.morris_folder_commands.specs.Into.{AnswersFolder, AnswersInto, AnswersIntoOn, Ends, FillsFolder, IsAsked, place_of};
ghost use Rattle.morris_jobs.specs.BoardNames.{board_of};
ghost use Rattle.morris_files.specs.Digests.{digest_lines};

use crate::entering::{begin_list, enter, step_fault};
use crate::filled::Filled;
use crate::filling::{Filling, build_beside, file_waiting};
use morris_board::board::{Board, Geometry};
use morris_board::streams::Sink;
use morris_files::checksum_list::write_list;
use morris_files::folder::Folder;
use morris_files::table_file::Written;
use morris_index::pair::Pair;
use morris_jobs::building::{BuildArgs, drop_unneeded, layout_of};
use morris_jobs::context::{Context, Parallelism};
use morris_jobs::fault::Fault;
use morris_jobs::on_board;
use morris_jobs::pairs::read_pair;
use morris_jobs::progress::Progress;
use morris_jobs::size::Plan;
use morris_pairs::layout::Layout;
use morris_pairs::table_set::TableSet;
use std::alloc::Global;
use std::sync::Wait;
use std::thread::Threads;

/// Builds the tables of all pairs below a pair on the board named `board`, in order and the pair's
/// own among them; `pair` is its name, such as `4-3`. It writes the file of each into a folder once
/// it is built, under the name of its pair; after each, a line with its entries, its bytes and its
/// SHA-256 goes out on `output`. Where there are several workers, a thread of its own writes the
/// file while the next table is built, and its line comes after that. The folder is made where
/// there is none, and locked from before its first file to after its last, so that no other build
/// is at work in it. The list of digests first drops the files that are replaced; at the end it has
/// the lines of those that aren't, and then those of the files that were written. Each file is
/// written whole or not at all.
///
/// The rest is as [`build_out`](morris_commands::build::build_out) has it. Fewer than
/// `u64::MAX - 1` calls of the folder may have failed before.
///
/// # Errors
/// Those of [`build_out`](morris_commands::build::build_out) for the arguments, in the same order;
/// nothing is then written, and the folder isn't touched. Else [`Fault::Folder`] where the folder
/// can't be made, else [`Fault::NoFolder`] where its path is empty or stands for something else,
/// else [`Fault::Unlocked`] where it can't be locked, or [`Fault::Busy`] where another build is at
/// work in it. Else [`Fault::Digests`] where the list of digests can't be read or written. Else the
/// first refusal: one of a build; [`Fault::Unwritten`] where a file can't be written;
/// [`Fault::Write`], with all bytes that went out, at the first write to `output` that fails; at
/// last [`Fault::Digests`] where the list of digests can't be written; or [`Fault::Memory`] where
/// memory is refused. The files that were written before stay.
pub fn build_into<R: Threads + Wait + Sync, F: Folder, O: Sink, T: Progress>(
    rt: &R,
    alloc: Global,
    board: &str,
    pair: &str,
    workers: usize,
    blocks: usize,
    classes: bool,
    folder: &mut F,
    output: &mut O,
    progress: &mut T,
) -> Result<(), Fault>
where
    F::Writer: Send,
    requires folder { F.failures folder.old < 2 ^ 64 - 2 }
    requires output { O.failures output.old < 2 ^ 64 - 1 }
    ensures answer { AnswersInto (board_of board.now) (layout_for classes) board.now pair.now workers blocks
        (place_of (F.files folder.old) (O.contents output.old)) (place_of (F.files folder.new) (O.contents output.new)) result }
    ensures untouched { ¬ IsAsked (board_of board.now) pair.now workers blocks → folder.new ≡ folder.old }
    ensures caused { HasCause F.Reader.failures F.Writer.failures (F.taken folder.old) (MayBeLong board.now (F.files folder.old))
        (F.failures folder.old) (F.failures folder.new) result }
    ensures counted { CountsWrites (O.failures output.old) (O.failures output.new) result }
    ensures reported { T.becomes progress.old progress.new }
{
    let build_args = BuildArgs {
        board,
        pair,
        workers,
        blocks,
    };
    let layout = layout_of(classes);
    on_board!(
        board,
        into_on::<R, F, O, T>(rt, alloc, build_args, layout, folder, output, progress)
    )
}

fn into_on<B: Board, R: Threads + Wait + Sync, F: Folder, O: Sink, T: Progress>(
    rt: &R,
    alloc: Global,
    build_args: BuildArgs<'_>,
    layout: Layout,
    folder: &mut F,
    output: &mut O,
    progress: &mut T,
) -> Result<(), Fault>
where
    F::Writer: Send,
    requires folder { F.failures folder.old < 2 ^ 64 - 2 }
    requires output { O.failures output.old < 2 ^ 64 - 1 }
    // The caller's proof learns here that the board has as many points as its shape says.
    ensures points { B.shape.points ≡ B.POINTS }
    ensures answer { AnswersIntoOn B.shape layout build_args.entry.board.now build_args.entry.pair.now build_args.entry.workers build_args.entry.blocks
        (place_of (F.files folder.old) (O.contents output.old)) (place_of (F.files folder.new) (O.contents output.new)) result }
    ensures untouched { ¬ IsAsked (Some B.shape) build_args.entry.pair.now build_args.entry.workers build_args.entry.blocks → folder.new ≡ folder.old }
    ensures caused { HasCause F.Reader.failures F.Writer.failures (F.taken folder.old) (MayBeLong build_args.entry.board.now (F.files folder.old))
        (F.failures folder.old) (F.failures folder.new) result }
    ensures counted { CountsWrites (O.failures output.old) (O.failures output.new) result }
    ensures reported { T.becomes progress.old progress.new }
{
    let pair = read_pair::<B>(build_args.pair)?;
    let parallelism = Parallelism::new(build_args.workers, build_args.blocks)?;
    let filling = Filling {
        context: Context {
            rt,
            alloc,
            parallelism,
        },
        board: build_args.board,
        layout,
        pair,
    };
    into_folder(&filling, folder, output, progress)
}

/// Fills a folder, which is made where there is none and locked, and writes the list of digests.
fn into_folder<B: Board, R: Threads + Wait + Sync, F: Folder, O: Sink, T: Progress>(
    filling: &Filling<'_, B, R>,
    folder: &mut F,
    output: &mut O,
    progress: &mut T,
) -> Result<(), Fault>
where
    F::Writer: Send,
    requires folder { F.failures folder.old < 2 ^ 64 - 2 }
    requires output { O.failures output.old < 2 ^ 64 - 1 }
    ensures points { B.shape.points ≡ B.POINTS }
    ensures answer { AnswersFolder B.shape filling.now.layout filling.now.board.now filling.now.pair filling.now.context.parallelism.blocks
        (place_of (F.files folder.old) (O.contents output.old)) (place_of (F.files folder.new) (O.contents output.new)) result }
    ensures caused { HasCause F.Reader.failures F.Writer.failures (F.taken folder.old) (MayBeLong filling.now.board.now (F.files folder.old))
        (F.failures folder.old) (F.failures folder.new) result }
    ensures counted { CountsWrites (O.failures output.old) (O.failures output.new) result }
    ensures reported { T.becomes progress.old progress.new }
{
    enter(folder)?;
    let unchanged = begin_list(filling.context.alloc, filling.board, filling.pair, folder)?;
    fill_locked(filling, unchanged.as_slice(), folder, output, progress)
}

/// Fills a folder that is locked, and writes the list of digests, which begins with the lines that
/// were retained.
fn fill_locked<B: Board, R: Threads + Wait + Sync, F: Folder, O: Sink, T: Progress>(
    filling: &Filling<'_, B, R>,
    unchanged: &[u8],
    folder: &mut F,
    output: &mut O,
    progress: &mut T,
) -> Result<(), Fault>
where
    F::Writer: Send,
    requires folder { F.failures folder.old < 2 ^ 64 - 2 }
    requires locked { F.locked folder.old ≡ true }
    requires output { O.failures output.old < 2 ^ 64 - 1 }
    ensures points { B.shape.points ≡ B.POINTS }
    ensures filled { FillsFolder B.shape filling.now.layout filling.now.board.now filling.now.pair filling.now.context.parallelism.blocks unchanged.now
        (place_of (F.files folder.old) (O.contents output.old)) (place_of (F.files folder.new) (O.contents output.new)) result }
    ensures caused { HasCause F.Reader.failures F.Writer.failures (Some false) ⊥ (F.failures folder.old) (F.failures folder.new) result }
    ensures counted { CountsWrites (O.failures output.old) (O.failures output.new) result }
    ensures reported { T.becomes progress.old progress.new }
{
    let written = fill(filling, folder, output, progress)?;
    end(
        filling.context.alloc,
        filling.board,
        unchanged,
        written.as_slice(),
        folder,
    )
}

/// Builds the tables of all pairs below a pair, its own among them, into a folder that is there,
/// and answers what their lines in the list of digests are made of.
fn fill<B: Board, R: Threads + Wait + Sync, F: Folder, O: Sink, T: Progress>(
    filling: &Filling<'_, B, R>,
    folder: &mut F,
    output: &mut O,
    progress: &mut T,
) -> Result<Vec<Written<B>>, Fault>
where
    F::Writer: Send,
    requires folder { F.failures folder.old < 2 ^ 64 - 2 }
    requires locked { F.locked folder.old ≡ true }
    requires output { O.failures output.old < 2 ^ 64 - 1 }
    ensures points { B.shape.points ≡ B.POINTS }
    ensures filled { (unchanged : List ℕ) → MatchResult result
        (λ written. IsFilledBut B.shape filling.now.layout filling.now.board.now filling.now.pair filling.now.context.parallelism.blocks unchanged
        (place_of (F.files folder.old) (O.contents output.old)) (place_of (F.files folder.new) (O.contents output.new))
        (digest_lines filling.now.board.now (λ w. w.pair) (λ w. w.digest) written.items))
        (λ refused. FillsFolder B.shape filling.now.layout filling.now.board.now filling.now.pair filling.now.context.parallelism.blocks unchanged
        (place_of (F.files folder.old) (O.contents output.old)) (place_of (F.files folder.new) (O.contents output.new)) (Err refused)) }
    ensures locked { F.locked folder.new ≡ true }
    ensures caused { HasCause F.Reader.failures F.Writer.failures (Some false) ⊥ (F.failures folder.old) (F.failures folder.new) result }
    ensures counted { CountsWrites (O.failures output.old) (O.failures output.new) result }
    ensures reported { T.becomes progress.old progress.new }
{
    let Context {
        alloc,
        parallelism,
        ..
    } = filling.context;
    let mut filled = Filled::new(alloc)?;
    let mut tables = TableSet::new(alloc)?;
    let plan = Plan::Built {
        parallelism,
        all: false,
    };
    progress.start(filling.pair, filling.layout, plan);
    add_files(filling, &mut tables, &mut filled, folder, output, progress)?;
    let Filled { written, .. } = filled;
    Ok(written)
}

/// Fills a folder that is there over a set of tables. Where there are several workers, the file of
/// a table is written while the next one is built.
fn add_files<B: Board, R: Threads + Wait + Sync, F: Folder, O: Sink, T: Progress>(
    filling: &Filling<'_, B, R>,
    tables: &mut TableSet<B>,
    filled: &mut Filled<B>,
    folder: &mut F,
    output: &mut O,
    progress: &mut T,
) -> Result<(), Fault>
where
    F::Writer: Send,
    requires folder { F.failures folder.old < 2 ^ 64 - 2 }
    requires locked { F.locked folder.old ≡ true }
    requires output { O.failures output.old < 2 ^ 64 - 1 }
    requires none { filled.old.written.items ≡ [] }
    requires sent { filled.old.sent ≡ 0 }
    requires waiting { filled.old.waiting ≡ None }
    ensures filled { (unchanged : List ℕ) → MatchResult result
        (λ _. IsFilledBut B.shape filling.now.layout filling.now.board.now filling.now.pair filling.now.context.parallelism.blocks unchanged
        (place_of (F.files folder.old) (O.contents output.old)) (place_of (F.files folder.new) (O.contents output.new))
        (digest_lines filling.now.board.now (λ w. w.pair) (λ w. w.digest) filled.new.written.items))
        (λ refused. FillsFolder B.shape filling.now.layout filling.now.board.now filling.now.pair filling.now.context.parallelism.blocks unchanged
        (place_of (F.files folder.old) (O.contents output.old)) (place_of (F.files folder.new) (O.contents output.new)) (Err refused)) }
    ensures locked { F.locked folder.new ≡ true }
    ensures caused { HasCause F.Reader.failures F.Writer.failures (Some false) ⊥ (F.failures folder.old) (F.failures folder.new) result }
    ensures counted { CountsWrites (O.failures output.old) (O.failures output.new) result }
    ensures reported { T.becomes progress.old progress.new }
{
    for below in filling.pair.below() {
        drop_unneeded(tables, false, below);
        let table = build_beside(filling, filled, tables, below, folder, output, progress)?;
        tables.put(table);
        filled.waiting = Some(below);
        if filling.context.parallelism.workers == 1 {
            file_waiting(filling, filled, tables, folder, output, progress)?;
        }
    }
    file_waiting(filling, filled, tables, folder, output, progress)
}

/// Writes the list of digests: the lines that were retained, and those of these files.
fn end<B: Geometry, F: Folder>(
    alloc: Global,
    board: &str,
    unchanged: &[u8],
    written: &[Written<B>],
    folder: &mut F,
) -> Result<(), Fault>
    requires failures { F.failures folder.old < 2 ^ 64 - 2 }
    requires locked { F.locked folder.old ≡ true }
    ensures ended { (out : Option (List ℕ)) → Ends board.now (unchanged.now ++ digest_lines board.now (λ w. w.pair) (λ w. w.digest) written.now) (place_of (F.files folder.old) out)
        (place_of (F.files folder.new) out) result }
    ensures caused { HasCause F.Reader.failures F.Writer.failures (Some false) ⊥ (F.failures folder.old) (F.failures folder.new) result }
    ensures unwritten { IfErr result (λ refused. is_write refused ≡ false) }
{
    match write_list(alloc, folder, board, unchanged, written) {
        Ok(()) => Ok(()),
        Err(fault) => Err(step_fault(Fault::Digests, fault.step)),
    }
}
