//! The file of one table.
ghost use Rattle.std.specs.Prelude.{◌≡◌, ◌≢◌, ℕ, ◌+◌, ◌-◌, ◌^◌, ◌<◌, ⊤, List, Option, Err, IfErr, IfOk, OnOk, MatchResult, length};
ghost use Rattle.std.specs.Io.KnownBytes.{Appends};
ghost use Rattle.sha2.specs.Sha256.{sha256};
ghost use Rattle.morris_pairs.specs.TableFiles.{file_of};
ghost use Rattle.morris_files.specs.Files.{Files, HasFailed};
ghost use Rattle.morris_files.specs.Names.{name_of};
ghost use Rattle.morris_files.specs.Whole.{IsBegun, failures_in};
ghost use Rattle.morris_files.specs.Stored.{AnswersTableFile};
ghost use Rattle.morris_files.specs.Parts.{HasNames, IsPaired};

use crate::digested_table::write_digested;
use crate::folder::Folder;
use crate::names::file_name;
use crate::whole::{Contents, NotWhole, Part, Step, begin_part, end_part};
use morris_board::board::Geometry;
use morris_board::streams::{Failed, Sink};
use morris_index::pair::Pair;
use morris_pairs::exact::Exact;
use morris_wave::Watch;
use std::alloc::Global;

impl<B: Geometry> Contents for Exact<B> {
    ghost bytes = { λ table. file_of B.shape table };

    fn write_to<S: Sink, W: Watch>(&self, sink: &mut S, watch: &mut W) -> Result<[u8; 32], Failed> {
        write_digested(sink, self, watch)
    }
}

/// A file that was written.
#[derive(Drop)]
pub struct Written<B: Geometry> {
    /// The pair of its table.
    pub pair: Pair<B>,
    /// How many entries the table has.
    pub entries: u64,
    /// How many bytes the file has: 16 before the entries, 2 for each, and 32 after them.
    pub bytes: u64,
    /// The SHA-256 of the whole file.
    pub digest: [u8; 32],
}

/// Writes the file of a table into a folder, whole or not at all, under the name that the file of
/// its pair has on the board of this name. After each chunk 0 entries are reported to `watch`,
/// which shows that the work goes on.
///
/// Fewer than `u64::MAX - 1` calls of the folder may have failed before. No byte of the file is
/// held beside the chunks of several KiB in which it goes out, and none is read again.
///
/// # Errors
/// [`NotWhole`] with the first step that failed. What stood under the name before stands there
/// then, or the whole file does where the step is `Rename`; where it is `Settle` the whole file
/// does.
pub fn write_table_file<B: Geometry, F: Folder, W: Watch>(
    alloc: Global,
    folder: &mut F,
    board: &str,
    table: &Exact<B>,
    watch: &mut W,
) -> Result<Written<B>, NotWhole>
    requires { F.failures folder.old < 2 ^ 64 - 2 }
    ensures answer { AnswersTableFile B.shape board.now table.now (F.files folder.old) (F.files folder.new) result }
    ensures counted { MatchResult result (λ _. F.failures folder.new ≡ F.failures folder.old) (λ fault. F.failures folder.new ≡ F.failures folder.old + failures_in fault) }
    ensures unwritten { IfErr result (λ fault. fault.step ≡ Step.Write → HasFailed F.Writer.failures) }
    ensures held { F.locked folder.new ≡ F.locked folder.old }
    ensures pair { IfOk result (λ written. written.pair ≡ table.now.pair) }
    ensures entries { IfOk result (λ written. written.entries ≡ length table.now.codes) }
    ensures bytes { IfOk result (λ written. written.bytes ≡ length (file_of B.shape table.now)) }
    ensures digest { IfOk result (λ written. written.digest ≡ sha256 (file_of B.shape table.now)) }
    ensures watched { W.becomes watch.old watch.new }
{
    let mut part = begin_table_file(alloc, folder, board, table)?;
    let written = table.write_to(&mut part.part.writer, watch);
    end_table_file(folder, table, part, written)
}

/// The file of a table that is written.
#[derive(Drop)]
pub struct TablePart<W: Drop> {
    /// The name of the file.
    name: String,
    /// Its part.
    pub part: Part<W>,
}

/// Begins the part of the file of a table, whose writer has written nothing. The writer is to be
/// given the table ([`Contents::write_to`]), perhaps by another thread, and then
/// [`end_table_file`] ends it.
///
/// Fewer than `u64::MAX - 1` calls of the folder may have failed before.
///
/// # Errors
/// [`NotWhole`] with [`Step::Memory`] or [`Step::Create`].
pub fn begin_table_file<B: Geometry, F: Folder>(
    alloc: Global,
    folder: &mut F,
    board: &str,
    table: &Exact<B>,
) -> Result<TablePart<F::Writer>, NotWhole>
    requires { F.failures folder.old < 2 ^ 64 - 2 }
    ensures begun { IfOk result (λ begun. IsBegun F.Writer.contents (F.files folder.old) (F.files folder.new) (name_of board.now table.now.pair) begun.part.writer) }
    ensures unfailed { IfOk result (λ begun. F.Writer.failures begun.part.writer ≡ 0) }
    ensures names { IfOk result (λ begun. HasNames begun (name_of board.now table.now.pair)) }
    ensures paired { IfOk result (λ begun. IsPaired begun) }
    ensures refused { IfErr result (λ fault. AnswersTableFile {T = ⊤} B.shape board.now table.now (F.files folder.old) (F.files folder.new) (Err fault)) }
    ensures written { IfErr result (λ fault. fault.step ≢ Step.Write) }
    ensures counted { MatchResult result (λ _. F.failures folder.new ≡ F.failures folder.old) (λ fault. F.failures folder.new ≡ F.failures folder.old + failures_in fault) }
    ensures held { F.locked folder.new ≡ F.locked folder.old }
{
    let Ok(name) = file_name(alloc, board, table.pair()) else {
        return Err(NotWhole {
            step: Step::Memory,
            left: false,
        });
    };
    let part = begin_part(alloc, folder, name.as_str())?;
    Ok(TablePart { name, part })
}

/// Ends the part of the file of a table: `written` is what was answered where its writer was given
/// the table, and nothing else.
///
/// Fewer than `u64::MAX - 1` calls of the folder may have failed before.
///
/// # Errors
/// As [`write_table_file`] has it, with [`Step::Write`] where `written` is a failure.
pub fn end_table_file<B: Geometry, F: Folder>(
    folder: &mut F,
    table: &Exact<B>,
    part: TablePart<F::Writer>,
    written: Result<[u8; 32], Failed>,
) -> Result<Written<B>, NotWhole>
    requires failures { F.failures folder.old < 2 ^ 64 - 2 }
    requires paired { IsPaired part }
    requires unwritten { IfErr written (λ _. 0 < F.Writer.failures part.part.writer) }
    requires digest { IfOk written (λ digest. digest ≡ sha256 (file_of B.shape table.now)) }
    ensures answer { (board : List ℕ) (files : Option Files) (start : F.Writer) → HasNames part (name_of board table.now.pair)
        → IsBegun F.Writer.contents files (F.files folder.old) (name_of board table.now.pair) start
        → OnOk written (Appends (F.Writer.contents start) (F.Writer.contents part.part.writer) (file_of B.shape table.now))
        → AnswersTableFile B.shape board table.now files (F.files folder.new) result }
    ensures counted { MatchResult result (λ _. F.failures folder.new ≡ F.failures folder.old) (λ fault. F.failures folder.new ≡ F.failures folder.old + failures_in fault) }
    ensures unwritten { IfErr result (λ fault. fault.step ≡ Step.Write → HasFailed F.Writer.failures) }
    ensures held { F.locked folder.new ≡ F.locked folder.old }
    ensures pair { IfOk result (λ written. written.pair ≡ table.now.pair) }
    ensures entries { IfOk result (λ written. written.entries ≡ length table.now.codes) }
    ensures bytes { IfOk result (λ written. written.bytes ≡ length (file_of B.shape table.now)) }
    ensures digest { IfOk result (λ written. written.digest ≡ sha256 (file_of B.shape table.now)) }
{
    let TablePart { name, part } = part;
    let digest = end_part(folder, name.as_str(), part, written)?;
    let entries = table.len();
    Ok(Written {
        pair: table.pair(),
        entries,
        bytes: 16 + 2 * entries + 32,
        digest,
    })
}
