//! Files that are written whole or not at all.
ghost use Rattle.std.specs.Prelude.{◌≡◌, ◌≢◌, ℕ, ◌+◌, ◌-◌, ◌^◌, ◌<◌, List, Option, IfErr, IfOk, MatchResult, OnOk, Ok, Err, string_bytes};
ghost use Rattle.std.specs.Io.KnownBytes.{Appends};
ghost use Rattle.sha2.specs.Sha256.{sha256};
ghost use Rattle.morris_board.specs.Streams.{CountsFailure};
ghost use Rattle.morris_files.specs.Files.{Files, Goes, HasFailed};
ghost use Rattle.morris_files.specs.Whole.{AnswersPart, AnswersWhole, AreGivenUp, AreNotWhole, ArePart, IsBegun, IsBegunPart, IsMade, part_of, may_leave, failures_at, failures_in};

use crate::folder::Folder;
use morris_board::streams::{Failed, Sink};
use morris_wave::Watch;
use std::alloc::Global;
use thiserror::Error;

/// What writes the bytes of a file, in chunks.
pub trait Contents {
    /// The bytes.
    ghost bytes: { Self → List ℕ };

    /// Writes all the bytes to the sink, and answers their SHA-256. Where there are many, 0 entries
    /// are reported to the watch now and then, which shows that the work goes on.
    ///
    /// Fewer than `u64::MAX` calls of the sink may have failed before.
    ///
    /// # Errors
    /// [`Failed`] at the first write that failed. No write is tried again.
    fn write_to<S: Sink, W: Watch>(&self, sink: &mut S, watch: &mut W) -> Result<[u8; 32], Failed>
        requires { S.failures sink.old < 2 ^ 64 - 1 }
        ensures whole { OnOk result (Appends (S.contents sink.old) (S.contents sink.new) (bytes self.now)) }
        ensures digest { IfOk result (λ digest. digest ≡ sha256 (bytes self.now)) }
        ensures counted { CountsFailure (S.failures sink.old) (S.failures sink.new) result }
        ensures watched { W.becomes watch.old watch.new };
}

/// What was to be done where a file wasn't written whole.
#[derive(Debug, Clone, Copy, PartialEq, Eq, Error)]
pub enum Step {
    /// Memory was to be had for the name of the part.
    #[error("out of memory")]
    Memory,
    /// The part was to be made.
    #[error("not created")]
    Create,
    /// The bytes were to be written to the part.
    #[error("not written")]
    Write,
    /// The bytes of the part were to last.
    #[error("not synced")]
    Sync,
    /// The part was to get the name of the file.
    #[error("not renamed")]
    Rename,
    /// The names of the folder were to last.
    #[error("not settled")]
    Settle,
}

impl Step {
    /// Whether a part may be there once this step has failed.
    fn may_leave(self) -> bool
        ensures { result ≡ may_leave self }
    {
        match self {
            Step::Memory | Step::Create | Step::Settle => false,
            Step::Write | Step::Sync | Step::Rename => true,
        }
    }
}

/// A file wasn't written whole. What stood under its name before stands there now, or the whole
/// file does where the step is [`Rename`](Step::Rename); where it is [`Settle`](Step::Settle) the
/// whole file does, and there is no part, but it may not last.
#[derive(Debug, Clone, Copy, PartialEq, Eq, Error)]
#[error("{step}")]
pub struct NotWhole {
    /// What failed.
    pub step: Step,
    /// Whether a part was left, since the call that was to remove it failed as well.
    pub left: bool,
}

/// A part of a file that is written: a file of its name with `.part` at its end.
#[derive(Drop)]
pub struct Part<W: Drop> {
    /// The name of the part.
    name: String,
    /// What writes it.
    pub writer: W,
}

/// Writes the file of this name, in the place of one that is there, so that the name never stands
/// for a part of the bytes, whatever ends the program: the bytes go to a part, a file of the name
/// with `.part` at its end, which gets the name once all of them are there and are to last. At the
/// end the names of the folder are to last as well. What stood under the name of the part before is
/// removed, and isn't written to. The answer is the SHA-256 of the bytes.
///
/// Fewer than `u64::MAX - 1` calls of the folder may have failed before. Where there are many
/// bytes, 0 entries are reported to `watch` now and then, which shows that the work goes on (see
/// [`Contents`]).
///
/// # Errors
/// [`NotWhole`] with the first step that failed. Then the part is removed, if it was made.
pub fn write_whole<F: Folder, C: Contents, W: Watch>(
    alloc: Global,
    folder: &mut F,
    name: &str,
    contents: &C,
    watch: &mut W,
) -> Result<[u8; 32], NotWhole>
    requires { F.failures folder.old < 2 ^ 64 - 2 }
    ensures answer { AnswersWhole name.now (C.bytes contents.now) (F.files folder.old) (F.files folder.new) result }
    ensures counted { MatchResult result (λ _. F.failures folder.new ≡ F.failures folder.old) (λ fault. F.failures folder.new ≡ F.failures folder.old + failures_in fault) }
    ensures unwritten { IfErr result (λ fault. fault.step ≡ Step.Write → HasFailed F.Writer.failures) }
    ensures held { F.locked folder.new ≡ F.locked folder.old }
    ensures digest { IfOk result (λ digest. digest ≡ sha256 (C.bytes contents.now)) }
    // The watch is as it may be after reports, whatever the answer.
    ensures watched { W.becomes watch.old watch.new }
{
    let mut part = begin_part(alloc, folder, name)?;
    let written = contents.write_to(&mut part.writer, watch);
    end_part(folder, name, part, written)
}

/// Begins the part of the file of this name, in the place of what stands under the part's name. Its
/// writer has written nothing.
///
/// Fewer than `u64::MAX - 1` calls of the folder may have failed before.
///
/// # Errors
/// [`NotWhole`] with [`Step::Memory`] where memory for the name of the part is refused, or
/// [`Step::Create`].
pub fn begin_part<F: Folder>(
    alloc: Global,
    folder: &mut F,
    name: &str,
) -> Result<Part<F::Writer>, NotWhole>
    requires { F.failures folder.old < 2 ^ 64 - 2 }
    ensures begun { IfOk result (λ part. IsBegun F.Writer.contents (F.files folder.old) (F.files folder.new) name.now part.writer) }
    ensures unfailed { IfOk result (λ part. F.Writer.failures part.writer ≡ 0) }
    ensures name { IfOk result (λ part. string_bytes part.name ≡ part_of name.now) }
    ensures refused { (bytes : List ℕ) → IfErr result (λ fault. Goes (F.files folder.old) (F.files folder.new) (AreNotWhole name.now bytes fault)) }
    ensures written { IfErr result (λ fault. fault.step ≢ Step.Write) }
    ensures counted { MatchResult result (λ _. F.failures folder.new ≡ F.failures folder.old) (λ fault. F.failures folder.new ≡ F.failures folder.old + failures_in fault) }
    ensures held { F.locked folder.new ≡ F.locked folder.old }
{
    let Ok(part) = [name, ".part"].concat(alloc) else {
        return Err(NotWhole {
            step: Step::Memory,
            left: false,
        });
    };
    match make_part(folder, part.as_str()) {
        Ok(writer) => Ok(Part { name: part, writer }),
        Err(Failed) => Err(NotWhole {
            step: Step::Create,
            left: false,
        }),
    }
}

/// Gives a part its name, the one of the file, once its bytes are to last, and then the names of
/// the folder are to last: `written` is what was answered where its writer was given all the bytes
/// of the file, and of nothing else. The answer is their SHA-256.
///
/// Fewer than `u64::MAX - 1` calls of the folder may have failed before.
///
/// # Errors
/// [`NotWhole`] with the first step that failed, with [`Step::Write`] where `written` is a failure.
/// Then the part is removed.
pub fn end_part<F: Folder>(
    folder: &mut F,
    name: &str,
    part: Part<F::Writer>,
    written: Result<[u8; 32], Failed>,
) -> Result<[u8; 32], NotWhole>
    requires failures { F.failures folder.old < 2 ^ 64 - 2 }
    requires name { string_bytes part.name ≡ part_of name.now }
    requires unwritten { IfErr written (λ _. 0 < F.Writer.failures part.writer) }
    ensures answer { (files : Option Files) (start : F.Writer) (bytes : List ℕ) → IsBegun F.Writer.contents files (F.files folder.old) name.now start
        → OnOk written (Appends (F.Writer.contents start) (F.Writer.contents part.writer) bytes) → AnswersWhole name.now bytes files (F.files folder.new) result }
    ensures counted { MatchResult result (λ _. F.failures folder.new ≡ F.failures folder.old) (λ fault. F.failures folder.new ≡ F.failures folder.old + failures_in fault) }
    ensures unwritten { IfErr result (λ fault. fault.step ≡ Step.Write → HasFailed F.Writer.failures) }
    ensures held { F.locked folder.new ≡ F.locked folder.old }
    ensures digest { IfOk result (λ digest. written ≡ Ok digest) }
{
    let Part {
        name: under,
        writer,
    } = part;
    match sync_part(folder, under.as_str(), writer, written) {
        Ok(digest) => rename_part(folder, under.as_str(), name, digest),
        Err(step) => Err(give_up(folder, under.as_str(), step)),
    }
}

/// Ends the writing of a part.
fn sync_part<F: Folder>(
    folder: &mut F,
    part: &str,
    writer: F::Writer,
    written: Result<[u8; 32], Failed>,
) -> Result<[u8; 32], Step>
    requires failures { F.failures folder.old < 2 ^ 64 - 1 }
    requires unwritten { IfErr written (λ _. 0 < F.Writer.failures writer) }
    ensures answer { (files : Option Files) (start : F.Writer) (bytes : List ℕ) → IsBegunPart F.Writer.contents files (F.files folder.old) part.now start
        → OnOk written (Appends (F.Writer.contents start) (F.Writer.contents writer) bytes) → AnswersPart part.now bytes files (F.files folder.new) result }
    ensures counted { MatchResult result (λ _. F.failures folder.new ≡ F.failures folder.old) (λ step. F.failures folder.new ≡ F.failures folder.old + failures_at step) }
    ensures unwritten { result ≡ Err Step.Write → HasFailed F.Writer.failures }
    ensures held { F.locked folder.new ≡ F.locked folder.old }
    ensures digest { IfOk result (λ digest. written ≡ Ok digest) }
{
    let Ok(digest) = written else {
        folder.abandon(writer);
        return Err(Step::Write);
    };
    match folder.sync(part, writer) {
        Ok(()) => Ok(digest),
        Err(Failed) => Err(Step::Sync),
    }
}

/// Gives a part that was written the name of its file, and answers this digest.
fn rename_part<F: Folder>(
    folder: &mut F,
    part: &str,
    name: &str,
    digest: [u8; 32],
) -> Result<[u8; 32], NotWhole>
    requires failures { F.failures folder.old < 2 ^ 64 - 2 }
    requires part { part.now ≡ part_of name.now }
    ensures answer { (files : Option Files) (bytes : List ℕ) → Goes files (F.files folder.old) (ArePart part.now bytes) → AnswersWhole name.now bytes files (F.files folder.new) result }
    ensures counted { MatchResult result (λ _. F.failures folder.new ≡ F.failures folder.old) (λ fault. F.failures folder.new ≡ F.failures folder.old + failures_in fault) }
    ensures unwritten { IfErr result (λ fault. fault.step ≢ Step.Write) }
    ensures held { F.locked folder.new ≡ F.locked folder.old }
    ensures digest { IfOk result (λ given. given ≡ digest) }
{
    match folder.rename(part, name) {
        Ok(()) => {}
        Err(Failed) => return Err(give_up(folder, part, Step::Rename)),
    }
    match folder.settle() {
        Ok(()) => Ok(digest),
        Err(Failed) => Err(NotWhole {
            step: Step::Settle,
            left: false,
        }),
    }
}

/// Makes a part, in the place of what stands under its name.
fn make_part<F: Folder>(folder: &mut F, part: &str) -> Result<F::Writer, Failed>
    requires { F.failures folder.old < 2 ^ 64 - 1 }
    ensures made { IsMade F.Writer.contents F.Writer.failures (F.files folder.old) (F.files folder.new) part.now result }
    ensures counted { CountsFailure (F.failures folder.old) (F.failures folder.new) result }
    ensures held { F.locked folder.new ≡ F.locked folder.old }
{
    match folder.remove(part) {
        Ok(()) => folder.create(part),
        Err(Failed) => Err(Failed),
    }
}

/// Removes the part of a file that can't be written whole, since this step failed, where there may
/// be one.
fn give_up<F: Folder>(folder: &mut F, part: &str, step: Step) -> NotWhole
    requires { F.failures folder.old < 2 ^ 64 - 1 }
    ensures step { result.step ≡ step }
    ensures given_up { Goes (F.files folder.old) (F.files folder.new) (AreGivenUp part.now result) }
    ensures counted { F.failures folder.new + failures_at step ≡ F.failures folder.old + failures_in result }
    ensures held { F.locked folder.new ≡ F.locked folder.old }
{
    let left = step.may_leave() && folder.remove(part).is_err();
    NotWhole { step, left }
}
