//! The file of the digests of the files of tables.
ghost use Rattle.std.specs.Prelude.{◌≡◌, ℕ, ◌+◌, ◌-◌, ◌^◌, ◌<◌, ◌++◌, List, IfErr, IfOk, MatchResult, OnOk, string_bytes};
ghost use Rattle.morris_files.specs.Files.{HasFailed};
ghost use Rattle.morris_files.specs.Whole.{AnswersWhole, failures_in};
ghost use Rattle.morris_files.specs.Digests.{digest_line, digest_lines};
ghost use Rattle.morris_files.specs.Names.{digests_name_of};

use crate::folder::Folder;
use crate::names::{digests_name, file_name};
use crate::table_file::Written;
use crate::whole::{Contents, NotWhole, Step, write_whole};
use morris_board::board::Geometry;
use morris_board::streams::{Failed, Sink, put};
use morris_wave::{NoProgress, Watch};
use sha2::{Digest, Sha256};
use std::alloc::{AllocError, Global};

/// The bytes of a list: lines that were retained of an older one, and those after them.
#[derive(Drop)]
struct ListBytes<'a> {
    retained: &'a [u8],
    lines: &'a str,
}

impl Contents for ListBytes<'_> {
    ghost bytes = { λ list. list.retained.now ++ list.lines.now };

    fn write_to<S: Sink, W: Watch>(
        &self,
        sink: &mut S,
        _watch: &mut W,
    ) -> Result<[u8; 32], Failed> {
        let lines = self.lines.as_bytes();
        if put(sink, 0, self.retained).is_err() || put(sink, 0, lines).is_err() {
            return Err(Failed);
        }
        let mut hasher = Sha256::new();
        hasher.update(self.retained);
        hasher.update(lines);
        Ok(hasher.finalize())
    }
}

/// Writes the list of digests of files of tables of the board of this name into their folder, whole
/// or not at all, as `sha256sum -c` reads it: the lines that were
/// [retained](crate::old_checksums::retained_lines) of the older list, and then a line for each
/// file that was written, in order. The list is a file with the name that [`digests_name`] says.
///
/// Fewer than `u64::MAX - 1` calls of the folder may have failed before.
///
/// # Errors
/// [`NotWhole`] with the first step that failed. What stood under the name before stands there
/// then, or the whole list does where the step is `Rename`; where it is `Settle` the whole list
/// does.
pub fn write_list<B: Geometry, F: Folder>(
    alloc: Global,
    folder: &mut F,
    board: &str,
    retained: &[u8],
    written: &[Written<B>],
) -> Result<(), NotWhole>
    requires { F.failures folder.old < 2 ^ 64 - 2 }
    ensures answer { AnswersWhole (digests_name_of board.now) (retained.now ++ digest_lines board.now (λ w. w.pair) (λ w. w.digest) written.now) (F.files folder.old) (F.files folder.new) result }
    ensures counted { MatchResult result (λ _. F.failures folder.new ≡ F.failures folder.old) (λ fault. F.failures folder.new ≡ F.failures folder.old + failures_in fault) }
    ensures unwritten { IfErr result (λ fault. fault.step ≡ Step.Write → HasFailed F.Writer.failures) }
    ensures held { F.locked folder.new ≡ F.locked folder.old }
{
    let (Ok(name), Ok(text)) = (digests_name(alloc, board), lines(alloc, board, written)) else {
        return Err(NotWhole {
            step: Step::Memory,
            left: false,
        });
    };
    let lines = text.as_str();
    let list = ListBytes { retained, lines };
    match write_whole(alloc, folder, name.as_str(), &list, &mut NoProgress) {
        Ok(_) => Ok(()),
        Err(fault) => Err(fault),
    }
}

/// The lines of the digests of these files.
fn lines<B: Geometry>(
    alloc: Global,
    board: &str,
    written: &[Written<B>],
) -> Result<String, AllocError>
    ensures { IfOk result (λ text. string_bytes text ≡ digest_lines board.now (λ w. w.pair) (λ w. w.digest) written.now) }
{
    let mut text = String::with_capacity(alloc, 0)?;
    for file in written {
        push_line(alloc, &mut text, board, file)?;
    }
    Ok(text)
}

/// Adds the line of the digest of a file.
fn push_line<B: Geometry>(
    alloc: Global,
    text: &mut String,
    board: &str,
    file: &Written<B>,
) -> Result<(), AllocError>
    ensures { OnOk result (string_bytes text.new ≡ string_bytes text.old ++ digest_line board.now file.now.pair file.now.digest) }
{
    let digest = hex::encode(alloc, &file.digest)?;
    let name = file_name(alloc, board, file.pair)?;
    let line = [digest.as_str(), "  ", name.as_str(), "\n"].concat(alloc)?;
    text.push_str(line.as_str())
}
