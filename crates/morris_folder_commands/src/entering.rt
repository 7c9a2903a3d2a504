//! How a folder whose files are to be replaced is entered: it is locked, and its list of digests
//! drops the lines of those files.
ghost use Rattle.std.specs.Prelude.{◌≡◌, ◌-◌, ◌^◌, ◌<◌, [], Some, true, false, IfErr, MatchResult, OnOk, Ok, Err};
ghost use Rattle.morris_files.specs.Files.{Goes};
ghost use Rattle.morris_jobs.specs.Faults.{is_write};
ghost use Rattle.morris_folder_commands.specs.Causes.{HasCause, MayBeLong};
ghost use Rattle.morris_folder_commands.specs.Into.{step_fault};
ghost use Rattle.morris_folder_commands.specs.Entering.{BeginsList, IsEntered, IsLeft, IsShut, IsUnbegun, list_fault};

use morris_board::board::Geometry;
use morris_board::streams::Failed;
use morris_files::checksum_list::write_list;
use morris_files::folder::Folder;
use morris_files::names::digests_name;
use morris_files::old_checksums::{ListFault, retained_lines};
use morris_files::table_file::Written;
use morris_files::whole::Step;
use morris_index::pair::Pair;
use morris_jobs::fault::Fault;
use std::alloc::Global;

/// The name of the file by which a folder is locked. It stays there.
const LOCK: &str = ".morris.lock";

/// Makes a folder where there is none, and locks it for as long as `folder` lives.
///
/// # Errors
/// [`Fault::Folder`] where it can't be made; else [`Fault::NoFolder`] where its path is empty or
/// stands for something else; else [`Fault::Unlocked`] where it can't be locked, or
/// [`Fault::Busy`] where another has locked it.
pub(crate) fn enter<F: Folder>(folder: &mut F) -> Result<(), Fault>
    requires { F.failures folder.old < 2 ^ 64 - 2 }
    ensures entered { MatchResult result (λ _. IsEntered (F.files folder.old) (F.files folder.new)) (IsShut (F.files folder.old) (F.files folder.new)) }
    ensures caused { HasCause F.Reader.failures F.Writer.failures (F.taken folder.old) ⊥ (F.failures folder.old) (F.failures folder.new) result }
    ensures locked { OnOk result (F.locked folder.new ≡ true) }
    ensures unwritten { IfErr result (λ refused. is_write refused ≡ false) }
{
    if folder.make().is_err() {
        return Err(Fault::Folder);
    }
    if folder.find().is_err() {
        return Err(Fault::NoFolder);
    }
    match folder.lock(LOCK) {
        Ok(true) => Ok(()),
        Ok(false) => Err(Fault::Busy),
        Err(Failed) => Err(Fault::Unlocked),
    }
}

/// The lines that a folder's list of digests retains, on the board of this name: all but those of
/// the files that are replaced, which are those of all pairs below a pair, its own among them. The
/// list is left with these alone, so that it stays right while files are replaced, whatever ends
/// the program then.
///
/// # Errors
/// [`Fault::Memory`] where memory is refused; [`Fault::Digests`] where the list can't be read or
/// written.
pub(crate) fn begin_list<B: Geometry, F: Folder>(
    alloc: Global,
    board: &str,
    replaced: Pair<B>,
    folder: &mut F,
) -> Result<Vec<u8>, Fault>
    requires failures { F.failures folder.old < 2 ^ 64 - 2 }
    requires locked { F.locked folder.old ≡ true }
    ensures begun { MatchResult result (λ retained. BeginsList board.now replaced (F.files folder.old) (F.files folder.new) (Ok retained.items))
        (IsUnbegun board.now (F.files folder.old) (F.files folder.new)) }
    ensures locked { F.locked folder.new ≡ true }
    ensures caused { HasCause F.Reader.failures F.Writer.failures (Some false) (MayBeLong board.now (F.files folder.old))
        (F.failures folder.old) (F.failures folder.new) result }
    ensures unwritten { IfErr result (λ refused. is_write refused ≡ false) }
{
    let retained = match retained_lines(alloc, folder, board, replaced) {
        Ok(retained) => retained,
        Err(refused) => return Err(list_fault(refused)),
    };
    match leave_list::<B, F>(alloc, board, retained.as_slice(), folder) {
        Ok(()) => Ok(retained),
        Err(refused) => Err(refused),
    }
}

/// The fault of a list of digests that couldn't be read.
fn list_fault(refused: ListFault) -> Fault
    ensures { result ≡ list_fault refused }
{
    match refused {
        ListFault::Memory => Fault::Memory,
        _ => Fault::Digests,
    }
}

/// Leaves the list of digests with these lines, and removes it where there are none.
///
/// # Errors
/// [`Fault::Memory`] where memory is refused; [`Fault::Digests`] where the list can't be written or
/// removed.
fn leave_list<B: Geometry, F: Folder>(
    alloc: Global,
    board: &str,
    retained: &[u8],
    folder: &mut F,
) -> Result<(), Fault>
    requires { F.failures folder.old < 2 ^ 64 - 2 }
    ensures left { MatchResult result (λ _. Goes (F.files folder.old) (F.files folder.new) (IsLeft board.now retained.now)) (IsUnbegun board.now (F.files folder.old) (F.files folder.new)) }
    ensures held { F.locked folder.new ≡ F.locked folder.old }
    ensures caused { HasCause F.Reader.failures F.Writer.failures (Some false) ⊥ (F.failures folder.old) (F.failures folder.new) result }
    ensures unwritten { IfErr result (λ refused. is_write refused ≡ false) }
{
    if retained.is_empty() {
        return remove_list(alloc, board, folder);
    }
    let none: Vec<Written<B>> = Vec::new(alloc);
    match write_list(alloc, folder, board, retained, none.as_slice()) {
        Ok(()) => Ok(()),
        Err(fault) => Err(step_fault(Fault::Digests, fault.step)),
    }
}

/// The fault of a file that isn't written, by the step that failed: `fault`, or want of memory.
pub(crate) fn step_fault(fault: Fault, step: Step) -> Fault
    ensures { result ≡ step_fault fault step }
{
    match step {
        Step::Memory => Fault::Memory,
        _ => fault,
    }
}

/// Removes the list of digests, if there is one.
fn remove_list<F: Folder>(alloc: Global, board: &str, folder: &mut F) -> Result<(), Fault>
    requires { F.failures folder.old < 2 ^ 64 - 1 }
    ensures left { MatchResult result (λ _. Goes (F.files folder.old) (F.files folder.new) (IsLeft board.now [])) (IsUnbegun board.now (F.files folder.old) (F.files folder.new)) }
    ensures held { F.locked folder.new ≡ F.locked folder.old }
    ensures caused { HasCause F.Reader.failures F.Writer.failures (Some false) ⊥ (F.failures folder.old) (F.failures folder.new) result }
    ensures unwritten { IfErr result (λ refused. is_write refused ≡ false) }
{
    let Ok(name) = digests_name(alloc, board) else {
        return Err(Fault::Memory);
    };
    match folder.remove(name.as_str()) {
        Ok(()) => {}
        Err(Failed) => return Err(Fault::Digests),
    }
    match folder.settle() {
        Ok(()) => Ok(()),
        Err(Failed) => Err(Fault::Digests),
    }
}
