//! How much there is to do in a folder, by the headers of its files.
ghost use Rattle.std.specs.Prelude.{◌≡◌, ◌-◌, ◌^◌, ◌<◌, Err, IfErr, IfOk};
ghost use Rattle.morris_files.specs.Files.{AreUnchanged};
ghost use Rattle.morris_folder_commands.specs.FromSteps.{EndsAt};

use crate::places::pair_at;
use morris_board::board::Geometry;
use morris_files::folder::Folder;
use morris_files::header::{Header, read_header};
use morris_files::stored::StoredFault;
use morris_index::below::PAIR_COUNT;
use morris_jobs::fault::Fault;
use morris_jobs::progress::Progress;
use morris_jobs::size::{FolderSize, Size};
use std::alloc::Global;

/// What the headers of files say.
struct Survey {
    /// How much there is to do.
    size: Size,
    /// The place of the first pair whose file can't be opened; past all pairs where each can.
    end: usize,
}

/// Reports how much there is to do in a folder, where progress is reported, and answers the place
/// of the first pair whose file can't be opened, or how many places there are. What follows that
/// file is left out, since its turn never comes.
///
/// # Errors
/// [`Fault::Memory`] where memory is refused for the name of a file.
pub(crate) fn look_ahead<B: Geometry, F: Folder, T: Progress>(
    alloc: Global,
    board: &str,
    folder: &mut F,
    progress: &mut T,
) -> Result<usize, Fault>
    requires { F.failures folder.old < 2 ^ 64 - 1 }
    ensures end { IfOk result (λ end. EndsAt B.shape end (F.failures folder.old) (F.failures folder.new)) }
    ensures refused { IfErr result (λ refused. refused ≡ Fault.Memory) }
    ensures unchanged { AreUnchanged (F.files folder.old) (F.files folder.new) }
    ensures reported { T.becomes progress.old progress.new }
{
    // Where a file isn't opened here, there has to be room to count one more failure.
    if !progress.is_reported() || folder.failures() >= u64::MAX - 1 {
        return Ok(PAIR_COUNT);
    }
    let Survey { size, end } = read_headers::<B, F>(alloc, board, folder)?;
    progress.start_with_size(size);
    Ok(end)
}

/// Reads the header of each file that a folder has of a pair of the board, up to the first that
/// can't be opened.
///
/// # Errors
/// [`Fault::Memory`] where memory is refused for the name of a file.
fn read_headers<B: Geometry, F: Folder>(
    alloc: Global,
    board: &str,
    folder: &mut F,
) -> Result<Survey, Fault>
    requires { F.failures folder.old < 2 ^ 64 - 2 }
    ensures end { IfOk result (λ survey. EndsAt B.shape survey.end (F.failures folder.old) (F.failures folder.new)) }
    ensures refused { IfErr result (λ refused. refused ≡ Fault.Memory) }
    ensures unchanged { AreUnchanged (F.files folder.old) (F.files folder.new) }
{
    let mut so_far = FolderSize::NONE;
    for place in 0..PAIR_COUNT {
        let Some(pair) = pair_at::<B>(place) else {
            continue;
        };
        match read_header(alloc, folder, board, pair) {
            Ok(Some(Header { entries, .. })) => so_far = so_far.with(pair, entries),
            Err(StoredFault::Memory) => return Err(Fault::Memory),
            Err(StoredFault::Unopened) => {
                return Ok(Survey {
                    size: so_far.size,
                    end: place,
                });
            }
            // A file that isn't right is refused when its turn comes.
            Ok(None) | Err(StoredFault::Refused(_) | StoredFault::OtherPair) => {}
        }
    }
    Ok(Survey {
        size: so_far.size,
        end: PAIR_COUNT,
    })
}
