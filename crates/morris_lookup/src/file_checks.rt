//! The steps that check whether bytes are the file of a table, by its header and by how many bytes
//! it has.
ghost use Rattle.std.specs.Prelude.{◌≡◌, ◌<◌, ◌^◌, length, Err, IfOk, IfErr, IfSome};
ghost use Rattle.morris_pairs.specs.FileReading.{IsOfBytes};
ghost use Rattle.morris_lookup.specs.Opening.{HasHeader, check_file, check_length};

use crate::storage::Storage;
use morris_board::board::Geometry;
use morris_index::pair::Pair;
use morris_pairs::file_faults::ReadFault;
use morris_pairs::header::{HEADER, Header};
use morris_pairs::layout::Layout;
use morris_pairs::reading::DIGEST;

/// The layout and the pair that the header of bytes states, how many entries it states, and how
/// many bytes there are.
///
/// # Errors
/// `Short` where there are fewer bytes than a header has; `Magic`, `Version`, `BoardId`, `Counts`
/// and `Crowded` for the header; and `Read` where they can't be read.
pub(crate) fn read_header<B: Geometry, S: Storage>(
    storage: &S,
) -> Result<(Layout, Pair<B>, u64, u64), ReadFault>
    ensures found { IfOk result (λ found. IfSome (S.held storage.now) (HasHeader B.shape (found.0, found.1) found.2 found.3)) }
    ensures refused { IfErr result (λ fault. IfSome (S.contents storage.now) (λ bytes. (check_file B.shape bytes ≡ Err fault) × IsOfBytes fault)) }
{
    let length = storage.len()?;
    if length < HEADER as u64 {
        return Err(ReadFault::Short);
    }
    let mut bytes = [0; HEADER];
    storage.read_at(0, &mut bytes)?;
    let header = Header::from_bytes(&bytes);
    let (layout, pair) = header.kind()?;
    Ok((layout, pair, header.entries, length))
}

/// Checks how many entries a header states, and how many bytes there are, against a table of
/// `count` entries.
///
/// # Errors
/// The first of `Count`, `Short` and `Trailing` that applies.
#[tactic(auto, unfolding(crate::specs::Opening::check_length))]
pub(crate) fn check_length(stated: u64, length: u64, count: u64) -> Result<(), ReadFault>
    requires { count < 2 ^ 56 }
    ensures value { result ≡ check_length stated length count }
    ensures refused { IfErr result IsOfBytes }
{
    if stated != count {
        return Err(ReadFault::Count);
    }
    let size = HEADER as u64 + 2 * count + DIGEST as u64;
    if length < size {
        return Err(ReadFault::Short);
    }
    if size < length {
        return Err(ReadFault::Trailing);
    }
    Ok(())
}
