//! The names of the files of tables.
ghost use Rattle.std.specs.Prelude.{◌≡◌, IfOk, string_bytes};
ghost use Rattle.morris_index.specs.Pairs.{counts};
ghost use Rattle.morris_files.specs.Names.{digests_name_of, name_of};

use itoa::Buffer;
use morris_board::board::Geometry;
use morris_index::pair::Pair;
use std::alloc::{AllocError, Global};

/// The name of the file of a pair's table on the board of this name, as `nine-4-3.nmmt`.
///
/// # Errors
/// [`AllocError`] where memory is refused.
pub fn file_name<B: Geometry>(
    alloc: Global,
    board: &str,
    pair: Pair<B>,
) -> Result<String, AllocError>
    ensures { IfOk result (λ name. string_bytes name ≡ name_of board.now pair) }
{
    pair_name(alloc, board, pair.greater(), pair.lesser())
}

/// The name of the file of the table of the pair with these numbers of stones.
pub(crate) fn pair_name(
    alloc: Global,
    board: &str,
    greater: u8,
    lesser: u8,
) -> Result<String, AllocError>
    ensures { IfOk result (λ name. string_bytes name ≡ name_of board.now (counts greater lesser)) }
{
    let (mut first, mut second) = (Buffer::new(), Buffer::new());
    let greater = first.format(greater);
    let lesser = second.format(lesser);
    [board, "-", greater, "-", lesser, ".nmmt"].concat(alloc)
}

/// The name of the file of the digests of the files of tables on the board of this name, as
/// `nine.sha256`.
///
/// # Errors
/// [`AllocError`] where memory is refused.
pub fn digests_name(alloc: Global, board: &str) -> Result<String, AllocError>
    ensures { IfOk result (λ name. string_bytes name ≡ digests_name_of board.now) }
{
    [board, ".sha256"].concat(alloc)
}
