//! A line of a list of digests, and whether it is retained.
ghost use Rattle.std.specs.Prelude.{◌≡◌, IfOk};
ghost use Rattle.std.specs.List.{list_all};
ghost use Rattle.morris_index.specs.Pairs.{counts, is_below};
ghost use Rattle.morris_files.specs.Digests.{is_digit, is_retained, is_line_of};

use crate::names::pair_name;
use morris_index::below::{PAIR_COUNT, pair_at};
use std::alloc::{AllocError, Global};

/// How many hexadecimal digits a digest has.
const DIGITS: usize = 64;

/// Whether a line is retained where the files of all pairs below the one with these numbers of
/// stones are replaced: it is that of the file of another pair, on the board of this name.
pub(crate) fn is_retained(
    alloc: Global,
    board: &str,
    replaced: (u8, u8),
    line: &[u8],
) -> Result<bool, AllocError>
    ensures { IfOk result (λ retained. retained ≡ is_retained board.now (counts replaced.0 replaced.1) line.now) }
{
    for place in 0..PAIR_COUNT {
        let (greater, lesser) = pair_at(place);
        if is_below(replaced, greater, lesser) {
            continue;
        }
        if is_line_of(alloc, board, line, greater, lesser)? {
            return Ok(true);
        }
    }
    Ok(false)
}

/// Whether two numbers of stones are at most those of a pair.
fn is_below(pair: (u8, u8), greater: u8, lesser: u8) -> bool
    ensures { result ≡ is_below (counts pair.0 pair.1) (counts greater lesser) }
{
    greater <= pair.0 && lesser <= pair.1
}

/// Whether a line is that of the file of the pair with these numbers of stones, whatever the
/// digest.
fn is_line_of(
    alloc: Global,
    board: &str,
    line: &[u8],
    greater: u8,
    lesser: u8,
) -> Result<bool, AllocError>
    ensures { IfOk result (λ same. same ≡ is_line_of board.now line.now (counts greater lesser)) }
{
    if line.len() < DIGITS {
        return Ok(false);
    }
    if !are_digits(&line[..DIGITS]) {
        return Ok(false);
    }
    let name = pair_name(alloc, board, greater, lesser)?;
    let end = ["  ", name.as_str()].concat(alloc)?;
    Ok(&line[DIGITS..] == end.as_bytes())
}

/// Whether all bytes are digits of a digest, as this program and `sha256sum` write it.
fn are_digits(bytes: &[u8]) -> bool
    ensures { result ≡ list_all is_digit bytes.now }
{
    bytes
        .iter()
        .all(|byte| matches!(byte, b'0'..=b'9' | b'a'..=b'f'))
}
