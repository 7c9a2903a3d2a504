//! The calls that programs in C make: `embed/morris.h` says what each of them is for. They store
//! nothing from call to call, take no memory, and test all that they are handed.
//!
//! The functions here choose the board by its number:
//! - `calls`: what they do with table files, for any board
//! - `plays`: what they do without
//! - `statuses`: the number that each answers
#![tactic(auto)]

pub mod calls;
pub mod plays;
pub mod statuses;

ghost use Rattle.std.specs.Prelude.{◌≡◌, ◌≢◌, ◌<◌, ◌≤◌, ◌-◌, true, false, pos, length, slice_index, IsTrue};
ghost use Rattle.morris_board.specs.Boards.{nine, grid};
ghost use Rattle.morris_board.specs.Positions.{sides};
ghost use Rattle.morris_lookup.specs.Checking.{header_said};
ghost use Rattle.morris_lookup.specs.Digests.{has_digest};
ghost use Rattle.morris_lookup.specs.Views.{contents};
ghost use Rattle.morris_lookup.specs.Prepared.{prepared_count};
ghost use Rattle.morris_c.specs.Calls.{LooksUp, ListsMoves, Prepares, WritesHeader};
ghost use Rattle.morris_c.specs.Plays.{ListsLegalMoves, PlaysMove, move_named};

use calls::{check_header, list_moves, look_up, prepare_words};
use morris_board::grid::Grid;
use morris_board::nine::Nine;
use morris_lookup::check::HeaderRecord;
use morris_lookup::digest::has_digest;
use morris_lookup::prepared::prepared_count;
use morris_lookup::records::{MoveRecord, ValueRecord};
use morris_lookup::views::View;
use plays::{list_legal_moves, play_move};
use statuses::{DIGEST, DONE, NO_BOARD, SHORT};

/// The numbers of the boards.
const NINE: u32 = 0;

const GRID: u32 = 1;

/// How many words the next call fills for a board, 0 where there is no such board.
#[unsafe(no_mangle)]
pub extern "C" fn morris_prepare_size(board: u32) -> usize
    ensures usual { board ≡ 0 → result ≡ prepared_count nine }
    ensures small { board ≡ 1 → result ≡ prepared_count grid }
    ensures none { board ≢ 0 → board ≢ 1 → result ≡ 0 }
{
    match board {
        NINE => prepared_count::<Nine>(),
        GRID => prepared_count::<Grid>(),
        _ => 0,
    }
}

/// Prepares the words that files of a board by classes need.
#[unsafe(no_mangle)]
pub extern "C" fn morris_prepare(board: u32, words: &mut [u32]) -> i32
    ensures usual { board ≡ 0 → Prepares nine result words.old words.new }
    ensures small { board ≡ 1 → Prepares grid result words.old words.new }
    ensures none { board ≢ 0 → board ≢ 1 → (result ≡ pos 1) × (words.new ≡ words.old) }
{
    match board {
        NINE => prepare_words::<Nine>(words),
        GRID => prepare_words::<Grid>(words),
        _ => NO_BOARD,
    }
}

/// Whether bytes are a table file, and what their header says.
#[unsafe(no_mangle)]
pub extern "C" fn morris_check(file: &View<'_>, out: &mut HeaderRecord) -> i32
    ensures small { slice_index file.now.bytes.now 5 ≡ 1 → WritesHeader (header_said grid file.now.bytes.now) result out.old out.new }
    ensures usual { slice_index file.now.bytes.now 5 ≢ 1 → WritesHeader (header_said nine file.now.bytes.now) result out.old out.new }
{
    let bytes = file.bytes;
    if bytes.len() > 5 && bytes[5] == 1 {
        check_header::<Grid>(bytes, out)
    } else {
        check_header::<Nine>(bytes, out)
    }
}

/// Whether the digest at the end of a file is that of its bytes.
#[unsafe(no_mangle)]
pub extern "C" fn morris_digest(file: &View<'_>) -> i32
    ensures short { length file.now.bytes.now < 32 → result ≡ pos 8 }
    ensures right { 32 ≤ length file.now.bytes.now → has_digest file.now.bytes.now ≡ true → result ≡ pos 0 }
    ensures wrong { 32 ≤ length file.now.bytes.now → has_digest file.now.bytes.now ≡ false → result ≡ pos 16 }
{
    let bytes = file.bytes;
    if bytes.len() < 32 {
        return SHORT;
    }
    if has_digest(bytes) { DONE } else { DIGEST }
}

/// The value of a position.
#[unsafe(no_mangle)]
pub extern "C" fn morris_lookup(
    board: u32,
    files: &[View<'_>],
    words: &[u32],
    own: u32,
    other: u32,
    out: &mut ValueRecord,
) -> i32
    ensures usual { board ≡ 0 → LooksUp nine words.now (contents files.now) (sides own other) result out.old out.new }
    ensures small { board ≡ 1 → LooksUp grid words.now (contents files.now) (sides own other) result out.old out.new }
    ensures none { board ≢ 0 → board ≢ 1 → (result ≡ pos 1) × (out.new ≡ out.old) }
{
    match board {
        NINE => look_up::<Nine>(files, words, own, other, out),
        GRID => look_up::<Grid>(files, words, own, other, out),
        _ => NO_BOARD,
    }
}

/// The legal moves of a position, and what each leads to.
#[unsafe(no_mangle)]
pub extern "C" fn morris_moves(
    board: u32,
    files: &[View<'_>],
    words: &[u32],
    own: u32,
    other: u32,
    out: &mut [MoveRecord],
    count: &mut usize,
) -> i32
    ensures usual { board ≡ 0 → ListsMoves nine words.now (contents files.now) (sides own other) result out.old out.new count.old count.new }
    ensures small { board ≡ 1 → ListsMoves grid words.now (contents files.now) (sides own other) result out.old out.new count.old count.new }
    ensures none { board ≢ 0 → board ≢ 1 → (result ≡ pos 1) × (out.new ≡ out.old) × (count.new ≡ count.old) }
{
    match board {
        NINE => list_moves::<Nine>(files, words, own, other, out, count),
        GRID => list_moves::<Grid>(files, words, own, other, out, count),
        _ => NO_BOARD,
    }
}

/// The legal moves of a position, without tables.
#[unsafe(no_mangle)]
pub extern "C" fn morris_legal_moves(
    board: u32,
    own: u32,
    other: u32,
    out: &mut [MoveRecord],
    count: &mut usize,
) -> i32
    ensures usual { board ≡ 0 → ListsLegalMoves nine (sides own other) result out.old out.new count.old count.new }
    ensures small { board ≡ 1 → ListsLegalMoves grid (sides own other) result out.old out.new count.old count.new }
    ensures none { board ≢ 0 → board ≢ 1 → (result ≡ pos 1) × (out.new ≡ out.old) × (count.new ≡ count.old) }
{
    match board {
        NINE => list_legal_moves::<Nine>(own, other, out, count),
        GRID => list_legal_moves::<Grid>(own, other, out, count),
        _ => NO_BOARD,
    }
}

/// The position after a legal move, without tables.
#[unsafe(no_mangle)]
pub extern "C" fn morris_play(
    board: u32,
    own: u32,
    other: u32,
    played: &MoveRecord,
    next_own: &mut u32,
    next_other: &mut u32,
) -> i32
    ensures usual { board ≡ 0 → PlaysMove nine (sides own other) (move_named played.now) result (sides next_own.old next_other.old) (sides next_own.new next_other.new) }
    ensures small { board ≡ 1 → PlaysMove grid (sides own other) (move_named played.now) result (sides next_own.old next_other.old) (sides next_own.new next_other.new) }
    ensures none { board ≢ 0 → board ≢ 1 → (result ≡ pos 1) × (next_own.new ≡ next_own.old) × (next_other.new ≡ next_other.old) }
{
    match board {
        NINE => play_move::<Nine>(own, other, played, next_own, next_other),
        GRID => play_move::<Grid>(own, other, played, next_own, next_other),
        _ => NO_BOARD,
    }
}
