//! The calls, for any board.
ghost use Rattle.std.specs.Prelude.{◌≡◌};
ghost use Rattle.morris_board.specs.Positions.{sides};
ghost use Rattle.morris_lookup.specs.Checking.{header_said};
ghost use Rattle.morris_lookup.specs.Views.{contents};
ghost use Rattle.morris_c.specs.Calls.{LooksUp, ListsMoves, Prepares, WritesHeader};

use crate::statuses::{DONE, ROOM, mask_status, read_status, view_status};
use morris_board::board::Geometry;
use morris_lookup::check::{HeaderRecord, check};
use morris_lookup::listing::outcomes;
use morris_lookup::masks::position_of;
use morris_lookup::prepared::prepare;
use morris_lookup::records::{MoveRecord, ValueRecord, value_record};
use morris_lookup::views::{View, value};

/// Prepares the words that files by classes need.
pub fn prepare_words<B: Geometry>(words: &mut [u32]) -> i32
    ensures { Prepares B.shape result words.old words.new }
{
    match prepare::<B>(words) {
        Some(_) => DONE,
        None => ROOM,
    }
}

/// Writes what the header of a table file says.
pub fn check_header<B: Geometry>(bytes: &[u8], out: &mut HeaderRecord) -> i32
    ensures { WritesHeader (header_said B.shape bytes.now) result out.old out.new }
{
    match check::<B>(bytes) {
        Ok(header) => {
            *out = header;
            DONE
        }
        Err(refusal) => read_status(refusal),
    }
}

/// Writes the value of a position.
pub fn look_up<B: Geometry>(
    files: &[View<'_>],
    words: &[u32],
    own: u32,
    other: u32,
    out: &mut ValueRecord,
) -> i32
    ensures { LooksUp B.shape words.now (contents files.now) (sides own other) result out.old out.new }
{
    let position = match position_of::<B>(own, other) {
        Ok(position) => position,
        Err(fault) => return mask_status(fault),
    };
    match value(files, words, &position) {
        Ok(value) => {
            *out = value_record(value);
            DONE
        }
        Err(fault) => view_status(fault),
    }
}

/// Writes the legal moves of a position, and how many there are.
pub fn list_moves<B: Geometry>(
    files: &[View<'_>],
    words: &[u32],
    own: u32,
    other: u32,
    out: &mut [MoveRecord],
    count: &mut usize,
) -> i32
    ensures { ListsMoves B.shape words.now (contents files.now) (sides own other) result out.old out.new count.old count.new }
{
    let position = match position_of::<B>(own, other) {
        Ok(position) => position,
        Err(fault) => return mask_status(fault),
    };
    match outcomes(files, words, &position, out) {
        Ok(done) => {
            *count = done;
            DONE
        }
        Err(fault) => view_status(fault),
    }
}
