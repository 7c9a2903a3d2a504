//! The calls that need no tables, for any board.
ghost use Rattle.std.specs.Prelude.{◌≡◌, ◌<◌, ◌≤◌, length, take, map, IfSome, MatchOption};
ghost use Rattle.morris_board.specs.Positions.{sides};
ghost use Rattle.morris_moves.specs.Rules.{moves_of};
ghost use Rattle.morris_c.specs.Plays.{ListsLegalMoves, PlaysMove, bare_record, move_named, taken_by};

use crate::statuses::{DONE, ILLEGAL, ROOM, mask_status};
use morris_board::board::Geometry;
use morris_board::position::Position;
use morris_lookup::listing::move_count;
use morris_lookup::masks::position_of;
use morris_lookup::records::{MoveRecord, NONE, move_record};
use morris_moves::game_move::Move;
use morris_moves::rules::{is_legal, moves, play};
use morris_pairs::value::Value;

/// Writes the legal moves of a position, and how many there are.
pub fn list_legal_moves<B: Geometry>(
    own: u32,
    other: u32,
    out: &mut [MoveRecord],
    count: &mut usize,
) -> i32
    ensures { ListsLegalMoves B.shape (sides own other) result out.old out.new count.old count.new }
{
    let position = match position_of::<B>(own, other) {
        Ok(position) => position,
        Err(fault) => return mask_status(fault),
    };
    match write_moves(&position, out) {
        Some(done) => {
            *count = done;
            DONE
        }
        None => ROOM,
    }
}

/// Writes the legal moves of a position to the beginning of `out`, where there is room for them,
/// and answers how many there are.
fn write_moves<B: Geometry>(position: &Position<B>, out: &mut [MoveRecord]) -> Option<usize>
    ensures count { IfSome result (λ count. count ≡ length (moves_of B.shape position.now)) }
    ensures listed { IfSome result (λ count. take count out.new ≡ map bare_record (moves_of B.shape position.now)) }
    ensures room { MatchOption result ((length out.old < length (moves_of B.shape position.now)) × (out.new ≡ out.old))
        (λ count. length (moves_of B.shape position.now) ≤ length out.old) }
{
    if out.len() < move_count(position) {
        return None;
    }
    let mut done = 0;
    for m in moves(position) {
        out[done] = move_record(m, Value::Draw);
        done += 1;
    }
    Some(done)
}

/// Writes the position after a legal move, the player to move first.
pub fn play_move<B: Geometry>(
    own: u32,
    other: u32,
    played: &MoveRecord,
    next_own: &mut u32,
    next_other: &mut u32,
) -> i32
    ensures { PlaysMove B.shape (sides own other) (move_named played.now) result (sides next_own.old next_other.old) (sides next_own.new next_other.new) }
{
    let position = match position_of::<B>(own, other) {
        Ok(position) => position,
        Err(fault) => return mask_status(fault),
    };
    let m = move_named(played);
    if !is_legal(&position, m) {
        return ILLEGAL;
    }
    let next = play(&position, m);
    *next_own = next.own().mask();
    *next_other = next.other().mask();
    DONE
}

/// The move that a record names.
fn move_named(played: &MoveRecord) -> Move
    ensures { result ≡ move_named played.now }
{
    Move {
        from: played.from,
        to: played.to,
        taken: taken_by(played.taken),
    }
}

/// The point of the stone that is taken, where the number isn't [`NONE`].
#[tactic(auto, unfolding(crate::specs::Plays::taken_by))]
fn taken_by(number: u8) -> Option<u8>
    ensures { result ≡ taken_by number }
{
    if number == NONE { None } else { Some(number) }
}
