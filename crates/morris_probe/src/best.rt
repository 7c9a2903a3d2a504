//! The best moves of a position.
ghost use Rattle.std.specs.Prelude.{◌≡◌, ◌↔◌, ◌<◌, ◌≤◌, ◌+◌, ◌*◌, None, Some, false, IsTrue, length, IfErr, IfOk, MatchResult};
ghost use Rattle.std.specs.List.{Contains};
ghost use Rattle.morris_moves.specs.declared.game_move.Move.{Move};
ghost use Rattle.morris_moves.specs.Rules.{moves_of, result_of};
ghost use Rattle.morris_pairs.specs.Codes.{IsValue};
ghost use Rattle.morris_probe.specs.Probing.{missing_table};
ghost use Rattle.morris_probe.specs.Best.{after_best, AreBest};
ghost use Rattle.morris_probe.specs.Refusals.{needs_in, is_write};

use crate::fault::ProbeFault;
use crate::value::value;
use morris_board::board::Geometry;
use morris_board::position::Position;
use morris_moves::game_move::Move;
use morris_moves::rules::{moves, play};
use morris_pairs::shelf::Shelf;
use morris_pairs::value::Value;
use std::alloc::{AllocError, Global};

/// The best moves of a position, ordered by from, then to, then taken: where it is won or lost in
/// `d` plies, `d` above 0, the legal moves whose result has the opposite outcome in `d - 1` plies;
/// where it is a draw, those whose result is a draw; at depth 0 none. Where there is a legal move
/// there is a best one. It finds one index for the position and one for each legal move, and asks
/// for room once, for as many moves as are legal.
///
/// # Errors
/// [`ProbeFault::Needs`] with the pair of the position, where the shelf has no table of it and the
/// player to move has more than two stones. Then [`ProbeFault::Memory`] where memory runs out.
pub fn best<B: Geometry>(
    alloc: Global,
    shelf: &Shelf<B>,
    position: &Position<B>,
) -> Result<Vec<Move>, ProbeFault<B>>
    ensures best { IfOk result (λ best. AreBest B.shape position.now best.items) }
    ensures some { IfOk result (λ best. (m : Move) → Contains (moves_of B.shape position.now) m → 0 < length best.items) }
    ensures needs { MatchResult result (λ _. missing_table shelf.now position.now ≡ None)
        (λ fault. needs_in fault ≡ missing_table shelf.now position.now) }
    ensures unwritten { IfErr result (λ fault. is_write fault ≡ false) }
{
    let found = value(shelf, position)?;
    Ok(list_best(alloc, shelf, position, found)?)
}

/// The best moves of a position whose value is at hand, as those of its results are.
pub(crate) fn list_best<B: Geometry>(
    alloc: Global,
    shelf: &Shelf<B>,
    position: &Position<B>,
    found: Value,
) -> Result<Vec<Move>, AllocError>
    requires value { IsValue B.shape position.now found }
    requires results { (m : Move) → Contains (moves_of B.shape position.now) m → missing_table shelf.now (result_of position.now m) ≡ None }
    ensures best { IfOk result (λ best. AreBest B.shape position.now best.items) }
    ensures some { IfOk result (λ best. (m : Move) → Contains (moves_of B.shape position.now) m → 0 < length best.items) }
    ensures few { IfOk result (λ best. length best.items ≤ 9 * 24 * 9) }
{
    let mut best = Vec::with_capacity(alloc, moves(position).count())?;
    for m in moves(position) {
        if is_after_best(found, value_after(shelf, position, m)) {
            best.push(m).unwrap();
        }
    }
    Ok(best)
}

/// Whether a move is best that leads from a position of the value `found` to one of the value
/// `next`, in which the opponent is to move.
fn is_after_best(found: Value, next: Value) -> bool
    ensures { IsTrue result ↔ after_best found ≡ Some next }
{
    match (found, next) {
        (Value::Draw, Value::Draw) => true,
        (Value::Won(depth), Value::Lost(left)) => is_one_less(left, depth),
        (Value::Lost(depth), Value::Won(left)) => is_one_less(left, depth),
        _ => false,
    }
}

/// Whether `left` is one less than `depth`.
fn is_one_less(left: u16, depth: u16) -> bool
    ensures { IsTrue result ↔ depth ≡ left + 1 }
{
    u32::from(depth) == u32::from(left) + 1
}

/// The value of what a legal move leads to.
fn value_after<B: Geometry>(shelf: &Shelf<B>, position: &Position<B>, m: Move) -> Value
    requires listed { Contains (moves_of B.shape position.now) m }
    requires there { missing_table shelf.now (result_of position.now m) ≡ None }
    ensures { IsValue B.shape (result_of position.now m) result }
{
    match value(shelf, &play(position, m)) {
        Ok(value) => value,
        Err(_) => unreachable!(),
    }
}
