//! What each legal move leads to.
ghost use Rattle.std.specs.Prelude.{◌≡◌, ◌<◌, ◌≤◌, map, IfOk, IfErr};
ghost use Rattle.std.specs.List.{Contains};
ghost use Rattle.morris_moves.specs.Rules.{moves_of, result_of};
ghost use Rattle.morris_lookup.specs.FileSets.{IsValueRefusal};
ghost use Rattle.morris_lookup.specs.Lookups.{depth_of};
ghost use Rattle.morris_lookup.specs.Outcomes.{best_among, same_value, value_for_mover, IsOutcome, IsOutcomeRefusal};

use crate::fault::LookFault;
use crate::storage::Storage;
use crate::tables::Tables;
use morris_board::board::Geometry;
use morris_board::position::Position;
use morris_moves::game_move::Move;
use morris_moves::rules::{moves, play};
use morris_pairs::value::Value;
use std::alloc::{AllocError, Global};

/// A legal move and what it leads to.
#[derive(Clone, Copy, Debug, PartialEq, Eq)]
pub struct Outcome {
    /// The move.
    pub step: Move,
    /// The value that it leads to, for the player who makes it: won in `d` plies where the opponent
    /// has then lost in `d - 1`, and so on. This move is counted.
    pub value: Value,
}

/// The legal moves of a position, ordered by from, then to, then taken, each with the value that it
/// leads to for the player who makes it. Two bytes are read for each move. Where the file of the
/// position after it is that of an exact table, the value is the game's.
///
/// # Errors
/// [`LookFault::Memory`] where there is no room for as many outcomes as there are legal moves;
/// then, at the first move for which it applies: [`LookFault::Needs`] with the pair of the position
/// after it, where no file of it is open; [`LookFault::Read`] where the file can't be read.
pub fn outcomes<B: Geometry, S: Storage>(
    alloc: Global,
    tables: &Tables<B, S>,
    position: &Position<B>,
) -> Result<Vec<Outcome>, LookFault<B>>
    ensures listed { IfOk result (λ outcomes. map (λ outcome. outcome.step) outcomes.items ≡ moves_of B.shape position.now) }
    ensures reported { IfOk result (λ outcomes. (outcome : Outcome) → Contains outcomes.items outcome → IsOutcome B.shape tables.now position.now outcome) }
    ensures refused { IfErr result (IsOutcomeRefusal B.shape tables.now position.now) }
{
    let mut outcomes = Vec::with_capacity(alloc, moves(position).count())?;
    for m in moves(position) {
        let outcome = outcome_of(tables, position, m)?;
        outcomes.push(outcome).unwrap();
    }
    Ok(outcomes)
}

/// What a legal move leads to.
///
/// # Errors
/// [`LookFault::Needs`] and [`LookFault::Read`], for the position after the move.
fn outcome_of<B: Geometry, S: Storage>(
    tables: &Tables<B, S>,
    position: &Position<B>,
    m: Move,
) -> Result<Outcome, LookFault<B>>
    requires { Contains (moves_of B.shape position.now) m }
    ensures step { IfOk result (λ outcome. outcome.step ≡ m) }
    ensures reported { IfOk result (IsOutcome B.shape tables.now position.now) }
    ensures refused { IfErr result (IsValueRefusal B.shape tables.now (result_of position.now m)) }
{
    let next = tables.value(&play(position, m))?;
    Ok(Outcome {
        step: m,
        value: value_for_mover(next),
    })
}

/// What a position's value is for the player who has just moved to it.
pub fn value_for_mover(value: Value) -> Value
    requires { depth_of value ≤ 65534 }
    ensures { result ≡ value_for_mover value }
{
    match value {
        Value::Draw => Value::Draw,
        Value::Won(depth) => Value::Lost(depth + 1),
        Value::Lost(depth) => Value::Won(depth + 1),
    }
}

/// Whether two values are the same.
pub fn is_same(one: Value, other: Value) -> bool
    ensures { result ≡ same_value one other }
{
    match (one, other) {
        (Value::Draw, Value::Draw) => true,
        (Value::Won(depth), Value::Won(other)) => depth == other,
        (Value::Lost(depth), Value::Lost(other)) => depth == other,
        _ => false,
    }
}

/// Of the moves with what they lead to, those that lead to this value.
///
/// # Errors
/// [`AllocError`] where memory runs out.
pub fn best_of(alloc: Global, value: Value, outcomes: &[Outcome]) -> Result<Vec<Move>, AllocError>
    ensures { IfOk result (λ best. best.items ≡ best_among value outcomes.now) }
{
    outcomes
        .iter()
        .filter(|outcome| is_same(outcome.value, value))
        .map(|outcome| outcome.step)
        .collect(alloc)
}
