//! The value of a position.
ghost use Rattle.std.specs.Prelude.{◌≡◌, None, Some, Ok, OnOk, IfOk, MatchResult};
ghost use Rattle.std.specs.List.{Contains};
ghost use Rattle.morris_board.specs.Sets.{count_of};
ghost use Rattle.morris_moves.specs.declared.game_move.Move.{Move};
ghost use Rattle.morris_moves.specs.Rules.{moves_of, result_of};
ghost use Rattle.morris_pairs.specs.Codes.{IsValue};
ghost use Rattle.morris_probe.specs.Probing.{missing_table};

use morris_board::board::Geometry;
use morris_board::position::Position;
use morris_index::pair::Pair;
use morris_pairs::shelf::{Needs, Shelf};
use morris_pairs::value::Value;

/// The value of a position in the game, read from the table of its pair. A player to move with two
/// stones has lost in 0 plies: that needs no table. It takes no memory, and finds one index.
///
/// # Errors
/// [`Needs`] with the pair of the position, where the shelf has no table of it.
pub fn value<B: Geometry>(shelf: &Shelf<B>, position: &Position<B>) -> Result<Value, Needs<B>>
    ensures value { IfOk result (IsValue B.shape position.now) }
    ensures needs { MatchResult result (λ _. missing_table shelf.now position.now ≡ None)
        (λ needs. missing_table shelf.now position.now ≡ Some needs.0) }
    ensures two_stones { count_of position.now.own ≡ 2 → result ≡ Ok (Value.Lost 0) }
    // Then the values of all its results can be asked for as well.
    ensures results { OnOk result ((m : Move) → Contains (moves_of B.shape position.now) m → missing_table shelf.now (result_of position.now m) ≡ None) }
{
    // The proof learns the rules of a position where its stones are read.
    let _ = position.own();
    match Pair::of(position) {
        None => Ok(Value::Lost(0)),
        Some(pair) => match shelf.get(pair) {
            Some(table) => Ok(table.value_of(position)),
            None => Err(Needs(pair)),
        },
    }
}
