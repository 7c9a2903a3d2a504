//! The legal moves of a position and what each leads to, by table files in memory.
ghost use Rattle.std.specs.Prelude.{◌≡◌, ◌<◌, ◌≤◌, length, take, IfOk, IfErr, Ok, Err};
ghost use Rattle.std.specs.List.{Contains};
ghost use Rattle.morris_moves.specs.Rules.{moves_of, result_of};
ghost use Rattle.morris_lookup.specs.Views.{contents};
ghost use Rattle.morris_lookup.specs.Views.{HasWordsForAll, AreExactAfter, IsExactAt};
ghost use Rattle.morris_lookup.specs.Listing.{outcome_of, outcomes_said, AreExactOutcomes, IsExactOutcome};

use crate::fault::ViewFault;
use crate::outcomes::value_for_mover;
use crate::records::{MoveRecord, move_record};
use crate::views::{View, value};
use morris_board::board::Geometry;
use morris_board::position::Position;
use morris_moves::game_move::Move;
use morris_moves::rules::{moves, play};

/// Writes the legal moves of a position to the beginning of `out`, ordered by from, then to, then
/// taken, each with the value that it leads to for the player who makes it: won in `d` plies where
/// the opponent has then lost in `d - 1`, and so on. Answers how many moves there are. At most
/// 1,944 are legal. No memory is taken.
///
/// For `files` and `words` see [`value`]. Where the files of the positions after the moves are
/// those of exact tables, the values are those of the game.
///
/// # Errors
/// [`ViewFault::Room`] where `out` has fewer places than there are legal moves. Then those of
/// [`value`] for the position after the first move for which it applies; some of `out` may have
/// changed then.
pub fn outcomes<B: Geometry>(
    files: &[View<'_>],
    words: &[u32],
    position: &Position<B>,
    out: &mut [MoveRecord],
) -> Result<usize, ViewFault>
    ensures count { IfOk result (λ count. count ≡ length (moves_of B.shape position.now)) }
    ensures room { length out.old < length (moves_of B.shape position.now) → result ≡ Err ViewFault.Room }
    ensures said { HasWordsForAll B.shape words.now (contents files.now) → length (moves_of B.shape position.now) ≤ length out.old
        → IfOk result (λ count. outcomes_said B.shape (contents files.now) position.now (moves_of B.shape position.now) ≡ Ok (take count out.new)) }
    ensures exact { HasWordsForAll B.shape words.now (contents files.now) → AreExactAfter B.shape (contents files.now) position.now
        → IfOk result (λ count. AreExactOutcomes B.shape position.now (moves_of B.shape position.now) (take count out.new)) }
    ensures refused { HasWordsForAll B.shape words.now (contents files.now) → length (moves_of B.shape position.now) ≤ length out.old
        → IfErr result (λ fault. outcomes_said B.shape (contents files.now) position.now (moves_of B.shape position.now) ≡ Err fault) }
{
    if out.len() < move_count(position) {
        return Err(ViewFault::Room);
    }
    let mut done = 0;
    for m in moves(position) {
        out[done] = outcome_of(files, words, position, m)?;
        done += 1;
    }
    Ok(done)
}

/// How many legal moves a position has.
pub fn move_count<B: Geometry>(position: &Position<B>) -> usize
    ensures { result ≡ length (moves_of B.shape position.now) }
{
    moves(position).count()
}

/// A legal move and the value that it leads to.
///
/// # Errors
/// Those of [`value`] for the position after the move.
fn outcome_of<B: Geometry>(
    files: &[View<'_>],
    words: &[u32],
    position: &Position<B>,
    m: Move,
) -> Result<MoveRecord, ViewFault>
    requires { Contains (moves_of B.shape position.now) m }
    ensures said { HasWordsForAll B.shape words.now (contents files.now) → result ≡ outcome_of B.shape (contents files.now) position.now m }
    ensures exact { HasWordsForAll B.shape words.now (contents files.now) → IsExactAt B.shape (contents files.now) (result_of position.now m) → IfOk result (IsExactOutcome B.shape position.now m) }
{
    let next = value(files, words, &play(position, m))?;
    Ok(move_record(m, value_for_mover(next)))
}
