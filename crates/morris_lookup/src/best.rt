//! The best moves of a position, and the line of best play.
ghost use Rattle.std.specs.Prelude.{◌≡◌, ◌<◌, length, IfOk, IfErr, IfSome, IfNone};
ghost use Rattle.std.specs.List.{Contains};
ghost use Rattle.morris_moves.specs.declared.game_move.Move.{Move};
ghost use Rattle.morris_moves.specs.Rules.{moves_of};
ghost use Rattle.morris_probe.specs.Best.{AreBest};
ghost use Rattle.morris_lookup.specs.FileSets.{AreExactAfter, IsExactAt};
ghost use Rattle.morris_lookup.specs.Lines.{IsBestStep, IsPlyLess};
ghost use Rattle.morris_lookup.specs.Outcomes.{AreSaidBest, IsBestRefusal};

use crate::fault::LookFault;
use crate::outcomes::{best_of, outcomes};
use crate::storage::Storage;
use crate::tables::Tables;
use morris_board::board::Geometry;
use morris_board::position::Position;
use morris_moves::game_move::Move;
use morris_moves::rules::play;
use std::alloc::Global;

/// The best moves of a position, ordered by from, then to, then taken: those that lead to the
/// position's own value, as the files state both. If the files of the position and of those after
/// its legal moves are those of exact tables, they are exactly the best moves of the game, and
/// there is one wherever there is a legal move. Two bytes are read for the position and two for
/// each legal move.
///
/// # Errors
/// Those of [`Tables::value`] for the position; then those of [`outcomes`]; then
/// [`LookFault::Memory`] where there is no room for the moves.
pub fn best<B: Geometry, S: Storage>(
    alloc: Global,
    tables: &Tables<B, S>,
    position: &Position<B>,
) -> Result<Vec<Move>, LookFault<B>>
    ensures said { IfOk result (λ best. AreSaidBest B.shape tables.now position.now best.items) }
    ensures best { IsExactAt B.shape tables.now position.now → AreExactAfter B.shape tables.now position.now → IfOk result (λ best. AreBest B.shape position.now best.items) }
    ensures some { IsExactAt B.shape tables.now position.now → AreExactAfter B.shape tables.now position.now → IfOk result (λ best. (m : Move) → Contains (moves_of B.shape position.now) m → 0 < length best.items) }
    ensures refused { IfErr result (IsBestRefusal B.shape tables.now position.now) }
{
    let found = tables.value(position)?;
    let outcomes = outcomes(alloc, tables, position)?;
    let best = best_of(alloc, found, outcomes.as_slice())?;
    Ok(best)
}

/// The next ply of best play: the first best move, and the position after it. The line of best play
/// is this again and again. If the files of the position and of those after its legal moves are
/// those of exact tables, a position that is won or lost in `d` plies is followed by one that is
/// lost or won in `d - 1`; and `None` is only where there is no legal move, so the line ends at
/// depth 0.
///
/// # Errors
/// Those of [`best`].
pub fn next<B: Geometry, S: Storage>(
    alloc: Global,
    tables: &Tables<B, S>,
    position: &Position<B>,
) -> Result<Option<(Move, Position<B>)>, LookFault<B>>
    ensures best { IsExactAt B.shape tables.now position.now → AreExactAfter B.shape tables.now position.now → IfOk result (λ next. IfSome next (IsBestStep B.shape position.now)) }
    ensures falls { IsExactAt B.shape tables.now position.now → AreExactAfter B.shape tables.now position.now → IfOk result (λ next. IfSome next (λ step. IsPlyLess B.shape position.now step.1)) }
    ensures end { IsExactAt B.shape tables.now position.now → AreExactAfter B.shape tables.now position.now → IfOk result (λ next. IfNone next ((m : Move) → Contains (moves_of B.shape position.now) m → ⊥)) }
    ensures refused { IfErr result (IsBestRefusal B.shape tables.now position.now) }
{
    let best = best(alloc, tables, position)?;
    match best.first() {
        None => Ok(None),
        Some(m) => Ok(Some((*m, play(position, *m)))),
    }
}
