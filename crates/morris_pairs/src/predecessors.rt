//! The predecessors of an entry: those from which a quiet move leads to it.
ghost use Rattle.std.specs.Prelude.{◌≡◌, ℕ, ◌<◌, ◌≤◌, [], true, OnOk, OnErr, vec_len};
ghost use Rattle.std.specs.List.{All, sum_by};
ghost use Rattle.morris_index.specs.Pairs.{IsPair, is_of};
ghost use Rattle.morris_wave.specs.Nets.{times};
ghost use Rattle.morris_pairs.specs.Entries.{entry_count, entry_index, has_own_entry};
ghost use Rattle.morris_pairs.specs.Numberings.{layout_of, pair_of, layout_before, position_after};
ghost use Rattle.morris_pairs.specs.PairNets.{pair_net};
ghost use Rattle.morris_pairs.specs.Predecessors.{AddsPredecessors};

use crate::numbering::{Numbering, Predecessors};
use morris_board::board::Geometry;
use morris_board::position::Position;
use morris_index::predecessor_entries::PredecessorEntries;
use morris_index::predecessors::PredecessorIndices;
use morris_moves::backward::sources;
use std::alloc::AllocError;

/// Adds the predecessors of the entry of `position`, the position of `before`: see
/// [`list_predecessors`]. After a refusal some of them may have been added.
fn add_all_predecessors<B: Geometry>(
    before: &Predecessors<'_, B>,
    position: &Position<B>,
    out: &mut Vec<u64>,
) -> Result<(), AllocError>
    requires position { (position_after before.now).position ≡ position.now }
    requires pair { IsPair B.POINTS (position_after before.now).pair }
    requires counts { is_of (position_after before.now).pair position.now ≡ true }
    requires own { has_own_entry B.shape (layout_before before.now) position.now ≡ true }
    ensures { OnOk result (AddsPredecessors (layout_before before.now) B.shape B.POINTS (position_after before.now).pair position.now out.old.items out.new.items) }
{
    for to in position.other().iter() {
        before.add(to, sources(position, to), out)?;
    }
    Ok(())
}

/// Adds what [`list_predecessors`] lists. After a refusal some of the predecessors may have been
/// added.
fn add_predecessors<B: Geometry>(
    numbering: &Numbering<B>,
    position: &Position<B>,
    out: &mut Vec<u64>,
) -> Result<(), AllocError>
    requires counts { is_of (pair_of numbering.now) position.now ≡ true }
    requires own { has_own_entry B.shape (layout_of numbering.now) position.now ≡ true }
    ensures { OnOk result (AddsPredecessors (layout_of numbering.now) B.shape B.POINTS (pair_of numbering.now) position.now out.old.items out.new.items) }
{
    // The proof learns here that the numbers of stones are those of a pair.
    let _ = numbering.pair();
    match numbering {
        Numbering::Full(pair) => {
            let indices = PredecessorIndices::of(pair, position);
            add_all_predecessors(&Predecessors::Full(&indices), position, out)
        }
        Numbering::Classes(classes) => {
            let entries = PredecessorEntries::of(classes, position);
            add_all_predecessors(&Predecessors::Classes(&entries), position, out)
        }
    }
}

/// Lists the predecessors of the own entry of `position`: the entries from which a quiet move leads
/// to it, each as often as it has such a move.
///
/// Where entries are those of classes, these moves lead to any position in the orbit of the entry.
/// None but `position` is looked at: the symmetry that brings such a position to `position` takes
/// the move along with it, and so each of these moves is a quiet move to `position`, brought there
/// by that symmetry's inverse.
///
/// The vector is emptied first. It is empty after a refusal.
pub(crate) fn list_predecessors<B: Geometry>(
    numbering: &Numbering<B>,
    position: &Position<B>,
    out: &mut Vec<u64>,
) -> Result<(), AllocError>
    requires counts { is_of (pair_of numbering.now) position.now ≡ true }
    requires own { has_own_entry B.shape (layout_of numbering.now) position.now ≡ true }
    ensures times { OnOk result ((j : ℕ) → j < entry_count B.shape B.POINTS (layout_of numbering.now) (pair_of numbering.now)
        → times j out.new.items ≡ times (entry_index B.shape B.POINTS (layout_of numbering.now) (pair_of numbering.now) position.now)
        ((pair_net B.shape (layout_of numbering.now) (pair_of numbering.now)).quiet j)) }
    ensures nodes { OnOk result (All (λ j. j < entry_count B.shape B.POINTS (layout_of numbering.now) (pair_of numbering.now)) out.new.items) }
    ensures few { OnOk result (vec_len out.new ≤ 65535) }
    ensures err { OnErr result (out.new.items ≡ []) }
{
    out.clear();
    if let Err(refusal) = add_predecessors(numbering, position, out) {
        out.clear();
        return Err(refusal);
    }
    Ok(())
}

/// Lists the predecessors of these entries: the entries from which a quiet move leads to one of
/// them, each as often as it has such a move.
///
/// The vector is emptied first. It is empty after a refusal.
pub(crate) fn list_predecessors_of_all<B: Geometry>(
    numbering: &Numbering<B>,
    entries: &[u64],
    out: &mut Vec<u64>,
) -> Result<(), AllocError>
    requires { All (λ i. i < entry_count B.shape B.POINTS (layout_of numbering.now) (pair_of numbering.now)) entries.now }
    ensures times { OnOk result ((j : ℕ) → j < entry_count B.shape B.POINTS (layout_of numbering.now) (pair_of numbering.now)
        → times j out.new.items ≡ sum_by (λ i. times i ((pair_net B.shape (layout_of numbering.now) (pair_of numbering.now)).quiet j)) entries.now) }
    ensures nodes { OnOk result (All (λ j. j < entry_count B.shape B.POINTS (layout_of numbering.now) (pair_of numbering.now)) out.new.items) }
    ensures err { OnErr result (out.new.items ≡ []) }
{
    out.clear();
    for entry in entries {
        let position = numbering.position(*entry);
        if add_predecessors(numbering, &position, out).is_err() {
            out.clear();
            return Err(AllocError);
        }
    }
    Ok(())
}
