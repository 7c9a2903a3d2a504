//! Which entries of a table agree with the entries that their moves lead to.
ghost use Rattle.std.specs.Prelude.{◌≡◌, ℕ, ◌<◌, ◌≤◌, ◌↔◌, ◌==◌, true, None, IfSome, IsTrue, MatchOption};
ghost use Rattle.std.specs.List.{Contains};
ghost use Rattle.morris_board.specs.Sets.{has};
ghost use Rattle.morris_board.specs.Positions.{IsPosition};
ghost use Rattle.morris_moves.specs.Rules.{move, moves_from, moves_of, result_of};
ghost use Rattle.morris_index.specs.Pairs.{is_of};
ghost use Rattle.morris_wave.specs.Exits.{exits_of};
ghost use Rattle.morris_index.specs.Moves.{in_pair};
ghost use Rattle.morris_pairs.specs.Entries.{entry_count, entry_index, has_own_entry};
ghost use Rattle.morris_pairs.specs.Numberings.{layout_after, position_before};
ghost use Rattle.morris_pairs.specs.PairNets.{capture_codes};
ghost use Rattle.morris_pairs.specs.Rows.{AreClosing};
ghost use Rattle.morris_pairs.specs.Scores.{best_of, code_of_score};
ghost use Rattle.morris_pairs.specs.Agreement.{code_from, result_codes, quiet_codes, Agrees, IsFirstIn};

use crate::graph::PairGraph;
use crate::numbering::{Numbering, Successors};
use crate::raw::Raw;
use crate::rows::Row;
use crate::scores::{code_of_score, score, score_of};
use morris_board::board::Geometry;
use morris_board::points::Points;
use morris_board::position::Position;
use morris_moves::rules::{closes, reach};
use morris_wave::Exits;

/// The entry of the position that a quiet move leads to.
fn entry_after<B: Geometry>(
    raw: &Raw<B>,
    successors: &Successors<'_, B>,
    position: &Position<B>,
    from: u8,
    to: u8,
) -> u64
    requires layout { layout_after successors.now ≡ raw.now.layout }
    requires position { position_before successors.now ≡ in_pair raw.now.pair position.now }
    requires counts { is_of raw.now.pair position.now ≡ true }
    requires listed { Contains (moves_of B.shape position.now) (move from to None) }
    ensures entry { result ≡ entry_index B.shape B.POINTS raw.now.layout raw.now.pair (result_of position.now (move from to None)) }
    ensures inside { result < entry_count B.shape B.POINTS raw.now.layout raw.now.pair }
{
    // The proof learns here that the stones are those of a position, and the table's those of a
    // pair.
    let _ = position.own();
    let _ = raw.pair();
    successors.entry(from, to)
}

/// The best of the score `known` and the scores of the quiet moves of the stone on `from`, by the
/// codes that the table states. At the vacant points of `closing` some move closes a mill, and at
/// no others.
fn best_from<B: Geometry>(
    raw: &Raw<B>,
    successors: &Successors<'_, B>,
    position: &Position<B>,
    closing: Points,
    from: u8,
    known: u32,
) -> u32
    requires counts { is_of raw.now.pair position.now ≡ true }
    requires layout { layout_after successors.now ≡ raw.now.layout }
    requires position { position_before successors.now ≡ in_pair raw.now.pair position.now }
    requires start { has position.now.own from ≡ true }
    requires inside { from < B.POINTS }
    requires closing { AreClosing B.shape B.POINTS position.now closing }
    ensures { result ≡ best_of known (quiet_codes B.shape raw.now position.now (moves_from B.shape position.now from)) }
{
    let own = position.own();
    let mut best = known;
    for to in reach(position, from).iter() {
        if !closing.has(to) || !closes::<B>(own, from, to) {
            let after = entry_after(raw, successors, position, from, to);
            best = best.max(score(raw.code(after)));
        }
    }
    best
}

/// The best score of a position's results, from the summary of its captures and the codes that the
/// table states for its quiet moves.
fn best_after<B: Geometry>(
    raw: &Raw<B>,
    successors: &Successors<'_, B>,
    position: &Position<B>,
    closing: Points,
    captures: Exits,
) -> u32
    requires counts { is_of raw.now.pair position.now ≡ true }
    requires layout { layout_after successors.now ≡ raw.now.layout }
    requires position { position_before successors.now ≡ in_pair raw.now.pair position.now }
    requires closing { AreClosing B.shape B.POINTS position.now closing }
    requires captures { captures ≡ exits_of (capture_codes B.shape position.now) }
    ensures { code_of_score result ≡ code_from (result_codes B.shape raw.now position.now) }
{
    // The proof learns here that codes have 16 bits.
    let _ = raw.pair();
    let mut best = score_of(captures);
    for from in position.own().iter() {
        best = best_from(raw, successors, position, closing, from, best);
    }
    best
}

/// The best score of a position that wins at once by a capture, and `None` for others. The other
/// results are left out, since none can do better.
fn best_at_once<B: Geometry>(raw: &Raw<B>, position: &Position<B>, captures: Exits) -> Option<u32>
    requires { captures ≡ exits_of (capture_codes B.shape position.now) }
    ensures { IfSome result (λ best. code_of_score best ≡ code_from (result_codes B.shape raw.now position.now)) }
{
    match captures.least_lost {
        Some(0) => Some(score_of(captures)),
        _ => None,
    }
}

/// Whether `code` is the one that the rules give a position from the codes of its results. The
/// entries of these are found by `successors`.
pub(crate) fn is_code_after<B: Geometry>(
    raw: &Raw<B>,
    code: u16,
    successors: &Successors<'_, B>,
    position: &Position<B>,
    closing: Points,
    captures: Exits,
) -> bool
    requires counts { is_of raw.now.pair position.now ≡ true }
    requires layout { layout_after successors.now ≡ raw.now.layout }
    requires position { position_before successors.now ≡ in_pair raw.now.pair position.now }
    requires closing { AreClosing B.shape B.POINTS position.now closing }
    requires captures { captures ≡ exits_of (capture_codes B.shape position.now) }
    ensures { result ≡ (code == code_from (result_codes B.shape raw.now position.now)) }
{
    let best = match best_at_once(raw, position, captures) {
        Some(best) => best,
        None => best_after(raw, successors, position, closing, captures),
    };
    u32::from(code) == code_of_score(best)
}

/// Whether the entry `index` of the table, which is `position`'s own, agrees.
pub(crate) fn agrees<B: Geometry>(
    raw: &Raw<B>,
    index: u64,
    position: &Position<B>,
    closing: Points,
    captures: Exits,
) -> bool
    requires inside { index < entry_count B.shape B.POINTS raw.now.layout raw.now.pair }
    requires counts { is_of raw.now.pair position.now ≡ true }
    requires lawful { IsPosition B.shape position.now }
    requires own { has_own_entry B.shape raw.now.layout position.now ≡ true }
    requires at { entry_index B.shape B.POINTS raw.now.layout raw.now.pair position.now ≡ index }
    requires closing { AreClosing B.shape B.POINTS position.now closing }
    requires captures { captures ≡ exits_of (capture_codes B.shape position.now) }
    ensures { IsTrue result ↔ Agrees B.shape raw.now index }
{
    let _ = raw.pair();
    let best = match best_at_once(raw, position, captures) {
        Some(best) => best,
        None => {
            let successors = Successors::of(raw.numbering(), position);
            best_after(raw, &successors, position, closing, captures)
        }
    };
    u32::from(raw.code(index)) == code_of_score(best)
}

/// The first entry of those from `first` up to, not including, `end` that doesn't agree.
pub(crate) fn first_in<B: Geometry>(
    graph: &PairGraph<B>,
    raw: &Raw<B>,
    first: u64,
    end: u64,
) -> Option<u64>
    requires pair { graph.now ≡ raw.now.pair }
    requires inside { end ≤ entry_count B.shape B.POINTS raw.now.layout raw.now.pair }
    ensures { MatchOption result ((k : ℕ) → first ≤ k → k < end → Agrees B.shape raw.now k) (IsFirstIn B.shape raw.now first end) }
{
    if first >= end {
        return None;
    }
    let numbering = raw.numbering();
    let mut position = numbering.position(first);
    let mut row = Row::of::<B>(position.own());
    for index in first..end {
        let captures = graph.exits_by_row(&row, &position);
        if !agrees(raw, index, &position, row.closing, captures) {
            return Some(index);
        }
        if index + 1 < end {
            position = numbering.next_position(&position, index + 1);
            row.follow(&position);
        }
    }
    None
}
