//! The predecessors of many nodes of a graph by rows. The nodes of a row follow one another, and
//! what is the same for all of them is made once.
ghost use Rattle.std.specs.Prelude.{◌≡◌, ◌≢◌, ℕ, ◌+◌, ◌*◌, ◌++◌, ◌<◌, ◌≤◌, [], true, None, length, map, take, slice_index, vec_len, IfOk, OnOk, OnErr, MatchOption};
ghost use Rattle.std.specs.List.{All, sum_by};
ghost use Rattle.morris_board.specs.Sets.{has, members, count_of};
ghost use Rattle.morris_index.specs.Classes.{representative_of};
ghost use Rattle.morris_index.specs.ClassPairs.{class_half_size};
ghost use Rattle.morris_index.specs.Pairs.{IsPair, is_of};
ghost use Rattle.morris_index.specs.Standings.{IsCanonicalStanding};
ghost use Rattle.morris_moves.specs.Rules.{is_vacant, move};
ghost use Rattle.morris_wave.specs.Nets.{times};
ghost use Rattle.morris_pairs.specs.Predecessors.{predecessors_in, AddsPredecessorsIn};
ghost use Rattle.morris_pairs.specs.Orders.{Rows, count_in};
ghost use Rattle.morris_pairs.specs.PairNets.{net_in};
ghost use Rattle.morris_pairs.specs.RowPredecessors.{ArePredecessors};

use crate::row_unmoves::{RowUnmove, add_predecessors_by_unmoves, list_unmoves};
use morris_board::board::Geometry;
use morris_board::points::Points;
use morris_board::position::Position;
use morris_index::class_pair::ClassPair;
use morris_index::classes::Classes;
use morris_index::entry_rows::EntryRow;
use morris_index::standing::Standing;
use morris_moves::backward::sources;
use std::alloc::{AllocError, Global};

/// Adds the predecessors of a node of the first half, whose position this is, by the quiet moves to
/// `to` from each of `sources`, in order of the sources. They are of the same row in the second
/// half, and found by the stones of the side that moved alone.
fn add_into_row<B: Geometry>(
    classes: &ClassPair<B>,
    standing: &Standing,
    position: &Position<B>,
    to: u8,
    sources: Points,
    out: &mut Vec<u64>,
) -> Result<(), AllocError>
    requires two { classes.now.lesser < classes.now.greater }
    requires counts { is_of classes.now position.now ≡ true }
    requires to_first_half { count_of position.now.own ≡ classes.now.greater }
    requires own { representative_of B.shape position.now.own ≡ position.now.own }
    requires of { standing.now.own ≡ position.now.own }
    requires stands { IsCanonicalStanding B.shape B.POINTS classes.now classes.now.lesser standing.now }
    requires end { has position.now.other to ≡ true }
    requires sources { (p : ℕ) → has sources p ≡ true → (p < B.POINTS) × (is_vacant position.now p ≡ true) }
    ensures { OnOk result (out.new.items ≡ out.old.items ++ predecessors_in Rows B.shape B.POINTS classes.now position.now (map (λ u. move u to None) (members sources))) }
{
    // The proof learns here that the numbers of stones are those of a pair.
    let _ = classes.pair();
    let split = classes.first_half();
    let elsewhere = classes.elsewhere(standing, position, to);
    for from in sources.iter() {
        out.push(split + elsewhere.entry_on(from))?;
    }
    Ok(())
}

/// Adds the predecessors of a node of the first half, whose position this is. `standing` says where
/// the entries with its own stones are.
fn add_in_row<B: Geometry>(
    classes: &ClassPair<B>,
    standing: &Standing,
    position: &Position<B>,
    out: &mut Vec<u64>,
) -> Result<(), AllocError>
    requires two { classes.now.lesser < classes.now.greater }
    requires counts { is_of classes.now position.now ≡ true }
    requires to_first_half { count_of position.now.own ≡ classes.now.greater }
    requires own { representative_of B.shape position.now.own ≡ position.now.own }
    requires of { standing.now.own ≡ position.now.own }
    requires stands { IsCanonicalStanding B.shape B.POINTS classes.now classes.now.lesser standing.now }
    ensures { OnOk result (AddsPredecessorsIn Rows B.shape B.POINTS classes.now position.now out.old.items out.new.items) }
{
    // The proof learns here that the numbers of stones are those of a pair.
    let _ = classes.pair();
    for to in position.other().iter() {
        add_into_row(classes, standing, position, to, sources(position, to), out)?;
    }
    Ok(())
}

/// The place of a node among so many nodes from `first` on.
fn place_in(first: u64, len: usize, node: u64) -> Option<usize>
    requires { 1 ≤ len }
    ensures { MatchOption result (node ≢ first) (λ place. (place < len) × (first + place ≡ node)) }
{
    if node < first || node - first >= len as u64 {
        return None;
    }
    Some((node - first) as usize)
}

/// The entries of the first half from `index` on, up to the last one in which the player to move
/// has the same stones.
pub(crate) fn first_half_row<B: Geometry>(classes: &ClassPair<B>, index: u64) -> EntryRow<'_, B>
    requires two { classes.now.lesser < classes.now.greater }
    requires inside { index < class_half_size B.shape B.POINTS classes.now.greater classes.now.lesser }
    ensures pair { result.pair ≡ classes.now }
    ensures first { result.first ≡ index }
    ensures some { 1 ≤ result.len }
    ensures greater { count_of result.own ≡ classes.now.greater }
    ensures lawful { IsPair B.POINTS classes.now }
{
    // The proof learns here that the numbers of stones are those of a pair, that the first half is
    // a part of all entries, and what stands first in the row.
    let _ = classes.pair();
    let _ = classes.first_half();
    let entries = classes.row_from(index);
    let _ = entries.len();
    entries
}

/// Adds the predecessors of those of `nodes` that follow one another in one row of the first half,
/// from the one at `done` on. It returns where the next ones are.
fn add_first_half_predecessors<B: Geometry>(
    classes: &ClassPair<B>,
    nodes: &[u64],
    done: usize,
    out: &mut Vec<u64>,
) -> Result<usize, AllocError>
    requires two { classes.now.lesser < classes.now.greater }
    requires some { done < length nodes.now }
    requires half { slice_index nodes.now done < class_half_size B.shape B.POINTS classes.now.greater classes.now.lesser }
    requires before { ArePredecessors B.shape B.POINTS classes.now (take done nodes.now) out.old.items }
    ensures on { IfOk result (λ next. done < next) }
    ensures inside { IfOk result (λ next. next ≤ length nodes.now) }
    ensures before { IfOk result (λ next. ArePredecessors B.shape B.POINTS classes.now (take next nodes.now) out.new.items) }
{
    let first = nodes[done];
    let entries = first_half_row(classes, first);
    let many = entries.len();
    let standing = classes.standing(entries.own(), classes.pair().lesser());
    for at in done..nodes.len() {
        match place_in(first, many, nodes[at]) {
            Some(place) => add_in_row(classes, &standing, &entries.position(place), out)?,
            None => return Ok(at),
        }
    }
    Ok(nodes.len())
}

/// Adds the predecessors of those of `nodes` that follow one another in one row of the second half,
/// from the one at `done` on, by `unmoves`, a list for the un-moves of the row. It returns where
/// the next ones are.
fn add_second_half_predecessors<B: Geometry>(
    classes: &ClassPair<B>,
    sets: &Classes<B>,
    nodes: &[u64],
    done: usize,
    unmoves: &mut Vec<RowUnmove>,
    out: &mut Vec<u64>,
) -> Result<usize, AllocError>
    requires two { classes.now.lesser < classes.now.greater }
    requires sets { sets.now ≡ classes.now.greater }
    requires some { done < length nodes.now }
    requires half { class_half_size B.shape B.POINTS classes.now.greater classes.now.lesser ≤ slice_index nodes.now done }
    requires low { slice_index nodes.now done < count_in B.shape B.POINTS Rows classes.now }
    requires before { ArePredecessors B.shape B.POINTS classes.now (take done nodes.now) out.old.items }
    ensures on { IfOk result (λ next. done < next) }
    ensures inside { IfOk result (λ next. next ≤ length nodes.now) }
    ensures before { IfOk result (λ next. ArePredecessors B.shape B.POINTS classes.now (take next nodes.now) out.new.items) }
{
    // The proof learns here that the numbers of stones are those of a pair.
    let _ = classes.pair();
    let first = nodes[done];
    let entries = first_half_row(classes, first - classes.first_half());
    let many = entries.len();
    list_unmoves(classes, sets, entries.own(), unmoves)?;
    for at in done..nodes.len() {
        match place_in(first, many, nodes[at]) {
            Some(place) => add_predecessors_by_unmoves(
                classes,
                unmoves,
                &entries.position(place),
                out,
            )?,
            None => return Ok(at),
        }
    }
    Ok(nodes.len())
}

/// Adds the predecessors of those of `nodes` that follow one another in one row, from the one at
/// `done` on, by `unmoves`, a list for the un-moves of the row. It returns where the next ones are.
fn add_row_predecessors<B: Geometry>(
    classes: &ClassPair<B>,
    sets: &Classes<B>,
    nodes: &[u64],
    done: usize,
    unmoves: &mut Vec<RowUnmove>,
    out: &mut Vec<u64>,
) -> Result<usize, AllocError>
    requires two { classes.now.lesser < classes.now.greater }
    requires sets { sets.now ≡ classes.now.greater }
    requires some { done < length nodes.now }
    requires low { slice_index nodes.now done < count_in B.shape B.POINTS Rows classes.now }
    requires before { ArePredecessors B.shape B.POINTS classes.now (take done nodes.now) out.old.items }
    ensures on { IfOk result (λ next. done < next) }
    ensures inside { IfOk result (λ next. next ≤ length nodes.now) }
    ensures before { IfOk result (λ next. ArePredecessors B.shape B.POINTS classes.now (take next nodes.now) out.new.items) }
{
    if nodes[done] < classes.first_half() {
        add_first_half_predecessors(classes, nodes, done, out)
    } else {
        add_second_half_predecessors(classes, sets, nodes, done, unmoves, out)
    }
}

/// Adds what [`list_predecessors_by_rows`] lists to an empty vector. After a refusal some of the
/// predecessors may have been added.
fn add_predecessors_by_rows<B: Geometry>(
    alloc: Global,
    classes: &ClassPair<B>,
    sets: &Classes<B>,
    nodes: &[u64],
    out: &mut Vec<u64>,
) -> Result<(), AllocError>
    requires two { classes.now.lesser < classes.now.greater }
    requires sets { sets.now ≡ classes.now.greater }
    requires nodes { All (λ i. i < count_in B.shape B.POINTS Rows classes.now) nodes.now }
    requires empty { out.old.items ≡ [] }
    ensures { OnOk result (ArePredecessors B.shape B.POINTS classes.now nodes.now out.new.items) }
{
    let mut unmoves = Vec::new(alloc);
    let mut done = 0;
    while done < nodes.len() {
        done = add_row_predecessors(classes, sets, nodes, done, &mut unmoves, out)?;
    }
    Ok(())
}

/// Lists the predecessors of these nodes: the nodes from which a quiet move leads to one of them,
/// each as often as it has such a move. Nodes that follow one another in the order of their numbers
/// are quick.
///
/// The vector is emptied first. It is empty after a refusal.
pub(crate) fn list_predecessors_by_rows<B: Geometry>(
    alloc: Global,
    classes: &ClassPair<B>,
    sets: &Classes<B>,
    nodes: &[u64],
    out: &mut Vec<u64>,
) -> Result<(), AllocError>
    requires two { classes.now.lesser < classes.now.greater }
    requires sets { sets.now ≡ classes.now.greater }
    requires nodes { All (λ i. i < count_in B.shape B.POINTS Rows classes.now) nodes.now }
    ensures times { OnOk result ((j : ℕ) → j < count_in B.shape B.POINTS Rows classes.now
        → times j out.new.items ≡ sum_by (λ i. times i ((net_in B.shape Rows classes.now).quiet j)) nodes.now) }
    ensures nodes { OnOk result (All (λ j. j < count_in B.shape B.POINTS Rows classes.now) out.new.items) }
    ensures few { OnOk result (vec_len out.new ≤ 65535 * length nodes.now) }
    ensures err { OnErr result (out.new.items ≡ []) }
{
    out.clear();
    if add_predecessors_by_rows(alloc, classes, sets, nodes, out).is_err() {
        out.clear();
        return Err(AllocError);
    }
    Ok(())
}
