//! The un-moves of the stones of the side with more stones, listed once for all positions of a row.
ghost use Rattle.std.specs.Prelude.{◌≡◌, ◌<◌, ◌^◌, nat_eq, true, false, OnOk};
ghost use Rattle.morris_board.specs.Sets.{has, count_of};
ghost use Rattle.morris_board.specs.Symmetries.{image_of, inverse_of};
ghost use Rattle.morris_index.specs.Classes.{symmetry_of, representative_of};
ghost use Rattle.morris_index.specs.ByOpponent.{swap_sides};
ghost use Rattle.morris_index.specs.Pairs.{is_of};
ghost use Rattle.morris_pairs.specs.Predecessors.{AddsPredecessorsIn};
ghost use Rattle.morris_pairs.specs.Orders.{Rows};
ghost use Rattle.morris_pairs.specs.RowUnmoves.{gives_unmove_of, unmoves_from, unmoves_at, AddsUnmoves, AreRowUnmoves};

use morris_board::board::Geometry;
use morris_board::points::Points;
use morris_board::position::Position;
use morris_index::class_pair::ClassPair;
use morris_index::classes::Classes;
use morris_index::standing::Standing;
use morris_moves::rules::in_mill;
use std::alloc::AllocError;

/// An un-move of the stones of a row: a quiet move that led to them, and a symmetry that gives a
/// predecessor by it. Every position of the row has it in which the point that the stone left is
/// vacant.
#[derive(Clone, Copy)]
pub(crate) struct RowUnmove {
    /// The point from which the stone came.
    from: u8,
    /// The point to which it went.
    to: u8,
    /// The symmetry that brings the stones before the move to their canonical form.
    symmetry: u8,
    /// Where the nodes stand of the positions before the move, in which the side that moved has
    /// this canonical form.
    standing: Standing,
}

/// Whether a symmetry is in the transversal of `stones`: its inverse is the canonicalizing symmetry
/// of the image of `stones` under it.
fn is_in_transversal<B: Geometry>(sets: &Classes<B>, stones: Points, symmetry: u8) -> bool
    requires symmetry { symmetry < B.SYMMETRIES }
    requires stones { stones < 2 ^ B.POINTS }
    requires count { count_of stones ≡ sets.now }
    ensures { result ≡ nat_eq (symmetry_of B.shape (image_of (B.shape.image symmetry) stones)) (inverse_of symmetry) }
{
    let (_, transversal) = sets.class_of(B::image_of(symmetry, stones));
    transversal == B::inverse(symmetry)
}

/// Whether a symmetry gives an un-move of `stones`, those of the side with more stones, where
/// `mover` are the stones before the move and `least` is their canonical form: it brings `mover` to
/// this, and it is in the transversal of `stones`.
fn gives_unmove<B: Geometry>(
    sets: &Classes<B>,
    stones: Points,
    mover: Points,
    least: Points,
    symmetry: u8,
) -> bool
    requires symmetry { symmetry < B.SYMMETRIES }
    requires stones { stones < 2 ^ B.POINTS }
    requires count { count_of stones ≡ sets.now }
    requires mover { mover < 2 ^ B.POINTS }
    requires least { least ≡ representative_of B.shape mover }
    ensures { result ≡ gives_unmove_of B.shape stones mover symmetry }
{
    B::image_of(symmetry, mover) == least && is_in_transversal(sets, stones, symmetry)
}

/// Adds the un-moves of `stones` by the quiet move to `to` from `from`, one for each symmetry that
/// gives one.
fn add_unmoves_from<B: Geometry>(
    classes: &ClassPair<B>,
    sets: &Classes<B>,
    stones: Points,
    to: u8,
    from: u8,
    unmoves: &mut Vec<RowUnmove>,
) -> Result<(), AllocError>
    requires sets { sets.now ≡ classes.now.greater }
    requires stones { stones < 2 ^ B.POINTS }
    requires count { count_of stones ≡ classes.now.greater }
    requires end { has stones to ≡ true }
    requires start { from < B.POINTS }
    requires vacant { has stones from ≡ false }
    ensures { OnOk result (AddsUnmoves B.shape B.POINTS classes.now stones classes.now.lesser (unmoves_from B.shape stones to from) unmoves.old.items unmoves.new.items) }
{
    let lesser = classes.pair().lesser();
    let mover = stones.without(to).with(from);
    let (_, canonicalizing) = sets.class_of(mover);
    let least = B::image_of(canonicalizing, mover);
    for symmetry in 0..B::SYMMETRIES {
        if gives_unmove(sets, stones, mover, least, symmetry) {
            let standing = classes.standing(B::image_of(symmetry, mover), lesser);
            unmoves.push(RowUnmove {
                from,
                to,
                symmetry,
                standing,
            })?;
        }
    }
    Ok(())
}

/// Adds the un-moves of `stones` by the quiet moves to `to`. The stones are more than three: they
/// don't jump.
fn add_unmoves_to<B: Geometry>(
    classes: &ClassPair<B>,
    sets: &Classes<B>,
    stones: Points,
    to: u8,
    unmoves: &mut Vec<RowUnmove>,
) -> Result<(), AllocError>
    requires two { classes.now.lesser < classes.now.greater }
    requires sets { sets.now ≡ classes.now.greater }
    requires stones { stones < 2 ^ B.POINTS }
    requires count { count_of stones ≡ classes.now.greater }
    requires end { has stones to ≡ true }
    ensures { OnOk result (AddsUnmoves B.shape B.POINTS classes.now stones classes.now.lesser (unmoves_at B.shape stones to) unmoves.old.items unmoves.new.items) }
{
    // The proof learns here that the numbers of stones are those of a pair.
    let _ = classes.pair();
    if in_mill::<B>(stones, to) {
        return Ok(());
    }
    let sources = B::neighbours(to).difference(stones);
    for from in sources.iter() {
        add_unmoves_from(classes, sets, stones, to, from, unmoves)?;
    }
    Ok(())
}

/// Lists the un-moves of `stones`: each quiet move that led to them, once for each symmetry that
/// gives an un-move by it. The vector is emptied first.
pub(crate) fn list_unmoves<B: Geometry>(
    classes: &ClassPair<B>,
    sets: &Classes<B>,
    stones: Points,
    unmoves: &mut Vec<RowUnmove>,
) -> Result<(), AllocError>
    requires two { classes.now.lesser < classes.now.greater }
    requires sets { sets.now ≡ classes.now.greater }
    requires stones { stones < 2 ^ B.POINTS }
    requires count { count_of stones ≡ classes.now.greater }
    ensures { OnOk result (AreRowUnmoves B.shape B.POINTS classes.now stones classes.now.lesser unmoves.new.items) }
{
    unmoves.clear();
    for to in stones.iter() {
        add_unmoves_to(classes, sets, stones, to, unmoves)?;
    }
    Ok(())
}

/// Adds the predecessors of a node of the second half, by the un-moves of the stones of the side
/// with more stones. The position is that of the node with its sides swapped: in it this side is to
/// move.
pub(crate) fn add_predecessors_by_unmoves<B: Geometry>(
    classes: &ClassPair<B>,
    unmoves: &[RowUnmove],
    position: &Position<B>,
    out: &mut Vec<u64>,
) -> Result<(), AllocError>
    requires two { classes.now.lesser < classes.now.greater }
    requires counts { is_of classes.now position.now ≡ true }
    requires to_first_half { count_of position.now.own ≡ classes.now.greater }
    requires own { representative_of B.shape position.now.own ≡ position.now.own }
    requires unmoves { AreRowUnmoves B.shape B.POINTS classes.now position.now.own classes.now.lesser unmoves.now }
    ensures { OnOk result (AddsPredecessorsIn Rows B.shape B.POINTS classes.now (swap_sides position.now) out.old.items out.new.items) }
{
    // The proof learns here that the numbers of stones are those of a pair.
    let _ = classes.pair();
    let waiting = position.other();
    for row_unmove in unmoves {
        if !waiting.has(row_unmove.from) {
            let image = B::image_of(row_unmove.symmetry, waiting);
            let node = classes.entry_at(&row_unmove.standing, image);
            out.push(node)?;
        }
    }
    Ok(())
}
