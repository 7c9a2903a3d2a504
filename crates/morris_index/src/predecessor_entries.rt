//! The entries of the predecessors of a position, where positions are numbered by classes.
ghost use Rattle.std.specs.Prelude.{◌≡◌, ◌<◌, ◌||◌, ◌++◌, not, true, OnOk};
ghost use Rattle.morris_board.specs.Sets.{has};
ghost use Rattle.morris_index.specs.Pairs.{is_of};
ghost use Rattle.morris_index.specs.Moves.{in_pair};
ghost use Rattle.morris_index.specs.Unmoves.{entry_predecessors, AddsEntries};

use crate::class_halves::Half;
use crate::class_pair::ClassPair;
use morris_board::board::Geometry;
use morris_board::points::Points;
use morris_board::position::Position;
use std::alloc::AllocError;
use std::marker::Model;

/// A position, with the tables by which the entries of its predecessors by a quiet un-move are
/// found by one look-up of the stones of the player who made the move.
#[derive(Drop)]
pub struct PredecessorEntries<'a, B: Geometry> {
    /// The pair that the position is one of, with its classes.
    pair: &'a ClassPair<B>,
    /// The position.
    position: Position<B>,
    /// How many stones the player to move has.
    count: u8,
    /// The entries with the numbers of stones of its predecessors.
    before: Half<'a, B>,
    /// The transversal of the stones of the player to move.
    transversal: Points,
}

impl<'a, B: Geometry> Model for PredecessorEntries<'a, B> {
    ghost use Rattle.morris_index.specs.Moves.{InPair, in_pair};
    ghost use Rattle.std.specs.Prelude.{◌≡◌};
    ghost use Rattle.morris_board.specs.Sets.{count_of};
    ghost use Rattle.morris_index.specs.Unmoves.{HasTransversal};
    ghost use Rattle.morris_index.specs.Halves.{half_of};

    ghost Value = { InPair };

    ghost view = { λ entries. in_pair entries.pair.now entries.position };

    ghost invariant = { λ entries. HasTransversal B.shape (in_pair entries.pair.now entries.position) entries.transversal × (entries.count ≡ count_of entries.position.own)
        × (entries.before ≡ half_of entries.pair.now (count_of entries.position.other) (count_of entries.position.own)) };
}

impl<'a, B: Geometry> PredecessorEntries<'a, B> {
    /// A position of the pair, with the tables for its predecessors.
    pub fn of(pair: &'a ClassPair<B>, position: &Position<B>) -> PredecessorEntries<'a, B>
        requires { is_of pair.now position.now ≡ true }
        ensures { result ≡ in_pair pair.now position.now }
    {
        let transversal = pair.transversal_of(position.own(), position.other());
        let count = position.own().count();
        PredecessorEntries {
            pair,
            position: *position,
            count,
            before: pair.half(position.other().count(), count),
            transversal,
        }
    }

    /// Adds the entries of the predecessors by the un-move from `to` back to `from`. These are the
    /// entries from which a quiet move leads to the entry of this position and comes down to the
    /// move from `from` to `to`: the canonicalizing symmetry of the result takes it to this
    /// position, and the points of the move to `from` and `to`. There is an entry for each such
    /// move, mostly one. A stone of the opponent stands on `to`, and `from` is vacant.
    ///
    /// # Errors
    /// [`AllocError`] where memory runs out. Then some of the entries may have been added.
    pub fn add(&self, from: u8, to: u8, out: &mut Vec<u64>) -> Result<(), AllocError>
        requires start { from < B.POINTS }
        requires vacant { not (has self.now.position.own from || has self.now.position.other from) ≡ true }
        requires end { has self.now.position.other to ≡ true }
        ensures added { OnOk result (AddsEntries B.shape B.POINTS self.now.pair self.now.position from to out.old.items out.new.items) }
        // In which order: that of the symmetries.
        ensures in_order { OnOk result (out.new.items ≡ out.old.items ++ entry_predecessors B.shape B.POINTS self.now.pair self.now.position from to) }
    {
        let mover = self.position.other().without(to).with(from);
        let (start, representative, canonicalizing) = self.before.canonicalize(mover);
        let member_symmetries = canonicalizing.intersection(self.transversal);
        for symmetry in member_symmetries.iter() {
            let image = B::image_of(symmetry, self.position.own());
            out.push(
                self.pair
                    .entry_outside(start, image, self.count, representative),
            )?;
        }
        Ok(())
    }
}
