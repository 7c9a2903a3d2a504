//! The entries of the positions after a position, where they are numbered by classes.
ghost use Rattle.std.specs.Prelude.{◌≡◌, ◌<◌, ◌||◌, not, true};
ghost use Rattle.morris_board.specs.Sets.{has};
ghost use Rattle.morris_index.specs.Pairs.{is_of};
ghost use Rattle.morris_index.specs.Moves.{in_pair, move_sides};
ghost use Rattle.morris_index.specs.ClassMoves.{IsCanonicalOn};
ghost use Rattle.morris_index.specs.ClassPairs.{class_index_of};

use crate::class_pair::ClassPair;
use crate::rings::Outside;
use morris_board::board::Geometry;
use morris_board::position::Position;
use std::marker::Model;

/// What is kept of a position, so that the entry of each position after a quiet move from it is
/// found in constant time. In all of these the opponent is to move and stands where it stood, so
/// the same symmetry leads them.
#[derive(Drop)]
pub struct SuccessorEntries<'a, B: Geometry> {
    /// The pair that the position is one of, with its classes.
    pair: &'a ClassPair<B>,
    /// The position.
    position: Position<B>,
    /// How many stones the player to move has.
    count: u8,
    /// The symmetry that leads the positions after it.
    symmetry: u8,
    /// The image of the position under this symmetry.
    canonical_form: Position<B>,
    /// The images of the stones that the opponent has here.
    place: Outside,
    /// The first entry in which the player to move stands on these.
    start: u64,
}

impl<'a, B: Geometry> Model for SuccessorEntries<'a, B> {
    ghost use Rattle.std.specs.Prelude.{◌≡◌};
    ghost use Rattle.morris_board.specs.Sets.{count_of};
    ghost use Rattle.morris_index.specs.Moves.{InPair, in_pair};
    ghost use Rattle.morris_index.specs.ClassMoves.{IsCanonicalOn};

    ghost Value = { InPair };

    ghost view = { λ entries. in_pair entries.pair.now entries.position };

    ghost invariant = { λ entries. IsCanonicalOn B.shape B.POINTS (in_pair entries.pair.now entries.position) entries.symmetry entries.canonical_form entries.start × (entries.count ≡ count_of entries.position.own) × (entries.place ≡ entries.canonical_form.other) };
}

impl<'a, B: Geometry> SuccessorEntries<'a, B> {
    /// What is to be kept of a position of the pair.
    pub fn of(pair: &'a ClassPair<B>, position: &Position<B>) -> SuccessorEntries<'a, B>
        requires { is_of pair.now position.now ≡ true }
        ensures { result ≡ in_pair pair.now position.now }
    {
        let count = position.own().count();
        let (start, place, symmetry) = pair.start_of(position.other(), count);
        // The proof learns here that the numbers of stones are those of a pair.
        let _ = pair.pair();
        let canonical_form = position.image(symmetry);
        SuccessorEntries {
            pair,
            position: *position,
            count,
            symmetry,
            canonical_form,
            place,
            start,
        }
    }

    /// The same of a position whose image under the symmetry of the opponent's stones is known,
    /// with what is kept of the stones that the opponent has there, and the first entry in which
    /// the player to move has these.
    pub(crate) fn canonical_by(
        pair: &'a ClassPair<B>,
        position: Position<B>,
        symmetry: u8,
        canonical_form: Position<B>,
        place: Outside,
        start: u64,
    ) -> SuccessorEntries<'a, B>
        requires canonical_form { IsCanonicalOn B.shape B.POINTS (in_pair pair.now position) symmetry canonical_form start }
        requires place { place ≡ canonical_form.other }
        ensures { result ≡ in_pair pair.now position }
    {
        SuccessorEntries {
            pair,
            position,
            count: position.own().count(),
            symmetry,
            canonical_form,
            place,
            start,
        }
    }

    /// The position.
    pub fn position(&self) -> Position<B>
        ensures { result ≡ self.now.position }
    {
        self.position
    }

    /// The entry of the position after a quiet move from `from` to `to`: a stone of the player to
    /// move stands on `from`, and `to` is vacant.
    pub fn entry(&self, from: u8, to: u8) -> u64
        requires start { has self.now.position.own from ≡ true }
        requires end { to < B.POINTS }
        requires vacant { not (has self.now.position.own to || has self.now.position.other to) ≡ true }
        ensures value { result ≡ class_index_of B.shape B.POINTS self.now.pair (move_sides self.now.position from to) }
    {
        let canonical_from = B::image(self.symmetry, from);
        let canonical_to = B::image(self.symmetry, to);
        let moved = self
            .canonical_form
            .own()
            .without(canonical_from)
            .with(canonical_to);
        self.pair
            .entry_outside(self.start, moved, self.count, self.place)
    }
}
