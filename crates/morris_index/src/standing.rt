//! Where the entries stand of the positions in which the player to move has given stones.
ghost use Rattle.std.specs.Prelude.{◌≡◌, ◌<◌, ◌^◌, true};
ghost use Rattle.morris_board.specs.Sets.{count_of};
ghost use Rattle.morris_board.specs.Positions.{sides, IsPosition};
ghost use Rattle.morris_board.specs.Symmetries.{image_of};
ghost use Rattle.morris_index.specs.Pairs.{size_of, index_of};
ghost use Rattle.morris_index.specs.ClassPairs.{class_size_of, class_index_of};
ghost use Rattle.morris_index.specs.Standings.{are_of, IsStanding, IsCanonicalStanding};

use crate::binomials::binomial;
use crate::class_pair::ClassPair;
use crate::pair::Pair;
use crate::ranks::{rank, rank_outside};
use crate::rings::Outside;
use morris_board::board::Geometry;
use morris_board::points::Points;

/// Where the entries stand of the positions in which the player to move has given stones and the
/// opponent a given number of stones. It is of one pair and of one of its numberings.
#[derive(Clone, Copy)]
pub struct Standing {
    /// The stones of the player to move.
    pub(crate) own: Points,
    /// The first entry of these positions.
    pub(crate) start: u64,
    /// The canonicalizing symmetry of these positions.
    symmetry: u8,
    /// The images of the stones of the player to move under it.
    place: Points,
    /// How many of the points 0 to 7 these leave free.
    second: u8,
    /// How many of the points 0 to 15.
    third: u8,
}

/// The image of a set under the canonicalizing symmetry of a position. Mostly the player to move
/// stands on a representative, and this is the identity.
fn canonical_image<B: Geometry>(symmetry: u8, set: Points) -> Points
    requires symmetry { symmetry < B.SYMMETRIES }
    requires within { set < 2 ^ B.POINTS }
    ensures { result ≡ image_of (B.shape.image symmetry) set }
{
    if symmetry == 0 {
        return set;
    }
    B::image_of(symmetry, set)
}

impl<B: Geometry> Pair<B> {
    /// Where the indices stand of the positions in which the player to move has the stones `own`
    /// and the opponent `other` stones.
    pub fn standing(&self, own: Points, other: u8) -> Standing
        requires within { own < 2 ^ B.POINTS }
        requires counts { are_of self.now (count_of own) other ≡ true }
        ensures own { result.own ≡ own }
        ensures stands { IsStanding B.POINTS self.now other result }
    {
        let count = own.count();
        let start = self.start_of(count);
        let place = Outside::of(own);
        Standing {
            own,
            start: start + rank(own) * binomial(B::POINTS - count, other),
            symmetry: 0,
            place: own,
            second: place.second,
            third: place.third,
        }
    }

    /// The index of the position with these own stones in which the opponent has the stones
    /// `other`, below [`Pair::size`]. They are as many as the standing was asked for.
    pub fn index_at(&self, standing: &Standing, other: Points) -> u64
        requires stands { IsStanding B.POINTS self.now (count_of other) standing.now }
        requires lawful { IsPosition B.shape (sides standing.now.own other) }
        ensures value { result ≡ index_of B.POINTS self.now (sides standing.now.own other) }
        ensures below { result < size_of B.POINTS self.now }
    {
        standing.start + rank_outside(other, standing.place)
    }
}

impl<B: Geometry> ClassPair<B> {
    /// Where the entries stand of the positions in which the player to move has the stones `own`
    /// and the opponent `other` stones. Their class is looked up once for all of these positions.
    pub fn standing(&self, own: Points, other: u8) -> Standing
        requires within { own < 2 ^ B.POINTS }
        requires counts { are_of self.now (count_of own) other ≡ true }
        ensures own { result.own ≡ own }
        ensures stands { IsCanonicalStanding B.shape B.POINTS self.now other result }
    {
        let (start, place, symmetry) = self.start_of(own, other);
        Standing {
            own,
            start,
            symmetry,
            place: place.points,
            second: place.second,
            third: place.third,
        }
    }

    /// The entry of the position with these own stones in which the opponent has the stones
    /// `other`, below [`ClassPair::size`]. They are as many as the standing was asked for.
    pub fn entry_at(&self, standing: &Standing, other: Points) -> u64
        requires stands { IsCanonicalStanding B.shape B.POINTS self.now (count_of other) standing.now }
        requires lawful { IsPosition B.shape (sides standing.now.own other) }
        ensures value { result ≡ class_index_of B.shape B.POINTS self.now (sides standing.now.own other) }
        ensures below { result < class_size_of B.shape B.POINTS self.now }
    {
        let image = canonical_image::<B>(standing.symmetry, other);
        let place = Outside {
            points: standing.place,
            second: standing.second,
            third: standing.third,
        };
        self.entry_outside(standing.start, image, image.count(), place)
    }
}
