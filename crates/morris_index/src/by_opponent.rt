//! Positions grouped by the opponent's set, where they are numbered by classes.
ghost use Rattle.std.specs.Prelude.{◌≡◌, ℕ, ◌+◌, ◌<◌, ◌≤◌, ◌^◌, ◌&&◌, ◌++◌, nat_lt, true, OnOk};
ghost use Rattle.morris_board.specs.Sets.{has, count_of};
ghost use Rattle.morris_board.specs.Positions.{IsPosition};
ghost use Rattle.morris_board.specs.Symmetries.{image_sides};
ghost use Rattle.morris_index.specs.Unmoves.{gives_unmove};
ghost use Rattle.morris_index.specs.Classes.{representative_of};
ghost use Rattle.morris_index.specs.ClassMoves.{class_start_of};
ghost use Rattle.morris_index.specs.ClassPairs.{class_index_of, class_size_of};
ghost use Rattle.morris_index.specs.ByOpponent.{swap_sides, by_opponent, AreByOpponent, IsGroupMember, IsInTransversal};
ghost use Rattle.morris_index.specs.Moves.{in_pair};
ghost use Rattle.morris_index.specs.Pairs.{is_of};

use crate::class_pair::ClassPair;
use crate::rings::Outside;
use crate::successor_entries::SuccessorEntries;
use morris_board::board::Geometry;
use morris_board::points::Points;
use morris_board::position::Position;
use std::alloc::AllocError;
use std::marker::Model;

/// A member of a group: a position that has an entry of its own, as the image of one in which the
/// opponent stands on the group's set, the representative of a class.
#[derive(Drop)]
pub struct GroupMember<'a, B: Geometry> {
    /// The pair that the positions are of, with its classes.
    pair: &'a ClassPair<B>,
    /// The position of which it is the image.
    from: Position<B>,
    /// The symmetry of which it is the image.
    symmetry: u8,
    /// Its entry.
    entry: u64,
    /// The group's set.
    place: Outside,
    /// The first entry in which the player to move stands on it.
    start: u64,
}

impl<'a, B: Geometry> Model for GroupMember<'a, B> {
    ghost use Rattle.morris_board.specs.Symmetries.{image_sides};
    ghost use Rattle.morris_index.specs.ByOpponent.{IsGroupMember, IsGroupMemberFrom};
    ghost use Rattle.morris_index.specs.Moves.{InPair, in_pair};

    ghost Value = { InPair };

    ghost view = { λ member. in_pair member.pair.now (image_sides (B.shape.image member.symmetry) member.from) };

    ghost invariant = { λ member. IsGroupMember B.shape B.POINTS (in_pair member.pair.now (image_sides (B.shape.image member.symmetry) member.from)) member.entry
        × IsGroupMemberFrom B.shape B.POINTS member.pair.now member.from member.symmetry member.place member.start };
}

impl<'a, B: Geometry> GroupMember<'a, B> {
    /// The position of which it is the image, for the entries of the results of its quiet moves.
    pub fn from(&self) -> SuccessorEntries<'a, B>
        ensures pair { result.pair ≡ self.now.pair }
        ensures counts { is_of self.now.pair result.position ≡ true }
        ensures lawful { IsPosition B.shape result.position }
        ensures canonical_form { (s : ℕ) × IsInTransversal B.shape result.position s × (self.now.position ≡ image_sides (B.shape.image s) result.position) }
        ensures member { IsGroupMember B.shape B.POINTS self.now (class_index_of B.shape B.POINTS self.now.pair self.now.position) }
    {
        SuccessorEntries::canonical_by(self.pair, self.from, 0, self.from, self.place, self.start)
    }

    /// Its entry.
    pub fn entry(&self) -> u64
        ensures value { result ≡ class_index_of B.shape B.POINTS self.now.pair self.now.position }
        ensures below { result < class_size_of B.shape B.POINTS self.now.pair }
    {
        self.entry
    }
}

/// The position with the same stones in which the other player is to move. Both have at least three
/// stones.
fn swap_sides<B: Geometry>(pair: &ClassPair<B>, position: &Position<B>) -> Position<B>
    requires { is_of pair.now position.now ≡ true }
    ensures { result ≡ swap_sides position.now }
{
    // The proof learns here that the stones are those of a position, and the numbers those of a
    // pair.
    let _ = pair.pair();
    match Position::new(position.other(), position.own()) {
        Ok(swapped) => swapped,
        Err(_) => unreachable!(),
    }
}

/// A group: the positions with entries of their own in which the opponent stands on an image of one
/// set, that of the player to move in some positions of a pair. From each of these its members are
/// found by one look-up of the opponent's stones.
#[derive(Drop)]
pub struct OpponentGroup<'a, B: Geometry> {
    /// The pair that the positions are of, with its classes.
    pair: &'a ClassPair<B>,
    /// A position in which the player to move has the set.
    position: Position<B>,
    /// The transversal of the set.
    transversal: Points,
    /// The set.
    place: Outside,
    /// The first entry in which the player to move has the set.
    start: u64,
}

impl<'a, B: Geometry> Model for OpponentGroup<'a, B> {
    ghost use Rattle.std.specs.Prelude.{◌≡◌};
    ghost use Rattle.morris_index.specs.ByOpponent.{IsOpponentGroup};
    ghost use Rattle.morris_index.specs.Moves.{InPair, in_pair};

    ghost Value = { InPair };

    ghost view = { λ by_opponent. in_pair by_opponent.pair.now by_opponent.position };

    ghost invariant = { λ by_opponent. IsOpponentGroup B.shape B.POINTS (in_pair by_opponent.pair.now by_opponent.position) by_opponent.transversal by_opponent.start × (by_opponent.place ≡ by_opponent.position.own) };
}

impl<'a, B: Geometry> OpponentGroup<'a, B> {
    /// The group of the stones of the player to move in a position of the pair.
    pub fn of(pair: &'a ClassPair<B>, position: &Position<B>) -> OpponentGroup<'a, B>
        requires { is_of pair.now position.now ≡ true }
        ensures { result ≡ in_pair pair.now position.now }
    {
        let (start, _, _) = pair.start_of(position.own(), position.other().count());
        // The proof learns here that the numbers of stones are those of a pair.
        let _ = pair.pair();
        OpponentGroup {
            pair,
            position: *position,
            transversal: pair.transversal_of(position.own(), position.other()),
            place: Outside::of(position.own()),
            start,
        }
    }

    /// Goes on to the group of the stones of the player to move in another position of the pair,
    /// where they are others.
    pub fn follow(&mut self, position: &Position<B>)
        requires { is_of self.old.pair position.now ≡ true }
        ensures pair { self.new.pair ≡ self.old.pair }
        ensures own { self.new.position.own ≡ position.now.own }
    {
        if position.own() != self.position.own() {
            *self = OpponentGroup::of(self.pair, position);
        }
    }

    /// The first entry in which the player to move stands on the representative of the class of the
    /// opponent's stones, this representative, and the symmetries that give members: those that are
    /// both canonicalizing for `from`, the position with the other player to move, and in the
    /// transversal.
    fn member_symmetries(
        &self,
        position: &Position<B>,
        from: &Position<B>,
    ) -> (u64, Outside, Points)
        requires counts { is_of self.now.pair position.now ≡ true }
        requires same { position.now.own ≡ self.now.position.own }
        requires from { from.now ≡ swap_sides position.now }
        ensures start { result.0 ≡ class_start_of B.shape B.POINTS self.now.pair position.now.other (count_of position.now.own) }
        ensures representative { result.1 ≡ representative_of B.shape position.now.other }
        ensures few { result.0 ≤ 2 ^ 54 }
        ensures member_symmetries { (t : ℕ) → has result.2 t ≡ (nat_lt t B.SYMMETRIES && gives_unmove B.shape position.now position.now.other t) }
    {
        let own = from.own();
        let half = self.pair.half(own.count(), from.other().count());
        let (start, representative, canonicalizing) = half.canonicalize(own);
        (
            start,
            representative,
            canonicalizing.intersection(self.transversal),
        )
    }

    /// The member that a symmetry gives: the image of `from`, the position with the other player to
    /// move.
    fn member(
        &self,
        position: &Position<B>,
        from: &Position<B>,
        start: u64,
        representative: Outside,
        symmetry: u8,
    ) -> GroupMember<'a, B>
        requires counts { is_of self.now.pair position.now ≡ true }
        requires same { position.now.own ≡ self.now.position.own }
        requires own { representative_of B.shape position.now.own ≡ position.now.own }
        requires from { from.now ≡ swap_sides position.now }
        requires start { start ≡ class_start_of B.shape B.POINTS self.now.pair position.now.other (count_of position.now.own) }
        requires few { start ≤ 2 ^ 54 }
        requires representative { representative ≡ representative_of B.shape position.now.other }
        requires symmetry { symmetry < B.SYMMETRIES }
        requires gives_unmove { gives_unmove B.shape position.now position.now.other symmetry ≡ true }
        ensures { result ≡ in_pair self.now.pair (image_sides (B.shape.image symmetry) (swap_sides position.now)) }
    {
        // The proof learns the rules of a position where its stones are read.
        let _ = position.own();
        let other = B::image_of(symmetry, from.other());
        let entry = self
            .pair
            .entry_outside(start, other, other.count(), representative);
        GroupMember {
            pair: self.pair,
            from: *from,
            symmetry,
            entry,
            place: self.place,
            start: self.start,
        }
    }

    /// Adds the members that `position` gives, in which the player to move has the group's set, a
    /// representative. They are the images of the position with the other player to move, under the
    /// symmetries that are canonicalizing for this player's stones and in the transversal of the
    /// set; the inverse of such a symmetry is the canonicalizing one of the results of the member's
    /// quiet moves. Of all positions of the pair, each that has an entry of its own is given by
    /// one.
    ///
    /// # Errors
    /// [`AllocError`] where memory runs out. Then some of them may have been added.
    pub fn add(
        &self,
        position: &Position<B>,
        out: &mut Vec<GroupMember<'a, B>>,
    ) -> Result<(), AllocError>
        requires counts { is_of self.now.pair position.now ≡ true }
        requires same { position.now.own ≡ self.now.position.own }
        requires own { representative_of B.shape position.now.own ≡ position.now.own }
        ensures { OnOk result (out.new.items ≡ out.old.items ++ by_opponent B.shape self.now.pair position.now) }
    {
        let from = swap_sides(self.pair, position);
        let (start, representative, member_symmetries) = self.member_symmetries(position, &from);
        for symmetry in member_symmetries.iter() {
            out.push(self.member(position, &from, start, representative, symmetry))?;
        }
        Ok(())
    }
}

/// Lists the members that the positions of the entries from `first` up to, not including, `end`
/// give, in place of what the list had.
///
/// # Errors
/// [`AllocError`] where memory runs out.
pub fn list_by_opponent<'a, B: Geometry>(
    pair: &'a ClassPair<B>,
    first: u64,
    end: u64,
    out: &mut Vec<GroupMember<'a, B>>,
) -> Result<(), AllocError>
    requires { end ≤ class_size_of B.shape B.POINTS pair.now }
    ensures { OnOk result (AreByOpponent B.shape B.POINTS pair.now first end out.new.items) }
{
    out.clear();
    if first >= end {
        return Ok(());
    }
    // The proof learns here that the numbers of stones are those of a pair.
    let _ = pair.pair();
    let mut position = pair.position(first);
    let mut by_opponent = OpponentGroup::of(pair, &position);
    for entry in first..end {
        by_opponent.add(&position, out)?;
        if entry + 1 < end {
            position = pair.next_position(&position, entry + 1);
            by_opponent.follow(&position);
        }
    }
    Ok(())
}
