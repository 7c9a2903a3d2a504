//! Positions and position strings.
ghost use Rattle.std.specs.Prelude.{◌≡◌, ℕ, ◌<◌, ◌≤◌, length, not, position, IfOk, Ok};
ghost use Rattle.morris_board.specs.Sets.{count_of, set_where};
ghost use Rattle.morris_board.specs.Positions.{Sides, sides, IsApart, IsPosition, check_sides, is_between, letter, text_of, read_of, is_letter, places_of};
ghost use Rattle.morris_board.specs.Symmetries.{image_sides, inverse_of};

use crate::board::Geometry;
use crate::faults::{Stones, TextFault};
use crate::points::Points;
use std::marker::{Model, PhantomData};

/// The stones on a board: those of the player to move, 2 to 9, and those of the opponent, 3 to 9,
/// on points of their own.
#[derive_where(Clone, Copy, Debug)]
pub struct Position<B: Geometry> {
    own: Points,
    other: Points,
    #[derive_where(skip)]
    board: PhantomData<B>,
}

impl<B: Geometry> Model for Position<B> {
    ghost use Rattle.morris_board.specs.Positions.{Sides, IsPosition};

    ghost Value = { Sides };

    ghost view = { λ position. record { own = position.own; other = position.other } };

    ghost invariant = { λ position. IsPosition B.shape (record { own = position.own; other = position.other }) };

    ghost inverse = { λ s. record { own = s.own; other = s.other; board = record {} } };
}

impl<B: Geometry> Position<B> {
    /// The position with these stones of the player to move and of the opponent. Both are sets of
    /// points of the board with none in common.
    ///
    /// # Errors
    /// [`Stones`] where `own` has fewer than 2 or more than 9, or `other` fewer than 3 or more than
    /// 9.
    pub fn new(own: Points, other: Points) -> Result<Position<B>, Stones>
        requires { IsApart B.shape (sides own other) }
        ensures { result ≡ check_sides (sides own other) }
    {
        if is_between(2, own.count(), 9) && is_between(3, other.count(), 9) {
            Ok(Position {
                own,
                other,
                board: PhantomData,
            })
        } else {
            Err(Stones)
        }
    }

    /// The stones of the player to move.
    pub fn own(&self) -> Points
        ensures points { result ≡ self.now.own }
        ensures lawful { IsPosition B.shape self.now }
    {
        self.own
    }

    /// The stones of the opponent.
    pub fn other(&self) -> Points
        ensures points { result ≡ self.now.other }
        ensures lawful { IsPosition B.shape self.now }
    {
        self.other
    }

    /// How many stones the player to move (2 to 9) and the opponent (3 to 9) have.
    pub fn counts(&self) -> (u8, u8)
        ensures own { result.0 ≡ count_of self.now.own }
        ensures other { result.1 ≡ count_of self.now.other }
    {
        (self.own.count(), self.other.count())
    }

    /// The position to which a symmetry of the board, below [`Geometry::SYMMETRIES`], takes this
    /// one: each stone goes to the image of its point, and the same player is to move. The image
    /// under the inverse of the symmetry undoes it, and is undone by it.
    pub fn image(&self, symmetry: u8) -> Position<B>
        requires { symmetry < B.SYMMETRIES }
        ensures image { result ≡ image_sides (B.shape.image symmetry) self.now }
        ensures lawful { IsPosition B.shape result }
        ensures undone { image_sides (B.shape.image (inverse_of symmetry)) result ≡ self.now }
        ensures redone { image_sides (B.shape.image symmetry) (image_sides (B.shape.image (inverse_of symmetry)) self.now) ≡ self.now }
    {
        Position {
            own: B::image_of(symmetry, self.own),
            other: B::image_of(symmetry, self.other),
            board: PhantomData,
        }
    }

    /// Reads a position string: for each point of the board, in order, it has `X` for a stone of
    /// the player to move, `O` for one of the opponent, `.` for a vacant point.
    ///
    /// # Errors
    /// [`TextFault::Length`] where the string hasn't one byte per point, else
    /// [`TextFault::Character`] at its first byte that is none of the three, else
    /// [`TextFault::Stones`] where a player has a number of stones that no position has.
    pub fn read(bytes: &[u8]) -> Result<Position<B>, TextFault>
        ensures answer { result ≡ read_of B.shape bytes.now }
        ensures shows { IfOk result (λ s. text_of B.shape s ≡ bytes.now) }
        ensures complete { (s : Sides) → IsPosition B.shape s → text_of B.shape s ≡ bytes.now → result ≡ Ok s }
    {
        if bytes.len() != B::POINTS as usize {
            return Err(TextFault::Length);
        }
        match first_other(bytes) {
            Some(place) => Err(TextFault::Character(place)),
            None => Ok(Position::new(places(bytes, b'X'), places(bytes, b'O'))?),
        }
    }

    /// Writes the position string, which [`Position::read`] reads back. `out` has one byte per
    /// point of the board.
    pub fn write_to(&self, out: &mut [u8])
        requires { length out.old ≡ B.POINTS }
        ensures text { out.new ≡ text_of B.shape self.now }
        ensures reads_back { read_of B.shape out.new ≡ Ok self.now }
    {
        for (point, character) in out.iter_mut().enumerate() {
            *character = letter(self.own, self.other, point as u8);
        }
    }
}

/// Whether `low <= n <= high`.
fn is_between(low: u8, n: u8, high: u8) -> bool
    ensures { result ≡ is_between low n high }
{
    low <= n && n <= high
}

/// The places of `text` that have `letter`.
#[tactic(auto, using(crate::proofs::PointsLaws::set_where_none, crate::proofs::PointsLaws::set_where_more), unfolding(crate::specs::Positions::places_of))]
fn places(text: &[u8], letter: u8) -> Points
    requires { length text.now ≤ 24 }
    ensures { result ≡ places_of letter text.now }
{
    let mut found = Points::EMPTY;
    for (place, character) in text.iter().enumerate() {
        if *character == letter {
            found = found.with(place as u8);
        }
    }
    found
}

/// The place of the first character of `text` that is none of `X`, `O` and `.`.
fn first_other(text: &[u8]) -> Option<usize>
    ensures { result ≡ position (λ c. not (is_letter c)) text.now }
{
    text.iter()
        .position(|character| !matches!(*character, b'X' | b'O' | b'.'))
}

/// The character of the position string for `point`.
#[tactic(auto, unfolding(crate::specs::Positions::letter))]
fn letter(own: Points, other: Points, point: u8) -> u8
    requires { point < 32 }
    ensures { result ≡ letter (sides own other) point }
{
    if own.has(point) {
        b'X'
    } else if other.has(point) {
        b'O'
    } else {
        b'.'
    }
}
