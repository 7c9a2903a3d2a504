//! The search a few plies ahead.
ghost use Rattle.std.specs.Prelude.{◌≡◌, ℕ, ◌≤◌};
ghost use Rattle.morris_board.specs.Positions.{Sides, IsPosition};
ghost use Rattle.morris_moves.specs.Images.{IsImage, HaveOneValue};
ghost use Rattle.morris_moves.specs.Values.{is_lost, is_won, AnswersWithin, IsLostIn, IsWonIn, IsOpen};

use crate::rules::{moves, play, reach};
use crate::within::Within;
use morris_board::board::Geometry;
use morris_board::points::Points;
use morris_board::position::Position;

/// The value of a position where its depth is at most `plies`, and otherwise that it is open.
/// `plies` is at most 6. It looks forward over the legal moves, one ply more at a time.
///
/// A symmetry of the board changes no value, so the answer is also that of each position of which
/// this one is an image.
pub fn within<B: Geometry>(position: &Position<B>, plies: u8) -> Within
    requires { plies ≤ 6 }
    ensures answer { AnswersWithin B.shape position.now plies result }
    ensures lost { (d : ℕ) → d ≤ plies → IsLostIn B.shape position.now d → result ≡ Within.Lost d }
    ensures won { (d : ℕ) → d ≤ plies → IsWonIn B.shape position.now d → result ≡ Within.Won d }
    ensures unknown { ((k : ℕ) → k ≤ plies → IsOpen B.shape position.now k) → result ≡ Within.Unknown }
    ensures one_value { (s : Sides) → IsPosition B.shape s → IsImage B.shape s position.now → HaveOneValue B.shape s position.now }
    ensures images { (s : Sides) → IsPosition B.shape s → IsImage B.shape s position.now → AnswersWithin B.shape s plies result }
{
    for depth in 0..=plies {
        // A loss has an even depth and a win an odd one, so each depth needs one test alone.
        if depth % 2 == 0 {
            if is_lost(position, depth) {
                return Within::Lost(depth);
            }
        } else if is_won(position, depth) {
            return Within::Won(depth);
        }
    }
    Within::Unknown
}

/// Whether the player to move has no legal move, and so has lost at once. No move is made for it: a
/// stone that may go somewhere has a legal move, since what a move must take is always there.
fn is_blocked<B: Geometry>(position: &Position<B>) -> bool
    ensures { result ≡ is_lost 0 B.shape position.now }
{
    for from in position.own().iter() {
        if reach(position, from) != Points::EMPTY {
            return false;
        }
    }
    true
}

/// Whether the player to move has lost within `plies`.
#[cycle(look_ahead)]
fn is_lost<B: Geometry>(position: &Position<B>, plies: u8) -> bool
    ensures { result ≡ is_lost plies B.shape position.now }
{
    if plies == 0 {
        return is_blocked(position);
    }
    for m in moves(position) {
        if !is_won(&play(position, m), plies - 1) {
            return false;
        }
    }
    true
}

/// Whether the player to move has won within `plies`.
#[cycle(look_ahead)]
fn is_won<B: Geometry>(position: &Position<B>, plies: u8) -> bool
    ensures { result ≡ is_won plies B.shape position.now }
{
    if plies == 0 {
        return false;
    }
    for m in moves(position) {
        if is_lost(&play(position, m), plies - 1) {
            return true;
        }
    }
    false
}
