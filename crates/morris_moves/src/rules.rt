//! The rules of a move: where a stone may go, when a mill closes, what may be taken, and what comes
//! of it.
ghost use Rattle.std.specs.Prelude.{◌≡◌, ℕ, ◌<◌, ◌≤◌, ◌*◌, ◌^◌, ◌&&◌, ◌↔◌, nat_lt, length, IsTrue, IfSome};
ghost use Rattle.morris_board.specs.Sets.{has};
ghost use Rattle.std.specs.List.{AllPairs, Contains};
ghost use Rattle.morris_board.specs.Positions.{Sides};
ghost use Rattle.morris_moves.specs.declared.game_move.Move.{Move};
ghost use Rattle.morris_moves.specs.Order.{Precedes};
ghost use Rattle.morris_moves.specs.Backward.{LeadsTo, MovePrecedes};
ghost use Rattle.morris_moves.specs.Rules.{in_mill, is_vacant, move_stone, closes, goes, may_go, reach, free_stones, takable_stones, takes_rightly, left_of, is_legal, moves_of, result_of};

use crate::backward::Backs;
use crate::game_move::Move;
use crate::list::Moves;
use morris_board::board::Geometry;
use morris_board::points::Points;
use morris_board::position::Position;

/// Whether some mill that has `point` lies wholly in `stones`.
pub fn in_mill<B: Geometry>(stones: Points, point: u8) -> bool
    requires { point < B.POINTS }
    ensures { result ≡ in_mill B.shape stones point }
{
    let (first, second) = B::mills_through(point);
    first.is_subset(stones) || second.is_subset(stones)
}

/// The stones `own` once the one on `from` has gone to `to`.
#[tactic(auto, unfolding(crate::specs::Rules::move_stone))]
fn move_stone(own: Points, from: u8, to: u8) -> Points
    requires start { from < 32 }
    requires end { to < 32 }
    ensures { result ≡ move_stone own from to }
{
    own.without(from).with(to)
}

/// Whether a stone that goes from `from` to `to` closes a mill.
#[tactic(auto, unfolding(crate::specs::Rules::closes))]
pub fn closes<B: Geometry>(own: Points, from: u8, to: u8) -> bool
    requires start { from < 32 }
    requires end { to < B.POINTS }
    ensures { result ≡ closes B.shape own from to }
{
    in_mill::<B>(move_stone(own, from, to), to)
}

/// The points on which no stone stands.
pub fn vacant<B: Geometry>(position: &Position<B>) -> Points
    ensures { (p : ℕ) → has result p ≡ (nat_lt p B.POINTS && is_vacant position.now p) }
{
    Points::below(B::POINTS)
        .difference(position.own())
        .difference(position.other())
}

/// The points between which and `point` a stone of a player with this many stones goes where
/// nothing stands in its way.
pub(crate) fn steps<B: Geometry>(stones: u8, point: u8) -> Points
    requires { point < B.POINTS }
    ensures { (p : ℕ) → has result p ≡ (nat_lt p B.POINTS && goes B.shape stones point p) }
{
    if 3 < stones {
        B::neighbours(point)
    } else if stones == 3 {
        Points::below(B::POINTS)
    } else {
        Points::EMPTY
    }
}

/// Where a stone on `from` may go.
pub fn reach<B: Geometry>(position: &Position<B>, from: u8) -> Points
    requires { from < B.POINTS }
    ensures { result ≡ reach B.shape position.now from }
{
    steps::<B>(position.own().count(), from).intersection(vacant(position))
}

/// Whether a stone on `from` may go to `to`.
fn may_go<B: Geometry>(position: &Position<B>, from: u8, to: u8) -> bool
    requires start { from < B.POINTS }
    requires end { to < B.POINTS }
    ensures { result ≡ may_go B.shape position.now from to }
{
    let own = position.own();
    if own.union(position.other()).has(to) {
        return false;
    }
    steps::<B>(own.count(), from).has(to)
}

/// The stones of the opponent that stand in no mill.
pub(crate) fn free_stones<B: Geometry>(other: Points) -> Points
    requires { other < 2 ^ B.POINTS }
    ensures { result ≡ free_stones B.shape other }
{
    let mut free = other;
    for number in 0..B::MILLS {
        let mill = B::mill(number);
        if mill.is_subset(other) {
            free = free.difference(mill);
        }
    }
    free
}

/// The stones of the opponent that a move may take where it closes a mill.
#[tactic(auto, unfolding(crate::specs::Rules::takable_stones))]
pub fn takable_stones<B: Geometry>(other: Points) -> Points
    requires { other < 2 ^ B.POINTS }
    ensures { result ≡ takable_stones B.shape other }
{
    let free = free_stones::<B>(other);
    if free == Points::EMPTY { other } else { free }
}

/// Whether a move from `from` to `to` takes what it must: a stone of the opponent that may be taken
/// where it closes a mill, and none where it doesn't.
fn takes_rightly<B: Geometry>(position: &Position<B>, from: u8, to: u8, taken: Option<u8>) -> bool
    requires start { from < 32 }
    requires end { to < B.POINTS }
    ensures { result ≡ takes_rightly B.shape position.now from to taken }
{
    let closing = closes::<B>(position.own(), from, to);
    match taken {
        None => !closing,
        Some(point) if point < B::POINTS => closing
            && takable_stones::<B>(position.other()).has(point),
        Some(_) => false,
    }
}

/// Whether a move is legal: it goes from a stone of the player to move to a point that the stone
/// may go to, and takes exactly one stone that may be taken where it closes a mill, and none where
/// it doesn't. Any numbers may be asked about.
pub fn is_legal<B: Geometry>(position: &Position<B>, m: Move) -> bool
    ensures answer { result ≡ is_legal B.shape position.now m }
    ensures listed { IsTrue result ↔ Contains (moves_of B.shape position.now) m }
{
    let own = position.own();
    if m.from >= B::POINTS || !own.has(m.from) {
        return false;
    }
    if m.to >= B::POINTS || !may_go(position, m.from, m.to) {
        return false;
    }
    takes_rightly(position, m.from, m.to, m.taken)
}

/// The stones `other` once the one on the point `taken`, if any, is gone.
fn left_of(other: Points, taken: Option<u8>) -> Points
    requires { IfSome taken (λ point. point < 32) }
    ensures { result ≡ left_of other taken }
{
    match taken {
        None => other,
        Some(point) => other.without(point),
    }
}

/// The position that a legal move, as [`is_legal`] tests it, leads to. The opponent is then to
/// move.
pub fn play<B: Geometry>(position: &Position<B>, m: Move) -> Position<B>
    requires { Contains (moves_of B.shape position.now) m }
    ensures { result ≡ result_of position.now m }
{
    let own = move_stone(position.own(), m.from, m.to);
    let other = left_of(position.other(), m.taken);
    match Position::new(other, own) {
        Ok(played) => played,
        Err(_) => unreachable!(),
    }
}

/// The legal moves, each once, in order of the point that the stone leaves, then of the one it goes
/// to, then of the stone that is taken. There are at most 9 stones, 24 points to go to, and 9
/// stones to take.
pub fn moves<B: Geometry>(position: &Position<B>) -> Moves<B>
    ensures listed { result ≡ moves_of B.shape position.now }
    ensures ascending { AllPairs Precedes result }
    ensures few { length result ≤ 9 * 24 * 9 }
{
    Moves::new(*position)
}

/// The predecessors of `position`: the positions from which a quiet legal move leads to it, each
/// with that move, in order of the point that the stone left, then of the one it went to. There are
/// none where the player to move has two stones. A stone left one of at most 24 points, and at most
/// 9 stones may have left each.
pub fn backs<B: Geometry>(position: &Position<B>) -> Backs<B>
    ensures listed { (p : Sides) (m : Move) → Contains result (p, m) ↔ LeadsTo B.shape position.now p m }
    ensures ascending { AllPairs MovePrecedes result }
    ensures few { length result ≤ 24 * 9 }
{
    Backs::new(*position)
}
