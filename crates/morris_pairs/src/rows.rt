//! The moves of one player's stones, whatever the opponent has.
ghost use Rattle.std.specs.Prelude.{◌≡◌, ℕ, ◌<◌, ◌^◌, ◌&&◌, not, nat_lt, true, false, length, filter};
ghost use Rattle.morris_board.specs.Sets.{has, count_of, is_subset};
ghost use Rattle.morris_moves.specs.Rules.{closes, goes, move_stone, moves_of};
ghost use Rattle.morris_pairs.specs.PairNets.{is_quiet};
ghost use Rattle.morris_pairs.specs.Rows.{is_closing_end, is_quiet_end, may_close, IsRow};

use morris_board::board::Geometry;
use morris_board::points::Points;
use morris_board::position::Position;
use morris_moves::rules::vacant;

/// The moves of one player's stones, for all positions in which the player has these.
#[derive(Clone, Copy)]
pub(crate) struct Row {
    /// The stones.
    pub(crate) own: Points,
    /// For each point, how many of them may come there by a quiet move, where it is vacant.
    pub(crate) arrivals: [u16; 24],
    /// All of these together.
    pub(crate) all: u16,
    /// For each point, the mask of those that close a mill by going there, where it is vacant.
    pub(crate) closers: [u32; 24],
    /// The points at which a move closes a mill, where they are vacant.
    pub(crate) closing: Points,
}

/// The stones that may come to `to`, where that is vacant.
fn comers<B: Geometry>(own: Points, to: u8) -> Points
    requires within { own < 2 ^ B.POINTS }
    requires end { to < B.POINTS }
    ensures { (u : ℕ) → has result u ≡ (has own u && goes B.shape (count_of own) u to) }
{
    let stones = own.count();
    if 3 < stones {
        own.intersection(B::neighbours(to))
    } else if stones == 3 {
        own
    } else {
        Points::EMPTY
    }
}

/// The stones that fill `mill` by going to `to`, where none of them stands: those that aren't in
/// it, where no other point of it is missing.
fn fillers(own: Points, to: u8, mill: Points) -> Points
    requires end { to < 32 }
    requires free { has own to ≡ false }
    ensures { (u : ℕ) → has result u ≡ (has own u && is_subset mill (move_stone own u to)) }
{
    if mill.is_subset(own.with(to)) {
        own.difference(mill)
    } else {
        Points::EMPTY
    }
}

/// The stones that close a mill by going to `to`, where none of them stands.
fn closers<B: Geometry>(own: Points, to: u8) -> Points
    requires end { to < B.POINTS }
    requires free { has own to ≡ false }
    ensures { (u : ℕ) → has result u ≡ (has own u && closes B.shape own u to) }
{
    let (first, second) = B::mills_through(to);
    fillers(own, to, first).union(fillers(own, to, second))
}

/// The stones that may come to `to`, where that is vacant: those whose move is quiet, and those
/// whose move closes a mill.
pub(crate) fn arrivals_and_closers<B: Geometry>(own: Points, to: u8) -> (Points, Points)
    requires within { own < 2 ^ B.POINTS }
    requires end { to < B.POINTS }
    ensures quiet { (u : ℕ) → has result.0 u ≡ (has own u && is_quiet_end B.shape own u to) }
    ensures closing { (u : ℕ) → has result.1 u ≡ (has own u && is_closing_end B.shape own u to) }
{
    if own.has(to) {
        return (Points::EMPTY, Points::EMPTY);
    }
    let comers = comers::<B>(own, to);
    let closers = closers::<B>(own, to);
    (comers.difference(closers), comers.intersection(closers))
}

/// The points at which one stone more fills a mill of which the other points are `own`. None is
/// left out at which a move of these stones closes a mill.
fn last_of_mills<B: Geometry>(own: Points) -> Points
    ensures { (u : ℕ) (v : ℕ) → has own v ≡ false → closes B.shape own u v ≡ true → has result v ≡ true }
{
    let mut last = Points::EMPTY;
    for number in 0..B::MILLS {
        let missing = B::mill(number).difference(own);
        if missing.without_first() == Points::EMPTY {
            last = last.union(missing);
        }
    }
    last
}

/// The vacant points at which a move closes a mill.
pub(crate) fn closing_at<B: Geometry>(position: &Position<B>) -> Points
    ensures { (v : ℕ) → has result v ≡ ((nat_lt v B.POINTS && may_close B.shape position.now.own v) && not (has position.now.other v)) }
{
    let own = position.own();
    let mut closing = Points::EMPTY;
    for to in vacant(position)
        .intersection(last_of_mills::<B>(own))
        .iter()
    {
        let (_, closers) = arrivals_and_closers::<B>(own, to);
        if closers != Points::EMPTY {
            closing = closing.with(to);
        }
    }
    closing
}

impl Row {
    /// The row of these stones.
    pub(crate) fn of<B: Geometry>(own: Points) -> Row
        requires { own < 2 ^ B.POINTS }
        ensures own { result.own ≡ own }
        ensures row { IsRow B.shape B.POINTS result }
    {
        let mut arrivals = [0; 24];
        let mut all = 0;
        let mut closers = [0; 24];
        let mut closing = Points::EMPTY;
        for to in 0..B::POINTS {
            let (quiet, shutting) = arrivals_and_closers::<B>(own, to);
            let count = u16::from(quiet.count());
            arrivals[to as usize] = count;
            all += count;
            closers[to as usize] = shutting.mask();
            if shutting != Points::EMPTY {
                closing = closing.with(to);
            }
        }
        Row {
            own,
            arrivals,
            all,
            closers,
            closing,
        }
    }

    /// How many of the legal moves of a position with these own stones are quiet.
    pub(crate) fn quiet_moves<B: Geometry>(&self, position: &Position<B>) -> u16
        requires own { self.now.own ≡ position.now.own }
        requires row { IsRow B.shape B.POINTS self.now }
        ensures { result ≡ length (filter is_quiet (moves_of B.shape position.now)) }
    {
        let mut gone = 0;
        for to in position.other().iter() {
            gone += self.arrivals[to as usize];
        }
        self.all - gone
    }

    /// Goes on to the row of the own stones of a position, where these are others.
    pub(crate) fn follow<B: Geometry>(&mut self, position: &Position<B>)
        requires { IsRow B.shape B.POINTS self.old }
        ensures row { IsRow B.shape B.POINTS self.new }
        ensures own { self.new.own ≡ position.now.own }
    {
        let own = position.own();
        if own != self.own {
            *self = Row::of::<B>(own);
        }
    }
}
