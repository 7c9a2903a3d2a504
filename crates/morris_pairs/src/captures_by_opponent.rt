//! The captures of a position, summed up by the opponent's set in their results: the stones of the
//! player who moved. Where positions share the stones of the other player, several of their moves
//! give the same set.
ghost use Rattle.std.specs.Prelude.{◌≡◌, ℕ, ◌++◌, true, List};
ghost use Rattle.morris_board.specs.Positions.{IsPosition};
ghost use Rattle.morris_board.specs.Sets.{has, members};
ghost use Rattle.morris_moves.specs.Rules.{move_stone};
ghost use Rattle.morris_index.specs.Pairs.{is_of};
ghost use Rattle.morris_wave.specs.Exits.{exits_of};
ghost use Rattle.morris_pairs.specs.Captured.{captured_pair, IsClosing};
ghost use Rattle.morris_pairs.specs.Graphs.{IsTableOf};
ghost use Rattle.morris_pairs.specs.CaptureCaches.{IsCaptureCache, codes_by_opponent, codes_by};
ghost use Rattle.morris_pairs.specs.PairNets.{capture_codes};
ghost use Rattle.morris_pairs.specs.Rows.{AreClosing};

use crate::capture_cache::CaptureCache;
use crate::exact::Exact;
use crate::graph::{PairGraph, capture_ends};
use crate::rows::arrivals_and_closers;
use morris_board::board::Geometry;
use morris_board::points::Points;
use morris_board::position::Position;
use morris_moves::rules::takable_stones;
use morris_wave::Exits;

/// The summary of the captures of a position by a move that makes `opponent_set` the opponent's set
/// of the results: one capture for each stone that may be taken. It is cached from now on.
fn exits_to_opponent<B: Geometry>(
    table: &Exact<B>,
    position: &Position<B>,
    opponent_set: Points,
    cache: &mut CaptureCache,
) -> Exits
    requires table { IsTableOf B.shape (captured_pair position.now) table.now }
    requires lawful { IsPosition B.shape position.now }
    requires mover { (u : ℕ) × (v : ℕ) × IsClosing B.shape position.now u v × (opponent_set ≡ move_stone position.now.own u v) }
    requires cache { IsCaptureCache (codes_by_opponent B.shape) cache.old }
    ensures value { result ≡ exits_of (codes_by_opponent B.shape position.now.other opponent_set) }
    ensures cache { IsCaptureCache (codes_by_opponent B.shape) cache.new }
{
    let other = position.other();
    if let Some(results) = cache.get(other, opponent_set) {
        return results;
    }
    let many = position.own().count();
    let mut exits = Exits::NONE;
    for taken in takable_stones::<B>(other).iter() {
        let standing = table.standing(other.without(taken), many);
        exits = exits.with(table.code_at(&standing, opponent_set));
    }
    cache.put(other, opponent_set, exits);
    exits
}

/// Goes on with the summary `known`: the captures by the moves to `to` of the stones `closers`.
fn with_opponents<B: Geometry>(
    table: &Exact<B>,
    position: &Position<B>,
    to: u8,
    closers: Points,
    cache: &mut CaptureCache,
    known: Exits,
) -> Exits
    requires table { IsTableOf B.shape (captured_pair position.now) table.now }
    requires lawful { IsPosition B.shape position.now }
    requires closers { (u : ℕ) → has closers u ≡ true → IsClosing B.shape position.now u to }
    requires cache { IsCaptureCache (codes_by_opponent B.shape) cache.old }
    ensures value { (codes : List ℕ) → known ≡ exits_of codes → result ≡ exits_of (codes ++ codes_by B.shape position.now to (members closers)) }
    ensures cache { IsCaptureCache (codes_by_opponent B.shape) cache.new }
{
    let own = position.own();
    let mut exits = known;
    for from in closers.iter() {
        let opponent_set = own.without(from).with(to);
        exits = exits.merge(exits_to_opponent(table, position, opponent_set, cache));
    }
    exits
}

impl<'a, B: Geometry> PairGraph<'a, B> {
    /// The summary of what the captures of a position of the pair lead to, from the points at which
    /// a move closes a mill where they are vacant; points on which the opponent stands may be left
    /// out.
    pub(crate) fn exits_by_opponent(
        &self,
        position: &Position<B>,
        closing: Points,
        cache: &mut CaptureCache,
    ) -> Exits
        requires counts { is_of self.now position.now ≡ true }
        requires lawful { IsPosition B.shape position.now }
        requires closing { AreClosing B.shape B.POINTS position.now closing }
        requires cache { IsCaptureCache (codes_by_opponent B.shape) cache.old }
        ensures value { result ≡ exits_of (capture_codes B.shape position.now) }
        ensures cache { IsCaptureCache (codes_by_opponent B.shape) cache.new }
    {
        let ends = match capture_ends(position, closing) {
            Ok(ends) => ends,
            Err(known) => return known,
        };
        let table = self.captured_table(position);
        let mut exits = Exits::NONE;
        for to in ends.iter() {
            let (_, closers) = arrivals_and_closers::<B>(position.own(), to);
            exits = with_opponents(table, position, to, closers, cache, exits);
        }
        exits
    }
}
