//! The entries of a table gone through in rounds, after each of which progress is reported.
ghost use Rattle.std.specs.Prelude.{◌≡◌, ℕ, ◌<◌, ◌≤◌, true, MatchOption};
ghost use Rattle.std.specs.Int.{div_ceil};
ghost use Rattle.morris_board.specs.Symmetries.{HasSymmetries};
ghost use Rattle.morris_pairs.specs.Agreement.{Agrees, IsFirstToDiffer};
ghost use Rattle.morris_pairs.specs.Entries.{entry_count};

use crate::agreeing::first_in;
use crate::chunks::Claim;
use crate::graph::PairGraph;
use crate::layout::Layout;
use crate::numbering::Numbering;
use crate::raw::Raw;
use morris_board::board::{Board, Geometry};
use morris_index::class_pair::ClassPair;
use morris_wave::Watch;
use std::alloc::Global;
use std::thread::Threads;

/// How many entries a round has, after which it is reported how many are done: a multiple of
/// [`CHUNK_ENTRIES`](crate::chunks::CHUNK_ENTRIES), and so many that it doesn't matter that the
/// workers wait for one another at its end.
const ROUND: u64 = 4_194_304;

/// In how many rounds the entries of a table are gone through.
fn round_count<B: Geometry>(raw: &Raw<B>) -> u64
    ensures count { result ≡ div_ceil (entry_count B.shape B.POINTS raw.now.layout raw.now.pair) 4194304 }
    // The caller's proof learns here that the board has as many points as its shape says, no more
    // than there may be, and symmetries.
    ensures points { B.shape.points ≡ B.POINTS }
    ensures few { B.shape.points ≤ 24 }
    ensures symmetries { HasSymmetries B.shape }
{
    raw.len().div_ceil(ROUND)
}

impl<'a, B: Board, R: Threads + Sync> Claim<'a, B, R> {
    /// The first entry that doesn't agree.
    fn first_of_rounds<W: Watch>(&self, watch: &mut W) -> Option<u64>
        ensures first { MatchOption result ((k : ℕ) → k < entry_count B.shape B.POINTS self.now.raw.now.layout self.now.raw.now.pair → Agrees B.shape self.now.raw.now k) (IsFirstToDiffer B.shape self.now.raw.now) }
        ensures watched { W.becomes watch.old watch.new }
    {
        let count = self.raw.len();
        for round in 0..round_count(self.raw) {
            let first = round * ROUND;
            let end = first + ROUND.min(count - first);
            let from = self.known_until(None, first, end);
            if let Some(index) = first_in(self.graph, self.raw, from, end) {
                return Some(index);
            }
            watch.entries(end);
        }
        None
    }

    /// Whether all entries of a table by these classes are known to agree. They are verified as
    /// those of the members that the entries give to their groups, which are all entries.
    fn group_agrees<W: Watch>(&self, classes: &'a ClassPair<B>, watch: &mut W) -> bool
        requires classes { classes.now ≡ self.now.raw.now.pair }
        requires layout { self.now.raw.now.layout ≡ Layout.Classes }
        ensures agree { result ≡ true → (k : ℕ) → k < entry_count B.shape B.POINTS self.now.raw.now.layout self.now.raw.now.pair → Agrees B.shape self.now.raw.now k }
        ensures watched { W.becomes watch.old watch.new }
    {
        // The proof learns here that the numbers of stones are those of a pair.
        let _ = self.raw.pair();
        let count = self.raw.len();
        for round in 0..round_count(self.raw) {
            let first = round * ROUND;
            let end = first + ROUND.min(count - first);
            if self.known_until(Some(classes), first, end) < end {
                return false;
            }
            watch.entries(end);
        }
        true
    }

    /// Whether all entries are known to agree. It isn't asked where they aren't those of classes.
    fn are_known<W: Watch>(&self, watch: &mut W) -> bool
        ensures agree { result ≡ true → (k : ℕ) → k < entry_count B.shape B.POINTS self.now.raw.now.layout self.now.raw.now.pair → Agrees B.shape self.now.raw.now k }
        ensures watched { W.becomes watch.old watch.new }
    {
        match self.raw.numbering() {
            Numbering::Full(_) => false,
            Numbering::Classes(classes) => self.group_agrees(classes, watch),
        }
    }
}

/// The first entry that doesn't agree, by so many workers. It is reported after each round how many
/// entries are done, and from the first one on again where the entries have to be gone through a
/// second time. Where memory is refused, the caller goes through all entries.
pub(crate) fn first_by<B: Board, R: Threads + Sync, W: Watch>(
    rt: &R,
    alloc: Global,
    graph: &PairGraph<B>,
    raw: &Raw<B>,
    workers: usize,
    watch: &mut W,
) -> Option<u64>
    requires pair { graph.now ≡ raw.now.pair }
    requires workers { (1 ≤ workers) × (workers ≤ 64) }
    ensures first { MatchOption result ((k : ℕ) → k < entry_count B.shape B.POINTS raw.now.layout raw.now.pair → Agrees B.shape raw.now k) (IsFirstToDiffer B.shape raw.now) }
    ensures watched { W.becomes watch.old watch.new }
{
    let claim = Claim {
        rt,
        alloc,
        workers,
        graph,
        raw,
    };
    if claim.are_known(watch) {
        None
    } else {
        claim.first_of_rounds(watch)
    }
}
