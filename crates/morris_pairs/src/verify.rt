//! Tables that are verified before they are believed.
ghost use Rattle.std.specs.Prelude.{◌≡◌, ◌<◌, ◌≤◌, ◌↔◌, ℕ, None, IsTrue, is_ok, IfOk, IfErr, IfSome, MatchOption};
ghost use Rattle.morris_pairs.specs.Entries.{entry_count};
ghost use Rattle.morris_pairs.specs.Tables.{IsTable};
ghost use Rattle.morris_pairs.specs.Shelves.{first_missing};
ghost use Rattle.morris_pairs.specs.Graphs.{HasGameValues};
ghost use Rattle.morris_pairs.specs.Agreement.{Agrees, IsFirstToDiffer};
ghost use Rattle.morris_pairs.specs.Verifying.{missing_in, differing_in, Verifies};

use crate::agreeing::first_in;
use crate::exact::Exact;
use crate::graph::PairGraph;
use crate::raw::Raw;
use crate::rounds::first_by;
use crate::shelf::{Needs, Shelf};
use crate::table_set::TableSet;
use morris_board::board::{Board, Geometry};
use morris_wave::Watch;
use std::alloc::Global;
use std::thread::Threads;
use thiserror::Error;

/// Why a table isn't believed.
#[derive(Drop, Error)]
#[derive_where(Clone, Copy, Debug, PartialEq, Eq)]
pub enum VerifyFault<B: Geometry> {
    /// The table of a pair that is needed isn't on the shelf.
    #[error("{0}")]
    Needs(Needs<B>),
    /// The entry with this index is the first that isn't what the rules give from the entries of
    /// its results.
    #[error("entry {0} differs")]
    Differs(u64),
}

impl<B: Board> Raw<B> {
    /// The exact table with these codes, where each of them is that of its position in the game.
    /// Each entry is compared with those that the legal moves of its position lead to: those in
    /// this table as they are stated, and those below from the shelf, in whichever layout they are.
    /// A table in which all entries agree with theirs is exact. It takes no memory.
    ///
    /// # Errors
    /// The table as it was and `Needs` with the first of the pairs that the pair needs whose table
    /// isn't on the shelf, before all else. Then `Differs` with the index of the first entry that
    /// doesn't agree. Some entry is wrong then, maybe another one: an entry may agree with its
    /// equally wrong results.
    pub fn verify(self, shelf: &Shelf<B>) -> Result<Exact<B>, (Raw<B>, VerifyFault<B>)>
        ensures { Verifies B.shape B.POINTS (first_missing shelf.now self.pair) self result }
    {
        let graph = match PairGraph::new(shelf, self.pair()) {
            Ok(graph) => graph,
            Err(needs) => return Err((self, VerifyFault::Needs(needs))),
        };
        let differing = first_in(&graph, &self, 0, self.len());
        judge(self, differing)
    }

    /// [`verify`](Raw::verify) over a set of tables, by so many workers, 1 to 64, to whom the
    /// entries are dealt out in chunks. The answer is the same for every number of them. Where
    /// memory or a thread is refused, the caller's own thread does the work.
    ///
    /// It reports to `watch` how many entries are done, after each 4,194,304 of them and after the
    /// last one (see [`Watch`]). Where an entry of a table by classes doesn't agree, or memory for
    /// its lists is refused, the entries are gone through a second time, in order, and reported
    /// from the first one on again.
    ///
    /// # Errors
    /// Those of [`verify`](Raw::verify), in the same order. Nothing is reported where the table of
    /// a pair is missing.
    pub fn verify_watched<R: Threads + Sync, W: Watch>(
        self,
        rt: &R,
        alloc: Global,
        tables: &TableSet<B>,
        workers: usize,
        watch: &mut W,
    ) -> Result<Exact<B>, (Raw<B>, VerifyFault<B>)>
        requires { (1 ≤ workers) × (workers ≤ 64) }
        ensures verified { Verifies B.shape B.POINTS (first_missing tables.now self.pair) self result }
        // The watch is as it may be after reports, whatever the answer.
        ensures watched { W.becomes watch.old watch.new }
    {
        let graph = match PairGraph::over(tables, self.pair()) {
            Ok(graph) => graph,
            Err(needs) => return Err((self, VerifyFault::Needs(needs))),
        };
        let found = first_by(rt, alloc, &graph, &self, workers, watch);
        judge(self, found)
    }
}

/// The exact table with these codes, or else the first entry that doesn't agree, once that is
/// known.
fn judge<B: Geometry>(
    raw: Raw<B>,
    differing: Option<u64>,
) -> Result<Exact<B>, (Raw<B>, VerifyFault<B>)>
    requires values { HasGameValues B.shape raw.layout raw.pair }
    requires differing { MatchOption differing ((k : ℕ) → k < entry_count B.shape B.POINTS raw.layout raw.pair → Agrees B.shape raw k) (IsFirstToDiffer B.shape raw) }
    ensures exact { IsTrue (is_ok result) ↔ IsTable B.shape raw }
    ensures value { IfOk result (λ t. t ≡ raw) }
    ensures differs { IfErr result (λ refused. (missing_in refused.1 ≡ None) × IfSome (differing_in refused.1) (IsFirstToDiffer B.shape raw)) }
    ensures given_back { IfErr result (λ refused. refused.0 ≡ raw) }
    ensures agreement { ((i : ℕ) → i < entry_count B.shape B.POINTS raw.layout raw.pair → Agrees B.shape raw i) ↔ IsTable B.shape raw }
{
    let (numbering, codes) = raw.into_parts();
    match differing {
        Some(index) => Err((Raw::new(numbering, codes), VerifyFault::Differs(index))),
        None => Ok(Exact::new(numbering, codes)),
    }
}
