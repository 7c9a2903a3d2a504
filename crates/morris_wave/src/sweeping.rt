//! The codes of all nodes of a graph, by one sweep on one thread.
ghost use Rattle.std.specs.Prelude.{◌≡◌, ℕ, ◌+◌, ◌<◌, ◌==◌, ◌&&◌, true, false, not, slice_index, OnOk, IfOk, vec_len, nat_le};
ghost use Rattle.std.specs.List.{list_any};
ghost use Rattle.morris_wave.specs.Values.{HasCode, IsTooDeep, PlyRules, CodeRules};
ghost use Rattle.morris_wave.specs.Solving.{every, none};
ghost use Rattle.morris_wave.specs.Frames.{IsWhole};

use crate::graph::Graph;
use crate::node_list::NodeList;
use crate::node_range::NodeRange;
use crate::watch::{NoProgress, Watch};
use std::alloc::{AllocError, Global};
use thiserror::Error;

/// Why a graph wasn't swept.
#[derive(Clone, Copy, Debug, PartialEq, Eq, Error)]
pub enum SweepFault {
    /// A depth is too great for a code of 16 bits.
    #[error("depth is too great")]
    TooDeep,
    /// Want of memory.
    #[error("out of memory")]
    Memory,
}

impl From<AllocError> for SweepFault {
    ghost use Rattle.morris_wave.specs.declared.sweeping.SweepFault.TheVariants.{Memory};

    ghost from_gives = { λ _ e. e ≡ Memory };

    fn from(_fault: AllocError) -> SweepFault {
        SweepFault::Memory
    }
}

// The last wave whose nodes have codes of 16 bits.
const LAST_WAVE: u16 = 65534;

// Goes back from each fresh node of the wave, and takes in its predecessors.
fn spread<G: Graph, L: NodeList>(
    graph: &G,
    whole: &mut NodeRange<L>,
    back: &mut Vec<u64>,
) -> Result<(), AllocError>
    requires start { IsWhole (G.Name.net (G.level graph.now)) none whole.old }
    ensures wave { whole.new.entries.wave ≡ whole.old.entries.wave }
    ensures done { OnOk result (IsWhole (G.Name.net (G.level graph.now)) every whole.new) }
{
    for place in whole.entries.before..whole.entries.here {
        graph.back(whole.entries.decided.node(place), back)?;
        whole.take_in(back);
    }
    Ok(())
}

// Goes from wave to wave until nothing more is to come, and says whether it got so far. Each wave
// is reported to the watch before it begins.
fn run<G: Graph, L: NodeList, W: Watch>(
    alloc: Global,
    graph: &G,
    whole: &mut NodeRange<L>,
    watch: &mut W,
) -> Result<bool, AllocError>
    requires wave { whole.old.entries.wave ≡ 0 }
    requires start { IsWhole (G.Name.net (G.level graph.now)) every whole.old }
    ensures done { OnOk result (IsWhole (G.Name.net (G.level graph.now)) every whole.new) }
    ensures quiet { IfOk result (λ quiet. quiet ≡ (nat_le whole.new.last_due whole.new.entries.wave
        && not (list_any (λ c. c == (whole.new.entries.wave + 1)) whole.new.entries.codes))) }
    ensures last { IfOk result (λ quiet. quiet ≡ false → whole.new.entries.wave ≡ 65534) }
    ensures watched { W.becomes watch.old watch.new }
{
    let mut back = Vec::new(alloc);
    for done in 0..LAST_WAVE {
        if whole.is_quiet() {
            return Ok(true);
        }
        watch.wave(done + 1);
        whole.next_wave();
        spread(graph, whole, &mut back)?;
    }
    Ok(whole.is_quiet())
}

// Goes through all waves of a graph, and gives the code of each node.
fn codes_of<G: Graph, W: Watch>(
    alloc: Global,
    graph: &G,
    whole: &mut NodeRange<Vec<u64>>,
    watch: &mut W,
) -> Result<Vec<u16>, SweepFault>
    requires wave { whole.old.entries.wave ≡ 0 }
    requires start { IsWhole (G.Name.net (G.level graph.now)) every whole.old }
    ensures len { IfOk result (λ v. vec_len v ≡ (G.Name.net (G.level graph.now)).size) }
    ensures codes { IfOk result (λ v. (i : ℕ) → i < (G.Name.net (G.level graph.now)).size
        → HasCode (G.Name.net (G.level graph.now)) i (slice_index v.items i)) }
    ensures not_too_deep { OnOk result (¬ IsTooDeep (G.Name.net (G.level graph.now))) }
    ensures too_deep { result ≡ Err SweepFault.TooDeep → IsTooDeep (G.Name.net (G.level graph.now)) }
    ensures watched { W.becomes watch.old watch.new }
{
    if run(alloc, graph, whole, watch)? {
        let mut codes = Vec::with_capacity(alloc, whole.entries.codes.len())?;
        whole.entries.codes.add_to(&mut codes)?;
        Ok(codes)
    } else {
        Err(SweepFault::TooDeep)
    }
}

/// The code of each node of a graph: 0 for a draw, otherwise one more than its depth.
///
/// A node is lost in 0 plies where it has no result. It is won in one ply more than its least lost
/// result, and lost, where all its results are won, in one ply more than the greatest of these.
/// Codes of lost nodes are odd. A node that is neither for any number of plies is a draw.
///
/// The work is in proportion to nodes, quiet results and depths. It takes 2 bytes a node (one more
/// where some node has more than 254 quiet results, and one more once a depth is above 254), 8 for
/// each node that is decided and 2 for each that comes due by its exits, and one list of
/// predecessors. While it reads the graph, and for its answer, it takes 2 bytes a node more.
///
/// # Errors
///
/// `TooDeep` exactly where some node has a depth of 65,534 or more, or 65,534 is its least depth of
/// a lost exit or its greatest depth of a won exit. `Memory` where memory is refused.
pub fn sweep<G: Graph>(alloc: Global, graph: &G) -> Result<Vec<u16>, SweepFault>
    ensures len { IfOk result (λ v. vec_len v ≡ (G.Name.net (G.level graph.now)).size) }
    ensures codes { IfOk result (λ v. (i : ℕ) → i < (G.Name.net (G.level graph.now)).size
        → HasCode (G.Name.net (G.level graph.now)) i (slice_index v.items i)) }
    ensures not_too_deep { OnOk result (¬ IsTooDeep (G.Name.net (G.level graph.now))) }
    ensures too_deep { result ≡ Err SweepFault.TooDeep → IsTooDeep (G.Name.net (G.level graph.now)) }
    // A code is counted in plies as the rules of the game do.
    ensures plies { PlyRules (G.Name.net (G.level graph.now)) }
    // And it says who wins: codes of lost nodes are odd, those of won nodes even.
    ensures outcome { CodeRules (G.Name.net (G.level graph.now)) }
{
    sweep_watched(alloc, graph, &mut NoProgress)
}

/// [`sweep`], which reports each wave to `watch` as it begins: waves 1, 2, .. and none where
/// nothing is to come before the first one. Wave `n` goes back from the nodes of depth `n - 1`.
///
/// # Errors
///
/// Those of [`sweep`]. Where memory is refused as the graph is read, no wave is reported. A wave
/// that was reported may still end in an error.
pub fn sweep_watched<G: Graph, W: Watch>(
    alloc: Global,
    graph: &G,
    watch: &mut W,
) -> Result<Vec<u16>, SweepFault>
    ensures len { IfOk result (λ v. vec_len v ≡ (G.Name.net (G.level graph.now)).size) }
    ensures codes { IfOk result (λ v. (i : ℕ) → i < (G.Name.net (G.level graph.now)).size
        → HasCode (G.Name.net (G.level graph.now)) i (slice_index v.items i)) }
    ensures not_too_deep { OnOk result (¬ IsTooDeep (G.Name.net (G.level graph.now))) }
    ensures too_deep { result ≡ Err SweepFault.TooDeep → IsTooDeep (G.Name.net (G.level graph.now)) }
    // The rules of [`sweep`].
    ensures plies { PlyRules (G.Name.net (G.level graph.now)) }
    ensures outcome { CodeRules (G.Name.net (G.level graph.now)) }
    // The watch is as it may be after reports, whatever the answer.
    ensures watched { W.becomes watch.old watch.new }
{
    let mut whole: NodeRange<Vec<u64>> = NodeRange::read(alloc, graph, 0, graph.size())?;
    codes_of(alloc, graph, &mut whole, watch)
}
