//! The codes of all nodes of a graph, by several workers.
ghost use Rattle.std.specs.Prelude.{◌≡◌, ℕ, ◌+◌, ◌<◌, ◌≤◌, ◌^◌, None, Some, length, OnOk, IfOk, IfErr, IfSome, IfNone, MatchResult, vec_len};
ghost use Rattle.std.specs.List.{All};
ghost use Rattle.morris_wave.specs.Values.{PlyRules, CodeRules};
ghost use Rattle.morris_wave.specs.Blocks.{IsSettled};
ghost use Rattle.morris_workers.specs.Ranges.{range_fault, Tells};
ghost use Rattle.morris_workers.specs.Solving.{AreCodes, IsRefusal};

use crate::fault::SolveFault;
use crate::gate::Gate;
use crate::making::make_blocks;
use crate::wave::Site;
use crate::wave_barrier::WaveBarrier;
use crate::yard::Yard;
use morris_wave::{Block, Cut, Graph, Levels, NoProgress, NodeList, Recent, Watch, gather_from};
use std::alloc::Global;
use std::sync::Wait;
use std::thread::Threads;

/// In a graph of at most so many nodes, 2^32, each node is a number of 32 bits.
pub const SHORT_NODES: u64 = 4294967296;

/// Whether there may be so many workers and blocks.
///
/// # Errors
///
/// `Workers` where there aren't 1 to 64 workers, otherwise `Blocks` where there aren't 1 to 1,024
/// blocks.
pub fn check_numbers(workers: usize, blocks: usize) -> Result<(), SolveFault>
    ensures { MatchResult result (λ _. range_fault workers blocks ≡ None) (λ fault. range_fault workers blocks ≡ Some fault) }
{
    if workers < 1 || workers > 64 {
        return Err(SolveFault::Workers);
    }
    if blocks < 1 || blocks > 1024 {
        return Err(SolveFault::Blocks);
    }
    Ok(())
}

// So many things, cut into so many parts.
fn cut_into(size: u64, parts: u64) -> Cut
    requires size { size ≤ 2 ^ 40 }
    requires parts { (1 ≤ parts) × (parts ≤ 1024) }
    ensures size { result.size ≡ size }
    ensures parts { result.blocks ≡ parts }
{
    let Ok(cut) = Cut::new(size, parts) else {
        unreachable!()
    };
    cut
}

// The first block that isn't settled, or doesn't have the number of its place.
fn first_unsettled<N: Levels, L: NodeList>(blocks: &[Block<N, L>]) -> Option<usize>
    ensures none { IfNone result (All (λ s. IsSettled (N.net s.level) s × (s.number < length blocks.now)) blocks.now) }
    ensures found { IfSome result (λ place. place < length blocks.now) }
{
    for (place, block) in blocks.iter().enumerate() {
        if block.number() != place as u64 || !block.settled() {
            return Some(place);
        }
    }
    None
}

// The codes of all nodes, from the blocks at this wave.
fn codes_of<N: Levels, L: NodeList>(
    alloc: Global,
    level: u64,
    wave: u16,
    cut: &Cut,
    blocks: Vec<Block<N, L>>,
) -> Result<Vec<u16>, SolveFault>
    requires blocks { vec_len blocks ≡ cut.now.blocks }
    requires size { cut.now.size ≡ (N.net level).size }
    ensures codes { IfOk result (AreCodes (N.net level)) }
    ensures fault { IfErr result (Tells (N.net level) cut.now.blocks) }
{
    if let Some(place) = first_unsettled(&blocks) {
        return Err(SolveFault::Missing(place as u64));
    }
    Ok(gather_from(alloc, level, wave, cut, blocks)?)
}

// The codes of all nodes, by a worker for each share of the blocks of a cut. Blocks and batches
// have lists of the kind `L`.
fn solve_as<
    L: NodeList + Send + Sync,
    G: Graph + Sync,
    A: Gate,
    R: Threads + Wait + Sync,
    W: Watch,
>(
    rt: &R,
    alloc: Global,
    graph: &G,
    gate: &A,
    cut: &Cut,
    shares: &Cut,
    watch: &mut W,
) -> Result<Vec<u16>, SolveFault>
    requires size { cut.now.size ≡ (G.Name.net (G.level graph.now)).size }
    requires short { cut.now.size ≤ L.limit }
    requires shares { shares.now.size ≡ cut.now.blocks }
    requires workers { shares.now.blocks ≤ 64 }
    ensures codes { IfOk result (AreCodes (G.Name.net (G.level graph.now))) }
    ensures reported { IfErr result (Tells (G.Name.net (G.level graph.now)) cut.now.blocks) }
    ensures watched { W.becomes watch.old watch.new }
{
    // The proof learns here that there are some blocks and workers.
    let _numbers = (cut.blocks(), shares.blocks());
    let made = make_blocks::<L, G, R, W>(rt, alloc, graph, cut, shares, watch)?;
    let yard = Yard::new(alloc, made)?;
    let site = Site {
        rt,
        alloc,
        graph,
        gate,
        yard: &yard,
        shares,
        barrier: WaveBarrier::new(),
    };
    let wave = site.run(watch);
    drop(site);
    codes_of(alloc, graph.level(), wave?, cut, yard.into_blocks())
}

/// The code of each node of a graph: 0 for a draw, otherwise one more than its depth.
///
/// Works with so many workers, 1 to 64, each in a thread of its own where one can be started, and
/// cuts the graph into so many blocks, 1 to 1,024. The codes are those that `sweep` gives, for
/// every number of workers and blocks and in whatever order the workers come.
///
/// The workers draw the numbers of the blocks that they make, until none is left, and no gate is
/// asked. Then they draw the numbers of the blocks for one wave after the other and ask the gate
/// after each draw (see [`Gate`]). A worker that drew for a wave waits until that wave begins,
/// which it does once all blocks of the wave before are sent from and not all of them are settled.
/// A worker that the gate sends away ends, and its number stays undone; then no later wave begins.
/// A graph whose blocks are settled before the first wave is answered without any wave. A worker
/// holds one lock at a time, and none while it looks at the graph or waits for a wave.
///
/// The blocks take what [`Block`] says, with lists of 4 bytes a node that let go of the waves past
/// ([`Recent`]), or of 8 that retain all in a graph of more than [`SHORT_NODES`]. Each worker takes
/// the fresh nodes of one block at a time, of 8 bytes each, and goes back from [`PIECE_NODES`] of
/// them at a time: the batches are of as many bytes as the lists for each node that leads to one of
/// these. Of the lists that it sent a worker sets some aside, of up to 512 KiB together, and uses
/// them for the next pieces. At the end these are let go, and then the answer takes 2 bytes a node,
/// while the blocks are let go one after the other.
///
/// [`PIECE_NODES`]: crate::PIECE_NODES
///
/// # Errors
///
/// `Workers`, then `Blocks`, for numbers out of range, before all else. Then `Memory` where memory
/// is refused, in the waves before anything else that they would answer. `Missing` with the least
/// number of a block that isn't complete, where a gate has sent workers away. `TooDeep` only where
/// `sweep` answers it; such a graph is never answered with codes.
pub fn solve<G: Graph + Send + Sync, A: Gate, R: Threads + Wait + Sync>(
    rt: &R,
    alloc: Global,
    graph: &G,
    gate: &A,
    workers: usize,
    blocks: usize,
) -> Result<Vec<u16>, SolveFault>
    ensures range { OnOk result (range_fault workers blocks ≡ None) }
    ensures codes { IfOk result (AreCodes (G.Name.net (G.level graph.now))) }
    ensures refused { IfErr result (IsRefusal (G.Name.net (G.level graph.now)) workers blocks) }
    // A code is counted in plies as the rules of the game do.
    ensures plies { PlyRules (G.Name.net (G.level graph.now)) }
    // And it says who wins: codes of lost nodes are odd, those of won nodes even.
    ensures outcome { CodeRules (G.Name.net (G.level graph.now)) }
{
    let watch = &mut NoProgress;
    solve_with(rt, alloc, graph, gate, workers, blocks, SHORT_NODES, watch)
}

/// [`solve`], with lists of 4 bytes a node where the graph has at most `short` nodes, up to
/// [`SHORT_NODES`], and of 8 otherwise. On this thread it reports each wave to `watch` once it has
/// begun (see [`Watch`]): waves 1, 2, .. in their order, and none where the blocks are settled
/// before the first one. Before the waves it reports that no entry is done, after each block that
/// this thread made.
///
/// # Errors
///
/// Those of [`solve`]. Where numbers are out of range nothing is reported, and no wave where the
/// blocks aren't made. A wave that was reported may still end in an error.
pub fn solve_with<G: Graph + Send + Sync, A: Gate, R: Threads + Wait + Sync, W: Watch>(
    rt: &R,
    alloc: Global,
    graph: &G,
    gate: &A,
    workers: usize,
    blocks: usize,
    short: u64,
    watch: &mut W,
) -> Result<Vec<u16>, SolveFault>
    // A node of a graph of so many nodes is a number of 32 bits.
    requires short { short ≤ 2 ^ 32 }
    ensures range { OnOk result (range_fault workers blocks ≡ None) }
    ensures codes { IfOk result (AreCodes (G.Name.net (G.level graph.now))) }
    ensures refused { IfErr result (IsRefusal (G.Name.net (G.level graph.now)) workers blocks) }
    // The rules of [`solve`].
    ensures plies { PlyRules (G.Name.net (G.level graph.now)) }
    ensures outcome { CodeRules (G.Name.net (G.level graph.now)) }
    // The watch is as it may be after reports, whatever the answer.
    ensures watched { W.becomes watch.old watch.new }
{
    check_numbers(workers, blocks)?;
    let cut = cut_into(graph.size(), blocks as u64);
    let shares = cut_into(blocks as u64, workers as u64);
    if cut.size() <= short {
        solve_as::<Recent, G, A, R, W>(rt, alloc, graph, gate, &cut, &shares, watch)
    } else {
        solve_as::<Vec<u64>, G, A, R, W>(rt, alloc, graph, gate, &cut, &shares, watch)
    }
}
