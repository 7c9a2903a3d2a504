//! Blocks of a graph, which go from wave to wave, and what they find and send to one another.
ghost use Rattle.std.specs.Prelude.{◌≡◌, ℕ, ◌+◌, ◌-◌, ◌<◌, ◌≤◌, true, false, ◌==◌, ◌↔◌, IsTrue, length, IfOk, OnOk, OnErr, IfErr, if◌then◌else◌};
ghost use Rattle.std.specs.List.{All, count_by};
ghost use Rattle.std.specs.List.Sorted.{IsNonDecreasing, IsNonDecreasingBy};
ghost use Rattle.morris_wave.specs.Nets.{times};
ghost use Rattle.morris_wave.specs.Waves.{entry_at, is_decided_at, is_fresh};

use crate::cut::Cut;
use crate::graph::{Graph, Levels};
use crate::node_list::NodeList;
use crate::node_range::NodeRange;
use std::alloc::{AllocError, Global};
use std::marker::{Model, PhantomData};
use std::ops::Range;
use thiserror::Error;

/// What a block did with a batch.
#[derive(Clone, Copy, Debug, PartialEq, Eq)]
pub enum Applied {
    /// The batch was taken in. Its source counts as applied once all pieces of it are.
    Done,
    /// The source was already applied in this wave, or the batch is of a piece of it that comes
    /// twice or out of turn. Nothing changed.
    Again,
    /// The batch is of another level, cut or wave, or for another block. Nothing changed.
    Stranger,
}

/// Why a block doesn't go on to the next wave.
#[derive(Clone, Copy, Debug, PartialEq, Eq, Error)]
pub enum AdvanceFault {
    /// Not all sources of this wave are applied.
    #[error("wave is not complete")]
    NotComplete,
    /// This is the last wave: a code of 16 bits has no room for a later one.
    #[error("depth is too great")]
    TooDeep,
}

/// How many entries of a block are won, lost and still open; together these are all nodes of the
/// block.
#[derive(Clone, Copy, Debug, PartialEq, Eq)]
pub struct Tallies {
    /// Entries of even codes above 0.
    pub won: u64,
    /// Entries of odd codes.
    pub lost: u64,
    /// Open entries.
    pub undecided: u64,
}

/// The nodes of a block that have the depth one less than its wave, or a piece of these.
#[derive(Drop)]
pub struct Fresh<N: Levels> {
    pub(crate) level: u64,
    pub(crate) cut: Cut,
    pub(crate) wave: u16,
    pub(crate) source: u64,
    // These are all such nodes from `low` up to, not including, `high`.
    pub(crate) low: u64,
    pub(crate) high: u64,
    pub(crate) nodes: Vec<u64>,
    pub(crate) family: PhantomData<N>,
}

impl<N: Levels> Model for Fresh<N> {
    ghost use Rattle.morris_wave.specs.Batches.{FreshState, FreshHolds};

    ghost Value = { FreshState };

    ghost view = { λ f. record { level = f.level; cut = f.cut; wave = f.wave; source = f.source; low = f.low; high = f.high; nodes = f.nodes.items } };

    ghost invariant = { λ f. FreshHolds (N.net f.level)
        (record { level = f.level; cut = f.cut; wave = f.wave; source = f.source; low = f.low; high = f.high; nodes = f.nodes.items }) };
}

/// The nodes of one block, the target, that lead to fresh nodes of another, the source.
#[derive(Drop)]
pub struct Batch<N: Levels, L: NodeList = Vec<u64>> {
    pub(crate) level: u64,
    pub(crate) cut: Cut,
    pub(crate) wave: u16,
    pub(crate) source: u64,
    // The fresh nodes are those from `low` up to, not including, `high`.
    pub(crate) low: u64,
    pub(crate) high: u64,
    pub(crate) target: u64,
    pub(crate) nodes: L,
    pub(crate) family: PhantomData<N>,
}

impl<N: Levels, L: NodeList> Model for Batch<N, L> {
    ghost use Rattle.morris_wave.specs.Batches.{BatchState, BatchHolds};

    ghost Value = { BatchState };

    ghost view = { λ b. record { level = b.level; cut = b.cut; wave = b.wave; source = b.source; low = b.low; high = b.high; target = b.target; nodes = L.items b.nodes } };

    ghost invariant = { λ b. BatchHolds (N.net b.level)
        (record { level = b.level; cut = b.cut; wave = b.wave; source = b.source; low = b.low; high = b.high; target = b.target; nodes = L.items b.nodes }) };
}

/// The entries of one block of a graph, which go from wave to wave.
///
/// At wave `n` with some sources applied, a node is decided exactly where some exit is lost within
/// `n - 1` plies or some quiet result is known and lost, or every exit is won within `n - 1` and
/// every quiet result is known and won. A result is known where its depth is at most `n - 2`, or is
/// `n - 1` and its block is applied, or the piece of its block's fresh nodes that it is in. A
/// decided node's entry is its code, an open node's is 0.
///
/// A block takes 2 bytes a node, one more where some node of it has more than 254 quiet results,
/// and one more once a depth is above 254. It has a list of the kind `L` of the nodes that are
/// decided: of 8 bytes for each, or of 4 where all nodes of the graph are below 2^32. Where `L` is
/// [`Recent`](crate::Recent), the nodes that were decided before the wave are let go. Room for all
/// nodes and codes is taken in `make`; what isn't filled of it is never used. Of the nodes that
/// come due by their exits it stores 2 bytes each until the wave at which they do.
#[derive(Drop)]
pub struct Block<N: Levels, L: NodeList = Vec<u64>> {
    level: u64,
    pub(crate) cut: Cut,
    number: u64,
    applied: Vec<bool>,
    // The nodes of a source from this one on are taken in: they come in pieces, the last one first.
    taken_from: Vec<u64>,
    pub(crate) node_range: NodeRange<L>,
    family: PhantomData<N>,
}

impl<N: Levels, L: NodeList> Model for Block<N, L> {
    ghost use Rattle.morris_wave.specs.Blocks.{BlockState, BlockHolds};
    ghost use Rattle.morris_wave.specs.Counts.{counts_of, most_of};

    ghost Value = { BlockState };

    ghost view = { λ b. record { level = b.level; cut = b.cut; number = b.number; wave = b.node_range.entries.wave; applied = b.applied.items; taken_from = b.taken_from.items } };

    ghost invariant = { λ b. BlockHolds (N.net b.level)
        (record { level = b.level; cut = b.cut; number = b.number; wave = b.node_range.entries.wave; applied = b.applied.items; taken_from = b.taken_from.items })
        b.node_range.entries.first b.node_range.entries.codes (counts_of b.node_range.counters) b.node_range.due b.node_range.last_due (most_of b.node_range.counters) };
}

impl<N: Levels> Batch<N> {
    /// The predecessors, each as often as it leads to a fresh node of the source.
    pub fn nodes(&self) -> &[u64]
        ensures { result.now ≡ self.now.nodes }
    {
        &self.nodes
    }
}

impl<N: Levels, L: NodeList> Batch<N, L> {
    /// The list of the predecessors itself, whose room can be used again.
    pub fn into_nodes(self) -> L
        ensures { L.items result ≡ self.nodes }
    {
        let Batch {
            level: _,
            cut: _,
            wave: _,
            source: _,
            low: _,
            high: _,
            target: _,
            nodes: list,
            family: _,
        } = self;
        list
    }
}

impl<N: Levels> Fresh<N> {
    ghost use Rattle.morris_wave.specs.Batches.{rest_of, piece_of};

    /// The fresh nodes, each once, in ascending order.
    pub fn nodes(&self) -> &[u64]
        ensures value { result.now ≡ self.now.nodes }
        ensures ascending { IsNonDecreasing result.now }
    {
        self.nodes.as_slice()
    }

    /// Splits off the nodes from a place on, counted from 0, so that both have some. The batches of
    /// both pieces together say what those of the whole would: a block takes in those of the piece
    /// that is split off first, and its source is applied once it has taken in those of all pieces.
    ///
    /// # Errors
    ///
    /// `AllocError` where memory is refused. Nothing changed then.
    pub fn split_off(&mut self, place: usize) -> Result<Fresh<N>, AllocError>
        requires some { 0 < place }
        requires inside { place < length self.old.nodes }
        ensures rest { OnOk result (self.new ≡ rest_of self.old place) }
        ensures piece { IfOk result (λ f. f ≡ piece_of self.old place) }
        ensures err { OnErr result (self.new ≡ self.old) }
    {
        let low = self.nodes[place];
        let nodes = self.nodes.split_off(place)?;
        let high = self.high;
        self.high = low;
        Ok(Fresh {
            level: self.level,
            cut: self.cut,
            wave: self.wave,
            source: self.source,
            low,
            high,
            nodes,
            family: PhantomData,
        })
    }
}

impl<N: Levels> Block<N> {
    ghost use Rattle.morris_wave.specs.Blocks.{first_wave, in_applied, IsIn};

    /// The block `number` of a graph at wave 0, before the first wave, where every source counts as
    /// applied.
    ///
    /// The cut is of the graph's size, and has such a block.
    ///
    /// # Errors
    ///
    /// `AllocError` where memory is refused.
    pub fn make<G: Graph<Name = N>>(
        alloc: Global,
        graph: &G,
        cut: &Cut,
        number: u64,
    ) -> Result<Block<N>, AllocError>
        requires size { cut.now.size ≡ (N.net (G.level graph.now)).size }
        requires number { number < cut.now.blocks }
        ensures { IfOk result (λ b. b ≡ first_wave (G.level graph.now) cut.now number) }
    {
        // The proof learns here that the size is a number of 64 bits.
        let _size = cut.size();
        Block::make_as(alloc, graph, cut, number)
    }

    /// The decided nodes of the block, each once, in ascending order of their depths.
    pub fn decided(&self) -> &[u64]
        ensures inside { All (IsIn self.now.cut self.now.number) result.now }
        ensures once { (i : ℕ) → IsIn self.now.cut self.now.number i
            → times i result.now ≡ (if is_decided_at (N.net self.now.level) self.now.wave (in_applied self.now) i then 1 else 0) }
        ensures order { IsNonDecreasingBy (entry_at (N.net self.now.level) self.now.wave (in_applied self.now)) result.now }
    {
        &self.node_range.entries.decided
    }
}

impl<N: Levels, L: NodeList> Block<N, L> {
    ghost use Rattle.morris_wave.specs.Blocks.{BlockState, IsBlock, first_of, first_wave, next_wave_of, is_complete, in_applied, IsIn, count_of, entries_of, IsLastDue, IsSettled};
    ghost use Rattle.morris_wave.specs.Exits.{is_odd, is_won_code};
    ghost use Rattle.morris_wave.specs.Values.{IsTooDeep, HasCode};
    ghost use Rattle.morris_wave.specs.Answering.{answer_to, after_batch};

    /// The block `number` of a graph at wave 0, before the first wave, where every source counts as
    /// applied.
    ///
    /// The cut is of the graph's size, and has such a block. Lists of the kind `L` have room for
    /// each node of the graph.
    ///
    /// # Errors
    ///
    /// `AllocError` where memory is refused.
    pub fn make_as<G: Graph<Name = N>>(
        alloc: Global,
        graph: &G,
        cut: &Cut,
        number: u64,
    ) -> Result<Block<N, L>, AllocError>
        requires size { cut.now.size ≡ (N.net (G.level graph.now)).size }
        requires short { cut.now.size ≤ L.limit }
        requires number { number < cut.now.blocks }
        ensures { IfOk result (λ b. b ≡ first_wave (G.level graph.now) cut.now number) }
    {
        let blocks = cut.blocks() as usize;
        let applied = vec![in alloc; true; blocks]?;
        let taken_from = vec![in alloc; 0; blocks]?;
        let range = cut.range(number);
        let node_range = NodeRange::read(alloc, graph, range.start, range.end)?;
        Ok(Block {
            level: graph.level(),
            cut: *cut,
            number,
            applied,
            taken_from,
            node_range,
            family: PhantomData,
        })
    }

    /// The cut that the block is one of.
    pub fn cut(&self) -> &Cut
        ensures value { result.now ≡ self.now.cut }
        // Whatever was done with the block, it is one of a cut of its graph, at one of the waves.
        ensures place { IsBlock (N.net self.now.level) self.now }
    {
        &self.cut
    }

    /// The number of the block within its cut, counted from 0.
    pub fn number(&self) -> u64
        ensures { result ≡ self.now.number }
    {
        self.number
    }

    /// The nodes of the block: the entry of each can be asked for.
    pub fn range(&self) -> Range<u64>
        ensures start { result.start ≡ first_of self.now.cut self.now.number }
        ensures end { result.end ≡ first_of self.now.cut (self.now.number + 1) }
    {
        self.cut.range(self.number)
    }

    /// The wave, from 0 to 65,534.
    pub fn wave(&self) -> u16
        ensures value { result ≡ self.now.wave }
        ensures last { result ≤ 65534 }
    {
        self.node_range.entries.wave
    }

    /// The level of its graph.
    pub fn level(&self) -> u64
        ensures { result ≡ self.now.level }
    {
        self.level
    }

    /// The entry of a node of the block: its code, from 1 to 65,535, or 0 while it is open.
    ///
    /// A code is one more than the depth in plies: odd for a loss, even for a win.
    pub fn code(&self, i: u64) -> u16
        requires { IsIn self.now.cut self.now.number i }
        ensures value { result ≡ entry_at (N.net self.now.level) self.now.wave (in_applied self.now) i }
        // A decided entry is the node's code, at whatever wave and whatever is applied.
        ensures exact { 0 < result → HasCode (N.net self.now.level) i result }
        // And an entry is open exactly where the node isn't decided.
        ensures undecided { (result ≡ 0) ↔ (is_decided_at (N.net self.now.level) self.now.wave (in_applied self.now) i ≡ false) }
    {
        let entries = &self.node_range.entries;
        entries.codes.get((i - entries.first) as usize)
    }

    /// How many entries are won, lost and still open.
    pub fn tallies(&self) -> Tallies
        // Together these are all nodes of the block.
        ensures all { result.won + result.lost + result.undecided ≡ count_of self.now }
        ensures won { result.won ≡ count_by is_won_code (entries_of (N.net self.now.level) self.now) }
        ensures lost { result.lost ≡ count_by is_odd (entries_of (N.net self.now.level) self.now) }
        ensures undecided { result.undecided ≡ count_by (λ c. c == 0) (entries_of (N.net self.now.level) self.now) }
    {
        let entries = &self.node_range.entries;
        Tallies {
            won: entries.won,
            lost: entries.lost,
            undecided: entries.codes.len() as u64 - (entries.won + entries.lost),
        }
    }

    /// The last wave at which an exit of a node of the block comes due, 0 if none does.
    pub fn last_due(&self) -> u32
        ensures value { IsLastDue (N.net self.now.level) self.now result }
        // An exit that comes due after the last wave shows that the graph is too deep.
        ensures deep { 65534 < result → IsTooDeep (N.net self.now.level) }
    {
        self.node_range.last_due
    }

    /// Whether the wave is complete, all exits of the block are due, and none of its nodes has the
    /// depth of the wave.
    ///
    /// Where all blocks of a graph are settled, no later wave decides anything.
    pub fn settled(&self) -> bool
        ensures settled { IsTrue result ↔ IsSettled (N.net self.now.level) self.now }
        // At the last wave a complete block that isn't settled shows that the graph is too deep.
        ensures deep { result ≡ false → is_complete self.now ≡ true → self.now.wave ≡ 65534
            → IsTooDeep (N.net self.now.level) }
    {
        if !self.is_complete() {
            return false;
        }
        if u32::from(self.node_range.entries.wave) < self.node_range.last_due {
            return false;
        }
        !self.node_range.entries.has_fresh()
    }

    /// Whether all sources of this wave are applied: what each block of the cut found was taken in,
    /// what it found itself included.
    pub fn is_complete(&self) -> bool
        ensures { result ≡ is_complete self.now }
    {
        self.applied.iter().all(|applied| *applied)
    }

    /// Takes in a batch, if it is for this block at its wave and goes on with a source that isn't
    /// applied yet.
    ///
    /// The nodes of the batch lead to nodes whose depth is one less than the wave. At an odd wave
    /// these are lost, so each open node of the batch is won. At an even wave they are won, so a
    /// node is lost once it has no other quiet result left and every exit is won. It takes no
    /// memory.
    pub fn apply<B: NodeList>(&mut self, batch: &Batch<N, B>) -> Applied
        ensures answer { result ≡ answer_to self.old batch.now }
        ensures state { self.new ≡ after_batch self.old batch.now }
        // What was taken in isn't taken in again.
        ensures once { result ≡ Applied.Done → answer_to self.new batch.now ≡ Applied.Again }
    {
        if batch.level != self.level
            || !batch.cut.is_same(&self.cut)
            || batch.wave != self.node_range.entries.wave
            || batch.target != self.number
        {
            return Applied::Stranger;
        }
        let source = batch.source as usize;
        if self.applied[source] || batch.high != self.taken_from[source] {
            return Applied::Again;
        }
        self.node_range.take_in(&batch.nodes);
        self.applied[source] = batch.low == 0;
        self.taken_from[source] = batch.low;
        Applied::Done
    }

    /// Goes on from a complete wave to the next one, in which no source is applied.
    ///
    /// # Errors
    ///
    /// `NotComplete` where the wave isn't complete, otherwise `TooDeep` at wave 65,534. Neither
    /// changes the block.
    pub fn advance(&mut self) -> Result<(), AdvanceFault>
        ensures ok { OnOk result ((is_complete self.old ≡ true) × (self.old.wave < 65534) × (self.new ≡ next_wave_of self.old)) }
        ensures err { IfErr result (λ e. (self.new ≡ self.old)
            × (e ≡ (if is_complete self.old then AdvanceFault.TooDeep else AdvanceFault.NotComplete))) }
        ensures deep { IfErr result (λ e. is_complete self.old ≡ true → self.old.wave ≡ 65534) }
    {
        if !self.is_complete() {
            return Err(AdvanceFault::NotComplete);
        }
        if self.node_range.entries.wave == 65534 {
            return Err(AdvanceFault::TooDeep);
        }
        self.node_range.next_wave();
        self.applied.fill(false);
        self.taken_from.fill(self.cut.size());
        Ok(())
    }

    /// The nodes of the block that have the depth one less than its wave, each once, in ascending
    /// order; none at wave 0.
    ///
    /// # Errors
    ///
    /// `AllocError` where memory is refused.
    pub fn fresh(&self, alloc: Global) -> Result<Fresh<N>, AllocError>
        ensures level { IfOk result (λ f. f.level ≡ self.now.level) }
        ensures cut { IfOk result (λ f. f.cut ≡ self.now.cut) }
        ensures wave { IfOk result (λ f. f.wave ≡ self.now.wave) }
        ensures source { IfOk result (λ f. f.source ≡ self.now.number) }
        // All of them are one piece.
        ensures low { IfOk result (λ f. f.low ≡ 0) }
        ensures high { IfOk result (λ f. f.high ≡ self.now.cut.size) }
        ensures inside { IfOk result (λ f. All (IsIn self.now.cut self.now.number) f.nodes) }
        ensures nodes { IfOk result (λ f. (i : ℕ) → IsIn self.now.cut self.now.number i
            → times i f.nodes ≡ (if is_fresh (N.net self.now.level) self.now.wave i then 1 else 0)) }
    {
        let high = self.cut.size();
        let mut nodes = self.node_range.entries.of_this_wave(alloc)?;
        nodes.sort_unstable();
        Ok(Fresh {
            level: self.level,
            cut: self.cut,
            wave: self.node_range.entries.wave,
            source: self.number,
            low: 0,
            high,
            nodes,
            family: PhantomData,
        })
    }
}
