//! The first entries of a range of nodes, what they wait for, and when their exits come due, read
//! from the graph.
ghost use Rattle.std.specs.Prelude.{◌≡◌, ◌+◌, ◌-◌, ◌%◌, ◌<◌, ◌≤◌, ◌^◌, ◌&&◌, ◌==◌, true, max, length, slice_index, slice_set, IsSome, IfOk, IfSome, vec_len};
ghost use Rattle.morris_wave.specs.Exits.{exits_won, last_due_of};
ghost use Rattle.morris_wave.specs.Nets.{Net};
ghost use Rattle.morris_wave.specs.Solving.{Marks, every};
ghost use Rattle.morris_wave.specs.NodeRanges.{due_wave, due_within, waits, HasRead, NodeRangeHolds};
ghost use Rattle.morris_wave.specs.Counts.{counts_of, most_of, AreFew};
ghost use Rattle.morris_wave.specs.Frames.{SameFrame};

use crate::counters::CounterList;
use crate::due::Due;
use crate::gaps::AT_ONCE;
use crate::graph::{Exits, Graph};
use crate::listed::Listed;
use crate::node_list::NodeList;
use crate::node_range::NodeRange;
use std::alloc::{AllocError, Global};

// So many nodes are read at a time, so that nothing that was read is stored for long. A graph may
// cache something while it reads nodes that follow one another, and over so many that pays.
const PIECE: usize = 16384;

// What is known of a range while its nodes are read.
#[derive(Drop)]
struct Reading<L: NodeList, C: CounterList> {
    entries: Listed<L>,
    counters: C,
    waves: Vec<u16>,
    last_due: u32,
    ghost counted: { length (C.counts counters) ≡ length entries.codes },
    ghost waved: { vec_len waves ≡ length entries.codes },
}

impl<L: NodeList, C: CounterList> Reading<L, C> {
    // Before the first node is read, each is open.
    fn open(alloc: Global, first: u64, count: usize) -> Result<Reading<L, C>, AllocError>
        requires small { first + count ≤ 2 ^ 40 }
        requires short { first + count ≤ L.limit }
        ensures first { IfOk result (λ r. r.entries.first ≡ first) }
        ensures wave { IfOk result (λ r. r.entries.wave ≡ 0) }
        ensures len { IfOk result (λ r. length r.entries.codes ≡ count) }
        ensures read { IfOk result (λ r. (g : Net) → HasRead g C.most first 0
            r.entries.codes (C.counts r.counters) r.waves.items r.last_due) }
    {
        // The waves are asked for first. They are let go once the range is read, and those of the
        // next range take their place. Otherwise their place would go to room that isn't filled,
        // and its pages would be in use for nothing.
        let waves = vec![in alloc; 0u16; count]?;
        let entries = Listed::open(alloc, first, count)?;
        let counters = C::make_zeros(alloc, count)?;
        Ok(Reading {
            entries,
            counters,
            waves,
            last_due: 0,
        })
    }

    // Takes in what was read of the node at a place: it waits for its quiet results and for its
    // exits, and is lost without any result. Most nodes have no exits, and need no wave.
    fn take(&mut self, place: usize, quiet: u16, exits: Exits)
        requires inside { place < length self.old.entries.codes }
        requires few { quiet < C.most }
        requires unwritten { slice_index self.old.waves.items place ≡ 0 }
        ensures frame { SameFrame self.old.entries self.new.entries }
        ensures codes { Marks self.old.entries.codes self.new.entries.codes
            (λ k. (place == k) && ((quiet == 0) && exits_won 0 exits)) (self.old.entries.wave + 1) }
        ensures counters { C.counts self.new.counters ≡ slice_set (C.counts self.old.counters) place ((quiet + waits 0 exits) % 65536) }
        ensures waves { self.new.waves.items ≡ slice_set self.old.waves.items place (due_within (due_wave exits)) }
        ensures last { self.new.last_due ≡ max self.old.last_due (last_due_of exits) }
    {
        let none = exits.is_none();
        self.entries.mark(place as u64, quiet == 0 && none);
        self.counters.put(place, quiet, u8::from(!none));
        if !none {
            self.waves[place] = in_16_bits(exits.due_wave());
            self.last_due = self.last_due.max(exits.last_due());
        }
    }
}

// The wave as far as it ever comes.
fn in_16_bits(wave: u32) -> u16
    ensures { result ≡ due_within wave }
{
    if wave < 65535 { wave as u16 } else { 0 }
}

// Reads as many nodes as there is room for, from a place on, unless the counters are for nodes of
// fewer quiet results. Says whether all of them were read.
fn read_piece<G: Graph, L: NodeList, C: CounterList>(
    graph: &G,
    reading: &mut Reading<L, C>,
    from: usize,
    counts: &mut [u16],
    exits: &mut [Exits],
) -> bool
    requires room { length exits.old ≡ length counts.old }
    requires inside { from + length counts.old ≤ length reading.old.entries.codes }
    requires end { reading.old.entries.first + length reading.old.entries.codes ≤ (G.Name.net (G.level graph.now)).size }
    requires wave { reading.old.entries.wave ≡ 0 }
    requires read { HasRead (G.Name.net (G.level graph.now)) C.most reading.old.entries.first from
        reading.old.entries.codes (C.counts reading.old.counters) reading.old.waves.items reading.old.last_due }
    ensures frame { SameFrame reading.old.entries reading.new.entries }
    ensures read { result ≡ true → HasRead (G.Name.net (G.level graph.now)) C.most reading.old.entries.first (from + length counts.old)
        reading.new.entries.codes (C.counts reading.new.counters) reading.new.waves.items reading.new.last_due }
    ensures wide { 65535 < C.most → result ≡ true }
{
    graph.read_nodes(reading.entries.first + from as u64, counts, exits);
    for place in 0..counts.len() {
        let quiet = counts[place];
        if !C::has_room(quiet) {
            return false;
        }
        reading.take(from + place, quiet, exits[place]);
    }
    true
}

// Reads all nodes, a chunk at a time, unless the counters are for nodes of fewer quiet results. In
// `counts` and `exits` there is room for a chunk. Says whether all of them were read.
fn read_all<G: Graph, L: NodeList, C: CounterList>(
    graph: &G,
    reading: &mut Reading<L, C>,
    counts: &mut [u16],
    exits: &mut [Exits],
) -> bool
    requires counts { length counts.old ≡ 16384 }
    requires exits { length exits.old ≡ 16384 }
    requires end { reading.old.entries.first + length reading.old.entries.codes ≤ (G.Name.net (G.level graph.now)).size }
    requires wave { reading.old.entries.wave ≡ 0 }
    requires read { HasRead (G.Name.net (G.level graph.now)) C.most reading.old.entries.first 0
        reading.old.entries.codes (C.counts reading.old.counters) reading.old.waves.items reading.old.last_due }
    ensures frame { SameFrame reading.old.entries reading.new.entries }
    ensures read { result ≡ true → HasRead (G.Name.net (G.level graph.now)) C.most reading.old.entries.first (length reading.old.entries.codes)
        reading.new.entries.codes (C.counts reading.new.counters) reading.new.waves.items reading.new.last_due }
    ensures wide { 65535 < C.most → result ≡ true }
{
    let count = reading.waves.len();
    for piece in 0..count / PIECE + 1 {
        let from = piece * PIECE;
        let len = (count - from).min(PIECE);
        if !read_piece(graph, reading, from, &mut counts[..len], &mut exits[..len]) {
            return false;
        }
    }
    true
}

// The nodes from `first` up to, not including, `end`, before the first wave, with counters of one
// width; `None` where these are for nodes of fewer quiet results than some node has.
fn read_with<G: Graph, L: NodeList, C: CounterList>(
    alloc: Global,
    graph: &G,
    first: u64,
    end: u64,
) -> Result<Option<NodeRange<L>>, AllocError>
    requires order { first ≤ end }
    requires end { end ≤ (G.Name.net (G.level graph.now)).size }
    requires small { end ≤ 2 ^ 40 }
    requires short { end ≤ L.limit }
    ensures first { IfOk result (λ read. IfSome read (λ s. s.entries.first ≡ first)) }
    ensures wave { IfOk result (λ read. IfSome read (λ s. s.entries.wave ≡ 0)) }
    ensures len { IfOk result (λ read. IfSome read (λ s. length s.entries.codes ≡ end - first)) }
    ensures few { IfOk result (λ read. IfSome read (λ s. AreFew (G.Name.net (G.level graph.now)) first (end - first) (most_of s.counters))) }
    ensures holds { IfOk result (λ read. IfSome read (λ s. NodeRangeHolds (G.Name.net (G.level graph.now)) 0 every first
        s.entries.codes (counts_of s.counters) s.due s.last_due)) }
    ensures wide { 65535 < C.most → IfOk result (λ read. IsSome read) }
{
    let mut counts = vec![in alloc; 0u16; PIECE]?;
    let mut exits = vec![in alloc; Exits::NONE; PIECE]?;
    let mut reading: Reading<L, C> = Reading::open(alloc, first, (end - first) as usize)?;
    if !read_all(graph, &mut reading, &mut counts, &mut exits) {
        return Ok(None);
    }
    let due = Due::of(alloc, first, &reading.waves)?;
    let piece = L::with_room(alloc, AT_ONCE)?;
    let Reading {
        entries,
        counters,
        waves: _,
        last_due,
    } = reading;
    Ok(Some(NodeRange {
        entries,
        counters: counters.into_counters(),
        due,
        last_due,
        piece,
    }))
}

impl<L: NodeList> NodeRange<L> {
    // The nodes from `first` up to, not including, `end`, before the first wave. They are read
    // once; where a counter of 8 bits has no room for some node, all of them once more.
    pub(crate) fn read<G: Graph>(
        alloc: Global,
        graph: &G,
        first: u64,
        end: u64,
    ) -> Result<NodeRange<L>, AllocError>
        requires order { first ≤ end }
        requires end { end ≤ (G.Name.net (G.level graph.now)).size }
        requires small { end ≤ 2 ^ 40 }
        requires short { end ≤ L.limit }
        ensures first { IfOk result (λ s. s.entries.first ≡ first) }
        ensures wave { IfOk result (λ s. s.entries.wave ≡ 0) }
        ensures len { IfOk result (λ s. length s.entries.codes ≡ end - first) }
        ensures few { IfOk result (λ s. AreFew (G.Name.net (G.level graph.now)) first (end - first) (most_of s.counters)) }
        ensures holds { IfOk result (λ s. NodeRangeHolds (G.Name.net (G.level graph.now)) 0 every first
            s.entries.codes (counts_of s.counters) s.due s.last_due) }
    {
        if let Some(node_range) = read_with::<G, L, Vec<u8>>(alloc, graph, first, end)? {
            return Ok(node_range);
        }
        match read_with::<G, L, Vec<u16>>(alloc, graph, first, end)? {
            Some(node_range) => Ok(node_range),
            None => unreachable!(),
        }
    }
}
