//! What nodes with a new known result do to the entries and counters of a block.
ghost use Rattle.std.specs.Prelude.{◌≡◌, ℕ, ◌+◌, ◌-◌, ◌<◌, ◌≤◌, ◌&&◌, ◌==◌, true, false, length, slice_index};
ghost use Rattle.std.specs.List.{All};
ghost use Rattle.morris_wave.specs.Nets.{times};
ghost use Rattle.morris_wave.specs.Exits.{is_odd};
ghost use Rattle.morris_wave.specs.Solving.{Marks, among};
ghost use Rattle.morris_wave.specs.NodeRanges.{LowersBy, Takes};
ghost use Rattle.morris_wave.specs.Counts.{counts_of, most_of, left_at, FallsLike};
ghost use Rattle.morris_wave.specs.Frames.{SameFrame};
ghost use Rattle.morris_wave.specs.GapLists.{nodes_of};

use crate::counters::{CounterList, Counters};
use crate::gaps::{AT_ONCE, Gaps, read_gaps};
use crate::listed::Listed;
use crate::node_list::NodeList;

// Gives each open node of the list its code.
fn win_all<L: NodeList, B: NodeList>(entries: &mut Listed<L>, nodes: &B)
    requires inside { All (λ i. (entries.old.first ≤ i) × (i < entries.old.first + length entries.old.codes)) (B.items nodes.now) }
    ensures frame { SameFrame entries.old entries.new }
    ensures codes { Marks entries.old.codes entries.new.codes
        (λ k. among (B.items nodes.now) (entries.old.first + k)) (entries.old.wave + 1) }
{
    for at in 0..nodes.count() {
        let node = nodes.node(at);
        entries.mark(node - entries.first, true);
    }
}

// Lowers the counter of each node of the list, once for each place there, and closes it as it is
// spent.
fn lower_all<L: NodeList, B: NodeList, C: CounterList>(
    entries: &mut Listed<L>,
    counters: &mut C,
    nodes: &B,
)
    requires inside { All (λ i. (entries.old.first ≤ i) × (i < entries.old.first + length entries.old.codes)) (B.items nodes.now) }
    requires counters { length (C.counts counters.old) ≡ length entries.old.codes }
    requires small { (k : ℕ) → k < length (C.counts counters.old) → slice_index (C.counts counters.old) k < 65536 }
    requires falls { FallsLike C.left }
    requires enough { (k : ℕ) → k < length (C.counts counters.old) → times (entries.old.first + k) (B.items nodes.now) ≤ C.left (slice_index (C.counts counters.old) k) }
    ensures frame { SameFrame entries.old entries.new }
    ensures counters_len { length (C.counts counters.new) ≡ length (C.counts counters.old) }
    ensures small { (k : ℕ) → k < length (C.counts counters.new) → slice_index (C.counts counters.new) k < 65536 }
    ensures lowered { LowersBy (λ k. entries.old.first + k) (C.counts counters.old) (C.counts counters.new) (B.items nodes.now) }
    ensures codes { Marks entries.old.codes entries.new.codes
        (λ k. among (B.items nodes.now) (entries.old.first + k) && (slice_index (C.counts counters.new) k == 0)) (entries.old.wave + 1) }
{
    for at in 0..nodes.count() {
        let node = nodes.node(at);
        let place = node - entries.first;
        let spent = counters.lower(place as usize);
        entries.mark(place, spent);
    }
}

// Takes in nodes that lead to fresh nodes of the wave, each as often as it leads there, or whose
// exits come due at it.
pub(crate) fn take_in<L: NodeList, B: NodeList>(
    entries: &mut Listed<L>,
    counters: &mut Counters,
    nodes: &B,
)
    requires inside { All (λ i. (entries.old.first ≤ i) × (i < entries.old.first + length entries.old.codes)) (B.items nodes.now) }
    requires counters { length (counts_of counters.old) ≡ length entries.old.codes }
    requires small { (k : ℕ) → k < length (counts_of counters.old) → slice_index (counts_of counters.old) k < 65536 }
    requires enough { is_odd entries.old.wave ≡ false
        → (k : ℕ) → k < length (counts_of counters.old) → times (entries.old.first + k) (B.items nodes.now) ≤ left_at counters.old k }
    ensures frame { SameFrame entries.old entries.new }
    ensures counters_len { length (counts_of counters.new) ≡ length (counts_of counters.old) }
    ensures most { most_of counters.new ≡ most_of counters.old }
    ensures small { (k : ℕ) → k < length (counts_of counters.new) → slice_index (counts_of counters.new) k < 65536 }
    ensures taken { Takes entries.old.wave entries.old.first (B.items nodes.now) entries.old.codes entries.new.codes
        (counts_of counters.old) (counts_of counters.new) }
{
    if entries.wave % 2 == 1 {
        win_all(entries, nodes);
    } else {
        match counters {
            Counters::Bytes(list) => lower_all(entries, list, nodes),
            Counters::Words(list) => lower_all(entries, list, nodes),
        }
    }
}

// Takes in nodes whose exits come due at the wave, a chunk at a time, for which there is room in
// `piece`.
pub(crate) fn take_in_due<L: NodeList>(
    entries: &mut Listed<L>,
    counters: &mut Counters,
    due: &Gaps,
    piece: &mut L,
)
    requires inside { All (λ i. (entries.old.first ≤ i) × (i < entries.old.first + length entries.old.codes)) (nodes_of due.now) }
    requires once { (k : ℕ) → k < length entries.old.codes → times (entries.old.first + k) (nodes_of due.now) ≤ 1 }
    requires counters { length (counts_of counters.old) ≡ length entries.old.codes }
    requires small { (k : ℕ) → k < length (counts_of counters.old) → slice_index (counts_of counters.old) k < 65536 }
    requires enough { is_odd entries.old.wave ≡ false
        → (k : ℕ) → k < length (counts_of counters.old) → times (entries.old.first + k) (nodes_of due.now) ≤ left_at counters.old k }
    requires room { 256 ≤ L.capacity piece.old }
    ensures frame { SameFrame entries.old entries.new }
    ensures counters_len { length (counts_of counters.new) ≡ length (counts_of counters.old) }
    ensures most { most_of counters.new ≡ most_of counters.old }
    ensures small { (k : ℕ) → k < length (counts_of counters.new) → slice_index (counts_of counters.new) k < 65536 }
    ensures room { 256 ≤ L.capacity piece.new }
    ensures taken { Takes entries.old.wave entries.old.first (nodes_of due.now) entries.old.codes entries.new.codes
        (counts_of counters.old) (counts_of counters.new) }
{
    let mut next = due.first;
    for gaps in due.gaps.chunks(AT_ONCE) {
        next = read_gaps(next, gaps, piece);
        take_in(entries, counters, piece);
    }
}
