//! A range of nodes of a graph, which goes from wave to wave.
ghost use Rattle.std.specs.Prelude.{◌≡◌, ℕ, ◌+◌, ◌-◌, ◌<◌, ◌≤◌, ◌&&◌, ◌==◌, false, not, nat_le, [], length, slice_index, slice_set};
ghost use Rattle.std.specs.List.{All, list_any};
ghost use Rattle.morris_wave.specs.Nets.{times};
ghost use Rattle.morris_wave.specs.Lists.{list_at};
ghost use Rattle.morris_wave.specs.Exits.{is_odd};
ghost use Rattle.morris_wave.specs.NodeRanges.{Takes};
ghost use Rattle.morris_wave.specs.Counts.{counts_of, most_of, left_at};

use crate::counters::Counters;
use crate::due::Due;
use crate::listed::Listed;
use crate::node_list::NodeList;
use crate::propagate;

// Nodes in their order, from the first one of the entries on. For each there is its entry and a
// counter of the results that it waits for; its exits count as one of these until all of them are
// won. A node whose exits decide stands once in `due`, in the list of the wave at which they do,
// until that wave has begun; `piece` has room for some nodes of that list.
#[derive(Drop)]
pub(crate) struct NodeRange<L: NodeList> {
    pub(crate) entries: Listed<L>,
    pub(crate) counters: Counters,
    pub(crate) due: Due,
    pub(crate) last_due: u32,
    pub(crate) piece: L,
    ghost counted: { length (counts_of counters) ≡ length entries.codes },
    ghost small: { (k : ℕ) → k < length (counts_of counters) → slice_index (counts_of counters) k < 65536 },
    ghost inside: { (n : ℕ) → All (λ i. (entries.first ≤ i) × (i < entries.first + length entries.codes)) (list_at due n) },
    ghost once: { (n k : ℕ) → k < length entries.codes → times (entries.first + k) (list_at due n) ≤ 1 },
    ghost room: { 256 ≤ L.capacity piece },
}

impl<L: NodeList> NodeRange<L> {
    ghost use Rattle.morris_wave.specs.Frames.{SameFrame};

    // Takes in nodes that lead to fresh nodes of the wave, each as often as it leads there.
    pub(crate) fn take_in<B: NodeList>(&mut self, nodes: &B)
        requires inside { All (λ i. (self.old.entries.first ≤ i) × (i < self.old.entries.first + length self.old.entries.codes)) (B.items nodes.now) }
        requires enough { is_odd self.old.entries.wave ≡ false → (k : ℕ) → k < length self.old.entries.codes
            → times (self.old.entries.first + k) (B.items nodes.now) ≤ left_at self.old.counters k }
        ensures frame { SameFrame self.old.entries self.new.entries }
        ensures due { self.new.due ≡ self.old.due }
        ensures last_due { self.new.last_due ≡ self.old.last_due }
        ensures most { most_of self.new.counters ≡ most_of self.old.counters }
        ensures taken { Takes self.old.entries.wave self.old.entries.first (B.items nodes.now)
            self.old.entries.codes self.new.entries.codes (counts_of self.old.counters) (counts_of self.new.counters) }
    {
        propagate::take_in(&mut self.entries, &mut self.counters, nodes);
    }

    // Goes on to the next wave, and takes in what comes due at it.
    pub(crate) fn next_wave(&mut self)
        requires last { self.old.entries.wave < 65534 }
        requires enough { is_odd (self.old.entries.wave + 1) ≡ false → (k : ℕ) → k < length self.old.entries.codes
            → times (self.old.entries.first + k) (list_at self.old.due (self.old.entries.wave + 1)) ≤ left_at self.old.counters k }
        ensures len { length self.new.entries.codes ≡ length self.old.entries.codes }
        ensures first { self.new.entries.first ≡ self.old.entries.first }
        ensures wave { self.new.entries.wave ≡ self.old.entries.wave + 1 }
        ensures due { self.new.due ≡ slice_set self.old.due (self.old.entries.wave + 1) [] }
        ensures last_due { self.new.last_due ≡ self.old.last_due }
        ensures most { most_of self.new.counters ≡ most_of self.old.counters }
        ensures comes { Takes (self.old.entries.wave + 1) self.old.entries.first (list_at self.old.due (self.old.entries.wave + 1))
            self.old.entries.codes self.new.entries.codes (counts_of self.old.counters) (counts_of self.new.counters) }
    {
        self.entries.next_wave();
        let due = self.due.take(self.entries.wave);
        propagate::take_in_due(&mut self.entries, &mut self.counters, &due, &mut self.piece);
    }

    // Whether all exits are due, and no node got its code at this wave.
    pub(crate) fn is_quiet(&self) -> bool
        ensures { result ≡ (nat_le self.now.last_due self.now.entries.wave
            && not (list_any (λ c. c == (self.now.entries.wave + 1)) self.now.entries.codes)) }
    {
        self.last_due <= u32::from(self.entries.wave) && !self.entries.has_fresh()
    }
}
