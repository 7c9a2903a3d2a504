//! Summaries of captures that are cached while positions are read, each by the stones of one player
//! before the captures and those of the other player after them.
//!
//! Where positions share the stones of the player to move, what the captures lead to that leave the
//! opponent certain stones depends on these two sets alone, as long as no move closes a mill on the
//! point of the stone that is taken. A stone on such a point is in the way of the move, which
//! another position that leaves the same stones may have. Where positions share the stones of the
//! opponent, several of their moves give the player who moved the same stones.
ghost use Rattle.std.specs.Prelude.{◌≡◌, ℕ, ◌<◌, List, IfSome};
ghost use Rattle.morris_wave.specs.Exits.{exits_of};
ghost use Rattle.morris_pairs.specs.CaptureCaches.{IsCaptureCache};

use morris_board::points::Points;
use morris_wave::Exits;
use std::alloc::Global;

/// The most summaries that are cached.
const SLOTS: usize = 4096;

/// A cached summary, or none.
#[derive(Clone, Copy)]
pub(crate) struct Slot {
    /// The stones of one player before the captures.
    pub(crate) before: Points,
    /// Those of the other player after them; none in an empty slot.
    pub(crate) after: Points,
    /// The summary of what the captures lead to.
    pub(crate) results: Exits,
}

/// A slot without a summary.
const EMPTY_SLOT: Slot = Slot {
    before: Points::EMPTY,
    after: Points::EMPTY,
    results: Exits::NONE,
};

/// The cached summaries, each in the slot of the stones after the captures, until another takes its
/// place.
#[derive(Drop)]
pub(crate) struct CaptureCache {
    /// The slots; none where memory for them was refused, and then nothing is cached.
    pub(crate) slots: Vec<Slot>,
}

/// The place of the slot of the captures after which these stones are left: a hash of their set.
fn slot_of(after: Points) -> usize
    ensures { result < 4096 }
{
    (after.mask().wrapping_mul(2_654_435_761) >> 16) as usize % SLOTS
}

impl CaptureCache {
    /// An empty cache.
    pub(crate) fn new(alloc: Global) -> CaptureCache
        ensures { (codes : ℕ → ℕ → List ℕ) → IsCaptureCache codes result }
    {
        match vec![in alloc; EMPTY_SLOT; SLOTS] {
            Ok(slots) => CaptureCache { slots },
            Err(_) => CaptureCache {
                slots: Vec::new(alloc),
            },
        }
    }

    /// The summary of the captures with these stones before and after them, where it is cached.
    pub(crate) fn get(&self, before: Points, after: Points) -> Option<Exits>
        requires { 0 < after }
        ensures { (codes : ℕ → ℕ → List ℕ) → IsCaptureCache codes self.now → IfSome result (λ results. results ≡ exits_of (codes before after)) }
    {
        match self.slots.get(slot_of(after)) {
            Some(slot) if slot.after == after && slot.before == before => Some(slot.results),
            _ => None,
        }
    }

    /// Caches the summary of these captures, in place of what its slot has.
    pub(crate) fn put(&mut self, before: Points, after: Points, results: Exits)
        ensures { (codes : ℕ → ℕ → List ℕ) → IsCaptureCache codes self.old → results ≡ exits_of (codes before after) → IsCaptureCache codes self.new }
    {
        if let Some(slot) = self.slots.get_mut(slot_of(after)) {
            *slot = Slot {
                before,
                after,
                results,
            };
        }
    }
}
