//! What the nodes of a range wait for: a counter each, of 8 bits where that is enough.
ghost use Rattle.std.specs.Prelude.{◌≡◌, ℕ, ◌+◌, ◌%◌, ◌<◌, ◌≤◌, ◌==◌, nat_lt, IfOk, List, length, slice_index, slice_set};
ghost use Rattle.morris_wave.specs.NodeRanges.{left_of};
ghost use Rattle.morris_wave.specs.Counts.{counts_of, most_of, left_of_byte};

use std::alloc::{AllocError, Global};

// The counters of a range of nodes. Those of 8 bits are for nodes of at most 254 quiet results, so
// that none of them wraps; of those of 16 bits one that reads 0 may stand for 65,536.
#[derive(Drop)]
pub(crate) enum Counters {
    Bytes(Vec<u8>),
    Words(Vec<u16>),
}

// Counters of one width, each a number of results that a node waits for.
pub(crate) trait CounterList: Drop {
    // The numbers that the counters read.
    ghost counts: { Self → List ℕ };

    // How often a counter that reads this number falls until it is spent.
    ghost left: { ℕ → ℕ };

    // The counters are for nodes of fewer quiet results than this.
    ghost most: { ℕ };

    // So many counters, which read 0.
    fn make_zeros(alloc: Global, count: usize) -> Result<Self, AllocError>
        ensures { IfOk result (λ c. length (counts c) ≡ count) };

    // Whether the counters are for nodes of so many quiet results.
    fn has_room(quiet: u16) -> bool
        ensures { result ≡ nat_lt quiet most };

    // Lets a counter read the number of a node's quiet results, and none or one more.
    fn put(&mut self, place: usize, quiet: u16, more: u8)
        requires inside { place < length (counts self.old) }
        requires one { more ≤ 1 }
        requires room { quiet < most }
        ensures { counts self.new ≡ slice_set (counts self.old) place ((quiet + more) % 65536) };

    // Lets a counter fall by one, and says whether it is spent.
    fn lower(&mut self, place: usize) -> bool
        requires inside { place < length (counts self.old) }
        requires left { 0 < left (slice_index (counts self.old) place) }
        ensures lowered { counts self.new ≡ slice_set (counts self.old) place ((slice_index (counts self.old) place + 65535) % 65536) }
        ensures spent { result ≡ (((slice_index (counts self.old) place + 65535) % 65536) == 0) };

    // The counters, of whichever width.
    fn into_counters(self) -> Counters
        ensures counts { counts_of result ≡ counts self }
        ensures most { most_of result ≡ most };
}

impl CounterList for Vec<u8> {
    ghost counts = { λ v. v.items };

    ghost left = { left_of_byte };

    ghost most = { 255 };

    fn make_zeros(alloc: Global, count: usize) -> Result<Vec<u8>, AllocError> {
        let counters = vec![in alloc; 0u8; count]?;
        Ok(counters)
    }

    fn has_room(quiet: u16) -> bool {
        quiet < 255
    }

    fn put(&mut self, place: usize, quiet: u16, more: u8) {
        self[place] = quiet as u8 + more;
    }

    fn lower(&mut self, place: usize) -> bool {
        let count = self[place].wrapping_sub(1);
        self[place] = count;
        count == 0
    }

    fn into_counters(self) -> Counters {
        Counters::Bytes(self)
    }
}

impl CounterList for Vec<u16> {
    ghost counts = { λ v. v.items };

    ghost left = { left_of };

    ghost most = { 65536 };

    fn make_zeros(alloc: Global, count: usize) -> Result<Vec<u16>, AllocError> {
        let counters = vec![in alloc; 0u16; count]?;
        Ok(counters)
    }

    fn has_room(_quiet: u16) -> bool {
        true
    }

    fn put(&mut self, place: usize, quiet: u16, more: u8) {
        self[place] = quiet.wrapping_add(u16::from(more));
    }

    fn lower(&mut self, place: usize) -> bool {
        let count = self[place].wrapping_sub(1);
        self[place] = count;
        count == 0
    }

    fn into_counters(self) -> Counters {
        Counters::Words(self)
    }
}
