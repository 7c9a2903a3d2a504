//! A watch that lists what is reported to it.
ghost use Rattle.std.specs.Prelude.{◌≤◌, vec_len};

use morris_wave::Watch;
use std::alloc::Global;

/// Lists the waves that are reported to it, and how many entries are done.
#[derive(Drop)]
pub struct Scribe {
    /// The waves that were reported.
    pub waves: Vec<u16>,
    /// How many entries were reported to be done.
    pub done: u64,
}

impl Scribe {
    /// A watch that nothing was reported to yet.
    pub fn new(alloc: Global) -> Scribe {
        Scribe {
            waves: Vec::new(alloc),
            done: 0,
        }
    }
}

impl Watch for Scribe {
    ghost use Rattle.std.proofs.Common.{arith};

    ghost becomes = { λ old new. vec_len old.waves ≤ vec_len new.waves };

    fn wave(&mut self, wave: u16) {
        // A wave for which memory is refused is missing in the list, which a test sees.
        let _ = self.waves.push(wave);
    }

    fn entries(&mut self, done: u64) {
        self.done = done;
    }

    ghost stays = { λ watch. omega arith };

    ghost joins = { λ first then last once again. omega (arith, once, again) };
}
