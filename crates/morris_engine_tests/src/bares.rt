//! Nodes without any result.
ghost use Rattle.std.specs.Prelude.{◌≡◌, ℕ};
ghost use Rattle.morris_engine_tests.specs.Samples.{bare_net, bare_lawful};

use morris_wave::{Exits, Graph, Levels};
use std::alloc::AllocError;

/// Level % 8,192 nodes without any result, so that each is lost in 0.
pub struct Bares;

impl Levels for Bares {
    ghost net = { bare_net };

    ghost lawful = { bare_lawful };
}

/// A graph of [`Bares`].
#[derive(Drop)]
pub struct BareGraph {
    /// Its number within its family.
    pub level: u64,
}

impl Graph for BareGraph {
    type Name = Bares;

    ghost level = { λ g. g.level };

    fn level(&self) -> u64 {
        self.level
    }

    fn size(&self) -> u64 {
        self.level % 8192
    }

    fn quiet_count(&self, _i: u64) -> u16 {
        0
    }

    fn exits(&self, _i: u64) -> Exits {
        Exits {
            least_lost: None,
            greatest_won: None,
            drawn: false,
        }
    }

    fn back(&self, _i: u64, out: &mut Vec<u64>) -> Result<(), AllocError> {
        out.clear();
        Ok(())
    }
}
