//! One node, whose exits the level gives.
ghost use Rattle.std.specs.Prelude.{◌≡◌, ◌<◌, ℕ};
ghost use Rattle.morris_engine_tests.specs.Samples.{lone_net, lone_lawful};

use morris_wave::{Exits, Graph, Levels};
use std::alloc::AllocError;

/// One node without quiet results, with an exit of code level / 2, and a drawn one at odd levels.
pub struct Lones;

impl Levels for Lones {
    ghost net = { lone_net };

    ghost lawful = { lone_lawful };
}

/// A graph of [`Lones`].
#[derive(Drop)]
pub struct LoneGraph {
    /// Its number within its family.
    pub level: u64,
}

impl Graph for LoneGraph {
    type Name = Lones;

    ghost level = { λ g. g.level };

    fn level(&self) -> u64 {
        self.level
    }

    fn size(&self) -> u64 {
        1
    }

    fn quiet_count(&self, _i: u64) -> u16 {
        0
    }

    fn exits(&self, _i: u64) -> Exits {
        let code = ((self.level / 2) % 65536) as u16;
        let drawn = self.level % 2 == 1;
        if code % 2 == 1 {
            Exits {
                least_lost: Some(code - 1),
                greatest_won: None,
                drawn,
            }
        } else if code > 0 {
            Exits {
                least_lost: None,
                greatest_won: Some(code - 1),
                drawn,
            }
        } else {
            Exits {
                least_lost: None,
                greatest_won: None,
                drawn: true,
            }
        }
    }

    fn back(&self, _i: u64, out: &mut Vec<u64>) -> Result<(), AllocError> {
        out.clear();
        Ok(())
    }
}
