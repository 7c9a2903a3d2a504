//! Two nodes, of which one is won in 41 and the other lost in 42.
ghost use Rattle.std.specs.Prelude.{◌≡◌};
ghost use Rattle.morris_engine_tests.specs.Samples.{pair_net, pair_lawful};

use morris_wave::{Exits, Graph, Levels};
use std::alloc::AllocError;

/// Node 0 leads to node 1, which has a drawn exit and one of code 41. Every level is alike.
///
/// So node 1 is won in 41 and node 0 lost in 42.
pub struct Pairs;

impl Levels for Pairs {
    ghost net = { λ _. pair_net };

    ghost lawful = { λ _. pair_lawful };
}

/// A graph of [`Pairs`].
#[derive(Drop)]
pub struct PairGraph {
    /// Its number within its family.
    pub level: u64,
    /// Whether it refuses memory for predecessors.
    pub refuses: bool,
}

impl Graph for PairGraph {
    type Name = Pairs;

    ghost level = { λ g. g.level };

    fn level(&self) -> u64 {
        self.level
    }

    fn size(&self) -> u64 {
        2
    }

    fn quiet_count(&self, i: u64) -> u16 {
        if i == 0 { 1 } else { 0 }
    }

    fn exits(&self, i: u64) -> Exits {
        if i == 0 {
            Exits {
                least_lost: None,
                greatest_won: None,
                drawn: false,
            }
        } else {
            Exits {
                least_lost: Some(40),
                greatest_won: None,
                drawn: true,
            }
        }
    }

    fn back(&self, i: u64, out: &mut Vec<u64>) -> Result<(), AllocError> {
        out.clear();
        if self.refuses {
            return Err(AllocError);
        }
        if i == 1 {
            out.push(0)?;
        }
        Ok(())
    }
}
