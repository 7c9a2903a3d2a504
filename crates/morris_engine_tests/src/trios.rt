//! Three nodes, of which two have several exits.
ghost use Rattle.std.specs.Prelude.{◌≡◌};
ghost use Rattle.morris_engine_tests.specs.Samples.{trio_net, trio_lawful};

use morris_wave::{Exits, Graph, Levels};
use std::alloc::AllocError;

/// Node 2 leads to node 1. The exits of node 0 are of codes 5 and 2, those of node 1 of codes 2 and
/// 8, and that of node 2 of code 43. Every level is alike.
///
/// So node 0 is won in 5, node 1 lost in 8 and node 2 won in 9.
pub struct Trios;

impl Levels for Trios {
    ghost net = { λ _. trio_net };

    ghost lawful = { λ _. trio_lawful };
}

/// A graph of [`Trios`].
#[derive(Drop)]
pub struct TrioGraph;

impl Graph for TrioGraph {
    type Name = Trios;

    ghost level = { λ _. 0 };

    fn level(&self) -> u64 {
        0
    }

    fn size(&self) -> u64 {
        3
    }

    fn quiet_count(&self, i: u64) -> u16 {
        if i == 2 { 1 } else { 0 }
    }

    fn exits(&self, i: u64) -> Exits {
        if i == 0 {
            Exits {
                least_lost: Some(4),
                greatest_won: Some(1),
                drawn: false,
            }
        } else if i == 1 {
            Exits {
                least_lost: None,
                greatest_won: Some(7),
                drawn: false,
            }
        } else {
            Exits {
                least_lost: Some(42),
                greatest_won: None,
                drawn: false,
            }
        }
    }

    fn back(&self, i: u64, out: &mut Vec<u64>) -> Result<(), AllocError> {
        out.clear();
        if i == 1 {
            out.push(2)?;
        }
        Ok(())
    }
}
