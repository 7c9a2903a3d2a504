//! A graph in which workers meet while they look at it.
ghost use Rattle.std.specs.Prelude.{◌≡◌};

use crate::bares::{BareGraph, Bares};
use crate::flags::Flags;
use morris_wave::{Exits, Graph};
use std::alloc::AllocError;

/// In which call whoever looks at node 0 waits for the one who looks at the other nodes.
#[derive(Clone, Copy, PartialEq, Eq)]
pub enum Meeting {
    /// While nodes are read, which is where blocks are made.
    ReadNodes,
    /// While predecessors are listed, which is where a block is sent from.
    Back,
}

/// A graph of [`Bares`] in which two workers meet. It is to be cut so that node 0 has a block for
/// itself.
#[derive(Drop)]
pub struct MeetingGraph {
    bare: BareGraph,
    meeting: Meeting,
    flags: Flags,
}

impl MeetingGraph {
    /// A graph of two nodes, at which nobody has looked.
    pub fn new(meeting: Meeting) -> MeetingGraph {
        MeetingGraph {
            bare: BareGraph { level: 2 },
            meeting,
            flags: Flags::new(),
        }
    }

    /// Whether two have met, and nobody has waited in vain.
    pub fn have_met(&self) -> bool {
        self.flags.have_met()
    }

    // Whoever comes to the meeting waits for the other. Whether that was in vain the flags know.
    fn come(&self, meeting: Meeting, is_left: bool) {
        if self.meeting == meeting {
            let _ = self.flags.meet(is_left);
        }
    }
}

impl Graph for MeetingGraph {
    type Name = Bares;

    ghost level = { λ g. g.bare.level };

    fn level(&self) -> u64 {
        self.bare.level()
    }

    fn size(&self) -> u64 {
        self.bare.size()
    }

    fn quiet_count(&self, i: u64) -> u16 {
        self.bare.quiet_count(i)
    }

    fn exits(&self, i: u64) -> Exits {
        self.bare.exits(i)
    }

    fn read_nodes(&self, first: u64, counts: &mut [u16], exits: &mut [Exits]) {
        self.come(Meeting::ReadNodes, first == 0);
        self.bare.read_nodes(first, counts, exits);
    }

    fn back(&self, i: u64, out: &mut Vec<u64>) -> Result<(), AllocError> {
        self.come(Meeting::Back, i == 0);
        self.bare.back(i, out)
    }
}
