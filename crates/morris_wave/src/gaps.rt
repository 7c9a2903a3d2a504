//! Ascending nodes, in 2 bytes each.
ghost use Rattle.std.specs.Prelude.{◌≡◌, ◌+◌, ◌++◌, ◌∷◌, ◌<◌, ◌≤◌, ◌^◌, [], IfOk, OnOk, length};
ghost use Rattle.std.specs.List.{All};
ghost use Rattle.morris_wave.specs.Gaps.{numbers_reported, next_reported};

use crate::node_list::NodeList;
use std::alloc::{AllocError, Global};

// A gap that no node follows.
pub(crate) const FAR: u64 = 65535;

// How many gaps are read at a time.
pub(crate) const AT_ONCE: usize = 256;

// Nodes in ascending order, each stored as how many nodes are left out before it. So a node takes 2
// bytes, however many the graph has; only where more than 65,534 are left out it takes 2 more for
// each 65,535 of them.
#[derive(Drop)]
pub(crate) struct Gaps {
    // The first node is at least this.
    pub(crate) first: u64,
    // The least node that can come next.
    pub(crate) next: u64,
    pub(crate) gaps: Vec<u16>,
    ghost reported: { next ≡ next_reported first gaps.items },
    ghost small: { next ≤ 2 ^ 40 },
}

impl Gaps {
    ghost use Rattle.morris_wave.specs.GapLists.{nodes_of};

    // No nodes.
    pub(crate) fn none(alloc: Global) -> Gaps
        ensures { nodes_of result ≡ [] }
    {
        Gaps {
            first: 0,
            next: 0,
            gaps: Vec::new(alloc),
        }
    }

    // No nodes, with room for so many gaps. The first node will be at least `first`.
    pub(crate) fn with_room(alloc: Global, first: u64, room: usize) -> Result<Gaps, AllocError>
        requires { first ≤ 2 ^ 40 }
        ensures empty { IfOk result (λ list. nodes_of list ≡ []) }
        ensures next { IfOk result (λ list. list.next ≡ first) }
    {
        let gaps = Vec::with_capacity(alloc, room)?;
        Ok(Gaps {
            first,
            next: first,
            gaps,
        })
    }

    // Puts a node at the end.
    pub(crate) fn put(&mut self, node: u64) -> Result<(), AllocError>
        requires next { self.old.next ≤ node }
        requires small { node < 2 ^ 40 }
        ensures nodes { OnOk result (nodes_of self.new ≡ nodes_of self.old ++ node ∷ []) }
        ensures next { OnOk result (self.new.next ≡ node + 1) }
    {
        for _ in 0..(node - self.next) / FAR {
            self.leave_out()?;
        }
        self.gaps.push((node - self.next) as u16)?;
        self.next = node + 1;
        Ok(())
    }

    // Leaves out as many nodes as one gap can.
    #[inline(never)]
    fn leave_out(&mut self) -> Result<(), AllocError>
        requires { self.old.next + 65535 ≤ 2 ^ 40 }
        ensures nodes { OnOk result (nodes_of self.new ≡ nodes_of self.old) }
        ensures next { OnOk result (self.new.next ≡ self.old.next + 65535) }
    {
        self.gaps.push(u16::MAX)?;
        self.next += FAR;
        Ok(())
    }
}

// Writes the nodes of some gaps, the first of which is at least `from`, into a list with room for
// as many, in place of what stands there. Says the least node that can come next. It takes no
// memory.
pub(crate) fn read_gaps<L: NodeList>(from: u64, gaps: &[u16], nodes: &mut L) -> u64
    requires small { from ≤ 2 ^ 40 }
    requires few { length gaps.now ≤ 256 }
    requires short { All (λ i. i < L.limit) (numbers_reported from gaps.now) }
    requires room { 256 ≤ L.capacity nodes.old }
    ensures nodes { L.items nodes.new ≡ numbers_reported from gaps.now }
    ensures next { result ≡ next_reported from gaps.now }
    ensures room { 256 ≤ L.capacity nodes.new }
{
    nodes.empty();
    let mut next = from;
    for gap in gaps {
        next += u64::from(*gap);
        if *gap != u16::MAX {
            nodes.put_last(next);
            next += 1;
        }
    }
    next
}
