//! Lists of nodes.
ghost use Rattle.std.specs.Prelude.{◌≡◌, ℕ, ◌<◌, ◌≤◌, ◌^◌, ◌++◌, ◌∷◌, [], Bool, true, false, List, drop, length, slice_index, slice_set, OnOk, IfOk, vec_len, vec_capacity};
ghost use Rattle.morris_wave.specs.Lists.{contents, list_at};

use std::alloc::{AllocError, Global};

/// A list of nodes, as blocks and batches have it: of 8 bytes a node, or of 4 where all nodes of
/// the graph are below 2^32.
pub trait NodeList: Drop {
    /// The nodes, in their order.
    ghost items: { Self → List ℕ };

    /// Each node is below this number.
    ghost limit: { ℕ };

    /// How many nodes the list has room for.
    ghost capacity: { Self → ℕ };

    /// Whether `forget` lets none go.
    ghost retains: { Bool };

    /// A list of no nodes.
    fn none(alloc: Global) -> Self
        ensures { items result ≡ [] };

    /// A list of no nodes, with room for so many.
    ///
    /// # Errors
    ///
    /// `AllocError` where memory is refused.
    fn with_room(alloc: Global, count: usize) -> Result<Self, AllocError>
        ensures empty { IfOk result (λ list. items list ≡ []) }
        ensures room { IfOk result (λ list. count ≤ capacity list) };

    /// Takes all nodes out. Their room stays.
    fn empty(&mut self)
        ensures items { items self.new ≡ [] }
        ensures room { capacity self.old ≤ capacity self.new };

    /// Puts a node at the end.
    ///
    /// # Errors
    ///
    /// `AllocError` where memory is refused.
    fn add(&mut self, node: u64) -> Result<(), AllocError>
        requires { node < limit }
        ensures { OnOk result (items self.new ≡ items self.old ++ node ∷ []) };

    /// Puts a node at the end of a list that has room for it. It takes no memory.
    fn put_last(&mut self, node: u64)
        requires node { node < limit }
        requires room { length (items self.old) < capacity self.old }
        ensures items { items self.new ≡ items self.old ++ node ∷ [] }
        ensures room { capacity self.old ≤ capacity self.new };

    /// Lets go of the first so many nodes, or of fewer, and says of how many. Their room stays, and
    /// no memory is taken.
    fn forget(&mut self, count: usize) -> usize
        requires { count ≤ length (items self.old) }
        ensures few { result ≤ count }
        ensures items { items self.new ≡ drop result (items self.old) }
        ensures retained { retains ≡ true → result ≡ 0 }
        ensures room { capacity self.old ≤ capacity self.new };

    /// How many nodes there are.
    fn count(&self) -> usize
        ensures { result ≡ length (items self.now) };

    /// The node at a place, counted from 0.
    fn node(&self, place: usize) -> u64
        requires { place < length (items self.now) }
        ensures { result ≡ slice_index (items self.now) place };

    /// How many bytes of memory the list has, used or not.
    fn room(&self) -> usize;
}

impl NodeList for Vec<u64> {
    ghost items = { λ v. v.items };

    ghost limit = { 2 ^ 64 };

    ghost capacity = { λ v. vec_capacity v };

    ghost retains = { true };

    fn none(alloc: Global) -> Vec<u64> {
        Vec::new(alloc)
    }

    fn with_room(alloc: Global, count: usize) -> Result<Vec<u64>, AllocError> {
        let list = Vec::with_capacity(alloc, count)?;
        Ok(list)
    }

    fn empty(&mut self) {
        self.clear();
    }

    fn add(&mut self, node: u64) -> Result<(), AllocError> {
        self.push(node)?;
        Ok(())
    }

    fn put_last(&mut self, node: u64) {
        self.push_reserved(node);
    }

    fn forget(&mut self, _count: usize) -> usize {
        0
    }

    fn count(&self) -> usize {
        self.len()
    }

    fn node(&self, place: usize) -> u64 {
        self[place]
    }

    fn room(&self) -> usize {
        self.capacity().saturating_mul(8)
    }
}

/// A list of 4 bytes a node that lets go of what it is asked to forget.
///
/// A block with such a list retains the nodes that were decided at its wave and at the one before,
/// and no earlier ones, so few of its places are ever used.
#[derive(Drop)]
pub struct Recent {
    nodes: Vec<u32>,
}

impl NodeList for Recent {
    ghost items = { λ r. r.nodes.items };

    ghost limit = { 2 ^ 32 };

    ghost capacity = { λ r. vec_capacity r.nodes };

    ghost retains = { false };

    fn none(alloc: Global) -> Recent {
        Recent {
            nodes: Vec::new(alloc),
        }
    }

    fn with_room(alloc: Global, count: usize) -> Result<Recent, AllocError> {
        let nodes = Vec::with_capacity(alloc, count)?;
        Ok(Recent { nodes })
    }

    fn empty(&mut self) {
        self.nodes.clear();
    }

    fn add(&mut self, node: u64) -> Result<(), AllocError> {
        self.nodes.push(node as u32)?;
        Ok(())
    }

    fn put_last(&mut self, node: u64) {
        self.nodes.push_reserved(node as u32);
    }

    fn forget(&mut self, count: usize) -> usize {
        let left = self.nodes.len() - count;
        self.nodes.copy_within(count.., 0);
        self.nodes.truncate(left);
        count
    }

    fn count(&self) -> usize {
        self.nodes.len()
    }

    fn node(&self, place: usize) -> u64 {
        u64::from(self.nodes[place])
    }

    fn room(&self) -> usize {
        self.nodes.capacity().saturating_mul(4)
    }
}

// Puts a node at the end of one list.
pub(crate) fn put_into<L: NodeList>(
    lists: &mut Vec<L>,
    target: usize,
    node: u64,
) -> Result<(), AllocError>
    requires target { target < vec_len lists.old }
    requires node { node < L.limit }
    ensures len { vec_len lists.new ≡ vec_len lists.old }
    ensures put { OnOk result (contents L.items lists.new.items
        ≡ slice_set (contents L.items lists.old.items) target (list_at (contents L.items lists.old.items) target ++ node ∷ [])) }
{
    let list = &mut lists[target];
    list.add(node)?;
    Ok(())
}
