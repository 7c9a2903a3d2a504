//! Graphs cut into blocks of neighbours.
ghost use Rattle.std.specs.Prelude.{◌≡◌, ℕ, ◌+◌, ◌*◌, ◌/◌, ◌^◌, ◌<◌, ◌≤◌, ◌⊎◌, ◌↔◌, ◌==◌, ◌&&◌, IfOk, IsErr};
ghost use Rattle.morris_wave.specs.Blocks.{IsCut, block_of, IsIn};

use std::marker::Model;
use std::ops::Range;
use thiserror::Error;

// 2^64: a reciprocal counts in such parts.
const WHOLE: u128 = 18446744073709551616;

// 2^32: the square of a size of at most this is at most 2^64, and then a reciprocal is exact
// enough.
const SHORT: u64 = 4294967296;

/// The number of blocks isn't 1 to 1,024.
#[derive(Clone, Copy, Debug, PartialEq, Eq, Error)]
#[error("blocks must be 1 to 1024")]
pub struct Blocks;

/// The nodes of a graph, cut into blocks of neighbours.
///
/// Block `k` of `blocks` holds the nodes from `size * k / blocks` up to, not including,
/// `size * (k + 1) / blocks`, both rounded down.
#[derive(Clone, Copy)]
pub struct Cut {
    size: u64,
    blocks: u64,
}

impl Model for Cut {
    ghost use Rattle.std.specs.Prelude.{◌≤◌, ◌^◌};
    ghost use Rattle.morris_wave.specs.Blocks.{Parts, IsCut};

    ghost Value = { Parts };

    ghost view = { λ c. record { size = c.size; blocks = c.blocks } };

    ghost invariant = { λ c. IsCut (record { size = c.size; blocks = c.blocks }) };

    ghost inverse = { λ p. record { size = p.size; blocks = p.blocks } };
}

impl Cut {
    ghost use Rattle.morris_wave.specs.Blocks.{Parts, first_of};

    /// Cuts `size` nodes, which are at most 2^40, into `blocks` blocks.
    ///
    /// # Errors
    ///
    /// `Blocks` exactly where `blocks` isn't 1 to 1,024.
    pub fn new(size: u64, blocks: u64) -> Result<Cut, Blocks>
        requires { size ≤ 2 ^ 40 }
        ensures ok { IfOk result (λ c. (c.size ≡ size) × (c.blocks ≡ blocks)) }
        ensures refused { IsErr result ↔ ((blocks < 1) ⊎ (1024 < blocks)) }
    {
        if blocks < 1 || blocks > 1024 {
            return Err(Blocks);
        }
        Ok(Cut { size, blocks })
    }

    /// How many nodes there are.
    pub fn size(&self) -> u64
        ensures value { result ≡ self.now.size }
        ensures small { result ≤ 2 ^ 40 }
    {
        self.size
    }

    /// How many blocks there are.
    pub fn blocks(&self) -> u64
        ensures count { result ≡ self.now.blocks }
        ensures some { 1 ≤ result }
        ensures few { result ≤ 1024 }
    {
        self.blocks
    }

    // Whether two cuts are of one size and number of blocks.
    pub(crate) fn is_same(&self, other: &Cut) -> bool
        ensures { result ≡ ((self.now.size == other.now.size) && (self.now.blocks == other.now.blocks)) }
    {
        let same_size = self.size == other.size;
        same_size && self.blocks == other.blocks
    }

    // The first node of block `k`, or the size where `k` is the number of blocks.
    pub(crate) fn first(&self, k: u64) -> u64
        requires { k ≤ self.now.blocks }
        ensures value { result ≡ first_of self.now k }
        ensures within { result ≤ self.now.size }
    {
        let size = self.size;
        size * k / self.blocks
    }

    /// The block that holds node `i`.
    pub fn block_of(&self, i: u64) -> u64
        requires { i < self.now.size }
        ensures value { result ≡ block_of self.now i }
        ensures within { result < self.now.blocks }
        ensures holds { IsIn self.now result i }
        ensures alone { (k : ℕ) → IsIn self.now k i → k ≡ result }
    {
        let size = self.size;
        ((i + 1) * self.blocks - 1) / size
    }

    /// The nodes of block `k`.
    ///
    /// The ranges follow one another without gap from 0 to the size.
    pub fn range(&self, k: u64) -> Range<u64>
        requires { k < self.now.blocks }
        ensures start { result.start ≡ first_of self.now k }
        ensures end { result.end ≡ first_of self.now (k + 1) }
        ensures order { result.start ≤ result.end }
        ensures within { result.end ≤ self.now.size }
        ensures first { k ≡ 0 → result.start ≡ 0 }
        ensures last { k + 1 ≡ self.now.blocks → result.end ≡ self.now.size }
    {
        let _blocks = self.blocks;
        self.first(k)..self.first(k + 1)
    }
}

/// Finds the blocks of nodes of a cut, without a division for each up to 2^32 nodes.
#[derive(Clone, Copy)]
pub(crate) struct Finder {
    pub(crate) cut: Cut,
    // The blocks by the size in parts of 2^64, just below the quotient; 0 where there are more
    // blocks than nodes, so that it doesn't fit, or more than 2^32 nodes, so that it isn't exact
    // enough.
    reciprocal: u64,
    ghost lawful: { IsCut cut },
    ghost small: { 0 < reciprocal → cut.size ≤ 2 ^ 32 },
    ghost below: { 0 < reciprocal → reciprocal * cut.size < cut.blocks * 2 ^ 64 },
    ghost above: { 0 < reciprocal → cut.blocks * 2 ^ 64 ≤ reciprocal * cut.size + cut.size },
}

impl Finder {
    pub(crate) fn new(cut: &Cut) -> Finder
        ensures { result.cut ≡ cut.now }
    {
        let size = cut.size();
        let reciprocal = if cut.blocks() <= size && size <= SHORT {
            reciprocal_of(cut.blocks(), size)
        } else {
            0
        };
        Finder {
            cut: *cut,
            reciprocal,
        }
    }

    // The block that holds node `i`.
    pub(crate) fn find(&self, i: u64) -> u64
        requires { i < self.now.cut.size }
        ensures value { result ≡ block_of self.now.cut i }
        ensures within { result < self.now.cut.blocks }
        ensures holds { IsIn self.now.cut result i }
    {
        if self.reciprocal > 0 {
            // The product lacks so little of the quotient that its high half is the block.
            let (_, block) = (i + 1).carrying_mul(self.reciprocal, 0);
            block
        } else {
            self.cut.block_of(i)
        }
    }
}

// The blocks by the size in parts of 2^64: the greatest number of them below the quotient.
fn reciprocal_of(blocks: u64, size: u64) -> u64
    requires some { 1 ≤ blocks }
    requires few { blocks ≤ size }
    ensures below { result * size < blocks * 2 ^ 64 }
    ensures above { blocks * 2 ^ 64 ≤ result * size + size }
{
    ((u128::from(blocks) * WHOLE - 1) / u128::from(size)) as u64
}
