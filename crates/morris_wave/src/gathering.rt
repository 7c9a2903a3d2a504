//! The codes of a graph, gathered from its blocks.
ghost use Rattle.std.specs.Prelude.{◌≡◌, ℕ, ◌+◌, ◌<◌, ◌≤◌, true, false, Option, Some, None, [], length, is_some, slice_index, slice_index_or, IfOk, OnOk, IfErr, IfSome, IfNone, vec_len};
ghost use Rattle.std.specs.List.{All};
ghost use Rattle.morris_wave.specs.Values.{code_within};
ghost use Rattle.morris_wave.specs.Blocks.{BlockState, IsCut, first_node, count_of, is_complete};
ghost use Rattle.morris_wave.specs.Gathering.{complaint, first_complaint, HasAll, IsGatherFault, Fits, ArePlaces, AreKnown, IsGathered};

use crate::block::Block;
use crate::codes::Codes;
use crate::cut::Cut;
use crate::graph::Levels;
use crate::node_list::NodeList;
use std::alloc::{AllocError, Global};
use thiserror::Error;

/// Why blocks weren't gathered.
#[derive(Clone, Copy, Debug, PartialEq, Eq, Error)]
pub enum GatherFault {
    /// The block at this place is of another level or cut.
    #[error("block at {0} is of another build")]
    Foreign(usize),
    /// A second block of this number.
    #[error("block {0} came twice")]
    Double(u64),
    /// The block of this number isn't complete at the wave, or didn't come.
    #[error("block {0} is not complete")]
    Missing(u64),
    /// Want of memory.
    #[error("out of memory")]
    Memory,
}

impl From<AllocError> for GatherFault {
    ghost use Rattle.morris_wave.specs.declared.gathering.GatherFault.TheVariants.{Memory};

    ghost from_gives = { λ _ e. e ≡ Memory };

    fn from(_fault: AllocError) -> GatherFault {
        GatherFault::Memory
    }
}

// One more than the greatest number of a block.
const NUMBERS: usize = 1024;

// What speaks against a block at its place, after those whose places are known.
fn complaint<N: Levels, L: NodeList>(
    block: &Block<N, L>,
    place: usize,
    level: u64,
    wave: u16,
    cut: &Cut,
    places: &[Option<usize>],
) -> Option<GatherFault>
    requires { length places.now ≡ 1024 }
    ensures value { result ≡ complaint level wave cut.now place (is_some (slice_index_or places.now block.now.number None)) block.now }
    ensures number { block.now.number < 1024 }
{
    let number = block.number();
    let _blocks = block.cut.blocks();
    if block.level() != level || !block.cut.is_same(cut) {
        return Some(GatherFault::Foreign(place));
    }
    if places[number as usize].is_some() {
        return Some(GatherFault::Double(number));
    }
    if block.wave() == wave && block.is_complete() {
        None
    } else {
        Some(GatherFault::Missing(number))
    }
}

// Where the block of each number stands, unless something speaks against one of them.
fn walk<N: Levels, L: NodeList>(
    level: u64,
    wave: u16,
    cut: &Cut,
    blocks: &[Block<N, L>],
) -> Result<[Option<usize>; NUMBERS], GatherFault>
    ensures ok { IfOk result (λ places. ArePlaces blocks.now places) }
    ensures walked { OnOk result (first_complaint level wave cut.now [] blocks.now ≡ None) }
    ensures err { IfErr result (λ e. first_complaint level wave cut.now [] blocks.now ≡ Some e) }
{
    let mut places = [None; NUMBERS];
    for (place, block) in blocks.iter().enumerate() {
        if let Some(fault) = complaint(block, place, level, wave, cut, &places) {
            return Err(fault);
        }
        places[block.number() as usize] = Some(place);
    }
    Ok(places)
}

// The least number of the cut that has no place.
fn first_absent(cut: &Cut, places: &[Option<usize>]) -> Option<u64>
    requires { length places.now ≡ 1024 }
    ensures few { cut.now.blocks ≤ 1024 }
    ensures none { IfNone result ((k : ℕ) → k < cut.now.blocks → is_some (slice_index_or places.now k None) ≡ true) }
    ensures absent { IfSome result (λ k. (k < cut.now.blocks) × (is_some (slice_index_or places.now k None) ≡ false)) }
    ensures least { IfSome result (λ k. (m : ℕ) → m < k → is_some (slice_index_or places.now m None) ≡ true) }
{
    for number in 0..cut.blocks() {
        if places[number as usize].is_none() {
            return Some(number);
        }
    }
    None
}

// Where the block of each number stands, if each block of the cut came and nothing speaks against
// one of them.
fn places_of<N: Levels, L: NodeList>(
    level: u64,
    wave: u16,
    cut: &Cut,
    blocks: &[Block<N, L>],
) -> Result<[Option<usize>; NUMBERS], GatherFault>
    ensures places { IfOk result (λ places. ArePlaces blocks.now places) }
    ensures walked { OnOk result (first_complaint level wave cut.now [] blocks.now ≡ None) }
    ensures all { OnOk result (HasAll cut.now blocks.now) }
    ensures fault { IfErr result (IsGatherFault level wave cut.now blocks.now) }
{
    let places = walk(level, wave, cut, blocks)?;
    match first_absent(cut, &places) {
        Some(number) => Err(GatherFault::Missing(number)),
        None => Ok(places),
    }
}

// The entries of a block.
fn entries_of<N: Levels, L: NodeList>(block: &Block<N, L>) -> &Codes
    ensures cut { IsCut block.now.cut }
    ensures size { (N.net block.now.level).size ≡ block.now.cut.size }
    ensures wave { block.now.wave ≤ 65534 }
    ensures len { length result.now ≡ count_of block.now }
    ensures codes { is_complete block.now ≡ true → (k : ℕ) → k < count_of block.now
        → slice_index result.now k ≡ code_within (N.net block.now.level) (block.now.wave + 1) (first_node block.now + k) }
{
    &block.node_range.entries.codes
}

// The entries of all blocks, in the order of their numbers.
fn in_order<N: Levels, L: NodeList>(
    alloc: Global,
    level: u64,
    wave: u16,
    cut: &Cut,
    blocks: &[Block<N, L>],
    places: &[Option<usize>],
) -> Result<Vec<u16>, AllocError>
    requires places { ArePlaces blocks.now places.now }
    requires all { HasAll cut.now blocks.now }
    requires fit { All (Fits level wave cut.now) blocks.now }
    ensures { IfOk result (AreKnown (N.net level) wave cut.now) }
{
    let mut codes = Vec::with_capacity(alloc, cut.size() as usize)?;
    for number in 0..cut.blocks() {
        let Some(place) = places[number as usize] else {
            unreachable!()
        };
        entries_of(&blocks[place]).add_to(&mut codes)?;
    }
    Ok(codes)
}

/// The codes of all nodes, gathered from the blocks of a graph at a complete wave.
///
/// A node's code is there if its depth is at most the wave; otherwise its entry is 0. Where all
/// blocks are settled, these are the codes of all nodes, and the graph isn't too deep.
///
/// # Errors
///
/// Goes through the blocks in their order: `Foreign` with the place of a block of another level or
/// cut, `Double` with a number that already came, `Missing` with the number of a block that isn't
/// complete at the wave. Then `Missing` with the least number that didn't come, and `Memory` at
/// last.
pub fn gather<N: Levels, L: NodeList>(
    alloc: Global,
    level: u64,
    wave: u16,
    cut: &Cut,
    blocks: &[Block<N, L>],
) -> Result<Vec<u16>, GatherFault>
    ensures gathered { IfOk result (IsGathered (N.net level) level wave cut.now blocks.now) }
    ensures fault { IfErr result (IsGatherFault level wave cut.now blocks.now) }
{
    let places = places_of(level, wave, cut, blocks)?;
    let codes = in_order(alloc, level, wave, cut, blocks, &places)?;
    Ok(codes)
}

// Whether the block of each number stands at that place.
fn are_in_order<N: Levels, L: NodeList>(blocks: &[Block<N, L>]) -> bool
    ensures { result ≡ true → (k : ℕ) (d : BlockState) → k < length blocks.now → (slice_index_or blocks.now k d).number ≡ k }
{
    for (place, block) in blocks.iter().enumerate() {
        if block.number() != place as u64 {
            return false;
        }
    }
    true
}

// The entries of all blocks, which stand in the order of their numbers. Each is let go once it was
// copied.
fn drain_codes<N: Levels, L: NodeList>(
    alloc: Global,
    level: u64,
    wave: u16,
    cut: &Cut,
    blocks: Vec<Block<N, L>>,
) -> Result<Vec<u16>, AllocError>
    requires count { vec_len blocks ≡ cut.now.blocks }
    requires order { (k : ℕ) (d : BlockState) → k < length blocks.items → (slice_index_or blocks.items k d).number ≡ k }
    requires fit { All (Fits level wave cut.now) blocks.items }
    ensures { IfOk result (AreKnown (N.net level) wave cut.now) }
{
    let _blocks = cut.blocks();
    let mut codes = Vec::with_capacity(alloc, cut.size() as usize)?;
    for block in blocks {
        entries_of(&block).add_to(&mut codes)?;
    }
    Ok(codes)
}

/// The codes that `gather` gives. It takes the blocks, and where they stand in the order of their
/// numbers it lets each go once its codes are copied, so that answer and blocks are never there as
/// a whole.
///
/// # Errors
///
/// As `gather`.
pub fn gather_from<N: Levels, L: NodeList>(
    alloc: Global,
    level: u64,
    wave: u16,
    cut: &Cut,
    blocks: Vec<Block<N, L>>,
) -> Result<Vec<u16>, GatherFault>
    ensures gathered { IfOk result (IsGathered (N.net level) level wave cut.now blocks.items) }
    ensures fault { IfErr result (IsGatherFault level wave cut.now blocks.items) }
{
    if blocks.len() as u64 != cut.blocks() || !are_in_order(&blocks) {
        return gather(alloc, level, wave, cut, &blocks);
    }
    places_of(level, wave, cut, &blocks)?;
    let codes = drain_codes(alloc, level, wave, cut, blocks)?;
    Ok(codes)
}
