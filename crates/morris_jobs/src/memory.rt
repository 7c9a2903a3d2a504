//! About how much memory it takes to make the table of a pair.
//!
//! It is the sum of all that is in memory at once: the entries of the blocks, the lists of those
//! that captures decide, what the workers hold of the blocks that they work on, and the tables of
//! the pairs that captures lead to; or, where that is more, what it takes to put the codes of rows
//! into the order of the entries. Only two numbers are estimates, taken from counts on the usual
//! board: how many entries captures decide, and how many entries of a block are fresh at one wave.
ghost use Rattle.std.specs.Prelude.{◌^◌, ◌<◌, ◌≤◌};

use crate::context::Parallelism;
use morris_board::board::Geometry;
use morris_index::binomials::binomial;
use morris_index::pair::Pair;
use morris_pairs::layout::Layout;
use morris_table::building::is_by_rows;

/// Bytes of the program itself.
pub(crate) const BASE: u64 = 5_000_000;

/// Bytes of a worker: its thread, the batches of the piece that it works on, and the lists that it
/// uses again for the next piece.
const WORKER: u64 = 700_000;

/// Bytes of an entry of a table: its code.
pub(crate) const CODE: u64 = 2;

/// Bytes of a set of stones of a table by classes: 8 for its class, and 1 for its part of what
/// there is for each class, which is 12 bytes for some 16 sets.
const SET: u64 = 9;

/// Bytes of an entry of the pair that is built: its code, and a counter of the results that it
/// waits for. Both have a byte while no depth is above 254.
const OPEN: u64 = 2;

/// Bytes of an entry that captures decide, in the list of its wave: its distance from the entry
/// before it.
const GAP: u64 = 2;

/// Bytes of an entry that its block has just decided, or in a batch that one block sends to
/// another: its number, where the pair has no more than 2^32 entries.
const LISTED: u64 = 4;

/// Bytes of such a number where the pair has more, in a list of a sweep, and where a worker takes
/// it out of a block to find its predecessors.
const WIDE: u64 = 8;

/// Bytes that a block has for each block, itself included: whether all is applied that comes from
/// there, and from which node on.
const SOURCE: u64 = 9;

/// A list of so many bytes goes back to the system as soon as it is freed, as `./morris` tells the
/// C library, which holds on to shorter ones.
const GIVEN_BACK: u64 = 49_152;

/// How many parts a whole is counted in.
const WHOLE: u64 = 1000;

/// Bytes of a set of as many points as the side with fewer stones has, while a pair is built by
/// rows: what the moves of these stones are.
const MOVES: u64 = 28;

/// In how many of 1,000 positions of the usual board the player to move can close a mill: by the
/// stones of that player, 3 to 9, and in each row by those of the other one.
const CLOSING: [[u16; 7]; 7] = [
    [392, 372, 352, 332, 311, 291, 270],
    [99, 93, 88, 82, 76, 70, 64],
    [219, 206, 193, 179, 166, 152, 139],
    [372, 349, 327, 304, 280, 257, 233],
    [529, 499, 468, 436, 402, 368, 332],
    [667, 633, 597, 557, 515, 471, 423],
    [773, 739, 700, 657, 609, 556, 497],
];

/// About how many bytes a table of a pair with so many entries takes once it is made: its codes,
/// and by classes the sets of either player's stones.
pub(crate) fn bytes_of_table<B: Geometry>(pair: Pair<B>, layout: Layout, entries: u64) -> u64 {
    let codes = CODE.saturating_mul(entries);
    match layout {
        Layout::Full => codes,
        Layout::Classes => {
            let sets = binomial(B::POINTS, pair.greater()) + binomial(B::POINTS, pair.lesser());
            codes.saturating_add(SET * sets)
        }
    }
}

/// About how many bytes it takes at once to make the table of a pair with so many entries, apart
/// from the table itself once it is made: in parallel, or by a sweep on one thread.
pub(crate) fn bytes_of_making<B: Geometry>(
    pair: Pair<B>,
    layout: Layout,
    entries: u64,
    parallelism: Option<Parallelism>,
) -> u64 {
    let due = entries.saturating_mul(due_share(pair)) / WHOLE;
    let Some(parallelism) = parallelism else {
        // A sweep has the numbers of all decided entries in memory until the table is made. There
        // are some five of them for two that captures decide.
        let decided = (due.saturating_mul(5) / 2).min(entries);
        return entries
            .saturating_mul(OPEN)
            .saturating_add(decided.saturating_mul(WIDE));
    };
    // For every four entries that captures decide, quiet moves decide one more while most of them
    // are in a list.
    let listed = due
        .saturating_mul(GAP)
        .saturating_add((due / 4).saturating_mul(listed_bytes(entries)));
    // Each block is freed once its codes are in the table, so the blocks and the table are never
    // there in full at the same time, unless the lists of blocks are short. Nothing is listed any
    // more then.
    let solving = listed
        .max(bytes_retained(entries, parallelism.blocks as u64))
        .saturating_add(SOURCE * (parallelism.blocks * parallelism.blocks) as u64)
        .saturating_add(bytes_of_workers(pair, entries, parallelism));
    if layout == Layout::Full || !is_by_rows(pair) {
        return solving;
    }
    // By rows there are as many nodes as entries, or up to a tenth less. Once the blocks are gone,
    // the codes of the second half are made anew, beside those of all nodes.
    let anew = (entries / 2).saturating_mul(CODE);
    solving.max(anew).saturating_add(bytes_of_rows(pair))
}

/// About how many bytes of the blocks' lists the C library holds on to while their codes are put
/// into the table. A block has for each entry a code of one byte, a counter of one byte, and one
/// spare byte; as measured, most of the spare bytes hold what was there before.
fn bytes_retained(entries: u64, blocks: u64) -> u64
    requires { 0 < blocks }
{
    if entries / blocks >= GIVEN_BACK {
        return 0;
    }
    entries.saturating_mul(11) / 4
}

/// About how many bytes it takes to find the rows of a pair and the moves in them: a second table
/// of the classes of the sets of the side with more stones, and the moves of each set of the other
/// side.
fn bytes_of_rows<B: Geometry>(pair: Pair<B>) -> u64 {
    let classes = SET * binomial(B::POINTS, pair.greater());
    let moves = MOVES * binomial(B::POINTS, pair.lesser());
    classes + moves
}

/// About how many bytes the workers hold: what each of them has in any case, and the fresh entries
/// of the block at which it is. No two are at one block.
fn bytes_of_workers<B: Geometry>(pair: Pair<B>, entries: u64, parallelism: Parallelism) -> u64 {
    let closing = closing_share(pair.greater(), pair.lesser());
    let block = entries / parallelism.blocks as u64;
    // Where a capture leaves two stones, all entries with one are fresh at once, and in some blocks
    // there are twice as many as on average. Else they are fresh at many waves, and some three in
    // five at most at one of them.
    let share = if pair.lesser() == 3 {
        2 * closing
    } else {
        3 * closing / 5
    };
    let fresh = (block.saturating_mul(share) / WHOLE).min(block);
    WORKER
        .saturating_add(fresh.saturating_mul(WIDE))
        .saturating_mul(parallelism.workers.min(parallelism.blocks) as u64)
}

/// How many bytes an entry of so many takes in a list.
fn listed_bytes(entries: u64) -> u64 {
    if entries <= 1 << 32 { LISTED } else { WIDE }
}

/// In how many of 1,000 positions of a pair captures decide, as far as the numbers of stones say.
fn due_share<B: Geometry>(pair: Pair<B>) -> u64 {
    let (greater, lesser) = (pair.greater(), pair.lesser());
    (closing_share(greater, lesser) + closing_share(lesser, greater)) / 2
}

/// The same of the positions in which the player to move has `own` stones, and the opponent
/// `other`.
fn closing_share(own: u8, other: u8) -> u64
    requires own { (3 ≤ own) × (own ≤ 9) }
    requires other { (3 ≤ other) × (other ≤ 9) }
    ensures { result < 2 ^ 16 }
{
    if is_decided(own, other - 1) {
        u64::from(CLOSING[own as usize - 3][other as usize - 3])
    } else {
        0
    }
}

/// Whether most positions are won or lost in which a player has `left` stones after a capture, and
/// the player who captured `own`. Two stones have lost, and of positions with three on either side
/// few are drawn. Else it takes three stones more to win, and four more against three stones, which
/// may jump; and a player with fewer stones after a capture loses when four behind.
fn is_decided(own: u8, left: u8) -> bool {
    if left == 2 || (own == 3 && left == 3) {
        true
    } else if own > left {
        own - left >= if left == 3 { 4 } else { 3 }
    } else {
        left - own >= 4
    }
}
