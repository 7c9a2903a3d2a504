//! The blocks of a graph, made side by side.
ghost use Rattle.std.specs.Prelude.{◌≡◌, ◌≤◌, length};
ghost use Rattle.std.specs.List.{All};
ghost use Rattle.std.specs.List.Sorted.{IsPermutation, IsNonDecreasingBy};
ghost use Rattle.morris_workers.specs.Making.{IsPlan, IsShare, AreDrawn, AreAllDrawn, AreBoth};
ghost use Rattle.morris_workers.specs.Tickets.{IsNewSeatOf};

use crate::fault::{LAST_WAVE, SolveFault};
use crate::tickets::{TicketSeat, Tickets};
use morris_wave::{Block, Cut, Graph, Levels, NoProgress, NodeList, Watch};
use std::alloc::{AllocError, Global};
use std::thread;
use std::thread::Threads;

// The blocks of the numbers that a worker draws until none is left. An exit that comes due after
// the last wave shows at once that the graph is too deep. After each block the watch gets a report
// that no entry is done yet, so that it can show that work goes on.
fn make_drawn<L: NodeList, G: Graph, W: Watch>(
    alloc: Global,
    graph: &G,
    cut: &Cut,
    tickets: &Tickets,
    seat: &mut TicketSeat,
    watch: &mut W,
) -> Result<Vec<Block<G::Name, L>>, SolveFault>
    requires plan { IsPlan (G.Name.net (G.level graph.now)) L.limit cut.now tickets.now }
    requires seat { IsNewSeatOf tickets.now seat.old }
    ensures drawn { AreDrawn tickets.now (G.Name.net (G.level graph.now)) seat.new result }
    ensures reported { W.becomes watch.old watch.new }
{
    let mut made = Vec::new(alloc);
    while let Some(number) = tickets.draw(seat) {
        let block = Block::make_as(alloc, graph, cut, number)?;
        if block.last_due() > u32::from(LAST_WAVE) {
            return Err(SolveFault::TooDeep);
        }
        made.push(block).map_err(AllocError::from)?;
        watch.entries(0);
    }
    Ok(made)
}

// The elements of both lists, or the first fault.
fn both<T: Drop>(
    first: Result<Vec<T>, SolveFault>,
    second: Result<Vec<T>, SolveFault>,
) -> Result<Vec<T>, SolveFault>
    ensures { AreBoth first second result }
{
    let mut all = first?;
    all.append(&mut second?)?;
    Ok(all)
}

// Has workers with these seats make their blocks, each in a thread of its own where one can be
// started. This thread starts them one after the other, for the reason of the waves' workers. The
// first one is at work in this thread, and reports to the watch.
#[cycle(making)]
fn make_all<L: NodeList + Send, G: Graph + Sync, R: Threads + Sync, W: Watch>(
    rt: &R,
    alloc: Global,
    graph: &G,
    cut: &Cut,
    tickets: &Tickets,
    seats: &mut [TicketSeat],
    watch: &mut W,
) -> Result<Vec<Block<G::Name, L>>, SolveFault>
    requires plan { IsPlan (G.Name.net (G.level graph.now)) L.limit cut.now tickets.now }
    requires new { All (IsNewSeatOf tickets.now) seats.old }
    ensures count { length seats.new ≡ length seats.old }
    ensures drawn { AreAllDrawn tickets.now (G.Name.net (G.level graph.now)) seats.new result }
    ensures reported { W.becomes watch.old watch.new }
{
    let Some((last, rest)) = seats.split_last_mut() else {
        return Ok(Vec::new(alloc));
    };
    if rest.is_empty() {
        return make_drawn::<L, G, W>(alloc, graph, cut, tickets, last, watch);
    }
    let mut aside = || -> Result<Vec<Block<G::Name, L>>, SolveFault>
        requires { IsPlan (G.Name.net (G.level graph.now)) L.limit cut.now tickets.now × IsNewSeatOf tickets.now last.now }
        ensures { AreDrawn tickets.entry.now (G.Name.net (G.level graph.entry.now)) last.exit.now result }
    { make_drawn::<L, G, NoProgress>(alloc, graph, cut, tickets, last, &mut NoProgress) };
    let mut here = || -> Result<Vec<Block<G::Name, L>>, SolveFault>
        requires { IsPlan (G.Name.net (G.level graph.now)) L.limit cut.now tickets.now × All (IsNewSeatOf tickets.now) rest.now }
        ensures { (length rest.exit.now ≡ length rest.entry.now)
            × AreAllDrawn tickets.entry.now (G.Name.net (G.level graph.entry.now)) rest.exit.now result
            × W.becomes watch.entry.now watch.exit.now }
    { make_all::<L, G, R, W>(rt, alloc, graph, cut, tickets, rest, watch) };
    let (more, made) = thread::join_mut(rt, &mut aside, &mut here);
    both(made, more)
}

// Sorts blocks by their numbers.
fn sort<N: Levels, L: NodeList>(blocks: &mut Vec<Block<N, L>>)
    ensures same { IsPermutation blocks.old.items blocks.new.items }
    ensures order { IsNonDecreasingBy (λ s. s.number) blocks.new.items }
{
    blocks.sort_unstable_by_key(|block| block.number());
}

/// The blocks of a cut, in the order of their numbers, with lists of the kind `L`. There is a
/// worker for each share. The workers draw the numbers of the blocks that they make until none is
/// left, so that they end at about the same time however much a block costs. After each block that
/// this thread makes it reports to the watch that no entry is done.
///
/// # Errors
///
/// `TooDeep` where an exit comes due after the last wave, `Memory` where memory is refused, and
/// nothing else.
pub(crate) fn make_blocks<L: NodeList + Send, G: Graph + Sync, R: Threads + Sync, W: Watch>(
    rt: &R,
    alloc: Global,
    graph: &G,
    cut: &Cut,
    shares: &Cut,
    watch: &mut W,
) -> Result<Vec<Block<G::Name, L>>, SolveFault>
    requires size { cut.now.size ≡ (G.Name.net (G.level graph.now)).size }
    requires short { cut.now.size ≤ L.limit }
    ensures share { IsShare (G.Name.net (G.level graph.now)) 0 cut.now.blocks result }
    ensures reported { W.becomes watch.old watch.new }
{
    // Tickets have at most 64 seats.
    let workers = shares.blocks().min(64) as usize;
    let (tickets, mut seats) = Tickets::new(alloc, cut.blocks(), workers)?;
    let mut blocks = make_all::<L, G, R, W>(
        rt,
        alloc,
        graph,
        cut,
        &tickets,
        seats.as_mut_slice(),
        watch,
    )?;
    // The proof learns here that each number below the limit was drawn once.
    let _drawn = tickets.close(seats);
    sort(&mut blocks);
    Ok(blocks)
}
