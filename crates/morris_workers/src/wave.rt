//! Waves, by several workers.
ghost use Rattle.std.specs.Prelude.{◌≡◌, ◌⊎◌, ℕ, ◌+◌, ◌<◌, ◌≤◌, false, length, IfOk, OnOk, IfSome, IfErr};
ghost use Rattle.std.specs.List.{All};
ghost use Rattle.morris_wave.specs.Blocks.{next_wave_of};
ghost use Rattle.morris_workers.specs.Ranges.{Tells};
ghost use Rattle.morris_workers.specs.Tickets.{IsSeatOf, IsNewSeatOf, HasDrawn};
ghost use Rattle.morris_workers.specs.Working.{IsBack};

use crate::fault::{LAST_WAVE, SolveFault};
use crate::gate::{Gate, Turn};
use crate::tickets::{TicketSeat, Tickets};
use crate::wave_barrier::WaveBarrier;
use crate::yard::Yard;
use morris_wave::{
    Batch, Block, Cut, Fresh, Graph, Levels, NoProgress, NodeList, Watch, scatter_reusing,
};
use std::alloc::{AllocError, Global};
use std::sync::Wait;
use std::thread;
use std::thread::Threads;

// A worker puts lists that were sent aside as long as all of them together have no more bytes of
// room than this.
const SPARE_ROOM: usize = 524288;

/// A worker goes back from at most so many fresh nodes of a block at a time, and sends what leads
/// to them before it goes on. So the batches stay small, however much a block finds.
pub const PIECE_NODES: usize = 4096;

// Where few nodes are fresh, a worker sends once it has scattered so many pieces, so that a block
// is locked once for many sources.
const FULL_PIECES: usize = 16;

// One counter has at most so many numbers: those of the blocks for at least 976 waves.
const MOST_NUMBERS: u64 = 1000000;

/// What all workers of a graph use. Each has a share of the blocks, which it is the first to go to.
/// Blocks and batches have lists of the kind `L`.
#[derive(Drop)]
pub(crate) struct Site<'a, L: NodeList, G: Graph, A, R> {
    pub(crate) rt: &'a R,
    pub(crate) alloc: Global,
    pub(crate) graph: &'a G,
    pub(crate) gate: &'a A,
    pub(crate) yard: &'a Yard<G::Name, L>,
    pub(crate) shares: &'a Cut,
    pub(crate) barrier: WaveBarrier,
    ghost small: { (G.Name.net (G.level graph.now)).size ≤ L.limit },
    ghost shared: { shares.now.size ≡ yard.now },
    ghost few_blocks: { (1 ≤ yard.now) × (yard.now ≤ 1024) },
    ghost few_workers: { (1 ≤ shares.now.blocks) × (shares.now.blocks ≤ 64) },
}

// What a worker has scattered at a wave and not sent yet: for each piece its batches, one for each
// block, and how many fresh nodes they come from. Lists that were sent wait for the next batches.
#[derive(Drop)]
struct Outbox<N: Levels, L: NodeList> {
    wave: u16,
    // From how many blocks the worker has scattered all pieces at the wave, sent or not.
    taken: u64,
    pieces: Vec<Vec<Batch<N, L>>>,
    fresh: usize,
    spare: Vec<L>,
}

impl<N: Levels, L: NodeList> Outbox<N, L> {
    // Nothing yet, at this wave.
    fn new(alloc: Global, wave: u16) -> Outbox<N, L> {
        Outbox {
            wave,
            taken: 0,
            pieces: Vec::new(alloc),
            fresh: 0,
            spare: Vec::new(alloc),
        }
    }

    // Forgets what was sent, and sets the lists aside.
    fn empty(&mut self) -> Result<(), AllocError> {
        self.fresh = 0;
        let mut room = room_of(&self.spare);
        while let Some(batches) = self.pieces.pop() {
            room = spare_room(batches, &mut self.spare, room)?;
        }
        Ok(())
    }
}

// Takes a block to this wave, unless it is there.
fn bring<N: Levels, L: NodeList>(block: &mut Block<N, L>, wave: u16)
    ensures { (block.new ≡ block.old) ⊎ (block.new ≡ next_wave_of block.old) }
{
    if block.wave() < wave {
        // A block that can't go on stays where it is, and isn't complete at this wave.
        let _ = block.advance();
    }
}

// How many bytes of room these lists have together.
fn room_of<L: NodeList>(lists: &[L]) -> usize {
    let mut room = 0usize;
    for list in lists {
        room = room.saturating_add(list.room());
    }
    room
}

// Puts lists of batches that were sent aside for later ones, beside others that have so much room.
// What would take more than `SPARE_ROOM` is let go. Answers the room of all that are aside.
fn spare_room<N: Levels, L: NodeList>(
    mut batches: Vec<Batch<N, L>>,
    spare: &mut Vec<L>,
    mut room: usize,
) -> Result<usize, AllocError> {
    while let Some(batch) = batches.pop() {
        let list = batch.into_nodes();
        let with_list = room.saturating_add(list.room());
        if with_list <= SPARE_ROOM {
            spare.push(list)?;
            room = with_list;
        }
    }
    Ok(room)
}

// The wave that comes so many after this one.
fn wave_after(wave: u16, more: u64) -> u16 {
    wave.saturating_add(u16::try_from(more).unwrap_or(u16::MAX))
}

// Reports to a watch the waves past the first of these, up to the last.
fn tell<W: Watch>(watch: &mut W, first: u16, last: u16)
    ensures { W.becomes watch.old watch.new }
{
    for wave in first..last {
        watch.wave(wave + 1);
    }
}

impl<L: NodeList, G: Graph, A: Gate, R: Wait> Site<'_, L, G, A, R> {
    // What a block found at this wave, if it is of the graph's level.
    fn fresh(&self, source: usize, wave: u16) -> Result<Option<Fresh<G::Name>>, AllocError>
        requires { source < self.now.yard.now }
        ensures { IfOk result (λ found. IfSome found (λ fresh. G.level self.now.graph.now ≡ fresh.level)) }
    {
        // Asked here, since nobody looks at the graph who holds a lock.
        let level = self.graph.level();
        let mut block = self.yard.lock(self.rt, source);
        bring(&mut block, wave);
        if block.level() != level {
            return Ok(None);
        }
        Ok(Some(block.fresh(self.alloc)?))
    }

    // Applies the batches of all these pieces to their target, in their order.
    fn apply(&self, target: usize, outbox: &Outbox<G::Name, L>)
        requires { target < self.now.yard.now }
    {
        let mut block = self.yard.lock(self.rt, target);
        bring(&mut block, outbox.wave);
        for batches in &outbox.pieces {
            if let Some(batch) = batches.get(target) {
                // A batch that isn't for this block at this wave changes nothing.
                let _ = block.apply(batch);
            }
        }
    }

    // Sends what was scattered to all blocks, one after the other. It begins at the worker's share,
    // so that workers don't queue at one block.
    fn send(&self, worker: u64, outbox: &mut Outbox<G::Name, L>) -> Result<(), AllocError>
        requires { worker < self.now.shares.now.blocks }
    {
        let first = self.shares.range(worker).start as usize;
        let count = self.yard.count();
        for step in 0..count {
            self.apply((first + step) % count, outbox);
        }
        outbox.empty()
    }

    // Scatters a piece of what a block found, and sends once that is much.
    fn scatter(
        &self,
        worker: u64,
        piece: &Fresh<G::Name>,
        outbox: &mut Outbox<G::Name, L>,
    ) -> Result<(), AllocError>
        requires worker { worker < self.now.shares.now.blocks }
        requires level { G.level self.now.graph.now ≡ piece.now.level }
    {
        let batches = scatter_reusing(self.alloc, self.graph, piece, &mut outbox.spare)?;
        outbox.fresh = outbox.fresh.saturating_add(piece.nodes().len());
        outbox.pieces.push(batches)?;
        if outbox.fresh >= PIECE_NODES || outbox.pieces.len() >= FULL_PIECES {
            self.send(worker, outbox)?;
        }
        Ok(())
    }

    // Scatters what a block found, piece by piece from its last nodes on, so that no batch is
    // large.
    fn take(
        &self,
        worker: u64,
        source: usize,
        outbox: &mut Outbox<G::Name, L>,
    ) -> Result<(), AllocError>
        requires worker { worker < self.now.shares.now.blocks }
        requires source { source < self.now.yard.now }
    {
        if let Some(mut fresh) = self.fresh(source, outbox.wave)? {
            while fresh.nodes().len() > PIECE_NODES {
                let piece = fresh.split_off(fresh.nodes().len() - PIECE_NODES)?;
                self.scatter(worker, &piece, outbox)?;
            }
            self.scatter(worker, &fresh, outbox)?;
        }
        outbox.taken = outbox.taken.saturating_add(1);
        Ok(())
    }

    // Whether all blocks are settled at this wave. It locks one block after the other. `Missing`
    // has the least number of a block that isn't complete. Where all are, it is `TooDeep` where one
    // isn't settled at the last wave.
    fn survey(&self, wave: u16) -> Result<bool, SolveFault>
        ensures { IfErr result (Tells (G.Name.net (G.level self.now.graph.now)) self.now.yard.now) }
    {
        // Asked here, since nobody looks at the graph who holds a lock.
        let level = self.graph.level();
        let mut settled = true;
        for number in 0..self.yard.count() {
            let block = self.yard.lock(self.rt, number);
            if block.level() != level || block.wave() != wave || !block.is_complete() {
                return Err(SolveFault::Missing(number as u64));
            }
            if !block.settled() {
                settled = false;
            }
        }
        if !settled && wave == LAST_WAVE {
            return Err(SolveFault::TooDeep);
        }
        Ok(settled)
    }

    // Sends what is left of the worker's wave. The last of the workers has the next wave begin,
    // unless the blocks are settled or one isn't complete.
    fn finish(&self, worker: u64, outbox: &mut Outbox<G::Name, L>) -> Result<(), AllocError>
        requires { worker < self.now.shares.now.blocks }
    {
        if outbox.taken == 0 {
            return Ok(());
        }
        self.send(worker, outbox)?;
        let blocks = self.yard.count() as u64;
        if self.barrier.count(self.rt, outbox.taken, blocks) {
            match self.survey(outbox.wave) {
                Ok(false) => self.barrier.begin(self.rt, outbox.wave.saturating_add(1)),
                _ => self.barrier.end(self.rt),
            }
        }
        outbox.taken = 0;
        Ok(())
    }

    // Goes to this wave once it begins, with the blocks of the worker's share, and says whether it
    // has begun. What is left of the wave before is sent first.
    fn enter<W: Watch>(
        &self,
        worker: u64,
        wave: u16,
        outbox: &mut Outbox<G::Name, L>,
        watch: &mut W,
    ) -> Result<bool, AllocError>
        requires worker { worker < self.now.shares.now.blocks }
        ensures reported { W.becomes watch.old watch.new }
    {
        self.finish(worker, outbox)?;
        if !self.barrier.wait(self.rt, wave) {
            return Ok(false);
        }
        tell(watch, outbox.wave, wave);
        outbox.wave = wave;
        let share = self.shares.range(worker);
        for number in share.start..share.end {
            bring(&mut self.yard.lock(self.rt, number as usize), wave);
        }
        Ok(true)
    }

    // Goes to this block at this wave, and says whether the worker is to go on.
    fn visit<W: Watch>(
        &self,
        worker: u64,
        wave: u16,
        source: usize,
        outbox: &mut Outbox<G::Name, L>,
        watch: &mut W,
    ) -> Result<bool, AllocError>
        requires worker { worker < self.now.shares.now.blocks }
        requires source { source < self.now.yard.now }
        ensures reported { W.becomes watch.old watch.new }
    {
        if wave != outbox.wave && !self.enter(worker, wave, outbox, watch)? {
            return Ok(false);
        }
        match self.gate.pass(worker as usize, source as u64) {
            Turn::Go => {
                self.take(worker, source, outbox)?;
                Ok(true)
            }
            Turn::Leave => {
                self.send(worker, outbox)?;
                Ok(false)
            }
        }
    }

    // Draws and sends until no number is left, no wave begins, or the gate says to leave. What was
    // drawn before is sent then too. The numbers of a counter are those of the blocks, over and
    // over, for one wave after the other.
    fn draw_all<W: Watch>(
        &self,
        tickets: &Tickets,
        worker: u64,
        seat: &mut TicketSeat,
        outbox: &mut Outbox<G::Name, L>,
        watch: &mut W,
    ) -> Result<(), AllocError>
        requires worker { worker < self.now.shares.now.blocks }
        requires seat { IsNewSeatOf tickets.now seat.old }
        ensures seat { IsSeatOf tickets.now seat.new }
        ensures drawn { OnOk result (HasDrawn seat.new) }
        ensures reported { W.becomes watch.old watch.new }
    {
        let blocks = self.yard.count() as u64;
        let first = outbox.wave.saturating_add(1);
        while let Some(number) = tickets.draw(seat) {
            let wave = wave_after(first, number / blocks);
            let source = (number % blocks) as usize;
            if !self.visit(worker, wave, source, outbox, watch)? {
                self.barrier.end(self.rt);
                return Ok(());
            }
        }
        self.finish(worker, outbox)
    }

    // What one worker does, from this wave on. Where it isn't refused memory, it draws. Answers the
    // last wave that it went to, too.
    fn work<W: Watch>(
        &self,
        tickets: &Tickets,
        worker: u64,
        wave: u16,
        seat: &mut TicketSeat,
        watch: &mut W,
    ) -> (u16, Result<(), AllocError>)
        requires worker { worker < self.now.shares.now.blocks }
        requires seat { IsNewSeatOf tickets.now seat.old }
        ensures back { IsBack tickets.now HasDrawn result.1 seat.new }
        ensures reported { W.becomes watch.old watch.new }
    {
        let mut outbox = Outbox::new(self.alloc, wave);
        let sent = self.draw_all(tickets, worker, seat, &mut outbox, watch);
        if sent.is_err() {
            // Nobody is to wait for what this worker doesn't send.
            self.barrier.end(self.rt);
        }
        (outbox.wave, sent)
    }
}

impl<L: NodeList + Send + Sync, G: Graph + Sync, A: Gate, R: Threads + Wait + Sync> Site<
    '_,
    L,
    G,
    A,
    R,
> {
    // Has a worker for each seat at work from this wave on, each in a thread of its own where one
    // can be started. The workers have the numbers from `first` on. The last one is at work in this
    // thread, and reports to the watch. This thread starts the others one after the other: two that
    // are started at once, by different threads, often share a processor for long. Answers the last
    // wave that the last worker went to, and whether memory was refused to any: otherwise each has
    // drawn.
    #[cycle(threads)]
    fn work_all<W: Watch>(
        &self,
        tickets: &Tickets,
        first: u64,
        wave: u16,
        seats: &mut [TicketSeat],
        watch: &mut W,
    ) -> (u16, Result<(), AllocError>)
        requires numbers { first + length seats.old ≤ self.now.shares.now.blocks }
        requires new { All (IsNewSeatOf tickets.now) seats.old }
        ensures count { length seats.new ≡ length seats.old }
        ensures back { All (IsBack tickets.now HasDrawn result.1) seats.new }
        ensures reported { W.becomes watch.old watch.new }
    {
        let Some((seat, rest)) = seats.split_first_mut() else {
            return (wave, Ok(()));
        };
        if rest.is_empty() {
            return self.work(tickets, first, wave, seat, watch);
        }
        let mut aside = || -> (u16, Result<(), AllocError>)
            requires { (first < self.now.shares.now.blocks) × IsNewSeatOf tickets.now seat.now }
            ensures { IsBack tickets.entry.now HasDrawn result.1 seat.exit.now }
        { self.work(tickets, first, wave, seat, &mut NoProgress) };
        let mut here = || -> (u16, Result<(), AllocError>)
            requires { (first + 1 + length rest.now ≤ self.now.shares.now.blocks) × All (IsNewSeatOf tickets.now) rest.now }
            ensures { (length rest.exit.now ≡ length rest.entry.now) × All (IsBack tickets.entry.now HasDrawn result.1) rest.exit.now
                × W.becomes watch.entry.now watch.exit.now }
        { self.work_all(tickets, first + 1, wave, rest, watch) };
        let ((_, one), (last, others)) = thread::join_mut(self.rt, &mut aside, &mut here);
        (last, one.and(others))
    }

    // Takes all blocks on from this wave, at which they are complete, and answers at which they are
    // once the blocks are settled, one of them isn't complete, or the numbers of one counter are
    // drawn.
    //
    // Each worker draws the numbers of the blocks over and over, for one wave after the other, and
    // asks the gate after each draw. At each wave it first takes the blocks of its share there. On
    // `Go` it sends what the block found to every block, piece by piece, the last one maybe
    // together with what it draws next; on `Leave` it ends, and nothing is sent from that block. A
    // worker for which no thread can be started is run by another one. Each wave is reported to the
    // watch once it has begun, or later where this thread comes late.
    fn run_from<W: Watch>(&self, wave: u16, watch: &mut W) -> Result<u16, AllocError>
        ensures { W.becomes watch.old watch.new }
    {
        let blocks = self.yard.count() as u64;
        let left = u64::from(LAST_WAVE.saturating_sub(wave));
        let waves = (MOST_NUMBERS / blocks).min(left);
        let (tickets, mut seats) = Tickets::new(
            self.alloc,
            blocks * waves,
            self.shares.blocks() as usize,
        )?;
        self.barrier.begin(self.rt, wave.saturating_add(1));
        let (reported, sent) = self.work_all(&tickets, 0, wave, seats.as_mut_slice(), watch);
        // All seats are back, so the numbers that were drawn are those that the workers had.
        let _ = tickets.close(seats);
        // Where there are no more numbers, nobody goes to the wave that has begun last.
        let last = self.barrier.wave(self.rt).min(wave_after(wave, waves));
        tell(watch, reported, last);
        sent.and(Ok(last))
    }

    /// Goes from wave to wave until all blocks are settled, and says at which wave they are. Each
    /// wave is reported to the watch, in their order.
    ///
    /// # Errors
    ///
    /// `Memory` where memory is refused. `Missing` with the least number of a block that isn't
    /// complete, otherwise `TooDeep` where one isn't settled at the last wave.
    pub(crate) fn run<W: Watch>(&self, watch: &mut W) -> Result<u16, SolveFault>
        ensures reported { IfErr result (Tells (G.Name.net (G.level self.now.graph.now)) self.now.yard.now) }
        ensures watched { W.becomes watch.old watch.new }
    {
        let mut wave = 0;
        for _ in 0..=LAST_WAVE {
            if self.survey(wave)? {
                return Ok(wave);
            }
            wave = self.run_from(wave, watch)?;
        }
        // The survey of the last wave ends the waves. Of what stands behind locks no proof knows as
        // much.
        Err(SolveFault::Missing(0))
    }
}
