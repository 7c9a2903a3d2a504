//! The entries of a block, the list of those that are decided, and the tallies that count them.
ghost use Rattle.std.specs.Prelude.{◌≡◌, ℕ, ◌+◌, ◌-◌, ◌<◌, ◌≤◌, ◌&&◌, ◌==◌, ◌^◌, IfOk, nat_lt, length, if◌then◌else◌, replicate, slice_index, slice_set};
ghost use Rattle.std.specs.List.{All, list_any, count_by};
ghost use Rattle.morris_wave.specs.Exits.{is_odd, is_won_code};
ghost use Rattle.morris_wave.specs.Solving.{Marks};
ghost use Rattle.morris_wave.specs.Nets.{times};
ghost use Rattle.morris_wave.specs.NodeRanges.{Ranked};

use crate::codes::Codes;
use crate::node_list::NodeList;
use std::alloc::{AllocError, Global};

// The entries of the nodes from `first` on at a wave, how many of them are won and lost, and the
// decided nodes in order of their codes. Of these, those from the place `before` up to, not
// including, `here` have the code of the wave; those after them got theirs at this wave. A list
// that forgets has lost those before them. There is room for every node; what isn't used of it
// takes no memory, as long as the system hands out pages at their first use.
#[derive(Drop)]
pub(crate) struct Listed<L: NodeList> {
    pub(crate) first: u64,
    pub(crate) wave: u16,
    pub(crate) codes: Codes,
    pub(crate) won: u64,
    pub(crate) lost: u64,
    pub(crate) decided: L,
    pub(crate) before: usize,
    pub(crate) here: usize,
    ghost ranked: { Ranked L.retains first wave codes (L.items decided) before here },
    ghost room: { length codes ≤ L.capacity decided },
    ghost ends: { first + length codes ≤ 2 ^ 40 },
    ghost short: { first + length codes ≤ L.limit },
    ghost last: { wave ≤ 65534 },
    ghost won_counted: { won ≡ count_by is_won_code codes },
    ghost lost_counted: { lost ≡ count_by is_odd codes },
    ghost counted: { length (L.items decided) ≤ won + lost },
}

impl<L: NodeList> Listed<L> {
    ghost use Rattle.morris_wave.specs.Frames.{SameFrame};

    // So many open entries before the first wave.
    pub(crate) fn open(alloc: Global, first: u64, count: usize) -> Result<Listed<L>, AllocError>
        requires small { first + count ≤ 2 ^ 40 }
        requires short { first + count ≤ L.limit }
        ensures first { IfOk result (λ e. e.first ≡ first) }
        ensures wave { IfOk result (λ e. e.wave ≡ 0) }
        ensures codes { IfOk result (λ e. e.codes ≡ replicate count 0) }
    {
        let decided = L::with_room(alloc, count)?;
        let codes = Codes::make_zeros(alloc, count)?;
        Ok(Listed {
            first,
            wave: 0,
            codes,
            won: 0,
            lost: 0,
            decided,
            before: 0,
            here: 0,
        })
    }

    // Gives the entry at a place the code of this wave, if it is open and ready.
    pub(crate) fn mark(&mut self, place: u64, ready: bool)
        requires inside { place < length self.old.codes }
        ensures frame { SameFrame self.old self.new }
        ensures codes { Marks self.old.codes self.new.codes (λ k. (place == k) && ready) (self.old.wave + 1) }
    {
        if ready && self.codes.get(place as usize) == 0 {
            self.give(place);
        }
    }

    // Gives an open entry the code of this wave. Few are marked: this is out of line, so that the
    // tests alone go into the loops that mark.
    #[inline(never)]
    fn give(&mut self, place: u64)
        requires inside { place < length self.old.codes }
        requires open { slice_index self.old.codes place ≡ 0 }
        ensures frame { SameFrame self.old self.new }
        ensures codes { Marks self.old.codes self.new.codes (λ k. place == k) (self.old.wave + 1) }
    {
        let node = self.first + place;
        let code = self.wave + 1;
        if code % 2 == 1 {
            self.lost += 1;
        } else {
            self.won += 1;
        }
        self.codes.put(place as usize, code);
        self.decided.put_last(node);
    }

    // Begins the next wave.
    pub(crate) fn next_wave(&mut self)
        requires { self.old.wave < 65534 }
        ensures first { self.new.first ≡ self.old.first }
        ensures wave { self.new.wave ≡ self.old.wave + 1 }
        ensures codes { self.new.codes ≡ self.old.codes }
    {
        let gone = self.decided.forget(self.here);
        self.wave += 1;
        self.before = self.here - gone;
        self.here = self.decided.count();
    }

    // Whether some entry got its code at this wave.
    pub(crate) fn has_fresh(&self) -> bool
        ensures { result ≡ list_any (λ c. c == (self.now.wave + 1)) self.now.codes }
    {
        self.here < self.decided.count()
    }

    // The nodes whose code is the wave, each once; none at wave 0.
    pub(crate) fn of_this_wave(&self, alloc: Global) -> Result<Vec<u64>, AllocError>
        ensures inside { IfOk result (λ v. All (λ i. (self.now.first ≤ i) × (i < self.now.first + length self.now.codes)) v.items) }
        ensures once { IfOk result (λ v. (k : ℕ) → k < length self.now.codes
            → times (self.now.first + k) v.items ≡ (if nat_lt 0 self.now.wave && (slice_index self.now.codes k == self.now.wave) then 1 else 0)) }
    {
        let mut nodes = Vec::with_capacity(alloc, self.here - self.before)?;
        for place in self.before..self.here {
            nodes.push(self.decided.node(place))?;
        }
        Ok(nodes)
    }
}
