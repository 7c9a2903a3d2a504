//! Numbers that threads draw from one counter.
ghost use Rattle.std.specs.Prelude.{◌≡◌, ℕ, ◌+◌, ◌-◌, ◌^◌, min, ◌<◌, ◌≤◌, [], ◌∷◌, ◌++◌, false, true, length, IfOk, IfSome, IfNone, is_none, vec_len};
ghost use Rattle.std.specs.List.{All, list_any, sum_by};
ghost use Rattle.morris_wave.specs.Nets.{times};

use crate::draws::{Deal, Drawing, Draws, Gathering, Plan, View};
use atomic_table::{Seat, Table};
use std::alloc::{AllocError, Global};

/// A counter from which threads draw the numbers below a limit, each number once over all seats.
#[derive(Drop)]
pub struct Tickets {
    table: Table<(), View, Plan, Draws, Global>,
    limit: u64,
    ghost one_word: { table.shared.table_id.words ≡ 1 },
    ghost no_slots: { table.shared.table_id.slots ≡ 0 },
    ghost limit_is: { table.shared.key.limit ≡ limit },
    ghost small_limit: { limit ≤ 1000000 },
}

/// What one thread draws with. It stands for the list of the numbers that it drew, and counts them.
#[derive(Drop)]
pub struct TicketSeat {
    seat: Seat<(), View>,
    drawn: u64,
    ghost counted: { drawn ≡ length seat.me.0.drawn },
    ghost alone: { seat.me.0.stands ≡ 1 },
    ghost no_slots: { seat.me.1 ≡ [] },
}

/// What became of the numbers below the limit.
#[derive(Debug, Clone, Copy, PartialEq, Eq)]
pub struct Drawn {
    /// How many were drawn.
    pub handed: u64,
    /// How many of these were drawn by the seats given back.
    pub held: u64,
}

impl Tickets {
    ghost use Rattle.morris_workers.specs.Draws.{join_views, Counted};
    ghost use Rattle.morris_workers.specs.Tickets.{IsSeatOf, IsNewSeatOf, limit_of, seats_of, numbers_of, all_numbers, has_ended};
    ghost use Rattle.morris_workers.specs.TicketSteps.{IsFirstSeat, IsJoined, splits_of};

    /// Tickets for the numbers below the limit, and so many seats that draw from them. The limit is
    /// at most 1,000,000, and there are 1 to 64 seats. It fails for want of memory alone.
    pub fn new(
        alloc: Global,
        limit: u64,
        seats: usize,
    ) -> Result<(Tickets, Vec<TicketSeat>), AllocError>
        requires limit { limit ≤ 1000000 }
        requires seats { (1 ≤ seats) × (seats ≤ 64) }
        ensures limit { IfOk result (λ made. limit_of made.0 ≡ limit) }
        ensures seats { IfOk result (λ made. seats_of made.0 ≡ seats) }
        ensures count { IfOk result (λ made. vec_len made.1 ≡ seats) }
        ensures new { IfOk result (λ made. All (IsNewSeatOf made.0) made.1.items) }
    {
        let mut made = Vec::with_capacity(alloc, seats)?;
        let (tickets, mut first) = Tickets::open(alloc, limit, seats)?;
        for _ in 1..seats {
            made.push(tickets.split(&mut first))?;
        }
        made.push(TicketSeat {
            seat: first,
            drawn: 0,
        })?;
        Ok((tickets, made))
    }

    // The counter at 0, and the seat from which all others are split.
    fn open(
        alloc: Global,
        limit: u64,
        seats: usize,
    ) -> Result<(Tickets, Seat<(), View>), AllocError>
        requires limit { limit ≤ 1000000 }
        requires seats { (1 ≤ seats) × (seats ≤ 64) }
        ensures limit { IfOk result (λ made. limit_of made.0 ≡ limit) }
        ensures seats { IfOk result (λ made. seats_of made.0 ≡ seats) }
        ensures first { IfOk result (λ made. IsFirstSeat made.0 (seats - 1) made.1) }
    {
        let plan = Plan {
            limit,
            seats: seats as u64,
        };
        let (table, first) = Table::of_words(alloc, &[0], &plan)?;
        Ok((Tickets { table, limit }, first))
    }

    // A new seat, split off the first one.
    fn split(&self, first: &mut Seat<(), View>) -> TicketSeat
        requires first { IsFirstSeat self.now (splits_of first.old) first.old }
        requires left { 0 < splits_of first.old }
        ensures first { IsFirstSeat self.now (splits_of first.old - 1) first.new }
        ensures new { IsNewSeatOf self.now result }
    {
        TicketSeat {
            seat: self.table.shared.split_seat::<Deal>(first),
            drawn: 0,
        }
    }

    /// The next number, or `None` once all numbers below the limit are drawn. Condition: the seat
    /// is of these tickets and was not answered with `None` before. No seat draws more numbers than
    /// the limit. It is one step on the counter, waits for nobody and takes no memory.
    pub fn draw(&self, mine: &mut TicketSeat) -> Option<u64>
        requires seat { IsSeatOf self.now mine.old }
        requires ready { has_ended mine.old ≡ false }
        ensures seat { IsSeatOf self.now mine.new }
        ensures below { IfSome result (λ n. n < limit_of self.now) }
        ensures appended { IfSome result (λ n. numbers_of mine.new ≡ numbers_of mine.old ++ n ∷ []) }
        ensures same { IfNone result (numbers_of mine.new ≡ numbers_of mine.old) }
        ensures few { IfSome result (λ _. length (numbers_of mine.new) ≤ limit_of self.now) }
        ensures ended { has_ended mine.new ≡ is_none result }
    {
        let number = self.table.shared.fetch_add::<Drawing>(&mut mine.seat, 0, 1);
        if number < self.limit {
            mine.drawn += 1;
            Some(number)
        } else {
            None
        }
    }

    /// Ends the drawing, and answers how many numbers were drawn and how many of them by the seats
    /// given back. Condition: at least one seat, each of these tickets. The seats' lists have no
    /// number twice, within one list or across two, and all are below `handed`. Where as many seats
    /// are given back as were made, `handed` is `held`; where the two are equal, the lists have
    /// each number below them. If one of the seats was answered with `None`, `handed` is the limit.
    /// It waits for nobody and takes no memory.
    pub fn close(self, seats: Vec<TicketSeat>) -> Drawn
        requires count { 1 ≤ vec_len seats }
        requires seats { All (IsSeatOf self) seats.items }
        ensures once { (x : ℕ) → times x (all_numbers seats.items) ≤ 1 }
        ensures below { All (λ x. x < result.handed) (all_numbers seats.items) }
        ensures held { result.held ≡ sum_by (λ s. length (numbers_of s)) seats.items }
        ensures limit { result.handed ≤ limit_of self }
        ensures within { result.held ≤ result.handed }
        ensures back { vec_len seats ≡ seats_of self → result.handed ≡ result.held }
        ensures whole { result.handed ≡ result.held
            → (x : ℕ) → x < result.handed → times x (all_numbers seats.items) ≡ 1 }
        ensures ended { list_any has_ended seats.items ≡ true → result.handed ≡ limit_of self }
    {
        let (all, held) = self.join_all(seats);
        Drawn {
            handed: self.count(all),
            held,
        }
    }

    // Joins the seats one after the other into the first, and adds up their counts.
    fn join_all(&self, mut seats: Vec<TicketSeat>) -> (Seat<(), View>, u64)
        requires count { 1 ≤ vec_len seats }
        requires seats { All (IsSeatOf self.now) seats.items }
        ensures joined { IsJoined self.now seats.items result.0 }
        ensures held { result.1 ≡ min (length (all_numbers seats.items)) (2 ^ 64 - 1) }
    {
        let first = seats.remove(0);
        self.join_others(first, seats)
    }

    // The sum is never cut off: it is at most the limit, as the rule of the counter shows once all
    // seats are joined.
    fn join_others(&self, first: TicketSeat, others: Vec<TicketSeat>) -> (Seat<(), View>, u64)
        requires first { IsSeatOf self.now first }
        requires others { All (IsSeatOf self.now) others.items }
        ensures joined { IsJoined self.now (first ∷ others.items) result.0 }
        ensures held { result.1 ≡ min (length result.0.me.0.drawn) (2 ^ 64 - 1) }
    {
        let TicketSeat {
            seat: mut all,
            drawn: mut held,
        } = first;
        for seat in others {
            held = held.saturating_add(seat.drawn);
            self.join(&mut all, seat);
        }
        (all, held)
    }

    // Joins one more seat.
    fn join(&self, all: &mut Seat<(), View>, seat: TicketSeat)
        requires all { (all.old.table_id ≡ self.now.table.shared.table_id) × (0 < all.old.me.0.stands) }
        requires seat { IsSeatOf self.now seat }
        ensures table { all.new.table_id ≡ all.old.table_id }
        ensures view { all.new.me ≡ (join_views all.old.me.0 seat.seat.me.0, all.old.me.1) }
    {
        let TicketSeat {
            seat: other,
            drawn: _,
        } = seat;
        self.table.shared.join_seat::<Gathering>(all, other);
    }

    // Takes the counter apart, with a seat, and answers how many numbers were drawn.
    fn count(self, seat: Seat<(), View>) -> u64
        requires { seat.table_id ≡ self.table.shared.table_id }
        ensures { Counted (limit_of self) (seats_of self) seat.me.0 result }
    {
        let Tickets { table, limit } = self;
        let closed = table.close_with(seat);
        let word = closed.word(0);
        closed.free();
        word.min(limit)
    }
}
