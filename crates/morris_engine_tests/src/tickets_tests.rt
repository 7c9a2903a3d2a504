ghost use Rattle.std.specs.Prelude.{◌≡◌, ◌<◌, ◌≤◌, false};
ghost use Rattle.std.specs.List.{All};
ghost use Rattle.morris_workers.specs.Tickets.{IsSeatOf, has_ended};

use crate::checks::{holds, same};
use morris_workers::{TicketSeat, Tickets};
use std::alloc::Global;
use std::sync::atomic::{AtomicU64, Ordering};
use std::thread;

// More draws than any test makes.
const DRAWS: u64 = 2000;

// Draws until no number is left, and counts each number that was drawn.
fn draw_all(tickets: &Tickets, counts: &[AtomicU64], mut seat: TicketSeat) -> TicketSeat
    requires { IsSeatOf tickets.now seat × (has_ended seat ≡ false) }
    ensures { IsSeatOf tickets.now result }
{
    for _ in 0..DRAWS {
        let Some(number) = tickets.draw(&mut seat) else {
            break;
        };
        if let Some(count) = counts.get(number as usize) {
            count.fetch_add(1, Ordering::SeqCst);
        }
    }
    seat
}

// So many counts, each 0.
fn counts_for(alloc: Global, numbers: u64) -> Option<Vec<AtomicU64>> {
    let mut counts = Vec::new(alloc);
    for _ in 0..numbers {
        counts.push(AtomicU64::new(0)).ok()?;
    }
    Some(counts)
}

// Whether each was counted once.
fn are_all_one(counts: &[AtomicU64]) -> bool {
    counts.iter().all(|count| count.load(Ordering::SeqCst) == 1)
}

#[test]
fn four_threads_draw_each_number_once(rt: HostRuntime) {
    let counts = counts_for(rt.alloc(), 1000).expect(&rt, "memory");
    let (tickets, seats) = Tickets::new(rt.alloc(), 1000, 4).expect(&rt, "tickets");
    let seats = thread::map_vec(
        &rt,
        seats,
        &|seat| -> TicketSeat
            requires { IsSeatOf tickets seat × (has_ended seat ≡ false) }
            ensures { IsSeatOf tickets result }
        { draw_all(&tickets, &counts, seat) },
    )
    .expect(&rt, "four threads");
    holds(&rt, are_all_one(&counts), "each once");
    let drawn = tickets.close(seats);
    same(&rt, drawn.handed, 1000, "handed");
    same(&rt, drawn.held, 1000, "held");
}

#[test]
fn dropped_seat_keeps_its_numbers(rt: HostRuntime) {
    let (tickets, mut seats) = Tickets::new(rt.alloc(), 5, 2).expect(&rt, "tickets");
    let mut lost = seats.remove(0);
    let first = tickets.draw(&mut lost);
    drop(lost);
    let mut kept = seats.remove(0);
    let second = tickets.draw(&mut kept);
    seats.push(kept).expect(&rt, "memory");
    let drawn = tickets.close(seats);
    holds(&rt, first == Some(0), "first draw");
    holds(&rt, second == Some(1), "second draw");
    same(&rt, drawn.handed, 2, "handed");
    same(&rt, drawn.held, 1, "held");
}
