//! Threads that solve a graph with exits, block by block and wave by wave.
//!
//! [`solve`] makes the blocks, puts each into a [`Yard`] behind a lock of its own, takes them from
//! wave to wave, and gathers the codes. Its workers draw the numbers of the blocks to make, and at
//! each wave those of the blocks to send from, and wait for one another between two waves.
//!
//! Solving a graph:
//! - `solver`: the whole; `making`: the blocks; `wave`: what a worker does at each wave
//! - `wave_barrier`: where workers wait for a wave; `gate`: whether a worker goes on
//! - `yard`: blocks behind locks
//! - `fault`: why a graph isn't solved
//!
//! Drawing numbers:
//! - `tickets`: numbers that threads draw from one counter; `draws`: the rule of that counter
#![tactic(auto)]

mod draws;
mod fault;
mod gate;
mod making;
mod solver;
mod tickets;
mod wave;
mod wave_barrier;
mod yard;

pub use fault::SolveFault;
pub use gate::{Gate, OpenGate, Turn};
pub use morris_wave::{NoProgress, Watch};
pub use solver::{SHORT_NODES, check_numbers, solve, solve_with};
pub use tickets::{Drawn, TicketSeat, Tickets};
pub use wave::PIECE_NODES;
pub use yard::Yard;
