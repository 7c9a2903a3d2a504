//! Small graphs with exits, gates, watches and streams for tests, and the tests of what needs no
//! table: of the engine, and of boards, positions, moves and numberings.
//!
//! No part of the product: nothing that is built for use depends on this crate. What it has public
//! is what other test crates use.
//!
//! Graphs and their blocks:
//! - `bares`: nodes without any result
//! - `lones`: one node
//! - `pairs`: two nodes
//! - `trios`: three nodes
//! - `meetings`: a graph in which workers meet while they look at it
//! - `flags`: by which two threads see that both are at work
//! - `runs`: blocks of a graph, taken from wave to wave by one thread
//!
//! What else tests need:
//! - `gates`: gates that send workers away
//! - `scribes`: a watch that lists what is reported to it
//! - `counting`: a sink that gets full
//! - `drip`: a reader that fails at one of its calls
//! - `told`: what is printed of an answer, and where requests for memory are counted
//! - `digests`: the digests of table files, as another program computes them
//! - `checks`: comparisons
//!
//! Tests:
//! - `engine_tests`: blocks and waves
//! - `gathering_tests`: batches, and the codes of all blocks
//! - `sweep_tests`: sweeps
//! - `solver_tests`: graphs that workers solve
//! - `watch_tests`: the waves that are reported
//! - `yard_tests`: blocks behind locks
//! - `tickets_tests`: numbers that threads draw
//! - `texts_tests`: the texts of faults
//! - `rules`: boards, positions, moves and numberings
#![tactic(auto)]

#[cfg(test)]
mod bares;
#[cfg(test)]
mod checks;
pub mod counting;
pub mod digests;
pub mod drip;
#[cfg(test)]
mod engine_tests;
mod flags;
pub mod gates;
#[cfg(test)]
mod gathering_tests;
#[cfg(test)]
mod lones;
#[cfg(test)]
mod meetings;
mod pairs;
pub mod printing;
#[cfg(test)]
mod rules;
mod runs;
pub mod scribes;
#[cfg(test)]
mod solver_tests;
#[cfg(test)]
mod sweep_tests;
#[cfg(test)]
mod texts_tests;
#[cfg(test)]
mod tickets_tests;
#[cfg(test)]
mod trios;
#[cfg(test)]
mod watch_tests;
#[cfg(test)]
mod yard_tests;

pub use pairs::{PairGraph, Pairs};
pub use runs::{advance, blocks_after, blocks_of, send};
