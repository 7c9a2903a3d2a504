//! What the commands share: the faults that they answer, with their numbers and texts; the boards
//! and pairs that their arguments name; how much there is to do, and progress; and how tables are
//! built, pair by pair.
//!
//! Building tables:
//! - `building`: the tables of pairs, built or verified one after the other
//! - `context`: the runtime, the allocator, workers and blocks
//!
//! What the arguments name:
//! - `boards`: boards by their names
//! - `pairs`: pairs by their names, and how a pair is printed
//!
//! Faults:
//! - `fault`: why a command is refused
//! - `flaw`: what is wrong with a table file
//! - `wording`: how the texts of both are put together
//! - `print_fault`: the line of a fault
//!
//! How much there is to do, and progress:
//! - `size`: how many entries there are to find, and about how much memory that takes
//! - `memory`: about how much memory the table of one pair takes
//! - `estimate`: about how much longer a command takes
//! - `progress`: what a command reports its progress to
//! - `progress_printer`: progress, line by line
//! - `print_progress`: one such line
//!
//! What commands print:
//! - `print`: anything that can be printed, and how much of it went out
//! - `counts`: how many positions of a pair have each value
//! - `print_counts`: the lines of these counts
//! - `print_verified`: the line of a table that was verified
#![tactic(auto)]

pub mod boards;
pub mod building;
pub mod context;
pub mod counts;
mod estimate;
pub mod fault;
pub mod flaw;
mod memory;
pub mod pairs;
pub mod print;
pub mod print_counts;
pub mod print_fault;
mod print_progress;
pub mod print_verified;
pub mod progress;
pub mod progress_printer;
pub mod size;
pub mod wording;
