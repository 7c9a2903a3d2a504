//! Pairs of numbers of stones, and the numbering of their positions.
//!
//! Where each position has an index of its own:
//! - `pair`: a pair, and the index of a position; `halves`: the same within a half; `below`: all
//!   pairs in order
//! - `faults`: why two numbers of stones are no pair
//! - `ranks`: ranks of sets; `binomials`, `rank_tables`, `rings`, `set_lists`: the tables for them
//! - `predecessors`, `successors`: the indices before and after a quiet move; `sums`: how a rank
//!   changes by one
//!
//! Where positions are numbered by classes:
//! - `classes`: canonical forms and canonicalizing symmetries of sets; `transversals`: one symmetry
//!   for each image
//! - `class_pair`: the entry of a position; `class_halves`: the same within a half; `class_sizes`:
//!   how many entries there are
//! - `falls`: the orbit of an entry
//! - `entry_rows`: entries that follow one another with the same own stones
//! - `standing`, `elsewhere`: entries of positions that differ in the opponent's stones alone
//! - `predecessor_entries`, `successor_entries`: the entries before and after a quiet move
//! - `by_opponent`: positions grouped by the opponent's set
#![tactic(auto)]

pub mod below;
pub mod binomials;
pub mod by_opponent;
mod class_halves;
pub mod class_pair;
pub mod class_sizes;
pub mod classes;
pub mod elsewhere;
pub mod entry_rows;
pub mod faults;
mod halves;
pub mod orbits;
pub mod pair;
pub mod predecessor_entries;
pub mod predecessors;
mod rank_tables;
pub mod ranks;
mod rings;
mod set_lists;
pub mod standing;
pub mod successor_entries;
pub mod successors;
mod sums;
mod transversals;

// The path by which this module is promised.
pub use crate::orbits as falls;
