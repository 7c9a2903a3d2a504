//! The tests of tables and the prober, and of folders and the files in them. They are apart from
//! the crates that they test, so that those are proved once.
//!
//! No part of the product: nothing that is built for use depends on this crate.
//!
//! - `memory`: a folder in memory, which other tests use too
//! - `tables`: tests of tables and the prober
//! - `files`: tests of folders, of table files in them, and of look-ups in such files
//! - `checks`: comparisons
#![tactic(auto)]

#[cfg(test)]
mod checks;
#[cfg(test)]
mod files;
pub mod memory;
#[cfg(test)]
mod tables;
