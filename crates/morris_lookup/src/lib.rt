//! The value of any position, read from table files where they lie.
//!
//! Open files:
//! - `storage`: where the bytes of a file lie
//! - `file_checks`: whether bytes are a table file, by its header and its length
//! - `opened`: the file of one pair
//! - `codes`: its codes in the order of the entries
//! - `tables`: the files of many pairs, and the value of a position
//! - `outcomes`: what each legal move leads to
//! - `best`: the best moves and the line of best play
//!
//! Entries, without the tables that builds have:
//! - `numbering`: the entry of a position
//! - `class_entries`: the same by classes
//! - `classes`: the class of a set of points
//! - `class_words`: a word with its class, for each set of few points
//! - `representatives`: the canonical forms of all sets of as many points
//!
//! Files in memory, without an allocator, as other languages call them:
//! - `views`: the value of a position
//! - `listing`: what each legal move leads to
//! - `prepared`: words for files by classes, filled once
//! - `check`: whether bytes are a table file
//! - `digest`: whether its digest is right
//! - `masks`: positions from masks
//! - `records`: values and moves as numbers
//!
//! For all:
//! - `fault`: why there is no answer
#![tactic(auto)]

pub mod best;
pub mod check;
mod class_entries;
mod class_words;
mod classes;
pub mod codes;
pub mod digest;
pub mod fault;
mod file_checks;
pub mod listing;
pub mod masks;
mod numbering;
pub mod opened;
pub mod outcomes;
pub mod prepared;
pub mod records;
mod representatives;
pub mod storage;
pub mod tables;
pub mod views;
