//! The positions of a pair as entries of a table and as nodes of a graph: exact tables and their
//! files, sets and shelves of them, how a table is verified, and a baseline that makes one on one
//! thread.
//!
//! Tables:
//! - `value`: what best play leads to from a position
//! - `layout`: which positions have entries
//! - `numbering`: how the entries are numbered, and those of successors and predecessors
//! - `exact`: a table that is right
//! - `raw`: a table that may be wrong
//! - `counting`: how many positions have each code
//! - `table_set`: the tables that graphs are made over
//! - `shelf`: a table set that has all tables below each of its own
//!
//! The moves of the stones of one player:
//! - `rows`: by points, for all positions in which a player has these stones
//! - `numbered_row`: the same by the numbers of the points that they leave free
//! - `set_moves`: the same for all sets of as many stones, in a table
//!
//! The graph of a pair, whose nodes are numbered in three orders:
//! - `levels`: the graphs of all pairs of a board
//! - `graph`: by positions, and what captures lead to
//! - `class_graph`: by classes
//! - `row_graph`: by rows
//! - `row_reading`: nodes by classes, read row by row
//! - `capture_cache`: summaries of captures that are cached while nodes are read
//! - `captures_by_opponent`: captures by the opponent's set in their results
//!
//! The nodes from which a quiet move leads to a node:
//! - `predecessors`: by positions and by classes
//! - `row_predecessors`: by rows
//! - `row_unmoves`: the un-moves of a row, by which these are found
//!
//! Making a table and verifying one:
//! - `sweeping`: the baseline
//! - `build_fault`: why a table isn't made
//! - `verify`: exact tables from raw ones; begin here
//! - `rounds`: the entries in rounds, with progress after each
//! - `chunks`: the entries of a round, dealt out to workers
//! - `agreeing`: whether an entry follows from those of its results
//! - `by_result`: the same for entries by classes, in the order of their results
//! - `scores`: which of some results is best
//!
//! Files:
//! - `header`: what stands before the codes
//! - `reading`: raw tables from their files
//! - `writing`: the files of exact tables
//! - `file_faults`: why a file isn't read or written
#![tactic(auto)]

mod agreeing;
pub mod build_fault;
mod by_result;
mod capture_cache;
mod captures_by_opponent;
mod chunks;
pub mod class_graph;
pub mod counting;
pub mod exact;
pub mod file_faults;
pub mod graph;
pub mod header;
pub mod layout;
pub mod levels;
mod numbered_row;
mod numbering;
mod predecessors;
pub mod raw;
pub mod reading;
mod rounds;
pub mod row_graph;
mod row_predecessors;
mod row_reading;
mod row_unmoves;
mod rows;
mod scores;
mod set_moves;
pub mod shelf;
pub mod sweeping;
pub mod table_set;
pub mod value;
pub mod verify;
pub mod writing;
