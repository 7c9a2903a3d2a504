//! Boards and positions of Nine Men's Morris, and the streams that bytes are read from and printed
//! to.
//!
//! Boards:
//! - `board`: what a board is; `nine` and `grid`: the two boards
//! - `points`: sets of points, as masks
//! - `symmetries`: inverses and images under symmetries of either board; `rings`: images on Nine,
//!   by tables
//!
//! Positions:
//! - `position`: the stones of the player to move and of the opponent, and the position string
//! - `faults`: why two sets or a string are no position
//!
//! Streams:
//! - `streams`: where bytes are read from and written to; in it `printer`: a buffer in front of a
//!   sink, and `printed`: what can be printed
#![tactic(auto)]

pub mod board;
pub mod faults;
pub mod grid;
pub mod nine;
pub mod points;
pub mod position;
mod rings;
pub mod streams;
mod symmetries;
