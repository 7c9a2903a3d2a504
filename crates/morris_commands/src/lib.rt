//! What the commands over one input and one output do: `look`, `stats`, `build`, `verify` and
//! `probe`, and what they print.
//!
//! The commands:
//! - `look`: the command `look`
//! - `stats`: the command `stats`
//! - `build`: the command `build`
//! - `verify`: the command `verify`
//! - `verify_in`: the same on the thread of the caller
//! - `probe`: the command `probe`
//!
//! What they find and print:
//! - `deepest`: the deepest positions of a pair
//! - `print_look`: what `look` prints
//! - `print_stats`: what `stats --deepest` prints
#![tactic(auto)]

pub mod build;
pub mod deepest;
pub mod look;
mod print_look;
pub mod print_stats;
pub mod probe;
pub mod stats;
pub mod verify;
pub mod verify_in;
