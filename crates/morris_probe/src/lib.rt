//! What the tables say of a position: its value and its best moves.
//!
//! - `value`: the value
//! - `best`: the best moves
//! - `report`: both, as they are printed
//! - `print`: lines of positions, values and moves
//! - `fault`: why a probe is refused
#![tactic(auto)]

pub mod best;
pub mod fault;
pub mod print;
pub mod report;
pub mod value;
