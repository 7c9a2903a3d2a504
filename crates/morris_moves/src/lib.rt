//! The moves of Nine Men's Morris, and the search a few plies ahead.
//!
//! Moves:
//! - `rules`: where a stone may go, when a mill closes, what may be taken, what a move gives; begin
//!   here
//! - `step`: a move; `list`: the legal moves of a position, in order
//! - `backward`: quiet un-moves, and the predecessors that they give
//!
//! The search:
//! - `look_ahead`: lost and won within a few plies; `search`: what it finds
#![tactic(auto)]

pub mod backward;
pub mod game_move;
pub mod list;
pub mod look_ahead;
pub mod rules;
pub mod within;

// The paths by which these modules are promised.
pub use crate::{game_move as step, within as search};
