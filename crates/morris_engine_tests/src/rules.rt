//! The rules: boards, positions and streams, moves, and how positions are numbered.

mod board_tests;
mod class_tests;
mod entry_tests;
mod move_tests;
mod pair_tests;
mod position_tests;
mod search_tests;
mod stream_tests;
mod texts;
