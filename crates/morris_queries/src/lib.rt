//! The commands over table files as they lie in a folder: `lookup`, values, best moves and lines of
//! play of any number of positions; `find`, the positions that have a value; and `stats --from`,
//! how many have each.
//!
//! `lookup`:
//! - `lookup`: the command
//! - `strings`: the answers to a list of position strings
//! - `lines`: the answers to the lines of an input
//! - `line`: one such line
//! - `answer`: the answer to one position string
//! - `report`: what the files say of a position
//! - `show`: how much of that is shown
//! - `print`: what is printed of an answer
//!
//! `find` and `stats --from`:
//! - `file_questions`: the commands
//! - `find`: the positions that have a value
//! - `wanted`: the values by which positions are looked for
//!
//! Files:
//! - `values`: the value of any position, from files that are opened when they are first needed
//! - `library`: where files are found by their names
//! - `system`: a folder of the system
//! - `pages`: a file with a cache of the pages that were read last
#![tactic(auto)]

pub mod answer;
pub mod file_questions;
pub mod find;
pub mod library;
mod line;
pub mod lines;
pub mod lookup;
pub mod pages;
pub mod print;
mod report;
pub mod show;
pub mod strings;
pub mod system;
pub mod values;
pub mod wanted;
