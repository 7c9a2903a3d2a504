//! What the commands over many table files do: over those of a folder `build --into` and
//! `verify --from`, and over those of an input `verify --all`.
//!
//! `build --into`:
//! - `into`: the command
//! - `entering`: the lock of the folder, and its list of digests
//! - `filling`: a table is built while the file of the one before it is written
//! - `filled`: how far the folder is filled
//! - `print_filed`: the line of a file that was written
//!
//! `verify --from`:
//! - `from`: the command
//! - `survey`: how much there is to do, by the headers of the files
//! - `ahead`: the file of the next pair, read while a table is verified
//! - `places`: pairs by their places in the order of all pairs
//!
//! `verify --all`:
//! - `bundle`: the command
#![tactic(auto)]

mod ahead;
pub mod bundle;
mod entering;
mod filled;
mod filling;
pub mod from;
pub mod into;
mod places;
mod print_filed;
mod survey;
