//! The command line: which arguments each command takes, the request that they make, and the help.
//!
//! - `arguments`: reads the arguments
//! - `request`: what they ask for
//! - `help`: what the help says below the arguments
#![tactic(auto)]

pub mod arguments;
mod help;
pub mod request;
