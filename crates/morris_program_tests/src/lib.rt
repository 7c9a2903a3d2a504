//! Tests of what no run of the program shows: folders whose calls fail, `verify_in`, which the
//! program doesn't call, and answers from files in memory. No part of the product.
//!
//! Tests of commands over a folder:
//! - `into_tests`: `build --into`
//! - `from_tests`: `verify --from`
//!
//! Tests of commands over table files in memory:
//! - `asking_tests`: answers to position strings
//! - `line_tests`: answers to the lines of an input
//! - `damaged_tests`: answers from files that disagree
//! - `failing_tests`: answers that can't be written
//! - `finding_tests`: `find` and `stats --from`
//! - `verify_in_tests`: `verify_in`
//!
//! What tests need:
//! - `making`: table files
//! - `held`: a library of files in memory
//! - `checks`: comparisons
#![tactic(auto)]

#[cfg(test)]
mod asking_tests;
#[cfg(test)]
mod checks;
#[cfg(test)]
mod damaged_tests;
#[cfg(test)]
mod failing_tests;
#[cfg(test)]
mod finding_tests;
#[cfg(test)]
mod from_tests;
#[cfg(test)]
mod held;
#[cfg(test)]
mod into_tests;
#[cfg(test)]
mod line_tests;
#[cfg(test)]
mod making;
#[cfg(test)]
mod verify_in_tests;
