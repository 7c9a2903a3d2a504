//! Tables and the prober.
//!
//! What a test works on comes from a function that ends the test where a call is refused, and what
//! is found is compared in [`checks`](crate::checks): a test with many `?` and assertions of its
//! own takes long to prove.

mod builds;
mod damaged;
mod example;
mod failing;
mod files;
mod graphs;
pub(crate) mod making;
mod needs;
mod sharing;
mod texts;
mod values;
mod verifying;
mod watching;
