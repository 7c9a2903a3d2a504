//! Why two numbers of stones are refused.
use thiserror::Error;

/// Why two numbers of stones make no pair. The first of these that applies is the answer.
#[derive(Clone, Copy, Debug, PartialEq, Eq, Error)]
pub enum PairFault {
    /// A number isn't 3 to 9.
    #[error("bad counts")]
    Counts,
    /// The board has fewer points than there are stones.
    #[error("more stones than points")]
    Crowded,
}
