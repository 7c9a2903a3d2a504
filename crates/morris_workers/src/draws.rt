//! The rule of the tickets' counter, and the kinds of step on it. All of it exists in the proofs
//! alone.

use atomic_table::{Join, Play, Split, TableRule};
use std::collections::LinkedList;

/// What the counter is made with.
#[derive(Clone, Copy)]
pub(crate) struct Plan {
    pub(crate) limit: u64,
    pub(crate) seats: u64,
}

/// What a seat knows: the limit, the numbers that it drew, how many seats can still be split off
/// it, whether a draw found no number left, and for how many seats it stands. A seat that was
/// joined to another stands for none.
pub(crate) struct View {
    pub(crate) limit: u64,
    pub(crate) drawn: LinkedList<u64>,
    pub(crate) splits: u64,
    pub(crate) ended: bool,
    pub(crate) stands: u64,
}

/// The rule.
pub(crate) struct Draws;

impl TableRule<(), View, Plan> for Draws {
    ghost use Rattle.morris_workers.specs.Draws.{IsTicketRule, first_view};

    ghost holds = { IsTicketRule };

    ghost first = { first_view };
}

/// One draw.
pub(crate) struct Drawing;

impl Play<(), View> for Drawing {
    ghost use Rattle.morris_workers.specs.Draws.{Drew};

    ghost then = { λ _ before found after. Drew before found after };
}

/// One new seat, split off the first.
pub(crate) struct Deal;

impl Split<View> for Deal {
    ghost use Rattle.morris_workers.specs.Draws.{dealer, newcomer};

    ghost left = { dealer };

    ghost right = { newcomer };
}

/// A seat that takes in another.
pub(crate) struct Gathering;

impl Join<View> for Gathering {
    ghost use Rattle.morris_workers.specs.Draws.{join_views, spent_view};

    ghost both = { join_views };

    ghost spent = { spent_view };
}
