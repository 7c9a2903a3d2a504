//! What a command reports its progress to.
ghost use Rattle.std.specs.Prelude.{◌≡◌, Bool, false};

use crate::size::{Plan, Size};
use morris_board::board::Geometry;
use morris_index::pair::Pair;
use morris_pairs::exact::Exact;
use morris_pairs::layout::Layout;
use morris_workers::{NoProgress, Watch};

/// What a command reports its progress to: how much there is to do, the pairs that begin and end,
/// and as a [`Watch`] the waves between.
pub trait Progress: Watch {
    /// Whether anything is reported.
    ghost is_reported: { Self → Bool };

    /// Whether anything is reported. Where nothing is, nobody has to find out how much there is to
    /// do.
    fn is_reported(&self) -> bool
        ensures { result ≡ is_reported self.now };

    /// So much is to be done in all. It may be reported again.
    fn start_with_size(&mut self, size: Size)
        ensures reported { Self.becomes self.old self.new };

    /// The tables of all pairs below a pair are to be made by this plan. It may be reported again.
    fn start<B: Geometry>(&mut self, pair: Pair<B>, layout: Layout, plan: Plan)
        ensures reported { Self.becomes self.old self.new };

    /// A pair begins.
    fn begin_pair<B: Geometry>(&mut self, pair: Pair<B>)
        ensures reported { Self.becomes self.old self.new };

    /// A pair is done, with this table.
    fn end_pair<B: Geometry>(&mut self, table: &Exact<B>)
        ensures reported { Self.becomes self.old self.new };
}

/// Reports nothing.
impl Progress for NoProgress {
    ghost is_reported = { λ _. false };

    fn is_reported(&self) -> bool {
        false
    }

    fn start_with_size(&mut self, _size: Size) {}

    fn start<B: Geometry>(&mut self, _pair: Pair<B>, _layout: Layout, _plan: Plan) {}

    fn begin_pair<B: Geometry>(&mut self, _pair: Pair<B>) {}

    fn end_pair<B: Geometry>(&mut self, _table: &Exact<B>) {}
}
