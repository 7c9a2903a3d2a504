//! What `verify` prints.
use crate::pairs::put_pair;
use morris_board::board::Geometry;
use morris_board::streams::Sink;
use morris_board::streams::printed::Printed;
use morris_board::streams::printer::Printer;
use morris_index::pair::Pair;
use morris_probe::print::put_count;

/// What `verify` prints of a table that was verified.
#[derive(Drop)]
pub struct Verified<B: Geometry> {
    /// The table's pair.
    pub pair: Pair<B>,
    /// How many entries it has.
    pub entries: u64,
}

impl<B: Geometry> Printed for Verified<B> {
    ghost use Rattle.morris_jobs.specs.Verified.{verified_text};

    ghost bytes = { λ verified. verified_text verified.pair verified.entries };

    fn put_into<S: Sink>(&self, out: &mut Printer<'_, S>) {
        out.put("verified ");
        put_pair(out, self.pair);
        put_count(out, ": ", self.entries);
        out.put(" entries\n");
    }
}
