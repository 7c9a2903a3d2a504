//! What `stats --deepest` counts of a pair and shows below the counts.
#![tactic(auto, using(morris_board::proofs::PrinterLaws::takes_laws))]

ghost use Rattle.morris_board.specs.Printers.{Takes};
ghost use Rattle.morris_commands.specs.Deepest.{found_line};

use crate::deepest::{Deep, Deepest};
use morris_board::board::Geometry;
use morris_board::streams::Sink;
use morris_board::streams::printed::Printed;
use morris_board::streams::printer::Printer;
use morris_jobs::counts::Tallied;
use morris_jobs::print_counts::put_tallies;
use morris_probe::print::{put_number_line, put_text};

/// What `stats --deepest` prints of a pair.
#[derive(Drop)]
pub struct Counted<B: Geometry> {
    /// How many positions have each value.
    pub tallied: Tallied<B>,
    /// The deepest positions.
    pub deepest: Deepest<B>,
}

impl<B: Geometry> Printed for Counted<B> {
    ghost use Rattle.std.specs.Prelude.{◌≤◌, ◌^◌, ◌++◌, length};
    ghost use Rattle.morris_jobs.specs.Counted.{stats_text};
    ghost use Rattle.morris_commands.specs.Deepest.{deepest_lines};

    ghost bytes = { λ counted. stats_text B.POINTS counted.tallied.pair counted.tallied.tallies.items ++ deepest_lines B.shape counted.deepest };

    ghost is_short = { λ counted. length counted.tallied.tallies.items ≤ 2 ^ 16 };

    fn put_into<S: Sink>(&self, out: &mut Printer<'_, S>) {
        put_tallies(out, self.tallied.pair, self.tallied.tallies.as_slice());
        put_found(out, "deepest win: ", " won in ", self.deepest.win);
        put_found(out, "deepest loss: ", " lost in ", self.deepest.loss);
    }
}

/// The line of a deepest position and its depth, or one that says that there is none.
fn put_found<B: Geometry, S: Sink>(
    out: &mut Printer<'_, S>,
    head: &str,
    label: &str,
    found: Option<Deep<B>>,
)
    ensures { Takes S.contents S.failures out.old out.new (found_line B.shape head.now label.now found) }
{
    out.put(head);
    match found {
        None => out.put("none\n"),
        Some(deep) => {
            put_text(out, &deep.position);
            put_number_line(out, label, u64::from(deep.depth));
        }
    }
}
