//! The report of a position: its text, its value and its best moves.
ghost use Rattle.std.specs.Prelude.{◌≡◌, ◌-◌, ◌^◌, ◌<◌, None, MatchResult};
ghost use Rattle.std.specs.List.{flat_map};
ghost use Rattle.morris_probe.specs.Probing.{missing_table};
ghost use Rattle.morris_probe.specs.Refusals.{needs_in, CountsWrites};
ghost use Rattle.morris_probe.specs.Lines.{move_line};
ghost use Rattle.morris_probe.specs.Reports.{Reports};
ghost use Rattle.morris_board.specs.Printers.{Takes};

use crate::best::list_best;
use crate::fault::ProbeFault;
use crate::print::{put_move_line, put_position, put_value};
use crate::value::value;
use morris_board::board::Geometry;
use morris_board::position::Position;
use morris_board::streams::Sink;
use morris_board::streams::printed::{Printed, send};
use morris_board::streams::printer::Printer;
use morris_moves::game_move::Move;
use morris_pairs::shelf::Shelf;
use morris_pairs::value::Value;
use std::alloc::Global;

/// Writes the position's text, a line `draw`, `won in D` or `lost in D` with the depth in plies,
/// and then its best moves, one a line, in the order of [`best`](crate::best::best). Nothing is
/// written before the value and the moves are known.
///
/// # Errors
/// [`ProbeFault::Needs`] with the pair of the position, where the shelf has no table of it and the
/// player to move has more than two stones. Then [`ProbeFault::Memory`] where memory runs out. In
/// both cases nothing was written. Then [`ProbeFault::Write`] with the number of bytes that went
/// out, at the first write that fails.
pub fn report<B: Geometry, S: Sink>(
    alloc: Global,
    sink: &mut S,
    shelf: &Shelf<B>,
    position: &Position<B>,
) -> Result<(), ProbeFault<B>>
    requires failures { S.failures sink.old < 2 ^ 64 - 1 }
    ensures answer { Reports B.shape position.now (S.contents sink.old) (S.contents sink.new) result }
    ensures needs { MatchResult result (λ _. missing_table shelf.now position.now ≡ None)
        (λ fault. needs_in fault ≡ missing_table shelf.now position.now) }
    ensures counted { CountsWrites (S.failures sink.old) (S.failures sink.new) result }
{
    let found = value(shelf, position)?;
    let best = list_best(alloc, shelf, position, found)?;
    let text = Probed {
        position,
        found,
        best: best.as_slice(),
    };
    match send(&text, sink) {
        Ok(_) => Ok(()),
        Err(sent) => Err(ProbeFault::Write(sent)),
    }
}

/// What is printed of a position: its text, its value and its best moves, which are few.
#[derive(Drop)]
struct Probed<'a, B: Geometry> {
    position: &'a Position<B>,
    found: Value,
    best: &'a [Move],
}

#[tactic(auto, using(morris_board::proofs::PrinterLaws::takes_laws), unfolding(crate::specs::Reports::report_text))]
impl<B: Geometry> Printed for Probed<'_, B> {
    ghost use Rattle.std.specs.Prelude.{◌≤◌, ◌*◌, length};
    ghost use Rattle.morris_probe.specs.Reports.{report_text};

    ghost bytes = { λ report. report_text B.shape report.position.now report.found report.best.now };

    ghost is_short = { λ report. length report.best.now ≤ 9 * 24 * 9 };

    fn put_into<S: Sink>(&self, out: &mut Printer<'_, S>) {
        put_position(out, self.position);
        put_value(out, self.found);
        put_move_lines(out, self.best);
    }
}

/// Moves, one a line.
#[tactic(auto, using(morris_board::proofs::PrinterLaws::takes_laws))]
fn put_move_lines<S: Sink>(out: &mut Printer<'_, S>, moves: &[Move])
    ensures { Takes S.contents S.failures out.old out.new (flat_map move_line moves.now) }
{
    for m in moves {
        put_move_line(out, *m);
    }
}
