//! What `look` prints.
ghost use Rattle.std.specs.Prelude.{◌≡◌, length};
ghost use Rattle.std.specs.List.{flat_map};
ghost use Rattle.morris_moves.specs.Rules.{moves_of};
ghost use Rattle.morris_probe.specs.Lines.{move_line};
ghost use Rattle.morris_commands.specs.Look.{counts_line, value_line};
ghost use Rattle.morris_board.specs.Printers.{Takes};

use morris_board::board::Geometry;
use morris_board::position::Position;
use morris_board::streams::Sink;
use morris_board::streams::printed::Printed;
use morris_board::streams::printer::Printer;
use morris_moves::rules::moves;
use morris_moves::within::Within;
use morris_probe::print::{put_count, put_move_line, put_number_line, put_position};

/// What `look` prints of a position: how many stones each side has, its legal moves, and its value
/// as far as a search of so many plies finds it.
#[derive(Drop)]
pub struct Looked<B: Geometry> {
    /// The position.
    pub position: Position<B>,
    /// How many plies were searched.
    pub plies: u8,
    /// What was found.
    pub found: Within,
}

impl<B: Geometry> Printed for Looked<B> {
    ghost use Rattle.morris_commands.specs.Look.{look_text};

    ghost bytes = { λ looked. look_text B.shape looked.position looked.plies looked.found };

    fn put_into<S: Sink>(&self, out: &mut Printer<'_, S>) {
        put_position(out, &self.position);
        put_counts(out, &self.position);
        put_moves(out, &self.position);
        put_number_line(out, "moves ", move_count(&self.position));
        put_within(out, self.plies, self.found);
    }
}

/// How many stones each side has.
fn put_counts<B: Geometry, S: Sink>(out: &mut Printer<'_, S>, position: &Position<B>)
    ensures { Takes S.contents S.failures out.old out.new (counts_line position.now) }
{
    let (own, other) = position.counts();
    put_count(out, "own ", u64::from(own));
    put_number_line(out, " other ", u64::from(other));
}

/// The lines of the legal moves.
fn put_moves<B: Geometry, S: Sink>(out: &mut Printer<'_, S>, position: &Position<B>)
    ensures { Takes S.contents S.failures out.old out.new (flat_map move_line (moves_of B.shape position.now)) }
{
    for m in moves(position) {
        put_move_line(out, m);
    }
}

/// The value of a position as far as a search of `plies` plies finds it.
fn put_within<S: Sink>(out: &mut Printer<'_, S>, plies: u8, found: Within)
    ensures { Takes S.contents S.failures out.old out.new (value_line plies found) }
{
    match found {
        Within::Lost(depth) => put_number_line(out, "lost in ", u64::from(depth)),
        Within::Won(depth) => put_number_line(out, "won in ", u64::from(depth)),
        Within::Unknown => put_number_line(out, "unknown within ", u64::from(plies)),
    }
}

/// How many legal moves there are.
fn move_count<B: Geometry>(position: &Position<B>) -> u64
    ensures { result ≡ length (moves_of B.shape position.now) }
{
    moves(position).count() as u64
}
