//! What is printed of positions, moves and values, piece by piece.
#![tactic(auto, using(morris_board::proofs::PrinterLaws::takes_laws))]

ghost use Rattle.std.specs.Prelude.{◌∷◌, ◌++◌};
ghost use Rattle.std.specs.Fmt.{decimal};
ghost use Rattle.morris_board.specs.Positions.{text_of};
ghost use Rattle.morris_moves.specs.MoveText.{move_text, taken_text};
ghost use Rattle.morris_probe.specs.Lines.{line, number_line, move_line, value_line};
ghost use Rattle.morris_board.specs.Printers.{Takes};

use morris_board::board::Geometry;
use morris_board::position::Position;
use morris_board::streams::Sink;
use morris_board::streams::printer::Printer;
use morris_moves::game_move::Move;
use morris_pairs::value::Value;

/// The text of a position.
pub fn put_text<B: Geometry, S: Sink>(out: &mut Printer<'_, S>, position: &Position<B>)
    ensures { Takes S.contents S.failures out.old out.new (text_of B.shape position.now) }
{
    let mut line = [0; 24];
    let text = &mut line[..B::POINTS as usize];
    position.write_to(text);
    out.put_bytes(text);
}

/// A position, as a line: its text.
pub fn put_position<B: Geometry, S: Sink>(out: &mut Printer<'_, S>, position: &Position<B>)
    ensures { Takes S.contents S.failures out.old out.new (line (text_of B.shape position.now)) }
{
    put_text(out, position);
    out.put("\n");
}

/// A label and a number.
pub fn put_count<S: Sink>(out: &mut Printer<'_, S>, label: &str, number: u64)
    ensures { Takes S.contents S.failures out.old out.new (label.now ++ decimal number) }
{
    out.put(label);
    out.put_number(number);
}

/// A line of a label and a number.
pub fn put_number_line<S: Sink>(out: &mut Printer<'_, S>, label: &str, number: u64)
    ensures { Takes S.contents S.failures out.old out.new (number_line label.now number) }
{
    put_count(out, label, number);
    out.put("\n");
}

/// A sign and a number.
pub fn put_signed<S: Sink>(out: &mut Printer<'_, S>, sign: u8, number: u8)
    ensures { Takes S.contents S.failures out.old out.new (sign ∷ decimal number) }
{
    out.put_byte(sign);
    out.put_number(u64::from(number));
}

/// What a move takes, if anything.
fn put_taken<S: Sink>(out: &mut Printer<'_, S>, taken: Option<u8>)
    ensures { Takes S.contents S.failures out.old out.new (taken_text taken) }
{
    match taken {
        None => {}
        Some(point) => put_signed(out, b'x', point),
    }
}

/// A move, such as `3-2` or `3-2x22`.
#[tactic(auto, using(morris_board::proofs::PrinterLaws::takes_laws), unfolding(morris_moves::specs::MoveText::move_text))]
pub fn put_move<S: Sink>(out: &mut Printer<'_, S>, m: Move)
    ensures { Takes S.contents S.failures out.old out.new (move_text m) }
{
    out.put_number(u64::from(m.from));
    put_signed(out, b'-', m.to);
    put_taken(out, m.taken);
}

/// A move, as a line.
pub fn put_move_line<S: Sink>(out: &mut Printer<'_, S>, m: Move)
    ensures { Takes S.contents S.failures out.old out.new (move_line m) }
{
    put_move(out, m);
    out.put("\n");
}

/// The value of a position, as a line: `draw`, `won in D` or `lost in D`, with the depth D in
/// plies.
pub fn put_value<S: Sink>(out: &mut Printer<'_, S>, value: Value)
    ensures { Takes S.contents S.failures out.old out.new (value_line value) }
{
    match value {
        Value::Draw => out.put("draw\n"),
        Value::Won(depth) => put_number_line(out, "won in ", u64::from(depth)),
        Value::Lost(depth) => put_number_line(out, "lost in ", u64::from(depth)),
    }
}
