//! What is printed of an answer.
ghost use Rattle.std.specs.Prelude.{ℕ, ◌∷◌, ◌++◌, [], List, codes};
ghost use Rattle.std.specs.List.{flat_map};
ghost use Rattle.hex.specs.Hex.{encode_lower};
ghost use Rattle.morris_queries.specs.Printing.{best_text, csv_line, csv_value, first_line, outcome_line, ply_line, shown_byte, shown_text, with_space, value_text};
ghost use Rattle.morris_board.specs.Printers.{Takes};

use crate::report::{Ply, Report};
use crate::show::Show;
use hex::encode_to_slice;
use morris_board::board::Geometry;
use morris_board::streams::Sink;
use morris_board::streams::printed::Printed;
use morris_board::streams::printer::Printer;
use morris_jobs::fault::Fault;
use morris_jobs::print_fault::put_fault;
use morris_lookup::outcomes::Outcome;
use morris_moves::game_move::Move;
use morris_pairs::value::Value;
use morris_probe::print::{put_count, put_move, put_number_line, put_text};

/// A blank and the value: `draw`, `won in D` or `lost in D`, with the depth D in plies.
fn put_value<S: Sink>(out: &mut Printer<'_, S>, value: Value)
    ensures { Takes S.contents S.failures out.old out.new (codes " " ++ value_text value) }
{
    match value {
        Value::Draw => out.put(" draw"),
        Value::Won(depth) => put_count(out, " won in ", u64::from(depth)),
        Value::Lost(depth) => put_count(out, " lost in ", u64::from(depth)),
    }
}

/// What is printed in a list.
trait Listed {
    // What stands there for it.
    ghost text: { Self → List ℕ };

    /// Puts that into `out`.
    fn put_listed<S: Sink>(&self, out: &mut Printer<'_, S>)
        ensures { Takes S.contents S.failures out.old out.new (text self.now) };
}

/// In the text that was asked about.
#[tactic(auto, unfolding(crate::specs::Printing::shown_byte))]
impl Listed for u8 {
    ghost text = { shown_byte };

    fn put_listed<S: Sink>(&self, out: &mut Printer<'_, S>) {
        match *self {
            b'\\' => out.put("\\\\"),
            b' '..=b'~' => out.put_byte(*self),
            byte => put_escaped(out, byte),
        }
    }
}

/// A byte that isn't a printable character: a backslash, an `x`, and its two hexadecimal digits.
fn put_escaped<S: Sink>(out: &mut Printer<'_, S>, byte: u8)
    ensures { Takes S.contents S.failures out.old out.new (codes "\\x" ++ encode_lower (byte ∷ [])) }
{
    let mut digits = [0; 2];
    let _ = encode_to_slice([byte], &mut digits);
    out.put("\\x");
    out.put_bytes(&digits);
}

/// In the list of the best moves.
impl Listed for Move {
    ghost text = { with_space };

    fn put_listed<S: Sink>(&self, out: &mut Printer<'_, S>) {
        out.put(" ");
        put_move(out, *self);
    }
}

/// In the list of what each legal move leads to.
impl Listed for Outcome {
    ghost text = { outcome_line };

    fn put_listed<S: Sink>(&self, out: &mut Printer<'_, S>) {
        out.put("  ");
        put_move(out, self.step);
        put_value(out, self.value);
        out.put("\n");
    }
}

/// In a line of play.
impl<B: Geometry> Listed for Ply<B> {
    ghost text = { ply_line B.shape };

    fn put_listed<S: Sink>(&self, out: &mut Printer<'_, S>) {
        out.put("  ");
        put_move(out, self.step);
        out.put(" ");
        put_text(out, &self.position);
        put_value(out, self.value);
        out.put("\n");
    }
}

/// A list, one after the other.
fn put_list<T: Listed, S: Sink>(out: &mut Printer<'_, S>, list: &[T])
    ensures { Takes S.contents S.failures out.old out.new (flat_map T.text list.now) }
{
    for item in list {
        item.put_listed(out);
    }
}

/// A text, byte by byte, so that it stays one line and no terminal takes a byte for a command: a
/// backslash as two, and what is no printable character of ASCII as `\x` and two hexadecimal
/// digits.
pub fn put_visible<S: Sink>(out: &mut Printer<'_, S>, text: &[u8])
    ensures { Takes S.contents S.failures out.old out.new (flat_map shown_byte text.now) }
{
    put_list(out, text);
}

/// The best moves after a colon, and nothing where there are none.
#[tactic(auto, using(morris_board::proofs::PrinterLaws::takes_laws))]
fn put_best<S: Sink>(out: &mut Printer<'_, S>, best: &[Move])
    ensures { Takes S.contents S.failures out.old out.new (best_text best.now) }
{
    if best.is_empty() {
        return;
    }
    out.put(":");
    put_list(out, best);
}

/// The text that was asked about, without any byte that isn't a printable character. Of one that is
/// too long the first bytes stand there, and that it is too long.
#[tactic(auto, using(morris_board::proofs::PrinterLaws::takes_laws))]
fn put_shown<S: Sink>(out: &mut Printer<'_, S>, points: u8, text: &[u8])
    ensures { Takes S.contents S.failures out.old out.new (shown_text points text.now) }
{
    let points = usize::from(points);
    if text.len() <= points {
        put_list(out, text);
        return;
    }
    put_list(out, &text[..points]);
    out.put(" (too long)");
}

/// The text, the value and the best moves, as a line.
fn put_first_line<B: Geometry, S: Sink>(out: &mut Printer<'_, S>, text: &[u8], reported: &Report<B>)
    ensures { Takes S.contents S.failures out.old out.new (first_line B.POINTS text.now reported.now) }
{
    put_shown(out, B::POINTS, text);
    put_value(out, reported.value());
    put_best(out, reported.best());
    out.put("\n");
}

/// The end of a line of fields: the result that a move leads to, and its depth, which a draw
/// hasn't.
fn put_csv_value<S: Sink>(out: &mut Printer<'_, S>, value: Value)
    ensures { Takes S.contents S.failures out.old out.new (csv_value value) }
{
    match value {
        Value::Draw => out.put(",draw,\n"),
        Value::Won(depth) => put_number_line(out, ",won,", u64::from(depth)),
        Value::Lost(depth) => put_number_line(out, ",lost,", u64::from(depth)),
    }
}

/// A move and what it leads to, as a line of fields after the text that was asked about.
fn put_csv_line<S: Sink>(out: &mut Printer<'_, S>, points: u8, text: &[u8], outcome: &Outcome)
    ensures { Takes S.contents S.failures out.old out.new (csv_line points text.now outcome.now) }
{
    put_shown(out, points, text);
    out.put(",");
    put_move(out, outcome.step);
    put_csv_value(out, outcome.value);
}

/// The legal moves and what they lead to, as lines of fields.
fn put_csv<S: Sink>(out: &mut Printer<'_, S>, points: u8, text: &[u8], outcomes: &[Outcome])
    ensures { Takes S.contents S.failures out.old out.new (flat_map (csv_line points text.now) outcomes.now) }
{
    for outcome in outcomes {
        put_csv_line(out, points, text, outcome);
    }
}

/// The report of a position, with the text that was asked about.
#[derive(Drop)]
pub(crate) struct ReportLines<'a, B: Geometry> {
    /// The text.
    pub(crate) text: &'a [u8],
    /// What is shown.
    pub(crate) show: Show,
    /// The report.
    pub(crate) reported: &'a Report<B>,
}

#[tactic(auto, using(morris_board::proofs::PrinterLaws::takes_laws), unfolding(crate::specs::Printing::reported_text))]
impl<B: Geometry> Printed for ReportLines<'_, B> {
    ghost use Rattle.morris_queries.specs.Printing.{reported_text, IsShort};

    ghost bytes = { λ answer. reported_text B.shape answer.show answer.text.now answer.reported.now };

    ghost is_short = { λ answer. IsShort answer.reported.now };

    fn put_into<S: Sink>(&self, out: &mut Printer<'_, S>) {
        match self.show {
            Show::Best => put_first_line(out, self.text, self.reported),
            Show::Moves => {
                put_first_line(out, self.text, self.reported);
                put_list(out, self.reported.outcomes());
            }
            Show::Line => {
                put_first_line(out, self.text, self.reported);
                put_list(out, self.reported.line());
            }
            Show::Csv => put_csv(out, B::POINTS, self.text, self.reported.outcomes()),
        }
    }
}

/// The line of a fault after the text that was asked about.
#[derive(Drop)]
pub(crate) struct Refused<'a> {
    /// The text.
    pub(crate) text: &'a [u8],
    /// How many points the board has.
    pub(crate) points: u8,
    /// The fault.
    pub(crate) fault: Fault,
}

impl Printed for Refused<'_> {
    ghost use Rattle.std.specs.Prelude.{◌≤◌, ◌++◌, codes};
    ghost use Rattle.morris_jobs.specs.Faults.{fault_line};
    ghost use Rattle.morris_queries.specs.Printing.{shown_text};

    ghost bytes = { λ answer. shown_text answer.points answer.text.now ++ codes ": " ++ fault_line answer.fault };

    ghost is_short = { λ answer. answer.points ≤ 24 };

    fn put_into<S: Sink>(&self, out: &mut Printer<'_, S>) {
        put_shown(out, self.points, self.text);
        out.put(": ");
        put_fault(out, self.fault);
        out.put("\n");
    }
}
