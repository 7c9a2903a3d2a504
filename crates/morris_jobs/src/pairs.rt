//! Pairs by their names on the command line, and how a pair is printed.
ghost use Rattle.std.specs.Prelude.{◌≡◌};
ghost use Rattle.morris_index.specs.Pairs.{pair_text};
ghost use Rattle.morris_jobs.specs.Faults.{stones_text};
ghost use Rattle.morris_jobs.specs.PairText.{read_pair_of};
ghost use Rattle.morris_board.specs.Printers.{Takes};

use crate::fault::Fault;
use morris_board::board::Geometry;
use morris_board::streams::Sink;
use morris_board::streams::printer::Printer;
use morris_index::pair::Pair;
use morris_probe::print::put_signed;

/// The pair that a text names: a digit, a hyphen and a digit, as `4-3`, in either order.
///
/// # Errors
/// [`Fault::PairText`] for any other text, else [`Fault::Counts`] where a number isn't 3 to 9, else
/// [`Fault::Crowded`] where the board has fewer points than there are stones.
pub fn read_pair<B: Geometry>(text: &str) -> Result<Pair<B>, Fault>
    ensures { result ≡ read_pair_of B.POINTS text.now }
{
    match text.as_bytes() {
        [a, b'-', b] if a.is_ascii_digit() && b.is_ascii_digit() => {
            Ok(Pair::new(*a - b'0', *b - b'0')?)
        }
        _ => Err(Fault::PairText),
    }
}

/// Puts numbers of stones, with a hyphen between them, into a buffer.
#[tactic(auto, using(morris_board::proofs::PrinterLaws::takes_laws))]
pub fn put_stones<S: Sink>(out: &mut Printer<'_, S>, greater: u8, lesser: u8)
    ensures { Takes S.contents S.failures out.old out.new (stones_text greater lesser) }
{
    out.put_number(u64::from(greater));
    put_signed(out, b'-', lesser);
}

/// The numbers of a pair.
pub fn put_pair<B: Geometry, S: Sink>(out: &mut Printer<'_, S>, pair: Pair<B>)
    ensures { Takes S.contents S.failures out.old out.new (pair_text pair) }
{
    put_stones(out, pair.greater(), pair.lesser());
}
