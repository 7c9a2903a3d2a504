//! What is printed of a fault.
#![tactic(auto, using(morris_board::proofs::PrinterLaws::takes_laws))]

ghost use Rattle.std.specs.Prelude.{◌≡◌, ◌≤◌, ◌^◌, length};
ghost use Rattle.morris_jobs.specs.Faults.{fault_text, fault_words, own_text, words_of};
ghost use Rattle.morris_board.specs.Printers.{Takes};

use crate::fault::Fault;
use crate::pairs::put_stones;
use crate::wording::Words;
use morris_board::streams::Sink;
use morris_board::streams::printed::Printed;
use morris_board::streams::printer::Printer;
use morris_probe::print::put_count;

/// The line of the fault.
impl Printed for Fault {
    ghost use Rattle.morris_jobs.specs.Faults.{fault_line};

    ghost bytes = { λ fault. fault_line fault };

    #[tactic(auto, using(morris_board::proofs::PrinterLaws::takes_laws), unfolding(crate::specs::Faults::fault_line))]
    fn put_into<S: Sink>(&self, out: &mut Printer<'_, S>) {
        put_fault(out, *self);
        out.put("\n");
    }
}

/// A fault with its number, as its line begins: `fault N: TEXT`.
pub fn put_fault<S: Sink>(out: &mut Printer<'_, S>, fault: Fault)
    ensures takes { Takes S.contents S.failures out.old out.new (fault_words fault) }
    ensures few { length (fault_words fault) ≤ 2 ^ 9 }
{
    let (number, words) = fault.number_and_text();
    put_count(out, "fault ", u64::from(number));
    out.put(": ");
    put_text(out, fault, words);
}

/// The text of a fault that has these words: they, and the file in which it was met, where it says
/// so.
fn put_text<S: Sink>(out: &mut Printer<'_, S>, fault: Fault, words: Words)
    requires own { words_of words ≡ own_text fault }
    ensures { Takes S.contents S.failures out.old out.new (fault_text fault) }
{
    match fault {
        Fault::InFile(greater, lesser, _) => {
            put_words(out, words);
            out.put(", in the file of ");
            put_stones(out, greater, lesser);
        }
        _ => put_words(out, words),
    }
}

/// Words, with the number or the pair among them.
fn put_words<S: Sink>(out: &mut Printer<'_, S>, words: Words)
    ensures { Takes S.contents S.failures out.old out.new (words_of words) }
{
    match words {
        Words::Plain(text) => out.put(text),
        Words::Number(before, number, after) => {
            out.put(before);
            out.put_number(number);
            out.put(after);
        }
        Words::Pair(before, greater, lesser, after) => {
            out.put(before);
            put_stones(out, greater, lesser);
            out.put(after);
        }
    }
}
