//! Texts that are printed, and how many bytes of one went out.
ghost use Rattle.std.specs.Prelude.{◌≡◌, ℕ, ◌-◌, ◌^◌, ◌<◌, List, ⊤, length, IfOk};
ghost use Rattle.morris_board.specs.Streams.{CountsFailure};
ghost use Rattle.morris_board.specs.Printers.{IsNew, Takes, WentOut, lent_of, sink_of};

use super::Sink;
use super::printer::Printer;

/// A text that can be printed.
pub trait Printed {
    // Its bytes.
    ghost bytes: { Self → List ℕ };
    // That they are few enough to be counted.
    ghost is_short: { Self → Type 0 } = { λ text. ⊤ };

    /// Puts the text in, part by part.
    fn put_into<S: Sink>(&self, out: &mut Printer<'_, S>)
        ensures takes { Takes S.contents S.failures out.old out.new (bytes self.now) }
        ensures few { is_short self.now → length (bytes self.now) < 2 ^ 63 };
}

/// A text as it stands.
impl Printed for &str {
    ghost bytes = { λ text. text.now };

    fn put_into<S: Sink>(&self, out: &mut Printer<'_, S>) {
        out.put(self);
    }
}

/// Sends a text to the last byte, and answers how many bytes it has; at the first write that fails,
/// how many went out, as the refusal.
pub fn send<P: Printed, S: Sink>(text: &P, sink: &mut S) -> Result<u64, u64>
    requires short { P.is_short text.now }
    requires failures { S.failures sink.old < 2 ^ 64 - 1 }
    ensures sent { WentOut (S.contents sink.old) (S.contents sink.new) (P.bytes text.now) result }
    ensures few { length (P.bytes text.now) < 2 ^ 63 }
    ensures whole { IfOk result (λ sent. sent ≡ length (P.bytes text.now)) }
    ensures counted { CountsFailure (S.failures sink.old) (S.failures sink.new) result }
{
    let mut out = Printer::new(sink);
    put_all(text, &mut out)
}

/// Puts the whole text in, where nothing was put in before, and answers as [`send`] does.
fn put_all<P: Printed, S: Sink>(text: &P, out: &mut Printer<'_, S>) -> Result<u64, u64>
    requires new { IsNew out.old }
    requires short { P.is_short text.now }
    requires failures { S.failures (sink_of out.old) < 2 ^ 64 - 1 }
    ensures same { lent_of out.new ≡ lent_of out.old }
    ensures sent { WentOut (S.contents (sink_of out.old)) (S.contents (sink_of out.new)) (P.bytes text.now) result }
    ensures few { length (P.bytes text.now) < 2 ^ 63 }
    ensures whole { IfOk result (λ sent. sent ≡ length (P.bytes text.now)) }
    ensures counted { CountsFailure (S.failures (sink_of out.old)) (S.failures (sink_of out.new)) result }
{
    text.put_into(out);
    out.finish()
}
