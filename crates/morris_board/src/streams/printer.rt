//! A printer: a sink with a buffer of fixed size in front, so that a text of many parts goes out in
//! few writes. The calls that print answer nothing: whether all went out is asked once, at the end.
ghost use Rattle.std.specs.Prelude.{◌≡◌, ◌+◌, ◌≤◌, [], ◌∷◌, ◌++◌, length};
ghost use Rattle.std.specs.Fmt.{decimal};
ghost use Rattle.morris_board.specs.Printers.{IsNew, LetsOut, Takes, has_failed_of, held_of, lent_of, outlet, outlet_of, sink_of, answer_of};

use super::{Sink, put};
use arrayvec::ArrayVec;
use itoa::Buffer;

/// How many bytes a [`Printer`] holds back at most.
pub const HELD: usize = 8192;

/// A sink with a buffer of [`HELD`] bytes in front, which takes no memory.
///
/// What is put in goes out where the buffer is full, and at [`finish`](Printer::finish). After a
/// write that failed nothing more goes out, and nothing is tried again.
#[derive(Drop)]
pub struct Printer<'a, S> {
    sink: &'a mut S,
    held: ArrayVec<u8, HELD>,
    sent: u64,
    failed: bool,
}

impl<'a, S: Sink> Printer<'a, S> {
    /// A printer into `sink`, into which nothing was put yet.
    pub fn new(sink: &'a mut S) -> Printer<'a, S>
        ensures lent { lent_of result ≡ sink.entry.ghost_name }
        ensures sink { sink_of result ≡ sink.old }
        ensures new { IsNew result }
    {
        Printer {
            sink,
            held: ArrayVec::new(),
            sent: 0,
            failed: false,
        }
    }

    /// Puts a text in.
    pub fn put(&mut self, text: &str)
        ensures { Takes S.contents S.failures self.old self.new text.now }
    {
        self.put_bytes(text.as_bytes());
    }

    /// Puts one byte in.
    pub fn put_byte(&mut self, byte: u8)
        ensures { Takes S.contents S.failures self.old self.new (byte ∷ []) }
    {
        self.put_bytes(&[byte]);
    }

    /// Puts the decimal digits of `number` in.
    pub fn put_number(&mut self, number: u64)
        ensures { Takes S.contents S.failures self.old self.new (decimal number) }
    {
        let mut digits = Buffer::new();
        self.put(digits.format(number));
    }

    /// Puts bytes in.
    pub fn put_bytes(&mut self, bytes: &[u8])
        ensures { Takes S.contents S.failures self.old self.new bytes.now }
    {
        if bytes.len() <= self.held.remaining_capacity() {
            self.hold(bytes);
        } else {
            self.flush();
            self.pass(bytes);
        }
    }

    /// Holds bytes back, for which there is room.
    fn hold(&mut self, bytes: &[u8])
        requires { length (held_of self.old) + length bytes.now ≤ HELD }
        ensures same { lent_of self.new ≡ lent_of self.old }
        ensures held { held_of self.new ≡ held_of self.old ++ bytes.now }
        ensures outlet { outlet_of self.new ≡ outlet_of self.old }
    {
        let _ = self.held.try_extend_from_slice(bytes);
    }

    /// Lets bytes out that are too many to be held, and holds others, where nothing is held.
    fn pass(&mut self, bytes: &[u8])
        requires { held_of self.old ≡ [] }
        ensures { Takes S.contents S.failures self.old self.new bytes.now }
    {
        if HELD < bytes.len() {
            let_out(self.sink, &mut self.sent, &mut self.failed, bytes);
        } else {
            self.hold(bytes);
        }
    }

    /// Lets all out that is held.
    fn flush(&mut self)
        ensures takes { Takes S.contents S.failures self.old self.new [] }
        ensures empty { held_of self.new ≡ [] }
    {
        let held = self.held.as_slice();
        let_out(self.sink, &mut self.sent, &mut self.failed, held);
        self.held.clear();
    }

    /// Whether a write failed.
    pub fn has_failed(&self) -> bool
        ensures { result ≡ has_failed_of self.now }
    {
        self.failed
    }

    /// Lets all out that is held, and answers how many bytes went out; where a write failed, how
    /// many did before it, as the refusal. The count stays at `u64::MAX`.
    pub fn finish(&mut self) -> Result<u64, u64>
        ensures takes { Takes S.contents S.failures self.old self.new [] }
        ensures empty { held_of self.new ≡ [] }
        ensures told { result ≡ answer_of self.new }
    {
        self.flush();
        if self.failed {
            Err(self.sent)
        } else {
            Ok(self.sent)
        }
    }
}

/// Writes all of `text`, or as much of it as goes out before a write fails, and counts the bytes.
/// Nothing is written after a write that failed.
fn let_out<S: Sink>(sink: &mut S, sent: &mut u64, failed: &mut bool, text: &[u8])
    ensures { LetsOut S.contents S.failures (outlet sink.old sent.old failed.old) (outlet sink.new sent.new failed.new) text.now [] }
{
    if *failed {
        return;
    }
    if text.is_empty() {
        return;
    }
    // No write is tried whose failure couldn't be counted any more.
    if sink.failures() == u64::MAX {
        *failed = true;
        return;
    }
    match put(sink, 0, text) {
        Ok(count) => *sent = sent.saturating_add(count),
        Err(count) => {
            *sent = sent.saturating_add(count);
            *failed = true;
        }
    }
}
