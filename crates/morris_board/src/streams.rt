//! Where bytes are read from and written to, with a count of the calls that failed.
ghost use Rattle.std.specs.Prelude.{◌≡◌, ℕ, ◌+◌, ◌-◌, ◌^◌, ◌<◌, List, Option, length, IfOk};
ghost use Rattle.std.specs.Io.{ReadsAtMost, WritesAtMost};
ghost use Rattle.std.specs.Io.KnownBytes.{ReadConsumes, WriteAppends};
ghost use Rattle.morris_board.specs.Streams.{Counted, counted, CountsFailure, HasSent, read_answer, write_answer};

use std::io;
use std::io::{Read, Write};
use std::marker::Model;
use thiserror::Error;

pub mod printed;
pub mod printer;

/// A call of a stream failed. The reason isn't stored: what matters is that it failed, and the
/// stream counts it.
#[derive(Debug, Clone, Copy, PartialEq, Eq, Error)]
#[error("a call of a stream failed")]
pub struct Failed;

/// Where bytes are read from.
pub trait Source {
    /// The bytes that are still to be read, where they are known.
    ghost remaining: { Self → Option (List ℕ) };

    /// How many calls have failed.
    ghost failures: { Self → ℕ };

    /// Reads bytes into the front of `buffer`, and answers how many, at most all of it.
    ///
    /// What the buffer has past the answer, and all of it after a failure, is open. Fewer than
    /// `u64::MAX` calls may have failed before. 0 for a buffer that isn't empty is the end of the
    /// source. A failed call has read nothing, is counted by [`failures`](Source::failures), and
    /// isn't tried again.
    fn read(&mut self, buffer: &mut [u8]) -> Result<usize, Failed>
        requires { failures self.old < 2 ^ 64 - 1 }
        ensures bound { ReadsAtMost result buffer.new }
        ensures bytes { ReadConsumes (remaining self.old) (remaining self.new) result buffer.new }
        ensures counted { CountsFailure (failures self.old) (failures self.new) result };

    /// How many calls have failed since the source was made.
    fn failures(&self) -> u64
        ensures { result ≡ failures self.now };
}

/// Where bytes are written to.
pub trait Sink {
    /// The bytes that were taken, where they are known.
    ghost contents: { Self → Option (List ℕ) };

    /// How many calls have failed.
    ghost failures: { Self → ℕ };

    /// Takes bytes from the front of `bytes`, and answers how many: at most all, and at least one
    /// where there is one.
    ///
    /// A failed call has taken nothing, is counted by [`failures`](Sink::failures), and isn't tried
    /// again. Fewer than `u64::MAX` calls may have failed before.
    fn write(&mut self, bytes: &[u8]) -> Result<usize, Failed>
        requires { failures self.old < 2 ^ 64 - 1 }
        ensures bound { WritesAtMost result bytes.now }
        ensures progress { IfOk result (λ n. 0 < length bytes.now → 0 < n) }
        ensures bytes { WriteAppends (contents self.old) (contents self.new) result bytes.now }
        ensures counted { CountsFailure (failures self.old) (failures self.new) result };

    /// How many calls have failed since the sink was made.
    fn failures(&self) -> u64
        ensures { result ≡ failures self.now };
}

/// A [`Source`] over a reader of std. Each fault of the reader is a failure, `Interrupted` too.
#[derive(Debug, Drop)]
pub struct FromRead<R> {
    reader: R,
    failed: u64,
}

impl<R> Model for FromRead<R> {
    ghost Value = { Counted R };

    ghost view = { λ s. record { inner = s.reader; failures = s.failed } };
}

impl<R: Read> FromRead<R> {
    /// A source of what `reader` gives, of which no call has failed yet.
    pub fn new(reader: R) -> FromRead<R>
        ensures { result ≡ counted reader 0 }
    {
        FromRead { reader, failed: 0 }
    }

    /// The reader, as the calls so far have left it.
    pub fn into_inner(self) -> R
        ensures { result ≡ self.inner }
    {
        self.reader
    }
}

impl<R: Read> Source for FromRead<R> {
    ghost remaining = { λ s. R.remaining s.inner };

    ghost failures = { λ s. s.failures };

    fn read(&mut self, buffer: &mut [u8]) -> Result<usize, Failed> {
        let answer = self.reader.read(buffer);
        answer_to_read(answer, &mut self.failed)
    }

    fn failures(&self) -> u64 {
        self.failed
    }
}

/// A [`Sink`] over a writer of std. Each fault of the writer is a failure, `Interrupted` too, and
/// so is a write that took 0 bytes of some.
///
/// `Ok` says that the writer took the bytes. `Stdout` holds nothing back, since its `write` is the
/// system call itself: the bytes have then left the process. A writer that does hold bytes back,
/// such as a `BufWriter`, has to be flushed after [`into_inner`](IntoWrite::into_inner), and a
/// fault there is the caller's to report. The sink doesn't flush by itself: where the write took
/// bytes and the flush then failed, the answer could be neither `Ok` nor "nothing was taken".
#[derive(Debug, Drop)]
pub struct IntoWrite<W> {
    writer: W,
    failed: u64,
}

impl<W> Model for IntoWrite<W> {
    ghost Value = { Counted W };

    ghost view = { λ s. record { inner = s.writer; failures = s.failed } };
}

impl<W: Write> IntoWrite<W> {
    /// A sink into `writer`, of which no call has failed yet.
    pub fn new(writer: W) -> IntoWrite<W>
        ensures { result ≡ counted writer 0 }
    {
        IntoWrite { writer, failed: 0 }
    }

    /// The writer, with what the calls so far have written.
    pub fn into_inner(self) -> W
        ensures { result ≡ self.inner }
    {
        self.writer
    }
}

impl<W: Write> Sink for IntoWrite<W> {
    ghost contents = { λ s. W.contents s.inner };

    ghost failures = { λ s. s.failures };

    fn write(&mut self, bytes: &[u8]) -> Result<usize, Failed> {
        let answer = self.writer.write(bytes);
        answer_to_write(answer, bytes.len(), &mut self.failed)
    }

    fn failures(&self) -> u64 {
        self.failed
    }
}

/// What a source answers where the reader behind it answered this, and the count of its failures
/// after it: each fault is a failure, and nothing else is.
fn answer_to_read(answer: io::Result<usize>, failed: &mut u64) -> Result<usize, Failed>
    requires { failed.old < 2 ^ 64 - 1 }
    ensures answer { result ≡ read_answer answer }
    ensures counted { CountsFailure failed.old failed.new result }
{
    match answer {
        Ok(count) => Ok(count),
        Err(_) => {
            *failed += 1;
            Err(Failed)
        }
    }
}

/// What a sink answers where the writer behind it answered this to a write of so many bytes, and
/// the count of its failures after it: each fault is a failure, and so is a write that took none of
/// some bytes, and nothing else is.
fn answer_to_write(
    answer: io::Result<usize>,
    length: usize,
    failed: &mut u64,
) -> Result<usize, Failed>
    requires { failed.old < 2 ^ 64 - 1 }
    ensures answer { result ≡ write_answer length answer }
    ensures counted { CountsFailure failed.old failed.new result }
{
    match answer {
        Ok(taken) if 0 < taken || length == 0 => Ok(taken),
        _ => {
            *failed += 1;
            Err(Failed)
        }
    }
}

/// Writes all of `text`, in as many writes as it takes, where `sent` bytes went out before.
///
/// `Ok` is the number of bytes that have then gone out, those sent before included; it has to fit a
/// `u64`. The first write that fails ends it: `Err` is the number of bytes that went out up to
/// there, those sent before included, and nothing is tried again.
pub fn put<S: Sink>(sink: &mut S, sent: u64, text: &[u8]) -> Result<u64, u64>
    requires failures { S.failures sink.old < 2 ^ 64 - 1 }
    requires room { sent + length text.now < 2 ^ 64 }
    ensures sent { HasSent (S.contents sink.old) (S.contents sink.new) sent text.now result }
    ensures counted { CountsFailure (S.failures sink.old) (S.failures sink.new) result }
{
    let mut done = 0;
    while done < text.len() {
        match sink.write(&text[done..]) {
            Ok(taken) => done += taken,
            Err(Failed) => return Err(sent + done as u64),
        }
    }
    Ok(sent + done as u64)
}
