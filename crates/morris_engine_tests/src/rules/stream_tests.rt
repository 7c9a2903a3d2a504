//! std's readers and writers that fail, and what a printer buffers.
ghost use Rattle.std.specs.Prelude.{◌≡◌, ◌<◌, ◌^◌, IfOk};

use crate::checks::{holds, same, same_bytes};
use crate::counting::Counting;
use crate::drip::Drip;
use morris_board::streams::printer::Printer;
use morris_board::streams::{Failed, FromRead, IntoWrite, Sink, Source, put};
use std::alloc::Global;
use std::io;
use std::io::{ErrorKind, Read, Write};
use std::process::Abort;

/// Three reads of a byte. Whether each succeeded, in order.
fn read_thrice<S: Source>(source: &mut S) -> (bool, bool, bool)
    requires { S.failures source.old < 2 ^ 62 }
{
    let mut buffer = [0];
    let first = source.read(&mut buffer).is_ok();
    let second = source.read(&mut buffer).is_ok();
    (first, second, source.read(&mut buffer).is_ok())
}

// The failure is reported at its own call, and the next call goes on with the next byte.
#[test]
fn a_source_tells_which_call_failed(rt: HostRuntime) {
    let mut source = FromRead::new(Drip::new(b"men", 1));
    let succeeded = read_thrice(&mut source) == (true, false, true);
    holds(&rt, succeeded, "the second call failed");
    same(&rt, source.failures(), 1, "failures");
    same_bytes(&rt, source.into_inner().left, b"n");
}

/// Answers each call with the same fault, or with 0 bytes.
#[derive(Drop)]
struct Stuck {
    fault: Option<ErrorKind>,
    calls: u64,
}

impl Stuck {
    fn answer(&mut self) -> io::Result<usize>
        ensures { IfOk result (λ n. n ≡ 0) }
    {
        self.calls = self.calls.saturating_add(1);
        match self.fault {
            Some(kind) => Err(io::Error::from(kind)),
            None => Ok(0),
        }
    }
}

impl Read for Stuck {
    fn read(&mut self, _buffer: &mut [u8]) -> io::Result<usize> {
        self.answer()
    }
}

impl Write for Stuck {
    fn write(&mut self, _bytes: &[u8]) -> io::Result<usize> {
        self.answer()
    }

    fn flush(&mut self) -> io::Result<()> {
        Ok(())
    }
}

/// A write of some bytes fails, and isn't tried again.
fn assert_write_fails(rt: &impl Abort, fault: Option<ErrorKind>) {
    let mut sink = IntoWrite::new(Stuck { fault, calls: 0 });
    let failed = put(&mut sink, 3, b"morris") == Err(3);
    holds(rt, failed, "fault");
    same(rt, sink.failures(), 1, "failures");
    same(rt, sink.into_inner().calls, 1, "calls");
}

/// A read gives this answer, and isn't tried again.
fn assert_read(rt: &impl Abort, fault: Option<ErrorKind>, answer: Result<usize, Failed>) {
    let mut source = FromRead::new(Stuck { fault, calls: 0 });
    let answered = source.read(&mut [0; 4]) == answer;
    holds(rt, answered, "answer");
    same(
        rt,
        source.failures(),
        u64::from(answer.is_err()),
        "failures",
    );
    same(rt, source.into_inner().calls, 1, "calls");
}

// A fault that std's own `write_all` would try again is a failure like any other.
#[test]
fn the_adapters_count_faults(rt: HostRuntime) {
    assert_write_fails(&rt, Some(ErrorKind::Other));
    assert_write_fails(&rt, Some(ErrorKind::Interrupted));
    assert_write_fails(&rt, None);
    assert_read(&rt, Some(ErrorKind::Other), Err(Failed));
    assert_read(&rt, Some(ErrorKind::Interrupted), Err(Failed));
    assert_read(&rt, None, Ok(0));
}

/// After 5,000 bytes others are put in. So many bytes have gone out then, in so many writes.
fn assert_gone(rt: &impl Abort, alloc: Global, second: &[u8], sent: u64, writes: u64) {
    let mut sink = Counting::new(alloc, 100_000, 100_000);
    let mut out = Printer::new(&mut sink);
    out.put_bytes(&[b'X'; 5_000]);
    out.put_bytes(second);
    holds(rt, !out.has_failed(), "both are put");
    same(
        rt,
        sink.taken.len() as u64,
        sent,
        "bytes that have gone out",
    );
    same(rt, sink.calls, writes, "writes");
}

// Bytes that don't fit any more send out what is in the buffer; those that are longer than the
// buffer go out after it at once.
#[test]
fn what_does_not_fit_goes_out(rt: HostRuntime) {
    assert_gone(&rt, rt.alloc(), &[b'O'; 3_000], 0, 0);
    assert_gone(&rt, rt.alloc(), &[b'O'; 5_000], 5_000, 1);
    assert_gone(&rt, rt.alloc(), &[b'O'; 9_000], 14_000, 2);
}
