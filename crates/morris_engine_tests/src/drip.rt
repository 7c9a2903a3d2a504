//! A reader that gives a byte a call, and fails at one of its calls.
use std::io;
use std::io::{ErrorKind, Read};

/// Gives a byte a call, and fails at one of its calls. The next call goes on where it stood.
#[derive(Drop)]
pub struct Drip<'a> {
    /// The bytes that are still to be given.
    pub left: &'a [u8],
    /// How often it was called.
    pub calls: u64,
    /// How many calls come before the one that fails.
    pub before: u64,
}

impl<'a> Drip<'a> {
    /// A reader of these bytes that fails at the call after so many others.
    pub fn new(left: &'a [u8], before: u64) -> Drip<'a> {
        Drip {
            left,
            calls: 0,
            before,
        }
    }
}

impl Read for Drip<'_> {
    fn read(&mut self, buffer: &mut [u8]) -> io::Result<usize> {
        let calls = self.calls;
        self.calls = calls.saturating_add(1);
        if calls == self.before {
            return Err(io::Error::from(ErrorKind::Other));
        }
        let count = buffer.len().min(1);
        self.left.read(&mut buffer[..count])
    }
}
