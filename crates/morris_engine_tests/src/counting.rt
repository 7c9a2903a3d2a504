//! A sink over memory that takes a few bytes a call and fails once it is full.
ghost use Rattle.std.specs.Prelude.{◌≡◌, Some};

use morris_board::streams::{Failed, Sink};
use std::alloc::Global;

/// Takes up to a number of bytes a call, and fails at the call after it has taken as many as it has
/// room for.
#[derive(Drop)]
pub struct Counting {
    /// The bytes that were taken.
    pub taken: Vec<u8>,
    /// How many bytes it takes a call at most.
    at_once: usize,
    /// How many bytes it takes in all.
    room: usize,
    /// How often it was called.
    pub calls: u64,
    /// How many calls failed.
    pub failed: u64,
}

impl Counting {
    /// A sink that was not called yet.
    pub fn new(alloc: Global, at_once: usize, room: usize) -> Counting
        ensures { result.failed ≡ 0 }
    {
        Counting {
            taken: Vec::new(alloc),
            at_once,
            room,
            calls: 0,
            failed: 0,
        }
    }
}

impl Sink for Counting {
    ghost contents = { λ s. Some s.taken.items };

    ghost failures = { λ s. s.failed };

    fn write(&mut self, bytes: &[u8]) -> Result<usize, Failed> {
        self.calls = self.calls.saturating_add(1);
        if bytes.is_empty() {
            return Ok(0);
        }
        let count = bytes
            .len()
            .min(self.at_once)
            .min(self.room.saturating_sub(self.taken.len()));
        if count == 0 || self.taken.extend_from_slice(&bytes[..count]).is_err() {
            self.failed += 1;
            return Err(Failed);
        }
        Ok(count)
    }

    fn failures(&self) -> u64 {
        self.failed
    }
}
