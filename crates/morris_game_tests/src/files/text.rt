// A file's bytes that are written in two parts.
ghost use Rattle.std.specs.Prelude.{◌++◌};

use morris_board::streams::{Failed, Sink, put};
use morris_files::whole::Contents;
use morris_workers::Watch;
use sha2::{Digest, Sha256};

/// Two byte strings, one after the other.
#[derive(Clone, Copy, Debug)]
pub struct Two<'a>(pub &'a [u8], pub &'a [u8]);

impl Contents for Two<'_> {
    ghost bytes = { λ s. s.0.now ++ s.1.now };

    fn write_to<S: Sink, W: Watch>(
        &self,
        sink: &mut S,
        _watch: &mut W,
    ) -> Result<[u8; 32], Failed> {
        let Two(first, second) = *self;
        if put(sink, 0, first).is_err() || put(sink, 0, second).is_err() {
            return Err(Failed);
        }
        let mut hasher = Sha256::new();
        hasher.update(first);
        hasher.update(second);
        Ok(hasher.finalize())
    }
}
