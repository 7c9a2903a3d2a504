//! Where the bytes of a table file lie.
ghost use Rattle.std.specs.Prelude.{◌≡◌, ℕ, List, Option, Some, None, length, IfOk, IfSome, OnOk};
ghost use Rattle.morris_lookup.specs.Storage.{LiesWithin, ReadsAt, CountsBytes, bytes_at};

use morris_board::streams::Failed;
use std::fs::File;
use std::os::unix::fs::FileExt;

/// Bytes that can be read at any place, as those of a file, and that nobody changes meanwhile.
pub trait Storage {
    /// The bytes, where they are known. Then no call fails.
    ghost contents: { Self → Option (List ℕ) };

    /// The bytes, where they are known, whether or not calls may fail. Those of `contents` are.
    ghost held: { Self → Option (List ℕ) };

    /// How many bytes there are.
    ///
    /// # Errors
    /// [`Failed`] where that can't be asked for.
    fn len(&self) -> Result<u64, Failed>
        ensures counted { CountsBytes (contents self.now) result }
        ensures right { IfSome (held self.now) (λ bytes. IfOk result (λ count. count ≡ length bytes)) };

    /// Fills `out` with the bytes from `place` on. All of them have to be there.
    ///
    /// # Errors
    /// [`Failed`] where they can't be read. Then `out` is open.
    fn read_at(&self, place: u64, out: &mut [u8]) -> Result<(), Failed>
        requires { LiesWithin (contents self.now) place (length out.old) }
        ensures size { length out.new ≡ length out.old }
        ensures bytes { ReadsAt (contents self.now) place out.new result }
        ensures right { IfSome (held self.now) (λ bytes. OnOk result (out.new ≡ bytes_at bytes place (length out.new))) };

    ghost contents_held: { (storage : Self) → IfSome (contents storage) (λ bytes. held storage ≡ Some bytes) };
}

/// Bytes in memory, which somebody else owns.
impl Storage for &[u8] {
    ghost use Rattle.std.specs.Prelude.{refl};

    ghost contents = { λ s. Some s.now };

    ghost held = { λ s. Some s.now };

    ghost contents_held = { λ _. refl };

    fn len(&self) -> Result<u64, Failed> {
        let bytes: &[u8] = *self;
        Ok(bytes.len() as u64)
    }

    fn read_at(&self, place: u64, out: &mut [u8]) -> Result<(), Failed> {
        let bytes: &[u8] = *self;
        let start = place as usize;
        out.copy_from_slice(&bytes[start..start + out.len()]);
        Ok(())
    }
}

/// The bytes of a file that is open for reading. What they are isn't known. Threads may share it:
/// no call moves the place at which others read.
impl Storage for File {
    ghost contents = { λ _. None };

    ghost held = { λ _. None };

    ghost contents_held = { λ _. tt };

    fn len(&self) -> Result<u64, Failed> {
        match self.metadata() {
            Ok(metadata) => Ok(metadata.len()),
            Err(_) => Err(Failed),
        }
    }

    fn read_at(&self, place: u64, out: &mut [u8]) -> Result<(), Failed> {
        match self.read_exact_at(out, place) {
            Ok(()) => Ok(()),
            Err(_) => Err(Failed),
        }
    }
}
