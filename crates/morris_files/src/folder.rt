//! What a folder of files does, with a count of the calls that failed.
ghost use Rattle.std.specs.Prelude.{◌≡◌, ℕ, ◌-◌, ◌^◌, ◌<◌, Bool, List, Option, MatchResult};
ghost use Rattle.morris_board.specs.Streams.{CountsFailure};
ghost use Rattle.morris_files.specs.Files.{Files, BecomesFile, FitsTaken, IsCreated, IsLocked, IsOpened, IsRemoved, IsRenamed, IsUnremoved, IsUnrenamed, IsUnsynced, AreUnchanged};

use morris_board::streams::{Failed, Sink, Source};

/// A folder: files under names.
///
/// What each call says of files and bytes holds where these are known: in memory they are, in a
/// folder of the system they aren't.
pub trait Folder {
    /// A file that is read.
    type Reader: Source + Drop;

    /// A file that is written.
    type Writer: Sink + Drop;

    /// The files, where they are known. What a file holds while it is written is left open.
    ghost files: { Self → Option Files };

    /// How many calls have failed, without those of readers and writers.
    ghost failures: { Self → ℕ };

    /// Whether the folder is locked by this value.
    ghost locked: { Self → Bool };

    /// Whether it is locked by another, where that is known.
    ghost taken: { Self → Option Bool };

    /// Makes the folder itself where there is none. Its parent has to be there. No file is changed,
    /// whether the call fails or not.
    ///
    /// Where the path is empty nothing is made, and the call doesn't fail. Nor does it where the
    /// path stands for something other than a folder: [`find`](Folder::find) fails in both cases.
    ///
    /// Fewer than `u64::MAX` calls may have failed before, here and at each other call. A failed
    /// call is counted by [`failures`](Folder::failures), and isn't tried again. No call but
    /// [`lock`](Folder::lock) changes who holds the lock.
    fn make(&mut self) -> Result<(), Failed>
        requires { failures self.old < 2 ^ 64 - 1 }
        ensures unchanged { AreUnchanged (files self.old) (files self.new) }
        ensures counted { CountsFailure (failures self.old) (failures self.new) result }
        ensures held { locked self.new ≡ locked self.old }
        ensures by_others { taken self.new ≡ taken self.old };

    /// Whether the folder is there: a failure where its path stands for nothing or for something
    /// else, or is empty. No file is changed.
    fn find(&mut self) -> Result<(), Failed>
        requires { failures self.old < 2 ^ 64 - 1 }
        ensures unchanged { AreUnchanged (files self.old) (files self.new) }
        ensures counted { CountsFailure (failures self.old) (failures self.new) result }
        ensures held { locked self.new ≡ locked self.old }
        ensures by_others { taken self.new ≡ taken self.old };

    /// Locks the folder by a file of this name, which is made where there is none, and may stay:
    /// `false` where another has locked it, for which it doesn't wait. The lock is held as long as
    /// this value is there, and no call lets it go earlier.
    ///
    /// What stands under the name then is open, and each other file is as it was.
    fn lock(&mut self, name: &str) -> Result<bool, Failed>
        requires { failures self.old < 2 ^ 64 - 1 }
        ensures locked { IsLocked (locked self.old) (locked self.new) result }
        ensures fits { FitsTaken (taken self.old) (locked self.old) result }
        ensures others { IsUnsynced (files self.old) (files self.new) name.now }
        ensures counted { CountsFailure (failures self.old) (failures self.new) result }
        ensures by_others { taken self.new ≡ taken self.old };

    /// Opens the file of this name, to be read from its first byte on; `None` where there isn't
    /// one. What has no bytes of its own, as a folder, a pipe or a device, isn't opened: that is a
    /// failure.
    fn open(&mut self, name: &str) -> Result<Option<Self::Reader>, Failed>
        requires { failures self.old < 2 ^ 64 - 1 }
        ensures opened { IsOpened Self.Reader.remaining Self.Reader.failures (files self.old) name.now result }
        ensures unchanged { AreUnchanged (files self.old) (files self.new) }
        ensures counted { CountsFailure (failures self.old) (failures self.new) result }
        ensures held { locked self.new ≡ locked self.old }
        ensures by_others { taken self.new ≡ taken self.old };

    /// Makes an empty file of this name, to be written. It is a failure that something stands under
    /// the name. A call that fails changes no file.
    fn create(&mut self, name: &str) -> Result<Self::Writer, Failed>
        requires { failures self.old < 2 ^ 64 - 1 }
        ensures created { IsCreated Self.Writer.contents Self.Writer.failures (files self.old) (files self.new) name.now result }
        ensures counted { CountsFailure (failures self.old) (failures self.new) result }
        ensures held { locked self.new ≡ locked self.old }
        ensures by_others { taken self.new ≡ taken self.old };

    /// Ends the writing of the file of this name, which `writer` wrote: its bytes are then to last.
    /// What the file holds where the call fails is open.
    fn sync(&mut self, name: &str, writer: Self::Writer) -> Result<(), Failed>
        requires { failures self.old < 2 ^ 64 - 1 }
        ensures synced { MatchResult result (λ _. BecomesFile (files self.old) (files self.new) name.now (Self.Writer.contents writer)) (λ _. IsUnsynced (files self.old) (files self.new) name.now) }
        ensures counted { CountsFailure (failures self.old) (failures self.new) result }
        ensures held { locked self.new ≡ locked self.old }
        ensures by_others { taken self.new ≡ taken self.old };

    /// Ends the writing of a file by `writer`, a write of which failed. The file stays, and nothing
    /// is said of its bytes; why the write failed is noted, where the folder notes such.
    fn abandon(&mut self, writer: Self::Writer)
        ensures unchanged { AreUnchanged (files self.old) (files self.new) }
        ensures failures { failures self.new ≡ failures self.old }
        ensures held { locked self.new ≡ locked self.old }
        ensures by_others { taken self.new ≡ taken self.old };

    /// Gives the file `from` the name `to`, in the place of one that is there. Where the call
    /// fails, what stands under `to` is what stood there before, or what stood under `from`, and
    /// what stands under `from` is open.
    fn rename(&mut self, from: &str, to: &str) -> Result<(), Failed>
        requires { failures self.old < 2 ^ 64 - 1 }
        ensures renamed { MatchResult result (λ _. IsRenamed (files self.old) (files self.new) from.now to.now) (λ _. IsUnrenamed (files self.old) (files self.new) from.now to.now) }
        ensures counted { CountsFailure (failures self.old) (failures self.new) result }
        ensures held { locked self.new ≡ locked self.old }
        ensures by_others { taken self.new ≡ taken self.old };

    /// Removes what stands under this name, if something does: a link itself, and not what it leads
    /// to. A folder isn't removed: that is a failure. What stands under the name where the call
    /// fails is what stood there before, or nothing.
    fn remove(&mut self, name: &str) -> Result<(), Failed>
        requires { failures self.old < 2 ^ 64 - 1 }
        ensures removed { MatchResult result (λ _. IsRemoved (files self.old) (files self.new) name.now) (λ _. IsUnremoved (files self.old) (files self.new) name.now) }
        ensures counted { CountsFailure (failures self.old) (failures self.new) result }
        ensures held { locked self.new ≡ locked self.old }
        ensures by_others { taken self.new ≡ taken self.old };

    /// The names of the folder are to last: which files were made, renamed and removed. No file is
    /// changed, whether the call fails or not.
    fn settle(&mut self) -> Result<(), Failed>
        requires { failures self.old < 2 ^ 64 - 1 }
        ensures unchanged { AreUnchanged (files self.old) (files self.new) }
        ensures counted { CountsFailure (failures self.old) (failures self.new) result }
        ensures held { locked self.new ≡ locked self.old }
        ensures by_others { taken self.new ≡ taken self.old };

    /// How many calls have failed since the folder was opened, without those of readers and
    /// writers.
    fn failures(&self) -> u64
        ensures { result ≡ failures self.now };
}
