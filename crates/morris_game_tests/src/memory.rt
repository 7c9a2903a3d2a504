//! A folder in memory, for tests: each of its calls can be made to fail.
ghost use Rattle.std.specs.Prelude.{◌≡◌, ◌≢◌, ℕ, ◌+◌, ◌-◌, ◌^◌, ◌<◌, false, List, Some, None, OnOk, OnErr};
ghost use Rattle.std.specs.Option.{option_map};
ghost use Rattle.morris_files.specs.Files.{AreSame, AreSameBut};
ghost use Rattle.morris_game_tests.specs.Memory.{count_of, files_of, failures_of, lock_of, locked_of, taken_of};

use morris_board::streams::{Failed, FromRead, Sink};
use morris_files::folder::Folder;
use std::alloc::{AllocError, Global};
use std::collections::{BTreeMap, VecDeque};
use std::marker::Model;

/// Which of the first 64 calls of something fail: that with the number n, counted from 0, where the
/// bit of 2 to the n is set.
#[derive(Clone, Copy, Debug, Drop)]
struct Failing {
    bits: u64,
    calls: u64,
}

impl Failing {
    /// Whether the next call fails, which is counted.
    fn next_fails(&mut self) -> bool {
        let number = self.calls;
        self.calls = number.saturating_add(1);
        number < 64 && (self.bits >> number) & 1 == 1
    }
}

/// Who holds the lock of a folder: itself, another, or neither.
#[derive(Clone, Copy, Debug, Drop)]
struct Lock {
    held: bool,
    taken: bool,
}

/// A folder in memory. A call that is refused memory fails like one that is made to fail.
#[derive(Drop)]
pub struct MemoryFolder {
    alloc: Global,
    files: BTreeMap<String, Vec<u8>>,
    failing: Failing,
    failing_writes: u64,
    failed: u64,
    lock: Lock,
}

impl MemoryFolder {
    /// A folder without files, whose lock no one holds. Those of its calls fail whose bits are set
    /// in `calls`, and those of the writes of each of its writers whose bits are set in `writes`:
    /// bit n is that of the call before which there were n.
    pub fn new(alloc: Global, calls: u64, writes: u64) -> MemoryFolder
        ensures none { (name : List ℕ) → files_of result name ≡ None }
        ensures failures { failures_of result ≡ 0 }
        ensures unlocked { locked_of result ≡ false }
        ensures free { taken_of result ≡ false }
    {
        MemoryFolder {
            alloc,
            files: BTreeMap::new(alloc),
            failing: Failing {
                bits: calls,
                calls: 0,
            },
            failing_writes: writes,
            failed: 0,
            lock: Lock {
                held: false,
                taken: false,
            },
        }
    }

    /// Says whether another holds the lock from now on. It isn't a call that can be made to fail.
    pub fn set_taken(&mut self, taken: bool)
        ensures taken { taken_of self.new ≡ taken }
        ensures held { locked_of self.new ≡ locked_of self.old }
        ensures files { AreSame (files_of self.old) (files_of self.new) }
        ensures failures { failures_of self.new ≡ failures_of self.old }
    {
        self.lock.taken = taken;
    }

    /// Puts a file with these bytes under a name, in place of one that is there. It isn't a call
    /// that can be made to fail.
    ///
    /// # Errors
    /// [`AllocError`] where memory is refused. Then no file is changed.
    pub fn put(&mut self, name: &str, bytes: &[u8]) -> Result<(), AllocError>
        ensures this { OnOk result (files_of self.new name.now ≡ Some bytes.now) }
        ensures others { OnOk result (AreSameBut name.now (files_of self.old) (files_of self.new)) }
        ensures unchanged { OnErr result (AreSame (files_of self.old) (files_of self.new)) }
        ensures failures { failures_of self.new ≡ failures_of self.old }
        ensures lock { lock_of self.new ≡ lock_of self.old }
    {
        let copy = Vec::from_slice(self.alloc, bytes)?;
        self.keep(name, copy)
    }

    /// The bytes of the file of this name, where there is one.
    pub fn get(&self, name: &str) -> Option<&[u8]>
        ensures { option_map (λ bytes. bytes.now) result ≡ files_of self.now name.now }
    {
        match self.files.get(name) {
            Some(bytes) => Some(bytes.as_slice()),
            None => None,
        }
    }

    /// How many files there are.
    pub fn count(&self) -> usize
        ensures { result ≡ count_of self.now }
    {
        self.files.len()
    }

    /// Puts a file under a name.
    fn keep(&mut self, name: &str, bytes: Vec<u8>) -> Result<(), AllocError>
        ensures this { OnOk result (files_of self.new name.now ≡ Some bytes.items) }
        ensures others { OnOk result (AreSameBut name.now (files_of self.old) (files_of self.new)) }
        ensures unchanged { OnErr result (AreSame (files_of self.old) (files_of self.new)) }
        ensures failures { failures_of self.new ≡ failures_of self.old }
        ensures lock { lock_of self.new ≡ lock_of self.old }
    {
        let name = String::from_str(self.alloc, name)?;
        match self.files.insert(name, bytes) {
            Ok(_) => Ok(()),
            Err(_) => Err(AllocError),
        }
    }

    /// Puts an empty file under a name, unless there is a file.
    fn keep_some(&mut self, name: &str) -> Result<(), AllocError>
        ensures others { AreSameBut name.now (files_of self.old) (files_of self.new) }
        ensures failures { failures_of self.new ≡ failures_of self.old }
        ensures lock { lock_of self.new ≡ lock_of self.old }
    {
        if self.files.contains_key(name) {
            return Ok(());
        }
        self.keep(name, Vec::new(self.alloc))
    }

    /// Puts an empty file under a name, where there is no file.
    fn keep_new(&mut self, name: &str) -> Result<(), AllocError>
        ensures new { OnOk result (files_of self.old name.now ≡ None) }
        ensures others { OnOk result (AreSameBut name.now (files_of self.old) (files_of self.new)) }
        ensures unchanged { OnErr result (AreSame (files_of self.old) (files_of self.new)) }
        ensures failures { failures_of self.new ≡ failures_of self.old }
        ensures lock { lock_of self.new ≡ lock_of self.old }
    {
        if self.files.contains_key(name) {
            return Err(AllocError);
        }
        self.keep(name, Vec::new(self.alloc))
    }

    /// Puts the bytes of the file of one name under the other too.
    fn copy(&mut self, from: &str, to: &str) -> Result<(), AllocError>
        ensures this { OnOk result (files_of self.new to.now ≡ files_of self.old from.now) }
        ensures others { OnOk result (AreSameBut to.now (files_of self.old) (files_of self.new)) }
        ensures unchanged { OnErr result (AreSame (files_of self.old) (files_of self.new)) }
        ensures failures { failures_of self.new ≡ failures_of self.old }
        ensures lock { lock_of self.new ≡ lock_of self.old }
    {
        let Some(bytes) = self.files.get(from) else {
            return Err(AllocError);
        };
        let copy = Vec::from_slice(self.alloc, bytes.as_slice())?;
        self.keep(to, copy)
    }

    /// Removes the file of one name, unless it is that of the other.
    fn remove_unless(&mut self, name: &str, retained: &str)
        ensures retained { files_of self.new retained.now ≡ files_of self.old retained.now }
        ensures gone { name.now ≢ retained.now → files_of self.new name.now ≡ None }
        ensures others { AreSameBut name.now (files_of self.old) (files_of self.new) }
        ensures failures { failures_of self.new ≡ failures_of self.old }
        ensures lock { lock_of self.new ≡ lock_of self.old }
    {
        if name != retained {
            self.take_away(name);
        }
    }

    /// Removes the file of this name, if there is one.
    fn take_away(&mut self, name: &str)
        ensures gone { files_of self.new name.now ≡ None }
        ensures others { AreSameBut name.now (files_of self.old) (files_of self.new) }
        ensures failures { failures_of self.new ≡ failures_of self.old }
        ensures lock { lock_of self.new ≡ lock_of self.old }
    {
        let _ = self.files.remove(name);
    }

    /// Counts a call that failed.
    fn fail(&mut self) -> Failed
        requires { failures_of self.old < 2 ^ 64 - 1 }
        ensures files { AreSame (files_of self.old) (files_of self.new) }
        ensures counted { failures_of self.new ≡ failures_of self.old + 1 }
        ensures lock { lock_of self.new ≡ lock_of self.old }
    {
        self.failed += 1;
        Failed
    }
}

/// A file in memory that is written.
#[derive(Drop)]
pub struct MemoryWriter {
    bytes: Vec<u8>,
    failing: Failing,
    failed: u64,
}

impl Model for MemoryWriter {
    ghost use Rattle.std.specs.Prelude.{ℕ, List};
    ghost use Rattle.morris_board.specs.Streams.{Counted};

    ghost Value = { Counted (List ℕ) };

    ghost view = { λ s. record { inner = s.bytes.items; failures = s.failed } };
}

impl Sink for MemoryWriter {
    ghost contents = { λ s. Some s.inner };

    ghost failures = { λ s. s.failures };

    fn write(&mut self, bytes: &[u8]) -> Result<usize, Failed> {
        if self.failing.next_fails() || self.bytes.extend_from_slice(bytes).is_err() {
            self.failed += 1;
            return Err(Failed);
        }
        Ok(bytes.len())
    }

    fn failures(&self) -> u64 {
        self.failed
    }
}

impl Folder for MemoryFolder {
    type Reader = FromRead<VecDeque<u8>>;

    type Writer = MemoryWriter;

    ghost files = { λ s. Some (files_of s) };

    ghost failures = { failures_of };

    ghost locked = { locked_of };

    ghost taken = { λ s. Some (taken_of s) };

    fn make(&mut self) -> Result<(), Failed> {
        if self.failing.next_fails() {
            return Err(self.fail());
        }
        Ok(())
    }

    fn find(&mut self) -> Result<(), Failed> {
        if self.failing.next_fails() {
            return Err(self.fail());
        }
        Ok(())
    }

    fn lock(&mut self, name: &str) -> Result<bool, Failed> {
        if self.failing.next_fails() || self.keep_some(name).is_err() {
            return Err(self.fail());
        }
        self.lock.held = self.lock.held || !self.lock.taken;
        Ok(self.lock.held)
    }

    fn open(&mut self, name: &str) -> Result<Option<FromRead<VecDeque<u8>>>, Failed> {
        if self.failing.next_fails() {
            return Err(self.fail());
        }
        let Some(bytes) = self.files.get(name) else {
            return Ok(None);
        };
        match Vec::from_slice(self.alloc, bytes.as_slice()) {
            Ok(bytes) => Ok(Some(FromRead::new(VecDeque::from(bytes)))),
            Err(_) => Err(self.fail()),
        }
    }

    fn create(&mut self, name: &str) -> Result<MemoryWriter, Failed> {
        if self.failing.next_fails() || self.keep_new(name).is_err() {
            return Err(self.fail());
        }
        Ok(MemoryWriter {
            bytes: Vec::new(self.alloc),
            failing: Failing {
                bits: self.failing_writes,
                calls: 0,
            },
            failed: 0,
        })
    }

    fn sync(&mut self, name: &str, writer: MemoryWriter) -> Result<(), Failed> {
        if self.failing.next_fails() || self.keep(name, writer.bytes).is_err() {
            return Err(self.fail());
        }
        Ok(())
    }

    fn abandon(&mut self, _writer: MemoryWriter) {}

    fn rename(&mut self, from: &str, to: &str) -> Result<(), Failed> {
        if self.failing.next_fails() || self.copy(from, to).is_err() {
            return Err(self.fail());
        }
        self.remove_unless(from, to);
        Ok(())
    }

    fn remove(&mut self, name: &str) -> Result<(), Failed> {
        if self.failing.next_fails() {
            return Err(self.fail());
        }
        self.take_away(name);
        Ok(())
    }

    fn settle(&mut self) -> Result<(), Failed> {
        if self.failing.next_fails() {
            return Err(self.fail());
        }
        Ok(())
    }

    fn failures(&self) -> u64 {
        self.failed
    }
}
