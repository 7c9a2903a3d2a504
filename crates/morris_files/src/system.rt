//! A folder of the system.
ghost use Rattle.std.specs.Prelude.{◌≡◌, false, None};

use crate::error_noting::Noting;
use crate::folder::Folder;
use crate::reason::Reason;
use crate::system::calls::{
    create_file, find_folder, lock_file, make_folder, move_file, open_file, remove_file,
    sync_folder,
};
use crate::system::tally::Tally;
use morris_board::streams::{Failed, FromRead, IntoWrite};
use std::fs::File;
use std::marker::Model;
use std::rt::Files;

pub mod calls;
mod tally;

/// The folder of the system with this path. A call leaves no file open but that of the reader or
/// writer that it answers; and [`lock`](Folder::lock) leaves that of the lock open, as long as this
/// value is there.
///
/// Of the bytes of its files nothing is said: no contract knows what the system does. A call that
/// is refused memory for a path fails, as one that the system refuses does.
#[derive(Drop)]
pub struct SystemFolder<'a, R> {
    rt: &'a R,
    path: &'a str,
    tally: Tally,
    lock: Option<File>,
}

impl<'a, R> Model for SystemFolder<'a, R> {
    ghost use Rattle.std.specs.Prelude.{is_some};
    ghost use Rattle.morris_files.specs.System.{State};

    ghost Value = { State };

    ghost view = { λ s. record { failures = s.tally.failed; locked = is_some s.lock; why = s.tally.why } };
}

impl<'a, R: Files<File = File> + AllocGlobal> SystemFolder<'a, R> {
    /// The folder with this path, of which no call has failed yet, and which isn't locked. It isn't
    /// looked for: where it isn't there, no file is, and none can be written until
    /// [`make`](Folder::make) made it.
    pub fn new(rt: &'a R, path: &'a str) -> SystemFolder<'a, R>
        ensures { result ≡ record { failures = 0; locked = false; why = None } }
    {
        SystemFolder {
            rt,
            path,
            tally: Tally {
                failed: 0,
                why: None,
            },
            lock: None,
        }
    }

    /// Why the first call failed that did, or the first write of a file that was
    /// [abandoned](Folder::abandon) before any call failed; `None` where none failed.
    pub fn why(&self) -> Option<Reason>
        ensures { result ≡ self.now.why }
    {
        self.tally.why
    }
}

impl<'a, R: Files<File = File> + AllocGlobal> Folder for SystemFolder<'a, R> {
    type Reader = FromRead<File>;

    type Writer = IntoWrite<Noting>;

    ghost files = { λ s. None };

    ghost failures = { λ s. s.failures };

    ghost locked = { λ s. s.locked };

    ghost taken = { λ s. None };

    fn make(&mut self) -> Result<(), Failed> {
        self.tally.count(make_folder(self.rt, self.path))
    }

    fn find(&mut self) -> Result<(), Failed> {
        self.tally.count(find_folder(self.rt, self.path))
    }

    fn lock(&mut self, name: &str) -> Result<bool, Failed> {
        if self.lock.is_some() {
            return Ok(true);
        }
        match self.tally.count(lock_file(self.rt, self.path, name)) {
            Ok(Some(file)) => {
                self.lock = Some(file);
                Ok(true)
            }
            Ok(None) => Ok(false),
            Err(Failed) => Err(Failed),
        }
    }

    fn open(&mut self, name: &str) -> Result<Option<FromRead<File>>, Failed> {
        match self.tally.count(open_file(self.rt, self.path, name)) {
            Ok(Some(file)) => Ok(Some(FromRead::new(file))),
            Ok(None) => Ok(None),
            Err(Failed) => Err(Failed),
        }
    }

    fn create(&mut self, name: &str) -> Result<IntoWrite<Noting>, Failed> {
        match self.tally.count(create_file(self.rt, self.path, name)) {
            Ok(file) => Ok(IntoWrite::new(Noting { file, why: None })),
            Err(Failed) => Err(Failed),
        }
    }

    fn sync(&mut self, _name: &str, writer: IntoWrite<Noting>) -> Result<(), Failed> {
        let synced = writer.into_inner().file.sync_all();
        self.tally.count(synced.map_err(Reason::from))
    }

    fn abandon(&mut self, writer: IntoWrite<Noting>) {
        // A write that took nothing failed as well, and for no reason that is known.
        let why = writer.into_inner().why;
        self.tally.note(why.unwrap_or(Reason::Other));
    }

    fn rename(&mut self, from: &str, to: &str) -> Result<(), Failed> {
        self.tally.count(move_file(self.rt, self.path, from, to))
    }

    fn remove(&mut self, name: &str) -> Result<(), Failed> {
        self.tally.count(remove_file(self.rt, self.path, name))
    }

    fn settle(&mut self) -> Result<(), Failed> {
        self.tally.count(sync_folder(self.rt, self.path))
    }

    fn failures(&self) -> u64 {
        self.tally.failed
    }
}
