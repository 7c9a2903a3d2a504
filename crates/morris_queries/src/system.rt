//! The files of a folder of the system.
ghost use Rattle.std.specs.Prelude.{◌≡◌, None};

use crate::library::{Library, Unfound};
use crate::pages::PagedFile;
use morris_files::reason::Reason;
use morris_files::system::calls::{find_folder, open_file};
use std::fs::File;
use std::marker::Model;
use std::rt::Files;

/// The folder of the system with this path. It isn't looked for before [`find`](Library::find):
/// where it isn't there, no file is.
///
/// Of the bytes of its files nothing is said: no contract knows what the system does.
#[derive(Drop)]
pub struct SystemLibrary<'a, R> {
    rt: &'a R,
    path: &'a str,
    why: Option<Reason>,
}

/// It is known by why it wasn't found.
impl<'a, R> Model for SystemLibrary<'a, R> {
    ghost use Rattle.std.specs.Prelude.{Option};
    ghost use Rattle.morris_files.specs.declared.reason.Reason.{Reason};

    ghost Value = { Option Reason };

    ghost view = { λ s. s.why };
}

impl<'a, R: Files<File = File> + AllocGlobal> SystemLibrary<'a, R> {
    /// The folder with this path, which wasn't looked for.
    pub fn new(rt: &'a R, path: &'a str) -> SystemLibrary<'a, R>
        ensures { result ≡ None }
    {
        SystemLibrary {
            rt,
            path,
            why: None,
        }
    }

    /// Why [`find`](Library::find) found no folder the last time: what the system said of the path,
    /// or what is wrong with it. `None` where it was found.
    pub fn why(&self) -> Option<Reason>
        ensures { result ≡ self.now }
    {
        self.why
    }
}

impl<'a, R: Files<File = File> + AllocGlobal> Library for SystemLibrary<'a, R> {
    type Bytes = PagedFile;

    ghost files = { λ _. None };

    fn find(&mut self) -> Result<(), Unfound> {
        let looked = find_folder(self.rt, self.path);
        self.why = looked.err();
        match looked {
            Ok(()) => Ok(()),
            Err(Reason::Memory) => Err(Unfound::Memory),
            Err(_) => Err(Unfound::Folder),
        }
    }

    fn open(&mut self, name: &str) -> Result<Option<PagedFile>, Reason> {
        match open_file(self.rt, self.path, name)? {
            Some(file) => Ok(Some(PagedFile::new(self.rt.alloc(), file)?)),
            None => Ok(None),
        }
    }
}
