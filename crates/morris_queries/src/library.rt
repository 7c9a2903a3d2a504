//! Where the files of tables are found by their names.
ghost use Rattle.std.specs.Prelude.{◌≡◌, Option};
ghost use Rattle.morris_files.specs.Files.{Files};
ghost use Rattle.morris_queries.specs.Libraries.{Finds, Opens, find_fault};

use morris_files::reason::Reason;
use morris_jobs::fault::Fault;
use morris_lookup::storage::Storage;

/// Why the place of the files isn't found.
#[derive(Clone, Copy, Debug, PartialEq, Eq)]
pub enum Unfound {
    /// Want of memory.
    Memory,
    /// There is no such folder.
    Folder,
}

impl From<Unfound> for Fault {
    ghost from_gives = { λ unfound fault. fault ≡ find_fault unfound };

    fn from(unfound: Unfound) -> Fault {
        match unfound {
            Unfound::Memory => Fault::Memory,
            Unfound::Folder => Fault::NoFolder,
        }
    }
}

/// Files under names, which nobody changes meanwhile.
pub trait Library {
    /// The bytes of a file that is open.
    type Bytes: Storage + Drop;

    /// The bytes of the file of each name, where they are known. Then their place is found, and no
    /// call fails.
    ghost files: { Self → Option Files };

    /// Looks for the place of the files, which may be before any of them is opened.
    ///
    /// # Errors
    /// Those of [`Unfound`].
    fn find(&mut self) -> Result<(), Unfound>
        ensures found { Finds (files self.old) result }
        ensures unchanged { files self.new ≡ files self.old };

    /// Opens the file of this name; `None` where there isn't one.
    ///
    /// # Errors
    /// [`Reason::Memory`] for want of memory, and any other [`Reason`] where what has the name
    /// can't be opened as a file.
    fn open(&mut self, name: &str) -> Result<Option<Self::Bytes>, Reason>
        ensures opened { Opens Self.Bytes.contents (files self.old) name.now result }
        ensures unchanged { files self.new ≡ files self.old };
}
