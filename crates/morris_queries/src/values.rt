//! The value of any position, from files that are opened when a position first needs them.
ghost use Rattle.std.specs.Prelude.{◌≡◌, ◌≤◌, ℕ, List, Option, None, Some, Err, false, IfErr, IfOk, IsSome, OnOk};
ghost use Rattle.morris_lookup.specs.FileSets.{file_for, missing_file};
ghost use Rattle.morris_lookup.specs.Lookups.{depth_of};
ghost use Rattle.morris_files.specs.Files.{Files};
ghost use Rattle.morris_jobs.specs.Faults.{is_write};
ghost use Rattle.morris_queries.specs.Folders.{IsOf, Stays, HoldsFor, lent_of, library_of};
ghost use Rattle.morris_queries.specs.Libraries.{IsFound};
ghost use Rattle.morris_queries.specs.Reports.{Agrees, AreOf, open_as, table_in, reported_value};

use crate::library::Library;
use morris_board::board::Geometry;
use morris_board::position::Position;
use morris_files::names::file_name;
use morris_files::reason::Reason;
use morris_index::pair::Pair;
use morris_jobs::fault::Fault;
use morris_lookup::fault::{LookFault, OpenFault};
use morris_lookup::opened::Opened;
use morris_lookup::storage::Storage;
use morris_lookup::tables::Tables;
use morris_pairs::shelf::Needs;
use morris_pairs::value::Value;
use std::alloc::{AllocError, Global};

/// The table files of a folder on a board, and those of them that are open: a file is opened when a
/// position first needs it, and stays open.
#[derive(Drop)]
pub struct Folder<'n, 'l, 't, B: Geometry, L: Library> {
    pub(crate) alloc: Global,
    board: &'n str,
    library: &'l mut L,
    pub(crate) tables: &'t mut Tables<B, L::Bytes>,
}

#[tactic(auto, using(crate::proofs::FolderLaws::stays_laws))]
impl<'n, 'l, 't, B: Geometry, L: Library> Folder<'n, 'l, 't, B, L> {
    /// The files of a library, by the names that they have on the board of this name. `tables` are
    /// those that are open.
    pub fn new(
        alloc: Global,
        board: &'n str,
        library: &'l mut L,
        tables: &'t mut Tables<B, L::Bytes>,
    ) -> Folder<'n, 'l, 't, B, L>
        ensures lent { lent_of result ≡ library.entry.ghost_name }
        ensures library { library_of result ≡ library.old }
        ensures of { AreOf B.shape board.entry.now (L.files library.old) tables.old → IsOf B.shape L.files board.entry.now (L.files library.old) result }
    {
        Folder {
            alloc,
            board,
            library,
            tables,
        }
    }

    /// Opens the file of a pair.
    ///
    /// # Errors
    /// [`Fault::Needs`] with the pair where no file of that name is there, or it is one of another
    /// pair; where it isn't a file of a table, the fault that `morris_pairs` has for it;
    /// [`Fault::Read`] where it can't be opened or read; [`Fault::Memory`] where memory is refused.
    fn open_file(&mut self, pair: Pair<B>) -> Result<Opened<B, L::Bytes>, Fault>
        ensures stays { Stays B.shape L.files self.old self.new }
        ensures pair { IfOk result (λ file. file.pair ≡ pair) }
        ensures opened { HoldsFor B.shape L.files self.old (λ name files. Agrees result (table_in B.shape name files pair)) }
        ensures unwritten { IfErr result (λ refused. is_write refused ≡ false) }
    {
        let name = file_name(self.alloc, self.board, pair)?;
        match self.library.open(name.as_str()) {
            Ok(found) => open_found(self.alloc, found, pair),
            Err(Reason::Memory) => Err(Fault::Memory),
            Err(_) => Err(Fault::Read),
        }
    }

    /// Has the file of a pair open.
    ///
    /// # Errors
    /// Those of [`open_file`](Folder::open_file), where it wasn't open.
    pub(crate) fn make_ready(&mut self, pair: Pair<B>) -> Result<(), Fault>
        ensures stays { Stays B.shape L.files self.old self.new }
        ensures ready { OnOk result (IsSome (file_for self.new.tables.now pair)) }
        ensures refused { HoldsFor B.shape L.files self.old (λ name files. IfErr result (λ refused. Agrees (Err refused) (table_in B.shape name files pair))) }
        ensures unwritten { IfErr result (λ refused. is_write refused ≡ false) }
    {
        if self.tables.get(pair).is_none() {
            let file = self.open_file(pair)?;
            self.tables.put(file);
        }
        Ok(())
    }

    /// Has the file open that states the value of a position, if there is one.
    ///
    /// # Errors
    /// Those of [`open_file`](Folder::open_file), where it wasn't open.
    fn make_ready_for(&mut self, position: &Position<B>) -> Result<(), Fault>
        ensures stays { Stays B.shape L.files self.old self.new }
        ensures ready { OnOk result (missing_file self.new.tables.now position.now ≡ None) }
        ensures refused { HoldsFor B.shape L.files self.old (λ name files. IfErr result (λ refused. Agrees (Err refused) (reported_value B.shape name files position.now))) }
    {
        match Pair::of(position) {
            None => Ok(()),
            Some(pair) => self.make_ready(pair),
        }
    }

    /// The value of a position, as the file of its pair states it. A player to move with two stones
    /// has lost in 0 plies: that needs no file.
    ///
    /// # Errors
    /// Those of the opening of the file; [`Fault::Read`] where it can't be read.
    pub(crate) fn value(&mut self, position: &Position<B>) -> Result<Value, Fault>
        ensures stays { Stays B.shape L.files self.old self.new }
        ensures reported { HoldsFor B.shape L.files self.old (λ name files. Agrees result (reported_value B.shape name files position.now)) }
        ensures few { IfOk result (λ value. depth_of value ≤ 65534) }
    {
        self.make_ready_for(position)?;
        match self.tables.value(position) {
            Ok(value) => Ok(value),
            Err(LookFault::Needs(needs)) => Err(Fault::from(needs)),
            Err(LookFault::Read) => Err(Fault::Read),
            Err(LookFault::Memory) => Err(Fault::Memory),
        }
    }
}

/// Opens what was found as the file of a pair.
///
/// # Errors
/// Those of [`Folder::open_file`], but for a file that can't be opened.
fn open_found<B: Geometry, S: Storage + Drop>(
    alloc: Global,
    found: Option<S>,
    pair: Pair<B>,
) -> Result<Opened<B, S>, Fault>
    ensures pair { IfOk result (λ file. file.pair ≡ pair) }
    ensures opened { (stored : Option (List ℕ)) → IsFound S.contents stored found → Agrees result (open_as B.shape pair stored) }
    ensures unwritten { IfErr result (λ refused. is_write refused ≡ false) }
{
    match found {
        None => Err(Fault::from(Needs(pair))),
        Some(bytes) => match Opened::open(alloc, bytes, pair) {
            Ok(file) => Ok(file),
            Err(OpenFault::File(refusal)) => Err(Fault::from(refusal)),
            Err(OpenFault::Pair) => Err(Fault::from(Needs(pair))),
        },
    }
}

/// No open files, with room for those of all pairs.
///
/// # Errors
/// [`AllocError`] where memory is refused.
pub(crate) fn no_files<B: Geometry, L: Library>(
    alloc: Global,
) -> Result<Tables<B, L::Bytes>, AllocError>
    ensures { IfOk result (λ tables. (name : List ℕ) (known : Option Files) → AreOf B.shape name known tables) }
{
    Tables::new(alloc)
}
