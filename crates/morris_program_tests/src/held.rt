// Files in memory that are found by their names.
ghost use Rattle.std.specs.Prelude.{◌≡◌, IfSome, MatchOption, None, Some};
ghost use Rattle.morris_program_tests.specs.Held.{file_named};

use morris_files::reason::Reason;
use morris_queries::library::{Library, Unfound};

/// Files in memory, each with its name. Where two have one name, the first is found.
#[derive(Clone, Copy)]
pub struct Held<'a> {
    /// The names, and the bytes of the files.
    pub files: &'a [(&'a str, &'a [u8])],
}

impl<'a> Library for Held<'a> {
    type Bytes = &'a [u8];

    ghost files = { λ held. Some (file_named held.files.now) };

    fn find(&mut self) -> Result<(), Unfound> {
        Ok(())
    }

    fn open(&mut self, name: &str) -> Result<Option<&'a [u8]>, Reason> {
        Ok(bytes_named(self.files, name))
    }
}

/// The bytes of the first file of this name.
fn bytes_named<'a>(files: &'a [(&'a str, &'a [u8])], name: &str) -> Option<&'a [u8]>
    ensures { MatchOption result (file_named files.now name.now ≡ None) (λ bytes. file_named files.now name.now ≡ Some bytes.now) }
{
    for (known, bytes) in files {
        if *known == name {
            return Some(*bytes);
        }
    }
    None
}
