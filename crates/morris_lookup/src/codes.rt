//! The codes of an open file in the order of its entries.
ghost use Rattle.std.specs.Prelude.{◌≡◌, ◌+◌, ◌*◌, ◌<◌, length, IfOk};
ghost use Rattle.std.specs.Int.{w16, from_be_bytes};
ghost use Rattle.morris_lookup.specs.Storage.{bytes_at};

use crate::opened::Opened;
use crate::storage::Storage;
use morris_board::board::Geometry;
use morris_board::streams::Failed;
use morris_pairs::counting::Coded;
use std::alloc::{AllocError, Global};
use std::marker::Model;

/// How many bytes are read at a time, at most: those of 32,768 codes.
const CHUNK: usize = 1 << 16;

/// The codes of an open file. They are read in chunks, of which the last one read stays in memory:
/// so a file that is gone through in order is read once, and takes no memory by its size.
#[derive(Drop)]
pub struct Codes<'a, B: Geometry, S: Storage> {
    file: &'a Opened<B, S>,
    /// The bytes of the codes from the entry `first` on and below `end`, and others after them.
    chunk: Vec<u8>,
    first: u64,
    end: u64,
}

impl<'a, B: Geometry, S: Storage> Model for Codes<'a, B, S> {
    ghost use Rattle.std.specs.Prelude.{◌≡◌, ◌+◌, ◌^◌, ◌≤◌, IfSome, vec_len};
    ghost use Rattle.morris_pairs.specs.Entries.{entry_count};
    ghost use Rattle.morris_lookup.specs.FileCodes.{IsChunk};
    ghost use Rattle.morris_lookup.specs.Opening.{OpenFile};

    ghost Value = { OpenFile };

    ghost view = { λ codes. codes.file.now };

    ghost invariant = { λ codes. (vec_len codes.chunk ≡ 2 ^ 16) × (codes.first ≤ codes.end) × (codes.end ≤ codes.first + 2 ^ 15)
        × (codes.end ≤ entry_count B.shape B.POINTS codes.file.now.layout codes.file.now.pair)
        × IfSome codes.file.now.held (λ bytes. IsChunk bytes codes.first codes.end codes.chunk.items) };
}

impl<'a, B: Geometry, S: Storage> Codes<'a, B, S> {
    /// The codes of a file, of which none is read yet.
    ///
    /// # Errors
    /// [`AllocError`] where there is no room for a chunk. No other call takes memory.
    pub fn new(alloc: Global, file: &'a Opened<B, S>) -> Result<Codes<'a, B, S>, AllocError>
        ensures { IfOk result (λ codes. codes ≡ file.entry.now) }
    {
        let chunk = vec![in alloc; 0u8; CHUNK]?;
        Ok(Codes {
            file,
            chunk,
            first: 0,
            end: 0,
        })
    }
}

impl<B: Geometry, S: Storage> Coded for Codes<'_, B, S> {
    ghost use Rattle.std.specs.Prelude.{is_some};
    ghost use Rattle.morris_pairs.specs.Entries.{entry_count};
    ghost use Rattle.morris_lookup.specs.FileCodes.{codes_in_file};

    ghost stated = { λ file. codes_in_file B.shape file };

    ghost unfailing = { λ file. is_some file.bytes };

    ghost many = { λ file. entry_count B.shape B.POINTS file.layout file.pair };

    fn read_code(&mut self, entry: u64) -> Result<u16, Failed> {
        if self.first <= entry && entry < self.end {
            return Ok(code_in(self.chunk.as_slice(), (entry - self.first) as usize));
        }
        // Where the read fails, nothing that is in the chunk counts.
        self.first = entry;
        self.end = entry;
        self.end = self.file.read_codes(entry, self.chunk.as_mut_slice())?;
        Ok(code_in(self.chunk.as_slice(), 0))
    }
}

/// The code whose bytes stand at a place of a chunk, in codes.
pub(crate) fn code_in(chunk: &[u8], place: usize) -> u16
    requires { 2 * place + 1 < length chunk.now }
    ensures { result ≡ from_be_bytes w16 (bytes_at chunk.now (2 * place) 2) }
{
    u16::from_be_bytes([chunk[2 * place], chunk[2 * place + 1]])
}
