//! The header of a table file: what stands before the codes.
ghost use Rattle.std.specs.Prelude.{◌≡◌, ◌≤◌, ◌^◌, Ok, length, IfOk, IfErr};
ghost use Rattle.sha2.specs.Hashers.{Holds256};
ghost use Rattle.morris_pairs.specs.Numberings.{layout_of, pair_of};
ghost use Rattle.morris_pairs.specs.Tables.{IsTable};
ghost use Rattle.morris_pairs.specs.TableFiles.{header_of, version_of};
ghost use Rattle.morris_pairs.specs.FileReading.{header_at, kind_in, check_header, IsOfBytes, IsHeaderRefusal};
ghost use Rattle.morris_pairs.specs.Headers.{header_bytes};

use crate::exact::Exact;
use crate::file_faults::ReadFault;
use crate::layout::Layout;
use crate::numbering::Numbering;
use morris_board::board::Geometry;
use morris_index::faults::PairFault;
use morris_index::pair::Pair;
use sha2::{Digest, Sha256};
use std::alloc::Global;

/// How many bytes a header has.
pub const HEADER: usize = 16;

/// What each file begins with.
pub const MAGIC: [u8; 4] = *b"NMMT";

/// The fields of a header, as they stand in a file. They may be those of no table.
#[derive(Clone, Copy)]
pub struct Header {
    /// [`MAGIC`] in every table file.
    pub magic: [u8; 4],
    /// 1 for a table in layout `Full`, 2 for one in layout `Classes`.
    pub version: u8,
    /// The number of the board, [`Geometry::ID`].
    pub board: u8,
    /// The greater number of stones of the pair.
    pub greater: u8,
    /// The lesser number of stones.
    pub lesser: u8,
    /// How many entries the table has.
    pub entries: u64,
}

impl Header {
    /// The header of the file of a table.
    #[tactic(auto, unfolding(crate::specs::TableFiles::header_of, crate::specs::Headers::header_bytes))]
    pub fn of<B: Geometry>(table: &Exact<B>) -> Header
        ensures value { header_bytes result ≡ header_of B.shape table.now.layout table.now.pair (length table.now.codes) }
        ensures few { length table.now.codes ≤ 2 ^ 40 }
        ensures lawful { IsTable B.shape table.now }
    {
        let pair = table.pair();
        Header {
            magic: MAGIC,
            version: version_of(table.layout()),
            board: B::ID,
            greater: pair.greater(),
            lesser: pair.lesser(),
            entries: table.len(),
        }
    }

    /// The header that stands in these bytes.
    pub fn from_bytes(bytes: &[u8; HEADER]) -> Header
        ensures { result ≡ header_at bytes.now }
    {
        Header {
            magic: [bytes[0], bytes[1], bytes[2], bytes[3]],
            version: bytes[4],
            board: bytes[5],
            greater: bytes[6],
            lesser: bytes[7],
            entries: u64::from_be_bytes([
                bytes[8], bytes[9], bytes[10], bytes[11], bytes[12], bytes[13], bytes[14],
                bytes[15],
            ]),
        }
    }

    /// The bytes of the header.
    #[tactic(auto, unfolding(crate::specs::Headers::header_bytes))]
    pub fn to_bytes(self) -> [u8; HEADER]
        ensures { result ≡ header_bytes self }
    {
        let mut bytes = [0; HEADER];
        bytes[..4].copy_from_slice(&self.magic);
        bytes[4] = self.version;
        bytes[5] = self.board;
        bytes[6] = self.greater;
        bytes[7] = self.lesser;
        bytes[8..].copy_from_slice(&self.entries.to_be_bytes());
        bytes
    }

    /// How the entries of the table are numbered that the header stands before.
    ///
    /// # Errors
    /// The first of `Magic`, `Version`, `BoardId`, `Counts` and `Crowded` that applies; then
    /// `Memory` where there is no room for the classes; then `Count`.
    #[tactic(auto, unfolding(crate::specs::FileReading::check_header, crate::specs::FileReading::check_count))]
    pub(crate) fn numbering<B: Geometry>(&self, alloc: Global) -> Result<Numbering<B>, ReadFault>
        ensures found { IfOk result (λ made. check_header B.shape self.now ≡ Ok (layout_of made, pair_of made)) }
        ensures refused { IfErr result (IsHeaderRefusal B.shape self.now) }
    {
        let (layout, pair) = self.kind()?;
        let numbering = Numbering::make(alloc, pair, layout)?;
        if self.entries != numbering.count() {
            return Err(ReadFault::Count);
        }
        Ok(numbering)
    }

    /// The layout and the pair of the table that the header stands before.
    ///
    /// # Errors
    /// The first of `Magic`, `Version`, `BoardId`, `Counts` and `Crowded` that applies.
    #[tactic(auto, unfolding(crate::specs::FileReading::kind_in))]
    pub fn kind<B: Geometry>(&self) -> Result<(Layout, Pair<B>), ReadFault>
        ensures value { result ≡ kind_in B.shape self.now }
        ensures refused { IfErr result IsOfBytes }
    {
        if self.magic != MAGIC {
            return Err(ReadFault::Magic);
        }
        let layout = match self.version {
            1 => Layout::Full,
            2 => Layout::Classes,
            _ => return Err(ReadFault::Version),
        };
        if self.board != B::ID {
            return Err(ReadFault::BoardId);
        }
        if self.greater < self.lesser {
            return Err(ReadFault::Counts);
        }
        match Pair::new(self.greater, self.lesser) {
            Ok(pair) => Ok((layout, pair)),
            Err(PairFault::Counts) => Err(ReadFault::Counts),
            Err(PairFault::Crowded) => Err(ReadFault::Crowded),
        }
    }
}

/// The version of the files of a layout: 1 or 2.
pub fn version_of(layout: Layout) -> u8
    ensures { result ≡ version_of layout }
{
    match layout {
        Layout::Full => 1,
        Layout::Classes => 2,
    }
}

/// The hasher that reckons the digest of a file, once it was fed the bytes of the header.
pub(crate) fn hasher_after(header: &[u8; HEADER]) -> Sha256
    ensures { Holds256 result header.now }
{
    let mut hasher = Sha256::new();
    hasher.update(header);
    hasher
}
