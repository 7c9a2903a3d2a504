//! Writing a table file.
ghost use Rattle.std.specs.Prelude.{◌≡◌, ℕ, ◌+◌, ◌*◌, ◌-◌, ◌/◌, ◌%◌, ◌<◌, ◌≤◌, ◌^◌, ◌++◌, List, length, take, drop, Ok, OnOk, IfErr};
ghost use Rattle.std.specs.Io.KnownBytes.{Appends};
ghost use Rattle.sha2.specs.Hashers.{Holds256};
ghost use Rattle.morris_board.specs.Streams.{CountsFailure, HasSent};
ghost use Rattle.morris_pairs.specs.Tables.{Table};
ghost use Rattle.morris_pairs.specs.Raws.{IsRaw};
ghost use Rattle.morris_pairs.specs.TableFiles.{code_bytes, file_of};
ghost use Rattle.morris_pairs.specs.FileReading.{file_in};

use crate::exact::Exact;
use crate::file_faults::Write;
use crate::header::{Header, hasher_after};
use morris_board::board::Geometry;
use morris_board::streams::{Sink, put};
use sha2::{Digest, Sha256};

/// How many bytes are written at a time, at most.
const CHUNK: usize = 4096;

/// Writes the file of a table, in chunks of several KiB: version 1 in layout `Full`, version 2 in
/// layout `Classes`. It takes no memory.
///
/// Fewer than `u64::MAX` calls of the sink may have failed before.
///
/// # Errors
/// [`Write`] at the first write that failed, with the number of bytes that went out before: the
/// first bytes of the file. No write is tried again.
pub fn write_table<B: Geometry, S: Sink>(sink: &mut S, table: &Exact<B>) -> Result<(), Write>
    requires { S.failures sink.old < 2 ^ 64 - 1 }
    ensures whole { OnOk result (Appends (S.contents sink.old) (S.contents sink.new) (file_of B.shape table.now)) }
    ensures part { IfErr result (λ failed. Appends (S.contents sink.old) (S.contents sink.new) (take failed.0 (file_of B.shape table.now))) }
    ensures short { IfErr result (λ failed. failed.0 < length (file_of B.shape table.now)) }
    ensures counted { CountsFailure (S.failures sink.old) (S.failures sink.new) result }

    // The table is read back from its file, whatever follows the file, and no other table has that
    // file.
    ensures read_back { (after : List ℕ) → file_in B.shape (file_of B.shape table.now ++ after) ≡ Ok (table.now, after) }
    ensures alone { (other : Table) → IsRaw B.shape other → file_of B.shape other ≡ file_of B.shape table.now → other ≡ table.now }
{
    match put_file(sink, table) {
        Ok(_) => Ok(()),
        Err(sent) => Err(Write(sent)),
    }
}

/// Writes the file of a table as [`put`] does.
fn put_file<B: Geometry, S: Sink>(sink: &mut S, table: &Exact<B>) -> Result<u64, u64>
    requires { S.failures sink.old < 2 ^ 64 - 1 }
    ensures sent { HasSent (S.contents sink.old) (S.contents sink.new) 0 (file_of B.shape table.now) result }
    ensures counted { CountsFailure (S.failures sink.old) (S.failures sink.new) result }
    ensures lawful { IsRaw B.shape table.now }
    ensures few { length table.now.codes < 2 ^ 64 }
{
    let header = Header::of(table).to_bytes();
    let mut hasher = hasher_after(&header);
    let sent = put(sink, 0, &header)?;
    let sent = put_codes(sink, sent, table, &mut hasher)?;
    put(sink, sent, &hasher.finalize())
}

/// Writes the codes of a table as [`put`] does, and feeds them to the hasher.
fn put_codes<B: Geometry, S: Sink>(
    sink: &mut S,
    sent: u64,
    table: &Exact<B>,
    hasher: &mut Sha256,
) -> Result<u64, u64>
    requires failures { S.failures sink.old < 2 ^ 64 - 1 }
    requires room { sent < 2 ^ 32 }
    ensures sent { HasSent (S.contents sink.old) (S.contents sink.new) sent (code_bytes table.now.codes) result }
    ensures counted { CountsFailure (S.failures sink.old) (S.failures sink.new) result }
    ensures hashed { OnOk result ((before : List ℕ) → Holds256 hasher.old before → Holds256 hasher.new (before ++ code_bytes table.now.codes)) }
{
    let mut chunk = [0; CHUNK];
    let count = table.len();
    let mut first = 0;
    let mut sent = sent;
    while first < count {
        let codes = (count - first).min(CHUNK as u64 / 2);
        let bytes = &mut chunk[..2 * codes as usize];
        copy_codes(table, first, bytes);
        hasher.update(&*bytes);
        sent = put(sink, sent, bytes)?;
        first += codes;
    }
    Ok(sent)
}

/// Fills `chunk` with the codes of a table from the entry `first` on, as its file has them: two
/// bytes each, the high one first. The bytes of `chunk` are an even number, and the table has the
/// entries.
pub fn copy_codes<B: Geometry>(table: &Exact<B>, first: u64, chunk: &mut [u8])
    requires even { length chunk.old % 2 ≡ 0 }
    requires inside { 2 * first + length chunk.old ≤ 2 * length table.now.codes }
    ensures { chunk.new ≡ code_bytes (take (length chunk.old / 2) (drop first table.now.codes)) }
{
    // The proof learns here how many entries there are.
    let _ = table.len();
    for i in 0..chunk.len() / 2 {
        let [high, low] = table.code(first + i as u64).to_be_bytes();
        chunk[2 * i] = high;
        chunk[2 * i + 1] = low;
    }
}
