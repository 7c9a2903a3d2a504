//! Reading a table file.
ghost use Rattle.std.specs.Prelude.{◌≡◌, ℕ, ◌+◌, ◌*◌, ◌-◌, ◌/◌, ◌%◌, ◌<◌, ◌≤◌, ◌^◌, ◌++◌, List, length, take, slice_index, Err, IsOk, IfOk, IfErr, OnOk, OnErr, vec_len, vec_capacity};
ghost use Rattle.std.specs.Io.KnownBytes.{Consumes, IsAtEnd};
ghost use Rattle.sha2.specs.Hashers.{Holds256};
ghost use Rattle.morris_board.specs.Streams.{CountsFailure};
ghost use Rattle.morris_pairs.specs.Tables.{Table};
ghost use Rattle.morris_pairs.specs.Raws.{IsRaw};
ghost use Rattle.morris_pairs.specs.TableFiles.{code_bytes, file_of, next_file_of};
ghost use Rattle.morris_pairs.specs.FileReading.{Reads, Accepts, MayTakeRoom, StandsInFile, StandsWithin, body_length, bytes_past, CountsRead, EndsEarly, ContinuesFile, only_file_in, next_file_in, file_in, header_in, header_at, roomless_in};

use crate::file_faults::ReadFault;
use crate::header::{HEADER, Header, hasher_after};
use crate::raw::Raw;
use morris_board::board::Geometry;
use morris_board::streams::{Failed, Source};
use sha2::{Digest, Sha256};
use std::alloc::Global;

/// How many bytes are read at a time, at most.
const CHUNK: usize = 4096;

/// How many bytes a digest has.
pub const DIGEST: usize = 32;

/// Reads a table from its file, after which the source has to end. The codes may be wrong.
///
/// Version 1 is a table in layout `Full`, version 2 one in layout `Classes`. Bytes are read in
/// chunks of several KiB. Memory is taken for the classes, in version 2, and for the codes, once
/// the header is known to be right; only the number of entries by classes is compared after the
/// classes are made. Fewer than `u64::MAX` calls of the source may have failed before.
///
/// # Errors
/// The first step that refuses decides, in the order of [`ReadFault`]: the source ends within the
/// header (`Short`); the header isn't one of a table of this board (`Magic`, `Version`, `BoardId`,
/// `Counts`, `Crowded`); in version 2 there is no room for the classes (`Memory`); the number of
/// entries is another (`Count`); there is no room for the codes (`Memory`); the source ends within
/// the codes or the digest (`Short`); the digest is wrong (`Digest`); a byte follows (`Trailing`).
/// `Read` where a read failed, which isn't tried again. After a refusal the source stands somewhere
/// in the file that was refused, as long as its header says it is; after `Trailing` it may stand
/// one byte past it.
pub fn read_table<B: Geometry, S: Source>(
    alloc: Global,
    source: &mut S,
) -> Result<Raw<B>, ReadFault>
    requires { S.failures source.old < 2 ^ 64 - 1 }
    ensures outcome { Reads (only_file_in B.shape) (S.remaining source.old) (S.remaining source.new) result }
    ensures file { IfOk result (λ raw. Consumes (S.remaining source.old) (S.remaining source.new) (file_of B.shape raw)) }
    ensures memory { result ≡ Err ReadFault.Memory → MayTakeRoom B.shape (S.remaining source.old) }
    ensures place { StandsInFile B.shape (bytes_past result) (S.remaining source.old) (S.remaining source.new) }
    ensures counted { CountsRead (S.failures source.old) (S.failures source.new) result }
    // The file of any table is accepted, in either layout.
    ensures complete { (t : Table) → IsRaw B.shape t → S.remaining source.old ≡ Some (file_of B.shape t) → Accepts t result }
{
    let Some(raw) = read_next(alloc, source)? else {
        return Err(ReadFault::Short);
    };
    let mut next = [0];
    if fill(source, &mut next)? > 0 {
        return Err(ReadFault::Trailing);
    }
    Ok(raw)
}

/// Reads the next table of a source that has table files one after the other, or `None` where no
/// byte is left. What follows the file isn't read. The codes may be wrong.
///
/// Fewer than `u64::MAX` calls of the source may have failed before.
///
/// # Errors
/// Those of [`read_table`] but `Trailing`, in the same order. After a refusal the source stands
/// somewhere in the file that was refused, as long as its header says it is.
pub fn read_next<B: Geometry, S: Source>(
    alloc: Global,
    source: &mut S,
) -> Result<Option<Raw<B>>, ReadFault>
    requires { S.failures source.old < 2 ^ 64 - 1 }
    ensures outcome { Reads (next_file_in B.shape) (S.remaining source.old) (S.remaining source.new) result }
    ensures file { IfOk result (λ found. Consumes (S.remaining source.old) (S.remaining source.new) (next_file_of B.shape found)) }
    ensures memory { result ≡ Err ReadFault.Memory → MayTakeRoom B.shape (S.remaining source.old) }
    ensures place { StandsInFile B.shape 0 (S.remaining source.old) (S.remaining source.new) }
    ensures counted { CountsRead (S.failures source.old) (S.failures source.new) result }
    // The file of any table is accepted, in either layout and whatever follows it.
    ensures complete { (t : Table) (after : List ℕ) → IsRaw B.shape t → S.remaining source.old ≡ Some (file_of B.shape t ++ after) → Accepts (Some t) result }
{
    let mut header = [0; HEADER];
    let count = fill(source, &mut header)?;
    if count == 0 {
        return Ok(None);
    }
    if count < HEADER {
        return Err(ReadFault::Short);
    }
    Ok(Some(read_after(alloc, source, &header)?))
}

/// Reads what stands in a file after this header.
fn read_after<B: Geometry, S: Source>(
    alloc: Global,
    source: &mut S,
    header: &[u8; HEADER],
) -> Result<Raw<B>, ReadFault>
    requires { S.failures source.old < 2 ^ 64 - 1 }
    ensures outcome { Reads (λ bytes. file_in B.shape (header.now ++ bytes)) (S.remaining source.old) (S.remaining source.new) result }
    ensures file { IfOk result (λ raw. ContinuesFile (S.remaining source.old) (S.remaining source.new) header.now (file_of B.shape raw)) }
    ensures memory { result ≡ Err ReadFault.Memory → IsOk (roomless_in B.shape (header_at header.now)) }
    ensures place { StandsWithin (body_length B.shape (header_in B.shape header.now)) (S.remaining source.old) (S.remaining source.new) }
    ensures counted { CountsRead (S.failures source.old) (S.failures source.new) result }
{
    let numbering = Header::from_bytes(header).numbering(alloc)?;
    let mut hasher = hasher_after(header);
    let codes = read_codes(alloc, source, numbering.count() as usize, &mut hasher)?;
    let mut digest = [0; DIGEST];
    read_whole(source, &mut digest)?;
    if digest != hasher.finalize() {
        return Err(ReadFault::Digest);
    }
    Ok(Raw::new(numbering, codes))
}

/// Reads this many codes, and feeds their bytes to the hasher. Room is taken for these codes and
/// for no more.
fn read_codes<S: Source>(
    alloc: Global,
    source: &mut S,
    count: usize,
    hasher: &mut Sha256,
) -> Result<Vec<u16>, ReadFault>
    requires failures { S.failures source.old < 2 ^ 64 - 1 }
    requires few { count ≤ 2 ^ 40 }
    ensures count { IfOk result (λ codes. vec_len codes ≡ count) }
    ensures small { IfOk result (λ codes. (i : ℕ) → slice_index codes.items i ≤ 65535) }
    ensures bytes { IfOk result (λ codes. Consumes (S.remaining source.old) (S.remaining source.new) (code_bytes codes.items)) }
    ensures hashed { IfOk result (λ codes. (before : List ℕ) → Holds256 hasher.old before → Holds256 hasher.new (before ++ code_bytes codes.items)) }
    ensures refused { IfErr result (EndsEarly (2 * count) (S.remaining source.old)) }
    ensures place { OnErr result (StandsWithin (2 * count) (S.remaining source.old) (S.remaining source.new)) }
    ensures counted { CountsRead (S.failures source.old) (S.failures source.new) result }
    ensures room { IfOk result (λ codes. vec_capacity codes ≡ count) }
{
    let mut codes = Vec::with_capacity(alloc, count)?;
    let mut buffer = [0; CHUNK];
    while codes.len() < count {
        let wanted = CHUNK.min(2 * (count - codes.len()));
        let chunk = &mut buffer[..wanted];
        read_whole(source, chunk)?;
        hasher.update(&*chunk);
        push_codes(&mut codes, chunk);
    }
    Ok(codes)
}

/// Adds the codes that stand in these bytes, for which there is room.
fn push_codes(codes: &mut Vec<u16>, bytes: &[u8])
    requires even { length bytes.now % 2 ≡ 0 }
    requires room { vec_len codes.old + length bytes.now / 2 ≤ vec_capacity codes.old }
    ensures bytes { code_bytes codes.new.items ≡ code_bytes codes.old.items ++ bytes.now }
    ensures small { ((i : ℕ) → slice_index codes.old.items i ≤ 65535) → (i : ℕ) → slice_index codes.new.items i ≤ 65535 }
    ensures len { vec_len codes.new ≡ vec_len codes.old + length bytes.now / 2 }
    ensures capacity { vec_capacity codes.new ≡ vec_capacity codes.old }
{
    for i in 0..bytes.len() / 2 {
        codes.push_reserved(u16::from_be_bytes([bytes[2 * i], bytes[2 * i + 1]]));
    }
}

/// Reads until the buffer is full.
///
/// # Errors
/// `Short` where the source ends earlier, and `Read` where a read failed.
fn read_whole<S: Source>(source: &mut S, buffer: &mut [u8]) -> Result<(), ReadFault>
    requires { S.failures source.old < 2 ^ 64 - 1 }
    ensures bytes { OnOk result (Consumes (S.remaining source.old) (S.remaining source.new) buffer.new) }
    ensures refused { IfErr result (EndsEarly (length buffer.new) (S.remaining source.old)) }
    ensures place { OnErr result (StandsWithin (length buffer.new) (S.remaining source.old) (S.remaining source.new)) }
    ensures counted { CountsRead (S.failures source.old) (S.failures source.new) result }
{
    let wanted = buffer.len();
    if fill(source, buffer)? < wanted {
        return Err(ReadFault::Short);
    }
    Ok(())
}

/// Reads until the buffer is full or the source at its end, and answers how many bytes that are.
///
/// Fewer than `u64::MAX` calls of the source may have failed before.
///
/// # Errors
/// [`Failed`] at the first read that failed, which isn't tried again. Then the buffer wasn't full.
pub fn fill<S: Source>(source: &mut S, buffer: &mut [u8]) -> Result<usize, Failed>
    requires { S.failures source.old < 2 ^ 64 - 1 }
    ensures within { IfOk result (λ n. n ≤ length buffer.new) }
    ensures bytes { IfOk result (λ n. Consumes (S.remaining source.old) (S.remaining source.new) (take n buffer.new)) }
    ensures end { IfOk result (λ n. n < length buffer.new → IsAtEnd (S.remaining source.new)) }
    ensures place { OnErr result (StandsWithin (length buffer.new - 1) (S.remaining source.old) (S.remaining source.new)) }
    ensures counted { CountsFailure (S.failures source.old) (S.failures source.new) result }
{
    let mut done = 0;
    while done < buffer.len() {
        match source.read(&mut buffer[done..]) {
            Ok(0) => return Ok(done),
            Ok(count) => done += count,
            Err(Failed) => return Err(Failed),
        }
    }
    Ok(done)
}
