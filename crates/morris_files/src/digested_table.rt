//! The file of a table, written and digested in one pass.
ghost use Rattle.std.specs.Prelude.{◌≡◌, ℕ, ◌-◌, ◌^◌, ◌<◌, ◌++◌, List, IfOk, OnOk};
ghost use Rattle.std.specs.Io.KnownBytes.{Appends};
ghost use Rattle.sha2.specs.Hashers.{Holds256};
ghost use Rattle.sha2.specs.Sha256.{sha256};
ghost use Rattle.morris_board.specs.Streams.{CountsFailure};
ghost use Rattle.morris_pairs.specs.TableFiles.{code_bytes, file_of};

use morris_board::board::Geometry;
use morris_board::streams::{Failed, Sink, put};
use morris_pairs::exact::Exact;
use morris_pairs::header::Header;
use morris_pairs::writing::copy_codes;
use morris_wave::Watch;
use sha2::{Digest, Sha256};

/// How many bytes are written at a time, at most.
const CHUNK: usize = 4096;

/// Writes the file of a table as `write_table` of `morris_pairs` does, and answers the SHA-256 of
/// the whole file, as `sha256sum` prints it. After each chunk 0 entries are reported to the watch,
/// which shows that the work goes on. No memory is taken.
///
/// The digest of the first bytes, with which the file ends, is found on the way, so that each code
/// is digested once.
pub(crate) fn write_digested<B: Geometry, S: Sink, W: Watch>(
    sink: &mut S,
    table: &Exact<B>,
    watch: &mut W,
) -> Result<[u8; 32], Failed>
    requires { S.failures sink.old < 2 ^ 64 - 1 }
    ensures whole { OnOk result (Appends (S.contents sink.old) (S.contents sink.new) (file_of B.shape table.now)) }
    ensures digest { IfOk result (λ digest. digest ≡ sha256 (file_of B.shape table.now)) }
    ensures counted { CountsFailure (S.failures sink.old) (S.failures sink.new) result }
    ensures watched { W.becomes watch.old watch.new }
{
    let header = Header::of(table).to_bytes();
    let mut hasher = Sha256::new();
    hasher.update(&header);
    if put(sink, 0, &header).is_err() {
        return Err(Failed);
    }
    write_codes(sink, table, &mut hasher, watch)?;
    let Ok(content) = hasher.clone() else {
        unreachable!()
    };
    let end = content.finalize();
    if put(sink, 0, &end).is_err() {
        return Err(Failed);
    }
    hasher.update(&end);
    Ok(hasher.finalize())
}

/// Writes the codes of a table, and feeds them to the hasher.
fn write_codes<B: Geometry, S: Sink, W: Watch>(
    sink: &mut S,
    table: &Exact<B>,
    hasher: &mut Sha256,
    watch: &mut W,
) -> Result<(), Failed>
    requires { S.failures sink.old < 2 ^ 64 - 1 }
    ensures sent { OnOk result (Appends (S.contents sink.old) (S.contents sink.new) (code_bytes table.now.codes)) }
    ensures hashed { OnOk result ((before : List ℕ) → Holds256 hasher.old before → Holds256 hasher.new (before ++ code_bytes table.now.codes)) }
    ensures counted { CountsFailure (S.failures sink.old) (S.failures sink.new) result }
    ensures watched { W.becomes watch.old watch.new }
{
    let mut chunk = [0; CHUNK];
    let count = table.len();
    let mut first = 0;
    while first < count {
        let codes = (count - first).min(CHUNK as u64 / 2);
        let bytes = &mut chunk[..2 * codes as usize];
        copy_codes(table, first, bytes);
        hasher.update(&*bytes);
        if put(sink, 0, bytes).is_err() {
            return Err(Failed);
        }
        watch.entries(0);
        first += codes;
    }
    Ok(())
}
