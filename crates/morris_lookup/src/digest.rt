//! The digest of a table file.
ghost use Rattle.std.specs.Prelude.{◌≡◌};
ghost use Rattle.morris_lookup.specs.Digests.{has_digest};

use morris_pairs::reading::DIGEST;
use sha2::{Digest, Sha256};

/// Whether the last 32 bytes are the SHA-256 of all bytes before them. All bytes are read.
#[tactic(auto, unfolding(crate::specs::Digests::has_digest))]
pub fn has_digest(bytes: &[u8]) -> bool
    ensures { result ≡ has_digest bytes.now }
{
    if bytes.len() < DIGEST {
        return false;
    }
    let end = bytes.len() - DIGEST;
    let mut stated = [0; DIGEST];
    stated.copy_from_slice(&bytes[end..]);
    stated == Sha256::digest(&bytes[..end])
}
