//! The sixteen bytes that an archive begins with.
ghost use Rattle.std.specs.Prelude.{◌≡◌, ◌≤◌, ℕ, List, length, take, IfSome, IfNone, IsTrue, ◌↔◌};
ghost use Rattle.foz_entry.specs.Limits.{header_len};
ghost use Rattle.foz_archive.specs.Reading.{HasMagic, HasHeader};
ghost use Rattle.foz_archive.specs.Refusal.{first_bytes, IsRefusedAs};

use crate::refusal::ArchiveError;
use foz_entry::HEADER_LEN;

const MAGIC: [u8; 15] = *b"\x81FOSSILIZEDB\0\0\0";

/// The versions that are read.
pub(crate) const READING: [u8; 1] = [6];

/// The version that is written. Entries are added to no other.
pub(crate) const WRITING: [u8; 1] = [6];

/// Do these bytes begin with a header, of any version?
#[tactic(auto, unfolding(crate::specs::Reading::magic))]
fn has_magic(bytes: &[u8]) -> bool
    ensures { IsTrue result ↔ HasMagic bytes.now }
{
    bytes.len() >= HEADER_LEN && bytes.starts_with(&MAGIC)
}

/// The first sixteen bytes, with zeros for those that are missing.
fn first_bytes(bytes: &[u8]) -> [u8; 16]
    ensures { result ≡ first_bytes bytes.now }
{
    let mut first = [0; HEADER_LEN];
    for place in 0..bytes.len().min(HEADER_LEN) {
        first[place] = bytes[place];
    }
    first
}

/// Why a file of this length that begins with this prefix is refused for its header, if it is, where these versions are
/// accepted. The prefix is the whole header, or the whole file where that is shorter.
pub(crate) fn header_refusal(versions: &[u8], len: usize, front: &[u8]) -> Option<ArchiveError>
    ensures refused { IfSome result (λ error. (file : List ℕ) → length file ≡ len → take header_len file ≡ front.now → IsRefusedAs versions.now file error) }
    ensures good { IfNone result (HasHeader versions.now front.now) }
{
    if !has_magic(front) {
        return Some(ArchiveError::BadMagic {
            len,
            bytes: first_bytes(front),
        });
    }
    let v = front[15];
    if versions.contains(&v) {
        None
    } else {
        Some(ArchiveError::BadVersion { v })
    }
}
