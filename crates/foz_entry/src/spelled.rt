ghost use Rattle.std.specs.Prelude.{◌≡◌, ◌+◌, ◌≤◌, ◌++◌, OnOk, OnErr, None, List, ℕ, length, take, vec_len, vec_capacity};
ghost use Rattle.foz_entry.specs.Damage.{damage};
ghost use Rattle.foz_entry.specs.Limits.{head_len, payload_limit};
ghost use Rattle.foz_entry.specs.Spelling.{head_text, head_of, stored_head, entry_text};
ghost use Rattle.foz_entry.specs.Whole.{IsWhole};

use crate::cut::Cut;
use crate::damage::STORED;
use crate::limits::HEAD_LEN;
use foz_crc::crc32;
use foz_words::{Key, NoMemory, hex16, le32_bytes};

/// The head of a stored entry with this checksum and payload size.
pub fn stored_head(key: Key, crc: u32, size: u32) -> Cut
    ensures { result ≡ stored_head key crc size }
{
    Cut {
        key,
        format: STORED,
        crc,
        size,
        uncompressed: size,
        total: HEAD_LEN + size as usize,
    }
}

/// A head in its one lower-case spelling.
pub fn spell_head(head: &Cut) -> [u8; 56]
    ensures { result ≡ head_text head.now }
{
    // A name begins with eight zeros.
    let mut text = [b'0'; 56];
    lay(&mut text, 8, &hex16(u64::from(head.key.tag)));
    lay(&mut text, 24, &hex16(head.key.hash));
    lay(&mut text, 40, &le32_bytes(head.size));
    lay(&mut text, 44, &le32_bytes(head.format));
    lay(&mut text, 48, &le32_bytes(head.crc));
    lay(&mut text, 52, &le32_bytes(head.uncompressed));
    text
}

/// Lays a piece down at a place.
fn lay(text: &mut [u8], at: usize, piece: &[u8])
    requires { at + length piece.now ≤ length text.old }
    ensures { take (at + length piece.now) text.new ≡ take at text.old ++ piece.now }
{
    text[at..at + piece.len()].copy_from_slice(piece);
}

/// Appends an entry, its head in lower case and its payload as it is, where there is room for both.
pub fn lay_entry(out: &mut Vec<u8>, head: &Cut, payload: &[u8])
    requires room { vec_len out.old + (head_len + length payload.now) ≤ vec_capacity out.old }
    ensures items { out.new.items ≡ out.old.items ++ (head_text head.now ++ payload.now) }
    ensures len { vec_len out.new ≡ vec_len out.old + (head_len + length payload.now) }
    ensures capacity { vec_capacity out.old ≤ vec_capacity out.new }
{
    let Ok(()) = out.extend_from_slice(&spell_head(head)) else {
        unreachable!()
    };
    let Ok(()) = out.extend_from_slice(payload) else {
        unreachable!()
    };
}

/// Appends the undamaged entry of a key and a payload: the name in lower case, the head, the payload as it is.
/// An `Err` changes nothing.
pub fn write_entry(out: &mut Vec<u8>, key: Key, payload: &[u8]) -> Result<(), NoMemory>
    requires { length payload.now ≤ payload_limit }

    ensures written { OnOk result (out.new.items ≡ out.old.items ++ entry_text key payload.now) }
    ensures unchanged { OnErr result (out.new.items ≡ out.old.items) }

    // What is appended is read as this entry, whatever follows it, and is undamaged.
    ensures whole { OnOk result ((rest : List ℕ) → IsWhole (entry_text key payload.now ++ rest) (head_of key payload.now) payload.now rest) }
    ensures undamaged { damage (head_of key payload.now) payload.now ≡ None }
{
    let head = stored_head(key, crc32(payload), payload.len() as u32);
    out.reserve(HEAD_LEN + payload.len())?;
    lay_entry(out, &head, payload);
    Ok(())
}
