ghost use Rattle.std.specs.Prelude.{◌≡◌, ◌<◌, ◌++◌, length, drop, IfSome, IsNone, OnOk, OnErr, ◌↔◌};
ghost use Rattle.foz_words.specs.Bytes.{le32, le64};

use crate::memory::NoMemory;

/// The 32-bit number whose four bytes, low byte first, stand at the beginning. It is `None` exactly where fewer bytes stand.
pub fn get_le32(bytes: &[u8]) -> Option<u32>
    ensures found { IfSome result (λ n. bytes.now ≡ le32 n ++ drop 4 bytes.now) }
    ensures none { IsNone result ↔ (length bytes.now < 4) }
{
    match bytes {
        [a, b, c, d, ..] => Some(u32::from_le_bytes([*a, *b, *c, *d])),
        _ => None,
    }
}

/// The 64-bit number whose eight bytes, low byte first, stand at the beginning. It is `None` exactly where fewer bytes stand.
pub fn get_le64(bytes: &[u8]) -> Option<u64>
    ensures found { IfSome result (λ n. bytes.now ≡ le64 n ++ drop 8 bytes.now) }
    ensures none { IsNone result ↔ (length bytes.now < 8) }
{
    match bytes {
        [a, b, c, d, e, f, g, h, ..] => {
            Some(u64::from_le_bytes([*a, *b, *c, *d, *e, *f, *g, *h]))
        }
        _ => None,
    }
}

/// The four bytes of a number, low byte first.
#[tactic(auto, unfolding(crate::specs::Bytes::le32))]
pub fn le32_bytes(n: u32) -> [u8; 4]
    ensures { result ≡ le32 n }
{
    n.to_le_bytes()
}

/// The eight bytes of a number, low byte first.
#[tactic(auto, unfolding(crate::specs::Bytes::le64))]
pub fn le64_bytes(n: u64) -> [u8; 8]
    ensures { result ≡ le64 n }
{
    n.to_le_bytes()
}

/// Appends the four bytes of a number, low byte first. An `Err` changes nothing.
pub fn put_le32(out: &mut Vec<u8>, n: u32) -> Result<(), NoMemory>
    ensures ok { OnOk result (out.new.items ≡ out.old.items ++ le32 n) }
    ensures err { OnErr result (out.new.items ≡ out.old.items) }
{
    out.extend_from_slice(&le32_bytes(n))?;
    Ok(())
}

/// Appends the eight bytes of a number, low byte first. An `Err` changes nothing.
pub fn put_le64(out: &mut Vec<u8>, n: u64) -> Result<(), NoMemory>
    ensures ok { OnOk result (out.new.items ≡ out.old.items ++ le64 n) }
    ensures err { OnErr result (out.new.items ≡ out.old.items) }
{
    out.extend_from_slice(&le64_bytes(n))?;
    Ok(())
}
