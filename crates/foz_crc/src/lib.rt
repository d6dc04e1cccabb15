//! CRC-32, the checksum of Ethernet, zip and Fossilize archives. Catalogues of CRCs call it CRC-32/ISO-HDLC: the
//! reflected polynomial `EDB88320`, with all bits of the register set at the start and turned at the end.
#![tactic(auto)]

ghost use Rattle.std.specs.Prelude.{◌≡◌, codes};
ghost use Rattle.foz_crc.specs.Crc32.{crc32_of};

pub mod bitwise;
pub mod sliced;
mod tables;

/// The CRC-32 of the bytes. It takes no memory.
pub fn crc32(bytes: &[u8]) -> u32
    ensures { result ≡ crc32_of bytes.now }
{
    sliced::crc32(bytes)
}

/// The value that the catalogues publish for checking an implementation is the one that the definition gives.
pub fn published_check_value()
    ensures { crc32_of (codes "123456789") ≡ 0xCBF43926 }
{}

#[cfg(test)]
mod tests {
    use super::*;

    #[test]
    fn published_values(rt: HostRuntime) {
        assert_eq!(rt; crc32(b"123456789"), 0xCBF4_3926);
        assert_eq!(rt; crc32(b""), 0);
        assert_eq!(rt;
            crc32(b"The quick brown fox jumps over the lazy dog"),
            0x414F_A339
        );
    }

    #[test]
    fn both_bodies_agree_on_blocks_and_a_rest(rt: HostRuntime) {
        let text =
            b"The quick brown fox jumps over the lazy dog, and no bit of it is lost on the way";
        assert_eq!(rt; sliced::crc32(text), bitwise::crc32(text));
        assert_eq!(rt; sliced::crc32(&text[..16]), bitwise::crc32(&text[..16]));
        assert_eq!(rt; sliced::crc32(&text[..15]), bitwise::crc32(&text[..15]));
    }
}
