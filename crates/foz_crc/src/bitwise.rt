//! CRC-32 as it is defined, a bit at a time: the plain program beside the fast one.

ghost use Rattle.std.specs.Prelude.{◌≡◌};
ghost use Rattle.foz_crc.specs.Crc32.{after_bit, after_byte, crc32_of};

const POLYNOMIAL: u32 = 0xEDB8_8320;

#[tactic(auto, unfolding(crate::specs::Crc32::after_bit))]
fn shift_bit(register: u32) -> u32
    ensures { result ≡ after_bit register }
{
    if register % 2 == 1 {
        (register / 2) ^ POLYNOMIAL
    } else {
        register / 2
    }
}

#[tactic(auto, unfolding(crate::specs::Crc32::after_byte, crate::specs::Crc32::after_bits))]
fn shift_byte(register: u32, byte: u8) -> u32
    ensures { result ≡ after_byte register byte }
{
    let mut shifted = register ^ u32::from(byte);
    for _ in 0..8u32 {
        shifted = shift_bit(shifted);
    }
    shifted
}

/// The CRC-32 of the bytes. `sliced::crc32` gives the same, many times as fast.
#[tactic(auto, unfolding(crate::specs::Crc32::crc32_of))]
pub fn crc32(bytes: &[u8]) -> u32
    ensures { result ≡ crc32_of bytes.now }
{
    let mut register = u32::MAX;
    for byte in bytes {
        register = shift_byte(register, *byte);
    }
    register ^ u32::MAX
}
