//! CRC-32 by sixteen tables, sixteen bytes a step.

ghost use Rattle.std.specs.Prelude.{◌≡◌, ◌*◌, ◌<◌, ◌≤◌, drop};
ghost use Rattle.foz_crc.specs.Crc32.{after_bits, after_bytes, after_byte, crc32_of};

use crate::tables::TABLES;

/// What a byte leaves in the register when it and the bytes after it, `count` in all, have gone through.
#[tactic(auto, using(crate::proofs::Slices::entry_at))]
fn entry(count: usize, byte: u8) -> u32
    requires positive { 0 < count }
    requires within { count ≤ 16 }
    ensures { result ≡ after_bits (8 * count) byte }
{
    TABLES[count - 1][usize::from(byte)]
}

/// What the bytes of a block leave that don't meet the register.
#[tactic(auto, using(crate::proofs::Blocks::tail_more))]
fn tail_parts(block: &[u8; 16]) -> u32
    ensures { result ≡ after_bytes 0 (drop 4 block.now) }
{
    let mut parts = 0;
    for place in 4..16usize {
        parts ^= entry(16 - place, block[place]);
    }
    parts
}

/// The register after a block. Each byte leaves its part on its own, and the parts are xored: those
/// that wait for the register come last.
fn shift_block(register: u32, block: &[u8; 16]) -> u32
    ensures { result ≡ after_bytes register block.now }
{
    let mut parts = tail_parts(block);
    let mut left = register;
    for place in 0..4usize {
        parts ^= entry(16 - place, (left % 256) as u8 ^ block[place]);
        left /= 256;
    }
    parts
}

#[tactic(auto, using(crate::proofs::Slices::low))]
fn shift_byte(register: u32, byte: u8) -> u32
    ensures { result ≡ after_byte register byte }
{
    (register / 256) ^ entry(1, (register % 256) as u8 ^ byte)
}

fn shift_bytes(register: u32, bytes: &[u8]) -> u32
    ensures { result ≡ after_bytes register bytes.now }
{
    let mut register = register;
    for byte in bytes {
        register = shift_byte(register, *byte);
    }
    register
}

/// The CRC-32 of the bytes, sixteen at a time.
#[tactic(auto, unfolding(crate::specs::Crc32::crc32_of))]
pub fn crc32(bytes: &[u8]) -> u32
    ensures { result ≡ crc32_of bytes.now }
{
    let mut register = u32::MAX;
    let mut left = bytes;
    while let Some((block, rest)) = left.split_first_chunk::<16>() {
        register = shift_block(register, block);
        left = rest;
    }
    shift_bytes(register, left) ^ u32::MAX
}
