//! Numbers as hexadecimal digits.
ghost use Rattle.std.specs.Prelude.{◌≡◌, Some};
ghost use Rattle.foz_words.specs.Hex.{hex_text};

use foz_words::hex16;
use std::fmt;

/// A hash as its sixteen digits.
#[derive(Clone, Copy)]
pub struct Hash(pub u64);

impl fmt::Display for Hash {
    ghost output = { λ hash. Some (hex_text 16 hash.0) };

    fn fmt<W: fmt::Write>(&self, f: &mut fmt::Formatter<W>) -> fmt::Result {
        let digits = hex16(self.0);
        match str::from_utf8(&digits) {
            Ok(text) => f.write_str(text),
            Err(_) => Err(fmt::Error),
        }
    }
}

/// A number as eight lower-case digits.
fn hex8(number: u32) -> [u8; 8]
    ensures { result ≡ hex_text 8 number }
{
    let wide = hex16(u64::from(number));
    let (_, low) = wide.split_at(8);
    let mut digits = [0; 8];
    digits.copy_from_slice(low);
    digits
}

/// A checksum as its eight digits.
#[derive(Clone, Copy)]
pub(crate) struct Checksum(pub u32);

impl fmt::Display for Checksum {
    ghost output = { λ checksum. Some (hex_text 8 checksum.0) };

    fn fmt<W: fmt::Write>(&self, f: &mut fmt::Formatter<W>) -> fmt::Result {
        let digits = hex8(self.0);
        match str::from_utf8(&digits) {
            Ok(text) => f.write_str(text),
            Err(_) => Err(fmt::Error),
        }
    }
}
