ghost use Rattle.std.specs.Prelude.{◌≡◌, IfOk, string_bytes};
ghost use Rattle.foz_words.specs.Hex.{hex_text};

use foz_words::{NoMemory, hex16};
use std::alloc::Global;

/// A hash as a text of sixteen lower-case digits.
pub fn hash_text(alloc: Global, hash: u64) -> Result<String, NoMemory>
    ensures { IfOk result (λ text. string_bytes text ≡ hex_text 16 hash) }
{
    let digits = hex16(hash);
    match str::from_utf8(&digits) {
        Ok(text) => Ok(String::from_str(alloc, text)?),
        Err(_) => unreachable!(),
    }
}
