ghost use Rattle.std.specs.Prelude.{◌≡◌, ◌≢◌, ◌+◌, ◌*◌, ◌%◌, ◌^◌, ◌<◌, ◌≤◌, ℕ, List, Result, Err, Ok};
ghost use Rattle.spirv_varint.specs.Reading.{Answers};
ghost use Rattle.spirv_varint.specs.declared.error.VarintError.{VarintError};
ghost use Rattle.spirv_varint.specs.declared.error.VarintError.TheVariants.{Memory};

use crate::error::VarintError;
use foz_words::Row;
use std::alloc::Global;

/// The words of a row of so many varints, all of the bytes. Varints that aren't the shortest are read too, up to five
/// bytes. Memory is taken for the words that stand, and not for the number that is asked for.
pub fn decode(alloc: Global, bytes: &[u8], words: usize) -> Result<Row<u32>, VarintError>
    ensures answer { Answers bytes.now words result }
    // No other answer fits, unless memory ran out.
    ensures only { (other : Result (List ℕ) VarintError) → other ≢ Err Memory → result ≢ Err Memory → Answers bytes.now words other → result ≡ other }
{
    read(alloc, bytes, words)
}

fn read(alloc: Global, bytes: &[u8], words: usize) -> Result<Row<u32>, VarintError>
    ensures { Answers bytes.now words result }
{
    let mut found = Row::new(alloc);
    let mut word = 0u32;
    let mut taken = 0u32;
    for (at, byte) in bytes.iter().enumerate() {
        if found.len() == words {
            return Err(VarintError::Extra { at });
        }
        if taken == 4 && *byte > 15 {
            return Err(VarintError::TooLarge { at });
        }
        word = with_bits(word, taken, *byte);
        if *byte < 128 {
            found.push(word)?;
            word = 0;
            taken = 0;
        } else {
            taken += 1;
        }
    }
    if found.len() < words {
        return Err(VarintError::Short { at: bytes.len() });
    }
    Ok(found)
}

/// The word with the low seven bits of one more byte above those of the bytes taken.
fn with_bits(word: u32, taken: u32, byte: u8) -> u32
    requires taken { taken ≤ 4 }
    requires word { word < 128 ^ taken }
    requires fifth { taken ≡ 4 → byte ≤ 15 }
    ensures { result ≡ word + 128 ^ taken * (byte % 128) }
{
    word + (u32::from(byte % 128) << (7 * taken))
}
