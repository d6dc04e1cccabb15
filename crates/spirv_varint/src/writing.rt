ghost use Rattle.std.specs.Prelude.{◌≡◌, ◌++◌, ◌+◌, ◌%◌, ◌<◌, ◌≤◌, ◌^◌, ℕ, List, IfOk, OnOk, length, Ok};
ghost use Rattle.spirv_varint.specs.Varint.{varint, spelling, IsVarint, IsShortest};
ghost use Rattle.spirv_varint.specs.Reading.{Answers};

use foz_words::{NoMemory, Row};
use std::alloc::Global;

/// The words in a row, each by its shortest varint.
#[tactic(auto, unfolding(crate::specs::Varint::spelling))]
pub fn encode(alloc: Global, words: &[u32]) -> Result<Row<u8>, NoMemory>
    ensures spelled { IfOk result (λ bytes. bytes ≡ spelling words.now) }
    // What was written is read again.
    ensures read_back { IfOk result (λ bytes. Answers bytes (length words.now) (Ok words.now)) }
{
    // Most words of a module take one to three bytes.
    let mut bytes = Vec::with_capacity(alloc, 2 * words.len())?;
    for word in words {
        push_varint(&mut bytes, *word)?;
    }
    Ok(Row::from_vec(bytes))
}

/// Appends the shortest varint of a word, in one piece: a module may have millions of words.
fn push_varint(bytes: &mut Vec<u8>, word: u32) -> Result<(), NoMemory>
    ensures { OnOk result (bytes.new.items ≡ bytes.old.items ++ varint word) }
{
    let second = word / 128;
    let third = second / 128;
    let fourth = third / 128;
    let fifth = fourth / 128;
    if word < 128 {
        bytes.push(word as u8)?;
    } else if second < 128 {
        bytes.extend_from_slice(&[going_on(word), second as u8])?;
    } else if third < 128 {
        bytes.extend_from_slice(&[going_on(word), going_on(second), third as u8])?;
    } else if fourth < 128 {
        bytes.extend_from_slice(&[
            going_on(word),
            going_on(second),
            going_on(third),
            fourth as u8,
        ])?;
    } else {
        bytes.extend_from_slice(&[
            going_on(word),
            going_on(second),
            going_on(third),
            going_on(fourth),
            fifth as u8,
        ])?;
    }
    Ok(())
}

/// The byte of the low seven bits where the varint goes on.
fn going_on(bits: u32) -> u8
    ensures { result ≡ 128 + bits % 128 }
{
    128 + (bits % 128) as u8
}

/// The varint that is written for a word is the only shortest one of that word, and none has fewer bytes.
pub fn one_shortest()
    ensures spelled { (word : ℕ) → word < 2 ^ 32 → IsShortest (varint word) word }
    ensures alone { (word : ℕ) (bytes : List ℕ) → word < 2 ^ 32 → IsShortest bytes word → bytes ≡ varint word }
    ensures fewest { (word : ℕ) (bytes : List ℕ) → word < 2 ^ 32 → IsVarint bytes word → length (varint word) ≤ length bytes }
{}
