// The entry point that an instruction declares.
ghost use Rattle.std.specs.Prelude.{◌≡◌, ◌≤◌, ◌<◌, ◌++◌, ◌∷◌, [], length, IfOk, if◌then◌else◌};
ghost use Rattle.foz_words.specs.Bytes.{le32};
ghost use Rattle.spirv_check.specs.Names.{entry_in, name_in, word_bytes, AddsName};

use crate::shape::EntryPoint;
use foz_words::{NoMemory, Row, le32_bytes};
use std::alloc::Global;

/// The entry point of an OpEntryPoint: its model, an id, and its name. It is `None` where the words end before the name does.
#[tactic(auto, unfolding(crate::specs::Names::entry_in))]
pub(crate) fn entry_of(alloc: Global, instruction: &[u32]) -> Result<Option<EntryPoint>, NoMemory>
    ensures { IfOk result (λ entry. entry ≡ entry_in instruction.now) }
{
    match instruction {
        [_, model, _, name @ ..] => match name_of(alloc, name)? {
            Some(name) => Ok(Some(EntryPoint {
                model: *model,
                name,
            })),
            None => Ok(None),
        },
        _ => Ok(None),
    }
}

/// The bytes before the first zero byte, four a word, low byte first. It is `None` where there is no zero byte.
fn name_of(alloc: Global, words: &[u32]) -> Result<Option<Row<u8>>, NoMemory>
    ensures { IfOk result (λ name. name ≡ name_in (word_bytes words.now)) }
{
    let mut name = Row::new(alloc);
    for word in words {
        if ends_in(&mut name, *word)? {
            return Ok(Some(name));
        }
    }
    Ok(None)
}

/// Adds the bytes of a word to a name, up to the first zero byte, and answers whether there is one.
fn ends_in(name: &mut Row<u8>, word: u32) -> Result<bool, NoMemory>
    ensures { IfOk result (λ ends. AddsName name.old (le32 word) ends name.new) }
{
    let bytes = le32_bytes(word);
    for byte in &bytes {
        if *byte == 0 {
            return Ok(true);
        }
        name.push(*byte)?;
    }
    Ok(false)
}
