//! The words of why a payload can't be read.
ghost use Rattle.std.specs.Prelude.{◌≡◌, string_bytes, IfOk};
ghost use Rattle.replay_text.specs.Words.{varint_words, unreadable_words};

use foz_payload::Unreadable;
use foz_words::NoMemory;
use report_words::field_word;
use spirv_varint::VarintError;
use std::alloc::Global;

/// Why varints can't be read.
fn varint_words(alloc: Global, cause: &VarintError) -> Result<String, NoMemory>
    ensures { IfOk result (λ words. string_bytes words ≡ varint_words cause.now) }
{
    match cause {
        VarintError::Short { at } => Ok(format!(in alloc; "varint short {at}")?),
        VarintError::TooLarge { at } => Ok(format!(in alloc; "varint large {at}")?),
        VarintError::Extra { at } => Ok(format!(in alloc; "varint extra {at}")?),
        VarintError::Memory => Ok(format!(in alloc; "memory")?),
    }
}

/// Why a payload can't be read.
pub(crate) fn unreadable_words(alloc: Global, cause: &Unreadable) -> Result<String, NoMemory>
    ensures { IfOk result (λ words. string_bytes words ≡ unreadable_words cause.now) }
{
    match cause {
        Unreadable::WrongTag { tag } => Ok(format!(in alloc; "tag {tag}")?),
        Unreadable::NoZeroByte => Ok(format!(in alloc; "zero")?),
        Unreadable::Float { at } => Ok(format!(in alloc; "float {at}")?),
        Unreadable::BadJson => Ok(format!(in alloc; "json")?),
        Unreadable::NoSuchState => Ok(format!(in alloc; "state")?),
        Unreadable::Field(path, cause) => {
            let (path, word) = (path.as_str(), field_word(*cause));
            Ok(format!(in alloc; "field {path} {word}")?)
        }
        Unreadable::CodeSize { stated } => Ok(format!(in alloc; "code {stated}")?),
        Unreadable::Window { offset, size, have } => {
            Ok(format!(in alloc; "window {offset} {size} {have}")?)
        }
        Unreadable::Varint(cause) => varint_words(alloc, cause),
        Unreadable::Memory => Ok(format!(in alloc; "memory")?),
    }
}
