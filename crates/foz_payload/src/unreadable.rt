ghost use Rattle.std.specs.Prelude.{◌≡◌, Err};
ghost use Rattle.foz_payload.specs.declared.unreadable.Unreadable.TheVariants.{Memory};

use foz_words::{Name, NoMemory};
use json_fold::FieldCause;
use spirv_varint::VarintError;

/// Why a payload can't be read as the state of its key. The first cause in this order is the answer.
#[derive(Debug, Drop)]
pub enum Unreadable {
    /// The tag isn't 1 to 7.
    WrongTag { tag: u32 },
    /// A shader module's payload has no zero byte.
    NoZeroByte,
    /// A number that is written as a float and is neither `0.0` nor `1.0` begins at this place, in bytes.
    Float { at: usize },
    /// The JSON isn't UTF-8, or can't be read.
    BadJson,
    /// The JSON has no object of the key's kind and hash.
    NoSuchState,
    /// The first member that can't be read, by its path.
    Field(Name, FieldCause),
    /// The size of a module's code, in bytes, isn't divisible by 4, or is above 64 MiB.
    CodeSize { stated: u32 },
    /// The varints would end after the payload, which has this many bytes after its zero byte.
    Window { offset: u32, size: u32, have: usize },
    /// The varints aren't the words of the module.
    Varint(VarintError),
    /// Memory ran out.
    Memory,
}

impl From<NoMemory> for Unreadable {
    ghost from_gives = { λ _ error. error ≡ Memory };

    fn from(_refused: NoMemory) -> Unreadable {
        Unreadable::Memory
    }
}
