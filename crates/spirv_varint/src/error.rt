ghost use Rattle.std.specs.Prelude.{◌≡◌};
ghost use Rattle.spirv_varint.specs.declared.error.VarintError.TheVariants.{Memory};

use foz_words::NoMemory;

/// Why bytes are no row of so many varints: the first fault, and its place in the bytes.
#[derive(Clone, Copy, Debug, PartialEq, Eq)]
pub enum VarintError {
    /// The bytes end at this place, before all words stand.
    Short { at: usize },
    /// The fifth byte of a varint, at this place, has bits beyond the 32nd.
    TooLarge { at: usize },
    /// All words stand before this place, and bytes are left.
    Extra { at: usize },
    /// Memory ran out.
    Memory,
}

impl From<NoMemory> for VarintError {
    ghost from_gives = { λ _ error. error ≡ Memory };

    fn from(_refused: NoMemory) -> VarintError {
        VarintError::Memory
    }
}
