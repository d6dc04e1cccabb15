ghost use Rattle.std.specs.Prelude.{◌≡◌};
ghost use Rattle.spirv_check.specs.declared.error.SpirvError.TheVariants.{Memory};

use foz_words::NoMemory;

/// What is wrong with a module: the first of these, in this order, and its place in words.
#[derive(Clone, Copy, Debug, PartialEq, Eq)]
pub enum SpirvError {
    /// It has fewer words than a header.
    Short { len: usize },
    /// Its first word isn't the magic number.
    BadMagic { found: u32 },
    /// Its fifth word, which is reserved, isn't 0.
    BadReserved { found: u32 },
    /// The word count of an instruction is 0 or passes the end.
    BadLength { at: usize },
    /// It has another number of memory models than one.
    MemoryModels { count: usize },
    /// A function begins inside a function.
    Nested { at: usize },
    /// A function ends outside a function.
    Unopened { at: usize },
    /// The last function has no end.
    Unclosed { at: usize },
    /// An entry point has no name that ends.
    BadName { at: usize },
    /// It has no entry point.
    NoEntryPoint,
    /// Memory ran out.
    Memory,
}

impl From<NoMemory> for SpirvError {
    ghost from_gives = { λ _ error. error ≡ Memory };

    fn from(_refused: NoMemory) -> SpirvError {
        SpirvError::Memory
    }
}
