ghost use Rattle.std.specs.Prelude.{◌≡◌};
ghost use Rattle.float_fold.specs.declared.error.FoldError.TheVariants.{Memory};

use foz_words::NoMemory;

/// Why JSON isn't folded.
#[derive(Clone, Copy, Debug, PartialEq, Eq)]
pub enum FoldError {
    /// The number token that begins at this place, in bytes, is written as a float and is neither `0.0` nor `1.0`.
    FloatField { at: usize },
    /// Memory ran out.
    Memory,
}

impl From<NoMemory> for FoldError {
    ghost from_gives = { λ _ error. error ≡ Memory };

    fn from(_refused: NoMemory) -> FoldError {
        FoldError::Memory
    }
}
