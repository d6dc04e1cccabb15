ghost use Rattle.std.specs.Prelude.{◌≡◌};
ghost use Rattle.serde_json.specs.Errors.{IsMemory};
ghost use Rattle.state_json.specs.Parsed.{Parses, parsed};

use float_fold::{FoldError, fold_floats};
use serde_json::Value;
use std::alloc::Global;

/// Why a text is no JSON value.
#[derive(Clone, Copy, Debug, PartialEq, Eq)]
pub enum ParseError {
    /// The first number that is written as a float and is neither `0.0` nor `1.0` begins at this place, in bytes.
    Float { at: usize },
    /// The folded text isn't UTF-8, or no JSON that nests at most 127 deep.
    Json,
    /// Memory ran out.
    Memory,
}

/// The JSON value of a text in which `0.0` and `1.0` stand for 0 and 1.
#[tactic(auto, unfolding(crate::specs::Parsed::parsed), using(crate::proofs::InText::read_in_text))]
pub fn parse(alloc: Global, text: &[u8]) -> Result<Value, ParseError>
    ensures { Parses result (parsed text.now) }
{
    let folded = match fold_floats(alloc, text) {
        Ok(folded) => folded,
        Err(FoldError::FloatField { at }) => return Err(ParseError::Float { at }),
        Err(FoldError::Memory) => return Err(ParseError::Memory),
    };
    match Value::from_slice(alloc, folded.as_slice()) {
        Ok(value) => Ok(value),
        Err(error) => {
            if error.is_memory() {
                return Err(ParseError::Memory);
            }
            Err(ParseError::Json)
        }
    }
}
