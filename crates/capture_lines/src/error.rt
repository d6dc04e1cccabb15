ghost use Rattle.std.specs.Prelude.{◌≡◌};
ghost use Rattle.capture_lines.specs.Causes.{of_parse_error, of_field_error};
ghost use Rattle.capture_lines.specs.declared.error.LineError.TheVariants.{Memory};

use foz_words::{Name, NoMemory};
use json_fold::{FieldCause, FieldError};
use state_json::ParseError;

/// Why a capture line gives no state.
#[derive(Debug, Drop)]
pub enum LineError {
    /// The line doesn't begin with a kind word and one blank.
    Kind,
    /// The first number that is written as a float and is neither `0.0` nor `1.0` begins at this place, in bytes after
    /// the blank.
    Float { at: usize },
    /// What follows the blank is no JSON.
    Json,
    /// The first member that can't be read, by its path. The path is empty where the state itself is no object.
    Field(Name, FieldCause),
    /// The code of a shader module is no whole number of words.
    Code,
    /// Memory ran out.
    Memory,
}

impl From<NoMemory> for LineError {
    ghost from_gives = { λ _ error. error ≡ Memory };

    fn from(_refused: NoMemory) -> LineError {
        LineError::Memory
    }
}

impl From<ParseError> for LineError {
    ghost from_gives = { λ refused error. error ≡ of_parse_error refused };

    fn from(refused: ParseError) -> LineError {
        match refused {
            ParseError::Float { at } => LineError::Float { at },
            ParseError::Json => LineError::Json,
            ParseError::Memory => LineError::Memory,
        }
    }
}

impl From<FieldError> for LineError {
    ghost from_gives = { λ refused error. error ≡ of_field_error refused };

    fn from(refused: FieldError) -> LineError {
        match refused {
            FieldError::Bad { path, cause } => LineError::Field(path, cause),
            FieldError::Memory => LineError::Memory,
        }
    }
}
