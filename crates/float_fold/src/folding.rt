ghost use Rattle.float_fold.specs.Folding.{Answers};

use crate::error::FoldError;
use crate::piece::{Fate, fate_of, rest_of_piece};
use foz_words::Row;
use std::alloc::Global;

/// The text with each number token `0.0` as `0` and each `1.0` as `1`. The answer is `FloatField` for the first other
/// token that has `.`, `e` or `E`. A number token stands outside texts, begins at a digit or `-`, and goes on over
/// digits, `+`, `-`, `.`, `e` and `E`. A text is from `"` to the next `"` that no backslash escapes, or to the end.
pub fn fold_floats(alloc: Global, text: &[u8]) -> Result<Row<u8>, FoldError>
    ensures { Answers text.now result }
{
    let mut folded = Row::new(alloc);
    // What stands before this place in the text is in the row.
    let mut copied = 0;
    let mut at = 0;
    while at < text.len() {
        let end = at + 1 + rest_of_piece(text[at], &text[at + 1..]);
        match fate_of(&text[at..end]) {
            Fate::Stays => {}
            Fate::ToFirst => {
                folded.extend(&text[copied..at + 1])?;
                copied = end;
            }
            Fate::Refused => return Err(FoldError::FloatField { at }),
        }
        at = end;
    }
    folded.extend(&text[copied..])?;
    Ok(folded)
}
