ghost use Rattle.std.specs.Prelude.{◌≡◌, ◌≢◌, ◌≤◌, ℕ, List, length, false, Result, Ok, Err};
ghost use Rattle.std.specs.List.{concat};
ghost use Rattle.serde_json.specs.Data.{Data};
ghost use Rattle.serde_json.specs.Written.{compact_text, has_float};
ghost use Rattle.float_fold.specs.Pieces.{pieces};
ghost use Rattle.float_fold.specs.Folding.{Answers, folded, has_float_token};
ghost use Rattle.float_fold.specs.declared.error.FoldError.{FoldError};
ghost use Rattle.float_fold.specs.declared.error.FoldError.TheVariants.{Memory};

/// A text has one answer, besides running out of memory. Its pieces are the text. A folded text is never longer than the text,
/// and no number token of it has `.`, `e` or `E`; a text of which no number token has these is its own folding.
pub fn folding_keeps()
    ensures alone { (text : List ℕ) (answer other : Result (List ℕ) FoldError) → answer ≢ Err Memory → other ≢ Err Memory → Answers text answer → Answers text other → answer ≡ other }
    ensures whole { (text : List ℕ) → concat (pieces text) ≡ text }
    ensures shorter { (text row : List ℕ) → folded text ≡ Ok row → length row ≤ length text }
    ensures no_float { (text row : List ℕ) → folded text ≡ Ok row → has_float_token row ≡ false }
    ensures same { (text : List ℕ) → has_float_token text ≡ false → folded text ≡ Ok text }
{}

/// The compact text that `serde_json` writes for a value without floats has no float token, and so is its own folding.
pub fn compact_text_stays()
    ensures no_float { (value : Data) → has_float value ≡ false → has_float_token (compact_text value) ≡ false }
    ensures same { (value : Data) → has_float value ≡ false → folded (compact_text value) ≡ Ok (compact_text value) }
{}
