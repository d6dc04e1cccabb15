ghost use Rattle.std.specs.Prelude.{◌≡◌, ◌≢◌, ◌+◌, ◌*◌, ◌^◌, ◌<◌, ◌≤◌, ℕ, List, All, length, Result, Err, Ok};
ghost use Rattle.spirv_varint.specs.Varint.{spelling};
ghost use Rattle.spirv_varint.specs.Reading.{Answers, Splits};
ghost use Rattle.spirv_varint.specs.declared.error.VarintError.{VarintError};
ghost use Rattle.spirv_varint.specs.declared.error.VarintError.TheVariants.{Memory};

/// Bytes and a number of words have at most one answer, besides running out of memory, and what is written for words is read
/// as these words. A word takes one to five bytes.
pub fn one_reading()
    ensures alone { (bytes : List ℕ) (count : ℕ) (answer other : Result (List ℕ) VarintError) → answer ≢ Err Memory → other ≢ Err Memory → Answers bytes count answer → Answers bytes count other → answer ≡ other }
    ensures read_back { (words : List ℕ) → All (λ word. word < 2 ^ 32) words → Answers (spelling words) (length words) (Ok words) }
    ensures at_most_five { (words : List ℕ) → length (spelling words) ≤ 5 * length words }
    ensures at_least_one { (bytes words rest : List ℕ) → Splits bytes words rest → length words + length rest ≤ length bytes }
{}
