// Laws of modules, for proofs above.
ghost use Rattle.std.specs.Prelude.{◌≡◌, ◌≢◌, ℕ, List, [], Result, Err};
ghost use Rattle.spirv_check.specs.Modules.{Instruction, Splits};
ghost use Rattle.spirv_check.specs.Answers.{Answers};
ghost use Rattle.spirv_check.specs.Answered.{answer_of};
ghost use Rattle.spirv_check.specs.declared.shape.Shape.{Shape};
ghost use Rattle.spirv_check.specs.declared.error.SpirvError.{SpirvError};
ghost use Rattle.spirv_check.specs.declared.error.SpirvError.TheVariants.{Memory};

/// The words are instructions in a row in one way.
pub fn one_framing()
    ensures { (at : ℕ) (words : List ℕ) (instructions others : List Instruction) →
        Splits at words instructions [] → Splits at words others [] → instructions ≡ others }
{}

/// Whatever the words are, one answer fits them, but for running out of memory.
pub fn one_answer()
    ensures fits { (words : List ℕ) → Answers words (answer_of words) }
    ensures told { (words : List ℕ) → answer_of words ≢ Err Memory }
    ensures only { (words : List ℕ) (answer : Result Shape SpirvError) → answer ≢ Err Memory → Answers words answer → answer ≡ answer_of words }
{}
