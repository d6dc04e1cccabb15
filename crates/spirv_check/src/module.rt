ghost use Rattle.std.specs.Prelude.{◌≡◌, ◌≢◌, Err, MatchResult};
ghost use Rattle.spirv_check.specs.Modules.{HasHeader};
ghost use Rattle.spirv_check.specs.Seen.{IsWalked, IsUnwalked};
ghost use Rattle.spirv_check.specs.Answers.{Answers, IsBadHeader};
ghost use Rattle.spirv_check.specs.Answered.{answer_of};
ghost use Rattle.spirv_check.specs.declared.error.SpirvError.TheVariants.{Memory};

use crate::error::SpirvError;
use crate::seen::Seen;
use crate::shape::Shape;
use std::alloc::Global;

const MAGIC: u32 = 0x0723_0203;

const HEADER: usize = 5;

/// The shape of a module, or its first fault.
pub fn check(alloc: Global, words: &[u32]) -> Result<Shape, SpirvError>
    ensures answer { Answers words.now result }
    // It is the one that fits the words, unless memory ran out.
    ensures only { result ≢ Err Memory → result ≡ answer_of words.now }
{
    check_words(alloc, words)
}

fn check_words(alloc: Global, words: &[u32]) -> Result<Shape, SpirvError>
    ensures { Answers words.now result }
{
    check_header(words)?;
    walk(alloc, words)?.judge()
}

fn check_header(words: &[u32]) -> Result<(), SpirvError>
    ensures { MatchResult result (λ _. HasHeader words.now) (λ fault. IsBadHeader words.now fault) }
{
    if words.len() < HEADER {
        return Err(SpirvError::Short { len: words.len() });
    }
    if words[0] != MAGIC {
        return Err(SpirvError::BadMagic { found: words[0] });
    }
    if words[4] != 0 {
        return Err(SpirvError::BadReserved { found: words[4] });
    }
    Ok(())
}

/// What all instructions are, or the first that isn't framed.
fn walk(alloc: Global, words: &[u32]) -> Result<Seen, SpirvError>
    requires { HasHeader words.now }
    ensures { MatchResult result (λ seen. IsWalked words.now seen) (λ fault. IsUnwalked words.now fault) }
{
    let mut seen = Seen::new(alloc);
    let mut at = HEADER;
    while at < words.len() {
        let count = (words[at] / 65536) as usize;
        if count == 0 || words.len() - at < count {
            return Err(SpirvError::BadLength { at });
        }
        seen.take(alloc, at, &words[at..at + count])?;
        at += count;
    }
    Ok(seen)
}
