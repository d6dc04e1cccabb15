ghost use Rattle.std.specs.Prelude.{◌≡◌, ◌≢◌, IfOk, MatchResult};
ghost use Rattle.spirv_check.specs.declared.error.SpirvError.TheVariants.{Memory};
ghost use Rattle.driver_rules.specs.Modules.{fault_code, module_code, entries_in};

use foz_words::{NoMemory, Row};
use spirv_check::{EntryPoint, SpirvError, check};
use std::alloc::Global;

/// What comes of the rules of a state.
#[derive(Debug, Drop)]
pub struct Judged {
    /// The code of the first rule that it breaks, or 0.
    pub code: u32,
    /// The entry points that it offers, if it is a module with the code 0.
    pub entries: Row<EntryPoint>,
}

/// Checks the SPIR-V code of a module.
pub fn judge_module(alloc: Global, words: &[u32]) -> Result<Judged, NoMemory>
    ensures code { IfOk result (λ judged. judged.code ≡ module_code words.now) }
    ensures entries { IfOk result (λ judged. judged.entries ≡ entries_in words.now) }
{
    match check(alloc, words) {
        Ok(shape) => Ok(Judged {
            code: 0,
            entries: shape.entries,
        }),
        Err(fault) => Ok(Judged {
            code: fault_code(fault)?,
            entries: Row::new(alloc),
        }),
    }
}

/// The code of a fault. Running out of memory has none.
fn fault_code(fault: SpirvError) -> Result<u32, NoMemory>
    ensures { MatchResult result (λ code. (code ≡ fault_code fault) × (fault ≢ Memory)) (λ _. fault ≡ Memory) }
{
    match fault {
        SpirvError::Short { .. } | SpirvError::BadMagic { .. } | SpirvError::BadReserved { .. } =>
            Ok(15),
        SpirvError::BadLength { .. } => Ok(16),
        SpirvError::MemoryModels { .. } => Ok(17),
        SpirvError::Nested { .. } | SpirvError::Unopened { .. } | SpirvError::Unclosed { .. } => Ok(
            18,
        ),
        SpirvError::BadName { .. } | SpirvError::NoEntryPoint => Ok(19),
        SpirvError::Memory => Err(NoMemory),
    }
}
