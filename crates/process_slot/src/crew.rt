// The slots of a replay.
ghost use Rattle.std.specs.Prelude.{◌≡◌, false, length, All, IfOk};

use crate::slot::ProcessSlot;
use foz_words::NoMemory;
use slot_log::Slot;
use std::alloc::Global;
use std::process::Processes;
use std::time::Clock;

/// So many slots, all of one program.
pub fn crew_of<P: Processes + Clock + Clone>(
    alloc: Global,
    system: &P,
    program: &str,
    count: usize,
) -> Result<Vec<ProcessSlot<P>>, NoMemory>
    ensures count { IfOk result (λ crew. length crew.items ≡ count) }
    ensures at_rest { IfOk result (λ crew. All (λ slot. ⟦<ProcessSlot<P> as Slot>⟧.running slot ≡ false) crew.items) }
{
    let mut crew = Vec::new(alloc);
    'slots: while crew.len() < count {
        crew.push(ProcessSlot::new(alloc, system, program)?)?;
    }
    Ok(crew)
}
