//! A copy from a source to a sink.
ghost use Rattle.std.specs.Prelude.{◌≡◌, ◌++◌, ℕ, [], take, OnOk, OnErr, IfErr};
ghost use Rattle.disk_model.specs.Faults.{Rose};
ghost use Rattle.std_copy.specs.Copy.{HasFailed};

use disk_model::{Sink, Source, write_all};

// How many bytes are asked for in one call.
const PIECE: usize = 4096;

/// What failed, so that a copy isn't whole.
pub enum CopyError {
    Read,
    Write,
}

/// Copies all that a source still gives. Where a call fails, a prefix of it is copied.
pub fn copy<I: Source, O: Sink>(input: &mut I, output: &mut O) -> Result<(), CopyError>
    ensures whole { I.tells → O.tells → OnOk result (O.written output.new ≡ O.written output.old ++ I.left input.old) }
    ensures all { I.tells → OnOk result (I.left input.new ≡ []) }
    ensures cut_short { I.tells → O.tells → OnErr result ((count : ℕ) × (O.written output.new ≡ O.written output.old ++ take count (I.left input.old))) }
    ensures cause { IfErr result (HasFailed (Rose (I.faults input.old) (I.faults input.new)) (Rose (O.faults output.old) (O.faults output.new))) }
{
    let mut buffer = [0_u8; PIECE];
    'pieces: loop {
        let Ok(given) = input.read(&mut buffer) else {
            return Err(CopyError::Read);
        };
        if given == 0 {
            return Ok(());
        }
        let Ok(()) = write_all(output, &buffer[..given]) else {
            return Err(CopyError::Write);
        };
    }
}
