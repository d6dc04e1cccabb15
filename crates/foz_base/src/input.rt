//! The input of a command.
ghost use Rattle.std.specs.Prelude.{◌≡◌, ◌≤◌, length, IfOk, IfErr};
ghost use Rattle.disk_model.specs.Faults.{Rose};
ghost use Rattle.foz_base.specs.InputRead.{InputReads, InputCauses, input_limit};

use crate::stop::Stop;
use disk_model::{Failed, Source};
use foz_words::Row;
use std::alloc::Global;

// The most bytes that are read, and how many are asked for in one call.
const INPUT_LIMIT: usize = 67_108_864;

const PIECE: usize = 65_536;

/// Reads the input to its end. It is read no further where it turns out to be too long.
pub fn read_input<I: Source>(alloc: Global, input: &mut I) -> Result<Row<u8>, Stop>
    ensures reads { I.tells → InputReads (I.left input.old) (I.left input.new) (Rose (I.faults input.old) (I.faults input.new)) result }
    ensures short { IfOk result (λ bytes. length bytes ≤ input_limit) }
    ensures causes { IfErr result (InputCauses (Rose (I.faults input.old) (I.faults input.new))) }
{
    let mut bytes = Vec::new(alloc);
    let Ok(mut buffer) = vec![in alloc; 0_u8; PIECE] else {
        return Err(Stop::Memory);
    };
    let piece = buffer.as_mut_slice();
    'pieces: loop {
        let given = match input.read(piece) {
            Ok(given) => given,
            Err(Failed) => return Err(Stop::ReadFault),
        };
        if given == 0 {
            return Ok(Row::from_vec(bytes));
        }
        if given > INPUT_LIMIT - bytes.len() {
            return Err(Stop::InputTooLong);
        }
        let Ok(()) = bytes.extend_from_slice(&piece[..given]) else {
            return Err(Stop::Memory);
        };
    }
}
