//! The command `hash`.
ghost use Rattle.std.specs.Prelude.{◌≡◌};
ghost use Rattle.disk_model.specs.Faults.{Rose};
ghost use Rattle.foz_base.specs.Ending.{Makes, Causes, HasCauses};
ghost use Rattle.foz_tool.specs.HashRun.{IsHashTold, Hashes};
ghost use Rattle.foz_base.specs.InputRead.{StopsInput};

use crate::host::{Host, Seen};
use disk_model::{Shelf, Sink, Source};
use driver_check::Driver;
use foz_base::{Printout, Stop, finish, read_input};
use foz_text::push_hash;
use foz_words::Row;
use slot_log::Slot;
use std::alloc::Global;

/// The text of the capture that an input is, with 0 where no line of it is refused, else 1.
fn hash<I: Source>(alloc: Global, input: &mut I) -> Result<Printout, Stop>
    ensures makes { I.tells → Makes (IsHashTold (I.left input.old) (I.left input.new)) (StopsInput (I.left input.old) (Rose (I.faults input.old) (I.faults input.new))) result }
    ensures causes { Causes (Rose (I.faults input.old) (I.faults input.new)) ⊥ result }
{
    let capture = read_input(alloc, input)?;
    let mut text = Vec::new(alloc);
    let readable = push_hash(alloc, &mut text, capture.as_slice())?;
    Ok(Printout {
        text: Row::from_vec(text),
        status: if readable { 0 } else { 1 },
    })
}

/// Prints a line for each line of the capture that the input is: the kind and the hash of its state, or why it is refused.
/// Lines that are empty or comments have none.
pub fn hash_cmd<I: Source, O: Sink, F: Shelf, C: Slot + Send, R: Driver>(
    alloc: Global,
    host: &mut Host<I, O, F, C, R>,
) -> u8
    ensures hashes { let seen = ⟦<Host<I, O, F, C, R> as Seen>⟧ in Hashes seen.tells (seen.outside host.old) (seen.outside host.new) result }
    ensures causes { HasCauses (Rose (I.faults host.old.input) (I.faults host.new.input)) (Rose (O.faults host.old.output) (O.faults host.new.output)) ⊥ result }
    ensures files { host.new.files ≡ host.old.files }
    ensures driver { host.new.driver ≡ host.old.driver }
    ensures crew { host.new.crew ≡ host.old.crew }
{
    let made = hash(alloc, &mut host.input);
    finish(alloc, &mut host.output, &mut host.errors, made)
}
