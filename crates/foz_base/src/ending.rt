//! The end of a command that prints one text.
ghost use Rattle.std.specs.Prelude.{◌≡◌, Result};
ghost use Rattle.disk_model.specs.Faults.{Rose};
ghost use Rattle.foz_base.specs.Ending.{Prints, EndsWith};

use crate::complaint::complain;
use crate::stop::{Stop, status_of};
use disk_model::{Failed, Sink, write_all};
use foz_words::Row;
use std::alloc::Global;

/// The text of a command that has done its work, and the status that goes with it.
#[derive(Debug, Drop)]
pub struct Printout {
    pub text: Row<u8>,
    pub status: u8,
}

/// Prints what a command has made, or says on the error output why it stopped. Gives the status.
pub fn finish<O: Sink>(
    alloc: Global,
    output: &mut O,
    errors: &mut O,
    made: Result<Printout, Stop>,
) -> u8
    ensures printed { O.tells → Prints made (O.written output.old) (O.written output.new) (Rose (O.faults output.old) (O.faults output.new)) result }
    ensures status { EndsWith made (Rose (O.faults output.old) (O.faults output.new)) result }
{
    let stop = match made {
        Ok(printout) => match write_all(output, printout.text.as_slice()) {
            Ok(()) => return printout.status,
            Err(Failed) => Stop::WriteFault,
        },
        Err(stop) => stop,
    };
    complain(alloc, errors, &stop);
    status_of(&stop)
}
