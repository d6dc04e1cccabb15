//! The command `worker`.
ghost use Rattle.std.specs.Prelude.{◌≡◌};
ghost use Rattle.disk_model.specs.Faults.{Rose};
ghost use Rattle.foz_base.specs.Status.{status_of_stop};
ghost use Rattle.foz_base.specs.Ending.{HasCauses};
ghost use Rattle.foz_tool.specs.WorkerRun.{Serves, status_of_served};

use crate::host::{Host, Seen};
use disk_model::{Shelf, Sink, Source};
use driver_check::Driver;
use foz_base::{Stop, complain, status_of};
use slot_log::Slot;
use std::alloc::Global;
use std::fmt;
use worker_node::{Served, serve};

/// No frame begins or goes on at this place of the input, counted from its first byte.
#[derive(Clone, Copy)]
struct BadFrame {
    at: u64,
}

impl fmt::Display for BadFrame {
    fn fmt<W: fmt::Write>(&self, f: &mut fmt::Formatter<W>) -> fmt::Result {
        write!(f, "bad frame {}", self.at)
    }
}

/// Says on the error output why serving stopped, and answers the status of that.
fn stopped<O: Sink>(alloc: Global, errors: &mut O, stop: &Stop) -> u8
    ensures { result ≡ status_of_stop stop.now }
{
    complain(alloc, errors, stop);
    status_of(stop)
}

/// The status of an end. Where it is no Quit and not that of the input, the error output is told.
fn status_of_end<O: Sink>(alloc: Global, errors: &mut O, end: Served) -> u8
    ensures { result ≡ status_of_served end }
{
    match end {
        Served::Quit | Served::InputEnded { .. } => 0,
        Served::BadFrame { at } => {
            complain(alloc, errors, &BadFrame { at });
            1
        }
        Served::ReadFault => stopped(alloc, errors, &Stop::ReadFault),
        Served::WriteFault => stopped(alloc, errors, &Stop::WriteFault),
        Served::Memory => stopped(alloc, errors, &Stop::Memory),
    }
}

/// Serves the frames of the input over the driver, and writes its answers.
pub fn worker_cmd<I: Source, O: Sink, F: Shelf, C: Slot + Send, R: Driver>(
    alloc: Global,
    host: &mut Host<I, O, F, C, R>,
) -> u8
    ensures serves { let seen = ⟦<Host<I, O, F, C, R> as Seen>⟧ in Serves R.creates seen.tells (seen.outside host.old) (seen.outside host.new) result }
    ensures causes { HasCauses (Rose (I.faults host.old.input) (I.faults host.new.input)) (Rose (O.faults host.old.output) (O.faults host.new.output)) ⊥ result }
    ensures files { host.new.files ≡ host.old.files }
    ensures crew { host.new.crew ≡ host.old.crew }
{
    let end = serve(alloc, &mut host.input, &mut host.output, &mut host.driver);
    status_of_end(alloc, &mut host.errors, end)
}
