//! The outside of the program.
ghost use Rattle.std.specs.Prelude.{ℕ, List, map};
ghost use Rattle.foz_base.specs.Outside.{Outside, Tells, files_of};

use disk_model::{Disk, Shelf, Sink, Source};
use driver_check::Driver;
use slot_log::Slot;

/// What the program reads and writes, what it keeps its files in, where the workers of a
/// replay run, and what creates objects for it.
#[derive(Drop)]
pub struct Host<I, O, F, C, R> {
    pub input: I,
    pub output: O,
    pub errors: O,
    pub files: F,
    pub crew: Vec<C>,
    pub driver: R,
}

/// What contracts see of the outside. No code is in it.
pub trait Seen {
    ghost Meaning: { Type 0 };

    ghost tells: { Tells };

    ghost outside: { Self → Outside Meaning };
}

impl<I: Source, O: Sink, F: Shelf, C: Slot + Send, R: Driver> Seen for Host<I, O, F, C, R> {
    ghost Meaning = { R.Meaning };

    ghost tells = { record {
      input = I.tells;
      output = O.tells;
      content = F.tells × F.Held.tells_content;
      images = F.tells × F.Held.tells_images;
    } };

    ghost outside = { λ host. record {
      input = I.left host.input;
      input_faults = I.faults host.input;
      written = O.written host.output;
      output_faults = O.faults host.output;
      files = files_of F.Held.content F.Held.history F.Held.faults (F.places host.files) (F.faults host.files);
      crew = map (λ slot. record { log = C.log slot; start_faults = C.start_faults slot; running = C.running slot }) host.crew.items;
      driver = R.meaning host.driver;
    } };
}
