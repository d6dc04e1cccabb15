//! The command `list`.
ghost use Rattle.std.specs.Prelude.{◌≡◌, ◌≢◌};
ghost use Rattle.disk_model.specs.Faults.{Rose};
ghost use Rattle.disk_model.specs.Place.{out};
ghost use Rattle.foz_base.specs.Ending.{Makes, Causes, HasCauses};
ghost use Rattle.foz_base.specs.FileRead.{StopsReading};
ghost use Rattle.foz_tool.specs.ListRun.{IsListTold, Lists};
ghost use Rattle.foz_base.specs.Outside.{file_of, files_of, FileFaultRose, IsFileOnlyRead, WorksOn};

use crate::host::{Host, Seen};
use disk_model::{Shelf, Sink, Source};
use driver_check::Driver;
use foz_base::{Printout, Stop, finish, read_file};
use foz_text::push_list;
use foz_words::{Name, Row};
use slot_log::Slot;
use std::alloc::Global;

/// The text of a file, with 0 where each of its lines is `ok`, else 1.
fn list<F: Shelf>(alloc: Global, files: &mut F, name: &str) -> Result<Printout, Stop>
    requires here { F.tells → F.places files.old name.now ≢ out }

    ensures makes { F.tells → F.Held.tells_content → let seen = files_of F.Held.content F.Held.history F.Held.faults in let file = file_of F.Held.content (F.places files.old name.now) in
        Makes (IsListTold file) (StopsReading file (FileFaultRose (seen (F.places files.old) (F.faults files.old)) (seen (F.places files.new) (F.faults files.new)) name.now)) result }
    ensures only_read { F.tells → F.Held.tells_content → let seen = files_of F.Held.content F.Held.history F.Held.faults in
        IsFileOnlyRead F.Held.tells_images (seen (F.places files.old) (F.faults files.old)) (seen (F.places files.new) (F.faults files.new)) name.now }
    ensures works { WorksOn F.tells (F.places files.old) (F.places files.new) name.now }
    ensures causes { let seen = files_of F.Held.content F.Held.history F.Held.faults in
        Causes (F.tells → FileFaultRose (seen (F.places files.old) (F.faults files.old)) (seen (F.places files.new) (F.faults files.new)) name.now) ⊥ result }
{
    let scanned = read_file(alloc, files, name)?;
    let mut text = Vec::new(alloc);
    let flawless = push_list(alloc, &mut text, &scanned)?;
    Ok(Printout {
        text: Row::from_vec(text),
        status: if flawless { 0 } else { 1 },
    })
}

/// Prints a line for each entry of a file, and a line that says where they end.
pub fn list_cmd<I: Source, O: Sink, F: Shelf, C: Slot + Send, R: Driver>(
    alloc: Global,
    host: &mut Host<I, O, F, C, R>,
    file: Name,
) -> u8
    requires here { F.tells → F.places host.old.files file ≢ out }

    ensures lists { let seen = ⟦<Host<I, O, F, C, R> as Seen>⟧ in Lists seen.tells (seen.outside host.old) (seen.outside host.new) file result }
    ensures works { WorksOn F.tells (F.places host.old.files) (F.places host.new.files) file }
    ensures causes { let seen = ⟦<Host<I, O, F, C, R> as Seen>⟧.outside in
        HasCauses (F.tells → FileFaultRose (seen host.old).files (seen host.new).files file) (Rose (O.faults host.old.output) (O.faults host.new.output)) ⊥ result }
    ensures input { host.new.input ≡ host.old.input }
    ensures driver { host.new.driver ≡ host.old.driver }
    ensures crew { host.new.crew ≡ host.old.crew }
{
    let made = list(alloc, &mut host.files, file.as_str());
    finish(alloc, &mut host.output, &mut host.errors, made)
}
