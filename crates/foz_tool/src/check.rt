//! The command `check`.
ghost use Rattle.std.specs.Prelude.{◌≡◌, ◌≢◌, ◌≤◌, ◌⊎◌, length, All, IfOk, IfErr};
ghost use Rattle.disk_model.specs.Faults.{Rose};
ghost use Rattle.disk_model.specs.Place.{out};
ghost use Rattle.foz_entry.specs.Limits.{count_limit};
ghost use Rattle.dep_graph.specs.Items.{HasItsSize};
ghost use Rattle.foz_tool.specs.CheckRun.{IsReplayTold, IsCheckTold, Checks};
ghost use Rattle.foz_base.specs.Ending.{Makes, Causes, HasCauses};
ghost use Rattle.foz_base.specs.FileRead.{StopsReading};
ghost use Rattle.foz_base.specs.Outside.{file_of, files_of, FileFaultRose, IsFileOnlyRead, WorksOn};

use crate::host::{Host, Seen};
use crate::outcome::outcome_of;
use check_run::check_entries;
use disk_model::{Shelf, Sink, Source};
use driver_check::Driver;
use foz_base::{Printout, Stop, finish, read_file};
use foz_entry::Entry;
use foz_words::{Name, NoMemory};
use replay_text::decided_is_answered;
use slot_log::Slot;
use std::alloc::Global;

/// Replays the items of entries. Gives the text that tells how each entry came out, with 0 where each is well, else 1.
fn replay_told<R: Driver>(
    alloc: Global,
    entries: &[Entry],
    driver: &mut R,
) -> Result<Printout, NoMemory>
    requires few { length entries.now ≤ count_limit }
    requires sized { All HasItsSize entries.now }
    ensures { IfOk result (λ told. IsReplayTold R.creates (R.meaning driver.old) entries.now (R.meaning driver.new) told.text told.status) }
{
    decided_is_answered();
    let checked = check_entries(alloc, entries, driver)?;
    let told = outcome_of(alloc, entries, &checked.graph, &checked.core)?;
    Ok(told)
}

/// Replays the items of a file, and tells how each entry came out.
fn check<F: Shelf, R: Driver>(
    alloc: Global,
    files: &mut F,
    driver: &mut R,
    name: &str,
) -> Result<Printout, Stop>
    requires here { F.tells → F.places files.old name.now ≢ out }

    ensures makes { F.tells → F.Held.tells_content → let seen = files_of F.Held.content F.Held.history F.Held.faults in let file = file_of F.Held.content (F.places files.old name.now) in
        Makes (IsCheckTold R.creates file (R.meaning driver.old) (R.meaning driver.new)) (StopsReading file (FileFaultRose (seen (F.places files.old) (F.faults files.old)) (seen (F.places files.new) (F.faults files.new)) name.now)) result }
    ensures only_read { F.tells → F.Held.tells_content → let seen = files_of F.Held.content F.Held.history F.Held.faults in
        IsFileOnlyRead F.Held.tells_images (seen (F.places files.old) (F.faults files.old)) (seen (F.places files.new) (F.faults files.new)) name.now }
    ensures works { WorksOn F.tells (F.places files.old) (F.places files.new) name.now }
    ensures causes { let seen = files_of F.Held.content F.Held.history F.Held.faults in
        Causes (F.tells → FileFaultRose (seen (F.places files.old) (F.faults files.old)) (seen (F.places files.new) (F.faults files.new)) name.now) ⊥ result }
    ensures driver { IfErr result (λ stop. stop ≢ Stop.Memory → driver.new ≡ driver.old) }
{
    let scanned = read_file(alloc, files, name)?;
    let told = replay_told(alloc, scanned.entries.as_slice(), driver)?;
    Ok(told)
}

/// Replays the items of a file in this process, each given to the driver once what it depends on succeeded, and prints how
/// each entry came out.
pub fn check_cmd<I: Source, O: Sink, F: Shelf, C: Slot + Send, R: Driver>(
    alloc: Global,
    host: &mut Host<I, O, F, C, R>,
    file: Name,
) -> u8
    requires here { F.tells → F.places host.old.files file ≢ out }

    ensures checks { let seen = ⟦<Host<I, O, F, C, R> as Seen>⟧ in Checks R.creates seen.tells (seen.outside host.old) (seen.outside host.new) file result }
    ensures works { WorksOn F.tells (F.places host.old.files) (F.places host.new.files) file }
    ensures causes { let seen = ⟦<Host<I, O, F, C, R> as Seen>⟧.outside in
        HasCauses (F.tells → FileFaultRose (seen host.old).files (seen host.new).files file) (Rose (O.faults host.old.output) (O.faults host.new.output)) ⊥ result }
    ensures input { host.new.input ≡ host.old.input }
    ensures crew { host.new.crew ≡ host.old.crew }
    ensures driver { (result ≡ 3) ⊎ (result ≡ 6) → host.new.driver ≡ host.old.driver }
{
    let made = check(alloc, &mut host.files, &mut host.driver, file.as_str());
    finish(alloc, &mut host.output, &mut host.errors, made)
}
