//! The command `replay`.
ghost use Rattle.std.specs.Prelude.{◌≡◌, ◌≢◌, ◌<◌, ◌≤◌, ◌⊎◌, false, length, map, take, drop, All, IfOk, IfErr};
ghost use Rattle.disk_model.specs.Faults.{Rose};
ghost use Rattle.disk_model.specs.Place.{out};
ghost use Rattle.foz_entry.specs.Limits.{count_limit};
ghost use Rattle.dep_graph.specs.Items.{HasItsSize};
ghost use Rattle.replay_run.specs.Replays.{EachFailedToStart};
ghost use Rattle.foz_base.specs.Ending.{Makes};
ghost use Rattle.foz_base.specs.FileRead.{StopsReading};
ghost use Rattle.foz_base.specs.Outside.{file_of, files_of, FileFaultRose, IsFileOnlyRead, WorksOn};
ghost use Rattle.foz_tool.specs.ReplayRun.{AreReplayed, IsFileReplayed, Replays, ReplayCauses, HasReplayCauses};

use crate::host::{Host, Seen};
use crate::outcome::{UNANSWERED, outcome_of};
use disk_model::{Shelf, Sink, Source};
use driver_check::Driver;
use foz_base::{Printout, Stop, complain, finish, read_file};
use foz_entry::Entry;
use foz_words::{Name, NoMemory};
use replay_run::{replay_entries, unanswered_by_failed_starts};
use replay_text::decided_is_answered;
use slot_log::Slot;
use std::alloc::Global;
use std::fmt;
use std::sync::Wait;
use std::thread::Threads;

/// Items are unanswered, since no worker can be started any more.
#[derive(Clone, Copy)]
struct NoWorkers;

impl fmt::Display for NoWorkers {
    fn fmt<W: fmt::Write>(&self, f: &mut fmt::Formatter<W>) -> fmt::Result {
        f.write_str("no workers")
    }
}

/// Replays the items of entries by a worker in each slot. Gives the text that tells how each entry came out, and its status.
fn replay_told<C: Slot + Send, X: Wait + Threads + Sync>(
    rt: &X,
    alloc: Global,
    entries: &[Entry],
    slots: &mut [C],
) -> Result<Printout, NoMemory>
    requires few { length entries.now ≤ count_limit }
    requires sized { All HasItsSize entries.now }
    requires some_slot { 0 < length slots.old }
    requires few_slots { length slots.old ≤ 16 }
    requires at_rest { All (λ slot. C.running slot ≡ false) slots.old }

    ensures told { let seen = map (λ slot. record { log = C.log slot; start_faults = C.start_faults slot; running = C.running slot }) in
        IfOk result (λ told. AreReplayed entries.now (seen slots.old) (seen slots.new) told.text told.status) }
    ensures at_rest { All (λ slot. C.running slot ≡ false) slots.new }
{
    let replayed = replay_entries(rt, alloc, entries, slots)?;
    outcome_of(alloc, entries, &replayed.graph, &replayed.core)
}

/// The same by so many workers, in the first of these slots. The others stay as they are.
fn replay_first<C: Slot + Send, X: Wait + Threads + Sync>(
    rt: &X,
    alloc: Global,
    entries: &[Entry],
    crew: &mut [C],
    workers: u32,
) -> Result<Printout, NoMemory>
    requires few { length entries.now ≤ count_limit }
    requires sized { All HasItsSize entries.now }
    requires some_worker { 0 < workers }
    requires few_workers { workers ≤ 16 }
    requires slots { workers ≤ length crew.old }
    requires at_rest { All (λ slot. C.running slot ≡ false) crew.old }

    ensures told { let seen = map (λ slot. record { log = C.log slot; start_faults = C.start_faults slot; running = C.running slot }) in
        IfOk result (λ told. AreReplayed entries.now (take workers (seen crew.old)) (take workers (seen crew.new)) told.text told.status) }
    ensures others { drop workers crew.new ≡ drop workers crew.old }
    ensures at_rest { All (λ slot. C.running slot ≡ false) crew.new }
{
    let (slots, _) = crew.split_at_mut(workers as usize);
    replay_told(rt, alloc, entries, slots)
}

/// The same in the first slots of a crew.
fn replay_by<C: Slot + Send, X: Wait + Threads + Sync>(
    rt: &X,
    alloc: Global,
    entries: &[Entry],
    crew: &mut Vec<C>,
    workers: u32,
) -> Result<Printout, NoMemory>
    requires few { length entries.now ≤ count_limit }
    requires sized { All HasItsSize entries.now }
    requires some_worker { 0 < workers }
    requires few_workers { workers ≤ 16 }
    requires slots { workers ≤ length crew.old.items }
    requires at_rest { All (λ slot. C.running slot ≡ false) crew.old.items }

    ensures told { let seen = map (λ slot. record { log = C.log slot; start_faults = C.start_faults slot; running = C.running slot }) in
        IfOk result (λ told. AreReplayed entries.now (take workers (seen crew.old.items)) (take workers (seen crew.new.items)) told.text told.status) }
    ensures others { drop workers crew.new.items ≡ drop workers crew.old.items }
    ensures at_rest { All (λ slot. C.running slot ≡ false) crew.new.items }
{
    replay_first(rt, alloc, entries, crew.as_mut_slice(), workers)
}

/// Replays the items of a file, and tells how each entry came out.
fn replay<F: Shelf, C: Slot + Send, X: Wait + Threads + Sync>(
    rt: &X,
    alloc: Global,
    files: &mut F,
    crew: &mut Vec<C>,
    name: &str,
    workers: u32,
) -> Result<Printout, Stop>
    requires here { F.tells → F.places files.old name.now ≢ out }
    requires some_worker { 0 < workers }
    requires few_workers { workers ≤ 16 }
    requires slots { workers ≤ length crew.old.items }
    requires at_rest { All (λ slot. C.running slot ≡ false) crew.old.items }

    ensures makes { F.tells → F.Held.tells_content → let seen = files_of F.Held.content F.Held.history F.Held.faults in let file = file_of F.Held.content (F.places files.old name.now) in
        let slots = map (λ slot. record { log = C.log slot; start_faults = C.start_faults slot; running = C.running slot }) in
        Makes (IsFileReplayed file (take workers (slots crew.old.items)) (take workers (slots crew.new.items))) (StopsReading file (FileFaultRose (seen (F.places files.old) (F.faults files.old)) (seen (F.places files.new) (F.faults files.new)) name.now)) result }
    ensures only_read { F.tells → F.Held.tells_content → let seen = files_of F.Held.content F.Held.history F.Held.faults in
        IsFileOnlyRead F.Held.tells_images (seen (F.places files.old) (F.faults files.old)) (seen (F.places files.new) (F.faults files.new)) name.now }
    ensures works { WorksOn F.tells (F.places files.old) (F.places files.new) name.now }
    ensures causes { let seen = files_of F.Held.content F.Held.history F.Held.faults in
        let slots = map (λ slot. record { log = C.log slot; start_faults = C.start_faults slot; running = C.running slot }) in
        ReplayCauses (F.tells → FileFaultRose (seen (F.places files.old) (F.faults files.old)) (seen (F.places files.new) (F.faults files.new)) name.now) (EachFailedToStart (take workers (slots crew.old.items)) (take workers (slots crew.new.items))) result }
    ensures unread { IfErr result (λ stop. stop ≢ Stop.Memory → crew.new ≡ crew.old) }
    ensures others { drop workers crew.new.items ≡ drop workers crew.old.items }
    ensures at_rest { All (λ slot. C.running slot ≡ false) crew.new.items }
{
    decided_is_answered();
    unanswered_by_failed_starts();
    let scanned = read_file(alloc, files, name)?;
    let told = replay_by(rt, alloc, scanned.entries.as_slice(), crew, workers)?;
    Ok(told)
}

/// Says on the error output why items are unanswered, where some are.
fn complain_unanswered<O: Sink>(alloc: Global, errors: &mut O, status: u8) {
    if status == UNANSWERED {
        complain(alloc, errors, &NoWorkers);
    }
}

/// Replays the items of a file by so many workers, each given to one of them once what it depends on succeeded, and prints how
/// each entry came out.
pub fn replay_cmd<
    I: Source,
    O: Sink,
    F: Shelf,
    C: Slot + Send,
    R: Driver,
    X: Wait + Threads + Sync,
>(rt: &X, alloc: Global, host: &mut Host<I, O, F, C, R>, file: Name, workers: u32) -> u8
    requires here { F.tells → F.places host.old.files file ≢ out }
    requires some_worker { 0 < workers }
    requires few_workers { workers ≤ 16 }
    requires slots { workers ≤ length host.old.crew.items }
    requires at_rest { All (λ slot. C.running slot ≡ false) host.old.crew.items }

    ensures replays { let seen = ⟦<Host<I, O, F, C, R> as Seen>⟧ in Replays seen.tells (seen.outside host.old) (seen.outside host.new) file workers result }
    ensures works { WorksOn F.tells (F.places host.old.files) (F.places host.new.files) file }
    ensures causes { let seen = ⟦<Host<I, O, F, C, R> as Seen>⟧.outside in
        HasReplayCauses (F.tells → FileFaultRose (seen host.old).files (seen host.new).files file) (Rose (O.faults host.old.output) (O.faults host.new.output))
        (EachFailedToStart (take workers (seen host.old).crew) (take workers (seen host.new).crew)) result }
    ensures input { host.new.input ≡ host.old.input }
    ensures driver { host.new.driver ≡ host.old.driver }
    ensures unread { (result ≡ 3) ⊎ (result ≡ 6) → host.new.crew ≡ host.old.crew }
    ensures at_rest { All (λ slot. C.running slot ≡ false) host.new.crew.items }
{
    let made = replay(
        rt,
        alloc,
        &mut host.files,
        &mut host.crew,
        file.as_str(),
        workers,
    );
    let status = finish(alloc, &mut host.output, &mut host.errors, made);
    complain_unanswered(alloc, &mut host.errors, status);
    status
}
