//! The command `record`.
ghost use Rattle.std.specs.Prelude.{◌≡◌, ◌≢◌, ◌≤◌};
ghost use Rattle.std.specs.List.{list_any};
ghost use Rattle.disk_model.specs.Faults.{Rose};
ghost use Rattle.disk_model.specs.Place.{out};
ghost use Rattle.capture_reader.specs.Said.{lines_said};
ghost use Rattle.foz_text.specs.LineCause.{line_cause_text};
ghost use Rattle.record_lines.specs.Capture.{CaptureLeaves};
ghost use Rattle.foz_text.specs.RecordText.{is_refused};
ghost use Rattle.foz_base.specs.Ending.{Makes, Causes, HasCauses};
ghost use Rattle.foz_base.specs.FileWork.{FileLeaves};
ghost use Rattle.foz_base.specs.Outside.{file_of, history_of, files_of, FileFaultRose, IsSettledFile, WorksOn};
ghost use Rattle.foz_tool.specs.RecordRun.{IsRecordTold, Records, lacks_room, status_of_answers};
ghost use Rattle.foz_base.specs.Recording.{IsDone, StopsRecording, team_limit};

use crate::host::{Host, Seen};
use capture_lines::LineError;
use capture_reader::CaptureReader;
use disk_model::{Shelf, Sink, Source};
use driver_check::Driver;
use foz_base::{Printout, Stop, finish, read_input, record_in_file};
use foz_text::{is_refused, push_record};
use foz_words::{Name, Row};
use input_lines::lines_are_few;
use record_lines::records_add_each_key_once;
use record_team::{Meet, NoMeeting};
use record_words::{Answered, LineAnswer};
use slot_log::Slot;
use std::alloc::Global;
use std::sync::Wait;
use std::thread::Threads;

/// Has the state of the line no room?
fn lacks_room<C>(answered: &Answered<C>) -> bool
    ensures { result ≡ lacks_room answered.now }
{
    match &answered.answer {
        LineAnswer::Refused(_) => false,
        LineAnswer::Replied { reply, .. } => reply.is_full(),
    }
}

/// Has the state of a line no room?
fn any_lacks_room<C>(answers: &[Answered<C>]) -> bool
    ensures { result ≡ list_any lacks_room answers.now }
{
    answers.iter().any(|one| lacks_room(one))
}

/// Is a line neither new nor known?
fn is_any_refused<C>(answers: &[Answered<C>]) -> bool
    ensures { result ≡ list_any is_refused answers.now }
{
    answers.iter().any(|one| is_refused(one))
}

/// 8 where a line has no room, else 1 where a line is neither new nor known, else 0.
fn status_of_answers<C>(answers: &[Answered<C>]) -> u8
    ensures { result ≡ status_of_answers answers.now }
{
    if any_lacks_room(answers) {
        8
    } else if is_any_refused(answers) {
        1
    } else {
        0
    }
}

/// Records the lines of an input in a file by so many threads. Gives the text that tells their answers, and its status.
fn record<I: Source, F: Shelf, M: Meet + Sync, X: Wait + Threads + Sync>(
    rt: &X,
    alloc: Global,
    input: &mut I,
    files: &mut F,
    name: &str,
    threads: u32,
    meet: &M,
) -> Result<Printout, Stop>
    requires here { F.tells → F.places files.old name.now ≢ out }
    requires threads { (1 ≤ threads) × (threads ≤ team_limit) }

    ensures makes { I.tells → F.tells → F.Held.tells_content → let seen = files_of F.Held.content F.Held.history F.Held.faults in
        let before = file_of F.Held.content (F.places files.old name.now) in let after = file_of F.Held.content (F.places files.new name.now) in
        Makes (IsRecordTold line_cause_text lines_said (I.left input.old) (I.left input.new) threads before after)
        (StopsRecording (I.left input.old) (I.left input.new) (Rose (I.faults input.old) (I.faults input.new)) before after
        (FileFaultRose (seen (F.places files.old) (F.faults files.old)) (seen (F.places files.new) (F.faults files.new)) name.now)) result }
    ensures leaves { I.tells → F.tells → F.Held.tells_images → FileLeaves (λ content old new. CaptureLeaves content old new (lines_said (I.left input.old)) threads)
        (file_of F.Held.content (F.places files.old name.now)) (history_of F.Held.history (F.places files.old name.now)) (history_of F.Held.history (F.places files.new name.now)) }
    ensures durable { F.tells → F.Held.tells_images → IsDone result → IsSettledFile (history_of F.Held.history (F.places files.new name.now)) }
    ensures works { WorksOn F.tells (F.places files.old) (F.places files.new) name.now }
    ensures causes { let seen = files_of F.Held.content F.Held.history F.Held.faults in
        Causes (Rose (I.faults input.old) (I.faults input.new)) (F.tells → FileFaultRose (seen (F.places files.old) (F.faults files.old)) (seen (F.places files.new) (F.faults files.new)) name.now) result }
{
    records_add_each_key_once::<LineError>();
    lines_are_few();
    let capture = read_input(alloc, input)?;
    let lines = CaptureReader::new(capture.as_slice());
    let report = record_in_file(rt, alloc, files, name, lines, threads, meet)?;
    let mut text = Vec::new(alloc);
    push_record(alloc, &mut text, report.answers.as_slice(), report.entries)?;
    Ok(Printout {
        text: Row::from_vec(text),
        status: status_of_answers(report.answers.as_slice()),
    })
}

/// Records the lines of the input in a file by so many threads, prints a line for each that isn't skipped, and one that
/// counts them. Line k, counted from 0, is the thread's whose number is k modulo theirs.
pub fn record_cmd<
    I: Source,
    O: Sink,
    F: Shelf,
    C: Slot + Send,
    R: Driver,
    X: Wait + Threads + Sync,
>(rt: &X, alloc: Global, host: &mut Host<I, O, F, C, R>, file: Name, threads: u32) -> u8
    requires here { F.tells → F.places host.old.files file ≢ out }
    requires threads { (1 ≤ threads) × (threads ≤ team_limit) }

    ensures records { let seen = ⟦<Host<I, O, F, C, R> as Seen>⟧ in Records line_cause_text lines_said seen.tells (seen.outside host.old) (seen.outside host.new) file threads result }
    ensures works { WorksOn F.tells (F.places host.old.files) (F.places host.new.files) file }
    ensures causes { let seen = ⟦<Host<I, O, F, C, R> as Seen>⟧.outside in
        HasCauses (Rose (I.faults host.old.input) (I.faults host.new.input)) (Rose (O.faults host.old.output) (O.faults host.new.output)) (F.tells → FileFaultRose (seen host.old).files (seen host.new).files file) result }
    ensures driver { host.new.driver ≡ host.old.driver }
    ensures crew { host.new.crew ≡ host.old.crew }
{
    record_with(rt, alloc, host, file, threads, &NoMeeting)
}

/// The same, where each thread comes to a meeting place before each of its lines.
pub fn record_with<
    I: Source,
    O: Sink,
    F: Shelf,
    C: Slot + Send,
    R: Driver,
    M: Meet + Sync,
    X: Wait + Threads + Sync,
>(rt: &X, alloc: Global, host: &mut Host<I, O, F, C, R>, file: Name, threads: u32, meet: &M) -> u8
    requires here { F.tells → F.places host.old.files file ≢ out }
    requires threads { (1 ≤ threads) × (threads ≤ team_limit) }

    ensures records { let seen = ⟦<Host<I, O, F, C, R> as Seen>⟧ in Records line_cause_text lines_said seen.tells (seen.outside host.old) (seen.outside host.new) file threads result }
    ensures works { WorksOn F.tells (F.places host.old.files) (F.places host.new.files) file }
    ensures causes { let seen = ⟦<Host<I, O, F, C, R> as Seen>⟧.outside in
        HasCauses (Rose (I.faults host.old.input) (I.faults host.new.input)) (Rose (O.faults host.old.output) (O.faults host.new.output)) (F.tells → FileFaultRose (seen host.old).files (seen host.new).files file) result }
    ensures driver { host.new.driver ≡ host.old.driver }
    ensures crew { host.new.crew ≡ host.old.crew }
{
    let name = file.as_str();
    let made = record(
        rt,
        alloc,
        &mut host.input,
        &mut host.files,
        name,
        threads,
        meet,
    );
    finish(alloc, &mut host.output, &mut host.errors, made)
}
