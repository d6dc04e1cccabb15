//! The command `put`.
ghost use Rattle.std.specs.Prelude.{◌≡◌, ◌≢◌, false, IfOk, IfErr};
ghost use Rattle.disk_model.specs.Faults.{Rose};
ghost use Rattle.disk_model.specs.Place.{out};
ghost use Rattle.foz_base.specs.Ending.{Makes, Causes, HasCauses};
ghost use Rattle.foz_base.specs.FileWork.{FileLeaves};
ghost use Rattle.foz_base.specs.Outside.{file_of, history_of, files_of, FileFaultRose, IsSettledFile, WorksOn};
ghost use Rattle.foz_text.specs.PutText.{put_text};
ghost use Rattle.record_words.specs.Replies.{is_full};
ghost use Rattle.foz_tool.specs.PutRun.{IsPutTold, IsUntold, StopsPut, LeavesRecord, Puts, status_of_reply};
ghost use Rattle.foz_base.specs.Recording.{IsDone};

use crate::host::{Host, Seen};
use disk_model::{Shelf, Sink, Source};
use driver_check::Driver;
use foz_base::{OneLine, Printout, Recording, Stop, finish, only_reply, read_input, write_file};
use foz_text::push_put;
use foz_words::{Key, Name, NoMemory, Row};
use record_words::{RecordReply, lines_in_order_make_a_record};
use slot_log::Slot;
use std::alloc::Global;

/// Records an input under a key in a file. Gives the line that says how that went, with 0 where the payload is there now.
fn put<I: Source, F: Shelf>(
    alloc: Global,
    input: &mut I,
    files: &mut F,
    name: &str,
    key: Key,
) -> Result<Printout, Stop>
    requires here { F.tells → F.places files.old name.now ≢ out }

    ensures makes { I.tells → F.tells → F.Held.tells_content → let seen = files_of F.Held.content F.Held.history F.Held.faults in
        let before = file_of F.Held.content (F.places files.old name.now) in let after = file_of F.Held.content (F.places files.new name.now) in
        Makes (IsPutTold (I.left input.old) (I.left input.new) before after key)
        (StopsPut (I.left input.old) (I.left input.new) (Rose (I.faults input.old) (I.faults input.new)) before after
        (FileFaultRose (seen (F.places files.old) (F.faults files.old)) (seen (F.places files.new) (F.faults files.new)) name.now) key) result }
    ensures leaves { I.tells → F.tells → F.Held.tells_images → FileLeaves (LeavesRecord key (I.left input.old)) (file_of F.Held.content (F.places files.old name.now))
        (history_of F.Held.history (F.places files.old name.now)) (history_of F.Held.history (F.places files.new name.now)) }
    ensures durable { F.tells → F.Held.tells_images → IsDone result → IsSettledFile (history_of F.Held.history (F.places files.new name.now)) }
    ensures works { WorksOn F.tells (F.places files.old) (F.places files.new) name.now }
    ensures causes { let seen = files_of F.Held.content F.Held.history F.Held.faults in
        Causes (Rose (I.faults input.old) (I.faults input.new)) (F.tells → FileFaultRose (seen (F.places files.old) (F.faults files.old)) (seen (F.places files.new) (F.faults files.new)) name.now) result }
{
    lines_in_order_make_a_record::<NoMemory>();
    let payload = read_input(alloc, input)?;
    let lines = OneLine::<NoMemory>::new(key, payload);
    let report = write_file(alloc, files, name, Recording { lines })?;
    match only_reply(report.answers.as_slice()) {
        Some(reply) => reply_told(alloc, &reply),
        // One line that is read has one answer.
        None => unreachable!(),
    }
}

/// The line of a reply, unless it says that the archive is full.
fn reply_told(alloc: Global, reply: &RecordReply) -> Result<Printout, Stop>
    ensures told { IfOk result (λ made. (is_full reply.now ≡ false) × (made.text ≡ put_text reply.now) × (made.status ≡ status_of_reply reply.now)) }
    ensures untold { IfErr result (IsUntold reply.now) }
{
    let status = match reply {
        RecordReply::Full { end, need } => {
            return Err(Stop::Full {
                end: *end,
                need: *need,
            });
        }
        RecordReply::TooMany { count } => return Err(Stop::TooMany { count: *count }),
        RecordReply::New { .. } | RecordReply::Known { .. } => 0,
        _ => 1,
    };
    let mut line = Vec::new(alloc);
    push_put(alloc, &mut line, reply)?;
    Ok(Printout {
        text: Row::from_vec(line),
        status,
    })
}

/// Records the input under a key in a file, and prints a line that says whether it is new or known.
pub fn put_cmd<I: Source, O: Sink, F: Shelf, C: Slot + Send, R: Driver>(
    alloc: Global,
    host: &mut Host<I, O, F, C, R>,
    file: Name,
    key: Key,
) -> u8
    requires here { F.tells → F.places host.old.files file ≢ out }

    ensures puts { let seen = ⟦<Host<I, O, F, C, R> as Seen>⟧ in Puts seen.tells (seen.outside host.old) (seen.outside host.new) file key result }
    ensures works { WorksOn F.tells (F.places host.old.files) (F.places host.new.files) file }
    ensures causes { let seen = ⟦<Host<I, O, F, C, R> as Seen>⟧.outside in
        HasCauses (Rose (I.faults host.old.input) (I.faults host.new.input)) (Rose (O.faults host.old.output) (O.faults host.new.output)) (F.tells → FileFaultRose (seen host.old).files (seen host.new).files file) result }
    ensures driver { host.new.driver ≡ host.old.driver }
    ensures crew { host.new.crew ≡ host.old.crew }
{
    let made = put(alloc, &mut host.input, &mut host.files, file.as_str(), key);
    finish(alloc, &mut host.output, &mut host.errors, made)
}
