//! Lines that are recorded in a file by one thread or by several, and the one line of a payload under its key.
ghost use Rattle.std.specs.Prelude.{◌≡◌, ◌≢◌, ◌<◌, ◌≤◌, ◌^◌, ◌∷◌, [], ℕ, List, length, IfOk, IfErr, IsOk};
ghost use Rattle.disk_model.specs.Place.{out};
ghost use Rattle.record_words.specs.Recorded.{read};
ghost use Rattle.record_lines.specs.Capture.{AreAnswered, CaptureLeaves};
ghost use Rattle.foz_base.specs.FileWork.{Writes, WriteCauses, FileLeaves};
ghost use Rattle.foz_base.specs.Outside.{file_of, history_of, files_of, FileFaultRose, IsSettledFile, WorksOn};
ghost use Rattle.foz_base.specs.Recording.{Captures, lines_left, only_reply, team_limit};
ghost use Rattle.foz_base.specs.Status.{report_or_stop};

use crate::files::{laws_of_disks, take_to_write, write_file};
use crate::stop::Stop;
use crate::work::{Work, Worked};
use disk_model::{Disk, Shelf};
use foz_words::{Key, NoMemory, Row};
use record_lines::{CaptureStop, Lines, NextLine, Report, record_capture};
use record_team::{Meet, record_capture_by_team};
use record_words::{Answered, LineAnswer, RecordReply};
use std::alloc::Global;
use std::sync::Wait;
use std::thread::Threads;

/// The work that records lines in the archive of a file, and flushes them. One thread does it, without a lock.
#[derive(Drop)]
pub struct Recording<L> {
    pub lines: L,
}

impl<L: Lines + Drop> Work for Recording<L> {
    type Done = Report<L::Cause>;

    ghost ready = { λ work. length (L.rest work.lines) < 2 ^ 32 };

    ghost does = { λ work before after outcome. Captures (L.rest work.lines) 1 before after outcome };

    ghost tells = { λ work report. AreAnswered (L.rest work.lines) 1 report };

    ghost leaves = { λ work before old new. CaptureLeaves before old new (L.rest work.lines) 1 };

    fn work_on<D: Disk + Drop + Send>(
        mut self,
        alloc: Global,
        disk: D,
    ) -> Worked<D, Report<L::Cause>> {
        let captured = record_capture(alloc, disk, &mut self.lines);
        Worked {
            disk: captured.disk,
            outcome: report_or_stop(captured.outcome),
        }
    }
}

/// The lines of a single thread, which comes to the meeting place before each of them.
#[derive(Drop)]
struct MetLines<'a, L, M> {
    lines: L,
    meet: &'a M,
}

impl<L: Lines + Drop, M: Meet> Lines for MetLines<'_, L, M> {
    type Cause = L::Cause;

    ghost rest = { λ met. L.rest met.lines };

    fn next(&mut self, alloc: Global) -> Result<Option<NextLine<L::Cause>>, NoMemory> {
        if !self.lines.is_at_end() {
            self.meet.at(0);
        }
        self.lines.next(alloc)
    }

    fn skip(&mut self) {
        self.lines.skip();
    }

    fn is_at_end(&self) -> bool {
        self.lines.is_at_end()
    }
}

/// Records lines in a file by so many threads: line k, counted from 0, is the thread's whose number is k modulo theirs. A
/// thread comes to the meeting place before each of its lines.
pub fn record_in_file<
    F: Shelf,
    L: Lines + Copy + Drop + Send,
    M: Meet + Sync,
    X: Wait + Threads + Sync,
>(
    rt: &X,
    alloc: Global,
    files: &mut F,
    name: &str,
    lines: L,
    threads: u32,
    meet: &M,
) -> Result<Report<L::Cause>, Stop>
where
    L::Cause: Send,
    requires here { F.tells → F.places files.old name.now ≢ out }
    requires threads { (1 ≤ threads) × (threads ≤ team_limit) }
    requires few { length (L.rest lines) < 2 ^ 30 }

    ensures does { F.tells → F.Held.tells_content → Writes (Captures (L.rest lines) threads) (file_of F.Held.content (F.places files.old name.now)) (file_of F.Held.content (F.places files.new name.now)) result }
    ensures tells { IfOk result (AreAnswered (L.rest lines) threads) }
    ensures leaves { F.tells → F.Held.tells_images → FileLeaves (λ content old new. CaptureLeaves content old new (L.rest lines) threads) (file_of F.Held.content (F.places files.old name.now))
        (history_of F.Held.history (F.places files.old name.now)) (history_of F.Held.history (F.places files.new name.now)) }
    ensures durable { F.tells → F.Held.tells_images → IsOk result → IsSettledFile (history_of F.Held.history (F.places files.new name.now)) }
    ensures works { WorksOn F.tells (F.places files.old) (F.places files.new) name.now }
    ensures causes { let seen = files_of F.Held.content F.Held.history F.Held.faults in
        IfErr result (WriteCauses (F.tells → FileFaultRose (seen (F.places files.old) (F.faults files.old)) (seen (F.places files.new) (F.faults files.new)) name.now)) }
{
    if threads == 1 {
        let lines = MetLines { lines, meet };
        write_file(alloc, files, name, Recording { lines })
    } else {
        record_by_team_in_file(rt, alloc, files, name, lines, threads, meet)
    }
}

/// The same by two threads or more. (It is no `Work`: what a method of a trait does is not proved where it starts threads.)
fn record_by_team_in_file<
    F: Shelf,
    L: Lines + Copy + Drop + Send,
    M: Meet + Sync,
    X: Wait + Threads + Sync,
>(
    rt: &X,
    alloc: Global,
    files: &mut F,
    name: &str,
    lines: L,
    threads: u32,
    meet: &M,
) -> Result<Report<L::Cause>, Stop>
where
    L::Cause: Send,
    requires here { F.tells → F.places files.old name.now ≢ out }
    requires threads { (1 < threads) × (threads ≤ team_limit) }
    requires few { length (L.rest lines) < 2 ^ 30 }

    ensures does { F.tells → F.Held.tells_content → Writes (Captures (L.rest lines) threads) (file_of F.Held.content (F.places files.old name.now)) (file_of F.Held.content (F.places files.new name.now)) result }
    ensures tells { IfOk result (AreAnswered (L.rest lines) threads) }
    ensures leaves { F.tells → F.Held.tells_images → FileLeaves (λ content old new. CaptureLeaves content old new (L.rest lines) threads) (file_of F.Held.content (F.places files.old name.now))
        (history_of F.Held.history (F.places files.old name.now)) (history_of F.Held.history (F.places files.new name.now)) }
    ensures durable { F.tells → F.Held.tells_images → IsOk result → IsSettledFile (history_of F.Held.history (F.places files.new name.now)) }
    ensures works { WorksOn F.tells (F.places files.old) (F.places files.new) name.now }
    ensures causes { let seen = files_of F.Held.content F.Held.history F.Held.faults in
        IfErr result (WriteCauses (F.tells → FileFaultRose (seen (F.places files.old) (F.faults files.old)) (seen (F.places files.new) (F.faults files.new)) name.now)) }
{
    laws_of_disks::<F::Held>();
    let disk = take_to_write(alloc, files, name)?;
    let captured = record_capture_by_team(rt, alloc, disk, lines, threads, meet);
    files.put_back(name, captured.disk);
    report_or_stop(captured.outcome)
}

/// The report of a capture, or why its command stops.
fn report_or_stop<C>(outcome: Result<Report<C>, CaptureStop>) -> Result<Report<C>, Stop>
    ensures { result ≡ report_or_stop outcome }
{
    match outcome {
        Ok(report) => Ok(report),
        Err(stop) => Err(Stop::from(stop)),
    }
}

/// The one line of a payload under its key, as a capture that is read. It is read in any case, so `C` is never told.
#[derive(Drop)]
pub struct OneLine<C> {
    line: Option<NextLine<C>>,
}

impl<C: Drop> OneLine<C> {
    pub fn new(key: Key, payload: Row<u8>) -> OneLine<C>
        ensures { ⟦<OneLine<C> as Lines>⟧.rest result ≡ read key payload ∷ [] }
    {
        OneLine {
            line: Some(NextLine::Read { key, payload }),
        }
    }
}

impl<C: Drop> Lines for OneLine<C> {
    type Cause = C;

    ghost rest = { λ one. lines_left one.line };

    fn next(&mut self, _alloc: Global) -> Result<Option<NextLine<C>>, NoMemory> {
        Ok(self.line.take())
    }

    fn skip(&mut self) {
        self.line = None;
    }

    fn is_at_end(&self) -> bool {
        self.line.is_none()
    }
}

/// The reply to the one line of a capture.
pub fn only_reply<C>(answers: &[Answered<C>]) -> Option<RecordReply>
    ensures { result ≡ only_reply answers.now }
{
    match answers {
        [only] => match &only.answer {
            LineAnswer::Replied { reply, .. } => Some(*reply),
            LineAnswer::Refused(_) => None,
        },
        _ => None,
    }
}
