//! The lines of a capture, recorded in a book by several threads.
ghost use Rattle.std.specs.Prelude.{◌≡◌, ◌⊎◌, ◌<◌, ◌≤◌, ◌^◌, length, false, IfOk, IsErr, OnOk};
ghost use Rattle.disk_model.specs.Faults.{Rose};
ghost use Rattle.record_dedup.specs.Kept.{IsWritten};
ghost use Rattle.record_lines.specs.Added.{AreAdded};
ghost use Rattle.record_lines.specs.Recording.{AreRecorded};

use crate::meet::Meet;
use crate::team::work_together;
use disk_model::Disk;
use foz_words::{NoMemory, Row};
use record_dedup::{Book, FlushError};
use record_lines::{Lines, RecordStop, Report};
use record_threads::{BookRefused, Recorder, seats_have_their_calls, threads_make_records};
use record_words::{Answered, stories_add_each_key_once};
use std::alloc::Global;
use std::sync::Wait;
use std::thread::Threads;

/// A book after a team recorded lines in it, and the report, or why there is none.
#[derive(Drop)]
pub struct Teamed<D: Disk, C> {
    pub book: Book<D>,
    pub outcome: Result<Report<C>, RecordStop>,
}

/// So many threads record the lines, line k, counted from 0, the thread k modulo their number. Each goes over a copy of
/// the lines of its own, reads and prepares its lines outside the lock, and flushes after each 64 of its records and at its
/// end. The book is handed back in any case.
pub fn record_by_team<
    D: Disk + Drop + Send,
    L: Lines + Copy + Drop + Send,
    M: Meet + Sync,
    X: Wait + Threads + Sync,
>(rt: &X, alloc: Global, book: Book<D>, lines: L, threads: u32, meet: &M) -> Teamed<D, L::Cause>
where
    L::Cause: Send,
    requires whole { book.broken ≡ false }
    requires flushed { book.flushed ≡ length book.entries }
    requires threads { (0 < threads) × (threads ≤ 16) }
    requires few { length (L.rest lines) < 2 ^ 30 }

    ensures recorded { IfOk result.outcome (λ report. AreRecorded book.entries (L.rest lines) threads result.book.entries report.answers) }
    ensures counted { IfOk result.outcome (λ report. report.entries ≡ length result.book.entries) }
    ensures written { OnOk result.outcome (IsWritten D.tells_content D.tells_images (D.content result.book.disk) (D.history result.book.disk) result.book.entries) }

    // However it ends, each entry that was added is that of a line, and no key was added twice or was held.
    ensures added { AreAdded book.entries (L.rest lines) result.book.entries }
    ensures same { (result.book.began ≡ book.began) × (result.book.opened ≡ book.opened) }
    ensures later { D.faults book.began ≤ D.faults result.book.disk }
    ensures fault { result.outcome ≡ Err RecordStop.DiskFault → Rose (D.faults book.began) (D.faults result.book.disk) }
{
    seats_have_their_calls::<D>();
    threads_make_records::<L::Cause>();
    stories_add_each_key_once();
    let (recorder, mut root) = match Recorder::new(alloc, book) {
        Ok(both) => both,
        Err(BookRefused { book }) => {
            return Teamed {
                book,
                outcome: Err(RecordStop::Memory),
            };
        }
    };
    let answers = work_together(rt, alloc, &recorder, &mut root, lines, threads, meet);
    let mut book = recorder.close(root);
    let flushed = book.flush();
    Teamed {
        book,
        outcome: reported(answers, flushed),
    }
}

/// The report of a team, by its answers and by what the last flush of its book answers. A book that a thread broke says so
/// there. So a thread that ended early, and left the book whole, had no memory.
fn reported<C: Drop>(
    answers: Result<Row<Answered<C>>, NoMemory>,
    flushed: Result<u32, FlushError>,
) -> Result<Report<C>, RecordStop>
    ensures whole { IfOk result (λ report. (answers ≡ Ok report.answers) × (flushed ≡ Ok report.entries)) }
    ensures fault { result ≡ Err RecordStop.DiskFault → (flushed ≡ Err FlushError.Broken) ⊎ (flushed ≡ Err FlushError.DiskFault) }
    ensures memory { result ≡ Err RecordStop.Memory → (flushed ≡ Err FlushError.Memory) ⊎ IsErr answers }
{
    match flushed {
        Err(error) => Err(RecordStop::from(error)),
        Ok(entries) => match answers {
            Ok(answers) => Ok(Report { answers, entries }),
            Err(refused) => Err(RecordStop::from(refused)),
        },
    }
}
