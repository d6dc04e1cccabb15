//! The engine of one thread.
ghost use Rattle.std.specs.Prelude.{◌≡◌, ◌≢◌, ◌⊎◌, ◌≤◌, ◌<◌, ◌+◌, ◌^◌, ◌∷◌, ◌++◌, [], false, true, length, take, IfOk, OnOk, OnErr};
ghost use Rattle.disk_model.specs.Disk.{LeavesOnly};
ghost use Rattle.disk_model.specs.Faults.{Rose};
ghost use Rattle.foz_archive.specs.Reading.{Holds};
ghost use Rattle.record_words.specs.Recorder.{reply_of};
ghost use Rattle.record_words.specs.Alone.{after_record, entries_alone, answers_alone};
ghost use Rattle.record_words.specs.Answered.{answered_from};
ghost use Rattle.record_dedup.specs.Kept.{Booked, IsWritten};
ghost use Rattle.record_lines.specs.declared.recording.RecordStop.TheVariants.{Memory};
ghost use Rattle.record_lines.specs.Lines.{line_of};
ghost use Rattle.record_lines.specs.Recording.{AreRecorded, IsPrefixRecorded};
ghost use Rattle.record_lines.specs.Batches.{AreDurable, LeavesBatches, records_of};

use crate::line::{Lines, NextLine};
use disk_model::Disk;
use foz_words::{Key, NoMemory, Row};
use record_dedup::{Book, FlushError, reply_told};
use record_words::{Answered, LineAnswer, RecordReply};
use std::alloc::Global;

// After so many records what was added is written.
const BATCH: u32 = 64;

/// Why lines were not all recorded.
#[derive(Clone, Copy, Debug, PartialEq, Eq)]
pub enum RecordStop {
    /// A call of the disk failed, and the book is broken.
    DiskFault,
    Memory,
}

impl From<NoMemory> for RecordStop {
    ghost from_gives = { λ _ stop. stop ≡ Memory };

    fn from(_refused: NoMemory) -> RecordStop {
        RecordStop::Memory
    }
}

impl From<FlushError> for RecordStop {
    ghost use Rattle.record_lines.specs.Recording.{stop_of_flush};

    ghost from_gives = { λ error stop. stop ≡ stop_of_flush error };

    fn from(error: FlushError) -> RecordStop {
        match error {
            FlushError::Broken | FlushError::DiskFault => RecordStop::DiskFault,
            FlushError::Memory => RecordStop::Memory,
        }
    }
}

/// The answers to the lines of a capture that aren't skipped, and how many entries the archive has after them.
#[derive(Debug, Drop)]
pub struct Report<C> {
    pub answers: Row<Answered<C>>,
    pub entries: u32,
}

/// Records the lines in order, and answers those that aren't skipped. What was added is written after each 64 records and
/// at the end. A line is read just before it is recorded.
pub fn record_lines<D: Disk, L: Lines>(
    alloc: Global,
    book: &mut Book<D>,
    lines: &mut L,
) -> Result<Report<L::Cause>, RecordStop>
    requires whole { book.old.broken ≡ false }
    requires flushed { book.old.flushed ≡ length book.old.entries }
    requires few { length (L.rest lines.old) < 2 ^ 32 }

    ensures recorded { IfOk result (λ report. AreRecorded book.old.entries (L.rest lines.old) 1 book.new.entries report.answers) }
    ensures counted { IfOk result (λ report. report.entries ≡ length book.new.entries) }
    ensures written { OnOk result (IsWritten D.tells_content D.tells_images (D.content book.new.disk) (D.history book.new.disk) book.new.entries) }

    // Wherever it ends, a prefix of the lines was recorded, and at most 64 entries wait to be written.
    ensures prefix { IsPrefixRecorded book.old.entries (L.rest lines.old) book.new.entries }
    ensures few_wait { length book.new.entries ≤ book.new.flushed + 64 }

    // At each moment a crash leaves the entries after some batches of 64 records, or after one batch more.
    ensures batches { D.tells_images → AreDurable (D.history book.old.disk) book.old.entries
        → LeavesBatches book.old.entries (L.rest lines.old) (D.history book.old.disk) (D.history book.new.disk) }

    ensures same { (book.new.began ≡ book.old.began) × (book.new.opened ≡ book.old.opened) }
    ensures later { D.faults book.old.disk ≤ D.faults book.new.disk }
    ensures fault { result ≡ Err RecordStop.DiskFault → Rose (D.faults book.old.disk) (D.faults book.new.disk) }
{
    let mut answers = Row::new(alloc);
    let mut number = 0;
    let mut unwritten = 0;
    while let Some(line) = lines.next(alloc)? {
        number += 1;
        unwritten += answer(book, &mut answers, number, line)?;
        unwritten = write_full(book, unwritten)?;
    }
    let entries = book.flush()?;
    Ok(Report { answers, entries })
}

/// Records a line, if it is read, and adds its answer to the others. Gives how many records that were, none or one.
fn answer<D: Disk, C: Drop>(
    book: &mut Book<D>,
    answers: &mut Row<Answered<C>>,
    number: u32,
    line: NextLine<C>,
) -> Result<u32, NoMemory>
    requires whole { book.old.broken ≡ false }

    ensures answered { OnOk result (answers.new ≡ answers.old ++ answered_from number (line_of line ∷ []) (answers_alone book.old.entries (line_of line ∷ []))) }
    ensures recorded { OnOk result (book.new.entries ≡ entries_alone book.old.entries (line_of line ∷ [])) }
    ensures refused { OnErr result ((book.new.entries ≡ book.old.entries) ⊎ (book.new.entries ≡ entries_alone book.old.entries (line_of line ∷ []))) }
    ensures counted { IfOk result (λ records. records ≡ length (records_of (line_of line ∷ []))) }
    ensures one { IfOk result (λ records. records ≤ 1) }
    ensures few { IfOk result (λ records. length book.new.entries ≤ length book.old.entries + records) }
    ensures same { book.new ≡ record book.old { entries = book.new.entries } }
{
    match line {
        NextLine::Skipped => Ok(0),
        NextLine::Refused(cause) => {
            answers.push(Answered {
                line: number,
                answer: LineAnswer::Refused(cause),
            })?;
            Ok(0)
        }
        NextLine::Read { key, payload } => {
            let reply = record(book, key, payload.as_slice())?;
            answers.push(Answered {
                line: number,
                answer: LineAnswer::Replied { key, reply },
            })?;
            Ok(1)
        }
    }
}

/// Records a payload. Where memory runs out nothing changes.
fn record<D: Disk>(book: &mut Book<D>, key: Key, payload: &[u8]) -> Result<RecordReply, NoMemory>
    requires whole { book.old.broken ≡ false }

    ensures reply { IfOk result (λ reply. reply ≡ reply_of book.old.entries key payload.now) }
    ensures recorded { OnOk result (book.new.entries ≡ after_record book.old.entries key payload.now) }
    ensures refused { OnErr result (book.new.entries ≡ book.old.entries) }
    ensures same { book.new ≡ record book.old { entries = book.new.entries } }
{
    match reply_told(&book.record(key, payload)) {
        Some(reply) => Ok(reply),
        None => Err(NoMemory),
    }
}

/// Writes what was added where so many records make a batch, and gives how many are left unwritten.
fn write_full<D: Disk>(book: &mut Book<D>, unwritten: u32) -> Result<u32, RecordStop>
    requires whole { book.old.broken ≡ false }
    requires at_most { unwritten ≤ 64 }

    ensures left { IfOk result (λ left. left < 64) }
    ensures batch { IfOk result (λ left. ((unwritten < 64) × (left ≡ unwritten) × (book.new.flushed ≡ book.old.flushed)) ⊎ ((unwritten ≡ 64) × (left ≡ 0) × (book.new.flushed ≡ length book.old.entries))) }
    ensures wait { length book.old.entries ≤ book.old.flushed + unwritten → IfOk result (λ left. length book.new.entries ≤ book.new.flushed + left) }
    ensures idle { unwritten < 64 → book.new ≡ book.old }
    ensures any_moment { D.tells_images → 64 ≤ unwritten → LeavesOnly (D.history book.old.disk) (D.history book.new.disk)
        (λ bytes. Holds bytes (take book.old.flushed book.old.entries) ⊎ Holds bytes book.old.entries) }
    ensures refused { OnErr result ((book.new.flushed ≡ book.old.flushed) × (book.new.broken ≡ true)) }
    ensures whole { OnOk result (book.new.broken ≡ false) }
    ensures entries { book.new.entries ≡ book.old.entries }
    ensures same { (book.new.began ≡ book.old.began) × (book.new.opened ≡ book.old.opened) }
    ensures later { D.faults book.old.disk ≤ D.faults book.new.disk }
    ensures stopped { OnErr result (Rose (D.faults book.old.disk) (D.faults book.new.disk)) }
{
    if unwritten < BATCH {
        return Ok(unwritten);
    }
    book.flush()?;
    Ok(0)
}
