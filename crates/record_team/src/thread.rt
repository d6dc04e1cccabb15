//! One thread of a team, which goes over the lines and records those that are its own.
ghost use Rattle.std.specs.Prelude.{◌≡◌, ◌≢◌, ◌⊎◌, ℕ, ◌+◌, ◌*◌, ◌%◌, ◌<◌, ◌≤◌, ◌^◌, List, [], ◌∷◌, ◌++◌, length, IfOk, OnOk, OnErr, Some};
ghost use Rattle.foz_words.specs.declared.key.Key.{Key};
ghost use Rattle.turn_desk.specs.Story.{notes_of};
ghost use Rattle.turn_desk.specs.Seats.{view_of, IsSameSeat, IsSeatOf};
ghost use Rattle.record_words.specs.declared.note.RecordReply.{RecordReply};
ghost use Rattle.record_words.specs.declared.state.RecorderState.{RecorderState};
ghost use Rattle.record_words.specs.Recorded.{Line};
ghost use Rattle.record_dedup.specs.Kept.{Booked, recorder_of};
ghost use Rattle.record_lines.specs.Lines.{line_of};
ghost use Rattle.record_threads.specs.Calls.{seat_of, reply_received};
ghost use Rattle.record_threads.specs.Threads.{Call, HasCalls};
ghost use Rattle.record_team.specs.Batched.{Waits, AreBatches};
ghost use Rattle.record_team.specs.Work.{IsAtWork, IsSame, HasRecorded, HasAnswered};

use crate::meet::Meet;
use disk_model::Disk;
use foz_words::{NoMemory, Row};
use record_dedup::{RecordError, reply_told};
use record_lines::{Lines, NextLine, RecordStop};
use record_threads::{
    BookDesk, Prepared, Receipt, RecordSeat, flush_at, record_at, seats_have_their_calls,
    threads_make_records,
};
use record_words::{Answered, LineAnswer, RecordReply};
use std::alloc::Global;
use std::sync::Wait;

// After so many of its records a thread flushes.
const BATCH: u32 = 64;

/// The reply that an answer tells, which out of memory doesn't.
fn reply_received(answer: &Result<Receipt, RecordError>) -> Option<RecordReply>
    ensures { result ≡ reply_received answer.now }
{
    match answer {
        Ok(receipt) => reply_told(&Ok(receipt.ack)),
        Err(error) => reply_told(&Err(*error)),
    }
}

/// Records in a turn of its own. A book that is broken ends the work.
fn record<D: Disk + Drop, X: Wait>(
    rt: &X,
    desk: &BookDesk<D>,
    seat: &mut RecordSeat<D>,
    prepared: &Prepared,
) -> Result<RecordReply, RecordStop>
    requires seat { IsSeatOf desk.now seat.old }
    requires work { (origin : Booked D) × IsAtWork origin (view_of seat.old) }
    requires turns { (view_of seat.old).turns < 4294967294 }
    ensures seat { IsSameSeat seat.old seat.new }
    ensures work { (origin : Booked D) → IsAtWork origin (view_of seat.old) → IsAtWork origin (view_of seat.new) }
    ensures same { IsSame (view_of seat.old) (view_of seat.new) }
    ensures turns { (view_of seat.new).turns ≡ (view_of seat.old).turns + 1 }
    ensures recorded { (origin : Booked D) (calls : List Call) → IsAtWork origin (view_of seat.old) → HasCalls (recorder_of origin) (view_of seat.old).seen (view_of seat.old).number calls
        → IfOk result (λ reply. HasCalls (recorder_of origin) (view_of seat.new).seen (view_of seat.old).number (calls ++ record { key = prepared.now.key; payload = prepared.now.payload; reply = reply } ∷ [])) }
    ensures ended { (origin : Booked D) (calls : List Call) → IsAtWork origin (view_of seat.old) → HasCalls (recorder_of origin) (view_of seat.old).seen (view_of seat.old).number calls
        → OnErr result (HasCalls (recorder_of origin) (view_of seat.new).seen (view_of seat.old).number calls
        ⊎ ((reply : RecordReply) × HasCalls (recorder_of origin) (view_of seat.new).seen (view_of seat.old).number (calls ++ record { key = prepared.now.key; payload = prepared.now.payload; reply = reply } ∷ []))) }
    ensures waits { (waiting : ℕ) → Waits 0 (view_of seat.old).mine waiting → waiting < 64 → OnOk result (Waits 0 (view_of seat.new).mine (waiting + 1)) }
{
    seats_have_their_calls::<D>();
    let answer = record_at(desk, rt, seat, prepared);
    match reply_received(&answer) {
        Some(RecordReply::Broken) => Err(RecordStop::DiskFault),
        Some(reply) => Ok(reply),
        None => Err(RecordStop::Memory),
    }
}

/// Flushes in a turn of its own.
pub(crate) fn flush<D: Disk + Drop, X: Wait>(
    rt: &X,
    desk: &BookDesk<D>,
    seat: &mut RecordSeat<D>,
) -> Result<(), RecordStop>
    requires seat { IsSeatOf desk.now seat.old }
    requires work { (origin : Booked D) × IsAtWork origin (view_of seat.old) }
    requires turns { (view_of seat.old).turns < 4294967294 }
    ensures seat { IsSameSeat seat.old seat.new }
    ensures work { (origin : Booked D) → IsAtWork origin (view_of seat.old) → IsAtWork origin (view_of seat.new) }
    ensures same { IsSame (view_of seat.old) (view_of seat.new) }
    ensures turns { (view_of seat.new).turns ≡ (view_of seat.old).turns + 1 }
    ensures recorded { (origin : RecorderState) (calls : List Call) → HasCalls origin (view_of seat.old).seen (view_of seat.old).number calls → HasCalls origin (view_of seat.new).seen (view_of seat.old).number calls }
    ensures batch { Waits 0 (view_of seat.old).mine 64 → OnOk result (Waits 0 (view_of seat.new).mine 0) }
    ensures last { (waiting : ℕ) → Waits 0 (view_of seat.old).mine waiting → waiting < 64 → OnOk result (AreBatches (view_of seat.new).mine) }
{
    seats_have_their_calls::<D>();
    flush_at(desk, rt, seat)?;
    Ok(())
}

/// Flushes where so many records make a batch, and gives how many wait.
pub(crate) fn flush_full<D: Disk + Drop, X: Wait>(
    rt: &X,
    desk: &BookDesk<D>,
    seat: &mut RecordSeat<D>,
    waiting: u32,
) -> Result<u32, RecordStop>
    requires seat { IsSeatOf desk.now seat.old }
    requires work { (origin : Booked D) × IsAtWork origin (view_of seat.old) }
    requires turns { (view_of seat.old).turns < 4294967294 }
    requires most { waiting ≤ 64 }
    ensures seat { IsSameSeat seat.old seat.new }
    ensures work { (origin : Booked D) → IsAtWork origin (view_of seat.old) → IsAtWork origin (view_of seat.new) }
    ensures same { IsSame (view_of seat.old) (view_of seat.new) }
    ensures turns { (view_of seat.new).turns ≤ (view_of seat.old).turns + 1 }
    ensures recorded { (origin : RecorderState) (calls : List Call) → HasCalls origin (view_of seat.old).seen (view_of seat.old).number calls → HasCalls origin (view_of seat.new).seen (view_of seat.old).number calls }
    ensures left { IfOk result (λ left. left < 64) }
    ensures waits { Waits 0 (view_of seat.old).mine waiting → IfOk result (λ left. Waits 0 (view_of seat.new).mine left) }
{
    if waiting < BATCH {
        return Ok(waiting);
    }
    flush(rt, desk, seat)?;
    Ok(0)
}

/// Records a line, if it is read, and adds its answer to the others. Gives how many records then wait.
pub(crate) fn answer<D: Disk + Drop, C: Drop, X: Wait>(
    rt: &X,
    desk: &BookDesk<D>,
    seat: &mut RecordSeat<D>,
    told: &mut Row<Answered<C>>,
    number: u32,
    waiting: u32,
    line: NextLine<C>,
) -> Result<u32, RecordStop>
    requires seat { IsSeatOf desk.now seat.old }
    requires work { (origin : Booked D) × IsAtWork origin (view_of seat.old) }
    requires turns { (view_of seat.old).turns < 4294967294 }
    requires number { number < 4294967295 }
    requires few { waiting < 64 }
    ensures seat { IsSameSeat seat.old seat.new }
    ensures work { (origin : Booked D) → IsAtWork origin (view_of seat.old) → IsAtWork origin (view_of seat.new) }
    ensures same { IsSame (view_of seat.old) (view_of seat.new) }
    ensures turns { (view_of seat.new).turns ≤ (view_of seat.old).turns + 1 }
    ensures answered { (origin : Booked D) (done : List (Line C)) (threads thread : ℕ) → IsAtWork origin (view_of seat.old) → length done ≡ number → number % threads ≡ thread
        → HasAnswered (recorder_of origin) done threads thread (view_of seat.old).number (view_of seat.old).seen told.old
        → OnOk result (HasAnswered (recorder_of origin) (done ++ line_of line ∷ []) threads thread (view_of seat.old).number (view_of seat.new).seen told.new) }
    ensures ended { (origin : Booked D) (done : List (Line C)) (threads thread : ℕ) → IsAtWork origin (view_of seat.old) → length done ≡ number → number % threads ≡ thread
        → HasAnswered (recorder_of origin) done threads thread (view_of seat.old).number (view_of seat.old).seen told.old
        → OnErr result (HasRecorded (recorder_of origin) (done ++ line_of line ∷ []) threads thread (view_of seat.old).number (view_of seat.new).seen) }
    ensures most { IfOk result (λ left. left ≤ 64) }
    ensures waits { Waits 0 (view_of seat.old).mine waiting → IfOk result (λ left. Waits 0 (view_of seat.new).mine left) }
{
    threads_make_records::<C>();
    match line {
        NextLine::Skipped => Ok(waiting),
        NextLine::Refused(cause) => {
            told.push(Answered {
                line: number + 1,
                answer: LineAnswer::Refused(cause),
            })?;
            Ok(waiting)
        }
        NextLine::Read { key, payload } => {
            let prepared = Prepared { key, payload };
            let reply = record(rt, desk, seat, &prepared)?;
            told.push(Answered {
                line: number + 1,
                answer: LineAnswer::Replied { key, reply },
            })?;
            Ok(waiting + 1)
        }
    }
}
