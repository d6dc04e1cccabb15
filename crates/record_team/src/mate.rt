//! A thread of a team with all that it has: its seat, its way through the lines, and its answers.
ghost use Rattle.std.specs.Prelude.{◌≡◌, ◌≢◌, ℕ, ◌+◌, ◌*◌, ◌%◌, ◌<◌, ◌≤◌, ◌^◌, List, [], ◌∷◌, ◌++◌, length, IfOk, OnOk, OnErr, IfSome, IsSome, Some, None};
ghost use Rattle.turn_desk.specs.Story.{notes_of};
ghost use Rattle.turn_desk.specs.Seats.{view_of, IsSameSeat, IsSeatOf};
ghost use Rattle.record_words.specs.Recorded.{Line};
ghost use Rattle.record_dedup.specs.Kept.{Booked, recorder_of};
ghost use Rattle.record_threads.specs.Calls.{seat_of};
ghost use Rattle.record_team.specs.Batched.{Waits, AreBatches};
ghost use Rattle.record_team.specs.Work.{IsAtWork, IsSame, HasRecorded, HasAnswered};
ghost use Rattle.record_team.specs.Team.{HasWorked};

use crate::meet::Meet;
use crate::thread::{answer, flush, flush_full};
use disk_model::Disk;
use foz_words::Row;
use record_lines::{Lines, RecordStop};
use record_threads::{BookDesk, RecordSeat, seats_have_their_calls, threads_make_records};
use record_words::Answered;
use std::alloc::Global;
use std::sync::Wait;

/// A thread of a team, with a seat at its recorder.
#[derive(Drop)]
pub(crate) struct Teammate<S, L: Lines> {
    /// Its number, counted from 0. The lines of which the number is this modulo the number of threads are its own.
    pub(crate) thread: u32,
    pub(crate) seat: S,
    /// The lines that it has yet to go over, its own and those of others.
    pub(crate) lines: L,
    pub(crate) told: Row<Answered<L::Cause>>,
    /// How many lines there were, once it has gone over all of them and flushed.
    pub(crate) finished: Option<u32>,
}

impl<D: Disk + Drop, L: Lines> Teammate<RecordSeat<D>, L> {
    /// Goes over the next line: records it where it is the thread's own, and passes over it otherwise. Gives how many of the
    /// thread's records wait.
    fn take_line<M: Meet, X: Wait>(
        &mut self,
        rt: &X,
        alloc: Global,
        desk: &BookDesk<D>,
        meet: &M,
        threads: u32,
        number: u32,
        waiting: u32,
    ) -> Result<u32, RecordStop>
        requires threads { 0 < threads }
        requires seat { IsSeatOf desk.now self.old.seat }
        requires work { (origin : Booked D) × IsAtWork origin (view_of self.old.seat) }
        requires turns { (view_of self.old.seat).turns < 4294967293 }
        requires number { number < 4294967295 }
        requires few { waiting < 64 }
        ensures thread { self.new.thread ≡ self.old.thread }
        ensures seat { IsSameSeat self.old.seat self.new.seat }
        ensures work { (origin : Booked D) → IsAtWork origin (view_of self.old.seat) → IsAtWork origin (view_of self.new.seat) }
        ensures same { IsSame (view_of self.old.seat) (view_of self.new.seat) }
        ensures turns { (view_of self.new.seat).turns ≤ (view_of self.old.seat).turns + 2 }
        ensures rest { (line : Line L.Cause) (rest : List (Line L.Cause)) → L.rest self.old.lines ≡ line ∷ rest → OnOk result (L.rest self.new.lines ≡ rest) }
        ensures answered { (origin : Booked D) (done rest : List (Line L.Cause)) (line : Line L.Cause) → IsAtWork origin (view_of self.old.seat) → length done ≡ number → L.rest self.old.lines ≡ line ∷ rest
            → HasAnswered (recorder_of origin) done threads self.old.thread (view_of self.old.seat).number (view_of self.old.seat).seen self.old.told
            → OnOk result (HasAnswered (recorder_of origin) (done ++ line ∷ []) threads self.old.thread (view_of self.old.seat).number (view_of self.new.seat).seen self.new.told) }
        ensures ended { (origin : Booked D) (done rest : List (Line L.Cause)) (line : Line L.Cause) → IsAtWork origin (view_of self.old.seat) → length done ≡ number → L.rest self.old.lines ≡ line ∷ rest
            → HasAnswered (recorder_of origin) done threads self.old.thread (view_of self.old.seat).number (view_of self.old.seat).seen self.old.told
            → OnErr result (HasRecorded (recorder_of origin) (done ++ line ∷ []) threads self.old.thread (view_of self.old.seat).number (view_of self.new.seat).seen) }
        ensures left { IfOk result (λ left. left < 64) }
        ensures waits { Waits 0 (view_of self.old.seat).mine waiting → IfOk result (λ left. Waits 0 (view_of self.new.seat).mine left) }
    {
        threads_make_records::<L::Cause>();
        if number % threads != self.thread {
            self.lines.skip();
            return Ok(waiting);
        }
        meet.at(self.thread);
        let Some(line) = self.lines.next(alloc)? else {
            return Ok(waiting);
        };
        let waiting = answer(
            rt,
            desk,
            &mut self.seat,
            &mut self.told,
            number,
            waiting,
            line,
        )?;
        flush_full(rt, desk, &mut self.seat, waiting)
    }

    /// Goes over all lines, and flushes after each 64 of its records and at its end. Gives how many lines there were.
    fn work<M: Meet, X: Wait>(
        &mut self,
        rt: &X,
        alloc: Global,
        desk: &BookDesk<D>,
        meet: &M,
        threads: u32,
    ) -> Result<u32, RecordStop>
        requires threads { 0 < threads }
        requires seat { IsSeatOf desk.now self.old.seat }
        requires work { (origin : Booked D) × IsAtWork origin (view_of self.old.seat) }
        requires turns { (view_of self.old.seat).turns ≡ 0 }
        requires none { (view_of self.old.seat).mine ≡ [] }
        requires silent { self.old.told ≡ [] }
        requires few { length (L.rest self.old.lines) < 2 ^ 30 }
        ensures thread { self.new.thread ≡ self.old.thread }
        ensures seat { IsSameSeat self.old.seat self.new.seat }
        ensures work { (origin : Booked D) → IsAtWork origin (view_of self.old.seat) → IsAtWork origin (view_of self.new.seat) }
        ensures same { IsSame (view_of self.old.seat) (view_of self.new.seat) }
        ensures counted { IfOk result (λ count. count ≡ length (L.rest self.old.lines)) }
        ensures answered { (origin : Booked D) → IsAtWork origin (view_of self.old.seat)
            → OnOk result (HasAnswered (recorder_of origin) (L.rest self.old.lines) threads self.old.thread (view_of self.old.seat).number (view_of self.new.seat).seen self.new.told) }
        ensures recorded { (origin : Booked D) → IsAtWork origin (view_of self.old.seat)
            → HasRecorded (recorder_of origin) (L.rest self.old.lines) threads self.old.thread (view_of self.old.seat).number (view_of self.new.seat).seen }

        // Of its own notes each 64 that record are followed by a flush, and those that are left by the last one.
        ensures batches { OnOk result (AreBatches (view_of self.new.seat).mine) }
    {
        seats_have_their_calls::<D>();
        let mut number = 0;
        let mut waiting = 0;
        'lines: while !self.lines.is_at_end() {
            waiting = self.take_line(rt, alloc, desk, meet, threads, number, waiting)?;
            number += 1;
        }
        flush(rt, desk, &mut self.seat)?;
        Ok(number)
    }

    /// Does the whole work of the thread.
    pub(crate) fn run<M: Meet, X: Wait>(
        &mut self,
        rt: &X,
        alloc: Global,
        desk: &BookDesk<D>,
        meet: &M,
        threads: u32,
    )
        requires threads { 0 < threads }
        requires seat { IsSeatOf desk.now self.old.seat }
        requires work { (origin : Booked D) × IsAtWork origin (view_of self.old.seat) }
        requires turns { (view_of self.old.seat).turns ≡ 0 }
        requires none { (view_of self.old.seat).mine ≡ [] }
        requires silent { self.old.told ≡ [] }
        requires few { length (L.rest self.old.lines) < 2 ^ 30 }
        ensures seat { IsSameSeat self.old.seat self.new.seat }
        ensures worked { (origin : Booked D) → IsAtWork origin (view_of self.old.seat)
            → HasWorked origin (L.rest self.old.lines) threads self.old.thread (view_of self.old.seat).number (view_of self.new.seat) self.new.told self.new.finished }
    {
        match self.work(rt, alloc, desk, meet, threads) {
            Ok(count) => self.finished = Some(count),
            Err(_stop) => self.finished = None,
        }
    }
}
