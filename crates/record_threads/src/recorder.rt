ghost use Rattle.std.specs.Prelude.{◌≡◌, ◌≢◌, ◌⊎◌, ℕ, ◌+◌, ◌<◌, [], length, Some, MatchOption, IfOk, IfErr};
ghost use mathlib.Core.List.{IsPrefix};
ghost use Rattle.turn_desk.specs.Story.{Adds, notes_of, root_of, split_from, split_off, joined_with, AreApart, HasAllBack, HasKept, IsAllOf};
ghost use Rattle.turn_desk.specs.Seats.{view_of, IsSameSeat, IsOutside, IsSeatOf};
ghost use Rattle.record_words.specs.Story.{Legal};
ghost use Rattle.record_dedup.specs.Kept.{Booked, IsKept, recorder_of};
ghost use Rattle.record_dedup.specs.Steps.{flush_told};
ghost use Rattle.record_threads.specs.Ties.{IsRecordNote, IsFlushNote};
ghost use Rattle.record_threads.specs.Shelves.{LeadsTo};
ghost use Rattle.record_threads.specs.Calls.{seat_of, reply_received, HasNoted};
ghost use Rattle.record_threads.specs.Seats.{IsSeatAt, IsTurn};

use crate::prepared::Prepared;
use crate::shelf::Shelf;
use disk_model::Disk;
use record_dedup::{Ack, Book, FlushError, RecordError};
use std::alloc::Global;
use std::sync::Wait;
use turn_desk::{Desk, DeskRefused, Seat, turns_add_own_notes};

/// The right to call a recorder, for one thread at a time.
pub type RecordSeat<D> = Seat<Shelf<D>>;

/// The desk at which the book of a recorder lies. Threads share it by `&`.
pub type BookDesk<D> = Desk<Shelf<D>>;

/// A book that threads share by `&`, each with a seat of its own.
#[derive(Drop)]
pub struct Recorder<D: Disk> {
    desk: Desk<Shelf<D>>,
}

/// There was no memory for a recorder. The book comes back.
#[derive(Drop)]
pub struct BookRefused<D: Disk> {
    pub book: Book<D>,
}

/// A payload that stands in the book, and the place of the call's note in the story, counted from 0.
#[derive(Clone, Copy, Debug, PartialEq, Eq)]
pub struct Receipt {
    pub ack: Ack,
    pub at: u64,
}

impl<D: Disk + Drop> Recorder<D> {
    /// Shares a book. It alone takes memory beside the notes of calls.
    pub fn new(alloc: Global, book: Book<D>) -> Result<(Recorder<D>, RecordSeat<D>), BookRefused<D>>
        ensures seat { IfOk result (λ r. IsSeatAt r.0 r.1) }
        ensures root { IfOk result (λ r. view_of r.1 ≡ root_of book) }
        ensures refused { IfErr result (λ r. r.book ≡ book) }
    {
        match Desk::new(alloc, Shelf::new(alloc, book)) {
            Ok((desk, root)) => Ok((Recorder { desk }, root)),
            Err(DeskRefused { value }) => Err(BookRefused {
                book: value.into_book(),
            }),
        }
    }

    /// One more seat, with the next number. It has seen what the root has, and none of that is its own.
    pub fn split(&self, root: &mut RecordSeat<D>) -> RecordSeat<D>
        requires seat { IsSeatAt self.now root.old }
        requires root { (view_of root.old).number ≡ 0 }
        requires outside { IsOutside root.old }
        requires room { (view_of root.old).made < 65535 }
        ensures same { IsSameSeat root.old root.new }
        ensures desk { IsSameSeat root.old result }
        ensures root { view_of root.new ≡ split_from (view_of root.old) }
        ensures seat { view_of result ≡ split_off (view_of root.old) }
        ensures own { notes_of seat_of (view_of result).number (view_of result).seen ≡ [] }
    {
        self.desk.split(root)
    }

    /// Takes a seat back. The root keeps its number and its notes, and has then seen what that seat had.
    pub fn join(&self, root: &mut RecordSeat<D>, other: RecordSeat<D>)
        requires seat { IsSeatAt self.now root.old }
        requires other_seat { IsSeatAt self.now other }
        requires root { (view_of root.old).number ≡ 0 }
        requires outside { IsOutside root.old }
        requires other_outside { IsOutside other }
        ensures same { IsSameSeat root.old root.new }
        ensures root { view_of root.new ≡ joined_with (view_of root.old) (view_of other) }
        ensures seen { IsPrefix (view_of other).seen (view_of root.new).seen }
        ensures longer { ((view_of root.new).seen ≡ (view_of root.old).seen) ⊎ ((view_of root.new).seen ≡ (view_of other).seen) }
        ensures mine { notes_of seat_of 0 (view_of root.new).seen ≡ (view_of root.new).mine }
        ensures joined { HasKept seat_of (view_of root.new).joined (view_of root.new).seen }
        ensures others { (view_of root.new).out ≡ 0 → IsAllOf seat_of (view_of root.new) (view_of root.new).seen }
        ensures apart { AreApart (view_of root.new).made (view_of root.new).joined }
    {
        self.desk.join(root, other);
    }

    /// What threads share of the recorder.
    pub fn desk(&self) -> &BookDesk<D>
        ensures { result.now ≡ self.now.desk }
    {
        &self.desk
    }

    /// Records in a turn of its own, which is one note of the story. Running out of memory leaves no note.
    pub fn record<R: Wait>(
        &self,
        rt: &R,
        seat: &mut RecordSeat<D>,
        prepared: &Prepared,
    ) -> Result<Receipt, RecordError>
        requires seat { IsSeatAt self.now seat.old }
        requires outside { IsOutside seat.old }
        requires turns { (view_of seat.old).turns < 4294967294 }
        ensures same { IsSameSeat seat.old seat.new }
        ensures outside { IsOutside seat.new }
        ensures turn { IsTurn (view_of seat.old) (view_of seat.new) }

        // What the seat has then seen: notes of others, and the note of this call.
        ensures told { MatchOption (reply_received result) (Adds seat_of (view_of seat.old) [] (view_of seat.new))
            (λ reply. HasNoted (view_of seat.old) (IsRecordNote prepared.now.key prepared.now.payload reply) (view_of seat.new)) }
        ensures place { IfOk result (λ receipt. length (view_of seat.new).seen ≡ receipt.at + 1) }
        ensures mine { notes_of seat_of (view_of seat.new).number (view_of seat.new).seen ≡ (view_of seat.new).mine }
        ensures legal { (origin : Booked D) → (view_of seat.new).origin ≡ Some origin → Legal (recorder_of origin) (view_of seat.new).seen }
    {
        record_at(&self.desk, rt, seat, prepared)
    }

    /// Flushes in a turn of its own, which is one note of the story. Running out of memory leaves no note.
    pub fn flush<R: Wait>(&self, rt: &R, seat: &mut RecordSeat<D>) -> Result<u32, FlushError>
        requires seat { IsSeatAt self.now seat.old }
        requires outside { IsOutside seat.old }
        requires turns { (view_of seat.old).turns < 4294967294 }
        ensures same { IsSameSeat seat.old seat.new }
        ensures outside { IsOutside seat.new }
        ensures turn { IsTurn (view_of seat.old) (view_of seat.new) }
        ensures told { MatchOption (flush_told result) (Adds seat_of (view_of seat.old) [] (view_of seat.new))
            (λ reply. HasNoted (view_of seat.old) (IsFlushNote reply) (view_of seat.new)) }
        ensures mine { notes_of seat_of (view_of seat.new).number (view_of seat.new).seen ≡ (view_of seat.new).mine }
        ensures legal { (origin : Booked D) → (view_of seat.new).origin ≡ Some origin → Legal (recorder_of origin) (view_of seat.new).seen }
    {
        flush_at(&self.desk, rt, seat)
    }

    /// The book, once each seat is back. The root has then seen the whole story, which leads to the book, and of which each
    /// note is the root's or that of one joined seat.
    pub fn close(self, seat: RecordSeat<D>) -> Book<D>
        requires seat { IsSeatAt self seat }
        requires root { (view_of seat).number ≡ 0 }
        requires outside { IsOutside seat }
        requires all { (view_of seat).out ≡ 0 }
        ensures led { (origin : Booked D) → (view_of seat).origin ≡ Some origin → LeadsTo origin (view_of seat).seen result }
        ensures mine { notes_of seat_of 0 (view_of seat).seen ≡ (view_of seat).mine }
        ensures joined { HasKept seat_of (view_of seat).joined (view_of seat).seen }
        ensures others { IsAllOf seat_of (view_of seat) (view_of seat).seen }
        ensures apart { AreApart (view_of seat).made (view_of seat).joined }
        ensures back { HasAllBack (view_of seat) }

        // A book that is broken had a fault of its disk since it was opened.
        ensures kept { IsKept D.tells_content D.tells_images D.content D.history D.faults result }
    {
        let Recorder { desk } = self;
        let book = desk.close(seat).into_book();
        let _ = book.entries();
        book
    }
}

/// Records in a turn of its own, which is one note of the story. Running out of memory leaves no note.
pub fn record_at<D: Disk + Drop, R: Wait>(
    desk: &BookDesk<D>,
    rt: &R,
    seat: &mut RecordSeat<D>,
    prepared: &Prepared,
) -> Result<Receipt, RecordError>
    requires seat { IsSeatOf desk.now seat.old }
    requires outside { IsOutside seat.old }
    requires turns { (view_of seat.old).turns < 4294967294 }
    ensures same { IsSameSeat seat.old seat.new }
    ensures outside { IsOutside seat.new }
    ensures turn { IsTurn (view_of seat.old) (view_of seat.new) }

    // What the seat has then seen: notes of others, and the note of this call.
    ensures told { MatchOption (reply_received result) (Adds seat_of (view_of seat.old) [] (view_of seat.new))
        (λ reply. HasNoted (view_of seat.old) (IsRecordNote prepared.now.key prepared.now.payload reply) (view_of seat.new)) }
    ensures place { IfOk result (λ receipt. length (view_of seat.new).seen ≡ receipt.at + 1) }
    ensures mine { notes_of seat_of (view_of seat.new).number (view_of seat.new).seen ≡ (view_of seat.new).mine }
    ensures legal { (origin : Booked D) → (view_of seat.new).origin ≡ Some origin → Legal (recorder_of origin) (view_of seat.new).seen }
{
    turns_add_own_notes::<Shelf<D>>();
    let mut shelf = desk.enter(rt, seat);
    let at = shelf.count() as u64;
    let answer = shelf.record(seat.number(), prepared.key, prepared.payload.as_slice());
    desk.leave(seat, shelf);
    match answer {
        Ok(ack) => Ok(Receipt { ack, at }),
        Err(error) => Err(error),
    }
}

/// Flushes in a turn of its own, which is one note of the story. Running out of memory leaves no note.
pub fn flush_at<D: Disk + Drop, R: Wait>(
    desk: &BookDesk<D>,
    rt: &R,
    seat: &mut RecordSeat<D>,
) -> Result<u32, FlushError>
    requires seat { IsSeatOf desk.now seat.old }
    requires outside { IsOutside seat.old }
    requires turns { (view_of seat.old).turns < 4294967294 }
    ensures same { IsSameSeat seat.old seat.new }
    ensures outside { IsOutside seat.new }
    ensures turn { IsTurn (view_of seat.old) (view_of seat.new) }
    ensures told { MatchOption (flush_told result) (Adds seat_of (view_of seat.old) [] (view_of seat.new))
        (λ reply. HasNoted (view_of seat.old) (IsFlushNote reply) (view_of seat.new)) }
    ensures mine { notes_of seat_of (view_of seat.new).number (view_of seat.new).seen ≡ (view_of seat.new).mine }
    ensures legal { (origin : Booked D) → (view_of seat.new).origin ≡ Some origin → Legal (recorder_of origin) (view_of seat.new).seen }
{
    turns_add_own_notes::<Shelf<D>>();
    let mut shelf = desk.enter(rt, seat);
    let answer = shelf.flush(seat.number());
    desk.leave(seat, shelf);
    answer
}
