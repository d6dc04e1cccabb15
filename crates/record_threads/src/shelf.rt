ghost use Rattle.std.specs.Prelude.{◌≡◌, [], length, MatchOption};
ghost use Rattle.record_words.specs.declared.note.RecordReply.{RecordReply};
ghost use Rattle.record_dedup.specs.Steps.{reply_told, flush_told};
ghost use Rattle.record_threads.specs.Ties.{IsRecordNote, IsFlushNote};
ghost use Rattle.record_threads.specs.Shelves.{LeadsTo, IsNoted};

use disk_model::Disk;
use foz_words::Key;
use record_dedup::{Ack, Book, FlushError, RecordError, reply_told};
use record_words::{
    FullNote, RecordCall, RecordNote, RecordReply, first_of_its_key_holds_it,
    stories_add_each_key_once,
};
use std::alloc::Global;
use std::marker::Model;
use std::snapshot::Snapshot;
use turn_desk::Kept;

/// A book and the notes of its calls, which is what a shared recorder keeps.
#[derive(Drop)]
pub struct Shelf<D: Disk> {
    book: Book<D>,
    notes: Vec<RecordNote>,

    // The book as it was when the notes began.
    origin: Snapshot<Book<D>>,
}

impl<D: Disk> Model for Shelf<D> {
    ghost use Rattle.record_threads.specs.Shelves.{Shelved, AreNotesOf, full_story};

    ghost Value = { Shelved D };

    ghost view = { λ shelf. record { origin = shelf.origin.value; story = full_story shelf.book.entries shelf.notes.items; book = shelf.book } };

    ghost invariant = { λ shelf. AreNotesOf shelf.origin.value shelf.book shelf.notes.items };
}

impl<D: Disk> Kept for Shelf<D> {
    type Note = FullNote;

    type Origin = Book<D>;

    ghost story = { λ shelf. shelf.story };

    ghost origin = { λ shelf. shelf.origin };

    ghost number = { λ n. n.note.seat };
}

impl<D: Disk> Shelf<D> {
    /// A book at the beginning of its story.
    pub(crate) fn new(alloc: Global, book: Book<D>) -> Shelf<D>
        ensures story { result.story ≡ [] }
        ensures origin { result.origin ≡ book }
        ensures book { result.book ≡ book }
    {
        let origin = Snapshot::of(&book);
        Shelf {
            book,
            notes: Vec::new(alloc),
            origin,
        }
    }

    /// The book, to which the story leads.
    pub(crate) fn into_book(self) -> Book<D>
        ensures book { result ≡ self.book }
        ensures led { LeadsTo self.origin self.story result }
    {
        let Shelf { book, .. } = self;
        book
    }

    /// How many notes there are.
    pub(crate) fn count(&self) -> usize
        ensures { result ≡ length self.now.story }
    {
        self.notes.len()
    }

    /// Records a payload under a key, and notes the call. Running out of memory changes nothing.
    pub(crate) fn record(&mut self, seat: u32, key: Key, payload: &[u8]) -> Result<Ack, RecordError>
        ensures origin { self.new.origin ≡ self.old.origin }
        ensures told { MatchOption (reply_told result) (self.new ≡ self.old) (λ reply. IsNoted self.old seat (IsRecordNote key payload.now reply) self.new) }
        ensures led { LeadsTo self.new.origin self.new.story self.new.book }
    {
        stories_add_each_key_once();
        first_of_its_key_holds_it();
        if self.notes.reserve(1).is_err() {
            return Err(RecordError::Memory);
        }
        let answer = self.book.record(key, payload);
        if let Some(reply) = reply_told(&answer) {
            let note = RecordNote {
                seat,
                call: RecordCall::Record { key },
                reply,
            };
            // Room was taken before.
            if self.notes.push(note).is_err() {
                unreachable!();
            }
        }
        answer
    }

    /// Flushes the book, and notes the call. Running out of memory changes nothing.
    pub(crate) fn flush(&mut self, seat: u32) -> Result<u32, FlushError>
        ensures origin { self.new.origin ≡ self.old.origin }
        ensures told { MatchOption (flush_told result) (self.new ≡ self.old) (λ reply. IsNoted self.old seat (IsFlushNote reply) self.new) }
        ensures led { LeadsTo self.new.origin self.new.story self.new.book }
    {
        stories_add_each_key_once();
        if self.notes.reserve(1).is_err() {
            return Err(FlushError::Memory);
        }
        let answer = self.book.flush();
        if let Some(reply) = flush_told(&answer) {
            let note = RecordNote {
                seat,
                call: RecordCall::Flush,
                reply,
            };
            if self.notes.push(note).is_err() {
                unreachable!();
            }
        }
        answer
    }
}

/// The reply that an answer to `flush` tells, which running out of memory doesn't.
fn flush_told(answer: &Result<u32, FlushError>) -> Option<RecordReply>
    ensures { result ≡ flush_told answer.now }
{
    match *answer {
        Ok(count) => Some(RecordReply::Flushed { count }),
        Err(FlushError::Broken) => Some(RecordReply::Broken),
        Err(FlushError::DiskFault) => Some(RecordReply::DiskFault),
        Err(FlushError::Memory) => None,
    }
}
