// Notes and their bytes, in room that is taken at first.
ghost use Rattle.std.specs.Prelude.{◌≡◌, ◌≤◌, ◌+◌, ◌-◌, ◌∷◌, ◌++◌, ◌↔◌, [], true, false, length, take, drop, IfOk, IsTrue};
ghost use Rattle.slot_log.specs.declared.note.SlotNote.{SlotNote};
ghost use Rattle.mem_slot.specs.Tapes.{size_of, total, note_of, notes_of, log_with};

use foz_words::{NoMemory, Row};
use slot_log::SlotNote;
use std::alloc::Global;
use std::marker::Model;
use std::sync::Wait;

/// A note, with the number of its bytes.
#[derive(Clone, Copy, Debug)]
pub(crate) enum Stamp {
    Started,
    NotStarted,
    Sent(usize),
    Got(usize),
    Died,
    Stopped,
}

/// The log of a slot, and whether a worker runs, for whose end the room of one note is set aside. Starts that failed
/// when there was no room are a number: their notes stand at the end. Contracts see the notes, and how much room is left.
#[derive(Drop)]
pub(crate) struct Tape {
    stamps: Vec<Stamp>,
    bytes: Vec<u8>,
    room: usize,
    late: u64,
    running: bool,
}

impl Model for Tape {
    ghost use Rattle.std.specs.Prelude.{length, vec_capacity};
    ghost use Rattle.mem_slot.specs.Tapes.{Taped, IsTape, HasByteRoom, taped};

    ghost Value = { Taped };

    ghost view = { λ tape. taped tape.stamps.items tape.bytes.items tape.late tape.running (vec_capacity tape.stamps) tape.room };

    ghost invariant = { λ tape. IsTape tape.stamps.items tape.bytes.items tape.late tape.running (vec_capacity tape.stamps) × HasByteRoom tape.room (length tape.bytes.items) (vec_capacity tape.bytes) };
}

impl Tape {
    pub(crate) fn new(alloc: Global, notes: usize, room: usize) -> Result<Tape, NoMemory>
        ensures { IfOk result (λ tape. tape ≡ record { log = []; running = false; notes_left = notes; bytes_left = room }) }
    {
        let stamps = Vec::with_capacity(alloc, notes)?;
        let bytes = Vec::with_capacity(alloc, room)?;
        Ok(Tape {
            stamps,
            bytes,
            room,
            late: 0,
            running: false,
        })
    }

    pub(crate) fn is_running(&self) -> bool
        ensures { result ≡ self.now.running }
    {
        self.running
    }

    /// There is room for two notes.
    pub(crate) fn has_room(&self) -> bool
        ensures { IsTrue result ↔ (2 ≤ self.now.notes_left) }
    {
        self.stamps.capacity() - self.stamps.len() >= 2
    }

    /// A worker was started.
    pub(crate) fn begin(&mut self)
        requires running { self.old.running ≡ false }
        requires room { 2 ≤ self.old.notes_left }
        ensures { self.new ≡ record self.old { log = self.old.log ++ SlotNote.Started ∷ []; running = true; notes_left = self.old.notes_left - 1 } }
    {
        self.stamps.push_reserved(Stamp::Started);
        self.running = true;
    }

    /// No worker was started. No run comes to so many failed starts that their number isn't counted any more; one that did
    /// would wait here.
    pub(crate) fn refuse<R: Wait>(&mut self, rt: &R)
        requires { self.old.running ≡ false }
        ensures log { self.new.log ≡ self.old.log ++ SlotNote.NotStarted ∷ [] }
        ensures running { self.new.running ≡ false }
        ensures bytes { self.new.bytes_left ≡ self.old.bytes_left }
        ensures notes { self.new.notes_left ≤ self.old.notes_left }
    {
        if self.has_room() {
            self.stamps.push_reserved(Stamp::NotStarted);
            return;
        }
        if self.late == u64::MAX {
            for _ in rt.forever() {}
            unreachable!()
        }
        self.late += 1;
    }

    /// The worker died, or was stopped.
    pub(crate) fn end(&mut self, stamp: Stamp)
        requires running { self.old.running ≡ true }
        requires bare { size_of stamp ≡ 0 }
        ensures { self.new ≡ record self.old { log = self.old.log ++ note_of stamp [] ∷ []; running = false; notes_left = self.old.notes_left - 1 } }
    {
        self.stamps.push_reserved(stamp);
        self.running = false;
    }

    /// Adds a note with its bytes where there is room for them and for one more note, and says whether there was.
    pub(crate) fn add(&mut self, stamp: Stamp, piece: &[u8]) -> bool
        requires running { self.old.running ≡ true }
        requires size { size_of stamp ≡ length piece.now }
        ensures room { IsTrue result ↔ ((2 ≤ self.old.notes_left) × (length piece.now ≤ self.old.bytes_left)) }
        ensures added { result ≡ true → self.new ≡ record self.old { log = self.old.log ++ note_of stamp piece.now ∷ []; notes_left = self.old.notes_left - 1; bytes_left = self.old.bytes_left - length piece.now } }
        ensures same { result ≡ false → self.new ≡ self.old }
    {
        if !self.has_room() || self.room - self.bytes.len() < piece.len() {
            return false;
        }
        let Ok(()) = self.bytes.extend_from_slice(piece) else {
            unreachable!()
        };
        self.stamps.push_reserved(stamp);
        true
    }

    /// The notes as values.
    pub(crate) fn notes(&self, alloc: Global) -> Result<Row<SlotNote>, NoMemory>
        ensures { IfOk result (λ notes. notes ≡ self.now.log) }
    {
        let notes = early_notes(alloc, self.stamps.as_slice(), self.bytes.as_slice())?;
        with_late(notes, self.late)
    }
}

/// The notes, and then so many starts that failed.
fn with_late(mut notes: Row<SlotNote>, count: u64) -> Result<Row<SlotNote>, NoMemory>
    ensures { IfOk result (λ made. made ≡ log_with notes count) }
{
    for _ in 0..count {
        notes.push(SlotNote::NotStarted)?;
    }
    Ok(notes)
}

/// How many bytes belong to a stamp.
fn size(stamp: Stamp) -> usize
    ensures { result ≡ size_of stamp }
{
    match stamp {
        Stamp::Sent(size) => size,
        Stamp::Got(size) => size,
        Stamp::Started => 0,
        Stamp::NotStarted => 0,
        Stamp::Died => 0,
        Stamp::Stopped => 0,
    }
}

/// The note of a stamp and its bytes.
fn note(alloc: Global, stamp: Stamp, bytes: &[u8]) -> Result<SlotNote, NoMemory>
    ensures { IfOk result (λ made. made ≡ note_of stamp bytes.now) }
{
    Ok(match stamp {
        Stamp::Started => SlotNote::Started,
        Stamp::NotStarted => SlotNote::NotStarted,
        Stamp::Sent(_) => SlotNote::Sent(Row::from_vec(Vec::from_slice(alloc, bytes)?)),
        Stamp::Got(_) => SlotNote::Got(Row::from_vec(Vec::from_slice(alloc, bytes)?)),
        Stamp::Died => SlotNote::Died,
        Stamp::Stopped => SlotNote::Stopped,
    })
}

/// The notes of stamps and their bytes.
fn early_notes(alloc: Global, stamps: &[Stamp], bytes: &[u8]) -> Result<Row<SlotNote>, NoMemory>
    requires { total stamps.now ≡ length bytes.now }
    ensures { IfOk result (λ notes. notes ≡ notes_of stamps.now bytes.now) }
{
    let mut notes = Row::new(alloc);
    let mut from = 0;
    for stamp in stamps {
        let (piece, end) = piece_at(bytes, from, size(*stamp));
        notes.push(note(alloc, *stamp, piece)?)?;
        from = end;
    }
    Ok(notes)
}

/// So many bytes from a place on, and where they end.
fn piece_at(bytes: &[u8], from: usize, size: usize) -> (&[u8], usize)
    requires { from + size ≤ length bytes.now }
    ensures piece { result.0.now ≡ take size (drop from bytes.now) }
    ensures end { result.1 ≡ from + size }
{
    (&bytes[from..from + size], from + size)
}
