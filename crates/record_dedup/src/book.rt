ghost use Rattle.std.specs.Prelude.{◌≡◌, ◌≢◌, ◌⊎◌, ◌≤◌, ◌<◌, ◌∷◌, ◌++◌, [], length, take, OnOk, OnErr, IfOk, IfErr, None, true, false, bytes_eq, if◌then◌else◌};
ghost use Rattle.disk_model.specs.Disk.{LeavesOnly, IsImage, latest};
ghost use Rattle.disk_model.specs.Faults.{Rose};
ghost use Rattle.foz_entry.specs.Entries.{end_of, entry_of};
ghost use Rattle.foz_archive.specs.Reading.{Holds};
ghost use Rattle.foz_archive.specs.Opened.{HoldAlike, IsClosedArchive, IsUnopened};
ghost use Rattle.foz_archive.specs.Pushed.{HasRoom};
ghost use Rattle.record_words.specs.declared.note.RecordReply.TheVariants.{New};
ghost use Rattle.record_words.specs.Entries.{holder, payload_at};
ghost use Rattle.record_words.specs.Recorder.{record_reply};
ghost use Rattle.record_dedup.specs.Kept.{Booked, IsWritten, IsKept, disk_of, recorder_of};
ghost use Rattle.record_dedup.specs.Steps.{IsStep, IsFlushStep, reply_told, flush_told, too_large};

use crate::ack::{Ack, FlushError, RecordError};
use crate::index::index_of;
use disk_model::Disk;
use foz_archive::{
    Archive, OpenCause, OpenRefused, PushError, entries_are_bounded, readings_are_unique,
};
use foz_entry::Entry;
use foz_words::{Key, NoMemory};
use indexmap::IndexMap;
use record_words::indexes_grow;
use std::alloc::Global;
use std::marker::Model;
use std::snapshot::Snapshot;

/// An archive that is written, in which each key is recorded once.
#[derive(Drop)]
pub struct Book<D: Disk> {
    archive: Archive<D>,

    // The place of each key's holder.
    index: IndexMap<Key, u32>,

    began: Snapshot<D>,
    opened: u32,
}

impl<D: Disk> Model for Book<D> {
    ghost use Rattle.indexmap.specs.IndexMap.{get};
    ghost use Rattle.foz_archive.specs.Reading.{SomeFileHolds};
    ghost use Rattle.record_words.specs.Index.{IsIndexOf};
    ghost use Rattle.record_dedup.specs.Kept.{Booked, IsKept, booked};

    ghost Value = { Booked D };

    ghost view = { λ book. booked book.archive book.began.value book.opened };

    ghost invariant = { λ book. IsKept D.tells_content D.tells_images D.content D.history D.faults (booked book.archive book.began.value book.opened)
        × SomeFileHolds book.archive.entries book.archive.end
        × IsIndexOf (get ⟦<Key as PartialEq>⟧.eq book.index) book.archive.entries };
}

impl<D: Disk> Book<D> {
    /// Opens a file as an archive, and looks up what is recorded there. All memory is taken before the file is mended, so
    /// that a refusal that is no fault of the disk leaves the content as it was.
    pub fn open(alloc: Global, disk: D) -> Result<Book<D>, OpenRefused<D>>
        ensures held { D.tells_content → IfOk result (λ book. Holds (D.content disk) book.entries) }
        ensures whole { IfOk result (λ book. (book.opened ≡ length book.entries) × (book.flushed ≡ length book.entries) × (book.broken ≡ false) × (book.began ≡ disk)) }
        ensures kept { IfOk result (IsKept D.tells_content D.tells_images D.content D.history D.faults) }
        ensures refused { D.tells_content → IfErr result (λ refused. IsUnopened (D.content disk) refused.cause) }
        ensures unchanged { D.tells_content → IfErr result (λ refused. (D.content refused.disk ≡ D.content disk) ⊎ (refused.cause ≡ OpenCause.DiskFault)) }

        // Each image is one of those before, or holds what the content held.
        ensures any_moment { D.tells_images → LeavesOnly (D.history disk) (D.history (disk_of result)) (λ bytes. IsImage (latest (D.history disk)) bytes ⊎ HoldAlike (D.content disk) bytes) }

        // An archive that its gate closes is only read.
        ensures untouched { D.tells_content → IsClosedArchive (D.content disk) → D.content (disk_of result) ≡ D.content disk }
        ensures only_read { D.tells_images → IsClosedArchive (D.content disk) → LeavesOnly (D.history disk) (D.history (disk_of result)) (IsImage (latest (D.history disk))) }

        ensures later { D.faults disk ≤ D.faults (disk_of result) }
        ensures fault { IfErr result (λ refused. refused.cause ≡ OpenCause.DiskFault → Rose (D.faults disk) (D.faults refused.disk)) }
    {
        entries_are_bounded();
        readings_are_unique();
        let began = Snapshot::of(&disk);
        let opening = Archive::read(alloc, disk)?;
        let index = match index_of(alloc, opening.entries()) {
            Ok(index) => index,
            Err(NoMemory) => {
                return Err(OpenRefused {
                    disk: opening.into_disk(),
                    cause: OpenCause::Memory,
                });
            }
        };
        let archive = opening.settle()?;
        let opened = archive.flushed();
        Ok(Book {
            archive,
            index,
            began,
            opened,
        })
    }

    /// All entries in file order, and those that wait for the next flush last.
    pub fn entries(&self) -> &[Entry]
        ensures entries { result.now ≡ self.now.entries }
        ensures kept { IsKept D.tells_content D.tells_images D.content D.history D.faults self.now }
    {
        self.archive.entries()
    }

    /// How many entries stand in the file.
    pub fn flushed(&self) -> u32
        ensures { result ≡ self.now.flushed }
    {
        self.archive.flushed()
    }

    /// Where all entries end, also those that wait.
    pub fn end(&self) -> u64
        ensures { result ≡ end_of self.now.entries }
    {
        entries_are_bounded();
        self.archive.end()
    }

    /// The disk. Entries that wait are dropped.
    pub fn close(self) -> D
        ensures disk { result ≡ self.disk }
        ensures kept { IsKept D.tells_content D.tells_images D.content D.history D.faults self }
    {
        let Book { archive, .. } = self;
        archive.into_disk()
    }

    /// Records a payload under a key, if none is recorded there yet. The entry waits for the next flush, and the disk
    /// isn't called. Running out of memory changes nothing, and comes only in place of a new entry.
    pub fn record(&mut self, key: Key, payload: &[u8]) -> Result<Ack, RecordError>
        ensures step { IsStep (recorder_of self.old) key payload.now (reply_told result) (recorder_of self.new) }
        ensures memory { result ≡ Err RecordError.Memory → record_reply (recorder_of self.old) key payload.now ≡ New (length self.old.entries) }
        ensures rest { self.new ≡ record self.old { entries = self.new.entries } }
    {
        entries_are_bounded();
        if self.archive.is_broken() {
            return Err(RecordError::Broken);
        }
        let room = self.archive.check_room(payload.len());
        if let Some(size) = too_large(&room) {
            return Err(RecordError::TooLarge { size });
        }
        if let Some(index) = self.holder(key) {
            return self.compare(index, payload);
        }
        room?;
        Ok(self.add(key, payload)?)
    }

    /// The place of the first undamaged entry with this key.
    fn holder(&self, key: Key) -> Option<u32>
        ensures { result ≡ holder key self.now.entries }
    {
        self.index.get(&key).copied()
    }

    /// Is this the payload of the entry at this place?
    fn compare(&self, index: u32, payload: &[u8]) -> Result<Ack, RecordError>
        requires { index < length self.now.entries }
        ensures { result ≡ (if bytes_eq (payload_at self.now.entries index) payload.now then Ok (Ack.Known index) else Err (RecordError.Collision index)) }
    {
        if self.archive.entries()[index as usize].payload.as_slice() == payload {
            Ok(Ack::Known { index })
        } else {
            Err(RecordError::Collision { index })
        }
    }

    /// Adds the entry of a key that no entry holds, for which there is room. Running out of memory changes nothing.
    fn add(&mut self, key: Key, payload: &[u8]) -> Result<Ack, NoMemory>
        requires whole { self.old.broken ≡ false }
        requires free { holder key self.old.entries ≡ None }
        requires room { HasRoom (end_of self.old.entries) (length self.old.entries) (length payload.now) }
        ensures added { IfOk result (λ ack. (ack ≡ Ack.New (length self.old.entries)) × (self.new ≡ record self.old { entries = self.old.entries ++ entry_of (end_of self.old.entries) key payload.now ∷ [] })) }
        ensures unchanged { OnErr result (self.new ≡ self.old) }
    {
        entries_are_bounded();
        indexes_grow();
        // With room in the index, nothing can fail once the entry is added.
        self.index.reserve(1)?;
        let index = self.archive.push_with_room(key, payload)?;
        let Ok(_) = self.index.insert(key, index) else {
            unreachable!()
        };
        Ok(Ack::New { index })
    }

    /// Writes the entries that wait as one batch, and answers how many stand in the file. A crash during the call leaves
    /// all of the batch or none of it. It takes no memory, and calls the disk only where entries wait.
    pub fn flush(&mut self) -> Result<u32, FlushError>
        ensures step { IsFlushStep (recorder_of self.old) (flush_told result) (recorder_of self.new) }
        ensures entries { self.new.entries ≡ self.old.entries }
        ensures rest { (self.new.began ≡ self.old.began) × (self.new.opened ≡ self.old.opened) }
        ensures written { OnOk result (IsWritten D.tells_content D.tells_images (D.content self.new.disk) (D.history self.new.disk) self.new.entries) }
        ensures any_moment { D.tells_images → LeavesOnly (D.history self.old.disk) (D.history self.new.disk)
            (λ bytes. Holds bytes (take self.old.flushed self.old.entries) ⊎ Holds bytes self.old.entries) }
        ensures idle { (self.old.broken ≡ true) ⊎ (self.old.flushed ≡ length self.old.entries) → self.new.disk ≡ self.old.disk }
        ensures later { D.faults self.old.disk ≤ D.faults self.new.disk }
        ensures fault { result ≡ Err FlushError.DiskFault → Rose (D.faults self.old.disk) (D.faults self.new.disk) }
        ensures no_memory { result ≢ Err FlushError.Memory }
    {
        entries_are_bounded();
        if self.archive.is_broken() {
            return Err(FlushError::Broken);
        }
        Ok(self.archive.commit()?)
    }
}

/// The size of a payload that no entry may have, even one whose key is held.
fn too_large(room: &Result<(), PushError>) -> Option<u64>
    ensures { result ≡ too_large room.now }
{
    match room {
        Err(PushError::TooLarge { size }) => Some(*size),
        _ => None,
    }
}
