//! An archive that is open to be written.
ghost use Rattle.std.specs.Prelude.{◌≡◌, ◌⊎◌, ◌≤◌, true, false, length, take, IfOk, OnOk, OnErr, IsOk};
ghost use Rattle.disk_model.specs.Disk.{LeavesOnly};
ghost use Rattle.disk_model.specs.Faults.{HasCause};
ghost use Rattle.foz_archive.specs.Reading.{Holds, SomeFileHolds};
ghost use Rattle.foz_archive.specs.Kept.{IsSettled};

use disk_model::Disk;
use foz_entry::Entry;
use foz_words::Row;
use gate_append::{DiskFault, Gate};
use std::marker::Model;

/// The entries of a file, and those that wait to be written to it.
#[derive(Drop)]
pub struct Archive<D: Disk> {
    pub(crate) gate: Gate<D>,
    pub(crate) entries: Row<Entry>,
    pub(crate) flushed: u32,

    // The bytes of the entries that wait, and after them the gate that is to close the file.
    pub(crate) batch: Vec<u8>,
}

impl<D: Disk> Model for Archive<D> {
    ghost use Rattle.std.specs.Prelude.{◌≡◌, ◌+◌, ◌-◌, false, length, take};
    ghost use Rattle.foz_archive.specs.Reading.{SomeFileHolds};
    ghost use Rattle.foz_archive.specs.Kept.{Archived, IsSettled, IsWaiting};

    ghost Value = { Archived D };

    ghost view = { λ archive. record {
      disk = archive.gate.disk;
      entries = archive.entries;
      flushed = archive.flushed;
      flushed_end = archive.gate.end;
      end = archive.gate.end + (length archive.batch.items - 1);
      broken = archive.gate.broken;
    } };

    ghost invariant = { λ archive. (archive.gate.broken ≡ false → IsSettled D.tells_content D.tells_images (D.content archive.gate.disk) (D.history archive.gate.disk)
        (take archive.flushed archive.entries) archive.gate.end)
        × IsWaiting archive.gate.end archive.batch.items archive.entries archive.flushed
        × SomeFileHolds archive.entries (archive.gate.end + (length archive.batch.items - 1)) };
}

impl<D: Disk> Archive<D> {
    /// All entries in file order, and those that wait last.
    pub fn entries(&self) -> &[Entry]
        ensures all { result.now ≡ self.now.entries }
        ensures some_file { SomeFileHolds self.now.entries self.now.end }
    {
        self.entries.as_slice()
    }

    /// How many entries stand in the file.
    pub fn flushed(&self) -> u32
        ensures count { result ≡ self.now.flushed }
        ensures within { self.now.flushed ≤ length self.now.entries }
    {
        self.flushed
    }

    /// Where all entries end, also those that wait.
    pub fn end(&self) -> u64
        ensures end { result ≡ self.now.end }
        ensures some_file { SomeFileHolds self.now.entries self.now.end }
    {
        self.gate.end() + (self.batch.len() as u64 - 1)
    }

    /// Did a commit fail? Then the file must be opened again. Otherwise the flushed entries, and no others, stand in the
    /// file, a closed gate stands after them, and nothing is pending.
    pub fn is_broken(&self) -> bool
        ensures broken { result ≡ self.now.broken }
        ensures settled { self.now.broken ≡ false → IsSettled D.tells_content D.tells_images (D.content self.now.disk) (D.history self.now.disk) (take self.now.flushed self.now.entries) self.now.flushed_end }
    {
        self.gate.is_broken()
    }

    /// The disk. Entries that wait are dropped.
    pub fn into_disk(self) -> D
        ensures { result ≡ self.disk }
    {
        let Archive { gate, .. } = self;
        gate.into_disk()
    }

    /// Writes the entries that wait as one batch, and answers how many stand in the file. A crash during the call leaves
    /// all of the batch or none of it. It takes no memory, and calls the disk only where entries wait.
    pub fn commit(&mut self) -> Result<u32, DiskFault>
        requires whole { self.old.broken ≡ false }

        ensures entries { self.new.entries ≡ self.old.entries }
        ensures end { self.new.end ≡ self.old.end }
        ensures flushed { IfOk result (λ count. (count ≡ length self.old.entries) × (self.new.flushed ≡ count) × (self.new.flushed_end ≡ self.new.end) × (self.new.broken ≡ false)) }
        ensures broken { OnErr result ((self.new.broken ≡ true) × (self.new.flushed ≡ self.old.flushed) × (self.new.flushed_end ≡ self.old.flushed_end)) }
        ensures settled { OnOk result (IsSettled D.tells_content D.tells_images (D.content self.new.disk) (D.history self.new.disk) self.new.entries self.new.end) }
        ensures idle { self.old.flushed ≡ length self.old.entries → IsOk result × (self.new ≡ self.old) }

        ensures any_moment { D.tells_images → LeavesOnly (D.history self.old.disk) (D.history self.new.disk)
            (λ bytes. Holds bytes (take self.old.flushed self.old.entries) ⊎ Holds bytes self.old.entries) }
        ensures cause { HasCause (D.faults self.old.disk) (D.faults self.new.disk) result }
    {
        let count = self.entries.as_slice().len();
        if self.flushed as usize == count {
            return Ok(self.flushed);
        }
        self.gate.append(&self.batch)?;
        self.flushed = count as u32;
        self.batch.truncate(1);
        self.batch[0] = 0;
        Ok(self.flushed)
    }
}
