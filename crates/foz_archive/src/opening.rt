//! How a file is opened to be written: it is read first, and mended then.
ghost use Rattle.std.specs.Prelude.{◌≡◌, ◌⊎◌, ◌≤◌, ◌++◌, [], ◌∷◌, false, List, ℕ, length, IfOk, IfErr, OnOk};
ghost use Rattle.disk_model.specs.Disk.{LeavesOnly, IsImage, latest, NothingPending};
ghost use Rattle.disk_model.specs.Faults.{HasCause, Rose};
ghost use Rattle.foz_entry.specs.declared.cut.Entry.{Entry};
ghost use Rattle.foz_archive.specs.Reading.{Holds, IsAccepted, SomeFileHolds};
ghost use Rattle.foz_archive.specs.Refusal.{IsRefusedToWrite};
ghost use Rattle.foz_archive.specs.Kept.{IsSettled};
ghost use Rattle.foz_archive.specs.OnlyRead.{IsOnlyRead};
ghost use Rattle.foz_archive.specs.Opened.{HoldAlike, IsClosedArchive, IsUnopened, IsJustOpened, IsStart, Begins, Mends, opened_disk, unmended_disk};

use crate::archive::Archive;
use crate::header::WRITING;
use crate::read::read_disk_as;
use crate::refusal::{ArchiveError, ReadError};
use disk_model::{Disk, Failed, write_synced};
use foz_entry::{Entry, HEADER_LEN};
use foz_words::Row;
use gate_append::{Gate, GateRefused};
use std::alloc::{AllocError, Global};
use std::marker::Model;

// The header of the version that is written, and a closed gate.
const NEW_FILE: [u8; 17] = *b"\x81FOSSILIZEDB\0\0\0\x06\0";

/// A file that could not be opened, as it stands.
#[derive(Drop)]
pub struct OpenRefused<D> {
    pub disk: D,
    pub cause: OpenCause,
}

/// Why a file is not opened.
#[derive(Clone, Copy, Debug, PartialEq, Eq)]
pub enum OpenCause {
    DiskFault,
    Archive(ArchiveError),
    Memory,
}

impl From<Failed> for OpenCause {
    ghost use Rattle.std.specs.Prelude.{◌≡◌};
    ghost use Rattle.foz_archive.specs.declared.opening.OpenCause.TheVariants.{DiskFault};

    ghost from_gives = { λ _ cause. cause ≡ DiskFault };

    fn from(_failed: Failed) -> OpenCause {
        OpenCause::DiskFault
    }
}

impl From<AllocError> for OpenCause {
    ghost use Rattle.std.specs.Prelude.{◌≡◌};
    ghost use Rattle.foz_archive.specs.declared.opening.OpenCause.TheVariants.{Memory};

    ghost from_gives = { λ _ cause. cause ≡ Memory };

    fn from(_refused: AllocError) -> OpenCause {
        OpenCause::Memory
    }
}

impl From<ReadError> for OpenCause {
    ghost use Rattle.std.specs.Prelude.{◌≡◌};
    ghost use Rattle.foz_archive.specs.Opened.{open_cause_of};

    ghost from_gives = { λ unread cause. cause ≡ open_cause_of unread };

    fn from(unread: ReadError) -> OpenCause {
        match unread {
            ReadError::DiskFault => OpenCause::DiskFault,
            ReadError::Archive(error) => OpenCause::Archive(error),
            ReadError::Memory => OpenCause::Memory,
        }
    }
}

/// What was read of a file, and the memory that an archive over it begins with.
#[derive(Drop)]
struct Start {
    entries: Row<Entry>,
    end: u64,
    is_new: bool,

    // The gate alone.
    batch: Vec<u8>,
}

/// A file that was read and can be opened. It is still as it was found.
#[derive(Drop)]
pub struct Opening<D: Disk> {
    disk: D,
    start: Start,
}

impl<D: Disk> Model for Opening<D> {
    ghost use Rattle.disk_model.specs.Disk.{latest, NothingPending};
    ghost use Rattle.foz_archive.specs.Opened.{Unmended, IsStart};

    ghost Value = { Unmended D };

    ghost view = { λ opening. record { disk = opening.disk; entries = opening.start.entries; end = opening.start.end } };

    ghost invariant = { λ opening. IsStart D.tells_content (D.content opening.disk) opening.start × (D.tells_images → NothingPending (latest (D.history opening.disk))) };
}

impl<D: Disk> Archive<D> {
    /// Opens a file, whatever a crash has left of it: reads it, and mends it then. A refusal that is no fault of the disk
    /// leaves the content as it was.
    pub fn open(alloc: Global, disk: D) -> Result<Archive<D>, OpenRefused<D>>
        ensures held { D.tells_content → IfOk result (λ archive. Holds (D.content disk) archive.entries) }
        ensures whole { IfOk result (λ archive. (archive.flushed ≡ length archive.entries) × (archive.flushed_end ≡ archive.end) × (archive.broken ≡ false)) }
        ensures some_file { IfOk result (λ archive. SomeFileHolds archive.entries archive.end) }
        ensures settled { IfOk result (λ archive. IsSettled D.tells_content D.tells_images (D.content archive.disk) (D.history archive.disk) archive.entries archive.end) }
        ensures refused { D.tells_content → IfErr result (λ refused. IsUnopened (D.content disk) refused.cause) }
        ensures unchanged { D.tells_content → IfErr result (λ refused. (D.content refused.disk ≡ D.content disk) ⊎ (refused.cause ≡ OpenCause.DiskFault)) }

        // Each image is one of those before, or holds what the content held.
        ensures any_moment { D.tells_images → LeavesOnly (D.history disk) (D.history (opened_disk result))
            (λ bytes. IsImage (latest (D.history disk)) bytes ⊎ HoldAlike (D.content disk) bytes) }

        // An archive that its gate closes is only read.
        ensures untouched { D.tells_content → IsClosedArchive (D.content disk) → D.content (opened_disk result) ≡ D.content disk }
        ensures only_read { D.tells_images → IsClosedArchive (D.content disk) → LeavesOnly (D.history disk) (D.history (opened_disk result)) (IsImage (latest (D.history disk))) }

        ensures later { D.faults disk ≤ D.faults (opened_disk result) }
        ensures fault { IfErr result (λ refused. refused.cause ≡ OpenCause.DiskFault → Rose (D.faults disk) (D.faults refused.disk)) }
    {
        Archive::read(alloc, disk)?.settle()
    }

    /// Reads a file that is to be opened, and takes all memory that opening takes. It is synced first, so that what is read
    /// here is what the next crash leaves. A file of at most 17 bytes is new where it doesn't begin with the header of the
    /// version that is written.
    pub fn read(alloc: Global, mut disk: D) -> Result<Opening<D>, OpenRefused<D>>
        ensures held { D.tells_content → IfOk result (λ opening. Holds (D.content disk) opening.entries) }
        ensures some_file { IfOk result (λ opening. SomeFileHolds opening.entries opening.end) }
        ensures durable { D.tells_images → IfOk result (λ opening. NothingPending (latest (D.history opening.disk))) }
        ensures refused { D.tells_content → IfErr result (λ refused. IsUnopened (D.content disk) refused.cause) }

        ensures content { D.tells_content → D.content (unmended_disk result) ≡ D.content disk }
        ensures any_moment { D.tells_images → LeavesOnly (D.history disk) (D.history (unmended_disk result)) (IsImage (latest (D.history disk))) }
        ensures later { D.faults disk ≤ D.faults (unmended_disk result) }
        ensures fault { IfErr result (λ refused. refused.cause ≡ OpenCause.DiskFault → Rose (D.faults disk) (D.faults refused.disk)) }
    {
        match read_start(alloc, &mut disk) {
            Ok(start) => Ok(Opening { disk, start }),
            Err(cause) => Err(OpenRefused { disk, cause }),
        }
    }
}

impl<D: Disk> Opening<D> {
    /// The entries of the file, in file order.
    pub fn entries(&self) -> &[Entry]
        ensures all { result.now ≡ self.now.entries }
        ensures some_file { SomeFileHolds self.now.entries self.now.end }
    {
        self.start.entries.as_slice()
    }

    /// The disk, as it was found.
    pub fn into_disk(self) -> D
        ensures { result ≡ self.disk }
    {
        let Opening { disk, .. } = self;
        disk
    }

    /// Mends the file: writes header and gate of a new file as one piece, and cuts what stands after the entries of any
    /// other, unless it is a closed gate. It takes no memory, so that only the disk can refuse it.
    pub fn settle(self) -> Result<Archive<D>, OpenRefused<D>>
        ensures opened { IfOk result (IsJustOpened self.entries self.end) }
        ensures settled { IfOk result (λ archive. IsSettled D.tells_content D.tells_images (D.content archive.disk) (D.history archive.disk) archive.entries archive.end) }
        ensures refused { IfErr result (λ refused. refused.cause ≡ OpenCause.DiskFault) }
        ensures mends { Mends D.tells_content D.tells_images D.content D.history self.disk (opened_disk result) self.entries }
        ensures cause { HasCause (D.faults self.disk) (D.faults (opened_disk result)) result }
    {
        let Opening { mut disk, start } = self;
        match begin_new(&mut disk, start.is_new) {
            Ok(()) => go_on(disk, start),
            Err(Failed) => Err(OpenRefused {
                disk,
                cause: OpenCause::DiskFault,
            }),
        }
    }
}

/// Syncs a file, and reads what it holds.
fn read_start<D: Disk>(alloc: Global, disk: &mut D) -> Result<Start, OpenCause>
    ensures start { IfOk result (IsStart D.tells_content (D.content disk.old)) }
    ensures durable { D.tells_images → OnOk result (NothingPending (latest (D.history disk.new))) }
    ensures refused { D.tells_content → IfErr result (IsUnopened (D.content disk.old)) }
    ensures content { D.tells_content → D.content disk.new ≡ D.content disk.old }
    ensures any_moment { D.tells_images → LeavesOnly (D.history disk.old) (D.history disk.new) (IsImage (latest (D.history disk.old))) }
    ensures later { D.faults disk.old ≤ D.faults disk.new }
    ensures fault { result ≡ Err OpenCause.DiskFault → Rose (D.faults disk.old) (D.faults disk.new) }
{
    disk.sync()?;
    start_of(alloc, disk)
}

/// What a file holds.
fn start_of<D: Disk>(alloc: Global, disk: &mut D) -> Result<Start, OpenCause>
    ensures start { IfOk result (IsStart D.tells_content (D.content disk.old)) }
    ensures refused { D.tells_content → IfErr result (IsUnopened (D.content disk.old)) }
    ensures only_read { IsOnlyRead D.tells_content D.tells_images D.content D.history D.faults disk.old disk.new }
    ensures fault { result ≡ Err OpenCause.DiskFault → Rose (D.faults disk.old) (D.faults disk.new) }
{
    match read_disk_as(alloc, &WRITING, disk) {
        Ok(scanned) => Ok(Start {
            entries: scanned.entries,
            end: scanned.end,
            is_new: false,
            batch: vec![in alloc; 0; 1]?,
        }),
        Err(ReadError::Archive(error)) => start_of_unread(alloc, disk, error),
        Err(unread) => Err(OpenCause::from(unread)),
    }
}

/// What a file holds that is refused: nothing, if it is new.
fn start_of_unread<D: Disk>(
    alloc: Global,
    disk: &mut D,
    error: ArchiveError,
) -> Result<Start, OpenCause>
    requires unread { D.tells_content → IsRefusedToWrite (D.content disk.old) error }
    ensures start { IfOk result (IsStart D.tells_content (D.content disk.old)) }
    ensures refused { D.tells_content → IfErr result (IsUnopened (D.content disk.old)) }
    ensures only_read { IsOnlyRead D.tells_content D.tells_images D.content D.history D.faults disk.old disk.new }
    ensures fault { result ≡ Err OpenCause.DiskFault → Rose (D.faults disk.old) (D.faults disk.new) }
{
    if disk.len()? > NEW_FILE.len() as u64 {
        return Err(OpenCause::Archive(error));
    }
    Ok(Start {
        entries: Row::new(alloc),
        end: HEADER_LEN as u64,
        is_new: true,
        batch: vec![in alloc; 0; 1]?,
    })
}

/// Writes the header and the gate of a new file as one piece. Any other file is left as it is.
fn begin_new<D: Disk>(disk: &mut D, is_new: bool) -> Result<(), Failed>
    requires { D.tells_images → NothingPending (latest (D.history disk.old)) }

    ensures accepted { D.tells_content → OnOk result ((entries : List Entry) (end : ℕ) → Begins is_new (D.content disk.old) entries end → IsAccepted (D.content disk.new) entries end) }
    ensures durable { D.tells_images → OnOk result (NothingPending (latest (D.history disk.new))) }
    ensures mends { (entries : List Entry) (end : ℕ) → (D.tells_content → Begins is_new (D.content disk.old) entries end)
        → Mends D.tells_content D.tells_images D.content D.history disk.old disk.new entries }
    ensures cause { HasCause (D.faults disk.old) (D.faults disk.new) result }
{
    if is_new {
        write_synced(disk, 0, &NEW_FILE)
    } else {
        Ok(())
    }
}

/// Closes a file after its entries, and goes on with it.
fn go_on<D: Disk>(disk: D, start: Start) -> Result<Archive<D>, OpenRefused<D>>
    requires durable { D.tells_images → NothingPending (latest (D.history disk)) }
    requires accepted { D.tells_content → IsAccepted (D.content disk) start.entries start.end }
    requires some_file { SomeFileHolds start.entries start.end }
    requires gate { start.batch.items ≡ 0 ∷ [] }

    ensures opened { IfOk result (IsJustOpened start.entries start.end) }
    ensures settled { IfOk result (λ archive. IsSettled D.tells_content D.tells_images (D.content archive.disk) (D.history archive.disk) archive.entries archive.end) }
    ensures refused { IfErr result (λ refused. refused.cause ≡ OpenCause.DiskFault) }
    ensures mends { Mends D.tells_content D.tells_images D.content D.history disk (opened_disk result) start.entries }
    ensures cause { HasCause (D.faults disk) (D.faults (opened_disk result)) result }
{
    let Start {
        entries,
        end,
        batch,
        ..
    } = start;
    let flushed = entries.len() as u32;
    match Gate::open_at(disk, end) {
        Ok(gate) => Ok(Archive {
            gate,
            entries,
            flushed,
            batch,
        }),
        Err(GateRefused { disk }) => Err(OpenRefused {
            disk,
            cause: OpenCause::DiskFault,
        }),
    }
}
