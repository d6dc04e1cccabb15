//! The reading of a disk.
ghost use Rattle.std.specs.Prelude.{◌≡◌, ◌<◌, ◌≤◌, ◌+◌, ℕ, List, length, take, IfOk, IfErr};
ghost use Rattle.disk_model.specs.Faults.{Rose};
ghost use Rattle.foz_entry.specs.Limits.{header_len, end_limit};
ghost use Rattle.foz_archive.specs.Reading.{IsReadOf, IsReadOfAs};
ghost use Rattle.foz_archive.specs.Refusal.{IsRefusedAs, IsUnreadDisk, IsUnreadDiskAs};
ghost use Rattle.foz_archive.specs.OnlyRead.{IsOnlyRead, OnlyReads};

use crate::header::{READING, header_refusal};
use crate::refusal::{ArchiveError, ReadError};
use crate::scanned::{Scanned, scan_as};
use disk_model::Disk;
use foz_entry::{END_LIMIT, HEADER_LEN};
use std::alloc::Global;

/// What stands in a disk. It is only read.
pub fn read_disk<D: Disk>(alloc: Global, disk: &mut D) -> Result<Scanned, ReadError>
    // Some file reads so, whatever the disk tells.
    ensures read { IfOk result (λ scanned. IsReadOf D.tells_content (D.content disk.old) scanned) }
    ensures unread { D.tells_content → IfErr result (λ error. IsUnreadDisk (D.content disk.old) error) }

    ensures content { D.tells_content → D.content disk.new ≡ D.content disk.old }
    ensures images { D.tells_images → OnlyReads (D.history disk.old) (D.history disk.new) }
    ensures later { D.faults disk.old ≤ D.faults disk.new }
    ensures fault { result ≡ Err ReadError.DiskFault → Rose (D.faults disk.old) (D.faults disk.new) }
{
    read_disk_as(alloc, &READING, disk)
}

/// The same, where these versions are accepted.
pub(crate) fn read_disk_as<D: Disk>(
    alloc: Global,
    versions: &[u8],
    disk: &mut D,
) -> Result<Scanned, ReadError>
    ensures read { IfOk result (λ scanned. IsReadOfAs versions.now D.tells_content (D.content disk.old) scanned) }
    ensures unread { D.tells_content → IfErr result (λ error. IsUnreadDiskAs versions.now (D.content disk.old) error) }
    ensures only_read { IsOnlyRead D.tells_content D.tells_images D.content D.history D.faults disk.old disk.new }
    ensures fault { result ≡ Err ReadError.DiskFault → Rose (D.faults disk.old) (D.faults disk.new) }
{
    let bytes = read_bytes(alloc, versions, disk)?;
    let scanned = scan_as(alloc, versions, &bytes)?;
    Ok(scanned)
}

/// All bytes of a file, which are read as one piece, unless its length alone refuses it.
fn read_bytes<D: Disk>(alloc: Global, versions: &[u8], disk: &mut D) -> Result<Vec<u8>, ReadError>
    ensures bytes { D.tells_content → IfOk result (λ bytes. bytes.items ≡ D.content disk.old) }
    ensures unread { D.tells_content → IfErr result (λ error. IsUnreadDiskAs versions.now (D.content disk.old) error) }
    ensures only_read { IsOnlyRead D.tells_content D.tells_images D.content D.history D.faults disk.old disk.new }
    ensures fault { result ≡ Err ReadError.DiskFault → Rose (D.faults disk.old) (D.faults disk.new) }
{
    let len = disk.len()?;
    if len > END_LIMIT + 1 {
        let mut front = [0; HEADER_LEN];
        disk.read_at(0, &mut front)?;
        return Err(ReadError::Archive(long_refusal(versions, len, &front)));
    }
    let mut bytes = vec![in alloc; 0; len as usize]?;
    disk.read_at(0, &mut bytes)?;
    Ok(bytes)
}

/// Why a file that is too long is refused, by its first sixteen bytes.
fn long_refusal(versions: &[u8], len: u64, front: &[u8]) -> ArchiveError
    requires header { length front.now ≡ header_len }
    requires long { end_limit + 1 < len }
    ensures { (file : List ℕ) → length file ≡ len → take header_len file ≡ front.now → IsRefusedAs versions.now file result }
{
    match header_refusal(versions, len as usize, front) {
        Some(error) => error,
        None => ArchiveError::TooLong { len },
    }
}
