//! The reading of a whole file.
ghost use Rattle.std.specs.Prelude.{◌≡◌, ◌+◌, ◌≤◌, ◌<◌, ◌^◌, ℕ, List, length, IfOk, IfErr};
ghost use Rattle.foz_entry.specs.Limits.{header_len};
ghost use Rattle.foz_entry.specs.declared.cut.Entry.{Entry};
ghost use Rattle.foz_archive.specs.Reading.{Stand, is_clean, IsReading, IsReadingAs};
ghost use Rattle.foz_archive.specs.Refusal.{IsUnread, IsUnreadAs};
ghost use Rattle.foz_archive.specs.Found.{IsFound};

use crate::header::{READING, header_refusal};
use crate::refusal::{ArchiveError, ScanError};
use foz_entry::{COUNT_LIMIT, END_LIMIT, Entry, HEAD_LEN, HEADER_LEN, first_entry};
use foz_words::{NoMemory, Row};
use std::alloc::Global;

/// What stands in a file: its whole entries in a row, where they end and how long the file is, in bytes, and whether
/// nothing stands after them but maybe the byte 0 that closes a file.
#[derive(Debug, Drop)]
pub struct Scanned {
    pub entries: Row<Entry>,
    pub end: u64,
    pub length: u64,
    pub clean: bool,
}

/// Where the entries of a row end, and the entries themselves unless there are too many.
#[derive(Drop)]
enum Found {
    Few {
        entries: Row<Entry>,
        end: usize,
        clean: bool,
    },
    TooMany {
        end: usize,
    },
}

/// Where the whole entries end that stand in a row from a place on.
fn end_of_row(bytes: &[u8], from: usize) -> usize
    requires { from + length bytes.now < 2 ^ 63 }
    ensures { (entries : List Entry) × Stand from bytes.now entries result }
{
    let mut place = from;
    let mut left = bytes;
    while let Some(head) = first_entry(left) {
        let (_, after) = left.split_at(head.total);
        place += head.total;
        left = after;
    }
    place
}

/// Is what stands after the entries nothing, or the byte that closes a file?
fn is_clean(rest: &[u8]) -> bool
    ensures { result ≡ is_clean rest.now }
{
    matches!(rest, [] | [0])
}

/// The whole entries in a row after the header. Their payloads are copied here, once.
fn entries_of(alloc: Global, bytes: &[u8]) -> Result<Found, NoMemory>
    requires long { header_len ≤ length bytes.now }
    requires short { length bytes.now < 2 ^ 62 }
    ensures { IfOk result (λ found. IsFound bytes.now found) }
{
    let mut entries = Row::new(alloc);
    let mut place = HEADER_LEN;
    let mut rest = &bytes[HEADER_LEN..];
    while let Some(head) = first_entry(rest) {
        if entries.len() == COUNT_LIMIT as usize {
            let end = end_of_row(rest, place);
            return Ok(Found::TooMany { end });
        }
        let (whole, after) = rest.split_at(head.total);
        let (_, payload) = whole.split_at(HEAD_LEN);
        let payload = Row::from_vec(Vec::from_slice(alloc, payload)?);
        entries.push(Entry {
            offset: place as u64,
            head,
            payload,
        })?;
        place += head.total;
        rest = after;
    }
    Ok(Found::Few {
        entries,
        end: place,
        clean: is_clean(rest),
    })
}

/// What stands in a file with these bytes. A file has at most one reading or one reason why it is refused.
pub fn scan(alloc: Global, bytes: &[u8]) -> Result<Scanned, ScanError>
    ensures read { IfOk result (λ scanned. IsReading bytes.now scanned) }
    ensures unread { IfErr result (λ error. IsUnread bytes.now error) }
{
    scan_as(alloc, &READING, bytes)
}

/// The same, where these versions are accepted.
pub(crate) fn scan_as(alloc: Global, versions: &[u8], bytes: &[u8]) -> Result<Scanned, ScanError>
    ensures read { IfOk result (λ scanned. IsReadingAs versions.now bytes.now scanned) }
    ensures unread { IfErr result (λ error. IsUnreadAs versions.now bytes.now error) }
{
    let front = &bytes[..bytes.len().min(HEADER_LEN)];
    if let Some(error) = header_refusal(versions, bytes.len(), front) {
        return Err(ScanError::Archive(error));
    }
    let length = bytes.len() as u64;
    let too_long = ScanError::Archive(ArchiveError::TooLong { len: length });
    if length > END_LIMIT + 1 {
        return Err(too_long);
    }
    match entries_of(alloc, bytes)? {
        Found::Few {
            entries,
            end,
            clean,
        } => {
            let end = end as u64;
            if end > END_LIMIT {
                return Err(too_long);
            }
            Ok(Scanned {
                entries,
                end,
                length,
                clean,
            })
        }
        Found::TooMany { end } => {
            if end as u64 > END_LIMIT {
                return Err(too_long);
            }
            Err(ScanError::Archive(ArchiveError::TooMany))
        }
    }
}
