ghost use Rattle.std.specs.Prelude.{◌≡◌, false, IfOk};

use crate::{
    Archive, ArchiveError, OpenCause, OpenRefused, PushError, ReadError, fits, read_disk, scan,
};
use disk_model::{Disk, MemDisk};
use foz_words::Key;
use std::test::Fail;

const HEADER: &[u8] = b"\x81FOSSILIZEDB\0\0\0\x06";

// The entry of tag 1 and hash 1 without a payload, and that of tag 1 and hash 2 with the payload "123456789".
const FIRST: &[u8] = b"0000000000000000000000010000000000000001\0\0\0\0\x01\0\0\0\0\0\0\0\0\0\0\0";

const SECOND: &[u8] =
    b"0000000000000000000000010000000000000002\x09\0\0\0\x01\0\0\0\x26\x39\xF4\xCB\x09\0\0\0123456789";

// The second entry without the end of its payload.
const TORN: &[u8] =
    b"0000000000000000000000010000000000000002\x09\0\0\0\x01\0\0\0\x26\x39\xF4\xCB\x09\0\0\012345678";

const FIRST_KEY: Key = Key { tag: 1, hash: 1 };

const SECOND_KEY: Key = Key { tag: 1, hash: 2 };

type Pushed = (Key, &'static [u8]);

const BOTH: &[Pushed] = &[(FIRST_KEY, b""), (SECOND_KEY, b"123456789")];

// A disk with these bytes, whose calls with these numbers fail.
fn disk(rt: &HostRuntime, parts: &[&[u8]], failing: &[u64]) -> Result<MemDisk, Fail> {
    let alloc = rt.alloc();
    let mut bytes = Vec::new(alloc);
    for part in parts {
        bytes.extend_from_slice(part)?;
    }
    let failing = failing.to_vec(alloc)?;
    Ok(MemDisk::new(alloc, bytes, 1000, 100, failing)?)
}

fn opened<D: Disk + Drop>(rt: &HostRuntime, disk: D) -> Result<Archive<D>, Fail>
    ensures whole { IfOk result (λ archive. archive.broken ≡ false) }
{
    match Archive::open(rt.alloc(), disk) {
        Ok(archive) => Ok(archive),
        Err(_) => Err(Fail::new("the file was refused")),
    }
}

// Is the entry pushed to this place?
fn is_pushed(archive: &mut Archive<MemDisk>, entry: &Pushed, place: u32) -> bool
    requires { archive.old.broken ≡ false }
    ensures { archive.new.broken ≡ false }
{
    match archive.push(entry.0, entry.1) {
        Ok(index) => index == place,
        Err(_) => false,
    }
}

// Are these pushed as the first entries of an archive without entries? They are two at most.
fn are_pushed(archive: &mut Archive<MemDisk>, entries: &[Pushed]) -> bool
    requires { archive.old.broken ≡ false }
    ensures { archive.new.broken ≡ false }
{
    match entries {
        [] => true,
        [only] => is_pushed(archive, only, 0),
        [first, second] => is_pushed(archive, first, 0) && is_pushed(archive, second, 1),
        _ => false,
    }
}

fn is_joined(bytes: &[u8], parts: &[&[u8]]) -> bool {
    let mut rest = bytes;
    for part in parts {
        if !rest.starts_with(part) {
            return false;
        }
        rest = rest.split_at(part.len()).1;
    }
    rest.is_empty()
}

// The first so many of the two entries stand in the file, each in its place, and the archive ends there.
fn holds_first(archive: &Archive<MemDisk>, count: usize) -> bool {
    let wanted = [
        (16, FIRST_KEY, b"".as_slice()),
        (72, SECOND_KEY, b"123456789".as_slice()),
    ];
    let ends = [16, 72, 137];
    archive.flushed() as usize == count
        && archive.entries().len() == count
        && ends.get(count) == Some(&archive.end())
        && archive.entries().iter().zip(wanted).all(|(entry, (offset, key, payload))| {
            entry.offset == offset && entry.head.key == key && entry.payload.as_slice() == payload
        })
}

// What stands in a file, what is pushed onto it, and what stands there after the commit.
const RECORDED: &[(&[&[u8]], &[Pushed], &[&[u8]])] = &[
    (&[], &[(SECOND_KEY, b"123456789")], &[HEADER, SECOND, b"\0"]),
    (&[HEADER], &[], &[HEADER, b"\0"]),
    (&[HEADER, b"\0"], BOTH, &[HEADER, FIRST, SECOND, b"\0"]),
    (
        &[HEADER, TORN],
        &[(FIRST_KEY, b"")],
        &[HEADER, FIRST, b"\0"],
    ),
    (
        &[HEADER, FIRST, b"0000000000"],
        &[],
        &[HEADER, FIRST, b"\0"],
    ),
    (&[&[0xFF; 17]], &[], &[HEADER, b"\0"]),
];

fn is_recorded(
    rt: &HostRuntime,
    before: &[&[u8]],
    entries: &[Pushed],
    after: &[&[u8]],
) -> Result<bool, Fail> {
    let mut archive = opened(rt, disk(rt, before, &[])?)?;
    let done = are_pushed(&mut archive, entries) && archive.commit().is_ok();
    Ok(done && is_joined(archive.into_disk().content(), after))
}

#[test]
fn entries_are_written_after_those_that_stand(rt: HostRuntime) -> Result<(), Fail> {
    for (before, entries, after) in RECORDED {
        assert!(rt; is_recorded(&rt, before, entries, after)?);
    }
    Ok(())
}

// With nothing to write a commit is no call of the disk, and answers the same.
fn commits_are_counted(rt: &HostRuntime) -> Result<bool, Fail> {
    let mut archive = opened(rt, disk(rt, &[HEADER, b"\0"], &[])?)?;
    if !are_pushed(&mut archive, BOTH) || archive.flushed() != 0 || archive.end() != 137 {
        return Ok(false);
    }
    match archive.commit() {
        Ok(count) => Ok(count == 2 && archive.commit() == Ok(2) && holds_first(&archive, 2)),
        Err(_) => Ok(false),
    }
}

#[test]
fn two_entries_are_one_batch(rt: HostRuntime) -> Result<(), Fail> {
    assert!(rt; commits_are_counted(&rt)?);
    Ok(())
}

// What a crash may leave where written bytes are these, as the file is at its shortest and at its longest.
const FILLS: [u8; 3] = [0x00, 0x30, 0x61];

const KEEPS: [u64; 2] = [0, 1000];

// The calls of the disk before the commit are five: sync, len, read_at, and of the gate len and read_at. Its own four
// are 5 to 8, and each of them in turn is the last one, and fails.
fn leaves_all_or_none(rt: &HostRuntime, call: u64, fill: u8, keep: u64) -> Result<bool, Fail> {
    let mut archive = opened(rt, disk(rt, &[HEADER, b"\0"], &[call])?)?;
    if !are_pushed(&mut archive, BOTH) {
        return Ok(false);
    }
    let done = archive.commit().is_ok();
    let broken = archive.is_broken();
    let after = opened(rt, archive.into_disk().crash(fill, keep))?;
    let open = call == 9 || call == 8 && fill == 0x30;
    Ok(done == (call == 9) && broken != done && holds_first(&after, if open { 2 } else { 0 }))
}

#[test]
fn a_crash_in_a_commit_leaves_all_or_none(rt: HostRuntime) -> Result<(), Fail> {
    for call in 5..10 {
        for fill in FILLS {
            for keep in KEEPS {
                assert!(rt; leaves_all_or_none(&rt, call, fill, keep)?);
            }
        }
    }
    Ok(())
}

// The disk that an opening leaves, which is refused for the disk alone.
fn left_by(opening: Result<Archive<MemDisk>, OpenRefused<MemDisk>>) -> Option<MemDisk> {
    match opening {
        Ok(archive) => Some(archive.into_disk()),
        Err(refused) if refused.cause == OpenCause::DiskFault => Some(refused.disk),
        Err(_) => None,
    }
}

// The calls of the opening are sync, len, read_at, and of the gate len, cut, sync, write_at and sync.
fn leaves_its_entry(rt: &HostRuntime, call: u64, fill: u8, keep: u64) -> Result<bool, Fail> {
    let torn = disk(rt, &[HEADER, FIRST, b"0000000000"], &[call])?;
    let opening = Archive::open(rt.alloc(), torn);
    if opening.is_ok() != (call == 8) {
        return Ok(false);
    }
    let Some(left) = left_by(opening) else {
        return Ok(false);
    };
    let after = opened(rt, left.crash(fill, keep))?;
    Ok(holds_first(&after, 1))
}

#[test]
fn a_crash_while_a_file_is_mended_leaves_its_entry(rt: HostRuntime) -> Result<(), Fail> {
    for call in 0..9 {
        for fill in FILLS {
            for keep in KEEPS {
                assert!(rt; leaves_its_entry(&rt, call, fill, keep)?);
            }
        }
    }
    Ok(())
}

// A whole entry that was written and never synced is read, so it must be durable before the archive is handed out.
fn unsynced_entry_stays(rt: &HostRuntime) -> Result<bool, Fail> {
    let mut disk = disk(rt, &[HEADER, b"\0"], &[])?;
    if disk.len() != Ok(17) || disk.write_at(16, FIRST).is_err() {
        return Ok(false);
    }
    let archive = opened(rt, disk)?;
    let read = holds_first(&archive, 1);
    let after = opened(rt, archive.into_disk().crash(0x61, 0))?;
    Ok(read && holds_first(&after, 1))
}

#[test]
fn what_is_read_was_synced_first(rt: HostRuntime) -> Result<(), Fail> {
    assert!(rt; unsynced_entry_stays(&rt)?);
    Ok(())
}

// A file that was read is as it was found, until it is settled.
fn opens_in_two_steps(rt: &HostRuntime, settle: bool, after: &[&[u8]]) -> Result<bool, Fail> {
    let found = disk(rt, &[HEADER, FIRST, b"0000000000"], &[])?;
    let Ok(opening) = Archive::read(rt.alloc(), found) else {
        return Ok(false);
    };
    if opening.entries().len() != 1 {
        return Ok(false);
    }
    let left = if settle {
        left_by(opening.settle())
    } else {
        Some(opening.into_disk())
    };
    Ok(left.is_some_and(|disk| is_joined(disk.content(), after)))
}

#[test]
fn a_file_is_mended_once_it_was_read(rt: HostRuntime) -> Result<(), Fail> {
    assert!(rt; opens_in_two_steps(&rt, false, &[HEADER, FIRST, b"0000000000"])?);
    assert!(rt; opens_in_two_steps(&rt, true, &[HEADER, FIRST, b"\0"])?);
    Ok(())
}

// Files that are refused, to be read and to be written.
const REFUSED: &[(&[&[u8]], ArchiveError)] = &[
    (
        &[&[0xFF; 18]],
        ArchiveError::BadMagic {
            len: 18,
            bytes: [0xFF; 16],
        },
    ),
    (
        &[b"\x81FOSSILIZEDB\0\0\0\x07\0\0"],
        ArchiveError::BadVersion { v: 7 },
    ),
];

fn is_refused_as_it_stands(
    rt: &HostRuntime,
    parts: &[&[u8]],
    error: ArchiveError,
) -> Result<bool, Fail> {
    let mut disk = disk(rt, parts, &[])?;
    let unread = match read_disk(rt.alloc(), &mut disk) {
        Ok(_) => false,
        Err(cause) => cause == ReadError::Archive(error),
    };
    match Archive::open(rt.alloc(), disk) {
        Ok(_) => Ok(false),
        Err(refused) => Ok(
            unread
                && refused.cause == OpenCause::Archive(error)
                && is_joined(refused.disk.content(), parts),
        ),
    }
}

#[test]
fn another_file_is_refused_as_it_stands(rt: HostRuntime) -> Result<(), Fail> {
    for (parts, error) in REFUSED {
        assert!(rt; is_refused_as_it_stands(&rt, parts, *error)?);
    }
    Ok(())
}

// How many entries are read of these bytes, where they end, and whether nothing is left after them.
fn read_of(rt: &HostRuntime, parts: &[&[u8]]) -> Result<(usize, u64, bool), Fail> {
    match scan(rt.alloc(), disk(rt, parts, &[])?.content()) {
        Ok(scanned) => Ok((scanned.entries.len(), scanned.end, scanned.clean)),
        Err(_) => Err(Fail::new("the bytes were refused")),
    }
}

#[test]
fn whole_entries_in_a_row_are_read(rt: HostRuntime) -> Result<(), Fail> {
    assert_eq!(rt; read_of(&rt, &[HEADER])?, (0, 16, true));
    assert_eq!(rt;
        read_of(&rt, &[HEADER, FIRST, SECOND, b"\0"])?,
        (2, 137, true)
    );
    assert_eq!(rt; read_of(&rt, &[HEADER, FIRST, TORN])?, (1, 72, false));
    Ok(())
}

#[test]
fn an_archive_has_room_up_to_its_limit(rt: HostRuntime) {
    for (end, need, wanted) in [
        (268_435_400, 56, true),
        (268_435_401, 56, false),
        (268_435_456, 56, false),
    ] {
        assert_eq!(rt; fits(end, need), wanted);
    }
}

fn has_room(rt: &HostRuntime, size: usize) -> Result<Result<(), PushError>, Fail> {
    let archive = opened(rt, disk(rt, &[], &[])?)?;
    Ok(archive.check_room(size))
}

#[test]
fn a_payload_may_not_be_too_large(rt: HostRuntime) -> Result<(), Fail> {
    let refused = Err(PushError::TooLarge { size: 16_777_217 });
    assert_eq!(rt; has_room(&rt, 16_777_216)?, Ok(()));
    assert_eq!(rt; has_room(&rt, 16_777_217)?, refused);
    Ok(())
}
