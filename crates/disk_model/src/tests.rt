ghost use Rattle.std.specs.Prelude.{◌≡◌, ◌≢◌, ◌+◌, ◌≤◌, List, ℕ, length, IfOk, string_bytes};
ghost use Rattle.disk_model.specs.Disk.{NothingPending, latest};
ghost use Rattle.disk_model.specs.Place.{out};

use crate::{
    Call, Disk, Failed, FileDisk, FolderShelf, MemDisk, MemShelf, MemSink, MemSource, Mode,
    RamDisk, Shelf, Sink, Source, StdSink, StdSource, TakeError, cut_synced, write_synced,
};
use std::alloc::Global;
use std::fs;
use std::process::Abort;
use std::test::Fail;

// A disk with a room of ten bytes that bears six calls.
fn disk(alloc: Global, bytes: &[u8], failing: &[u64]) -> Result<MemDisk, Fail>
    ensures content { IfOk result (λ disk. ⟦<MemDisk as Disk>⟧.content disk ≡ bytes.now) }
    ensures settled { IfOk result (λ disk. NothingPending (latest (⟦<MemDisk as Disk>⟧.history disk))) }
{
    let bytes = bytes.to_vec(alloc)?;
    let failing = failing.to_vec(alloc)?;
    Ok(MemDisk::new(alloc, bytes, 10, 6, failing)?)
}

fn source(alloc: Global) -> Result<MemSource, Fail> {
    let bytes = [1, 2, 3, 4, 5].to_vec(alloc)?;
    Ok(MemSource::new(bytes, 2, [1].to_vec(alloc)?))
}

// Each row is the length of a buffer, and what a read of it gives.
const READS: &[(usize, Result<&[u8], Failed>)] = &[
    (4, Ok(&[1, 2])),
    (4, Err(Failed)),
    (1, Ok(&[3])),
    (4, Ok(&[4, 5])),
    (4, Ok(&[])),
];

fn reads_are(
    rt: &impl Abort,
    source: &mut MemSource,
    rows: &[(usize, Result<&[u8], Failed>)],
) -> Result<(), Fail> {
    for (size, wanted) in rows {
        let mut buf = [0; 4];
        let size = (*size).min(4);
        let given = match source.read(&mut buf[..size]) {
            Ok(count) => Ok(&buf[..count]),
            Err(failed) => Err(failed),
        };
        assert_eq!(rt; given, *wanted, "of {size} bytes");
    }
    Ok(())
}

#[test]
fn a_source_gives_its_bytes_in_steps(rt: HostRuntime) -> Result<(), Fail> {
    let mut source = source(rt.alloc())?;
    reads_are(&rt, &mut source, READS)
}

// Each row is a piece, and how much of it a write takes.
const WRITES: &[(&[u8], Result<usize, Failed>)] = &[
    (&[1, 2, 3, 4], Ok(3)),
    (&[4], Err(Failed)),
    (&[4], Ok(1)),
    (&[5, 6, 7], Ok(1)),
    (&[6, 7], Err(Failed)),
    (&[], Ok(0)),
];

fn writes_are(
    rt: &impl Abort,
    sink: &mut MemSink,
    rows: &[(&[u8], Result<usize, Failed>)],
) -> Result<(), Fail> {
    for (piece, wanted) in rows {
        assert_eq!(rt; sink.write(piece), *wanted, "of {} bytes", piece.len());
    }
    Ok(())
}

#[test]
fn a_sink_takes_a_step_at_most(rt: HostRuntime) -> Result<(), Fail> {
    let alloc = rt.alloc();
    let mut sink = MemSink::new(alloc, 5, 3, [1].to_vec(alloc)?)?;
    writes_are(&rt, &mut sink, WRITES)?;
    assert_eq!(rt; sink.written(), [1, 2, 3, 4, 5].as_slice());
    Ok(())
}

// A disk after a write of [9, 9] over the end of [1, 2, 3] and a cut to two bytes, neither of them synced.
fn unsynced_disk(rt: &impl Abort, alloc: Global) -> Result<MemDisk, Fail> {
    let mut disk = disk(alloc, &[1, 2, 3], &[])?;
    assert_eq!(rt; disk.write_at(2, &[9, 9]), Ok(()));
    assert_eq!(rt; disk.cut(2), Ok(()));
    assert_eq!(rt; disk.content(), [1, 2].as_slice());
    Ok(disk)
}

// Each row is a length that is asked for, and what a crash leaves of that disk.
const CRASHES: &[(u64, &[u8])] = &[
    (0, &[1, 2]),
    (3, &[1, 2, 48]),
    (4, &[1, 2, 48, 48]),
    (9, &[1, 2, 48, 48]),
];

#[test]
fn a_crash_leaves_any_length_between(rt: HostRuntime) -> Result<(), Fail> {
    for (keep, left) in CRASHES {
        let after = unsynced_disk(&rt, rt.alloc())?.crash(48, *keep);
        assert_eq!(rt; after.content(), *left, "at {keep}");
    }
    Ok(())
}

fn synced_disk(rt: &impl Abort, alloc: Global) -> Result<MemDisk, Fail> {
    let mut disk = disk(alloc, &[1, 2, 3], &[])?;
    assert_eq!(rt; write_synced(&mut disk, 3, &[4, 5]), Ok(()));
    assert_eq!(rt; cut_synced(&mut disk, 4), Ok(()));
    Ok(disk)
}

const SYNCED_CALLS: &[Call] = &[
    Call::Write { at: 3, len: 2 },
    Call::Sync,
    Call::Cut { len: 4 },
    Call::Sync,
];

fn record_is(rt: &impl Abort, disk: &MemDisk, calls: &[Call], pieces: &[u8]) {
    let record = disk.record();
    assert_eq!(rt; record.0, calls);
    assert_eq!(rt; record.1, pieces);
}

#[test]
fn a_synced_change_stays(rt: HostRuntime) -> Result<(), Fail> {
    let disk = synced_disk(&rt, rt.alloc())?;
    record_is(&rt, &disk, SYNCED_CALLS, &[4, 5]);
    let mut after = disk.crash(48, 0);
    let mut bytes = [0; 4];
    assert_eq!(rt; after.len(), Ok(4));
    assert_eq!(rt; after.read_at(0, &mut bytes), Ok(()));
    assert_eq!(rt; bytes, [1, 2, 3, 4]);
    Ok(())
}

// The room is ten bytes, three of them taken, and there are six calls, of which the one with the number 1 is to fail.
fn fails_where_it_is_to(rt: &impl Abort, disk: &mut MemDisk)
    requires long { length (⟦<MemDisk as Disk>⟧.content disk.old) ≡ 3 }
{
    assert_eq!(rt; disk.len(), Ok(3));
    assert_eq!(rt; disk.cut(1), Err(Failed));
    assert_eq!(rt; disk.write_at(0, &[7; 8]), Err(Failed));
    assert_eq!(rt; disk.write_at(0, &[7; 7]), Ok(()));
    assert_eq!(rt; disk.write_at(0, &[8]), Err(Failed));
    assert_eq!(rt; disk.sync(), Ok(()));
    assert_eq!(rt; disk.sync(), Err(Failed));
    assert_eq!(rt; disk.content(), [7; 7].as_slice());
}

#[test]
fn a_disk_fails_at_the_listed_calls_and_past_its_ends(rt: HostRuntime) -> Result<(), Fail> {
    let mut disk = disk(rt.alloc(), &[1, 2, 3], &[1])?;
    fails_where_it_is_to(&rt, &mut disk);
    Ok(())
}

#[test]
fn a_disk_that_grows_holds_what_was_written(rt: HostRuntime) {
    let mut disk = RamDisk::new(rt.alloc());
    assert_eq!(rt; disk.write_at(0, &[1, 2, 3]), Ok(()));
    assert_eq!(rt; disk.len(), Ok(3));
    assert_eq!(rt; disk.write_at(1, &[7]), Ok(()));
    assert_eq!(rt; disk.len(), Ok(3));
    assert_eq!(rt; disk.write_at(2, &[8, 4, 5]), Ok(()));
    assert_eq!(rt; disk.len(), Ok(5));
    assert_eq!(rt; disk.cut(4), Ok(()));
    assert_eq!(rt; disk.sync(), Ok(()));
    assert_eq!(rt; disk.len(), Ok(4));
    let mut bytes = [0; 4];
    assert_eq!(rt; disk.read_at(0, &mut bytes), Ok(()));
    assert_eq!(rt; bytes, [1, 7, 8, 4]);
    let mut last = [0; 2];
    assert_eq!(rt; disk.read_at(2, &mut last), Ok(()));
    assert_eq!(rt; last, [8, 4]);
}

// The files a and b, each of one byte.
fn shelf(alloc: Global, failing: &[u64]) -> Result<MemShelf, Fail>
    ensures here { IfOk result (λ shelf. (name : List ℕ) → ⟦<MemShelf as Shelf>⟧.places shelf name ≢ out) }
{
    let mut files = Vec::new(alloc);
    files.push((String::from_str(alloc, "a")?, disk(alloc, &[1], &[])?))?;
    files.push((String::from_str(alloc, "b")?, disk(alloc, &[2], &[])?))?;
    Ok(MemShelf::new(files, 4, 9, failing.to_vec(alloc)?))
}

// Takes a file that holds one byte, writes another over it, and puts it back.
fn write_over(
    rt: &impl Abort,
    alloc: Global,
    shelf: &mut MemShelf,
    name: &str,
    old: u8,
    new: u8,
) -> Result<(), Fail>
    requires here { ⟦<MemShelf as Shelf>⟧.places shelf.old name.now ≢ out }
{
    let Ok(mut disk) = shelf.take(alloc, name, Mode::Write) else {
        return Err(Fail::new("the file wasn't given"));
    };
    assert!(rt; shelf.get(name).is_none());
    assert_eq!(rt; disk.content(), [old].as_slice());
    assert_eq!(rt; disk.write_at(0, &[new]), Ok(()));
    shelf.put_back(name, disk);
    Ok(())
}

fn content_is(rt: &impl Abort, shelf: &MemShelf, name: &str, wanted: Option<&[u8]>) {
    let content = match shelf.get(name) {
        Some(disk) => Some(disk.content()),
        None => None,
    };
    assert_eq!(rt; content, wanted, "of {name}");
}

#[test]
fn a_shelf_gives_and_takes_back(rt: HostRuntime) -> Result<(), Fail> {
    let mut shelf = shelf(rt.alloc(), &[])?;
    write_over(&rt, rt.alloc(), &mut shelf, "b", 2, 3)?;
    content_is(&rt, &shelf, "a", Some(&[1]));
    content_is(&rt, &shelf, "b", Some(&[3]));
    content_is(&rt, &shelf, "c", None);
    Ok(())
}

// Each row is a name, what it is taken for, the calls that are to fail, and the length of the file or the refusal.
const TAKES: &[(&str, Mode, &[u64], Result<usize, TakeError>)] = &[
    ("c", Mode::Read, &[0], Err(TakeError::Absent)),
    ("c", Mode::Read, &[], Err(TakeError::Absent)),
    ("c", Mode::Write, &[0], Err(TakeError::Failed)),
    ("c", Mode::Write, &[1], Ok(0)),
    ("a", Mode::Read, &[0], Err(TakeError::Failed)),
    ("a", Mode::Read, &[1], Ok(1)),
    ("a", Mode::Write, &[], Ok(1)),
];

fn length_taken(
    alloc: Global,
    shelf: &mut MemShelf,
    name: &str,
    mode: Mode,
) -> Result<usize, TakeError>
    requires here { ⟦<MemShelf as Shelf>⟧.places shelf.old name.now ≢ out }
{
    Ok(shelf.take(alloc, name, mode)?.content().len())
}

#[test]
fn a_shelf_answers_absent_before_it_fails(rt: HostRuntime) -> Result<(), Fail> {
    for (name, mode, failing, wanted) in TAKES {
        let mut shelf = shelf(rt.alloc(), failing)?;
        assert_eq!(rt;
            length_taken(rt.alloc(), &mut shelf, name, *mode),
            *wanted,
            "at {name}"
        );
    }
    Ok(())
}

const FOLDER: &str = "disk_model_test";

const FILE: &str = "disk_model_test/a.foz";

fn take_file(
    alloc: Global,
    shelf: &mut FolderShelf<HostRuntime>,
    mode: Mode,
) -> Result<FileDisk, Fail> {
    match shelf.take(alloc, FILE, mode) {
        Ok(disk) => Ok(disk),
        Err(_) => Err(Fail::new("the file wasn't given")),
    }
}

fn is_refused(
    rt: &impl Abort,
    alloc: Global,
    shelf: &mut FolderShelf<HostRuntime>,
    name: &str,
    mode: Mode,
    wanted: TakeError,
) {
    let taken = match shelf.take(alloc, name, mode) {
        Ok(_) => None,
        Err(error) => Some(error),
    };
    assert_eq!(rt; taken, Some(wanted), "at {name}");
}

// Writes into a new file, in which [a, b, x, y] stands afterwards.
fn file_is_written(rt: &impl Abort, disk: &mut FileDisk) {
    assert_eq!(rt; disk.write_at(0, b"abcd"), Ok(()));
    assert_eq!(rt; disk.write_at(2, b"xyz"), Ok(()));
    assert_eq!(rt; disk.write_at(6, b"x"), Err(Failed));
    assert_eq!(rt; disk.cut(6), Err(Failed));
    assert_eq!(rt; disk.cut(4), Ok(()));
    assert_eq!(rt; disk.sync(), Ok(()));
}

// Reads that file, which was taken to be read alone.
fn file_is_read(rt: &impl Abort, disk: &mut FileDisk) {
    let mut bytes = [0; 3];
    assert_eq!(rt; disk.len(), Ok(4));
    assert_eq!(rt; disk.read_at(1, &mut bytes), Ok(()));
    assert_eq!(rt; bytes, *b"bxy");
    assert_eq!(rt; disk.read_at(2, &mut bytes), Err(Failed));
    assert_eq!(rt; disk.write_at(0, b"z"), Err(Failed));
}

#[test]
fn a_folder_gives_its_files(rt: HostRuntime) -> Result<(), Fail> {
    let alloc = rt.alloc();
    let _ = fs::remove_dir_all(&rt, FOLDER);
    fs::create_dir(&rt, FOLDER)?;
    let mut shelf = FolderShelf::new(rt);
    is_refused(&rt, alloc, &mut shelf, FILE, Mode::Read, TakeError::Absent);
    is_refused(
        &rt,
        alloc,
        &mut shelf,
        "disk_model_test/b/a.foz",
        Mode::Write,
        TakeError::Failed,
    );
    let mut disk = take_file(alloc, &mut shelf, Mode::Write)?;
    file_is_written(&rt, &mut disk);
    shelf.put_back(FILE, disk);
    assert_eq!(rt; fs::read(&rt, FILE)?.as_slice(), b"abxy".as_slice());
    let mut disk = take_file(alloc, &mut shelf, Mode::Read)?;
    file_is_read(&rt, &mut disk);
    fs::remove_dir_all(&rt, FOLDER)?;
    Ok(())
}

#[test]
fn the_standard_streams_take_and_give(rt: HostRuntime) -> Result<(), Fail> {
    let mut sink = StdSink::output(rt.stdout());
    assert_eq!(rt; sink.write(&[]), Ok(0));
    let mut errors = StdSink::errors(rt.stderr());
    assert_eq!(rt; errors.write(b""), Ok(0));
    let mut source = StdSource::new(rt.stdin());
    assert_eq!(rt; source.read(&mut []), Ok(0));
    Ok(())
}
