//! What contracts don't say: the bytes of worked examples, and what a crash leaves of a flush.
use crate::{Ack, Book, FlushError, RecordError};
use disk_model::MemDisk;
use foz_words::Key;
use std::alloc::Global;
use std::process::Abort;
use std::test::Fail;

const HEADER: &[u8] = b"\x81FOSSILIZEDB\0\0\0\x06";

// The entry of tag 1 and hash 1 without a payload, and that of tag 1 and hash 2 with the payload "123456789", once as it
// is and once with another checksum.
const FIRST: &[u8] = b"0000000000000000000000010000000000000001\0\0\0\0\x01\0\0\0\0\0\0\0\0\0\0\0";

const SECOND: &[u8] =
    b"0000000000000000000000010000000000000002\x09\0\0\0\x01\0\0\0\x26\x39\xF4\xCB\x09\0\0\0123456789";

const DAMAGED: &[u8] =
    b"0000000000000000000000010000000000000002\x09\0\0\0\x01\0\0\0\x27\x39\xF4\xCB\x09\0\0\0123456789";

// The first 64 bytes of SECOND.
const TORN: &[u8] =
    b"0000000000000000000000010000000000000002\x09\0\0\0\x01\0\0\0\x26\x39\xF4\xCB\x09\0\0\012345678";

const FIRST_KEY: Key = Key { tag: 1, hash: 1 };

const SECOND_KEY: Key = Key { tag: 1, hash: 2 };

/// A payload that is recorded under a key, and what is answered.
#[derive(Clone, Copy)]
struct Recorded {
    key: Key,
    payload: &'static [u8],
    answer: Result<Ack, RecordError>,
}

const FIRST_IS_NEW: Recorded = Recorded {
    key: FIRST_KEY,
    payload: b"",
    answer: Ok(Ack::New { index: 0 }),
};

const SECOND_IS_NEW: Recorded = Recorded {
    key: SECOND_KEY,
    payload: b"123456789",
    answer: Ok(Ack::New { index: 0 }),
};

const SECOND_IS_NEXT: Recorded = Recorded {
    key: SECOND_KEY,
    payload: b"123456789",
    answer: Ok(Ack::New { index: 1 }),
};

const SECOND_IS_KNOWN: Recorded = Recorded {
    key: SECOND_KEY,
    payload: b"123456789",
    answer: Ok(Ack::Known { index: 0 }),
};

const SECOND_COLLIDES: Recorded = Recorded {
    key: SECOND_KEY,
    payload: b"12345678",
    answer: Err(RecordError::Collision { index: 0 }),
};

fn joined(alloc: Global, parts: &[&[u8]]) -> Result<Vec<u8>, Fail> {
    let mut bytes = Vec::new(alloc);
    for part in parts {
        bytes.extend_from_slice(part)?;
    }
    Ok(bytes)
}

/// A book over these bytes, on a disk that fails at these calls.
fn book(alloc: Global, parts: &[&[u8]], failing: &[u64]) -> Result<Book<MemDisk>, Fail> {
    let bytes = joined(alloc, parts)?;
    let failing = failing.to_vec(alloc)?;
    opened(alloc, MemDisk::new(alloc, bytes, 1000, 100, failing)?)
}

fn opened(alloc: Global, disk: MemDisk) -> Result<Book<MemDisk>, Fail> {
    match Book::open(alloc, disk) {
        Ok(book) => Ok(book),
        Err(_) => Err(Fail::new("the file was refused")),
    }
}

fn is_answered(rt: &impl Abort, book: &mut Book<MemDisk>, recorded: &[Recorded]) {
    for one in recorded {
        assert_eq!(rt; book.record(one.key, one.payload), one.answer);
    }
}

fn content_is(rt: &impl Abort, alloc: Global, disk: &MemDisk, parts: &[&[u8]]) -> Result<(), Fail> {
    let wanted = joined(alloc, parts)?;
    assert_eq!(rt; disk.content(), wanted.as_slice());
    Ok(())
}

/// Flushes a book: so many entries then stand in the file. Gives where they end.
fn flushes(rt: &impl Abort, book: &mut Book<MemDisk>, count: u32) -> u64 {
    assert_eq!(rt; book.flush(), Ok(count));
    assert_eq!(rt; book.flushed(), count);
    book.end()
}

/// The disk of a book over these bytes once this was recorded and flushed, and where its entries end.
fn written(
    rt: &impl Abort,
    alloc: Global,
    before: &[&[u8]],
    recorded: &[Recorded],
    count: u32,
) -> Result<(MemDisk, u64), Fail> {
    let mut book = book(alloc, before, &[])?;
    is_answered(rt, &mut book, recorded);
    let end = flushes(rt, &mut book, count);
    Ok((book.close(), end))
}

/// Records in a book over these bytes, and flushes it: so many entries then stand in the file, and these are its bytes.
fn leaves(
    rt: &impl Abort,
    alloc: Global,
    before: &[&[u8]],
    recorded: &[Recorded],
    count: u32,
    after: &[&[u8]],
) -> Result<(), Fail> {
    let (disk, end) = written(rt, alloc, before, recorded, count)?;
    ends_at(rt, &disk, end);
    content_is(rt, alloc, &disk, after)
}

/// The byte at this place is the last one.
fn ends_at(rt: &impl Abort, disk: &MemDisk, end: u64) {
    assert_eq!(rt; end.checked_add(1), Some(disk.content().len() as u64));
}

#[test]
fn a_key_is_recorded_once(rt: HostRuntime) -> Result<(), Fail> {
    let alloc = rt.alloc();
    let made = &[HEADER, SECOND, b"\0"];
    leaves(&rt, alloc, &[], &[SECOND_IS_NEW], 1, made)?;
    leaves(
        &rt,
        alloc,
        made,
        &[SECOND_IS_KNOWN, SECOND_COLLIDES],
        1,
        made,
    )
}

#[test]
fn a_torn_entry_is_recorded_over(rt: HostRuntime) -> Result<(), Fail> {
    leaves(
        &rt,
        rt.alloc(),
        &[HEADER, TORN],
        &[FIRST_IS_NEW],
        1,
        &[HEADER, FIRST, b"\0"],
    )
}

#[test]
fn two_entries_are_one_batch(rt: HostRuntime) -> Result<(), Fail> {
    leaves(
        &rt,
        rt.alloc(),
        &[HEADER, b"\0"],
        &[FIRST_IS_NEW, SECOND_IS_NEXT],
        2,
        &[HEADER, FIRST, SECOND, b"\0"],
    )
}

#[test]
fn the_first_undamaged_entry_holds_a_key(rt: HostRuntime) -> Result<(), Fail> {
    let mut book = book(rt.alloc(), &[HEADER, DAMAGED, FIRST, FIRST, SECOND], &[])?;
    let recorded = [
        Recorded {
            key: FIRST_KEY,
            payload: b"",
            answer: Ok(Ack::Known { index: 1 }),
        },
        Recorded {
            key: SECOND_KEY,
            payload: b"123456789",
            answer: Ok(Ack::Known { index: 3 }),
        },
        Recorded {
            key: SECOND_KEY,
            payload: b"",
            answer: Err(RecordError::Collision { index: 3 }),
        },
    ];
    is_answered(&rt, &mut book, &recorded);
    Ok(())
}

// What a crash may leave where written bytes are these, as the file is at its shortest and at its longest.
const FILLS: [u8; 3] = [0x00, 0x30, 0x61];

const KEEPS: [u64; 2] = [0, 1000];

// The calls of the disk before the flush are five: sync, len, read_at, and of the gate len and read_at. Its own four are
// 5 to 8, and each of them in turn is the last one, and fails.
const FLUSH_CALLS: [u64; 4] = [5, 6, 7, 8];

const NO_CALL: u64 = 9;

/// The disk after a flush in which this call failed.
fn stopped(rt: &impl Abort, alloc: Global, call: u64) -> Result<MemDisk, Fail> {
    let mut book = book(alloc, &[HEADER, b"\0"], &[call])?;
    is_answered(rt, &mut book, &[FIRST_IS_NEW, SECOND_IS_NEXT]);
    is_flushed(rt, &mut book, call == NO_CALL);
    Ok(book.close())
}

/// Does the flush succeed?
fn is_flushed(rt: &impl Abort, book: &mut Book<MemDisk>, wanted: bool) {
    assert_eq!(rt; book.flush().is_ok(), wanted);
}

fn has_entries(rt: &impl Abort, book: &Book<MemDisk>, count: usize) {
    assert_eq!(rt; book.entries().len(), count);
}

/// A crash then leaves so many entries.
fn crash_leaves(
    rt: &impl Abort,
    alloc: Global,
    call: u64,
    fill: u8,
    keep: u64,
    count: usize,
) -> Result<(), Fail> {
    let disk = stopped(rt, alloc, call)?;
    let after = opened(alloc, disk.crash(fill, keep))?;
    has_entries(rt, &after, count);
    Ok(())
}

#[test]
fn a_stop_in_a_flush_leaves_all_or_none(rt: HostRuntime) -> Result<(), Fail> {
    for call in 5..10 {
        for fill in FILLS {
            for keep in KEEPS {
                let whole = call == NO_CALL || call == 8 && fill == 0x30;
                let count = if whole { 2 } else { 0 };
                crash_leaves(&rt, rt.alloc(), call, fill, keep, count)?;
            }
        }
    }
    Ok(())
}

const FIRST_IS_NEXT: Recorded = Recorded {
    key: FIRST_KEY,
    payload: b"",
    answer: Ok(Ack::New { index: 1 }),
};

const IS_BROKEN: Recorded = Recorded {
    key: SECOND_KEY,
    payload: b"123456789",
    answer: Err(RecordError::Broken),
};

fn breaks_at_a_flush(rt: &impl Abort, book: &mut Book<MemDisk>) {
    assert_eq!(rt; book.flush(), Err(FlushError::DiskFault));
    assert_eq!(rt; book.flush(), Err(FlushError::Broken));
}

/// A flush in which this call fails breaks the book.
fn breaks(rt: &impl Abort, alloc: Global, call: u64) -> Result<(), Fail> {
    let mut book = book(alloc, &[HEADER, SECOND, b"\0"], &[call])?;
    is_answered(rt, &mut book, &[FIRST_IS_NEXT]);
    breaks_at_a_flush(rt, &mut book);
    is_answered(rt, &mut book, &[IS_BROKEN]);
    Ok(())
}

#[test]
fn a_failed_flush_breaks_the_book(rt: HostRuntime) -> Result<(), Fail> {
    for call in FLUSH_CALLS {
        breaks(&rt, rt.alloc(), call)?;
    }
    Ok(())
}

fn has_many(rt: &impl Abort, book: &mut Book<MemDisk>) {
    for hash in 0..1_048_576 {
        let answer = book.record(Key { tag: 1, hash }, b"");
        assert_eq!(rt; answer, Ok(Ack::New { index: hash as u32 }));
    }
    let next = Key {
        tag: 1,
        hash: 1_048_576,
    };
    assert_eq!(rt;
        book.record(next, b""),
        Err(RecordError::TooMany { count: 1_048_576 })
    );
    assert_eq!(rt;
        book.record(Key { tag: 1, hash: 7 }, b""),
        Ok(Ack::Known { index: 7 })
    );
}

#[test]
fn as_many_keys_as_an_archive_may_have(rt: HostRuntime) -> Result<(), Fail> {
    let mut book = book(rt.alloc(), &[HEADER, b"\0"], &[])?;
    has_many(&rt, &mut book);
    Ok(())
}

/// The longest payload is recorded, and one that is longer by a byte is refused, even under a key that is held.
fn has_the_longest(rt: &impl Abort, book: &mut Book<MemDisk>, longest: &[u8], longer: &[u8]) {
    assert_eq!(rt;
        book.record(FIRST_KEY, longer),
        Err(RecordError::TooLarge { size: 16_777_217 })
    );
    assert_eq!(rt; book.record(FIRST_KEY, longest), Ok(Ack::New { index: 0 }));
    assert_eq!(rt;
        book.record(FIRST_KEY, longer),
        Err(RecordError::TooLarge { size: 16_777_217 })
    );
}

#[test]
fn the_longest_payload_is_recorded(rt: HostRuntime) -> Result<(), Fail> {
    let alloc = rt.alloc();
    let longest = vec![in alloc; 7; 16_777_216]?;
    let longer = vec![in alloc; 7; 16_777_217]?;
    let mut book = book(alloc, &[HEADER, b"\0"], &[])?;
    has_the_longest(&rt, &mut book, &longest, &longer);
    Ok(())
}
