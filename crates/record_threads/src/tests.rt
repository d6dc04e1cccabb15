//! What contracts don't say: that each key comes out once whichever seats record it, and what a recorder answers over a
//! disk that fails.
ghost use Rattle.std.specs.Prelude.{◌≡◌, ◌+◌, ◌≤◌, ◌<◌, length, IfSome};
ghost use Rattle.turn_desk.specs.Seats.{view_of, IsSameSeat, IsOutside};
ghost use Rattle.record_threads.specs.Seats.{IsSeatAt};

use crate::{Prepared, Receipt, RecordSeat, Recorder};
use disk_model::MemDisk;
use foz_entry::Entry;
use foz_words::{Key, Row};
use record_dedup::{Ack, Book, FlushError, RecordError};
use std::alloc::Global;
use std::process::Abort;
use std::sync::Wait;
use std::test::Fail;

// An archive without entries.
const EMPTY: &[u8] = b"\x81FOSSILIZEDB\0\0\0\x06\0";

// The keys that are drawn have hashes below this one.
const KEYS: u64 = 40;

fn opened(alloc: Global, failing: &[u64]) -> Option<Book<MemDisk>> {
    let bytes = EMPTY.to_vec(alloc).ok()?;
    let failing = failing.to_vec(alloc).ok()?;
    let disk = MemDisk::new(alloc, bytes, 100_000, 1000, failing).ok()?;
    Book::open(alloc, disk).ok()
}

/// A recorder over an archive without entries, on a disk that fails at these calls. None where there is no memory.
fn shared(alloc: Global, failing: &[u64]) -> Option<(Recorder<MemDisk>, RecordSeat<MemDisk>)>
    ensures seat { IfSome result (λ r. IsSeatAt r.0 r.1 × IsOutside r.1) }
    ensures root { IfSome result (λ r. ((view_of r.1).number ≡ 0) × ((view_of r.1).turns ≡ 0)) }
    ensures counts { IfSome result (λ r. ((view_of r.1).out ≡ 0) × ((view_of r.1).made ≡ 1)) }
{
    let book = opened(alloc, failing)?;
    Recorder::new(alloc, book).ok()
}

fn prepared(alloc: Global, hash: u64, payload: &[u8]) -> Option<Prepared> {
    Some(Prepared {
        key: Key { tag: 1, hash },
        payload: Row::from_vec(payload.to_vec(alloc).ok()?),
    })
}

/// Records the key of this hash, with the hash as its payload.
fn record_hash<R: Wait>(
    rt: &R,
    alloc: Global,
    recorder: &Recorder<MemDisk>,
    seat: &mut RecordSeat<MemDisk>,
    hash: u64,
)
    requires seat { IsSeatAt recorder.now seat.old }
    requires outside { IsOutside seat.old }
    requires turns { (view_of seat.old).turns < 4294967294 }
    ensures same { IsSameSeat seat.old seat.new }
    ensures outside { IsOutside seat.new }
    ensures turns { (view_of seat.new).turns ≤ (view_of seat.old).turns + 1 }
{
    let Some(prepared) = prepared(alloc, hash, &[(hash % 256) as u8]) else {
        return;
    };
    let _ = recorder.record(rt, seat, &prepared);
}

/// Records keys that are drawn from this seed on, then each key, and flushes.
fn record_drawn<R: Wait>(
    rt: &R,
    alloc: Global,
    recorder: &Recorder<MemDisk>,
    mut seat: RecordSeat<MemDisk>,
    seed: u32,
) -> RecordSeat<MemDisk>
    requires seat { IsSeatAt recorder.now seat }
    requires outside { IsOutside seat }
    requires turns { (view_of seat).turns ≡ 0 }
    ensures same { IsSameSeat seat result }
    ensures outside { IsOutside result }
{
    let mut drawn = seed;
    for counter in 0..400u32 {
        let _ = counter;
        drawn = drawn.wrapping_mul(1_664_525).wrapping_add(1_013_904_223);
        record_hash(
            rt,
            alloc,
            recorder,
            &mut seat,
            u64::from(drawn >> 16) % KEYS,
        );
    }
    for hash in 0..KEYS {
        record_hash(rt, alloc, recorder, &mut seat, hash);
    }
    let _ = recorder.flush(rt, &mut seat);
    seat
}

/// Two seats of one thread.
fn closed_by_two_seats<R: Wait>(rt: &R, alloc: Global) -> Option<Book<MemDisk>> {
    let (recorder, mut root) = shared(alloc, &[])?;
    let one = recorder.split(&mut root);
    let two = recorder.split(&mut root);
    let one = record_drawn(rt, alloc, &recorder, one, 1);
    let two = record_drawn(rt, alloc, &recorder, two, 2);
    recorder.join(&mut root, two);
    recorder.join(&mut root, one);
    Some(recorder.close(root))
}

/// Each key stands there once, with its payload.
fn each_key_is_there_once(rt: &impl Abort, entries: &[Entry]) {
    assert_eq!(rt; entries.len(), 40);
    let mut counts = [0u32; 40];
    for entry in entries {
        let hash = entry.head.key.hash;
        if hash < KEYS {
            counts[hash as usize] = counts[hash as usize].saturating_add(1);
            assert_eq!(rt; entry.payload.as_slice(), [hash as u8].as_slice());
        }
    }
    assert_eq!(rt; counts, [1; 40]);
}

fn holds_each_key(rt: &impl Abort, book: &Book<MemDisk>) {
    each_key_is_there_once(rt, book.entries());
    assert_eq!(rt; book.flushed(), 40);
}

#[test]
fn two_seats_record_each_key_once(rt: HostRuntime) -> Result<(), Fail> {
    match closed_by_two_seats(&rt, rt.alloc()) {
        Some(book) => holds_each_key(&rt, &book),
        None => panic!(rt; "no memory"),
    }
    Ok(())
}

/// What two seats are answered over a disk that fails at the first flush, and what the book then has.
#[derive(Drop)]
struct BrokenAnswers {
    first: Result<Receipt, RecordError>,
    failed: Result<u32, FlushError>,
    later: Result<Receipt, RecordError>,
    flushed: Result<u32, FlushError>,
    entries: usize,
    in_file: u32,
}

fn answers_when_broken<R: Wait>(rt: &R, alloc: Global) -> Option<BrokenAnswers> {
    let prepared = prepared(alloc, 7, b"seven")?;
    // The opening makes five calls.
    let (recorder, mut root) = shared(alloc, &[5])?;
    let mut one = recorder.split(&mut root);
    let mut two = recorder.split(&mut root);
    let first = recorder.record(rt, &mut one, &prepared);
    let failed = recorder.flush(rt, &mut two);
    let later = recorder.record(rt, &mut two, &prepared);
    let flushed = recorder.flush(rt, &mut one);
    recorder.join(&mut root, one);
    recorder.join(&mut root, two);
    let book = recorder.close(root);
    Some(BrokenAnswers {
        first,
        failed,
        later,
        flushed,
        entries: book.entries().len(),
        in_file: book.flushed(),
    })
}

fn is_broken_for_all(rt: &impl Abort, answers: &BrokenAnswers) {
    let new = Receipt {
        ack: Ack::New { index: 0 },
        at: 0,
    };
    assert_eq!(rt; answers.first, Ok(new));
    assert_eq!(rt; answers.failed, Err(FlushError::DiskFault));
    assert_eq!(rt; answers.later, Err(RecordError::Broken));
    assert_eq!(rt; answers.flushed, Err(FlushError::Broken));
    assert_eq!(rt; answers.entries, 1);
    assert_eq!(rt; answers.in_file, 0);
}

#[test]
fn a_disk_that_fails_under_one_seat_breaks_the_book_for_all(rt: HostRuntime) -> Result<(), Fail> {
    match answers_when_broken(&rt, rt.alloc()) {
        Some(answers) => is_broken_for_all(&rt, &answers),
        None => panic!(rt; "no memory"),
    }
    Ok(())
}

/// A payload that is recorded under a hash, and what is answered.
#[derive(Clone, Copy)]
struct Recorded {
    hash: u64,
    payload: &'static [u8],
    answer: Result<Receipt, RecordError>,
}

const RECORDED: &[Recorded] = &[
    Recorded {
        hash: 1,
        payload: b"one",
        answer: Ok(Receipt {
            ack: Ack::New { index: 0 },
            at: 0,
        }),
    },
    Recorded {
        hash: 1,
        payload: b"ONE",
        answer: Err(RecordError::Collision { index: 0 }),
    },
    Recorded {
        hash: 2,
        payload: b"",
        answer: Ok(Receipt {
            ack: Ack::New { index: 1 },
            at: 2,
        }),
    },
    Recorded {
        hash: 1,
        payload: b"one",
        answer: Ok(Receipt {
            ack: Ack::Known { index: 0 },
            at: 3,
        }),
    },
];

fn answer_to<R: Wait>(
    rt: &R,
    alloc: Global,
    recorder: &Recorder<MemDisk>,
    seat: &mut RecordSeat<MemDisk>,
    recorded: &Recorded,
) -> Result<Receipt, RecordError>
    requires seat { IsSeatAt recorder.now seat.old }
    requires outside { IsOutside seat.old }
    requires turns { (view_of seat.old).turns < 4294967294 }
    ensures same { IsSameSeat seat.old seat.new }
    ensures outside { IsOutside seat.new }
    ensures turns { (view_of seat.new).turns ≤ (view_of seat.old).turns + 1 }
{
    let Some(prepared) = prepared(alloc, recorded.hash, recorded.payload) else {
        return Err(RecordError::Memory);
    };
    recorder.record(rt, seat, &prepared)
}

fn are_answered<R: Wait + Abort>(
    rt: &R,
    alloc: Global,
    recorder: &Recorder<MemDisk>,
    seat: &mut RecordSeat<MemDisk>,
    recorded: &[Recorded],
)
    requires seat { IsSeatAt recorder.now seat.old }
    requires outside { IsOutside seat.old }
    requires turns { (view_of seat.old).turns ≡ 0 }
    requires few { length recorded.now < 1000 }
{
    for one in recorded {
        let answer = answer_to(rt, alloc, recorder, seat, one);
        assert_eq!(rt; answer, one.answer);
    }
}

#[test]
fn another_payload_under_a_held_key_is_refused(rt: HostRuntime) -> Result<(), Fail> {
    let alloc = rt.alloc();
    match shared(alloc, &[]) {
        Some((recorder, mut root)) => are_answered(&rt, alloc, &recorder, &mut root, RECORDED),
        None => panic!(rt; "no memory"),
    }
    Ok(())
}

/// A payload that is longer by a byte than any entry's.
fn longer(alloc: Global) -> Option<Prepared> {
    let bytes = vec![in alloc; 7; 16_777_217].ok()?;
    Some(Prepared {
        key: Key { tag: 1, hash: 1 },
        payload: Row::from_vec(bytes),
    })
}

fn answer_to_longer<R: Wait>(rt: &R, alloc: Global) -> Option<Result<Receipt, RecordError>> {
    let prepared = longer(alloc)?;
    let (recorder, mut root) = shared(alloc, &[])?;
    Some(recorder.record(rt, &mut root, &prepared))
}

#[test]
fn a_payload_that_is_too_large_is_refused(rt: HostRuntime) -> Result<(), Fail> {
    let answer = answer_to_longer(&rt, rt.alloc());
    let size = 16_777_217;
    assert_eq!(rt; answer, Some(Err(RecordError::TooLarge { size })));
    Ok(())
}
