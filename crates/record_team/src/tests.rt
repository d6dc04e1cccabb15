//! What contracts don't say: that the threads of a team go over their lines side by side, and what so many threads report of
//! lines that are answered alike in any order.
ghost use Rattle.std.specs.Prelude.{◌≡◌, ◌≤◌, ◌<◌, List, [], ◌∷◌, if◌then◌else◌, length, map, IfOk};
ghost use Rattle.record_words.specs.Recorded.{read, refused};
ghost use Rattle.record_lines.specs.Lines.{line_of};

use crate::{Meet, NoMeeting, record_capture_by_team};
use disk_model::MemDisk;
use foz_entry::Entry;
use foz_words::{Key, NoMemory, Row};
use record_dedup::Book;
use record_lines::{CaptureStop, Captured, Lines, NextLine, Report};
use record_words::{Answered, LineAnswer, RecordReply};
use std::alloc::Global;
use std::hint::spin_loop;
use std::process::Abort;
use std::sync::Wait;
use std::sync::atomic::{AtomicBool, Ordering};
use std::test::Fail;
use std::thread::Threads;

// An archive without entries.
const EMPTY: &[u8] = b"\x81FOSSILIZEDB\0\0\0\x06\0";

/// A line of a capture in a table: a key's hash with its payload of one byte, or why there is none.
#[derive(Clone, Copy, Debug)]
struct Said {
    is_read: bool,
    hash: u64,
    byte: u8,
}

/// So many lines, no two of one key. Of five in a row the third can't be read.
fn table(alloc: Global, count: u8) -> Option<Vec<Said>> {
    let mut lines = Vec::new(alloc);
    for byte in 0..count {
        let line = Said {
            is_read: byte % 5 != 2,
            hash: u64::from(byte) + 10,
            byte,
        };
        lines.push(line).ok()?;
    }
    Some(lines)
}

/// The lines of a table that are still to come.
#[derive(Clone, Copy, Debug)]
struct Written<'a> {
    rest: &'a [Said],
}

fn next_of(alloc: Global, said: &Said) -> Result<NextLine<u8>, NoMemory>
    ensures { IfOk result (λ next. line_of next ≡ (if said.now.is_read then read (record { tag = 1; hash = said.now.hash }) (said.now.byte ∷ []) else refused said.now.byte)) }
{
    if !said.is_read {
        return Ok(NextLine::Refused(said.byte));
    }
    let mut payload = Row::new(alloc);
    payload.push(said.byte)?;
    Ok(NextLine::Read {
        key: Key {
            tag: 1,
            hash: said.hash,
        },
        payload,
    })
}

impl Lines for Written<'_> {
    type Cause = u8;

    ghost rest = { λ lines. map (λ said. if said.is_read then read (record { tag = 1; hash = said.hash }) (said.byte ∷ []) else refused said.byte) lines.rest.now };

    fn next(&mut self, alloc: Global) -> Result<Option<NextLine<u8>>, NoMemory> {
        let [said, rest @ ..] = self.rest else {
            return Ok(None);
        };
        let next = next_of(alloc, said)?;
        self.rest = rest;
        Ok(Some(next))
    }

    fn skip(&mut self) {
        if let [_said, rest @ ..] = self.rest {
            self.rest = rest;
        }
    }

    fn is_at_end(&self) -> bool {
        self.rest.is_empty()
    }
}

fn disk(alloc: Global, failing: &[u64]) -> Option<MemDisk> {
    let bytes = EMPTY.to_vec(alloc).ok()?;
    let failing = failing.to_vec(alloc).ok()?;
    MemDisk::new(alloc, bytes, 100_000, 1000, failing).ok()
}

/// What a team answered, and the archive that is read of its disk afterwards.
#[derive(Drop)]
struct TeamEnd {
    outcome: Result<Report<u8>, CaptureStop>,
    book: Option<Book<MemDisk>>,
}

/// So many threads record lines in an archive without entries, on a disk that fails at these calls.
fn ended<M: Meet + Sync, X: Wait + Threads + Sync>(
    rt: &X,
    alloc: Global,
    failing: &[u64],
    lines: &[Said],
    threads: u32,
    meet: &M,
) -> Option<TeamEnd>
    requires threads { (1 < threads) × (threads ≤ 16) }
{
    if lines.len() >= 1 << 29 {
        return None;
    }
    let disk = disk(alloc, failing)?;
    let Captured { disk, outcome } = record_capture_by_team(
        rt,
        alloc,
        disk,
        Written { rest: lines },
        threads,
        meet,
    );
    Some(TeamEnd {
        outcome,
        book: Book::open(alloc, disk).ok(),
    })
}

/// The line of the table that an answer is to.
fn line_of_answer<'a>(lines: &'a [Said], answered: &Answered<u8>) -> Option<&'a Said> {
    lines.get((answered.line as usize).wrapping_sub(1))
}

/// It answers what its line says: a refusal for its own cause, or a new entry of its own key. Gives the entry's index.
fn new_index(rt: &impl Abort, lines: &[Said], answered: &Answered<u8>) -> Option<u32> {
    let Some(said) = line_of_answer(lines, answered) else {
        panic!(rt; "no line");
    };
    match answered.answer {
        LineAnswer::Refused(cause) => {
            assert!(rt; !said.is_read);
            assert_eq!(rt; cause, said.byte);
            None
        }
        LineAnswer::Replied { key, reply } => {
            assert!(rt; said.is_read);
            assert_eq!(rt; key.hash, said.hash);
            match reply {
                RecordReply::New { index } => Some(index),
                _ => panic!(rt; "a key that was held"),
            }
        }
    }
}

/// The answers are those to the lines, in their order, and no two entries have one index.
fn answers_each_line(rt: &impl Abort, lines: &[Said], answers: &[Answered<u8>]) {
    assert_eq!(rt; answers.len(), lines.len());
    let mut last = 0;
    let mut given = [false; 40];
    for answered in answers {
        assert!(rt; answered.line > last);
        last = answered.line;
        if let Some(index) = new_index(rt, lines, answered) {
            assert!(rt; index < 40);
            assert!(rt; !given[index as usize]);
            given[index as usize] = true;
        }
    }
}

/// How many of the entries have the key and the payload of a line.
fn held(entries: &[Entry], said: &Said) -> usize {
    entries
        .iter()
        .filter(|entry| {
            entry.head.key.hash == said.hash && entry.payload.as_slice() == [said.byte].as_slice()
        })
        .count()
}

/// Each line that is read is held once, and there are so many entries.
fn holds_each_line(rt: &impl Abort, lines: &[Said], entries: &[Entry], count: u32) {
    assert_eq!(rt; entries.len(), count as usize);
    for said in lines {
        if said.is_read {
            assert_eq!(rt; held(entries, said), 1);
        }
    }
}

fn is_whole(rt: &impl Abort, lines: &[Said], ended: &TeamEnd) {
    match (&ended.outcome, &ended.book) {
        (Ok(report), Some(book)) => {
            answers_each_line(rt, lines, report.answers.as_slice());
            holds_each_line(rt, lines, book.entries(), report.entries);
        }
        _ => panic!(rt; "no report"),
    }
}

fn are_recorded_whole<X: Wait + Threads + Sync + Abort>(
    rt: &X,
    alloc: Global,
    lines: &[Said],
    threads: u32,
)
    requires threads { (1 < threads) × (threads ≤ 16) }
{
    match ended(rt, alloc, &[], lines, threads, &NoMeeting) {
        Some(ended) => is_whole(rt, lines, &ended),
        None => panic!(rt; "no memory"),
    }
}

#[test]
fn each_line_is_recorded_once_by_however_many_threads(rt: HostRuntime) -> Result<(), Fail> {
    let Some(lines) = table(rt.alloc(), 40) else {
        panic!(rt; "no memory");
    };
    for threads in [2, 4, 16] {
        are_recorded_whole(&rt, rt.alloc(), &lines, threads);
    }
    Ok(())
}

#[test]
fn more_threads_than_lines_record_each_once(rt: HostRuntime) -> Result<(), Fail> {
    let Some(lines) = table(rt.alloc(), 3) else {
        panic!(rt; "no memory");
    };
    are_recorded_whole(&rt, rt.alloc(), &lines, 16);
    Ok(())
}

fn is_a_fault(rt: &impl Abort, ended: &TeamEnd) {
    match (&ended.outcome, &ended.book) {
        (Err(CaptureStop::DiskFault), Some(book)) => assert_eq!(rt; book.entries().len(), 0),
        _ => panic!(rt; "not a fault"),
    }
}

/// The opening makes five calls of the disk, and the first flush the next.
fn ended_by_a_fault<X: Wait + Threads + Sync>(rt: &X, alloc: Global) -> Option<TeamEnd> {
    let lines = table(alloc, 40)?;
    ended(rt, alloc, &[5], &lines, 4, &NoMeeting)
}

#[test]
fn a_disk_that_fails_under_a_team_ends_in_a_fault(rt: HostRuntime) -> Result<(), Fail> {
    match ended_by_a_fault(&rt, rt.alloc()) {
        Some(ended) => is_a_fault(&rt, &ended),
        None => panic!(rt; "no memory"),
    }
    Ok(())
}

/// Two threads that look for each other, each before each of its lines.
#[derive(Debug, Drop)]
struct Meeting {
    here: [AtomicBool; 2],
    seen: [AtomicBool; 2],
}

impl Meet for Meeting {
    fn at(&self, thread: u32) {
        let own = (thread % 2) as usize;
        self.here[own].store(true, Ordering::SeqCst);
        for _ in 0..100_000_000u32 {
            if self.here[1 - own].load(Ordering::SeqCst) {
                self.seen[own].store(true, Ordering::SeqCst);
                return;
            }
            spin_loop();
        }
    }
}

fn recorded_by_two<X: Wait + Threads + Sync>(
    rt: &X,
    alloc: Global,
    meeting: &Meeting,
) -> Option<TeamEnd> {
    let lines = table(alloc, 2)?;
    ended(rt, alloc, &[], &lines, 2, meeting)
}

#[test]
fn both_threads_meet(rt: HostRuntime) -> Result<(), Fail> {
    let meeting = Meeting {
        here: [AtomicBool::new(false), AtomicBool::new(false)],
        seen: [AtomicBool::new(false), AtomicBool::new(false)],
    };
    let _ = recorded_by_two(&rt, rt.alloc(), &meeting);
    assert!(rt; meeting.seen[0].load(Ordering::SeqCst));
    assert!(rt; meeting.seen[1].load(Ordering::SeqCst));
    Ok(())
}
