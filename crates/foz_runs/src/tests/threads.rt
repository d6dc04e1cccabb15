//! `record` by several threads: whatever their number, each line has its answer and the file has the same entries.
ghost use Rattle.std.specs.Prelude.{◌≢◌, ℕ, List};
ghost use Rattle.disk_model.specs.Place.{out};

use super::{
    END, Given, HEADER, Left, MemHost, NOTHING, Wanted, expect_answer, file_of, host_of, run_over,
    shelf_of,
};
use disk_model::{MemShelf, Shelf};
use foz_tool::record_with;
use foz_words::Name;
use record_team::Meet;
use std::alloc::Global;
use std::process::Abort;
use std::str;
use std::sync::Wait;
use std::sync::atomic::{AtomicU64, Ordering};
use std::test::Fail;
use std::thread::Threads;

// Two lines have one state, one is refused, and one is a comment.
const LINES: &[u8] =
    b"sampler {}\nlens {}\nsampler {\"magFilter\":1}\n# none\nsampler {}\nsampler {\"magFilter\":2}\nsampler {\"magFilter\":3}\n";

const SUMMARY: &[u8] = b"\nnew 4 known 1 refused 1 entries 4\n";

const NUMBERS: &[&str] = &[
    "record a.foz --threads 1",
    "record a.foz --threads 2",
    "record a.foz --threads 4",
    "record a.foz --threads 16",
];

/// What these lines come to, recorded into a new file.
fn recorded_by(
    rt: &(impl Abort + Wait + Threads + Sync),
    alloc: Global,
    words: &str,
) -> Result<Left, Fail> {
    let given = Given {
        words,
        input: LINES,
        ..NOTHING
    };
    run_over(rt, alloc, None, 10_000, &given)
}

/// A line without the index, which the schedule decides, and without the word before it.
fn head_of(line: &str) -> &str {
    let line = match line.split_once(" new ") {
        Some((head, _)) => head,
        None => line,
    };
    match line.split_once(" known ") {
        Some((head, _)) => head,
        None => line,
    }
}

/// The two texts have the same lines, as far as the schedule doesn't decide.
fn have_same_heads(one: &str, other: &str) -> bool {
    let mut others = other.split('\n');
    for line in one.split('\n') {
        let Some(other) = others.next() else {
            return false;
        };
        if head_of(line) != head_of(other) {
            return false;
        }
    }
    others.next().is_none()
}

fn text_of(bytes: &[u8]) -> &str {
    str::from_utf8(bytes).unwrap_or("no text")
}

/// The report has the same lines, in their order.
fn expect_report(rt: &impl Abort, words: &str, alone: &[u8], several: &[u8]) {
    let alike = have_same_heads(text_of(alone), text_of(several));
    assert!(rt; alike, "{words}");
    assert!(rt; several.ends_with(SUMMARY), "{words}");
}

// The entry of each of these samplers is so long.
const ENTRY: usize = 359;

/// Does an entry stand among those of a file?
fn has_entry(entries: &[u8], entry: &[u8]) -> bool {
    entries.chunks(ENTRY).any(|other| other == entry)
}

/// The entries that stand between the header and the end of a file.
fn entries_of(file: &[u8]) -> &[u8] {
    if file.len() < 17 {
        return b"";
    }
    &file[16..file.len() - 1]
}

/// The bytes of the file that a run left.
fn file_in(left: &Left) -> &[u8] {
    match &left.file {
        Some(file) => file.as_slice(),
        None => b"",
    }
}

/// The files have the same entries.
fn expect_entries(rt: &impl Abort, words: &str, alone: &[u8], several: &[u8]) {
    assert_eq!(rt; several.len(), alone.len(), "{words}");
    assert_eq!(rt; several.len(), 17 + 4 * ENTRY, "{words}");
    let several = entries_of(several);
    for entry in entries_of(alone).chunks(ENTRY) {
        assert!(rt; has_entry(several, entry), "{words}");
    }
}

fn expect_alike(rt: &impl Abort, words: &str, alone: &Left, several: &Left) {
    assert_eq!(rt; several.status, 1, "{words}");
    assert!(rt; several.errors.is_empty(), "{words}");
    expect_report(rt, words, &alone.output, &several.output);
    let (alone, several) = (file_in(alone), file_in(several));
    expect_entries(rt, words, alone, several);
}

fn expect_same(
    rt: &(impl Abort + Wait + Threads + Sync),
    alloc: Global,
    words: &str,
    alone: &Left,
) -> Result<(), Fail> {
    let several = recorded_by(rt, alloc, words)?;
    expect_alike(rt, words, alone, &several);
    Ok(())
}

#[test]
fn any_number_of_threads_records_the_same(rt: HostRuntime) -> Result<(), Fail> {
    let alone = recorded_by(&rt, rt.alloc(), "record a.foz")?;
    for words in NUMBERS {
        expect_same(&rt, rt.alloc(), words, &alone)?;
    }
    Ok(())
}

// The opening makes five calls of the disk, and the first flush of a new entry four.
const CALLS: u64 = 9;

const TWO_LINES: &[u8] = b"sampler {}\nsampler {\"magFilter\":1}\n";

const FAILED: Wanted<'static> = Wanted {
    status: 5,
    output: b"",
    errors: "foz: disk fault\n",
    file: None,
};

/// Two threads record into an archive without entries, on whose disk this call fails.
fn expect_fault(
    rt: &(impl Abort + Wait + Threads + Sync),
    alloc: Global,
    call: u64,
) -> Result<(), Fail> {
    let failing = [call];
    let given = Given {
        words: "record a.foz --threads 2",
        input: TWO_LINES,
        disk_failing: &failing,
        ..NOTHING
    };
    let file = file_of(alloc, Some(&[HEADER, END]))?;
    let left = run_over(rt, alloc, file, 1000, &given)?;
    expect_answer(rt, &given, &left, &FAILED);
    Ok(())
}

#[test]
fn a_fault_under_two_threads_is_told(rt: HostRuntime) -> Result<(), Fail> {
    for call in 0..CALLS {
        expect_fault(&rt, rt.alloc(), call)?;
    }
    Ok(())
}

// How often a thread looks for the other before it gives up.
const LOOKS: u32 = 100_000_000;

/// A place where two threads wait for each other: each raises its flag, and looks for the other's.
#[derive(Drop)]
struct Crossing {
    first: AtomicU64,
    second: AtomicU64,
    // How often a thread saw the other's flag.
    met: AtomicU64,
}

impl Crossing {
    fn look(&self, own: &AtomicU64, other: &AtomicU64) {
        own.store(1, Ordering::SeqCst);
        for _ in 0..LOOKS {
            if other.load(Ordering::SeqCst) == 1 {
                self.met.fetch_add(1, Ordering::SeqCst);
                return;
            }
        }
    }
}

impl Meet for Crossing {
    fn at(&self, thread: u32) {
        match thread {
            0 => self.look(&self.first, &self.second),
            1 => self.look(&self.second, &self.first),
            _ => {}
        }
    }
}

const MEETING: Given<'static> = Given {
    input: TWO_LINES,
    ..NOTHING
};

/// Two threads record two lines, and come to this place before them. Gives the status.
fn status_with(
    rt: &(impl Abort + Wait + Threads + Sync),
    alloc: Global,
    crossing: &Crossing,
) -> Result<u8, Fail> {
    let shelf = shelf_of(alloc, None, 1000, &MEETING)?;
    let mut host = host_of(rt, alloc, shelf, &MEETING)?;
    let name = Name::from_string(String::from_str(alloc, "a.foz")?);
    Ok(record_with(rt, alloc, &mut host, name, 2, crossing))
}

#[test]
fn both_threads_meet(rt: HostRuntime) -> Result<(), Fail> {
    let crossing = Crossing {
        first: AtomicU64::new(0),
        second: AtomicU64::new(0),
        met: AtomicU64::new(0),
    };
    let status = status_with(&rt, rt.alloc(), &crossing)?;
    assert_eq!(rt; status, 0);
    assert_eq!(rt; crossing.met.load(Ordering::SeqCst), 2);
    Ok(())
}
