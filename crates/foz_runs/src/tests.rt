//! What contracts don't say: the printed texts, on files as they lie in the world, and failures in mid-stream.
mod check;
mod hash;
mod limits;
mod list;
mod put;
mod realistic;
mod record;
mod replay;
mod texts;
mod threads;
mod words;
mod worker;

ghost use Rattle.std.specs.Prelude.{◌≡◌, ◌≢◌, ◌<◌, ◌≤◌, ℕ, List, false, length, All, IfOk};
ghost use Rattle.disk_model.specs.Place.{out};

use disk_model::{MemDisk, MemShelf, MemSink, MemSource, Shelf};
use driver_check::CheckDriver;
use foz_tool::{Host, run};
use foz_words::{Key, Row};
use mem_slot::{Act, MemSlot};
use slot_log::Slot;
use std::alloc::Global;
use std::process::Abort;
use std::sync::Wait;
use std::test::Fail;
use std::thread::Threads;

const HEADER: &[u8] = b"\x81FOSSILIZEDB\0\0\0\x06";

// The byte that closes an archive.
const END: &[u8] = b"\0";

// An entry of tag 1 and hash 1 without a payload and without a checksum.
const EMPTY: &[u8] = b"0000000000000000000000010000000000000001\0\0\0\0\x01\0\0\0\0\0\0\0\0\0\0\0";

// An entry of tag 1 and hash 2 with the payload 123456789 and its checksum.
const NINE: &[u8] =
    b"0000000000000000000000010000000000000002\x09\0\0\0\x01\0\0\0\x26\x39\xf4\xcb\x09\0\0\0123456789";

// The same with a checksum that is one too great.
const NINE_DAMAGED: &[u8] =
    b"0000000000000000000000010000000000000002\x09\0\0\0\x01\0\0\0\x27\x39\xf4\xcb\x09\0\0\0123456789";

// A compressed entry of tag 4 and hash 7.
const DEFLATE: &[u8] =
    b"0000000000000000000000040000000000000007\x02\0\0\0\x02\0\0\0\0\0\0\0\x64\0\0\0\x78\x9c";

// No file that is refused by its first bytes.
const NO_ARCHIVE: &[u8] = &[255; 18];

// No file of a table is longer,
const ROOM: u64 = 1000;

// nor what is said on the errors.
const ERRORS_ROOM: usize = 1000;

/// What a worker does over an item.
#[derive(Clone, Copy)]
enum Deed<'a> {
    Answers(u32),
    Dies,
    /// It sends these bytes.
    Sends(&'a [u8]),
}

/// A slot of the crew: which of its starts fail, and what its workers do over these items. They answer 0 over the others.
#[derive(Clone, Copy)]
struct Place<'a> {
    failing_starts: &'a [u32],
    deeds: &'a [(Key, Deed<'a>)],
}

// A slot whose workers do all work.
const WORKS: Place<'static> = Place {
    failing_starts: &[],
    deeds: &[],
};

/// What a run is given: its words, the parts of a.foz, which may be absent, the input, the slots for workers, and which calls
/// fail of the disk of a.foz, of the shelf, of the input and of the output.
#[derive(Clone, Copy)]
struct Given<'a> {
    words: &'a str,
    file: Option<&'a [&'a [u8]]>,
    input: &'a [u8],
    crew: &'a [Place<'a>],
    disk_failing: &'a [u64],
    shelf_failing: &'a [u64],
    input_failing: &'a [u64],
    output_failing: &'a [u64],
}

// No file and no input, one slot, and no call fails.
const NOTHING: Given<'static> = Given {
    words: "",
    file: None,
    input: b"",
    crew: &[WORKS],
    disk_failing: &[],
    shelf_failing: &[],
    input_failing: &[],
    output_failing: &[],
};

/// What a run comes to: its status, its output and errors, and the parts of a.foz afterwards.
#[derive(Clone, Copy)]
struct Wanted<'a> {
    status: u8,
    output: &'a [u8],
    errors: &'a str,
    file: Option<&'a [&'a [u8]]>,
}

type Case = (Given<'static>, Wanted<'static>);

type MemHost = Host<MemSource, MemSink, MemShelf, MemSlot, CheckDriver>;

/// The parts of a file in a row.
fn joined(alloc: Global, parts: &[&[u8]]) -> Result<Vec<u8>, Fail> {
    let mut bytes = Vec::new(alloc);
    for part in parts {
        bytes.extend_from_slice(part)?;
    }
    Ok(bytes)
}

/// The words that stand between blanks, none of an empty text.
fn words_of(alloc: Global, text: &str) -> Result<Vec<String>, Fail> {
    let mut words = Vec::new(alloc);
    if text.is_empty() {
        return Ok(words);
    }
    for word in text.split(' ') {
        words.push(String::from_str(alloc, word)?)?;
    }
    Ok(words)
}

/// A shelf on which a.foz has these bytes, if any, and so much room.
fn shelf_of(
    alloc: Global,
    file: Option<Vec<u8>>,
    room: u64,
    given: &Given<'_>,
) -> Result<MemShelf, Fail>
    ensures nothing_out { IfOk result (λ shelf. (name : List ℕ) → ⟦<MemShelf as Shelf>⟧.places shelf name ≢ out) }
{
    let mut files = Vec::new(alloc);
    if let Some(bytes) = file {
        let failing = Vec::from_slice(alloc, given.disk_failing)?;
        let disk = MemDisk::new(alloc, bytes, room, 1000, failing)?;
        files.push((String::from_str(alloc, "a.foz")?, disk))?;
    }
    let failing = Vec::from_slice(alloc, given.shelf_failing)?;
    Ok(MemShelf::new(files, room, 1000, failing))
}

// No test has a longer input.
const MOST_INPUT: usize = 134_217_728;

fn act_of(alloc: Global, deed: &Deed<'_>) -> Result<Act, Fail> {
    match deed {
        Deed::Answers(code) => Ok(Act::Code(*code)),
        Deed::Dies => Ok(Act::Die),
        Deed::Sends(bytes) => Ok(Act::Raw(Row::from_vec(Vec::from_slice(alloc, bytes)?))),
    }
}

/// A slot, with room for the log of a small replay.
fn slot_of(alloc: Global, place: &Place<'_>) -> Result<MemSlot, Fail>
    ensures at_rest { IfOk result (λ slot. ⟦<MemSlot as Slot>⟧.running slot ≡ false) }
{
    let mut acts = Vec::new(alloc);
    for (key, deed) in place.deeds {
        acts.push((*key, act_of(alloc, deed)?))?;
    }
    let failing = Vec::from_slice(alloc, place.failing_starts)?;
    Ok(MemSlot::new(alloc, failing, acts, 100, 5000)?)
}

fn crew_of(alloc: Global, places: &[Place<'_>]) -> Result<Vec<MemSlot>, Fail>
    ensures count { IfOk result (λ crew. length crew.items ≡ length places.now) }
    ensures at_rest { IfOk result (λ crew. All (λ slot. ⟦<MemSlot as Slot>⟧.running slot ≡ false) crew.items) }
{
    let mut crew = Vec::new(alloc);
    for place in places {
        crew.push(slot_of(alloc, place)?)?;
    }
    Ok(crew)
}

/// An outside with this shelf, whose driver has created nothing.
fn host_of(
    rt: &impl Abort,
    alloc: Global,
    files: MemShelf,
    given: &Given<'_>,
) -> Result<MemHost, Fail>
    requires nothing_out { (name : List ℕ) → ⟦<MemShelf as Shelf>⟧.places files name ≢ out }
    ensures nothing_out { IfOk result (λ host. (name : List ℕ) → ⟦<MemShelf as Shelf>⟧.places host.files name ≢ out) }
    ensures some { IfOk result (λ host. (0 < length host.crew.items) × (length host.crew.items ≤ 16)) }
    ensures at_rest { IfOk result (λ host. All (λ slot. ⟦<MemSlot as Slot>⟧.running slot ≡ false) host.crew.items) }
{
    assert!(rt; (1..=16).contains(&given.crew.len()));
    let crew = crew_of(alloc, given.crew)?;
    let input = Vec::from_slice(alloc, given.input)?;
    assert!(rt; input.len() <= MOST_INPUT);
    let input_failing = Vec::from_slice(alloc, given.input_failing)?;
    let output_failing = Vec::from_slice(alloc, given.output_failing)?;
    Ok(Host {
        input: MemSource::new(input, 100_000, input_failing),
        output: MemSink::new(alloc, 20_000, 7, output_failing)?,
        errors: MemSink::new(alloc, ERRORS_ROOM, 7, Vec::new(alloc))?,
        files,
        crew,
        driver: CheckDriver::new(alloc),
    })
}

/// What a run leaves: the status, the output and the errors, and the bytes of a.foz.
#[derive(Drop)]
struct Left {
    status: u8,
    output: Vec<u8>,
    errors: Vec<u8>,
    file: Option<Vec<u8>>,
}

/// Runs the program over a shelf on which a.foz has these bytes, if any, and so much room.
fn run_over(
    rt: &(impl Abort + Wait + Threads + Sync),
    alloc: Global,
    file: Option<Vec<u8>>,
    room: u64,
    given: &Given<'_>,
) -> Result<Left, Fail> {
    let words = words_of(alloc, given.words)?;
    let shelf = shelf_of(alloc, file, room, given)?;
    let mut host = host_of(rt, alloc, shelf, given)?;
    let status = run(rt, alloc, words.as_slice(), &mut host);
    left_of(alloc, status, &host)
}

fn left_of(alloc: Global, status: u8, host: &MemHost) -> Result<Left, Fail> {
    let file = match host.files.get("a.foz") {
        Some(disk) => Some(Vec::from_slice(alloc, disk.content())?),
        None => None,
    };
    Ok(Left {
        status,
        output: Vec::from_slice(alloc, host.output.written())?,
        errors: Vec::from_slice(alloc, host.errors.written())?,
        file,
    })
}

fn file_of(alloc: Global, parts: Option<&[&[u8]]>) -> Result<Option<Vec<u8>>, Fail> {
    match parts {
        Some(parts) => Ok(Some(joined(alloc, parts)?)),
        None => Ok(None),
    }
}

fn expect_answer(rt: &impl Abort, given: &Given<'_>, left: &Left, wanted: &Wanted<'_>) {
    assert_eq!(rt;
        left.errors.as_slice(),
        wanted.errors.as_bytes(),
        "{}",
        given.words
    );
    assert_eq!(rt; left.output.as_slice(), wanted.output, "{}", given.words);
    assert_eq!(rt; left.status, wanted.status, "{}", given.words);
}

fn expect_file(rt: &impl Abort, given: &Given<'_>, left: Option<&[u8]>, wanted: Option<&[u8]>) {
    match (left, wanted) {
        (Some(left), Some(wanted)) => assert!(rt; left == wanted, "{}", given.words),
        (None, None) => {}
        _ => assert!(rt; false, "{}: one file is absent", given.words),
    }
}

fn expect_case(
    rt: &(impl Abort + Wait + Threads + Sync),
    alloc: Global,
    given: &Given<'_>,
    wanted: &Wanted<'_>,
) -> Result<(), Fail> {
    let left = run_over(rt, alloc, file_of(alloc, given.file)?, ROOM, given)?;
    expect_answer(rt, given, &left, wanted);
    let file = file_of(alloc, wanted.file)?;
    expect_file(rt, given, left.file.as_deref(), file.as_deref());
    Ok(())
}

/// Each run of a table comes to what is wanted.
fn expect_cases(
    rt: &(impl Abort + Wait + Threads + Sync),
    alloc: Global,
    cases: &[Case],
) -> Result<(), Fail> {
    for (given, wanted) in cases {
        expect_case(rt, alloc, given, wanted)?;
    }
    Ok(())
}
