ghost use Rattle.std.specs.Prelude.{◌≡◌, ◌≤◌, ◌↔◌, ℕ, All, IfOk, IsTrue, false, length};
ghost use Rattle.foz_entry.specs.Limits.{count_limit};
ghost use Rattle.worker_msg.specs.Frames.{limit};
ghost use Rattle.dep_graph.specs.Graphs.{IsPlanOf};
ghost use Rattle.replay_crew.specs.Jobs.{AreJobs};

use super::*;
use dep_graph::{Graph, plan_of};
use foz_entry::{Entry, stored_head};
use foz_words::{Key, Row};
use mem_slot::{Act, MemSlot};
use replay_core::Event;
use replay_crew::{Jobs, Kit, Loader, Slot, SlotEnd, SlotNote, run_slot};
use std::alloc::Global;
use std::sync::Wait;
use std::test::Fail;

// A pipeline layout without sets, under (3, 3).
const LAYOUT: &[u8] = b"{\"pipelineLayouts\":{\"0000000000000003\":{}},\"version\":6}";

// A compute module, under (4, 4): its JSON with the zero byte, and its words as varints.
const MODULE: &[u8] =
    b"{\"shaderModules\":{\"0000000000000004\":{\"codeSize\":140,\"flags\":0,\"varintOffset\":0,\"varintSize\":64}},\"version\":6}\0\x83\x84\x8C\x39\x80\x80\x04\x00\x05\x00\x91\x80\x08\x01\x8E\x80\x0C\x00\x01\x8F\x80\x14\x05\x01\xED\xC2\xA5\xF3\x06\x00\x90\x80\x18\x01\x11\x01\x01\x01\x93\x80\x08\x02\xA1\x80\x0C\x03\x02\xB6\x80\x14\x02\x01\x00\x03\xF8\x81\x08\x04\xFD\x81\x04\xB8\x80\x04";

const SET: &[u8] = b"{\"setLayouts\":{\"0000000000000002\":{}},\"version\":6}";

// A compute pipeline under (7, 7), which depends on the module and the layout.
const PIPELINE: &[u8] =
    b"{\"computePipelines\":{\"0000000000000007\":{\"layout\":\"0000000000000003\",\"stage\":{\"module\":\"0000000000000004\",\"name\":\"main\",\"stage\":32}}},\"version\":6}";

/// The four items: number and hash of the key, which are the same, and the payload.
const ITEMS: [(u64, &[u8]); 4] = [(3, LAYOUT), (4, MODULE), (2, SET), (7, PIPELINE)];

// ---- how a note of the log is written in the tables below: what it is, and the item or the number of bytes

const STARTED: (u8, usize) = (b's', 0);

const NOT_STARTED: (u8, usize) = (b'n', 0);

const DIED: (u8, usize) = (b'd', 0);

const STOPPED: (u8, usize) = (b'x', 0);

const QUIT: (u8, usize) = (b'q', 0);

/// The 21 bytes of a Reply.
const GOT: (u8, usize) = (b'g', 21);

/// A Do of the item with this number in its key.
const DO_2: (u8, usize) = (b'w', 2);

const DO_3: (u8, usize) = (b'w', 3);

const DO_4: (u8, usize) = (b'w', 4);

const DO_7: (u8, usize) = (b'w', 7);

const LOAD_3: (u8, usize) = (b'l', 3);

const LOAD_4: (u8, usize) = (b'l', 4);

/// What a worker does with the item of a number.
#[derive(Clone, Copy)]
enum Does {
    Code(u32),
    Die,
}

/// A run: what the workers do, which starts fail, and what comes of it.
#[derive(Clone, Copy)]
struct Run {
    does: &'static [(u64, Does)],
    failing: &'static [u32],
    end: SlotEnd,
    events: &'static [Event],
    log: &'static [(u8, usize)],
}

const START_0: Event = Event::Start { slot: 0, item: 0 };

const START_1: Event = Event::Start { slot: 0, item: 1 };

const START_2: Event = Event::Start { slot: 0, item: 2 };

const START_3: Event = Event::Start { slot: 0, item: 3 };

const DONE_0: Event = Event::Reply {
    slot: 0,
    item: 0,
    code: 0,
};

const DONE_1: Event = Event::Reply {
    slot: 0,
    item: 1,
    code: 0,
};

const DONE_2: Event = Event::Reply {
    slot: 0,
    item: 2,
    code: 0,
};

const DONE_3: Event = Event::Reply {
    slot: 0,
    item: 3,
    code: 0,
};

const REFUSED_1: Event = Event::Reply {
    slot: 0,
    item: 1,
    code: 12,
};

const DEATH: Event = Event::Death { slot: 0 };

const RESTART: Event = Event::Restart { slot: 0 };

const RETIRE: Event = Event::Retire { slot: 0 };

const MISS_MODULE: Event = Event::Miss { item: 3, place: 0 };

// ---- the archive

fn entry(alloc: Global, number: u64, payload: &[u8]) -> Result<Entry, Fail> {
    let size = u32::try_from(payload.len())?;
    let tag = u32::try_from(number)?;
    Ok(Entry {
        offset: 0,
        head: stored_head(Key { tag, hash: number }, 0, size),
        payload: Row::from_vec(Vec::from_slice(alloc, payload)?),
    })
}

fn entries(alloc: Global) -> Result<Vec<Entry>, Fail> {
    let mut entries = Vec::new(alloc);
    for (number, payload) in &ITEMS {
        entries.push(entry(alloc, *number, payload)?)?;
    }
    Ok(entries)
}

fn graph_of(alloc: Global, entries: &[Entry]) -> Result<Graph, Fail>
    ensures { IfOk result (λ graph. IsPlanOf entries.now graph) }
{
    if entries.len() > 1_048_576 {
        return Err(Fail::new("too many entries"));
    }
    Ok(plan_of(alloc, entries)?)
}

fn are_short(entries: &[Entry]) -> bool
    ensures { IsTrue result ↔ All (λ (entry : Entry). length entry.payload ≤ limit) entries.now }
{
    entries
        .iter()
        .all(|entry| entry.payload.len() <= 16_777_216)
}

// ---- the slot and its log

fn acts_of(alloc: Global, does: &[(u64, Does)]) -> Result<Vec<(Key, Act)>, Fail> {
    let mut acts = Vec::new(alloc);
    for (number, does) in does {
        let tag = u32::try_from(*number)?;
        let act = match does {
            Does::Code(code) => Act::Code(*code),
            Does::Die => Act::Die,
        };
        acts.push((Key { tag, hash: *number }, act))?;
    }
    Ok(acts)
}

fn slot_of(alloc: Global, acts: Vec<(Key, Act)>, failing: &[u32]) -> Result<MemSlot, Fail>
    ensures { IfOk result (λ slot. ⟦<MemSlot as Slot>⟧.running slot ≡ false) }
{
    let failing = Vec::from_slice(alloc, failing)?;
    Ok(MemSlot::new(alloc, failing, acts, 200, 10_000)?)
}

/// A note as the tables write it.
fn word_of(note: &SlotNote) -> (u8, usize) {
    match note {
        SlotNote::Started => STARTED,
        SlotNote::NotStarted => NOT_STARTED,
        SlotNote::Sent(frame) => match frame.as_slice() {
            [_, _, _, _, 2, _, _, _, _, number, ..] => (b'l', *number as usize),
            [_, _, _, _, 3, _, _, _, _, number, ..] => (b'w', *number as usize),
            [_, _, _, _, 5] => QUIT,
            _ => (b'?', 0),
        },
        SlotNote::Got(bytes) => (b'g', bytes.len()),
        SlotNote::Died => DIED,
        SlotNote::Stopped => STOPPED,
    }
}

fn log_is(alloc: Global, slot: &MemSlot, wanted: &[(u8, usize)]) -> Result<bool, Fail> {
    let notes = slot.notes(alloc)?;
    let notes = notes.as_slice();
    Ok(
        notes.len() == wanted.len()
            && notes
                .iter()
                .zip(wanted.iter())
                .all(|(note, word)| word_of(note) == *word),
    )
}

// ---- one run, and tables of them

/// Runs the loop of a slot, and says how it ended, and whether these are the events and the notes.
fn loop_end<R: Wait>(
    rt: &R,
    alloc: Global,
    jobs: &Jobs,
    slot: &mut MemSlot,
    events: &[Event],
    log: &[(u8, usize)],
) -> Result<Option<SlotEnd>, Fail>
    requires jobs { AreJobs jobs.now }
    requires stopped { ⟦<MemSlot as Slot>⟧.running slot.old ≡ false }
{
    let loader = Loader::new(alloc, jobs)?;
    let mut kit = Kit::new(Solo.seat(alloc, &jobs.graph.plan)?, loader);
    let end = run_slot(rt, &Solo, &mut kit, slot, jobs);
    let seat = kit.into_seat();
    let are_told = seat.events() == events && log_is(alloc, slot, log)?;
    Ok(if are_told { Some(end) } else { None })
}

/// The same over the items of these entries.
fn run_end<R: Wait>(
    rt: &R,
    alloc: Global,
    entries: &[Entry],
    slot: &mut MemSlot,
    events: &[Event],
    log: &[(u8, usize)],
) -> Result<Option<SlotEnd>, Fail>
    requires { ⟦<MemSlot as Slot>⟧.running slot.old ≡ false }
{
    let graph = graph_of(alloc, entries)?;
    if !graph.plan.fits() || !are_short(entries) {
        return Err(Fail::new("the archive passes a limit"));
    }
    let jobs = Jobs {
        graph: &graph,
        entries,
    };
    loop_end(rt, alloc, &jobs, slot, events, log)
}

fn end_of<R: Wait>(
    rt: &R,
    alloc: Global,
    entries: &[Entry],
    run: &Run,
) -> Result<Option<SlotEnd>, Fail> {
    let mut slot = slot_of(alloc, acts_of(alloc, run.does)?, run.failing)?;
    run_end(rt, alloc, entries, &mut slot, run.events, run.log)
}

/// Items in the order of the tables' numbers: the layout, the module, the set layout, the pipeline.
const ANSWERS: &[Run] = &[
    // Each item is created once.
    Run {
        does: &[],
        failing: &[],
        end: SlotEnd::Finished,
        events: &[
            START_0, DONE_0, START_1, DONE_1, START_2, DONE_2, START_3, DONE_3,
        ],
        log: &[
            STARTED, DO_3, GOT, DO_4, GOT, DO_2, GOT, DO_7, GOT, QUIT, STOPPED,
        ],
    },
    // An item that is refused is no dependency.
    Run {
        does: &[(4, Does::Code(12))],
        failing: &[],
        end: SlotEnd::Finished,
        events: &[
            START_0,
            DONE_0,
            START_1,
            REFUSED_1,
            MISS_MODULE,
            START_2,
            DONE_2,
        ],
        log: &[STARTED, DO_3, GOT, DO_4, GOT, DO_2, GOT, QUIT, STOPPED],
    },
    // A worker that was restarted gets the dependencies again, before the item that depends on them.
    Run {
        does: &[(2, Does::Die)],
        failing: &[],
        end: SlotEnd::Finished,
        events: &[
            START_0, DONE_0, START_1, DONE_1, START_2, DEATH, RESTART, START_3, DONE_3,
        ],
        log: &[
            STARTED, DO_3, GOT, DO_4, GOT, DO_2, DIED, STARTED, LOAD_4, LOAD_3, DO_7, GOT, QUIT,
            STOPPED,
        ],
    },
    // The item in a dead worker's hands is blamed, and what depends on it is missing.
    Run {
        does: &[(4, Does::Die)],
        failing: &[],
        end: SlotEnd::Finished,
        events: &[
            START_0,
            DONE_0,
            START_1,
            DEATH,
            RESTART,
            MISS_MODULE,
            START_2,
            DONE_2,
        ],
        log: &[
            STARTED, DO_3, GOT, DO_4, DIED, STARTED, DO_2, GOT, QUIT, STOPPED,
        ],
    },
    // No worker can be started at first, or after a death, or after two.
    Run {
        does: &[],
        failing: &[0],
        end: SlotEnd::Retired,
        events: &[RETIRE],
        log: &[NOT_STARTED],
    },
    Run {
        does: &[(3, Does::Die)],
        failing: &[1],
        end: SlotEnd::Retired,
        events: &[START_0, DEATH, RETIRE],
        log: &[STARTED, DO_3, DIED, NOT_STARTED],
    },
    Run {
        does: &[(3, Does::Die), (4, Does::Die)],
        failing: &[2],
        end: SlotEnd::Retired,
        events: &[START_0, DEATH, RESTART, START_1, DEATH, RETIRE],
        log: &[STARTED, DO_3, DIED, STARTED, DO_4, DIED, NOT_STARTED],
    },
];

#[test]
fn each_act_has_its_events_and_its_log(rt: HostRuntime) -> Result<(), Fail> {
    let entries = entries(rt.alloc())?;
    for run in ANSWERS {
        assert_eq!(rt; end_of(&rt, rt.alloc(), &entries, run)?, Some(run.end));
    }
    Ok(())
}

// ---- samplers without dependencies, each answered by bytes of its own

/// A sampler's payload, but for the last two digits of its hash.
const SAMPLER: &[u8; 48] = b"{\"samplers\":{\"0000000000000000\":{}},\"version\":6}";

const DIGITS: &[u8; 16] = b"0123456789abcdef";

/// The Reply for a sampler with code 0, but for the hash, and two bytes that nobody asks for.
const REPLY: [u8; 23] = [
    17, 0, 0, 0, 4, 0, 0, 0, 0, 1, 0, 0, 0, 0, 0, 0, 0, 0, 0, 0, 0, 9, 9,
];

const HELLO: &[u8] = &[5, 0, 0, 0, 1, 0x46, 0x4F, 0x5A, 1];

const OTHER_KEY: &[u8] = &[
    17, 0, 0, 0, 4, 0, 0, 0, 0, 1, 0, 0, 0, 99, 0, 0, 0, 0, 0, 0, 0,
];

const NO_LENGTH: &[u8] = &[0xFF, 0xFF, 0xFF, 0xFF];

const NO_KIND: &[u8] = &[17, 0, 0, 0, 5];

/// What a worker sends in answer to a Do.
#[derive(Clone, Copy)]
enum Sends {
    /// So many bytes of the right Reply and of what stands after it.
    Reply(usize),
    Other(&'static [u8]),
}

/// What comes of it.
#[derive(Clone, Copy)]
enum Comes {
    /// The worker dies once so many bytes were read.
    Death(usize),
    /// The worker is stopped once so many were.
    Stop(usize),
    Answer,
}

/// The samplers of the numbers 1, 2, ... in order.
const SENT: &[(Sends, Comes)] = &[
    // A Reply that is cut anywhere.
    (Sends::Reply(0), Comes::Death(0)),
    (Sends::Reply(1), Comes::Death(1)),
    (Sends::Reply(2), Comes::Death(2)),
    (Sends::Reply(3), Comes::Death(3)),
    (Sends::Reply(4), Comes::Death(4)),
    (Sends::Reply(5), Comes::Death(5)),
    (Sends::Reply(6), Comes::Death(6)),
    (Sends::Reply(7), Comes::Death(7)),
    (Sends::Reply(8), Comes::Death(8)),
    (Sends::Reply(9), Comes::Death(9)),
    (Sends::Reply(10), Comes::Death(10)),
    (Sends::Reply(11), Comes::Death(11)),
    (Sends::Reply(12), Comes::Death(12)),
    (Sends::Reply(13), Comes::Death(13)),
    (Sends::Reply(14), Comes::Death(14)),
    (Sends::Reply(15), Comes::Death(15)),
    (Sends::Reply(16), Comes::Death(16)),
    (Sends::Reply(17), Comes::Death(17)),
    (Sends::Reply(18), Comes::Death(18)),
    (Sends::Reply(19), Comes::Death(19)),
    (Sends::Reply(20), Comes::Death(20)),
    // A whole one, and bytes after it, which aren't asked for.
    (Sends::Reply(21), Comes::Answer),
    (Sends::Reply(22), Comes::Answer),
    (Sends::Reply(23), Comes::Answer),
    // What is no answer.
    (Sends::Other(HELLO), Comes::Stop(9)),
    (Sends::Other(OTHER_KEY), Comes::Stop(21)),
    (Sends::Other(NO_LENGTH), Comes::Stop(4)),
    (Sends::Other(NO_KIND), Comes::Stop(5)),
];

/// The numbers of the samplers, each with what is sent and what comes of it.
fn numbered(alloc: Global) -> Result<Vec<(u8, Sends, Comes)>, Fail> {
    let mut rows = Vec::new(alloc);
    for (place, (sends, comes)) in SENT.iter().enumerate() {
        rows.push((u8::try_from(place + 1)?, *sends, *comes))?;
    }
    Ok(rows)
}

fn samplers(alloc: Global, rows: &[(u8, Sends, Comes)]) -> Result<Vec<Entry>, Fail> {
    let mut entries = Vec::new(alloc);
    for (number, _, _) in rows {
        let mut payload = *SAMPLER;
        payload[28] = DIGITS[usize::from(*number / 16)];
        payload[29] = DIGITS[usize::from(*number % 16)];
        entries.push(Entry {
            offset: 0,
            head: stored_head(sampler_key(*number), 0, 48),
            payload: Row::from_vec(Vec::from_slice(alloc, &payload)?),
        })?;
    }
    Ok(entries)
}

fn sampler_key(number: u8) -> Key {
    Key {
        tag: 1,
        hash: u64::from(number),
    }
}

fn raw(alloc: Global, number: u8, sends: &Sends) -> Result<Act, Fail> {
    let mut reply = REPLY;
    reply[13] = number;
    let bytes: &[u8] = match sends {
        Sends::Reply(count) => reply.get(..*count).unwrap_or(&reply),
        Sends::Other(bytes) => bytes,
    };
    Ok(Act::Raw(Row::from_vec(Vec::from_slice(alloc, bytes)?)))
}

fn raw_acts(alloc: Global, rows: &[(u8, Sends, Comes)]) -> Result<Vec<(Key, Act)>, Fail> {
    let mut acts = Vec::new(alloc);
    for (number, sends, _) in rows {
        acts.push((sampler_key(*number), raw(alloc, *number, sends)?))?;
    }
    Ok(acts)
}

fn wanted_events(alloc: Global, rows: &[(u8, Sends, Comes)]) -> Result<Vec<Event>, Fail> {
    let mut events = Vec::new(alloc);
    for (number, _, comes) in rows {
        let item = u32::from(*number).saturating_sub(1);
        events.push(Event::Start { slot: 0, item })?;
        match comes {
            Comes::Death(_) | Comes::Stop(_) => {
                events.push(DEATH)?;
                events.push(RESTART)?;
            }
            Comes::Answer => events.push(Event::Reply {
                slot: 0,
                item,
                code: 0,
            })?,
        }
    }
    Ok(events)
}

fn wanted_log(alloc: Global, rows: &[(u8, Sends, Comes)]) -> Result<Vec<(u8, usize)>, Fail> {
    let mut log = Vec::new(alloc);
    log.push(STARTED)?;
    for (number, _, comes) in rows {
        log.push((b'w', usize::from(*number)))?;
        match *comes {
            Comes::Death(0) => log.extend_from_slice(&[DIED, STARTED])?,
            Comes::Death(count) => log.extend_from_slice(&[(b'g', count), DIED, STARTED])?,
            Comes::Stop(count) => log.extend_from_slice(&[(b'g', count), STOPPED, STARTED])?,
            Comes::Answer => log.push(GOT)?,
        }
    }
    log.extend_from_slice(&[QUIT, STOPPED])?;
    Ok(log)
}

#[test]
fn a_reply_is_whole_and_right_or_a_death(rt: HostRuntime) -> Result<(), Fail> {
    let alloc = rt.alloc();
    let rows = numbered(alloc)?;
    let entries = samplers(alloc, &rows)?;
    let mut slot = slot_of(alloc, raw_acts(alloc, &rows)?, &[])?;
    let events = wanted_events(alloc, &rows)?;
    let log = wanted_log(alloc, &rows)?;
    let end = run_end(&rt, alloc, &entries, &mut slot, &events, &log)?;
    assert_eq!(rt; end, Some(SlotEnd::Finished));
    Ok(())
}
