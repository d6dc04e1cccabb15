//! Whole replays over several slots, with workers in memory.
ghost use Rattle.std.specs.Prelude.{◌≡◌, ◌≤◌, ◌↔◌, ℕ, All, IfOk, IsTrue, false, length};
ghost use Rattle.foz_entry.specs.Limits.{count_limit};
ghost use Rattle.worker_msg.specs.Frames.{limit};
ghost use Rattle.dep_graph.specs.Graphs.{IsPlanOf};
ghost use Rattle.replay_crew.specs.Jobs.{AreJobs};

use crate::meeting::MeetingSlot;
use crate::run_all;
use dep_graph::{Graph, plan_of};
use foz_entry::{Entry, stored_head};
use foz_words::{Key, Row};
use mem_slot::{Act, MemSlot};
use replay_core::{Core, SlotState, Verdict};
use replay_crew::Jobs;
use slot_log::{Slot, SlotNote};
use std::alloc::Global;
use std::sync::Wait;
use std::sync::atomic::AtomicU64;
use std::test::Fail;
use std::thread::Threads;

// A pipeline layout without sets, under (3, 3).
const LAYOUT: &[u8] = b"{\"pipelineLayouts\":{\"0000000000000003\":{}},\"version\":6}";

// A compute module, under (4, 4): its JSON with the zero byte, and its words as varints.
const MODULE: &[u8] =
    b"{\"shaderModules\":{\"0000000000000004\":{\"codeSize\":140,\"flags\":0,\"varintOffset\":0,\"varintSize\":64}},\"version\":6}\0\x83\x84\x8C\x39\x80\x80\x04\x00\x05\x00\x91\x80\x08\x01\x8E\x80\x0C\x00\x01\x8F\x80\x14\x05\x01\xED\xC2\xA5\xF3\x06\x00\x90\x80\x18\x01\x11\x01\x01\x01\x93\x80\x08\x02\xA1\x80\x0C\x03\x02\xB6\x80\x14\x02\x01\x00\x03\xF8\x81\x08\x04\xFD\x81\x04\xB8\x80\x04";

// A set layout without bindings, under (2, 2).
const SET: &[u8] = b"{\"setLayouts\":{\"0000000000000002\":{}},\"version\":6}";

// A compute pipeline under (7, 7), which depends on the module and the layout.
const PIPELINE: &[u8] =
    b"{\"computePipelines\":{\"0000000000000007\":{\"layout\":\"0000000000000003\",\"stage\":{\"module\":\"0000000000000004\",\"name\":\"main\",\"stage\":32}}},\"version\":6}";

/// Four items: number and hash of the key, which are the same, and the payload.
const ITEMS: &[(u64, &[u8])] = &[(3, LAYOUT), (4, MODULE), (2, SET), (7, PIPELINE)];

/// Two items that don't depend on one another.
const TWO_ITEMS: &[(u64, &[u8])] = &[(3, LAYOUT), (2, SET)];

// ---- how a note of a log is written in the table below: what it is, and the item or the number of bytes

const STARTED: (u8, usize) = (b's', 0);

const NOT_STARTED: (u8, usize) = (b'n', 0);

const DIED: (u8, usize) = (b'd', 0);

const STOPPED: (u8, usize) = (b'x', 0);

const QUIT: (u8, usize) = (b'q', 0);

/// The 21 bytes of a Reply.
const GOT: (u8, usize) = (b'g', 21);

/// A Do of the item with this number in its key.
const DO_2: (u8, usize) = (b'w', 2);

const DO_3: (u8, usize) = (b'w', 3);

const DO_4: (u8, usize) = (b'w', 4);

const DO_7: (u8, usize) = (b'w', 7);

/// What a worker does with the item of a number.
#[derive(Clone, Copy)]
enum Does {
    Code(u32),
    Die,
    /// It sends bytes that are no answer.
    Babble,
}

/// A slot: which of its starts fail, what becomes of it, and its log, where that doesn't hang on the schedule.
#[derive(Clone, Copy)]
struct Place {
    failing: &'static [u32],
    end: SlotState,
    log: Option<&'static [(u8, usize)]>,
}

/// A replay: what the workers do, the slots, and what becomes of the items.
#[derive(Clone, Copy)]
struct Replay {
    does: &'static [(u64, Does)],
    places: &'static [Place],
    verdicts: &'static [Option<Verdict>],
}

const DONE: Option<Verdict> = Some(Verdict::Done(0));

/// A slot that does its part of the work.
const WORKS: Place = Place {
    failing: &[],
    end: SlotState::Idle,
    log: None,
};

/// One for which no worker can be started.
const NEVER_STARTS: Place = Place {
    failing: &[0],
    end: SlotState::Retired,
    log: Some(&[NOT_STARTED]),
};

/// One that does all the work.
const WORKS_ALONE: Place = Place {
    failing: &[],
    end: SlotState::Idle,
    log: Some(&[
        STARTED, DO_3, GOT, DO_4, GOT, DO_2, GOT, DO_7, GOT, QUIT, STOPPED,
    ]),
};

/// One that isn't started again after a death over the first item.
const FALLS: Place = Place {
    failing: &[1],
    end: SlotState::Retired,
    log: Some(&[STARTED, DO_3, DIED, NOT_STARTED]),
};

/// In the order of the archive: the layout, the module, the set layout, the pipeline.
const REPLAYS: &[Replay] = &[
    // One slot, and several.
    Replay {
        does: &[],
        places: &[WORKS_ALONE],
        verdicts: &[DONE, DONE, DONE, DONE],
    },
    Replay {
        does: &[],
        places: &[WORKS, WORKS, WORKS],
        verdicts: &[DONE, DONE, DONE, DONE],
    },
    // An item that is refused is no dependency.
    Replay {
        does: &[(4, Does::Code(12))],
        places: &[WORKS, WORKS],
        verdicts: &[
            DONE,
            Some(Verdict::Done(12)),
            DONE,
            Some(Verdict::Missing(0)),
        ],
    },
    // The item in a dead worker's hands is blamed, and so is one in the hands of a worker that babbles.
    Replay {
        does: &[(4, Does::Die)],
        places: &[WORKS, WORKS],
        verdicts: &[DONE, Some(Verdict::Blamed), DONE, Some(Verdict::Missing(0))],
    },
    Replay {
        does: &[(3, Does::Babble), (2, Does::Die)],
        places: &[WORKS, WORKS, WORKS, WORKS],
        verdicts: &[
            Some(Verdict::Blamed),
            DONE,
            Some(Verdict::Blamed),
            Some(Verdict::Missing(1)),
        ],
    },
    // A slot without a worker leaves all work to the other, whichever it is.
    Replay {
        does: &[],
        places: &[NEVER_STARTS, WORKS_ALONE],
        verdicts: &[DONE, DONE, DONE, DONE],
    },
    Replay {
        does: &[],
        places: &[WORKS_ALONE, NEVER_STARTS],
        verdicts: &[DONE, DONE, DONE, DONE],
    },
    // Where no slot has a worker any more, items stay undecided.
    Replay {
        does: &[],
        places: &[NEVER_STARTS, NEVER_STARTS],
        verdicts: &[None, None, None, None],
    },
    Replay {
        does: &[(3, Does::Die)],
        places: &[FALLS, NEVER_STARTS],
        verdicts: &[Some(Verdict::Blamed), None, None, None],
    },
];

// ---- the archive

fn entry(alloc: Global, number: u64, payload: &[u8]) -> Result<Entry, Fail> {
    let size = u32::try_from(payload.len())?;
    let tag = u32::try_from(number)?;
    Ok(Entry {
        offset: 0,
        head: stored_head(Key { tag, hash: number }, 0, size),
        payload: Row::from_vec(Vec::from_slice(alloc, payload)?),
    })
}

fn entries_of(alloc: Global, items: &[(u64, &[u8])]) -> Result<Vec<Entry>, Fail> {
    let mut entries = Vec::new(alloc);
    for (number, payload) in items {
        entries.push(entry(alloc, *number, payload)?)?;
    }
    Ok(entries)
}

fn graph_of(alloc: Global, entries: &[Entry]) -> Result<Graph, Fail>
    ensures { IfOk result (λ graph. IsPlanOf entries.now graph) }
{
    if entries.len() > 1_048_576 {
        return Err(Fail::new("too many entries"));
    }
    Ok(plan_of(alloc, entries)?)
}

fn are_short(entries: &[Entry]) -> bool
    ensures { IsTrue result ↔ All (λ (entry : Entry). length entry.payload ≤ limit) entries.now }
{
    entries
        .iter()
        .all(|entry| entry.payload.len() <= 16_777_216)
}

// ---- the slots and their logs

fn act_of(alloc: Global, does: Does) -> Result<Act, Fail> {
    match does {
        Does::Code(code) => Ok(Act::Code(code)),
        Does::Die => Ok(Act::Die),
        Does::Babble => Ok(Act::Raw(Row::from_vec(Vec::from_slice(alloc, b"babble")?))),
    }
}

fn acts_of(alloc: Global, does: &[(u64, Does)]) -> Result<Vec<(Key, Act)>, Fail> {
    let mut acts = Vec::new(alloc);
    for (number, does) in does {
        let tag = u32::try_from(*number)?;
        acts.push((Key { tag, hash: *number }, act_of(alloc, *does)?))?;
    }
    Ok(acts)
}

fn slot_of(alloc: Global, does: &[(u64, Does)], failing: &[u32]) -> Result<MemSlot, Fail>
    ensures { IfOk result (λ slot. ⟦<MemSlot as Slot>⟧.running slot ≡ false) }
{
    let acts = acts_of(alloc, does)?;
    let failing = Vec::from_slice(alloc, failing)?;
    Ok(MemSlot::new(alloc, failing, acts, 200, 10_000)?)
}

fn slots_of(alloc: Global, replay: &Replay) -> Result<Vec<MemSlot>, Fail>
    ensures { IfOk result (λ slots. All (λ slot. ⟦<MemSlot as Slot>⟧.running slot ≡ false) slots.items) }
{
    let mut slots = Vec::new(alloc);
    for place in replay.places {
        slots.push(slot_of(alloc, replay.does, place.failing)?)?;
    }
    Ok(slots)
}

/// A note as the table writes it.
fn word_of(note: &SlotNote) -> (u8, usize) {
    match note {
        SlotNote::Started => STARTED,
        SlotNote::NotStarted => NOT_STARTED,
        SlotNote::Sent(frame) => match frame.as_slice() {
            [_, _, _, _, 2, _, _, _, _, number, ..] => (b'l', *number as usize),
            [_, _, _, _, 3, _, _, _, _, number, ..] => (b'w', *number as usize),
            [_, _, _, _, 5] => QUIT,
            _ => (b'?', 0),
        },
        SlotNote::Got(bytes) => (b'g', bytes.len()),
        SlotNote::Died => DIED,
        SlotNote::Stopped => STOPPED,
    }
}

fn log_is(alloc: Global, slot: &MemSlot, wanted: &[(u8, usize)]) -> Result<bool, Fail> {
    let notes = slot.notes(alloc)?;
    let notes = notes.as_slice();
    Ok(
        notes.len() == wanted.len()
            && notes
                .iter()
                .zip(wanted.iter())
                .all(|(note, word)| word_of(note) == *word),
    )
}

/// The slot ended as wanted, by the events and by its log.
fn ended_so(
    alloc: Global,
    core: &Core,
    number: usize,
    slot: &MemSlot,
    place: &Place,
) -> Result<bool, Fail> {
    let number = u32::try_from(number)?;
    let as_wanted = core.slot_state(number) == Some(place.end);
    match place.log {
        Some(log) => Ok(as_wanted && log_is(alloc, slot, log)?),
        None => Ok(as_wanted),
    }
}

fn all_ended_so(
    alloc: Global,
    core: &Core,
    slots: &[MemSlot],
    places: &[Place],
) -> Result<bool, Fail> {
    if slots.len() != places.len() {
        return Ok(false);
    }
    for (number, (slot, place)) in slots.iter().zip(places).enumerate() {
        if !ended_so(alloc, core, number, slot, place)? {
            return Ok(false);
        }
    }
    Ok(true)
}

// ---- replays

fn replayed<S: Slot + Send, R: Wait + Threads + Sync>(
    rt: &R,
    alloc: Global,
    jobs: &Jobs,
    slots: &mut [S],
) -> Result<Core, Fail>
    requires jobs { AreJobs jobs.now }
    requires at_rest { All (λ slot. S.running slot ≡ false) slots.old }
{
    let count = slots.len();
    if count == 0 || count > 16 {
        return Err(Fail::new("too many slots"));
    }
    let core = Core::new(alloc, jobs.graph.plan.copy(alloc)?, count as u32)?;
    match run_all(rt, alloc, core, slots, jobs) {
        Ok(core) => Ok(core),
        Err(_) => Err(Fail::new("no memory")),
    }
}

/// The items of these entries, replayed.
fn replayed_over<S: Slot + Send, R: Wait + Threads + Sync>(
    rt: &R,
    alloc: Global,
    entries: &[Entry],
    slots: &mut [S],
) -> Result<Core, Fail>
    requires { All (λ slot. S.running slot ≡ false) slots.old }
{
    let graph = graph_of(alloc, entries)?;
    if !graph.plan.fits() || !are_short(entries) {
        return Err(Fail::new("the archive passes a limit"));
    }
    let jobs = Jobs {
        graph: &graph,
        entries,
    };
    replayed(rt, alloc, &jobs, slots)
}

fn comes_out<R: Wait + Threads + Sync>(
    rt: &R,
    alloc: Global,
    entries: &[Entry],
    replay: &Replay,
) -> Result<bool, Fail> {
    let mut slots = slots_of(alloc, replay)?;
    let core = replayed_over(rt, alloc, entries, slots.as_mut_slice())?;
    Ok(
        core.verdicts() == replay.verdicts
            && all_ended_so(alloc, &core, slots.as_slice(), replay.places)?,
    )
}

#[test]
fn each_item_comes_to_its_verdict(rt: HostRuntime) -> Result<(), Fail> {
    let entries = entries_of(rt.alloc(), ITEMS)?;
    for (number, replay) in REPLAYS.iter().enumerate() {
        let good = comes_out(&rt, rt.alloc(), &entries, replay)?;
        assert!(rt; good, "replay {number}");
    }
    Ok(())
}

/// Two slots of which neither is answered before both are asked.
fn meeting_slots<'a>(
    alloc: Global,
    one: &'a AtomicU64,
    two: &'a AtomicU64,
) -> Result<Vec<MeetingSlot<'a>>, Fail>
    ensures { IfOk result (λ slots. All (λ slot. ⟦<MeetingSlot<'a> as Slot>⟧.running slot ≡ false) slots.items) }
{
    let mut slots = Vec::new(alloc);
    slots.push(MeetingSlot::new(slot_of(alloc, &[], &[])?, one, two))?;
    slots.push(MeetingSlot::new(slot_of(alloc, &[], &[])?, two, one))?;
    Ok(slots)
}

fn both_are_done<R: Wait + Threads + Sync>(rt: &R, alloc: Global) -> Result<bool, Fail> {
    let (one, two) = (AtomicU64::new(0), AtomicU64::new(0));
    let entries = entries_of(alloc, TWO_ITEMS)?;
    let mut slots = meeting_slots(alloc, &one, &two)?;
    let core = replayed_over(rt, alloc, &entries, slots.as_mut_slice())?;
    Ok(core.verdicts() == [DONE, DONE].as_slice())
}

#[test]
fn both_slots_are_asked(rt: HostRuntime) -> Result<(), Fail> {
    assert!(rt; both_are_done(&rt, rt.alloc())?);
    Ok(())
}
