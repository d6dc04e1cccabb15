use crate::{Core, Counts, Dep, Event, Next, Plan, SlotState, Verdict};
use foz_words::{Key, NoMemory, Row};
use std::alloc::Global;
use std::thread::join;

/// A call on a scheduler.
#[derive(Clone, Copy, Debug)]
enum Call {
    Ask(u32),
    Answer(u32, u32),
    Die(u32),
    Revive(u32),
    Retire(u32),
}

/// What came of a call: a slot was told something, or the call was made, or it was out of place and not made.
#[derive(Clone, Copy, Debug, PartialEq, Eq)]
enum Came {
    Told(Next),
    Made,
    OutOfPlace,
}

use Call::{Answer, Ask, Die, Retire, Revive};
use Came::{Made, OutOfPlace, Told};

fn ask(core: &mut Core, slot: u32) -> Came {
    match core.slot_state(slot) {
        Some(SlotState::Idle) => Told(core.next(slot)),
        _ => OutOfPlace,
    }
}

fn answer(core: &mut Core, slot: u32, code: u32) -> Came {
    match core.slot_state(slot) {
        Some(SlotState::Holds(_)) => {
            core.reply(slot, code);
            Made
        }
        _ => OutOfPlace,
    }
}

fn die(core: &mut Core, slot: u32) -> Came {
    match core.slot_state(slot) {
        Some(SlotState::Holds(_)) => {
            core.death(slot);
            Made
        }
        _ => OutOfPlace,
    }
}

fn revive(core: &mut Core, slot: u32) -> Came {
    match core.slot_state(slot) {
        Some(SlotState::Dead) => {
            core.restart(slot);
            Made
        }
        _ => OutOfPlace,
    }
}

fn retire(core: &mut Core, slot: u32) -> Came {
    match core.slot_state(slot) {
        Some(SlotState::Idle) => {
            core.retire(slot);
            Made
        }
        Some(SlotState::Dead) => {
            core.retire(slot);
            Made
        }
        _ => OutOfPlace,
    }
}

/// Makes the call where it may be made.
fn make(core: &mut Core, call: Call) -> Came {
    match call {
        Ask(slot) => ask(core, slot),
        Answer(slot, code) => answer(core, slot, code),
        Die(slot) => die(core, slot),
        Revive(slot) => revive(core, slot),
        Retire(slot) => retire(core, slot),
    }
}

fn plan_of(alloc: Global, rows: &[&[Dep]]) -> Result<Plan, NoMemory> {
    let mut deps = Row::new(alloc);
    for row in rows {
        deps.push(Row::from_vec(Vec::from_slice(alloc, *row)?))?;
    }
    Ok(Plan { deps })
}

fn core_over(alloc: Global, plan: Plan, slots: u32) -> Option<Core> {
    if plan.fits() && 1 <= slots && slots <= 16 {
        Core::new(alloc, plan, slots).ok()
    } else {
        None
    }
}

fn core_of(alloc: Global, rows: &[&[Dep]], slots: u32) -> Option<Core> {
    let plan = plan_of(alloc, rows).ok()?;
    core_over(alloc, plan, slots)
}

const ABSENT: Dep = Dep::Absent(Key { tag: 4, hash: 9 });

/// A plan, calls with what comes of each, and what stands after them.
struct Case {
    name: &'static str,
    rows: &'static [&'static [Dep]],
    slots: u32,
    room: u64,
    calls: &'static [(Call, Came)],
    events: &'static [Event],
    verdicts: &'static [Option<Verdict>],
    counts: Counts,
}

const NOTHING: Counts = Counts {
    events: 0,
    done: 0,
    refused: 0,
    blamed: 0,
    missing: 0,
    deaths: 0,
    restarts: 0,
    retired: 0,
};

const CASES: &[Case] = &[
    Case {
        name: "misses come first, and a refusal is no success",
        rows: &[&[], &[Dep::Item(0)], &[ABSENT]],
        slots: 1,
        room: 10,
        calls: &[
            (Ask(0), Told(Next::Work { item: 0 })),
            (Answer(0, 0), Made),
            (Ask(0), Told(Next::Work { item: 1 })),
            (Answer(0, 7), Made),
            (Ask(0), Told(Next::Finished)),
        ],
        events: &[
            Event::Miss { item: 2, place: 0 },
            Event::Start { slot: 0, item: 0 },
            Event::Reply {
                slot: 0,
                item: 0,
                code: 0,
            },
            Event::Start { slot: 0, item: 1 },
            Event::Reply {
                slot: 0,
                item: 1,
                code: 7,
            },
        ],
        verdicts: &[
            Some(Verdict::Done(0)),
            Some(Verdict::Done(7)),
            Some(Verdict::Missing(0)),
        ],
        counts: Counts {
            events: 5,
            done: 1,
            refused: 1,
            blamed: 0,
            missing: 1,
            deaths: 0,
            restarts: 0,
            retired: 0,
        },
    },
    Case {
        name: "items of a cycle are missing",
        rows: &[&[Dep::Item(1)], &[Dep::Item(0)]],
        slots: 1,
        room: 7,
        calls: &[(Ask(0), Told(Next::Finished))],
        events: &[
            Event::Miss { item: 0, place: 0 },
            Event::Miss { item: 1, place: 0 },
        ],
        verdicts: &[Some(Verdict::Missing(0)), Some(Verdict::Missing(0))],
        counts: Counts {
            events: 2,
            done: 0,
            refused: 0,
            blamed: 0,
            missing: 2,
            deaths: 0,
            restarts: 0,
            retired: 0,
        },
    },
    Case {
        name: "a death blames the item in hands",
        rows: &[&[]],
        slots: 2,
        room: 5,
        calls: &[
            (Ask(0), Told(Next::Work { item: 0 })),
            (Ask(1), Told(Next::Idle)),
            (Die(0), Made),
            (Answer(0, 0), OutOfPlace),
            (Ask(1), Told(Next::Finished)),
            (Revive(0), Made),
            (Retire(0), Made),
            (Revive(0), OutOfPlace),
        ],
        events: &[
            Event::Start { slot: 0, item: 0 },
            Event::Death { slot: 0 },
            Event::Restart { slot: 0 },
            Event::Retire { slot: 0 },
        ],
        verdicts: &[Some(Verdict::Blamed)],
        counts: Counts {
            events: 4,
            done: 0,
            refused: 0,
            blamed: 1,
            missing: 0,
            deaths: 1,
            restarts: 1,
            retired: 1,
        },
    },
    Case {
        name: "a plan without items is finished",
        rows: &[],
        slots: 1,
        room: 1,
        calls: &[(Ask(0), Told(Next::Finished)), (Ask(1), OutOfPlace)],
        events: &[],
        verdicts: &[],
        counts: NOTHING,
    },
];

/// Each call comes out as the list says.
fn calls_go(core: &mut Core, calls: &[(Call, Came)]) -> bool {
    let mut as_told = true;
    for (call, came) in calls {
        as_told = make(core, *call) == *came && as_told;
    }
    as_told
}

fn has_events(core: &Core, wanted: &[Event]) -> bool {
    core.events() == wanted
}

fn has_verdicts(core: &Core, wanted: &[Option<Verdict>]) -> bool {
    core.verdicts() == wanted
}

/// Each call comes out as the case says, and what stands then is what it says.
fn goes_as(core: &mut Core, case: &Case) -> bool {
    core.room() == case.room
        && calls_go(core, case.calls)
        && has_events(core, case.events)
        && has_verdicts(core, case.verdicts)
        && core.counts() == case.counts
}

fn holds(alloc: Global, case: &Case) -> bool {
    match core_of(alloc, case.rows, case.slots) {
        Some(mut core) => goes_as(&mut core, case),
        None => false,
    }
}

#[test]
fn calls_come_out_as_the_cases_say(rt: HostRuntime) {
    for case in CASES {
        let name = case.name;
        assert!(rt; holds(rt.alloc(), case), "{name}");
    }
}

/// The same lists of dependencies, in the same order.
fn are_rows(plan: &Plan, rows: &[&[Dep]]) -> bool {
    let lists = plan.deps.as_slice();
    lists.len() == rows.len()
        && lists
            .iter()
            .zip(rows)
            .all(|(list, row)| list.as_slice() == *row)
}

/// The plan fits exactly where it is said to, and its copy has the same rows.
fn is_plan(alloc: Global, rows: &[&[Dep]], fits: bool) -> Result<bool, NoMemory> {
    let plan = plan_of(alloc, rows)?;
    let copied = plan.copy(alloc)?;
    Ok(plan.fits() == fits && are_rows(&copied, rows))
}

const PLANS: &[(&[&[Dep]], bool)] = &[
    (&[&[Dep::Item(1), ABSENT], &[]], true),
    (&[&[Dep::Item(1)]], false),
];

#[test]
fn a_plan_is_copied_and_its_limits_are_tested(rt: HostRuntime) {
    for (rows, fits) in PLANS {
        let good = is_plan(rt.alloc(), *rows, *fits).unwrap_or(false);
        assert!(rt; good, "where it is {fits} that the plan fits");
    }
}

fn next_seed(seed: u64) -> u64 {
    seed.wrapping_mul(6_364_136_223_846_793_005)
        .wrapping_add(1_442_695_040_888_963_407)
}

/// A number below 2^16, from a seed.
fn drawn(seed: u64) -> u32 {
    (seed >> 48) as u32
}

const ITEMS: u32 = 7;

/// An item's dependencies, some of them absent, some of them on a cycle; and the next seed.
fn drawn_row(alloc: Global, seed: u64) -> Result<(Row<Dep>, u64), NoMemory> {
    let mut seed = next_seed(seed);
    let mut row = Vec::new(alloc);
    for _dep in 0..drawn(seed) % 3 {
        seed = next_seed(seed);
        let item = drawn(seed) % (ITEMS + 1);
        row.push(if item < ITEMS {
            Dep::Item(item)
        } else {
            ABSENT
        })?;
    }
    Ok((Row::from_vec(row), seed))
}

/// A small plan with cycles, absent keys, chains and diamonds.
fn drawn_plan(alloc: Global, seed: u64) -> Result<Plan, NoMemory> {
    let mut seed = seed;
    let mut deps = Row::new(alloc);
    for _item in 0..ITEMS {
        let (row, after) = drawn_row(alloc, seed)?;
        deps.push(row)?;
        seed = after;
    }
    Ok(Plan { deps })
}

/// What a worker would do with each item: a code, or none where it dies.
fn drawn_outcomes(alloc: Global, seed: u64) -> Result<Vec<Option<u32>>, NoMemory> {
    let mut seed = !seed;
    let mut outcomes = Vec::new(alloc);
    for _item in 0..ITEMS {
        seed = next_seed(seed);
        outcomes.push(match drawn(seed) % 8 {
            0 => None,
            1 => Some(5),
            _ => Some(0),
        })?;
    }
    Ok(outcomes)
}

/// The first dependency that is not among the items that succeed.
fn first_failing(deps: &[Dep], succeeds: &[bool]) -> Option<usize> {
    deps.iter().position(|dep| match *dep {
        Dep::Item(item) => succeeds.get(item as usize) != Some(&true),
        Dep::Absent(_) => true,
    })
}

/// Which items succeed, by the plan and the outcomes alone: those that are answered with code 0 once all that they depend on succeeds.
fn succeeding(
    alloc: Global,
    rows: &[Row<Dep>],
    outcomes: &[Option<u32>],
) -> Result<Vec<bool>, NoMemory> {
    let mut succeeds = vec![in alloc; false; rows.len()]?;
    for _round in rows {
        for (item, row) in rows.iter().enumerate() {
            let can_start = first_failing(row.as_slice(), succeeds.as_slice()).is_none();
            if can_start && outcomes.get(item) == Some(&Some(0)) {
                succeeds[item] = true;
            }
        }
    }
    Ok(succeeds)
}

/// What becomes of each item, by the plan and the outcomes alone.
fn fates(
    alloc: Global,
    plan: &Plan,
    outcomes: &[Option<u32>],
) -> Result<Vec<Option<Verdict>>, NoMemory> {
    let rows = plan.deps.as_slice();
    let succeeds = succeeding(alloc, rows, outcomes)?;
    let mut fates = Vec::new(alloc);
    for (row, outcome) in rows.iter().zip(outcomes) {
        fates.push(Some(
            match (first_failing(row.as_slice(), succeeds.as_slice()), *outcome) {
                (Some(place), _) => Verdict::Missing(u32::try_from(place).unwrap_or(u32::MAX)),
                (None, Some(code)) => Verdict::Done(code),
                (None, None) => Verdict::Blamed,
            },
        ))?;
    }
    Ok(fates)
}

/// The next call on a slot, as the outcomes and a seed say; none where the slot is retired.
fn next_call(core: &Core, outcomes: &[Option<u32>], slot: u32, seed: u64) -> Option<Call> {
    match core.slot_state(slot)? {
        SlotState::Idle => Some(Ask(slot)),
        SlotState::Holds(item) => match outcomes.get(item as usize) {
            Some(Some(code)) => Some(Answer(slot, *code)),
            _ => Some(Die(slot)),
        },
        SlotState::Dead if 0 < slot && seed % 4 == 0 => Some(Retire(slot)),
        SlotState::Dead => Some(Revive(slot)),
        SlotState::Retired => None,
    }
}

/// Runs a scheduler to its end, its slots taking turns as a seed says.
fn drive(core: &mut Core, outcomes: &[Option<u32>], slots: u32, seed: u64) -> bool {
    let mut seed = seed;
    for _turn in 0..2_000 {
        seed = next_seed(seed);
        let slot = drawn(seed) % slots.max(1);
        if let Some(call) = next_call(core, outcomes, slot, seed) {
            match make(core, call) {
                Told(Next::Finished) => return true,
                OutOfPlace => return false,
                _ => (),
            }
        }
    }
    false
}

/// How many of the verdicts are this one.
fn count_of(verdicts: &[Option<Verdict>], wanted: Verdict) -> u64 {
    let wanted = Some(wanted);
    verdicts.iter().filter(|v| **v == wanted).count() as u64
}

fn is_missing(verdict: Option<Verdict>) -> bool {
    match verdict {
        Some(Verdict::Missing(_)) => true,
        _ => false,
    }
}

/// The counts are those of these fates. Each item that is blamed died once.
fn are_counts(counts: Counts, fates: &[Option<Verdict>]) -> bool {
    let missing = fates.iter().filter(|v| is_missing(**v)).count() as u64;
    let blamed = count_of(fates, Verdict::Blamed);
    counts.done == count_of(fates, Verdict::Done(0))
        && counts.refused == count_of(fates, Verdict::Done(5))
        && counts.blamed == blamed
        && counts.deaths == blamed
        && counts.missing == missing
}

/// A schedule of so many slots gives each item its fate.
fn gives_fates(
    core: &mut Core,
    outcomes: &[Option<u32>],
    fates: &[Option<Verdict>],
    slots: u32,
    seed: u64,
) -> bool {
    drive(core, outcomes, slots, seed)
        && core.verdicts() == fates
        && are_counts(core.counts(), fates)
}

fn fates_come_out(alloc: Global, slots: u32, seed: u64) -> Result<bool, NoMemory> {
    let outcomes = drawn_outcomes(alloc, seed)?;
    let plan = drawn_plan(alloc, seed)?;
    let fates = fates(alloc, &plan, outcomes.as_slice())?;
    match core_over(alloc, plan, slots) {
        Some(mut core) => Ok(gives_fates(
            &mut core,
            outcomes.as_slice(),
            fates.as_slice(),
            slots,
            seed,
        )),
        None => Ok(false),
    }
}

#[test]
fn items_come_to_their_fates_whatever_the_schedule(rt: HostRuntime) {
    for seed in 0..400 {
        for slots in 1..4 {
            let good = fates_come_out(rt.alloc(), slots, seed).unwrap_or(false);
            assert!(rt; good, "{slots} slots, seed {seed}");
        }
    }
}

const MANY: u32 = 1_048_576;

/// An item of a chain depends on the one before it, or on the one after it.
fn link(alloc: Global, item: u32, backwards: bool) -> Result<Row<Dep>, NoMemory> {
    let mut row = Vec::new(alloc);
    if backwards && item < MANY - 1 {
        row.push(Dep::Item(item + 1))?;
    }
    if !backwards && 0 < item {
        row.push(Dep::Item(item - 1))?;
    }
    Ok(Row::from_vec(row))
}

fn chain(alloc: Global, backwards: bool) -> Result<Plan, NoMemory> {
    let mut deps = Vec::with_capacity(alloc, MANY as usize)?;
    for item in 0..MANY {
        deps.push(link(alloc, item, backwards)?)?;
    }
    Ok(Plan {
        deps: Row::from_vec(deps),
    })
}

/// How many items one slot is given until all are decided, each answered by the code.
fn works(core: &mut Core, code: u32) -> Option<u32> {
    for given in 0..MANY + 1 {
        match ask(core, 0) {
            Told(Next::Finished) => return Some(given),
            Told(Next::Work { item: _ }) => answer(core, 0, code),
            _ => return None,
        };
    }
    None
}

/// A chain, the code of each answer, and what comes of it.
#[derive(Clone, Copy)]
struct ChainRun {
    backwards: bool,
    code: u32,
    given: u32,
    counts: Counts,
}

const ALL_DONE: Counts = Counts {
    events: 2_097_152,
    done: 1_048_576,
    refused: 0,
    blamed: 0,
    missing: 0,
    deaths: 0,
    restarts: 0,
    retired: 0,
};

const ONE_REFUSED: Counts = Counts {
    events: 1_048_577,
    done: 0,
    refused: 1,
    blamed: 0,
    missing: 1_048_575,
    deaths: 0,
    restarts: 0,
    retired: 0,
};

/// Each item after the first of a chain that was refused is missing at its first place.
fn is_passed_on(core: &Core, counts: Counts) -> bool {
    let missing = Some(Verdict::Missing(0));
    let lost = core.verdicts().iter().filter(|v| **v == missing).count();
    lost as u64 == counts.missing && core.events().len() as u64 == counts.events
}

fn chain_goes(alloc: Global, wanted: &ChainRun) -> bool {
    let Ok(plan) = chain(alloc, wanted.backwards) else {
        return false;
    };
    match core_over(alloc, plan, 1) {
        Some(mut core) => {
            works(&mut core, wanted.code) == Some(wanted.given)
                && core.counts() == wanted.counts
                && is_passed_on(&core, wanted.counts)
        }
        None => false,
    }
}

#[test]
fn a_long_chain_is_run_without_a_search(rt: HostRuntime) {
    let wanted = ChainRun {
        backwards: false,
        code: 0,
        given: MANY,
        counts: ALL_DONE,
    };
    assert!(rt; chain_goes(rt.alloc(), &wanted));
}

#[test]
fn a_refusal_is_passed_on_along_a_long_chain(rt: HostRuntime) {
    let wanted = ChainRun {
        backwards: false,
        code: 5,
        given: 1,
        counts: ONE_REFUSED,
    };
    assert!(rt; chain_goes(rt.alloc(), &wanted));
}

#[test]
fn a_long_chain_from_its_end_is_run_without_a_search(rt: HostRuntime) {
    let wanted = ChainRun {
        backwards: true,
        code: 0,
        given: MANY,
        counts: ALL_DONE,
    };
    assert!(rt; chain_goes(rt.alloc(), &wanted));
}

fn works_out(mut core: Core) -> Option<u32> {
    works(&mut core, 0)
}

#[test]
fn a_scheduler_works_in_another_thread(rt: HostRuntime) {
    let rows: [&[Dep]; 3] = [&[], &[Dep::Item(0)], &[Dep::Item(1), ABSENT]];
    let mut core = core_of(rt.alloc(), &rows, 1);
    let (_, given) = join(&rt, || (), || core.take().and_then(works_out));
    assert_eq!(rt; given, Some(2));
}
