//! The printed text, as tables. Entries and graphs are made by functions of their own, and borrowed where they are told.
use super::*;
use dep_graph::{Class, Graph};
use foz_entry::{Cut, Entry, EntryCause};
use foz_payload::Unreadable;
use foz_words::{Key, Name, NoMemory, Row};
use json_fold::FieldCause;
use replay_core::{Dep, Event, Plan, Verdict};
use spirv_varint::VarintError;
use std::alloc::Global;
use std::test::Fail;

fn entry(alloc: Global, tag: u32, hash: u64) -> Entry {
    let head = Cut {
        key: Key { tag, hash },
        format: 1,
        crc: 0,
        size: 0,
        uncompressed: 0,
        total: 56,
    };
    Entry {
        offset: 16,
        head,
        payload: Row::new(alloc),
    }
}

/// A row of one value.
fn one<T: Drop>(alloc: Global, value: T) -> Result<Row<T>, NoMemory> {
    let mut row = Row::new(alloc);
    row.push(value)?;
    Ok(row)
}

/// The text of a replay after a line that was there, and how the replay went.
fn told(
    alloc: Global,
    entries: &[Entry],
    graph: &Graph,
    verdicts: &[Option<Verdict>],
    events: &[Event],
) -> Result<(String, Overall), Fail> {
    let mut text = Vec::from_slice(alloc, b"before\n")?;
    let went = push_replay(alloc, &mut text, entries, graph, verdicts, events)?;
    Ok((String::from_utf8(text)?, went))
}

/// A layout, a module, and a pipeline that depends on both, by their tags.
const TAGS: &[u32] = &[3, 4, 7];

fn pipeline_entries(alloc: Global) -> Result<Vec<Entry>, NoMemory> {
    let mut entries = Vec::new(alloc);
    for tag in TAGS {
        entries.push(entry(alloc, *tag, u64::from(*tag)))?;
    }
    Ok(entries)
}

fn deps_of(alloc: Global, tag: u32) -> Result<Row<Dep>, NoMemory> {
    let deps: &[Dep] = if tag == 7 {
        &[Dep::Item(1), Dep::Item(0)]
    } else {
        &[]
    };
    Ok(Row::from_vec(Vec::from_slice(alloc, deps)?))
}

fn pipeline_plan(alloc: Global) -> Result<Plan, NoMemory> {
    let mut deps = Row::new(alloc);
    for tag in TAGS {
        deps.push(deps_of(alloc, *tag)?)?;
    }
    Ok(Plan { deps })
}

fn pipeline_classes(alloc: Global) -> Result<Row<Class>, NoMemory> {
    let mut classes = Row::new(alloc);
    for number in 0..3 {
        classes.push(Class::Item { number })?;
    }
    Ok(classes)
}

fn pipeline_graph(alloc: Global) -> Result<Graph, NoMemory> {
    let plan = pipeline_plan(alloc)?;
    let items = Row::from_vec(Vec::from_slice(alloc, &[0, 1, 2])?);
    let classes = pipeline_classes(alloc)?;
    Ok(Graph {
        plan,
        items,
        classes,
    })
}

fn told_of_pipeline(
    alloc: Global,
    entries: &[Entry],
    verdicts: &[Option<Verdict>],
    events: &[Event],
) -> Result<(String, Overall), Fail> {
    let graph = pipeline_graph(alloc)?;
    told(alloc, entries, &graph, verdicts, events)
}

/// What is told of the replay of a pipeline.
fn pipeline_told(
    alloc: Global,
    verdicts: &[Option<Verdict>],
    events: &[Event],
) -> Result<(String, Overall), Fail> {
    let entries = pipeline_entries(alloc)?;
    told_of_pipeline(alloc, &entries, verdicts, events)
}

const VERDICTS_OF_PIPELINE: &[Option<Verdict>] = &[
    Some(Verdict::Done(0)),
    Some(Verdict::Blamed),
    Some(Verdict::Missing(0)),
];

const EVENTS_OF_PIPELINE: &[Event] = &[
    Event::Start { slot: 0, item: 0 },
    Event::Reply {
        slot: 0,
        item: 0,
        code: 0,
    },
    Event::Start { slot: 0, item: 1 },
    Event::Death { slot: 0 },
    Event::Restart { slot: 0 },
    Event::Miss { item: 2, place: 0 },
];

const TEXT_OF_PIPELINE: &str = "before\n\
    0 3 0000000000000003 done\n\
    1 4 0000000000000004 blamed\n\
    2 7 0000000000000007 missing 4 0000000000000004\n\
    items 3 done 1 refused 0 blamed 1 missing 1 unanswered 0\n\
    deaths 1 restarts 1 retired 0\n";

#[test]
fn a_blamed_module_is_missing_above(rt: HostRuntime) -> Result<(), Fail> {
    let (text, went) = pipeline_told(rt.alloc(), VERDICTS_OF_PIPELINE, EVENTS_OF_PIPELINE)?;
    assert_eq!(rt; (text.as_str(), went), (TEXT_OF_PIPELINE, Overall::Flawed));
    Ok(())
}

/// Why a payload can't be read.
#[derive(Clone, Copy)]
enum Cause {
    NoZeroByte,
    Float(usize),
    BadJson,
    NoSuchState,
    CodeSize(u32),
    /// Its offset, its size, and how many bytes there are.
    Window(u32, u32, usize),
    Varint(VarintError),
    /// The member at this path.
    Field(&'static str, FieldCause),
}

/// The class of an entry.
#[derive(Clone, Copy)]
enum Given {
    Item,
    Kept,
    Duplicate,
    Damaged(EntryCause),
    Unreadable(Cause),
}

fn unreadable(alloc: Global, cause: Cause) -> Result<Unreadable, NoMemory> {
    match cause {
        Cause::NoZeroByte => Ok(Unreadable::NoZeroByte),
        Cause::Float(at) => Ok(Unreadable::Float { at }),
        Cause::BadJson => Ok(Unreadable::BadJson),
        Cause::NoSuchState => Ok(Unreadable::NoSuchState),
        Cause::CodeSize(stated) => Ok(Unreadable::CodeSize { stated }),
        Cause::Window(offset, size, have) => Ok(Unreadable::Window { offset, size, have }),
        Cause::Varint(cause) => Ok(Unreadable::Varint(cause)),
        Cause::Field(path, cause) => field(alloc, path, cause),
    }
}

/// A member that can't be read, by its path.
fn field(alloc: Global, path: &str, cause: FieldCause) -> Result<Unreadable, NoMemory> {
    let path = Name::from_string(String::from_str(alloc, path)?);
    Ok(Unreadable::Field(path, cause))
}

fn class_of(alloc: Global, given: Given) -> Result<Class, NoMemory> {
    match given {
        Given::Item => Ok(Class::Item { number: 0 }),
        Given::Kept => Ok(Class::Kept),
        Given::Duplicate => Ok(Class::Duplicate { first: 0 }),
        Given::Damaged(cause) => Ok(Class::Damaged(cause)),
        Given::Unreadable(cause) => Ok(Class::Unreadable(unreadable(alloc, cause)?)),
    }
}

/// The plan of one item, which depends on a key that no item has.
fn plan_of_one(alloc: Global) -> Result<Plan, NoMemory> {
    let below = one(alloc, Dep::Absent(Key { tag: 3, hash: 9 }))?;
    Ok(Plan {
        deps: one(alloc, below)?,
    })
}

fn graph_of_one(alloc: Global, given: Given) -> Result<Graph, NoMemory> {
    let plan = plan_of_one(alloc)?;
    let items = one(alloc, 0)?;
    let classes = one(alloc, class_of(alloc, given)?)?;
    Ok(Graph {
        plan,
        items,
        classes,
    })
}

fn told_of_one(
    alloc: Global,
    graph: &Graph,
    verdicts: &[Option<Verdict>],
) -> Result<(String, Overall), Fail> {
    let entries = [entry(alloc, 7, 0xAB)];
    told(alloc, &entries, graph, verdicts, &[])
}

/// What is told of the replay of one entry of this class.
fn one_told(
    alloc: Global,
    given: Given,
    verdicts: &[Option<Verdict>],
) -> Result<(String, Overall), Fail> {
    let graph = graph_of_one(alloc, given)?;
    told_of_one(alloc, &graph, verdicts)
}

/// The text says these words of its one entry.
fn says(text: &str, words: &str) -> bool {
    match text.strip_prefix("before\n0 7 00000000000000ab ") {
        Some(rest) => match rest.strip_prefix(words) {
            Some(rest) => rest.starts_with("\nitems "),
            None => false,
        },
        None => false,
    }
}

/// Of an entry of this class whose graph has these verdicts, these words are told, and its replay went so.
fn is_told(
    alloc: Global,
    given: Given,
    verdicts: &[Option<Verdict>],
    words: &str,
    overall: Overall,
) -> Result<bool, Fail> {
    let (text, went) = one_told(alloc, given, verdicts)?;
    Ok(says(&text, words) && went == overall)
}

/// The class of an entry, the verdicts of its graph, what is told of it, and how its replay went.
const VERDICTS: &[(Given, &[Option<Verdict>], &str, Overall)] = &[
    (
        Given::Item,
        &[Some(Verdict::Done(0))],
        "done",
        Overall::Flawless,
    ),
    (
        Given::Item,
        &[Some(Verdict::Done(41))],
        "refused 41",
        Overall::Flawed,
    ),
    (
        Given::Item,
        &[Some(Verdict::Blamed)],
        "blamed",
        Overall::Flawed,
    ),
    (
        Given::Item,
        &[Some(Verdict::Missing(0))],
        "missing 3 0000000000000009",
        Overall::Flawed,
    ),
    (Given::Item, &[None], "unanswered", Overall::Unanswered),
    (Given::Kept, &[], "kept", Overall::Flawless),
    (Given::Duplicate, &[], "duplicate", Overall::Flawed),
];

#[test]
fn each_verdict_has_its_words(rt: HostRuntime) -> Result<(), Fail> {
    for (given, verdicts, words, overall) in VERDICTS {
        let as_told = is_told(rt.alloc(), *given, *verdicts, *words, *overall)?;
        assert!(rt; as_told, "{words}");
    }
    Ok(())
}

/// Of an entry of this class, which is no item, these words are told, and its replay is flawed.
fn is_flawed(alloc: Global, given: Given, words: &str) -> Result<bool, Fail> {
    is_told(alloc, given, &[], words, Overall::Flawed)
}

const DAMAGES: &[(EntryCause, &str)] = &[
    (EntryCause::Deflate, "deflate"),
    (EntryCause::BadFormat { n: 3 }, "format 3"),
    (EntryCause::TooLarge { size: 16_777_217 }, "too large"),
    (EntryCause::SizeDiffers { a: 9, b: 8 }, "sizes 9 8"),
    (
        EntryCause::BadChecksum {
            stated: 0xCBF4_3927,
            found: 0x26,
        },
        "checksum cbf43927 00000026",
    ),
];

#[test]
fn each_damage_has_its_words(rt: HostRuntime) -> Result<(), Fail> {
    for (cause, words) in DAMAGES {
        let as_told = is_flawed(rt.alloc(), Given::Damaged(*cause), *words)?;
        assert!(rt; as_told, "{words}");
    }
    Ok(())
}

const CAUSES: &[(Cause, &str)] = &[
    (Cause::NoZeroByte, "unreadable zero"),
    (Cause::Float(17), "unreadable float 17"),
    (Cause::BadJson, "unreadable json"),
    (Cause::NoSuchState, "unreadable state"),
    (Cause::CodeSize(6), "unreadable code 6"),
    (Cause::Window(1, 64, 64), "unreadable window 1 64 64"),
    (
        Cause::Varint(VarintError::Short { at: 4 }),
        "unreadable varint short 4",
    ),
    (
        Cause::Varint(VarintError::TooLarge { at: 4 }),
        "unreadable varint large 4",
    ),
    (
        Cause::Varint(VarintError::Extra { at: 4 }),
        "unreadable varint extra 4",
    ),
    (
        Cause::Field("stage.name", FieldCause::NotText),
        "unreadable field stage.name text",
    ),
    (
        Cause::Field("flags", FieldCause::HasPNext),
        "unreadable field flags pnext",
    ),
    (
        Cause::Field("flags", FieldCause::NotNumber),
        "unreadable field flags number",
    ),
    (
        Cause::Field("flags", FieldCause::TooLarge),
        "unreadable field flags large",
    ),
    (
        Cause::Field("flags", FieldCause::NotUnit),
        "unreadable field flags unit",
    ),
    (
        Cause::Field("flags", FieldCause::NotText),
        "unreadable field flags text",
    ),
    (
        Cause::Field("flags", FieldCause::NotList),
        "unreadable field flags list",
    ),
    (
        Cause::Field("flags", FieldCause::NotObject),
        "unreadable field flags object",
    ),
    (
        Cause::Field("flags", FieldCause::BadLength),
        "unreadable field flags length",
    ),
    (
        Cause::Field("flags", FieldCause::BadHash),
        "unreadable field flags hash",
    ),
    (
        Cause::Field("flags", FieldCause::BadBase64),
        "unreadable field flags base64",
    ),
];

#[test]
fn each_cause_has_its_words(rt: HostRuntime) -> Result<(), Fail> {
    for (cause, words) in CAUSES {
        let as_told = is_flawed(rt.alloc(), Given::Unreadable(*cause), *words)?;
        assert!(rt; as_told, "{words}");
    }
    Ok(())
}
