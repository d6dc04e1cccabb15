//! Graphs of archives, as tables. A graph is made by one function and judged by others that borrow it, so that no test holds one.
use crate::{Class, Graph, find_entry, plan_of};
use foz_entry::{Entry, EntryCause, stored_head};
use foz_payload::Unreadable;
use foz_words::{Key, NoMemory, Row, hex16};
use replay_core::{Dep, Plan};
use std::alloc::Global;

// A pipeline layout without sets, under (3, 3).
const LAYOUT: &[u8] = b"{\"pipelineLayouts\":{\"0000000000000003\":{}},\"version\":6}";

// A compute module, under (4, 4): its JSON with the zero byte, and its words as varints.
const MODULE: &[u8] =
    b"{\"shaderModules\":{\"0000000000000004\":{\"codeSize\":140,\"flags\":0,\"varintOffset\":0,\"varintSize\":64}},\"version\":6}\0\x83\x84\x8C\x39\x80\x80\x04\x00\x05\x00\x91\x80\x08\x01\x8E\x80\x0C\x00\x01\x8F\x80\x14\x05\x01\xED\xC2\xA5\xF3\x06\x00\x90\x80\x18\x01\x11\x01\x01\x01\x93\x80\x08\x02\xA1\x80\x0C\x03\x02\xB6\x80\x14\x02\x01\x00\x03\xF8\x81\x08\x04\xFD\x81\x04\xB8\x80\x04";

// What a compute pipeline says of its layout and its stage, under (7, 7), and with a base pipeline under (7, 7) and
// (7, 8).
const PIPELINE: &[u8] =
    b"{\"computePipelines\":{\"0000000000000007\":{\"layout\":\"0000000000000003\",\"stage\":{\"module\":\"0000000000000004\",\"name\":\"main\",\"stage\":32}}},\"version\":6}";

const SEVEN: &[u8] =
    b"{\"computePipelines\":{\"0000000000000007\":{\"basePipelineHandle\":\"0000000000000008\",\"layout\":\"0000000000000003\",\"stage\":{\"module\":\"0000000000000004\",\"name\":\"main\",\"stage\":32}}},\"version\":6}";

const EIGHT: &[u8] =
    b"{\"computePipelines\":{\"0000000000000008\":{\"basePipelineHandle\":\"0000000000000007\",\"layout\":\"0000000000000003\",\"stage\":{\"module\":\"0000000000000004\",\"name\":\"main\",\"stage\":32}}},\"version\":6}";

const SAMPLER: &[u8] = b"{\"samplers\":{\"0000000000000001\":{}},\"version\":6}";

// A pipeline layout under (3, 3) of the set layouts 1, 2, 1 and 4.
const SETS: &[u8] =
    b"{\"pipelineLayouts\":{\"0000000000000003\":{\"setLayouts\":[\"0000000000000001\",\"0000000000000002\",\"0000000000000001\",\"0000000000000004\"]}},\"version\":6}";

const SET_TWO: &[u8] = b"{\"setLayouts\":{\"0000000000000002\":{}},\"version\":6}";

// Set layouts that are no items.
const NO_SET_ONE: Dep = Dep::Absent(Key { tag: 2, hash: 1 });

const NO_SET_FOUR: Dep = Dep::Absent(Key { tag: 2, hash: 4 });

/// An entry: whether it is damaged, the tag and the hash of its key, and its payload.
type Given = (bool, u32, u64, &'static [u8]);

/// A class, where the tests tell it apart from others.
#[derive(Clone, Copy, Debug, PartialEq, Eq)]
enum Kind {
    BadFormat,
    Duplicate(u32),
    Kept,
    BadJson,
    NoSuchState,
    Item(u32),
    Another,
}

/// Entries and their graph: the class of each of them, and of each item its place, what it depends on, and the hash of its entry.
struct Case {
    name: &'static str,
    entries: &'static [Given],
    classes: &'static [Kind],
    items: &'static [u32],
    deps: &'static [&'static [Dep]],
    hashes: &'static [u64],
}

const CASES: &[Case] = &[
    Case {
        name: "no entries have no items",
        entries: &[],
        classes: &[],
        items: &[],
        deps: &[],
        hashes: &[],
    },
    Case {
        name: "a pipeline depends on its module and its layout",
        entries: &[
            (false, 3, 3, LAYOUT),
            (false, 4, 4, MODULE),
            (false, 7, 7, PIPELINE),
        ],
        classes: &[Kind::Item(0), Kind::Item(1), Kind::Item(2)],
        items: &[0, 1, 2],
        deps: &[&[], &[], &[Dep::Item(1), Dep::Item(0)]],
        hashes: &[3, 4, 7],
    },
    Case {
        name: "two pipelines can depend on each other",
        entries: &[
            (false, 3, 3, LAYOUT),
            (false, 4, 4, MODULE),
            (false, 7, 7, SEVEN),
            (false, 7, 8, EIGHT),
        ],
        classes: &[Kind::Item(0), Kind::Item(1), Kind::Item(2), Kind::Item(3)],
        items: &[0, 1, 2, 3],
        deps: &[
            &[],
            &[],
            &[Dep::Item(1), Dep::Item(0), Dep::Item(3)],
            &[Dep::Item(1), Dep::Item(0), Dep::Item(2)],
        ],
        hashes: &[3, 4, 7, 8],
    },
    Case {
        name: "each class comes first where it fits",
        entries: &[
            (true, 1, 1, SAMPLER),
            (false, 1, 1, SAMPLER),
            (true, 1, 1, SAMPLER),
            (false, 1, 1, b"other"),
            (false, 0, 1, SAMPLER),
            (false, 8, 1, b""),
            (false, 8, 1, b""),
            (false, 1, 2, b"{"),
            (false, 1, 2, SAMPLER),
            (false, 2, 2, SET_TWO),
            (false, 1, 3, SAMPLER),
        ],
        classes: &[
            Kind::BadFormat,
            Kind::Item(0),
            Kind::BadFormat,
            Kind::Duplicate(1),
            Kind::Kept,
            Kind::Kept,
            Kind::Duplicate(5),
            Kind::BadJson,
            Kind::Duplicate(7),
            Kind::Item(1),
            Kind::NoSuchState,
        ],
        items: &[1, 9],
        deps: &[&[], &[]],
        hashes: &[1, 2],
    },
    Case {
        name: "a key that no item has is absent",
        entries: &[
            (false, 3, 3, SETS),
            (true, 2, 1, SET_TWO),
            (false, 2, 4, SET_TWO),
            (false, 2, 2, SET_TWO),
        ],
        classes: &[
            Kind::Item(0),
            Kind::BadFormat,
            Kind::NoSuchState,
            Kind::Item(1),
        ],
        items: &[0, 3],
        deps: &[&[NO_SET_ONE, Dep::Item(1), NO_SET_ONE, NO_SET_FOUR], &[]],
        hashes: &[3, 2],
    },
];

/// An entry with this payload. Where it is damaged, it is in a format that no reader knows.
fn entry(alloc: Global, damaged: bool, key: Key, payload: &[u8]) -> Result<Entry, NoMemory> {
    let mut head = stored_head(key, 0, payload.len().min(10_000) as u32);
    if damaged {
        head.format = 7;
    }
    Ok(Entry {
        offset: 0,
        head,
        payload: Row::from_vec(Vec::from_slice(alloc, payload)?),
    })
}

fn entries_of(alloc: Global, given: &[Given]) -> Result<Vec<Entry>, NoMemory> {
    let mut entries = Vec::new(alloc);
    for (damaged, tag, hash, payload) in given {
        let key = Key {
            tag: *tag,
            hash: *hash,
        };
        entries.push(entry(alloc, *damaged, key, *payload)?)?;
    }
    Ok(entries)
}

fn graph_of(alloc: Global, entries: &[Entry]) -> Option<Graph> {
    if entries.len() <= 1_048_576 {
        plan_of(alloc, entries).ok()
    } else {
        None
    }
}

fn kind_of(class: &Class) -> Kind {
    match class {
        Class::Damaged(EntryCause::BadFormat { n: 7 }) => Kind::BadFormat,
        Class::Duplicate { first } => Kind::Duplicate(*first),
        Class::Kept => Kind::Kept,
        Class::Unreadable(Unreadable::BadJson) => Kind::BadJson,
        Class::Unreadable(Unreadable::NoSuchState) => Kind::NoSuchState,
        Class::Item { number } => Kind::Item(*number),
        _ => Kind::Another,
    }
}

fn has_classes(graph: &Graph, wanted: &[Kind]) -> bool {
    let mut as_wanted = graph.classes.len() == wanted.len();
    for (class, kind) in graph.classes.as_slice().iter().zip(wanted.iter()) {
        as_wanted = kind_of(class) == *kind && as_wanted;
    }
    as_wanted
}

/// The item depends on these.
fn depends_on(plan: &Plan, item: usize, wanted: &[Dep]) -> bool {
    match plan.deps.as_slice().get(item) {
        Some(deps) => deps.as_slice() == wanted,
        None => false,
    }
}

fn has_deps(plan: &Plan, wanted: &[&[Dep]]) -> bool {
    let mut as_wanted = plan.deps.len() == wanted.len() && plan.fits();
    for (item, deps) in wanted.iter().enumerate() {
        as_wanted = depends_on(plan, item, *deps) && as_wanted;
    }
    as_wanted
}

/// The hash of the entry of an item.
fn hash_of(graph: &Graph, entries: &[Entry], item: usize) -> Option<u64> {
    match find_entry(graph, entries, u32::try_from(item).ok()?) {
        Some(entry) => Some(entry.head.key.hash),
        None => None,
    }
}

/// The entries of items have these hashes, and there are no more of them.
fn has_entries(graph: &Graph, entries: &[Entry], wanted: &[u64]) -> bool {
    let mut as_wanted = hash_of(graph, entries, wanted.len()).is_none();
    for (item, hash) in wanted.iter().enumerate() {
        as_wanted = hash_of(graph, entries, item) == Some(*hash) && as_wanted;
    }
    as_wanted
}

fn is_as_told(graph: &Graph, entries: &[Entry], case: &Case) -> bool {
    has_classes(graph, case.classes)
        && graph.items.as_slice() == case.items
        && has_deps(&graph.plan, case.deps)
        && has_entries(graph, entries, case.hashes)
}

fn entries_go(alloc: Global, entries: &[Entry], case: &Case) -> bool {
    match graph_of(alloc, entries) {
        Some(graph) => is_as_told(&graph, entries, case),
        None => false,
    }
}

fn holds(alloc: Global, case: &Case) -> bool {
    match entries_of(alloc, case.entries) {
        Ok(entries) => entries_go(alloc, &entries, case),
        Err(_) => false,
    }
}

#[test]
fn each_archive_has_its_graph(rt: HostRuntime) {
    for case in CASES {
        let name = case.name;
        assert!(rt; holds(rt.alloc(), case), "{name}");
    }
}

const HALF: u32 = 50_000;

/// The payload of a pipeline layout under this hash, which refers to the set layout of the same hash.
const LAYOUT_TEXTS: [&[u8]; 3] = [
    b"{\"pipelineLayouts\":{\"",
    b"\":{\"setLayouts\":[\"",
    b"\"]}},\"version\":6}",
];

const SET_TEXTS: [&[u8]; 2] = [b"{\"setLayouts\":{\"", b"\":{}},\"version\":6}"];

/// These texts with the hash in each gap between them.
fn text_with_hash(alloc: Global, hash: u64, texts: &[&[u8]]) -> Result<Vec<u8>, NoMemory> {
    let mut joined = Vec::new(alloc);
    for text in texts {
        if !joined.is_empty() {
            joined.extend_from_slice(&hex16(hash))?;
        }
        joined.extend_from_slice(*text)?;
    }
    Ok(joined)
}

fn entry_with_hash(alloc: Global, tag: u32, hash: u64, texts: &[&[u8]]) -> Result<Entry, NoMemory> {
    let payload = text_with_hash(alloc, hash, texts)?;
    entry(alloc, false, Key { tag, hash }, &payload)
}

/// The first half are pipeline layouts, each of which refers to a set layout of the second half.
fn many_entries(alloc: Global) -> Result<Vec<Entry>, NoMemory> {
    let mut entries = Vec::new(alloc);
    for i in 0..HALF {
        entries.push(entry_with_hash(alloc, 3, u64::from(i), &LAYOUT_TEXTS)?)?;
    }
    for i in 0..HALF {
        entries.push(entry_with_hash(alloc, 2, u64::from(i), &SET_TEXTS)?)?;
    }
    Ok(entries)
}

fn halves_are_joined(plan: &Plan) -> bool {
    let mut as_wanted = plan.deps.len() == 100_000;
    for i in 0..HALF {
        as_wanted = depends_on(plan, i as usize, &[Dep::Item(HALF + i)]) && as_wanted;
    }
    as_wanted
}

fn many_entries_go(alloc: Global, entries: &[Entry]) -> bool {
    match graph_of(alloc, entries) {
        Some(graph) => halves_are_joined(&graph.plan),
        None => false,
    }
}

fn many_hold(alloc: Global) -> bool {
    match many_entries(alloc) {
        Ok(entries) => many_entries_go(alloc, &entries),
        Err(_) => false,
    }
}

#[test]
fn many_entries_take_time_in_proportion(rt: HostRuntime) {
    assert!(rt; many_hold(rt.alloc()));
}
