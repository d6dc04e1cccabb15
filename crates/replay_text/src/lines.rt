//! The lines of entries.
ghost use Rattle.std.specs.Prelude.{◌≡◌, ◌++◌, Some, None, OnOk, OnErr, IfOk, string_bytes, codes, slice_get, option_map};
ghost use Rattle.replay_text.specs.Lines.{item_key, dep_key, missing_key, missing_words, verdict_words, verdict_in, class_words, line_of, line_at};

use crate::words::unreadable_words;
use dep_graph::{Class, Graph, find_entry};
use foz_entry::Entry;
use foz_words::{Key, NoMemory};
use replay_core::{Dep, Verdict};
use report_words::{Damage, Hash};
use std::alloc::Global;

/// The key of the item with this number.
fn item_key(entries: &[Entry], graph: &Graph, item: u32) -> Option<Key>
    ensures { result ≡ item_key entries.now graph.now item }
{
    match find_entry(graph, entries, item) {
        Some(entry) => Some(entry.head.key),
        None => None,
    }
}

/// The key that a dependency names.
fn dep_key(entries: &[Entry], graph: &Graph, dep: Dep) -> Option<Key>
    ensures { result ≡ dep_key entries.now graph.now dep }
{
    match dep {
        Dep::Item(item) => item_key(entries, graph, item),
        Dep::Absent(key) => Some(key),
    }
}

/// The key of the dependency at this place in an item's list.
fn missing_key(entries: &[Entry], graph: &Graph, item: u32, place: u32) -> Option<Key>
    ensures { result ≡ missing_key entries.now graph.now item place }
{
    match graph.plan.deps.as_slice().get(item as usize) {
        Some(deps) => match deps.as_slice().get(place as usize) {
            Some(dep) => dep_key(entries, graph, *dep),
            None => None,
        },
        None => None,
    }
}

/// The words of an item whose dependency is missing.
fn missing_words(alloc: Global, missing: Option<Key>) -> Result<String, NoMemory>
    ensures { IfOk result (λ words. string_bytes words ≡ missing_words missing) }
{
    match missing {
        Some(key) => {
            let (tag, hash) = (key.tag, Hash(key.hash));
            Ok(format!(in alloc; "missing {tag} {hash}")?)
        }
        None => Ok(format!(in alloc; "missing")?),
    }
}

/// The verdict of an item, none where it is undecided.
pub(crate) fn verdict_in(verdicts: &[Option<Verdict>], item: u32) -> Option<Verdict>
    ensures { result ≡ verdict_in verdicts.now item }
{
    match verdicts.get(item as usize) {
        Some(verdict) => *verdict,
        None => None,
    }
}

/// The words of an item.
fn verdict_words(
    alloc: Global,
    entries: &[Entry],
    graph: &Graph,
    item: u32,
    verdict: Option<Verdict>,
) -> Result<String, NoMemory>
    ensures { IfOk result (λ words. string_bytes words ≡ verdict_words (missing_key entries.now graph.now item) verdict) }
{
    match verdict {
        Some(Verdict::Done(code)) => {
            if code == 0 {
                Ok(format!(in alloc; "done")?)
            } else {
                Ok(format!(in alloc; "refused {code}")?)
            }
        }
        Some(Verdict::Blamed) => Ok(format!(in alloc; "blamed")?),
        Some(Verdict::Missing(place)) => {
            missing_words(alloc, missing_key(entries, graph, item, place))
        }
        None => Ok(format!(in alloc; "unanswered")?),
    }
}

/// The words of an entry of this class.
fn class_words(
    alloc: Global,
    entries: &[Entry],
    graph: &Graph,
    verdicts: &[Option<Verdict>],
    class: &Class,
) -> Result<String, NoMemory>
    ensures { IfOk result (λ words. string_bytes words ≡ class_words entries.now graph.now verdicts.now class.now) }
{
    match class {
        Class::Damaged(cause) => {
            let damage = Damage(*cause);
            Ok(format!(in alloc; "{damage}")?)
        }
        Class::Duplicate { first: _ } => Ok(format!(in alloc; "duplicate")?),
        Class::Kept => Ok(format!(in alloc; "kept")?),
        Class::Unreadable(cause) => {
            let words = unreadable_words(alloc, cause)?;
            Ok(format!(in alloc; "unreadable {words}")?)
        }
        Class::Item { number } => verdict_words(
            alloc,
            entries,
            graph,
            *number,
            verdict_in(verdicts, *number),
        ),
    }
}

/// Adds the line of the entry at a place. An `Err` changes nothing.
#[tactic(auto, unfolding(crate::specs::Lines::line_at))]
pub(crate) fn push_line(
    alloc: Global,
    out: &mut Vec<u8>,
    entries: &[Entry],
    graph: &Graph,
    verdicts: &[Option<Verdict>],
    index: usize,
) -> Result<(), NoMemory>
    ensures line { OnOk result (out.new.items ≡ out.old.items ++ line_at entries.now graph.now verdicts.now index) }
    ensures refused { OnErr result (out.new.items ≡ out.old.items) }
{
    let (Some(entry), Some(class)) = (entries.get(index), graph.classes.as_slice().get(index))
    else {
        return Ok(());
    };
    let (tag, hash) = (entry.head.key.tag, Hash(entry.head.key.hash));
    let words = class_words(alloc, entries, graph, verdicts, class)?;
    let text = format!(in alloc; "{index} {tag} {hash} {words}\n")?;
    out.extend_from_slice(text.as_bytes())?;
    Ok(())
}
