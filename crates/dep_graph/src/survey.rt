//! The first pass over the entries: their classes, the items, and what each item refers to.
ghost use Rattle.std.specs.Prelude.{◌≡◌, ◌<◌, ◌≤◌, ◌^◌, [], ◌∷◌, ◌++◌, List, length, map, IfOk, OnOk};
ghost use Rattle.foz_entry.specs.Damage.{damage};
ghost use Rattle.foz_entry.specs.declared.cut.Entry.{Entry};
ghost use Rattle.indexmap.specs.IndexMap.{get};
ghost use Rattle.record_words.specs.Index.{IsFirstOfKey, IsIndexOf};
ghost use Rattle.dep_graph.specs.Surveys.{IsSorted, IsSurvey, dep_held, number_in};

use crate::class::Class;
use foz_entry::{Entry, EntryCause, check};
use foz_payload::{Unreadable, state_of};
use foz_words::{Key, NoMemory, Row};
use indexmap::IndexMap;
use record_words::indexes_grow;
use replay_core::Dep;
use state_words::refs_of;
use std::alloc::Global;

/// An item with the keys that it refers to, or the class of an entry that is none.
#[derive(Debug, Drop)]
pub(crate) enum Sorted {
    Item(Row<Key>),
    Other(Class),
}

/// What is known of the entries so far.
#[derive(Drop)]
pub(crate) struct Survey {
    // The place of each key's holder, the first undamaged entry that has it.
    pub index: IndexMap<Key, u32>,

    pub classes: Row<Class>,

    // The place of each item.
    pub items: Row<u32>,

    // The keys that each item refers to.
    pub refs: Row<Row<Key>>,
}

/// Surveys all entries. Each payload is read once, and nothing of it is kept but the keys that it refers to.
pub(crate) fn survey_of(alloc: Global, entries: &[Entry]) -> Result<Survey, NoMemory>
    requires few { length entries.now < 2 ^ 32 }
    ensures { IfOk result (λ survey. IsSurvey ⟦<Key as PartialEq>⟧.eq survey entries.now) }
{
    let mut survey = Survey {
        index: IndexMap::new(alloc),
        classes: Row::new(alloc),
        items: Row::new(alloc),
        refs: Row::new(alloc),
    };
    for entry in entries {
        survey.add(alloc, entry, damage_of(entry))?;
    }
    Ok(survey)
}

/// The first damage of an entry.
fn damage_of(entry: &Entry) -> Option<EntryCause>
    ensures { result ≡ damage entry.now.head entry.now.payload }
{
    match check(&entry.head, entry.payload.as_slice()) {
        Ok(()) => None,
        Err(cause) => Some(cause),
    }
}

/// What the entry at the next place is, whose reader found this damage. It joins the index where it is the first of its key.
fn sort(
    alloc: Global,
    index: &mut IndexMap<Key, u32>,
    place: u32,
    entry: &Entry,
    found: Option<EntryCause>,
) -> Result<Sorted, NoMemory>
    requires found { found ≡ damage entry.now.head entry.now.payload }
    ensures indexed { OnOk result ((before : List Entry) → length before ≡ place → IsIndexOf (get ⟦<Key as PartialEq>⟧.eq index.old) before → IsIndexOf (get ⟦<Key as PartialEq>⟧.eq index.new) (before ++ entry.now ∷ [])) }
    ensures sorted { IfOk result (λ sorted. (before : List Entry) → IsIndexOf (get ⟦<Key as PartialEq>⟧.eq index.old) before → IsSorted before entry.now sorted) }
{
    indexes_grow();
    if let Some(cause) = found {
        return Ok(Sorted::Other(Class::Damaged(cause)));
    }
    let key = entry.head.key;
    if let Some(first) = index.get(&key).copied() {
        return Ok(Sorted::Other(Class::Duplicate { first }));
    }
    index.insert(key, place)?;
    read_first(alloc, entry)
}

/// What an undamaged entry is that is the first of its key.
fn read_first(alloc: Global, entry: &Entry) -> Result<Sorted, NoMemory>
    ensures { IfOk result (λ sorted. (before : List Entry) → IsFirstOfKey before entry.now → IsSorted before entry.now sorted) }
{
    let key = entry.head.key;
    if key.tag < 1 || key.tag > 7 {
        return Ok(Sorted::Other(Class::Kept));
    }
    match state_of(alloc, key, entry.payload.as_slice()) {
        Ok(state) => Ok(Sorted::Item(refs_of(alloc, &state)?)),
        Err(Unreadable::Memory) => Err(NoMemory),
        Err(cause) => Ok(Sorted::Other(Class::Unreadable(cause))),
    }
}

/// The number of the item at this place. It is `None` exactly where no item stands there.
fn number_at(classes: &[Class], place: u32) -> Option<u32>
    ensures { result ≡ number_in classes.now place }
{
    match classes.get(place as usize) {
        Some(Class::Item { number }) => Some(*number),
        _ => None,
    }
}

impl Survey {
    /// Adds the next entry, whose reader found this damage: a checksum is computed once, by whoever reads the entry.
    fn add(
        &mut self,
        alloc: Global,
        entry: &Entry,
        found: Option<EntryCause>,
    ) -> Result<(), NoMemory>
        requires found { found ≡ damage entry.now.head entry.now.payload }
        requires few { length self.old.classes < 2 ^ 32 }
        requires fewer { length self.old.items ≤ length self.old.classes }
        ensures { OnOk result ((before : List Entry) → IsSurvey ⟦<Key as PartialEq>⟧.eq self.old before → IsSurvey ⟦<Key as PartialEq>⟧.eq self.new (before ++ entry.now ∷ [])) }
    {
        let place = self.classes.len() as u32;
        match sort(alloc, &mut self.index, place, entry, found)? {
            Sorted::Other(class) => self.classes.push(class),
            Sorted::Item(refs) => {
                let number = self.items.len() as u32;
                self.items.push(place)?;
                self.refs.push(refs)?;
                self.classes.push(Class::Item { number })
            }
        }
    }

    /// What an item with this key in its payload depends on.
    fn dep_on(&self, key: Key) -> Dep
        ensures { (entries : List Entry) → IsIndexOf (get ⟦<Key as PartialEq>⟧.eq self.now.index) entries → result ≡ dep_held entries self.now.classes key }
    {
        let Some(place) = self.index.get(&key).copied() else {
            return Dep::Absent(key);
        };
        match number_at(self.classes.as_slice(), place) {
            Some(number) => Dep::Item(number),
            None => Dep::Absent(key),
        }
    }

    /// What an item with these keys in its payload depends on, in their order.
    pub fn deps_on(&self, alloc: Global, keys: &[Key]) -> Result<Row<Dep>, NoMemory>
        ensures { (entries : List Entry) → IsIndexOf (get ⟦<Key as PartialEq>⟧.eq self.now.index) entries → IfOk result (λ deps. deps ≡ map (dep_held entries self.now.classes) keys.now) }
    {
        let mut deps = Vec::with_capacity(alloc, keys.len())?;
        for key in keys {
            deps.push(self.dep_on(*key))?;
        }
        Ok(Row::from_vec(deps))
    }
}
