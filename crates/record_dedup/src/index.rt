//! The index from each key to its holder, the first undamaged entry that has it.
ghost use Rattle.std.specs.Prelude.{◌≡◌, ◌<◌, ◌^◌, [], ◌∷◌, ◌++◌, List, length, IfOk, OnOk};
ghost use Rattle.indexmap.specs.IndexMap.{get};
ghost use Rattle.foz_entry.specs.declared.cut.Entry.{Entry};
ghost use Rattle.record_words.specs.Index.{IsIndexOf};

use foz_entry::{Entry, check};
use foz_words::{Key, NoMemory};
use indexmap::IndexMap;
use record_words::{first_of_its_key_holds_it, indexes_grow};
use std::alloc::Global;

/// The index of these entries.
pub(crate) fn index_of(alloc: Global, entries: &[Entry]) -> Result<IndexMap<Key, u32>, NoMemory>
    requires few { length entries.now < 2 ^ 32 }
    ensures { IfOk result (λ index. IsIndexOf (get ⟦<Key as PartialEq>⟧.eq index) entries.now) }
{
    indexes_grow();
    let mut index = IndexMap::new(alloc);
    for (place, entry) in entries.iter().enumerate() {
        add_entry(&mut index, place as u32, entry)?;
    }
    Ok(index)
}

/// Adds the entry at the next place, unless it is damaged or its key is held already.
fn add_entry(index: &mut IndexMap<Key, u32>, place: u32, entry: &Entry) -> Result<(), NoMemory>
    ensures { OnOk result ((before : List Entry) → length before ≡ place → IsIndexOf (get ⟦<Key as PartialEq>⟧.eq index.old) before → IsIndexOf (get ⟦<Key as PartialEq>⟧.eq index.new) (before ++ entry.now ∷ [])) }
{
    first_of_its_key_holds_it();
    indexes_grow();
    let key = entry.head.key;
    if check(&entry.head, entry.payload.as_slice()).is_ok() && !index.contains_key(&key) {
        index.insert(key, place)?;
    }
    Ok(())
}
