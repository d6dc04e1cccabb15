use foz_entry::EntryCause;
use foz_payload::Unreadable;

/// What an entry is to a replay, the first that fits.
#[derive(Debug, Drop)]
pub enum Class {
    /// The entry is damaged.
    Damaged(EntryCause),
    /// The entry at the place `first`, before it, is undamaged and has the same key.
    Duplicate { first: u32 },
    /// Its tag isn't that of a kind of states, 1 to 7: it is kept and never replayed.
    Kept,
    /// Its payload can't be read.
    Unreadable(Unreadable),
    /// It is the item of this number. Items are numbered from 0 in the order of the file.
    Item { number: u32 },
}
