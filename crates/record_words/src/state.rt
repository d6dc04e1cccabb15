use foz_entry::Entry;
use std::collections::LinkedList;

/// The state of a recorder. It exists in the proofs alone: a book is seen as one.
pub struct RecorderState {
    pub entries: LinkedList<Entry>,
    /// How many of them stand in the file.
    pub flushed: u32,
    /// Whether the disk failed.
    pub broken: bool,
}
