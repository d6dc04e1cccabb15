// What the writer and a reader know.
use replay_core::Counts;
use std::collections::LinkedList;

/// What one end knows: the rows that were published, as far as it has seen.
/// It exists in contracts alone: no value of it is made.
pub struct View {
    pub writes: bool,
    pub rows: LinkedList<Counts>,
}
