use crate::note::RecordReply;
use foz_words::Key;

/// The answer to a line of a capture that isn't skipped.
#[derive(Debug, Drop)]
pub struct Answered<C> {
    /// The line's number, counted from 1.
    pub line: u32,
    pub answer: LineAnswer<C>,
}

/// What a line is answered. `C` is why a line can't be read.
#[derive(Debug, Drop)]
pub enum LineAnswer<C> {
    /// It isn't read.
    Refused(C),
    /// It was read, and a recorder replied so to its key and payload.
    Replied { key: Key, reply: RecordReply },
}
