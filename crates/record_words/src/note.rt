ghost use Rattle.std.specs.Prelude.{◌≡◌};
ghost use Rattle.record_words.specs.Replies.{is_new, is_known, is_full};

use foz_words::Key;
use std::collections::LinkedList;

/// A call of a recorder.
#[derive(Clone, Copy, Debug, PartialEq, Eq)]
pub enum RecordCall {
    Record { key: Key },
    Flush,
}

/// What a recorder replies.
#[derive(Clone, Copy, Debug, PartialEq, Eq)]
pub enum RecordReply {
    New { index: u32 },
    Known { index: u32 },
    Collision { index: u32 },
    TooLarge { size: u64 },
    Full { end: u64, need: u64 },
    TooMany { count: u32 },
    Flushed { count: u32 },
    DiskFault,
    Broken,
}

impl RecordReply {
    /// Was the payload added?
    pub fn is_new(&self) -> bool
        ensures { result ≡ is_new self.now }
    {
        matches!(self, RecordReply::New { .. })
    }

    /// Was the payload there already?
    pub fn is_known(&self) -> bool
        ensures { result ≡ is_known self.now }
    {
        matches!(self, RecordReply::Known { .. })
    }

    /// Has the archive no room for the payload?
    pub fn is_full(&self) -> bool
        ensures { result ≡ is_full self.now }
    {
        matches!(self, RecordReply::Full { .. } | RecordReply::TooMany { .. })
    }
}

/// A call with its reply, and the number of the seat that made it.
#[derive(Clone, Copy, Debug, PartialEq, Eq)]
pub struct RecordNote {
    pub seat: u32,
    pub call: RecordCall,
    pub reply: RecordReply,
}

/// A note and the payload that the book holds at its index, if it has one. It exists in the proofs alone.
pub struct FullNote {
    pub note: RecordNote,
    pub payload: LinkedList<u8>,
}
