// The bytes that a crew's feed keeps.
use std::marker::Model;

/// How many bytes the longest frame of a worker has.
pub(crate) const ROOM: usize = 21;

/// Up to 21 bytes, which contracts see as a list.
#[derive(Debug, Drop)]
pub(crate) struct ReplyBytes {
    bytes: [u8; ROOM],
    len: usize,
}

impl Model for ReplyBytes {
    ghost use Rattle.std.specs.Prelude.{List, ℕ, ◌≤◌, take};

    ghost Value = { List ℕ };

    ghost view = { λ kept. take kept.len kept.bytes };

    ghost invariant = { λ kept. kept.len ≤ 21 };
}

impl ReplyBytes {
    ghost use Rattle.std.specs.Prelude.{◌≡◌, ◌≤◌, ◌-◌, [], ◌++◌, length, take, drop, min};

    pub(crate) fn new() -> ReplyBytes
        ensures { result ≡ [] }
    {
        ReplyBytes {
            bytes: [0; ROOM],
            len: 0,
        }
    }

    pub(crate) fn as_slice(&self) -> &[u8]
        ensures kept { result.now ≡ self.now }
        ensures few { length self.now ≤ 21 }
    {
        &self.bytes[..self.len]
    }

    /// Adds as many bytes as there is room for, and answers how many.
    pub(crate) fn push(&mut self, piece: &[u8]) -> usize
        ensures count { result ≡ min (21 - length self.old) (length piece.now) }
        ensures kept { self.new ≡ self.old ++ take result piece.now }
    {
        let count = piece.len().min(ROOM - self.len);
        self.bytes[self.len..self.len + count].copy_from_slice(&piece[..count]);
        self.len += count;
        count
    }

    /// Lets so many bytes at the beginning go.
    pub(crate) fn pass(&mut self, count: usize)
        requires { count ≤ length self.old }
        ensures { self.new ≡ drop count self.old }
    {
        self.bytes.copy_within(count..self.len, 0);
        self.len -= count;
    }
}
