// The bytes that a worker's feed keeps.
use foz_words::NoMemory;
use std::alloc::Global;
use std::marker::Model;

/// Bytes that grow at the end and are passed at the beginning, which contracts see as those that weren't passed.
#[derive(Debug, Drop)]
pub(crate) struct Pieces {
    bytes: Vec<u8>,
    passed: usize,
}

impl Model for Pieces {
    ghost use Rattle.std.specs.Prelude.{List, ℕ, ◌≤◌, length, drop};

    ghost Value = { List ℕ };

    ghost view = { λ pieces. drop pieces.passed pieces.bytes.items };

    ghost invariant = { λ pieces. pieces.passed ≤ length pieces.bytes.items };
}

impl Pieces {
    ghost use Rattle.std.specs.Prelude.{◌≡◌, ◌≤◌, [], ◌++◌, length, drop, OnOk, OnErr};

    pub(crate) fn new(alloc: Global) -> Pieces
        ensures { result ≡ [] }
    {
        Pieces {
            bytes: Vec::new(alloc),
            passed: 0,
        }
    }

    pub(crate) fn as_slice(&self) -> &[u8]
        ensures { result.now ≡ self.now }
    {
        &self.bytes[self.passed..]
    }

    /// Adds bytes at the end. An `Err` changes nothing.
    pub(crate) fn push(&mut self, piece: &[u8]) -> Result<(), NoMemory>
        ensures ok { OnOk result (self.new ≡ self.old ++ piece.now) }
        ensures err { OnErr result (self.new ≡ self.old) }
    {
        self.close_up();
        self.bytes.extend_from_slice(piece)?;
        Ok(())
    }

    /// Lets the passed bytes go where they are at least half of all: so what is moved was passed before, byte for byte, and all
    /// moves together are no more work than the bytes given.
    fn close_up(&mut self)
        ensures { self.new ≡ self.old }
    {
        let kept = self.bytes.len() - self.passed;
        if kept <= self.passed {
            self.bytes.copy_within(self.passed.., 0);
            self.bytes.truncate(kept);
            self.passed = 0;
        }
    }

    /// Lets so many bytes at the beginning go.
    pub(crate) fn pass(&mut self, count: usize)
        requires { count ≤ length self.old }
        ensures { self.new ≡ drop count self.old }
    {
        self.passed += count;
    }
}
