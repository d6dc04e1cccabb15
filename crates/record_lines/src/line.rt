//! A capture, a line at a time.
ghost use Rattle.std.specs.Prelude.{◌≡◌, ◌==◌, List, length, drop, IfOk, OnErr};
ghost use Rattle.record_words.specs.Recorded.{Line};
ghost use Rattle.record_lines.specs.Lines.{IsNext};

use foz_words::{Key, NoMemory, Row};
use std::alloc::Global;

/// A line, as it is read.
#[derive(Debug, Drop)]
pub enum NextLine<C> {
    /// It is empty or a comment.
    Skipped,
    /// It can't be read, for this cause.
    Refused(C),
    /// A state was read that has this key and this payload.
    Read { key: Key, payload: Row<u8> },
}

/// The lines of a capture. One is read and prepared only when it is asked for, so that one payload is held at a time.
pub trait Lines {
    /// Why a line can't be read.
    type Cause: Drop;

    /// The lines that are still to come, as they will be read.
    ghost rest: { Self → List (Line Self.Cause) };

    /// The next line, or None where none is left. Out of memory passes over no line.
    fn next(&mut self, alloc: Global) -> Result<Option<NextLine<Self::Cause>>, NoMemory>
        ensures line { IfOk result (λ next. IsNext (rest self.old) next (rest self.new)) }
        ensures stays { OnErr result (rest self.new ≡ rest self.old) };

    /// Passes over the next line, which isn't read. Where none is left nothing changes.
    fn skip(&mut self)
        ensures { rest self.new ≡ drop 1 (rest self.old) };

    /// Is no line left?
    fn is_at_end(&self) -> bool
        ensures { result ≡ (length (rest self.now) == 0) };
}
