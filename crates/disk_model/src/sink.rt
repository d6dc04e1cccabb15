// Where bytes go.
ghost use Rattle.std.specs.Prelude.{◌≡◌, ◌<◌, ◌≤◌, ◌++◌, List, ℕ, length, take, IfOk, OnOk, OnErr};
ghost use Rattle.disk_model.specs.Faults.{HasCause};

use crate::Failed;

/// Takes bytes in pieces, in their order.
pub trait Sink {
    /// Where this holds, the sink tells what was written.
    ghost tells: { Type 0 };

    /// The bytes written so far.
    ghost written: { Self → List ℕ };

    /// How often it has failed.
    ghost faults: { Self → ℕ };

    /// Takes some bytes from the beginning of a piece, at least one where there is one, and answers how many.
    fn write(&mut self, piece: &[u8]) -> Result<usize, Failed>
        ensures bound { IfOk result (λ n. n ≤ length piece.now) }
        ensures progress { IfOk result (λ n. 0 < length piece.now → 0 < n) }
        ensures taken { tells → IfOk result (λ n. written self.new ≡ written self.old ++ take n piece.now) }
        ensures nothing { tells → OnErr result (written self.new ≡ written self.old) }
        ensures cause { HasCause (faults self.old) (faults self.new) result };
}

/// Writes a whole text. Where the sink fails, a prefix of it is written.
pub fn write_all<O: Sink>(sink: &mut O, text: &[u8]) -> Result<(), Failed>
    ensures whole { O.tells → OnOk result (O.written sink.new ≡ O.written sink.old ++ text.now) }
    ensures cut_short { O.tells → OnErr result ((count : ℕ) × (O.written sink.new ≡ O.written sink.old ++ take count text.now)) }
    ensures cause { HasCause (O.faults sink.old) (O.faults sink.new) result }
{
    let mut rest = text;
    while !rest.is_empty() {
        let taken = sink.write(rest)?;
        let (_, after) = rest.split_at(taken);
        rest = after;
    }
    Ok(())
}
