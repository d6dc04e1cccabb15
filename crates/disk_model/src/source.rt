// Where bytes come from.
ghost use Rattle.std.specs.Prelude.{◌≡◌, ◌+◌, ◌<◌, ◌≤◌, ◌^◌, ◌++◌, [], List, ℕ, length, take, IfOk, OnErr};
ghost use Rattle.disk_model.specs.Faults.{HasCause};

use crate::Failed;

/// Gives bytes in pieces, in their order.
pub trait Source {
    /// Where this holds, the source tells the bytes that are left.
    ghost tells: { Type 0 };

    /// The bytes that are left.
    ghost left: { Self → List ℕ };

    /// It gives at most so many bytes more, told or not. A loop that reads to the end comes to its own end by this.
    ghost bound: { Self → ℕ };

    /// How often it has failed.
    ghost faults: { Self → ℕ };

    /// Puts the next bytes into the beginning of a buffer and answers how many. Where the buffer isn't empty, 0 is the end.
    fn read(&mut self, buf: &mut [u8]) -> Result<usize, Failed>
        ensures given { IfOk result (λ n. n ≤ length buf.old) }
        ensures bytes { tells → IfOk result (λ n. left self.old ≡ take n buf.new ++ left self.new) }
        ensures end { tells → IfOk result (λ n. n ≡ 0 → 0 < length buf.old → left self.old ≡ []) }
        ensures kept { tells → OnErr result (left self.new ≡ left self.old) }
        ensures nearer { IfOk result (λ n. bound self.new + n ≤ bound self.old) }
        ensures no_further { OnErr result (bound self.new ≤ bound self.old) }
        ensures cause { HasCause (faults self.old) (faults self.new) result };

    ghost small: { (source : Self) → bound source ≤ 2 ^ 62 };
}
