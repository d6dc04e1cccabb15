// A source in memory.
ghost use Rattle.std.specs.Prelude.{◌≡◌, ◌+◌, ◌-◌, ◌<◌, ◌≤◌, ◌^◌, ◌++◌, ◌↔◌, [], length, take, drop, min, IfOk, OnErr, IsErr};
ghost use Rattle.disk_model.specs.Faults.{HasCause};
ghost use Rattle.disk_model.specs.Plans.{SourcePlan, IsListed, next_number};
ghost use Rattle.std.proofs.Math.Nat.{le_trans, sub-le};

use crate::call_count::{CallCount, Planned};
use crate::{Failed, Source};

#[derive(Drop)]
pub struct MemSource {
    bytes: Vec<u8>,
    given: usize,
    step: usize,
    calls: CallCount,

    ghost within: { given ≤ length bytes.items },
    ghost small: { length bytes.items ≤ 2 ^ 62 },
    ghost moves: { 1 ≤ step },
}

impl MemSource {
    /// A source that gives these bytes, at most `step` in a call. It fails at the calls with the listed numbers, counted
    /// from 0, and at no other.
    pub fn new(bytes: Vec<u8>, step: usize, failing: Vec<u64>) -> MemSource
        requires moves { 1 ≤ step }
        requires small { length bytes.items ≤ 2 ^ 62 }
        ensures left { ⟦<MemSource as Source>⟧.left result ≡ bytes.items }
        ensures bound { ⟦<MemSource as Source>⟧.bound result ≡ length bytes.items }
        ensures faults { ⟦<MemSource as Source>⟧.faults result ≡ 0 }
        ensures plan { ⟦<MemSource as Planned>⟧.plan result ≡ record { step = step; next = 0; failing = failing.items } }
    {
        MemSource {
            bytes,
            given: 0,
            step,
            calls: CallCount::new(failing),
        }
    }
}

impl Planned for MemSource {
    ghost Plan = { SourcePlan };

    ghost plan = { λ source. record { step = source.step; next = source.calls.made; failing = source.calls.failing.items } };
}

impl Source for MemSource {
    ghost tells = { Unit {0} };

    ghost left = { λ source. drop source.given source.bytes.items };

    ghost bound = { λ source. length source.bytes.items - source.given };

    ghost faults = { λ source. source.calls.faults };

    fn read(&mut self, buf: &mut [u8]) -> Result<usize, Failed>
        ensures given { IfOk result (λ n. n ≤ length buf.old) }
        ensures bytes { IfOk result (λ n. ⟦<MemSource as Source>⟧.left self.old ≡ take n buf.new ++ ⟦<MemSource as Source>⟧.left self.new) }
        ensures end { IfOk result (λ n. n ≡ 0 → 0 < length buf.old → ⟦<MemSource as Source>⟧.left self.old ≡ []) }
        ensures kept { OnErr result (⟦<MemSource as Source>⟧.left self.new ≡ ⟦<MemSource as Source>⟧.left self.old) }
        ensures nearer { IfOk result (λ n. ⟦<MemSource as Source>⟧.bound self.new + n ≤ ⟦<MemSource as Source>⟧.bound self.old) }
        ensures no_further { OnErr result (⟦<MemSource as Source>⟧.bound self.new ≤ ⟦<MemSource as Source>⟧.bound self.old) }
        ensures cause { HasCause (⟦<MemSource as Source>⟧.faults self.old) (⟦<MemSource as Source>⟧.faults self.new) result }
        ensures most { let plan = ⟦<MemSource as Planned>⟧.plan self.old in
            IfOk result (λ n. n ≡ min (min (length buf.old) plan.step) (length (⟦<MemSource as Source>⟧.left self.old))) }
        ensures exact { let plan = ⟦<MemSource as Planned>⟧.plan self.old in IsErr result ↔ IsListed plan.failing plan.next }
        ensures plan { let plan = ⟦<MemSource as Planned>⟧.plan self.old in ⟦<MemSource as Planned>⟧.plan self.new ≡ record plan { next = next_number plan.next } }
    {
        if self.calls.fails_next() {
            return Err(self.calls.fail());
        }
        let left = &self.bytes[self.given..];
        let n = buf.len().min(self.step).min(left.len());
        buf[..n].copy_from_slice(&left[..n]);
        self.given += n;
        Ok(n)
    }

    ghost small = { λ source. le_trans (sub-le _ _) source.small };
}
