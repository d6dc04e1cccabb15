// A sink in memory.
ghost use Rattle.std.specs.Prelude.{◌≡◌, ◌⊎◌, ◌-◌, ◌<◌, ◌≤◌, ◌++◌, ◌↔◌, [], length, take, min, IfOk, OnErr, IsErr, vec_capacity};
ghost use Rattle.disk_model.specs.Faults.{HasCause};
ghost use Rattle.disk_model.specs.Plans.{SinkPlan, IsListed, next_number};

use crate::call_count::{CallCount, Planned};
use crate::lists::extend_within;
use crate::{Failed, Sink};
use std::alloc::{AllocError, Global};

#[derive(Drop)]
pub struct MemSink {
    written: Vec<u8>,
    room: usize,
    step: usize,
    calls: CallCount,

    ghost within: { length written.items ≤ room },
    ghost fits: { room ≤ vec_capacity written },
    ghost moves: { 1 ≤ step },
}

impl MemSink {
    /// A sink that takes `room` bytes in all, at most `step` in a call. It fails at the calls with the listed numbers,
    /// counted from 0, and once its room is used up.
    pub fn new(
        alloc: Global,
        room: usize,
        step: usize,
        failing: Vec<u64>,
    ) -> Result<MemSink, AllocError>
        requires moves { 1 ≤ step }
        ensures written { IfOk result (λ sink. ⟦<MemSink as Sink>⟧.written sink ≡ []) }
        ensures faults { IfOk result (λ sink. ⟦<MemSink as Sink>⟧.faults sink ≡ 0) }
        ensures plan { IfOk result (λ sink. ⟦<MemSink as Planned>⟧.plan sink ≡ record { room = room; step = step; next = 0; failing = failing.items }) }
    {
        Ok(MemSink {
            written: Vec::with_capacity(alloc, room)?,
            room,
            step,
            calls: CallCount::new(failing),
        })
    }

    /// What was written.
    pub fn written(&self) -> &[u8]
        ensures { result.now ≡ ⟦<MemSink as Sink>⟧.written self.now }
    {
        self.written.as_slice()
    }
}

impl Planned for MemSink {
    ghost Plan = { SinkPlan };

    ghost plan = { λ sink. record { room = sink.room; step = sink.step; next = sink.calls.made; failing = sink.calls.failing.items } };
}

impl Sink for MemSink {
    ghost tells = { Unit {0} };

    ghost written = { λ sink. sink.written.items };

    ghost faults = { λ sink. sink.calls.faults };

    fn write(&mut self, piece: &[u8]) -> Result<usize, Failed>
        ensures bound { IfOk result (λ n. n ≤ length piece.now) }
        ensures progress { IfOk result (λ n. 0 < length piece.now → 0 < n) }
        ensures taken { IfOk result (λ n. ⟦<MemSink as Sink>⟧.written self.new ≡ ⟦<MemSink as Sink>⟧.written self.old ++ take n piece.now) }
        ensures nothing { OnErr result (⟦<MemSink as Sink>⟧.written self.new ≡ ⟦<MemSink as Sink>⟧.written self.old) }
        ensures cause { HasCause (⟦<MemSink as Sink>⟧.faults self.old) (⟦<MemSink as Sink>⟧.faults self.new) result }
        ensures most { let plan = ⟦<MemSink as Planned>⟧.plan self.old in
            IfOk result (λ n. n ≡ min (min (length piece.now) plan.step) (plan.room - length (⟦<MemSink as Sink>⟧.written self.old))) }
        ensures exact { let plan = ⟦<MemSink as Planned>⟧.plan self.old in
            IsErr result ↔ (IsListed plan.failing plan.next ⊎ ((0 < length piece.now) × (plan.room ≤ length (⟦<MemSink as Sink>⟧.written self.old)))) }
        ensures plan { let plan = ⟦<MemSink as Planned>⟧.plan self.old in ⟦<MemSink as Planned>⟧.plan self.new ≡ record plan { next = next_number plan.next } }
    {
        let taken = piece
            .len()
            .min(self.step)
            .min(self.room - self.written.len());
        if self.calls.fails_next() || (taken == 0 && !piece.is_empty()) {
            return Err(self.calls.fail());
        }
        extend_within(&mut self.written, &piece[..taken]);
        Ok(taken)
    }
}
