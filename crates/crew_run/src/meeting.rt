//! A slot of the tests, whose workers wait for those of another.
ghost use Rattle.std.specs.Prelude.{◌≡◌, None};
ghost use Rattle.disk_model.specs.Faults.{Rose};
ghost use Rattle.mem_slot.specs.Slots.{is_running, faults_of};

use mem_slot::MemSlot;
use slot_log::{Failed, Gone, Slot};
use std::sync::Wait;
use std::sync::atomic::{AtomicU64, Ordering};

/// A slot whose workers answer only once a worker of the other slot was asked for an item. It looks often, but not for ever.
#[derive(Drop)]
pub struct MeetingSlot<'a> {
    inner: MemSlot,
    deaths: u64,
    /// How many items each slot was asked for.
    asked: &'a AtomicU64,
    other_asked: &'a AtomicU64,
}

impl<'a> MeetingSlot<'a> {
    pub fn new(inner: MemSlot, asked: &'a AtomicU64, other_asked: &'a AtomicU64) -> MeetingSlot<'a>
        ensures { ⟦<MeetingSlot<'a> as Slot>⟧.running result ≡ is_running inner }
    {
        MeetingSlot {
            inner,
            deaths: 0,
            asked,
            other_asked,
        }
    }

    /// Waits until the other slot was asked for an item, and says whether it was.
    fn meets(&self) -> bool {
        for _look in 0..100_000_000u32 {
            if self.other_asked.load(Ordering::SeqCst) > 0 {
                return true;
            }
        }
        false
    }

    fn lose(&mut self) -> Gone
        ensures inner { self.new.inner ≡ self.old.inner }
        ensures counted { Rose self.old.deaths self.new.deaths }
    {
        self.deaths = self.deaths.saturating_add(1);
        Gone
    }
}

/// The frame asks for an item.
fn is_do(frame: &[u8]) -> bool {
    frame.get(4) == Some(&3)
}

impl<'a> Slot for MeetingSlot<'a> {
    ghost running = { λ slot. is_running slot.inner };

    ghost start_faults = { λ slot. faults_of slot.inner };

    ghost deaths = { λ slot. slot.deaths };

    ghost log = { λ _. None };

    fn start<R: Wait>(&mut self, rt: &R) -> Result<(), Failed> {
        self.inner.start(rt)
    }

    fn send<R: Wait>(&mut self, rt: &R, frame: &[u8]) -> Result<(), Gone> {
        let Ok(()) = self.inner.send(rt, frame) else {
            return Err(self.lose());
        };
        if is_do(frame) {
            self.asked.fetch_add(1, Ordering::SeqCst);
        }
        Ok(())
    }

    fn recv<R: Wait>(&mut self, rt: &R, piece: &mut [u8]) -> Result<usize, Gone> {
        if !self.meets() {
            self.inner.stop(rt);
            return Err(self.lose());
        }
        let Ok(count) = self.inner.recv(rt, piece) else {
            return Err(self.lose());
        };
        Ok(count)
    }

    fn stop<R: Wait>(&mut self, rt: &R) {
        self.inner.stop(rt);
    }
}
