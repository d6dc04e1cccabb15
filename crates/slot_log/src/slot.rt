// A place for one worker.
ghost use Rattle.std.specs.Prelude.{◌≡◌, ◌<◌, ◌≤◌, [], ◌∷◌, Bool, true, false, ℕ, Option, List, length, take, IfOk, OnOk, OnErr, IfSome};
ghost use Rattle.disk_model.specs.Faults.{Rose};
ghost use Rattle.slot_log.specs.Logs.{grown, IsToWorker, AwaitsAnswer};
ghost use Rattle.slot_log.specs.declared.note.SlotNote.{SlotNote};

use crate::note::SlotNote;
use std::sync::Wait;

/// A worker could not be started.
#[derive(Clone, Copy, Debug, PartialEq, Eq)]
pub struct Failed;

/// The worker has died.
#[derive(Clone, Copy, Debug, PartialEq, Eq)]
pub struct Gone;

/// A place where one worker runs at a time. Each call adds one note to its log.
pub trait Slot {
    /// A worker was started, and has neither died nor been stopped since.
    ghost running: { Self → Bool };

    /// How many starts have failed.
    ghost start_faults: { Self → ℕ };

    /// How many workers have died.
    ghost deaths: { Self → ℕ };

    /// What was done so far, where it is told.
    ghost log: { Self → Option (List SlotNote) };

    /// Starts a worker. It is Ok once the worker's Hello was read.
    fn start<R: Wait>(&mut self, rt: &R) -> Result<(), Failed>
        requires { running self.old ≡ false }
        ensures deaths { deaths self.new ≡ deaths self.old }
        ensures started { OnOk result ((running self.new ≡ true) × (log self.new ≡ grown (log self.old) (SlotNote.Started ∷ [])) × (start_faults self.new ≡ start_faults self.old)) }
        ensures failed { OnErr result ((running self.new ≡ false) × (log self.new ≡ grown (log self.old) (SlotNote.NotStarted ∷ [])) × Rose (start_faults self.old) (start_faults self.new)) };

    /// Sends a whole frame.
    fn send<R: Wait>(&mut self, rt: &R, frame: &[u8]) -> Result<(), Gone>
        requires running { running self.old ≡ true }
        requires frame { IsToWorker frame.now }
        ensures faults { start_faults self.new ≡ start_faults self.old }
        ensures sent { OnOk result ((running self.new ≡ true) × (log self.new ≡ grown (log self.old) (SlotNote.Sent frame.now ∷ [])) × (deaths self.new ≡ deaths self.old)) }
        ensures gone { OnErr result ((running self.new ≡ false) × (log self.new ≡ grown (log self.old) (SlotNote.Died ∷ [])) × Rose (deaths self.old) (deaths self.new)) };

    /// Waits for bytes of an answer, and says how many came.
    fn recv<R: Wait>(&mut self, rt: &R, piece: &mut [u8]) -> Result<usize, Gone>
        requires running { running self.old ≡ true }
        requires room { 0 < length piece.old }
        requires awaited { IfSome (log self.old) (λ notes. AwaitsAnswer notes (length piece.old)) }
        ensures faults { start_faults self.new ≡ start_faults self.old }
        ensures some { IfOk result (λ n. (0 < n) × (n ≤ length piece.old)) }
        ensures got { IfOk result (λ n. (running self.new ≡ true) × (log self.new ≡ grown (log self.old) (SlotNote.Got (take n piece.new) ∷ [])) × (deaths self.new ≡ deaths self.old)) }
        ensures gone { OnErr result ((running self.new ≡ false) × (log self.new ≡ grown (log self.old) (SlotNote.Died ∷ [])) × Rose (deaths self.old) (deaths self.new)) };

    /// Stops the worker.
    fn stop<R: Wait>(&mut self, rt: &R)
        requires { running self.old ≡ true }
        ensures faults { start_faults self.new ≡ start_faults self.old }
        ensures deaths { deaths self.new ≡ deaths self.old }
        ensures stopped { running self.new ≡ false }
        ensures log { log self.new ≡ grown (log self.old) (SlotNote.Stopped ∷ []) };
}
