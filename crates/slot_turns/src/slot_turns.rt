// The calls of a board, on the events that name one slot.
ghost use Rattle.std.specs.Prelude.{ℕ, ◌≡◌, ◌<◌, ◌≤◌, ◌+◌, ◌⊎◌, [], ◌∷◌, ◌++◌, List, length};
ghost use Rattle.replay_core.specs.declared.answer.Next.{Next};
ghost use Rattle.replay_core.specs.declared.event.Event.{Event};
ghost use Rattle.replay_core.specs.declared.event.SlotState.{SlotState};
ghost use Rattle.replay_core.specs.Runs.{Setup, AllDecided, slot_at};
ghost use Rattle.replay_core.specs.Turns.{started, IsFoundedWork};

use replay_core::{Event, Next, SlotState};
use std::sync::Wait;

/// A board that slots share, each with a seat of its own. A seat makes the events that name its slot, and nobody else does.
pub trait SlotTurns {
    type Seat;

    /// The seat is one of this board's, and makes the events of a slot.
    ghost is_seat: { Self → Self.Seat → Type 0 };

    /// What the replay was given. No call changes it.
    ghost setup: { Self.Seat → Setup };

    ghost slot: { Self.Seat → ℕ };

    /// The events so far that name the slot.
    ghost events: { Self.Seat → List Event };

    /// All events that the seat has seen, of whatever slot.
    ghost seen: { Self.Seat → List Event };

    /// How many turns the seat has taken. Their number is bounded.
    ghost turns: { Self.Seat → ℕ };

    /// How many events there were when the seat last waited for more.
    ghost heard: { Self.Seat → ℕ };

    /// Asks for work.
    fn next<R: Wait>(&self, rt: &R, seat: &mut Self::Seat) -> Next
        requires seat { is_seat self.now seat.old }
        requires turns { turns seat.old < 4294967294 }
        requires idle { slot_at (events seat.old) (slot seat.old) ≡ SlotState.Idle }
        ensures seat { is_seat self.now seat.new }
        ensures setup { setup seat.new ≡ setup seat.old }
        ensures slot { slot seat.new ≡ slot seat.old }
        ensures turns { turns seat.new ≡ turns seat.old + 1 }
        ensures heard { heard seat.new ≡ heard seat.old }
        ensures few { length (events seat.new) ≤ 3145744 }
        ensures events { events seat.new ≡ events seat.old ++ started (slot seat.old) result }
        ensures founded { IsFoundedWork (setup seat.old).plan result }
        ensures finished { result ≡ Next.Finished → AllDecided (setup seat.new) (seen seat.new) };

    /// The worker answered for the item that the slot holds.
    fn reply<R: Wait>(&self, rt: &R, seat: &mut Self::Seat, code: u32)
        requires seat { is_seat self.now seat.old }
        requires turns { turns seat.old < 4294967294 }
        requires held { (i : ℕ) × (slot_at (events seat.old) (slot seat.old) ≡ SlotState.Holds i) }
        ensures seat { is_seat self.now seat.new }
        ensures setup { setup seat.new ≡ setup seat.old }
        ensures slot { slot seat.new ≡ slot seat.old }
        ensures turns { turns seat.new ≡ turns seat.old + 1 }
        ensures heard { heard seat.new ≡ heard seat.old }
        ensures few { length (events seat.new) ≤ 3145744 }
        ensures events { (i : ℕ) → slot_at (events seat.old) (slot seat.old) ≡ SlotState.Holds i → events seat.new ≡ events seat.old ++ Event.Reply (slot seat.old) i code ∷ [] };

    /// The worker died over the item that the slot holds.
    fn death<R: Wait>(&self, rt: &R, seat: &mut Self::Seat)
        requires seat { is_seat self.now seat.old }
        requires turns { turns seat.old < 4294967294 }
        requires held { (i : ℕ) × (slot_at (events seat.old) (slot seat.old) ≡ SlotState.Holds i) }
        ensures seat { is_seat self.now seat.new }
        ensures setup { setup seat.new ≡ setup seat.old }
        ensures slot { slot seat.new ≡ slot seat.old }
        ensures turns { turns seat.new ≡ turns seat.old + 1 }
        ensures heard { heard seat.new ≡ heard seat.old }
        ensures few { length (events seat.new) ≤ 3145744 }
        ensures events { events seat.new ≡ events seat.old ++ Event.Death (slot seat.old) ∷ [] };

    /// The slot has a new worker.
    fn restart<R: Wait>(&self, rt: &R, seat: &mut Self::Seat)
        requires seat { is_seat self.now seat.old }
        requires turns { turns seat.old < 4294967294 }
        requires dead { slot_at (events seat.old) (slot seat.old) ≡ SlotState.Dead }
        ensures seat { is_seat self.now seat.new }
        ensures setup { setup seat.new ≡ setup seat.old }
        ensures slot { slot seat.new ≡ slot seat.old }
        ensures turns { turns seat.new ≡ turns seat.old + 1 }
        ensures heard { heard seat.new ≡ heard seat.old }
        ensures few { length (events seat.new) ≤ 3145744 }
        ensures events { events seat.new ≡ events seat.old ++ Event.Restart (slot seat.old) ∷ [] };

    /// The slot gets no worker any more.
    fn retire<R: Wait>(&self, rt: &R, seat: &mut Self::Seat)
        requires seat { is_seat self.now seat.old }
        requires turns { turns seat.old < 4294967294 }
        requires at_rest { (slot_at (events seat.old) (slot seat.old) ≡ SlotState.Dead) ⊎ (slot_at (events seat.old) (slot seat.old) ≡ SlotState.Idle) }
        ensures seat { is_seat self.now seat.new }
        ensures setup { setup seat.new ≡ setup seat.old }
        ensures slot { slot seat.new ≡ slot seat.old }
        ensures turns { turns seat.new ≡ turns seat.old + 1 }
        ensures heard { heard seat.new ≡ heard seat.old }
        ensures few { length (events seat.new) ≤ 3145744 }
        ensures events { events seat.new ≡ events seat.old ++ Event.Retire (slot seat.old) ∷ [] };

    /// Waits until there are more events than when it last waited.
    fn wait_for_more<R: Wait>(&self, rt: &R, seat: &mut Self::Seat)
        requires seat { is_seat self.now seat.old }
        ensures seat { is_seat self.now seat.new }
        ensures setup { setup seat.new ≡ setup seat.old }
        ensures slot { slot seat.new ≡ slot seat.old }
        ensures turns { turns seat.new ≡ turns seat.old }
        ensures more { heard seat.old < heard seat.new }
        ensures most { heard seat.new ≤ 2147483647 }
        ensures events { events seat.new ≡ events seat.old }
        ensures seen { seen seat.new ≡ seen seat.old };
}
