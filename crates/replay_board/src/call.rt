// The calls on the scheduler that a slot's seat can make in a turn.
ghost use Rattle.std.specs.Prelude.{ℕ, ◌≡◌, ◌⊎◌, ◌+◌, ◌<◌, ◌≤◌, length};
ghost use Rattle.replay_core.specs.declared.event.Event.{Event};
ghost use Rattle.replay_core.specs.declared.event.SlotState.{SlotState};
ghost use Rattle.replay_core.specs.Runs.{slot_at};
ghost use Rattle.replay_core.specs.Histories.{History, room_of};
ghost use Rattle.replay_board.specs.Steps.{Adds, Answers, Asks, Grew, IsHolding};

use replay_core::{Core, Event, Next, SlotState};

/// One call on the scheduler, for a slot.
pub trait Call {
    /// What the scheduler answers.
    type Answer;

    // What the slot has to be doing.
    ghost may: { Self → SlotState → Type 0 };

    // What the call does for this slot, with this answer, to the scheduler before it.
    ghost step: { Self → ℕ → Self.Answer → History → History → Type 0 };

    fn make(self, core: &mut Core, slot: u32) -> Self::Answer
        requires inside { slot < core.old.setup.slots }
        requires may { may self (slot_at core.old.events slot) }
        ensures step { step self slot result core.old core.new }
        ensures grew { Grew (slot + 1) core.old core.new }
        ensures never_passed { length core.new.events ≤ room_of core.new.setup };
}

/// The slot asks for work.
#[derive(Clone, Copy)]
pub struct Ask;

impl Call for Ask {
    type Answer = Next;

    ghost may = { λ _ state. state ≡ SlotState.Idle };

    ghost step = { λ _ slot answer before after. Asks slot answer before after };

    fn make(self, core: &mut Core, slot: u32) -> Next {
        core.next(slot)
    }
}

/// The slot's worker answered.
#[derive(Clone, Copy)]
pub struct Report {
    pub code: u32,
}

impl Call for Report {
    type Answer = ();

    ghost may = { λ _ state. IsHolding state };

    ghost step = { λ call slot _ before after. Answers slot call.code before after };

    fn make(self, core: &mut Core, slot: u32) {
        core.reply(slot, self.code);
    }
}

/// The slot's worker died.
#[derive(Clone, Copy)]
pub struct Die;

impl Call for Die {
    type Answer = ();

    ghost may = { λ _ state. IsHolding state };

    ghost step = { λ _ slot _ before after. Adds (Event.Death slot) before after };

    fn make(self, core: &mut Core, slot: u32) {
        core.death(slot);
    }
}

/// The slot has a new worker.
#[derive(Clone, Copy)]
pub struct Revive;

impl Call for Revive {
    type Answer = ();

    ghost may = { λ _ state. state ≡ SlotState.Dead };

    ghost step = { λ _ slot _ before after. Adds (Event.Restart slot) before after };

    fn make(self, core: &mut Core, slot: u32) {
        core.restart(slot);
    }
}

/// The slot gets no worker any more.
#[derive(Clone, Copy)]
pub struct Retire;

impl Call for Retire {
    type Answer = ();

    ghost may = { λ _ state. (state ≡ SlotState.Dead) ⊎ (state ≡ SlotState.Idle) };

    ghost step = { λ _ slot _ before after. Adds (Event.Retire slot) before after };

    fn make(self, core: &mut Core, slot: u32) {
        core.retire(slot);
    }
}
