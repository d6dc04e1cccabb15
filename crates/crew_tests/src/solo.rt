// A scheduler that one slot has for itself.
ghost use Rattle.std.specs.Prelude.{◌≡◌, [], IfOk};
ghost use Rattle.replay_core.specs.Histories.{IsPlan};

use foz_words::NoMemory;
use replay_core::{Core, Event, Next, Plan, Verdict, slot_events};
use slot_turns::SlotTurns;
use std::alloc::Global;
use std::sync::Wait;

/// What the seat belongs to. The seat has all there is.
#[derive(Drop)]
pub struct Solo;

/// The scheduler, and how often it was asked.
#[derive(Drop)]
pub struct SoloSeat {
    core: Core,
    turns: u32,
}

impl Solo {
    pub fn seat(&self, alloc: Global, plan: &Plan) -> Result<SoloSeat, NoMemory>
        requires { IsPlan plan.now }
        ensures seat { IfOk result (λ seat. ⟦<Solo as SlotTurns>⟧.is_seat self.now seat) }
        ensures plan { IfOk result (λ seat. (⟦<Solo as SlotTurns>⟧.setup seat).plan ≡ plan.now) }
        ensures fresh { IfOk result (λ seat. ⟦<Solo as SlotTurns>⟧.events seat ≡ []) }
        ensures turns { IfOk result (λ seat. ⟦<Solo as SlotTurns>⟧.turns seat ≡ 0) }
        ensures heard { IfOk result (λ seat. ⟦<Solo as SlotTurns>⟧.heard seat ≡ 0) }
    {
        let plan = plan.copy(alloc)?;
        let core = Core::new(alloc, plan, 1)?;
        Ok(SoloSeat { core, turns: 0 })
    }
}

impl SoloSeat {
    pub fn events(&self) -> &[Event] {
        self.core.events()
    }

    pub fn verdicts(&self) -> &[Option<Verdict>] {
        self.core.verdicts()
    }
}

impl SlotTurns for Solo {
    ghost use Rattle.std.specs.Prelude.{filter, ◌<◌};
    ghost use Rattle.replay_core.specs.Runs.{names};

    type Seat = SoloSeat;

    ghost is_seat = { λ solo seat. 0 < seat.core.setup.slots };

    ghost setup = { λ seat. seat.core.setup };

    ghost slot = { λ seat. 0 };

    ghost events = { λ seat. filter (names 0) seat.core.events };

    ghost seen = { λ seat. seat.core.events };

    ghost turns = { λ seat. seat.turns };

    ghost heard = { λ seat. 0 };

    fn next<R: Wait>(&self, _rt: &R, seat: &mut SoloSeat) -> Next {
        slot_events();
        let next = seat.core.next(0);
        seat.turns += 1;
        let _ = seat.core.room();
        next
    }

    fn reply<R: Wait>(&self, _rt: &R, seat: &mut SoloSeat, code: u32) {
        slot_events();
        seat.core.reply(0, code);
        seat.turns += 1;
        let _ = seat.core.room();
    }

    fn death<R: Wait>(&self, _rt: &R, seat: &mut SoloSeat) {
        slot_events();
        seat.core.death(0);
        seat.turns += 1;
        let _ = seat.core.room();
    }

    fn restart<R: Wait>(&self, _rt: &R, seat: &mut SoloSeat) {
        slot_events();
        seat.core.restart(0);
        seat.turns += 1;
        let _ = seat.core.room();
    }

    fn retire<R: Wait>(&self, _rt: &R, seat: &mut SoloSeat) {
        slot_events();
        seat.core.retire(0);
        seat.turns += 1;
        let _ = seat.core.room();
    }

    // Nobody else makes events, and the one slot is never told to wait.
    fn wait_for_more<R: Wait>(&self, rt: &R, _seat: &mut SoloSeat) {
        for _ in rt.forever() {}
        unreachable!()
    }
}
