// The board.
ghost use Rattle.std.specs.Prelude.{◌≡◌};

use crate::call::{Ask, Call, Die, Report, Retire, Revive};
use crate::seat::BoardSeat;
use crate::settle::settle;
use crate::shared::Shared;
use progress_block::{Progress, Reader};
use replay_core::{Core, Counts, Next, SlotState, slot_events};
use std::alloc::Global;
use std::sync::Wait;
use turn_desk::{Desk, turns_add_own_notes};

/// A scheduler that the loops of all slots share by `&`, each with a seat of its own.
#[derive(Drop)]
pub struct Board {
    desk: Desk<Shared>,
    progress: Progress,
}

/// There was no memory for a board. The scheduler comes back.
#[derive(Debug, Drop)]
pub struct CoreRefused {
    pub core: Core,
}

impl Board {
    ghost use Rattle.std.specs.Prelude.{ℕ, ◌⊎◌, ◌+◌, ◌<◌, ◌≤◌, ◌↔◌, [], ◌∷◌, ◌++◌, length, Some, IfOk, IfErr};
    ghost use mathlib.Core.List.{IsPrefix};
    ghost use Rattle.replay_core.specs.declared.event.Event.{Event};
    ghost use Rattle.replay_core.specs.declared.counts.Counts.{Counts};
    ghost use Rattle.replay_core.specs.Runs.{AllDecided, IsRun, slot_at};
    ghost use Rattle.replay_core.specs.Turns.{started, state_told, IsFoundedWork};
    ghost use Rattle.turn_desk.specs.Story.{split_from, split_off, joined_with, AreApart, HasAllBack, HasKept, IsAllOf};
    ghost use Rattle.progress_block.specs.Rows.{Rise, EndsWith};
    ghost use Rattle.progress_block.specs.Ends.{seen_of, IsSameReader};
    ghost use Rattle.replay_board.specs.Counted.{AreCounted};
    ghost use Rattle.replay_board.specs.Steps.{Adds, Answers, Asks, IsHolding};
    ghost use Rattle.replay_board.specs.Seats.{desk_view, notes_seen, own_notes, number_of, turns_of, slot_of, setup_seen, events_seen, own_events, IsBoardSeat, IsSlotSeat, IsRootSeat, IsBoardReader};
    ghost use Rattle.replay_board.specs.Turns.{turned, IsNewRoot, IsSlotStory, IsSameSlot, TakesStep};

    /// A board over a scheduler with no event yet, and its root seat. It takes room for the makers of all events that can come,
    /// so no later call takes memory.
    pub fn new(alloc: Global, core: Core) -> Result<(Board, BoardSeat), CoreRefused>
        requires { core.events ≡ [] }
        ensures root { IfOk result (λ r. IsRootSeat r.0 r.1) }
        ensures setup { IfOk result (λ r. setup_seen r.1 ≡ core.setup) }
        ensures fresh { IfOk result (λ r. IsNewRoot r.1) }
        ensures refused { IfErr result (λ r. r.core ≡ core) }
    {
        let Ok(makers) = Vec::with_capacity(alloc, core.room() as usize) else {
            return Err(CoreRefused { core });
        };
        let Ok((progress, writer)) = Progress::new(alloc, core.counts()) else {
            return Err(CoreRefused { core });
        };
        let shared = Shared {
            core,
            makers,
            writer,
        };
        match Desk::new(alloc, shared) {
            Ok((desk, seat)) => Ok((Board { desk, progress }, BoardSeat { seat })),
            Err(refused) => Err(CoreRefused {
                core: refused.value.into_core(),
            }),
        }
    }

    /// The seat of the next slot. It alone makes that slot's events.
    pub fn seat_for(&self, root: &mut BoardSeat, slot: u32) -> BoardSeat
        requires root { IsRootSeat self.now root.old }
        requires next { slot + 1 ≡ (desk_view root.old).made }
        requires inside { slot < (setup_seen root.old).slots }
        ensures root { IsRootSeat self.now root.new }
        ensures root_view { desk_view root.new ≡ split_from (desk_view root.old) }
        ensures seat { IsSlotSeat self.now result }
        ensures slot { slot_of result ≡ slot }
        ensures seat_view { desk_view result ≡ split_off (desk_view root.old) }
    {
        let _ = slot;
        BoardSeat {
            seat: self.desk.split(&mut root.seat),
        }
    }

    /// One call on the scheduler, in one turn.
    fn turn<R: Wait, C: Call>(&self, rt: &R, seat: &mut BoardSeat, call: C) -> C::Answer
        requires seat { IsSlotSeat self.now seat.old }
        requires turns { turns_of seat.old < 4294967294 }
        requires may { C.may call (slot_at (own_events seat.old) (slot_of seat.old)) }
        ensures seat { IsSlotSeat self.now seat.new }
        ensures turn { TakesStep (C.step call (slot_of seat.old) result) seat.old seat.new }
        ensures run { IsRun (setup_seen seat.new) (events_seen seat.new) }
        ensures few { length (own_events seat.new) ≤ 3145744 }
    {
        let shared = self.desk.enter(rt, &mut seat.seat);
        let number = seat.seat.number();
        let Shared {
            mut core,
            makers,
            writer,
        } = shared;
        slot_events();
        turns_add_own_notes::<Shared>();
        let answer = call.make(&mut core, number - 1);
        let shared = settle(rt, &self.progress, core, makers, writer, number);
        let _ = shared.core.room();
        self.desk.leave(&mut seat.seat, shared);
        answer
    }

    /// The slot asks for work.
    pub fn next<R: Wait>(&self, rt: &R, seat: &mut BoardSeat) -> Next
        requires seat { IsSlotSeat self.now seat.old }
        requires turns { turns_of seat.old < 4294967294 }
        requires idle { slot_at (own_events seat.old) (slot_of seat.old) ≡ SlotState.Idle }
        ensures seat { IsSlotSeat self.now seat.new }
        ensures same { IsSameSlot seat.old seat.new }
        ensures turns { turns_of seat.new ≡ turns_of seat.old + 1 }
        ensures turn { TakesStep (Asks (slot_of seat.old) result) seat.old seat.new }
        ensures events { own_events seat.new ≡ own_events seat.old ++ started (slot_of seat.old) result }
        ensures founded { IsFoundedWork (setup_seen seat.old).plan result }
        ensures finished { (result ≡ Next.Finished) ↔ AllDecided (setup_seen seat.new) (events_seen seat.new) }
        ensures state { slot_at (own_events seat.new) (slot_of seat.old) ≡ state_told result }
        ensures run { IsRun (setup_seen seat.new) (events_seen seat.new) }
        ensures few { length (own_events seat.new) ≤ 3145744 }
    {
        slot_events();
        self.turn(rt, seat, Ask)
    }

    /// The slot's worker answered for the item in the slot's hands.
    pub fn reply<R: Wait>(&self, rt: &R, seat: &mut BoardSeat, code: u32)
        requires seat { IsSlotSeat self.now seat.old }
        requires turns { turns_of seat.old < 4294967294 }
        requires held { IsHolding (slot_at (own_events seat.old) (slot_of seat.old)) }
        ensures seat { IsSlotSeat self.now seat.new }
        ensures same { IsSameSlot seat.old seat.new }
        ensures turns { turns_of seat.new ≡ turns_of seat.old + 1 }
        ensures turn { TakesStep (Answers (slot_of seat.old) code) seat.old seat.new }
        ensures events { (i : ℕ) → slot_at (own_events seat.old) (slot_of seat.old) ≡ SlotState.Holds i → own_events seat.new ≡ own_events seat.old ++ Event.Reply (slot_of seat.old) i code ∷ [] }
        ensures state { slot_at (own_events seat.new) (slot_of seat.old) ≡ SlotState.Idle }
        ensures run { IsRun (setup_seen seat.new) (events_seen seat.new) }
        ensures few { length (own_events seat.new) ≤ 3145744 }
    {
        slot_events();
        self.turn(rt, seat, Report { code });
    }

    /// The slot's worker died over the item in the slot's hands.
    pub fn death<R: Wait>(&self, rt: &R, seat: &mut BoardSeat)
        requires seat { IsSlotSeat self.now seat.old }
        requires turns { turns_of seat.old < 4294967294 }
        requires held { IsHolding (slot_at (own_events seat.old) (slot_of seat.old)) }
        ensures seat { IsSlotSeat self.now seat.new }
        ensures same { IsSameSlot seat.old seat.new }
        ensures turns { turns_of seat.new ≡ turns_of seat.old + 1 }
        ensures turn { TakesStep (Adds (Event.Death (slot_of seat.old))) seat.old seat.new }
        ensures events { own_events seat.new ≡ own_events seat.old ++ Event.Death (slot_of seat.old) ∷ [] }
        ensures state { slot_at (own_events seat.new) (slot_of seat.old) ≡ SlotState.Dead }
        ensures run { IsRun (setup_seen seat.new) (events_seen seat.new) }
        ensures few { length (own_events seat.new) ≤ 3145744 }
    {
        slot_events();
        self.turn(rt, seat, Die);
    }

    /// The slot has a new worker.
    pub fn restart<R: Wait>(&self, rt: &R, seat: &mut BoardSeat)
        requires seat { IsSlotSeat self.now seat.old }
        requires turns { turns_of seat.old < 4294967294 }
        requires dead { slot_at (own_events seat.old) (slot_of seat.old) ≡ SlotState.Dead }
        ensures seat { IsSlotSeat self.now seat.new }
        ensures same { IsSameSlot seat.old seat.new }
        ensures turns { turns_of seat.new ≡ turns_of seat.old + 1 }
        ensures turn { TakesStep (Adds (Event.Restart (slot_of seat.old))) seat.old seat.new }
        ensures events { own_events seat.new ≡ own_events seat.old ++ Event.Restart (slot_of seat.old) ∷ [] }
        ensures state { slot_at (own_events seat.new) (slot_of seat.old) ≡ SlotState.Idle }
        ensures run { IsRun (setup_seen seat.new) (events_seen seat.new) }
        ensures few { length (own_events seat.new) ≤ 3145744 }
    {
        slot_events();
        self.turn(rt, seat, Revive);
    }

    /// The slot gets no worker any more.
    pub fn retire<R: Wait>(&self, rt: &R, seat: &mut BoardSeat)
        requires seat { IsSlotSeat self.now seat.old }
        requires turns { turns_of seat.old < 4294967294 }
        requires at_rest { (slot_at (own_events seat.old) (slot_of seat.old) ≡ SlotState.Dead) ⊎ (slot_at (own_events seat.old) (slot_of seat.old) ≡ SlotState.Idle) }
        ensures seat { IsSlotSeat self.now seat.new }
        ensures same { IsSameSlot seat.old seat.new }
        ensures turns { turns_of seat.new ≡ turns_of seat.old + 1 }
        ensures turn { TakesStep (Adds (Event.Retire (slot_of seat.old))) seat.old seat.new }
        ensures events { own_events seat.new ≡ own_events seat.old ++ Event.Retire (slot_of seat.old) ∷ [] }
        ensures state { slot_at (own_events seat.new) (slot_of seat.old) ≡ SlotState.Retired }
        ensures run { IsRun (setup_seen seat.new) (events_seen seat.new) }
        ensures few { length (own_events seat.new) ≤ 3145744 }
    {
        slot_events();
        self.turn(rt, seat, Retire);
    }

    /// A reader of the counts, which has seen those of all events up to now.
    pub fn reader<R: Wait>(&self, rt: &R, root: &mut BoardSeat) -> Reader
        requires root { IsRootSeat self.now root.old }
        requires turns { turns_of root.old < 4294967294 }
        ensures root { IsRootSeat self.now root.new }
        ensures view { desk_view root.new ≡ turned (desk_view root.old) (notes_seen root.new) (own_notes root.old) }
        ensures seen { IsPrefix (notes_seen root.old) (notes_seen root.new) }
        ensures reader { IsBoardReader self.now result }
        ensures counted { AreCounted (setup_seen root.new) (events_seen root.new) (seen_of result) }
    {
        let shared = self.desk.enter(rt, &mut root.seat);
        let Shared {
            core,
            makers,
            mut writer,
        } = shared;
        let reader = self.progress.reader(rt, &mut writer);
        let shared = Shared {
            core,
            makers,
            writer,
        };
        self.desk.leave(&mut root.seat, shared);
        reader
    }

    /// The counts that were last published. A reader never sees fewer events than before.
    pub fn read<R: Wait>(&self, rt: &R, reader: &mut Reader) -> Counts
        requires reader { IsBoardReader self.now reader.old }
        ensures reader { IsBoardReader self.now reader.new }
        ensures seen { IsPrefix (seen_of reader.old) (seen_of reader.new) }
        ensures row { EndsWith (seen_of reader.new) result }
        ensures rise { Rise 0 (seen_of reader.new) }
        ensures later { (before : Counts) → EndsWith (seen_of reader.old) before → before.events ≤ result.events }
        ensures most { result.events ≤ 2147483647 }
    {
        self.progress.read(rt, reader)
    }

    /// Takes a seat back. The root keeps its number and its notes, and has then seen what that seat had.
    pub fn join(&self, root: &mut BoardSeat, seat: BoardSeat)
        requires root { IsRootSeat self.now root.old }
        requires seat { IsBoardSeat self.now seat }
        ensures root { IsRootSeat self.now root.new }
        ensures view { desk_view root.new ≡ joined_with (desk_view root.old) (desk_view seat) }
        ensures seen { IsPrefix (notes_seen seat) (notes_seen root.new) }
        ensures longer { (notes_seen root.new ≡ notes_seen root.old) ⊎ (notes_seen root.new ≡ notes_seen seat) }
        ensures joined { HasKept (λ n. n.seat) (desk_view root.new).joined (notes_seen root.new) }
        ensures apart { AreApart (desk_view root.new).made (desk_view root.new).joined }
    {
        let BoardSeat { seat } = seat;
        self.desk.join(&mut root.seat, seat);
    }

    /// The scheduler, once each seat is back. The events of a slot are those of its seat.
    pub fn close(self, root: BoardSeat) -> Core
        requires root { IsRootSeat self root }
        requires all { (desk_view root).out ≡ 0 }
        ensures setup { result.setup ≡ setup_seen root }
        ensures events { result.events ≡ events_seen root }
        ensures root_none { own_notes root ≡ [] }
        ensures joined { HasKept (λ n. n.seat) (desk_view root).joined (notes_seen root) }
        ensures others { IsAllOf (λ n. n.seat) (desk_view root) (notes_seen root) }
        ensures apart { AreApart (desk_view root).made (desk_view root).joined }
        ensures back { HasAllBack (desk_view root) }
        ensures slots { IsSlotStory (desk_view root).joined result.events }
    {
        let Board { desk, progress: _ } = self;
        let BoardSeat { seat } = root;
        desk.close(seat).into_core()
    }
}
