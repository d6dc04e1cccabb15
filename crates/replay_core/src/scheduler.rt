ghost use Rattle.std.specs.Prelude.{◌≡◌, ◌∷◌, [], ◌<◌, ◌≤◌, ℕ, ◌⊎◌, ◌↔◌, IfOk, SomeIff, length};
ghost use Rattle.replay_core.specs.Runs.{AllDecided, NoMiss, slot_at, verdict_list, IsRun};
ghost use Rattle.replay_core.specs.Histories.{with_events, room_of, at_first, IsPlan};
ghost use Rattle.replay_core.specs.Counting.{IsCountOf};
ghost use Rattle.replay_core.specs.Turns.{state_told, IsFoundedWork, TakesTurn};

use crate::answer::Next;
use crate::counts::Counts;
use crate::event::{Event, SlotState, Verdict};
use crate::founded::search_founded;
use crate::plan::Plan;
use crate::queues::{Queues, queues_at_first};
use crate::record::Record;
use crate::turn::{decide, first_ready, settle};
use crate::users::users_of;
use foz_words::NoMemory;
use std::alloc::Global;
use std::marker::Model;

/// A scheduler over a plan and some slots. Contracts see it as what it was given and the events so far.
#[derive(Debug, Drop)]
pub struct Core {
    record: Record,
    queues: Queues,
}

impl Model for Core {
    ghost use Rattle.replay_core.specs.Histories.{History};
    ghost use Rattle.replay_core.specs.Queues.{QueuesKept};

    ghost Value = { History };

    ghost view = { λ a. a.«record» };

    ghost invariant = { λ a. QueuesKept a.«record» a.queues };
}

impl Core {
    /// A scheduler over idle slots, with room for all events that can come.
    pub fn new(alloc: Global, plan: Plan, slots: u32) -> Result<Core, NoMemory>
        requires plan { IsPlan plan }
        requires some_slot { 0 < slots }
        requires few_slots { slots ≤ 16 }
        ensures { IfOk result (λ core. core ≡ at_first plan slots) }
    {
        let users = users_of(alloc, &plan)?;
        let searched = search_founded(alloc, &plan, users)?;
        let queues = queues_at_first(alloc, &plan, searched.users)?;
        let record = Record::new(alloc, plan, searched.passed, slots)?;
        Ok(Core { record, queues })
    }

    /// Answers a slot that asks for work.
    pub fn next(&mut self, slot: u32) -> Next
        requires inside { slot < self.old.setup.slots }
        requires idle { slot_at self.old.events slot ≡ SlotState.Idle }
        ensures turn { TakesTurn self.old slot result self.new }
        ensures no_miss { NoMiss self.new.setup self.new.events }
        ensures slot { slot_at self.new.events slot ≡ state_told result }
        ensures finished { (result ≡ Next.Finished) ↔ AllDecided self.new.setup self.new.events }
        ensures founded { IsFoundedWork self.old.setup.plan result }
        ensures never_passed { length self.new.events ≤ room_of self.new.setup }
    {
        settle(&mut self.record, &mut self.queues);
        if let Some(item) = first_ready(&self.record, &mut self.queues) {
            self.record.add(Event::Start { slot, item });
            self.queues.taken += 1;
            return Next::Work { item };
        }
        if self.record.all_decided() {
            Next::Finished
        } else {
            Next::Idle
        }
    }

    /// The slot's worker answered for the item in its hands.
    pub fn reply(&mut self, slot: u32, code: u32)
        requires held { (i : ℕ) × (slot_at self.old.events slot ≡ SlotState.Holds i) }
        ensures added { (i : ℕ) → slot_at self.old.events slot ≡ SlotState.Holds i → self.new ≡ with_events self.old (Event.Reply slot i code ∷ []) }
        ensures never_passed { length self.new.events ≤ room_of self.new.setup }
    {
        let item = self.record.held_item(slot);
        let event = Event::Reply { slot, item, code };
        decide(&mut self.record, &mut self.queues, event, item);
    }

    /// The slot's worker died over the item in its hands.
    pub fn death(&mut self, slot: u32)
        requires held { (i : ℕ) × (slot_at self.old.events slot ≡ SlotState.Holds i) }
        ensures added { self.new ≡ with_events self.old (Event.Death slot ∷ []) }
        ensures never_passed { length self.new.events ≤ room_of self.new.setup }
    {
        let item = self.record.held_item(slot);
        decide(
            &mut self.record,
            &mut self.queues,
            Event::Death { slot },
            item,
        );
    }

    /// The slot gets no worker any more.
    pub fn retire(&mut self, slot: u32)
        requires slot { slot < self.old.setup.slots }
        requires at_rest { (slot_at self.old.events slot ≡ SlotState.Dead) ⊎ (slot_at self.old.events slot ≡ SlotState.Idle) }
        ensures added { self.new ≡ with_events self.old (Event.Retire slot ∷ []) }
        ensures never_passed { length self.new.events ≤ room_of self.new.setup }
    {
        self.record.add(Event::Retire { slot });
    }

    /// The slot has a new worker.
    pub fn restart(&mut self, slot: u32)
        requires { slot_at self.old.events slot ≡ SlotState.Dead }
        ensures added { self.new ≡ with_events self.old (Event.Restart slot ∷ []) }
        ensures never_passed { length self.new.events ≤ room_of self.new.setup }
    {
        self.record.add(Event::Restart { slot });
    }

    /// For how many events room was taken: three for each item and one for each slot.
    pub fn room(&self) -> u64
        ensures room { result ≡ room_of self.now.setup }
        ensures never_passed { length self.now.events ≤ result }
        ensures few { result ≤ 3145744 }
        ensures slots { self.now.setup.slots ≤ 16 }
    {
        self.record.room()
    }

    /// The events so far.
    pub fn events(&self) -> &[Event]
        ensures events { result.now ≡ self.now.events }
        ensures run { IsRun self.now.setup result.now }
    {
        self.record.events()
    }

    /// The verdict of each item, none where it is undecided.
    pub fn verdicts(&self) -> &[Option<Verdict>]
        ensures { result.now ≡ verdict_list self.now.setup self.now.events }
    {
        self.record.verdicts()
    }

    /// The counts of the events and verdicts. They are kept, and so cost no search.
    pub fn counts(&self) -> Counts
        ensures counts { IsCountOf self.now.setup self.now.events result }
        ensures few { result.events ≤ 3145744 }
    {
        self.record.counts()
    }

    /// What a slot is doing. It is `None` exactly where there is no such slot.
    pub fn slot_state(&self, slot: u32) -> Option<SlotState>
        ensures { SomeIff result (slot < self.now.setup.slots) (slot_at self.now.events slot) }
    {
        self.record.slot_state(slot)
    }
}
