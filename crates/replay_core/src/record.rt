ghost use Rattle.std.specs.Prelude.{◌≡◌, ◌∷◌, [], ◌<◌, ◌≤◌, ℕ, ◌⊎◌, ◌↔◌, IsTrue, IfOk, SomeIff, All, take, length};
ghost use Rattle.replay_core.specs.Plans.{items_of, deps_of};
ghost use Rattle.replay_core.specs.Runs.{Allowed, AllDecided, IsMet, IsWaiting, SomeHeld, slot_at, verdict_list, IsRun};
ghost use Rattle.replay_core.specs.Histories.{with_events, room_of, at_first, IsPlan};
ghost use Rattle.replay_core.specs.Notes.{IsProspect, MarksFounded};
ghost use Rattle.replay_core.specs.Counting.{IsCountOf};

use crate::counts::{Counts, counts_at_first, counts_with_decided, counts_with_event};
use crate::event::{Event, SlotState, Verdict};
use crate::notes::{is_held, judge, note_state, note_verdict};
use crate::plan::Plan;
use crate::prospect::{Prospect, prospect_of};
use foz_words::NoMemory;
use std::alloc::Global;
use std::marker::Model;

/// The events so far, with the state of each slot and the verdict of each item. Contracts see it as what it was given and the events.
#[derive(Debug, Drop)]
pub struct Record {
    plan: Plan,
    founded: Vec<bool>,
    states: Vec<SlotState>,
    verdicts: Vec<Option<Verdict>>,
    events: Vec<Event>,
    counts: Counts,
}

impl Model for Record {
    ghost use Rattle.std.specs.Prelude.{length, vec_capacity};
    ghost use Rattle.replay_core.specs.Counting.{IsTally};
    ghost use Rattle.replay_core.specs.Histories.{History};
    ghost use Rattle.replay_core.specs.Runs.{setup_of};
    ghost use Rattle.replay_core.specs.Notes.{FitsTogether};

    ghost Value = { History };

    ghost view = { λ a. record { setup = setup_of a.plan (length a.states.items); events = a.events.items } };

    ghost invariant = { λ a. FitsTogether a.plan a.founded.items a.states.items a.verdicts.items a.events.items (vec_capacity a.events) × IsTally a.events.items a.verdicts.items a.counts };
}

impl Record {
    /// A scheduler over idle slots, with room for all events that can come. `founded` says which items are founded.
    pub fn new(
        alloc: Global,
        plan: Plan,
        founded: Vec<bool>,
        slots: u32,
    ) -> Result<Record, NoMemory>
        requires plan { IsPlan plan }
        requires founded { MarksFounded plan founded.items }
        requires some_slot { 0 < slots }
        requires few_slots { slots ≤ 16 }
        ensures { IfOk result (λ core. core ≡ at_first plan slots) }
    {
        let items = plan.deps.len();
        let states = vec![in alloc; SlotState::Idle; slots as usize]?;
        let verdicts = vec![in alloc; None; items]?;
        let events = Vec::with_capacity(alloc, 3 * items + slots as usize)?;
        Ok(Record {
            plan,
            founded,
            states,
            verdicts,
            events,
            counts: counts_at_first(),
        })
    }

    /// Adds an event.
    pub fn add(&mut self, event: Event)
        requires { Allowed self.old.setup self.old.events event }
        ensures added { self.new ≡ with_events self.old (event ∷ []) }
        ensures never_passed { length self.new.events ≤ room_of self.new.setup }
    {
        let decided = judge(self.states.as_slice(), event);
        self.counts = counts_with_decided(counts_with_event(self.counts, event), decided);
        note_verdict(self.verdicts.as_mut_slice(), decided);
        note_state(self.states.as_mut_slice(), event);
        match self.events.push(event) {
            Ok(()) => (),
            Err(_) => unreachable!(),
        }
    }

    /// The item in a slot's hands.
    pub fn held_item(&self, slot: u32) -> u32
        requires held { (i : ℕ) × (slot_at self.now.events slot ≡ SlotState.Holds i) }
        ensures held { slot_at self.now.events slot ≡ SlotState.Holds result }
        ensures inside { slot < self.now.setup.slots }
    {
        match self.states[slot as usize] {
            SlotState::Holds(item) => item,
            SlotState::Idle => unreachable!(),
            SlotState::Dead => unreachable!(),
            SlotState::Retired => unreachable!(),
        }
    }

    /// The item is undecided and in no hands.
    pub fn is_waiting(&self, item: u32) -> bool
        requires { item < items_of self.now.setup.plan }
        ensures { IsTrue result ↔ IsWaiting self.now.setup self.now.events item }
    {
        self.verdicts[item as usize].is_none() && !is_held(self.states.as_slice(), item)
    }

    /// What can become of an item, as far as its dependencies go. Those before `from` are known to be met.
    pub fn prospect(&self, item: u32, from: u32) -> Prospect
        requires inside { item < items_of self.now.setup.plan }
        requires from { from ≤ length (deps_of self.now.setup.plan item) }
        requires met { All (IsMet self.now.setup self.now.events) (take from (deps_of self.now.setup.plan item)) }
        ensures { IsProspect self.now.setup self.now.events item result }
    {
        let rows = self.plan.deps.as_slice();
        let deps = rows[item as usize].as_slice();
        prospect_of(
            deps,
            from as usize,
            self.verdicts.as_slice(),
            self.founded.as_slice(),
        )
    }

    /// Every item has a verdict.
    pub fn all_decided(&self) -> bool
        ensures all { IsTrue result ↔ AllDecided self.now.setup self.now.events }
        ensures run { IsRun self.now.setup self.now.events }
        ensures hands { SomeHeld self.now.events ⊎ (SomeHeld self.now.events → ⊥) }
        ensures never_passed { length self.now.events ≤ room_of self.now.setup }
    {
        let counts = self.counts;
        let decided = counts.done + counts.refused + counts.blamed + counts.missing;
        decided == self.verdicts.len() as u64
    }

    /// For how many events room was taken.
    pub fn room(&self) -> u64
        ensures room { result ≡ room_of self.now.setup }
        ensures never_passed { length self.now.events ≤ result }
        ensures few { result ≤ 3145744 }
        ensures slots { self.now.setup.slots ≤ 16 }
    {
        3 * self.verdicts.len() as u64 + self.states.len() as u64
    }

    /// The events so far.
    pub fn events(&self) -> &[Event]
        ensures events { result.now ≡ self.now.events }
        ensures run { IsRun self.now.setup result.now }
    {
        self.events.as_slice()
    }

    /// The verdict of each item, none where it is undecided.
    pub fn verdicts(&self) -> &[Option<Verdict>]
        ensures { result.now ≡ verdict_list self.now.setup self.now.events }
    {
        self.verdicts.as_slice()
    }

    /// The counts of the events and verdicts.
    pub fn counts(&self) -> Counts
        ensures counts { IsCountOf self.now.setup self.now.events result }
        ensures few { result.events ≤ 3145744 }
    {
        self.counts
    }

    /// What a slot is doing. It is `None` exactly where there is no such slot.
    pub fn slot_state(&self, slot: u32) -> Option<SlotState>
        ensures { SomeIff result (slot < self.now.setup.slots) (slot_at self.now.events slot) }
    {
        let place = slot as usize;
        if place < self.states.len() {
            Some(self.states[place])
        } else {
            None
        }
    }
}
