// What one worker has created, and what it is loaded with next.
ghost use Rattle.std.specs.Prelude.{◌≡◌, ◌<◌, ◌≤◌, ◌∷◌, [], true, false, length, All, IfOk, IfSome, IfNone, OnOk, OnErr, slice_set, None, replicate};
ghost use Rattle.disk_model.specs.Faults.{Rose};
ghost use Rattle.replay_core.specs.Plans.{items_of, Founded};
ghost use Rattle.replay_core.specs.Histories.{IsPlan};
ghost use Rattle.slot_log.specs.Loads.{Needs, DependsOn, IsClosedDown, HasDepsCreated, IsCreatedDep, is_created, none_created};
ghost use Rattle.slot_log.specs.Logs.{grown};
ghost use Rattle.slot_log.specs.Works.{work_of};
ghost use Rattle.slot_log.specs.declared.note.SlotNote.{SlotNote};
ghost use Rattle.replay_crew.specs.Jobs.{AreJobs, orders_of};
ghost use Rattle.replay_crew.specs.Loading.{IsItemIn, IsAmong, work_frame};

use crate::jobs::Jobs;
use foz_words::NoMemory;
use replay_core::{Dep, Plan, ranks_fall};
use slot_log::{Gone, Slot, SlotNote};
use std::alloc::Global;
use std::marker::Model;
use std::sync::Wait;
use worker_msg::lay_msg;

/// How many bytes the largest frame has.
const LARGEST: usize = 16_777_233;

/// A mark for each item that a worker has created, and room for the largest frame. Contracts see the marks.
#[derive(Drop)]
pub struct Loader {
    created: Vec<bool>,
    frame: Vec<u8>,
    alloc: Global,
}

impl Model for Loader {
    ghost use Rattle.std.specs.Prelude.{List, Bool, ◌≤◌, length};

    ghost Value = { List Bool };

    ghost view = { λ loader. loader.created.items };

    ghost invariant = { λ loader. 16777233 ≤ length loader.frame.items };
}

/// The first of some dependencies that is not created.
fn first_new_of(deps: &[Dep], created: &[bool]) -> Option<u32>
    requires { All (IsItemIn (length created.now)) deps.now }
    ensures needed { IfSome result (λ j. IsAmong j deps.now) }
    ensures new { IfSome result (λ j. is_created created.now j ≡ false) }
    ensures inside { IfSome result (λ j. j < length created.now) }
    ensures none { IfNone result (All (IsCreatedDep created.now) deps.now) }
{
    for dep in deps {
        match *dep {
            Dep::Item(needed) => {
                if !created[needed as usize] {
                    return Some(needed);
                }
            }
            Dep::Absent(_) => unreachable!(),
        }
    }
    None
}

/// The first dependency of an item that is not created.
fn first_new(plan: &Plan, created: &[bool], item: u32) -> Option<u32>
    requires items { length created.now ≡ items_of plan.now }
    requires founded { Founded plan.now item }
    ensures needed { IfSome result (λ j. Needs plan.now item j) }
    ensures new { IfSome result (λ j. is_created created.now j ≡ false) }
    ensures inside { IfSome result (λ j. j < length created.now) }
    ensures none { IfNone result (HasDepsCreated plan.now created.now item) }
{
    let rows = plan.deps.as_slice();
    first_new_of(rows[item as usize].as_slice(), created)
}

/// The item that the given one depends on and that is to be created next: a walk that goes down, each time to the first
/// dependency that is not created.
fn lowest_new(plan: &Plan, created: &[bool], item: u32) -> Option<u32>
    requires items { length created.now ≡ items_of plan.now }
    requires founded { Founded plan.now item }
    ensures below { IfSome result (λ j. DependsOn plan.now item j) }
    ensures new { IfSome result (λ j. is_created created.now j ≡ false) }
    ensures inside { IfSome result (λ j. j < length created.now) }
    ensures ready { IfSome result (λ j. HasDepsCreated plan.now created.now j) }
    ensures none { IfNone result (HasDepsCreated plan.now created.now item) }
    ensures all { HasDepsCreated plan.now created.now item → result ≡ None }
{
    ranks_fall();
    let mut lowest = first_new(plan, created, item)?;
    while let Some(lower) = first_new(plan, created, lowest) {
        lowest = lower;
    }
    Some(lowest)
}

impl Loader {
    /// Nothing is created. It alone takes memory.
    pub fn new(alloc: Global, jobs: &Jobs) -> Result<Loader, NoMemory>
        ensures { IfOk result (λ loader. loader ≡ none_created (orders_of jobs.now).plan) }
    {
        let created = vec![in alloc; false; jobs.plan().deps.len()]?;
        let frame = vec![in alloc; 0u8; LARGEST]?;
        Ok(Loader {
            created,
            frame,
            alloc,
        })
    }

    /// What a feed for a worker's answers is made with.
    pub(crate) fn alloc(&self) -> Global {
        self.alloc
    }

    /// The item that the worker is to be loaded with next, before it is asked for this one: the given item depends on it,
    /// directly or further down, it is not created, and all that it depends on is. It is `None` exactly where all
    /// dependencies of the given item are created.
    pub fn next_load(&self, jobs: &Jobs, item: u32) -> Option<u32>
        requires items { length self.now ≡ items_of (orders_of jobs.now).plan }
        requires founded { Founded (orders_of jobs.now).plan item }
        ensures below { IfSome result (λ j. DependsOn (orders_of jobs.now).plan item j) }
        ensures new { IfSome result (λ j. is_created self.now j ≡ false) }
        ensures inside { IfSome result (λ j. j < length self.now) }
        ensures ready { IfSome result (λ j. HasDepsCreated (orders_of jobs.now).plan self.now j) }
        ensures none { IfNone result (HasDepsCreated (orders_of jobs.now).plan self.now item) }
        ensures all { HasDepsCreated (orders_of jobs.now).plan self.now item → result ≡ None }
    {
        lowest_new(jobs.plan(), self.created.as_slice(), item)
    }

    /// The worker has created the item.
    pub fn mark(&mut self, jobs: &Jobs, item: u32)
        requires items { length self.old ≡ items_of (orders_of jobs.now).plan }
        requires closed { IsClosedDown (orders_of jobs.now).plan self.old }
        requires inside { item < length self.old }
        requires ready { HasDepsCreated (orders_of jobs.now).plan self.old item }
        ensures marked { self.new ≡ slice_set self.old item true }
        ensures closed { IsClosedDown (orders_of jobs.now).plan self.new }
    {
        let _ = jobs;
        self.created[item as usize] = true;
    }

    /// There is a new worker, which has created nothing.
    pub fn clear(&mut self)
        ensures { self.new ≡ replicate (length self.old) false }
    {
        self.created.as_mut_slice().fill(false);
    }

    /// Sends a Load of an item, where `load` is true, or a Do.
    pub(crate) fn send<S: Slot, R: Wait>(
        &mut self,
        rt: &R,
        slot: &mut S,
        jobs: &Jobs,
        item: u32,
        load: bool,
    ) -> Result<(), Gone>
        requires running { S.running slot.old ≡ true }
        requires jobs { AreJobs jobs.now }
        requires inside { item < items_of (orders_of jobs.now).plan }
        ensures marks { self.new ≡ self.old }
        ensures faults { S.start_faults slot.new ≡ S.start_faults slot.old }
        ensures sent { OnOk result ((S.running slot.new ≡ true) × (S.log slot.new ≡ grown (S.log slot.old) (SlotNote.Sent (work_frame load (work_of (orders_of jobs.now) item)) ∷ [])) × (S.deaths slot.new ≡ S.deaths slot.old)) }
        ensures gone { OnErr result ((S.running slot.new ≡ false) × (S.log slot.new ≡ grown (S.log slot.old) (SlotNote.Died ∷ [])) × Rose (S.deaths slot.old) (S.deaths slot.new)) }
    {
        let entry = jobs.entry(item);
        let frame = self.frame.as_mut_slice();
        let len = lay_msg(frame, load, entry.head.key, entry.payload.as_slice());
        slot.send(rt, &frame[..len])
    }
}
