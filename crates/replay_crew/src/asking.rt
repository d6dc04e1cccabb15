// Asks a worker for an item.
ghost use Rattle.std.specs.Prelude.{ℕ, ◌≡◌, ◌≤◌, ◌<◌, ◌∷◌, ◌-◌, [], true, false, length, OnOk, OnErr, IfSome};
ghost use Rattle.disk_model.specs.Faults.{Rose};
ghost use Rattle.replay_core.specs.Plans.{items_of, Founded};
ghost use Rattle.worker_msg.specs.declared.side.Side.TheVariants.{Crew};
ghost use Rattle.slot_log.specs.declared.note.SlotNote.{SlotNote};
ghost use Rattle.slot_log.specs.Loads.{IsClosedDown, HasDepsCreated};
ghost use Rattle.slot_log.specs.Logs.{grown, AwaitsAnswer};
ghost use Rattle.replay_crew.specs.Jobs.{AreJobs, orders_of};
ghost use Rattle.replay_crew.specs.Asking.{HasLoaded, JustAsked, HasReceived, HasAnswered, GrewBy, runs_after};

use crate::jobs::Jobs;
use crate::loader::Loader;
use crate::reading::{Reading, read};
use foz_words::Key;
use slot_log::{Gone, Slot, SlotNote};
use std::alloc::Global;
use std::sync::Wait;
use worker_msg::{Feed, Side};

/// What came of asking a worker for an item.
#[derive(Clone, Copy, Debug, PartialEq, Eq)]
pub(crate) enum Outcome {
    Answered(u32),
    /// The worker has died.
    Gone,
    /// The worker sent something else than an answer, and was stopped.
    Wrong,
}

/// Loads the worker with what an item depends on and it has not created.
fn load_all<S: Slot, R: Wait>(
    rt: &R,
    slot: &mut S,
    loader: &mut Loader,
    jobs: &Jobs,
    item: u32,
) -> Result<(), Gone>
    requires running { S.running slot.old ≡ true }
    requires jobs { AreJobs jobs.now }
    requires founded { Founded (orders_of jobs.now).plan item }
    requires items { length loader.old ≡ items_of (orders_of jobs.now).plan }
    requires closed { IsClosedDown (orders_of jobs.now).plan loader.old }
    ensures faults { S.start_faults slot.new ≡ S.start_faults slot.old }
    ensures loaded { OnOk result ((S.running slot.new ≡ true) × HasLoaded (orders_of jobs.now) loader.old item (S.log slot.old) (S.log slot.new) loader.new × (S.deaths slot.new ≡ S.deaths slot.old)) }
    ensures ready { OnOk result (HasDepsCreated (orders_of jobs.now).plan loader.new item) }
    ensures gone { OnErr result ((S.running slot.new ≡ false) × GrewBy (orders_of jobs.now) loader.old item Outcome.Gone (S.log slot.old) (S.log slot.new) loader.new × Rose (S.deaths slot.old) (S.deaths slot.new)) }
    ensures items { length loader.new ≡ items_of (orders_of jobs.now).plan }
    ensures closed { IsClosedDown (orders_of jobs.now).plan loader.new }
{
    while let Some(load) = loader.next_load(jobs, item) {
        let Ok(()) = loader.send(rt, slot, jobs, load, true) else {
            return Err(Gone);
        };
        loader.mark(jobs, load);
    }
    Ok(())
}

/// Waits for bytes of an answer and gives them to the feed, no more than the answer lacks.
fn receive<S: Slot, R: Wait>(rt: &R, slot: &mut S, feed: &mut Feed) -> Result<(), Gone>
    requires running { S.running slot.old ≡ true }
    requires side { feed.old.side ≡ Crew }
    requires place { feed.old.place ≡ 0 }
    requires lacks { length feed.old.kept < 21 }
    requires awaited { IfSome (S.log slot.old) (λ notes. AwaitsAnswer notes (21 - length feed.old.kept)) }
    ensures faults { S.start_faults slot.new ≡ S.start_faults slot.old }
    ensures got { OnOk result ((S.running slot.new ≡ true) × HasReceived (S.log slot.old) (S.log slot.new) feed.old feed.new × (S.deaths slot.new ≡ S.deaths slot.old)) }
    ensures few { OnOk result (length feed.new.kept ≤ 21) }
    ensures gone { OnErr result ((S.running slot.new ≡ false) × (S.log slot.new ≡ grown (S.log slot.old) (SlotNote.Died ∷ [])) × Rose (S.deaths slot.old) (S.deaths slot.new)) }
{
    let mut bytes = [0u8; 21];
    let lacks = 21 - feed.left();
    let piece = &mut bytes[..lacks];
    let Ok(taken) = slot.recv(rt, piece) else {
        return Err(Gone);
    };
    feed.push_reply(&piece[..taken]);
    Ok(())
}

/// Reads the answer to a Do of the key, and stops a worker that sends something else.
fn read_reply<S: Slot, R: Wait>(rt: &R, slot: &mut S, alloc: Global, key: Key) -> Outcome
    requires running { S.running slot.old ≡ true }
    requires asked { JustAsked (S.log slot.old) }
    ensures faults { S.start_faults slot.new ≡ S.start_faults slot.old }
    ensures answered { HasAnswered key result (S.log slot.old) (S.log slot.new) }
    ensures running { S.running slot.new ≡ runs_after result }
    ensures died { result ≡ Outcome.Gone → Rose (S.deaths slot.old) (S.deaths slot.new) }
{
    let mut feed = Feed::new(alloc, Side::Crew);
    while feed.left() < 21 {
        let Ok(()) = receive(rt, slot, &mut feed) else {
            return Outcome::Gone;
        };
        match read(&mut feed, alloc, key) {
            Reading::Unfinished => (),
            Reading::Answer { code } => return Outcome::Answered(code),
            Reading::Wrong => {
                slot.stop(rt);
                return Outcome::Wrong;
            }
        }
    }
    unreachable!()
}

/// Asks a worker for an item, and marks what it has created.
pub(crate) fn ask<S: Slot, R: Wait>(
    rt: &R,
    slot: &mut S,
    loader: &mut Loader,
    jobs: &Jobs,
    item: u32,
) -> Outcome
    requires running { S.running slot.old ≡ true }
    requires jobs { AreJobs jobs.now }
    requires founded { Founded (orders_of jobs.now).plan item }
    requires items { length loader.old ≡ items_of (orders_of jobs.now).plan }
    requires closed { IsClosedDown (orders_of jobs.now).plan loader.old }
    ensures faults { S.start_faults slot.new ≡ S.start_faults slot.old }
    ensures log { GrewBy (orders_of jobs.now) loader.old item result (S.log slot.old) (S.log slot.new) loader.new }
    ensures running { S.running slot.new ≡ runs_after result }
    ensures died { result ≡ Outcome.Gone → Rose (S.deaths slot.old) (S.deaths slot.new) }
    ensures items { length loader.new ≡ items_of (orders_of jobs.now).plan }
    ensures closed { IsClosedDown (orders_of jobs.now).plan loader.new }
{
    let Ok(()) = load_all(rt, slot, loader, jobs, item) else {
        return Outcome::Gone;
    };
    let Ok(()) = loader.send(rt, slot, jobs, item, false) else {
        return Outcome::Gone;
    };
    let key = jobs.entry(item).head.key;
    match read_reply(rt, slot, loader.alloc(), key) {
        Outcome::Answered(code) => {
            if code == 0 {
                loader.mark(jobs, item);
                return Outcome::Answered(code);
            }
            Outcome::Answered(code)
        }
        Outcome::Gone => Outcome::Gone,
        Outcome::Wrong => Outcome::Wrong,
    }
}
