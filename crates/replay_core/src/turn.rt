ghost use Rattle.std.specs.Prelude.{◌≡◌, ◌≢◌, ◌<◌, ◌≤◌, ◌+◌, ◌∷◌, [], ℕ, None, Some, IfSome, IfNone, false, length, slice_index_or, sum_by, All};
ghost use Rattle.replay_core.specs.Plans.{items_of, deps_of};
ghost use Rattle.replay_core.specs.Runs.{Allowed, IsMet, IsWaiting, NoMiss, NoStart, verdict_by};
ghost use Rattle.replay_core.specs.Histories.{room_of, with_events};
ghost use Rattle.replay_core.specs.Turns.{AddsMisses};
ghost use Rattle.replay_core.specs.Queues.{DecidesOnly, LookedAt, QueuesKept};
ghost use Rattle.replay_core.specs.Worklists.{work_of, ListGrows};

use crate::event::Event;
use crate::prospect::Prospect;
use crate::queues::Queues;
use crate::record::Record;
use crate::worklist::pass_on;

/// Adds an event that decides an item.
pub fn decide(story: &mut Record, queues: &mut Queues, event: Event, item: u32)
    requires kept { QueuesKept story.old queues.old }
    requires allowed { Allowed story.old.setup story.old.events event }
    requires inside { item < items_of story.old.setup.plan }
    requires decides { DecidesOnly story.old.setup story.old.events event item }
    ensures kept { QueuesKept story.new queues.new }
    ensures added { story.new ≡ with_events story.old (event ∷ []) }
    ensures never_passed { length story.new.events ≤ room_of story.new.setup }
    ensures head { queues.new.list.head ≡ queues.old.list.head }
    ensures fresh { ListGrows queues.old.list queues.new.list }
    ensures work { work_of queues.new.list ≡ work_of queues.old.list }
{
    story.add(event);
    pass_on(&mut queues.list, item);
}

/// Looks at an item: it is ready, or missing, or hangs on an item that is undecided.
fn look(story: &mut Record, queues: &mut Queues, item: u32)
    requires kept { QueuesKept story.old queues.old }
    requires inside { item < items_of story.old.setup.plan }
    ensures kept { QueuesKept story.new queues.new }
    ensures misses { AddsMisses story.old story.new }
    ensures looked { LookedAt story.new queues.new item }
    ensures head { queues.new.list.head ≡ queues.old.list.head }
    ensures fresh { ListGrows queues.old.list queues.new.list }
    ensures work { work_of queues.new.list ≡ work_of queues.old.list }
{
    if queues.queued[item as usize] || !story.is_waiting(item) {
        return;
    }
    let from = queues.list.progress[item as usize];
    match story.prospect(item, from) {
        Prospect::Ready => {
            queues.queued[item as usize] = true;
            match queues.ready.push(item) {
                Ok(()) => (),
                Err(_) => unreachable!(),
            }
        }
        Prospect::Lost(place) => decide(story, queues, Event::Miss { item, place }, item),
        Prospect::Pending(place) => {
            queues.list.progress[item as usize] = place;
        }
    }
}

/// Looks at all items that are to be looked at, and makes every miss that is allowed.
pub fn settle(story: &mut Record, queues: &mut Queues)
    requires kept { QueuesKept story.old queues.old }
    ensures kept { QueuesKept story.new queues.new }
    ensures misses { AddsMisses story.old story.new }
    ensures done { queues.new.list.head ≡ length queues.new.list.fresh.items }
{
    while queues.list.head < queues.list.fresh.len() {
        let item = queues.list.fresh[queues.list.head];
        look(story, queues, item);
        queues.list.head += 1;
    }
}

/// The first item that is ready and waits, at the beginning of what is left of the ready ones.
pub fn first_ready(story: &Record, queues: &mut Queues) -> Option<u32>
    requires kept { QueuesKept story.now queues.old }
    requires done { queues.old.list.head ≡ length queues.old.list.fresh.items }
    ensures kept { QueuesKept story.now queues.new }
    ensures done { queues.new.list.head ≡ length queues.new.list.fresh.items }
    ensures waits { IfSome result (IsWaiting story.now.setup story.now.events) }
    ensures met { IfSome result (λ item. All (IsMet story.now.setup story.now.events) (deps_of story.now.setup.plan item)) }
    ensures inside { IfSome result (λ item. queues.new.taken < length queues.new.ready.items) }
    ensures first { IfSome result (λ item. item ≡ slice_index_or queues.new.ready.items queues.new.taken item) }
    ensures none { IfNone result (queues.new.taken ≡ length queues.new.ready.items) }
{
    while queues.taken < queues.ready.len() {
        let item = queues.ready[queues.taken];
        if story.is_waiting(item) {
            return Some(item);
        }
        queues.taken += 1;
    }
    None
}
