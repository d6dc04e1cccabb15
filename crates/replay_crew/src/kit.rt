// What the loop of a slot works with.
ghost use Rattle.std.specs.Prelude.{◌≡◌, ◌<◌, true, false, length, IfSome, IfNone, None, slice_set, replicate};
ghost use Rattle.replay_core.specs.Plans.{items_of, Founded};
ghost use Rattle.slot_log.specs.Loads.{DependsOn, IsClosedDown, HasDepsCreated, is_created};
ghost use Rattle.replay_crew.specs.Jobs.{orders_of};
ghost use Rattle.replay_crew.specs.Kits.{seat_in, marks_in};

use crate::jobs::Jobs;
use crate::loader::Loader;

/// A slot's seat at the board, and what its workers are loaded by. Contracts see the seat and a mark for each item that
/// the slot's worker has created.
#[derive(Drop)]
pub struct Kit<T> {
    pub(crate) seat: T,
    pub(crate) loader: Loader,
}

impl<T> Kit<T> {
    pub fn new(seat: T, loader: Loader) -> Kit<T>
        ensures seat { seat_in result ≡ seat }
        ensures marks { marks_in result ≡ loader }
    {
        Kit { seat, loader }
    }

    /// An item that the worker is to be loaded with before it is asked for this one, `None` where there is none.
    pub fn next_load(&self, jobs: &Jobs, item: u32) -> Option<u32>
        requires items { length (marks_in self.now) ≡ items_of (orders_of jobs.now).plan }
        requires founded { Founded (orders_of jobs.now).plan item }
        ensures below { IfSome result (λ j. DependsOn (orders_of jobs.now).plan item j) }
        ensures new { IfSome result (λ j. is_created (marks_in self.now) j ≡ false) }
        ensures ready { IfSome result (λ j. HasDepsCreated (orders_of jobs.now).plan (marks_in self.now) j) }
        ensures none { IfNone result (HasDepsCreated (orders_of jobs.now).plan (marks_in self.now) item) }
        ensures all { HasDepsCreated (orders_of jobs.now).plan (marks_in self.now) item → result ≡ None }
    {
        self.loader.next_load(jobs, item)
    }

    /// The worker has created the item.
    pub fn mark(&mut self, jobs: &Jobs, item: u32)
        requires items { length (marks_in self.old) ≡ items_of (orders_of jobs.now).plan }
        requires closed { IsClosedDown (orders_of jobs.now).plan (marks_in self.old) }
        requires inside { item < length (marks_in self.old) }
        requires ready { HasDepsCreated (orders_of jobs.now).plan (marks_in self.old) item }
        ensures marked { marks_in self.new ≡ slice_set (marks_in self.old) item true }
        ensures closed { IsClosedDown (orders_of jobs.now).plan (marks_in self.new) }
        ensures seat { seat_in self.new ≡ seat_in self.old }
    {
        self.loader.mark(jobs, item);
    }

    /// There is a new worker, which has created nothing.
    pub fn clear(&mut self)
        ensures marks { marks_in self.new ≡ replicate (length (marks_in self.old)) false }
        ensures seat { seat_in self.new ≡ seat_in self.old }
    {
        self.loader.clear();
    }

    /// Gives the seat back.
    pub fn into_seat(self) -> T
        ensures { result ≡ seat_in self }
    {
        let Kit { seat, loader: _ } = self;
        seat
    }
}
