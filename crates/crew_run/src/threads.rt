//! The slots of a replay, run in threads.
ghost use Rattle.std.specs.Prelude.{◌≡◌, ◌<◌, false, length, All};
ghost use Rattle.std.specs.Thread.{IsSync, IsSend};
ghost use Rattle.replay_crew.specs.Jobs.{AreJobs, orders_of};
ghost use Rattle.crew_run.specs.Kits.{IsReady, AreReady, HasRun, HaveRun};

use replay_board::{Asker, Board};
use replay_crew::{Jobs, Kit, SlotEnd, run_slot};
use slot_log::Slot;
use std::sync::Wait;
use std::thread::{Threads, join_mut};

/// Runs a slot to its end.
fn run_one<S: Slot, R: Wait>(rt: &R, board: &Board, jobs: &Jobs, kit: &mut Kit<Asker>, slot: &mut S)
    requires jobs { AreJobs jobs.now }
    requires ready { IsReady board.now (orders_of jobs.now) kit.old }
    requires at_rest { S.running slot.old ≡ false }
    ensures { HasRun board.now (orders_of jobs.now) kit.old kit.new (record { log = S.log slot.old; start_faults = S.start_faults slot.old; running = S.running slot.old }) (record { log = S.log slot.new; start_faults = S.start_faults slot.new; running = S.running slot.new }) }
{
    match run_slot(rt, board, kit, slot, jobs) {
        SlotEnd::Finished => (),
        SlotEnd::Retired => (),
    }
}

/// Runs each slot to its end, with the kit at its place.
#[cycle(halves)]
pub(crate) fn run_each<S: Slot + Send, R: Wait + Threads + Sync>(
    rt: &R,
    board: &Board,
    jobs: &Jobs,
    kits: &mut [Kit<Asker>],
    slots: &mut [S],
)
    requires jobs { AreJobs jobs.now }
    requires some { 0 < length slots.old }
    requires paired { length kits.old ≡ length slots.old }
    requires ready { AreReady board.now (orders_of jobs.now) kits.old }
    requires at_rest { All (λ slot. S.running slot ≡ false) slots.old }
    ensures { HaveRun (λ slot. record { log = S.log slot; start_faults = S.start_faults slot; running = S.running slot }) board.now (orders_of jobs.now) kits.old kits.new slots.old slots.new }
{
    if slots.len() == 1 {
        run_one(rt, board, jobs, &mut kits[0], &mut slots[0]);
        return;
    }
    let half = slots.len() / 2;
    let (kits_here, kits_there) = kits.split_at_mut(half);
    let (here, there) = slots.split_at_mut(half);
    run_halves(rt, board, jobs, kits_here, here, kits_there, there);
}

/// Runs some slots in this thread and the others in another, where one can be made.
// A function apart from `run_each`, so that what the closures require is what this function is given.
#[cycle(halves)]
fn run_halves<S: Slot + Send, R: Wait + Threads + Sync>(
    rt: &R,
    board: &Board,
    jobs: &Jobs,
    kits_here: &mut [Kit<Asker>],
    here: &mut [S],
    kits_there: &mut [Kit<Asker>],
    there: &mut [S],
)
    requires jobs { AreJobs jobs.now }
    requires some_here { 0 < length here.old }
    requires paired_here { length kits_here.old ≡ length here.old }
    requires ready_here { AreReady board.now (orders_of jobs.now) kits_here.old }
    requires at_rest_here { All (λ slot. S.running slot ≡ false) here.old }
    requires some_there { 0 < length there.old }
    requires paired_there { length kits_there.old ≡ length there.old }
    requires ready_there { AreReady board.now (orders_of jobs.now) kits_there.old }
    requires at_rest_there { All (λ slot. S.running slot ≡ false) there.old }
    ensures here { HaveRun (λ slot. record { log = S.log slot; start_faults = S.start_faults slot; running = S.running slot }) board.now (orders_of jobs.now) kits_here.old kits_here.new here.old here.new }
    ensures there { HaveRun (λ slot. record { log = S.log slot; start_faults = S.start_faults slot; running = S.running slot }) board.now (orders_of jobs.now) kits_there.old kits_there.new there.old there.new }
{
    let mut others = ||
        requires { IsSync R.row × IsSend S.row × AreJobs jobs.now × (0 < length there.now) × (length kits_there.now ≡ length there.now) × AreReady board.now (orders_of jobs.now) kits_there.now × All (λ slot. S.running slot ≡ false) there.now }
        ensures { HaveRun (λ slot. record { log = S.log slot; start_faults = S.start_faults slot; running = S.running slot }) board.entry.now (orders_of jobs.entry.now) kits_there.entry.now kits_there.exit.now there.entry.now there.exit.now }
    { run_each(rt, board, jobs, kits_there, there) };
    let mut these = ||
        requires { IsSync R.row × IsSend S.row × AreJobs jobs.now × (0 < length here.now) × (length kits_here.now ≡ length here.now) × AreReady board.now (orders_of jobs.now) kits_here.now × All (λ slot. S.running slot ≡ false) here.now }
        ensures { HaveRun (λ slot. record { log = S.log slot; start_faults = S.start_faults slot; running = S.running slot }) board.entry.now (orders_of jobs.entry.now) kits_here.entry.now kits_here.exit.now here.entry.now here.exit.now }
    { run_each(rt, board, jobs, kits_here, here) };
    join_mut(rt, &mut others, &mut these);
}
