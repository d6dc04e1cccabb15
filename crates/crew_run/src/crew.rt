//! All slots of a replay.
ghost use Rattle.std.specs.Prelude.{◌≡◌, false, [], length, vec_len, vec_capacity, ◌<◌, ◌≤◌, All, IfOk, IfErr};
ghost use Rattle.replay_core.specs.Runs.{IsRun};
ghost use Rattle.slot_log.specs.Loads.{none_created};
ghost use Rattle.replay_board.specs.Seats.{setup_seen, IsRootSeat};
ghost use Rattle.replay_board.specs.Turns.{IsNewRoot};
ghost use Rattle.replay_crew.specs.Jobs.{AreJobs, orders_of};
ghost use Rattle.crew_run.specs.Crews.{ArePlayed};

use crate::seating::{Room, seat_all, take_back, take_room};
use crate::threads::run_each;
use replay_board::{Board, BoardSeat, CoreRefused};
use replay_core::{Core, decided_stays, slot_events};
use replay_crew::Jobs;
use slot_log::Slot;
use std::alloc::Global;
use std::collections::VecDeque;
use std::sync::Wait;
use std::thread::Threads;

/// Runs all slots over a board on which nothing was done yet, and takes the scheduler out of it.
fn run_with<S: Slot + Send, R: Wait + Threads + Sync>(
    rt: &R,
    board: Board,
    mut root: BoardSeat,
    room: Room,
    slots: &mut [S],
    jobs: &Jobs,
) -> Core
    requires root { IsRootSeat board root }
    requires fresh { IsNewRoot root }
    requires slots { (setup_seen root).slots ≡ length slots.old }
    requires some { 0 < length slots.old }
    requires plan { (setup_seen root).plan ≡ (orders_of jobs.now).plan }
    requires jobs { AreJobs jobs.now }
    requires at_rest { All (λ slot. S.running slot ≡ false) slots.old }
    requires count { vec_len room.loaders ≡ length slots.old }
    requires new { All (λ loader. loader ≡ none_created (orders_of jobs.now).plan) room.loaders.items }
    requires empty { room.kits.items ≡ [] }
    requires capacity { length slots.old ≤ vec_capacity room.kits }
    ensures setup { result.setup ≡ setup_seen root }
    ensures run { IsRun result.setup result.events }
    ensures played { ArePlayed (λ slot. record { log = S.log slot; start_faults = S.start_faults slot; running = S.running slot }) (orders_of jobs.now) result slots.old slots.new }
{
    let mut kits = seat_all(rt, &board, &mut root, room);
    run_each(rt, &board, jobs, kits.as_mut_slice(), slots);
    take_back(&board, &mut root, VecDeque::from_vec(kits));
    slot_events();
    decided_stays();
    let core = board.close(root);
    let _ = core.events();
    core
}

/// Replays the items over all slots, each slot's loop in a thread of its own where one can be made, and hands back the
/// scheduler with what really happened. All memory is taken before the first worker is started.
pub fn run_all<S: Slot + Send, R: Wait + Threads + Sync>(
    rt: &R,
    alloc: Global,
    core: Core,
    slots: &mut [S],
    jobs: &Jobs,
) -> Result<Core, CoreRefused>
    requires fresh { core.events ≡ [] }
    requires slots { core.setup.slots ≡ length slots.old }
    requires plan { core.setup.plan ≡ (orders_of jobs.now).plan }
    requires jobs { AreJobs jobs.now }
    requires at_rest { All (λ slot. S.running slot ≡ false) slots.old }

    // Out of memory, nothing was done.
    ensures refused { IfErr result (λ refused. refused.core ≡ core) }
    ensures untouched { IfErr result (λ _. slots.new ≡ slots.old) }

    ensures setup { IfOk result (λ now. now.setup ≡ core.setup) }
    ensures run { IfOk result (λ now. IsRun now.setup now.events) }
    ensures played { IfOk result (λ now. ArePlayed (λ slot. record { log = S.log slot; start_faults = S.start_faults slot; running = S.running slot }) (orders_of jobs.now) now slots.old slots.new) }
{
    let Ok(room) = take_room(alloc, jobs, slots.len()) else {
        return Err(CoreRefused { core });
    };
    let (board, root) = Board::new(alloc, core)?;
    Ok(run_with(rt, board, root, room, slots, jobs))
}
