// The loop of a slot.
ghost use Rattle.std.specs.Prelude.{ℕ, ◌≡◌, ◌≤◌, ◌<◌, ◌++◌, ◌∷◌, [], true, false, length, List};
ghost use Rattle.disk_model.specs.Faults.{Rose};
ghost use Rattle.replay_core.specs.Plans.{items_of, Founded};
ghost use Rattle.replay_core.specs.Runs.{AllDecided, slot_at};
ghost use Rattle.replay_core.specs.declared.event.Event.{Event};
ghost use Rattle.replay_core.specs.declared.event.SlotState.{SlotState};
ghost use Rattle.slot_log.specs.Loads.{IsClosedDown, none_created};
ghost use Rattle.slot_log.specs.Telling.{Phase, NotYet, Working, Fallen, Over};
ghost use Rattle.replay_crew.specs.Jobs.{AreJobs, orders_of};
ghost use Rattle.replay_crew.specs.Kits.{seat_in, marks_in};
ghost use Rattle.replay_crew.specs.Steps.{GrewTelling, Carried, Quits, HasTurns, IsTold, goes_on};

use crate::asking::{Outcome, ask};
use crate::jobs::Jobs;
use crate::kit::Kit;
use crate::loader::Loader;
use replay_core::{Event, Next, SlotState};
use slot_log::Slot;
use slot_turns::SlotTurns;
use std::sync::Wait;
use worker_msg::quit_frame;

/// How the loop of a slot ended.
#[derive(Clone, Copy, Debug, PartialEq, Eq)]
pub enum SlotEnd {
    /// All items are decided.
    Finished,
    /// A worker could not be started.
    Retired,
}

/// Ends a worker.
fn quit<S: Slot, R: Wait>(rt: &R, slot: &mut S)
    requires { S.running slot.old ≡ true }
    ensures quits { Quits (S.log slot.old) (S.log slot.new) }
    ensures stopped { S.running slot.new ≡ false }
{
    if let Ok(()) = slot.send(rt, &quit_frame()) {
        slot.stop(rt);
    }
}

/// Starts a worker again after a death, or retires the slot. Answers whether a worker runs.
fn revive<B: SlotTurns, S: Slot, R: Wait>(
    rt: &R,
    board: &B,
    seat: &mut B::Seat,
    slot: &mut S,
    loader: &mut Loader,
    jobs: &Jobs,
) -> bool
    requires stopped { S.running slot.old ≡ false }
    requires seat { B.is_seat board.now seat.old }
    requires dead { slot_at (B.events seat.old) (B.slot seat.old) ≡ SlotState.Dead }
    requires turns { HasTurns (B.turns seat.old) (B.heard seat.old) (B.events seat.old) }
    requires items { length loader.old ≡ items_of (orders_of jobs.now).plan }
    ensures seat { B.is_seat board.now seat.new }
    ensures setup { B.setup seat.new ≡ B.setup seat.old }
    ensures slot { B.slot seat.new ≡ B.slot seat.old }
    ensures turns { HasTurns (B.turns seat.new) (B.heard seat.new) (B.events seat.new) }
    ensures running { S.running slot.new ≡ result }
    ensures told { Carried (orders_of jobs.now) (B.slot seat.old) Fallen [] (B.events seat.old) (B.events seat.new) (S.log slot.old) (S.log slot.new) (goes_on result loader.new) }
    ensures faults { result ≡ true → S.start_faults slot.new ≡ S.start_faults slot.old }
    ensures failed { result ≡ false → Rose (S.start_faults slot.old) (S.start_faults slot.new) }
    ensures idle { result ≡ true → slot_at (B.events seat.new) (B.slot seat.old) ≡ SlotState.Idle }
    ensures retired { result ≡ false → slot_at (B.events seat.new) (B.slot seat.old) ≡ SlotState.Retired }
    ensures items { length loader.new ≡ items_of (orders_of jobs.now).plan }
    ensures closed { result ≡ true → IsClosedDown (orders_of jobs.now).plan loader.new }
{
    let _ = jobs;
    let Ok(()) = slot.start(rt) else {
        board.retire(rt, seat);
        return false;
    };
    board.restart(rt, seat);
    loader.clear();
    true
}

/// Has a worker create an item that the slot holds, and says what came of it. Answers whether a worker runs.
fn carry_out<B: SlotTurns, S: Slot, R: Wait>(
    rt: &R,
    board: &B,
    seat: &mut B::Seat,
    slot: &mut S,
    loader: &mut Loader,
    jobs: &Jobs,
    item: u32,
) -> bool
    requires running { S.running slot.old ≡ true }
    requires seat { B.is_seat board.now seat.old }
    requires held { slot_at (B.events seat.old) (B.slot seat.old) ≡ SlotState.Holds item }
    requires turns { HasTurns (B.turns seat.old) (B.heard seat.old) (B.events seat.old) }
    requires jobs { AreJobs jobs.now }
    requires founded { Founded (orders_of jobs.now).plan item }
    requires items { length loader.old ≡ items_of (orders_of jobs.now).plan }
    requires closed { IsClosedDown (orders_of jobs.now).plan loader.old }
    ensures seat { B.is_seat board.now seat.new }
    ensures setup { B.setup seat.new ≡ B.setup seat.old }
    ensures slot { B.slot seat.new ≡ B.slot seat.old }
    ensures turns { HasTurns (B.turns seat.new) (B.heard seat.new) (B.events seat.new) }
    ensures running { S.running slot.new ≡ result }
    ensures told { Carried (orders_of jobs.now) (B.slot seat.old) (Working loader.old) (Event.Start (B.slot seat.old) item ∷ []) (B.events seat.old) (B.events seat.new) (S.log slot.old) (S.log slot.new) (goes_on result loader.new) }
    ensures faults { result ≡ true → S.start_faults slot.new ≡ S.start_faults slot.old }
    ensures failed { result ≡ false → Rose (S.start_faults slot.old) (S.start_faults slot.new) }
    ensures idle { result ≡ true → slot_at (B.events seat.new) (B.slot seat.old) ≡ SlotState.Idle }
    ensures retired { result ≡ false → slot_at (B.events seat.new) (B.slot seat.old) ≡ SlotState.Retired }
    ensures items { length loader.new ≡ items_of (orders_of jobs.now).plan }
    ensures closed { result ≡ true → IsClosedDown (orders_of jobs.now).plan loader.new }
{
    match ask(rt, slot, loader, jobs, item) {
        Outcome::Answered(code) => {
            board.reply(rt, seat, code);
            true
        }
        Outcome::Gone => {
            board.death(rt, seat);
            revive(rt, board, seat, slot, loader, jobs)
        }
        Outcome::Wrong => {
            board.death(rt, seat);
            revive(rt, board, seat, slot, loader, jobs)
        }
    }
}

/// The loop, once a worker runs.
fn run_started<B: SlotTurns, S: Slot, R: Wait>(
    rt: &R,
    board: &B,
    seat: &mut B::Seat,
    slot: &mut S,
    loader: &mut Loader,
    jobs: &Jobs,
) -> SlotEnd
    requires running { S.running slot.old ≡ true }
    requires seat { B.is_seat board.now seat.old }
    requires fresh { B.events seat.old ≡ [] }
    requires turns { HasTurns (B.turns seat.old) (B.heard seat.old) (B.events seat.old) }
    requires plan { (B.setup seat.old).plan ≡ (orders_of jobs.now).plan }
    requires jobs { AreJobs jobs.now }
    requires nothing { loader.old ≡ none_created (orders_of jobs.now).plan }
    ensures seat { B.is_seat board.now seat.new }
    ensures setup { B.setup seat.new ≡ B.setup seat.old }
    ensures slot { B.slot seat.new ≡ B.slot seat.old }
    ensures stopped { S.running slot.new ≡ false }
    ensures told { GrewTelling (orders_of jobs.now) (B.slot seat.old) (Working loader.old) (B.events seat.new) (S.log slot.old) (S.log slot.new) Over }
    ensures faults { result ≡ SlotEnd.Retired → Rose (S.start_faults slot.old) (S.start_faults slot.new) }
    ensures retired { result ≡ SlotEnd.Retired → slot_at (B.events seat.new) (B.slot seat.old) ≡ SlotState.Retired }
    ensures finished { result ≡ SlotEnd.Finished → AllDecided (B.setup seat.new) (B.seen seat.new) }
    ensures idle { result ≡ SlotEnd.Finished → slot_at (B.events seat.new) (B.slot seat.old) ≡ SlotState.Idle }
{
    for _ in rt.forever() {
        match board.next(rt, seat) {
            Next::Finished => {
                quit(rt, slot);
                return SlotEnd::Finished;
            }
            Next::Idle => board.wait_for_more(rt, seat),
            Next::Work { item } => {
                if !carry_out(rt, board, seat, slot, loader, jobs, item) {
                    return SlotEnd::Retired;
                }
            }
        }
    }
    unreachable!()
}

/// Has workers create what the board hands out, until all items are decided or no worker can be started. It takes no memory.
pub fn run_slot<B: SlotTurns, S: Slot, R: Wait>(
    rt: &R,
    board: &B,
    kit: &mut Kit<B::Seat>,
    slot: &mut S,
    jobs: &Jobs,
) -> SlotEnd
    requires seat { B.is_seat board.now (seat_in kit.old) }
    requires fresh { B.events (seat_in kit.old) ≡ [] }
    requires turns { B.turns (seat_in kit.old) ≡ 0 }
    requires heard { B.heard (seat_in kit.old) ≤ 2147483647 }
    requires plan { (B.setup (seat_in kit.old)).plan ≡ (orders_of jobs.now).plan }
    requires items { length (marks_in kit.old) ≡ items_of (orders_of jobs.now).plan }
    requires jobs { AreJobs jobs.now }
    requires stopped { S.running slot.old ≡ false }
    ensures seat { B.is_seat board.now (seat_in kit.new) }
    ensures setup { B.setup (seat_in kit.new) ≡ B.setup (seat_in kit.old) }
    ensures slot { B.slot (seat_in kit.new) ≡ B.slot (seat_in kit.old) }
    ensures stopped { S.running slot.new ≡ false }

    // The notes added to the log tell the slot's events.
    ensures told { IsTold (orders_of jobs.now) (B.slot (seat_in kit.old)) (B.events (seat_in kit.new)) (S.log slot.old) (S.log slot.new) }

    // The slot retires only where a start failed, and so where none did all items are decided.
    ensures faults { result ≡ SlotEnd.Retired → Rose (S.start_faults slot.old) (S.start_faults slot.new) }
    ensures retired { result ≡ SlotEnd.Retired → slot_at (B.events (seat_in kit.new)) (B.slot (seat_in kit.old)) ≡ SlotState.Retired }
    ensures finished { result ≡ SlotEnd.Finished → AllDecided (B.setup (seat_in kit.new)) (B.seen (seat_in kit.new)) }
    ensures idle { result ≡ SlotEnd.Finished → slot_at (B.events (seat_in kit.new)) (B.slot (seat_in kit.old)) ≡ SlotState.Idle }
{
    let Ok(()) = slot.start(rt) else {
        board.retire(rt, &mut kit.seat);
        return SlotEnd::Retired;
    };
    kit.loader.clear();
    run_started(rt, board, &mut kit.seat, slot, &mut kit.loader, jobs)
}
