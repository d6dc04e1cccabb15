//! The seats of a crew: they go out before a replay, and come back after it.
ghost use Rattle.std.specs.Prelude.{◌≡◌, ◌≤◌, [], length, vec_len, vec_capacity, All, IfOk};
ghost use Rattle.slot_log.specs.Loads.{none_created};
ghost use Rattle.replay_board.specs.Seats.{setup_seen, desk_view, IsRootSeat, IsSlotSeat};
ghost use Rattle.replay_board.specs.Turns.{IsNewRoot};
ghost use Rattle.replay_crew.specs.Jobs.{orders_of};
ghost use Rattle.replay_board.specs.declared.asker.Asker.{Asker};
ghost use Rattle.replay_crew.specs.declared.kit.Kit.{Kit};
ghost use Rattle.replay_crew.specs.Kits.{seat_in};
ghost use Rattle.crew_run.specs.Kits.{AreNewKits};
ghost use Rattle.crew_run.specs.Roots.{HasSplit, HasAllKits};

use foz_words::NoMemory;
use replay_board::{Asker, Board, BoardSeat};
use replay_crew::{Jobs, Kit, Loader};
use std::alloc::Global;
use std::collections::VecDeque;
use std::sync::Wait;

/// The memory that the loops of slots need.
#[derive(Drop)]
pub(crate) struct Room {
    pub loaders: Vec<Loader>,
    pub kits: Vec<Kit<Asker>>,
}

/// What so many slots load their workers by.
fn loaders_for(alloc: Global, jobs: &Jobs, slots: usize) -> Result<Vec<Loader>, NoMemory>
    ensures count { IfOk result (λ loaders. vec_len loaders ≡ slots) }
    ensures new { IfOk result (λ loaders. All (λ loader. loader ≡ none_created (orders_of jobs.now).plan) loaders.items) }
{
    let mut loaders = Vec::with_capacity(alloc, slots)?;
    for _slot in 0..slots {
        loaders.push(Loader::new(alloc, jobs)?)?;
    }
    Ok(loaders)
}

/// Takes all memory that so many slots need.
pub(crate) fn take_room(alloc: Global, jobs: &Jobs, slots: usize) -> Result<Room, NoMemory>
    ensures count { IfOk result (λ room. vec_len room.loaders ≡ slots) }
    ensures new { IfOk result (λ room. All (λ loader. loader ≡ none_created (orders_of jobs.now).plan) room.loaders.items) }
    ensures empty { IfOk result (λ room. room.kits.items ≡ []) }
    ensures capacity { IfOk result (λ room. slots ≤ vec_capacity room.kits) }
{
    let kits = Vec::with_capacity(alloc, slots)?;
    let loaders = loaders_for(alloc, jobs, slots)?;
    Ok(Room { loaders, kits })
}

/// A kit for each slot of the board, with a seat of that slot.
pub(crate) fn seat_all<R: Wait>(
    rt: &R,
    board: &Board,
    root: &mut BoardSeat,
    room: Room,
) -> Vec<Kit<Asker>>
    requires root { IsRootSeat board.now root.old }
    requires fresh { IsNewRoot root.old }
    requires count { vec_len room.loaders ≡ (setup_seen root.old).slots }
    requires new { All (λ loader. loader ≡ none_created (setup_seen root.old).plan) room.loaders.items }
    requires empty { room.kits.items ≡ [] }
    requires capacity { vec_len room.loaders ≤ vec_capacity room.kits }
    ensures root { HasSplit board.now (setup_seen root.old) (setup_seen root.old).slots root.new }
    ensures count { vec_len result ≡ (setup_seen root.old).slots }
    ensures kits { AreNewKits board.now (setup_seen root.old) result.items }
{
    let Room {
        mut loaders,
        mut kits,
    } = room;
    while let Some(loader) = loaders.pop() {
        let reader = board.reader(rt, root);
        let seat = board.seat_for(root, kits.len() as u32);
        let Ok(()) = kits.push(Kit::new(Asker::new(seat, reader), loader)) else {
            unreachable!()
        };
    }
    kits
}

/// Takes all seats back.
pub(crate) fn take_back(board: &Board, root: &mut BoardSeat, mut kits: VecDeque<Kit<Asker>>)
    requires root { IsRootSeat board.now root.old }
    requires seats { All (λ (kit : Kit Asker). IsSlotSeat board.now (seat_in kit).seat) kits.items }
    requires out { (desk_view root.old).out ≡ length kits.items }
    ensures root { IsRootSeat board.now root.new }
    ensures setup { setup_seen root.new ≡ setup_seen root.old }
    ensures out { (desk_view root.new).out ≡ 0 }
    ensures back { HasAllKits root.new kits.items }
{
    while let Some(kit) = kits.pop_front() {
        board.join(root, kit.into_seat().into_seat());
    }
}
