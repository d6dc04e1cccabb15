// What a turn leaves in the desk.
ghost use Rattle.std.specs.Prelude.{◌≡◌, ◌-◌, ◌≤◌, ◌++◌, length, replicate, vec_capacity};
ghost use Rattle.replay_core.specs.Runs.{IsRun};
ghost use Rattle.replay_core.specs.Histories.{room_of};
ghost use Rattle.progress_block.specs.Ends.{rows_of, writer_cell, IsWriterOf};
ghost use Rattle.replay_board.specs.Steps.{IsUnsigned};

use crate::shared::Shared;
use progress_block::{Progress, Writer};
use replay_core::Core;
use std::sync::Wait;

/// Writes the seat's number for each event that has no maker yet.
fn sign(makers: &mut Vec<u32>, seat: u32, events: usize)
    requires grown { length makers.old.items ≤ events }
    requires room { events ≤ vec_capacity makers.old }
    ensures makers { makers.new.items ≡ makers.old.items ++ replicate (events - length makers.old.items) seat }
    ensures capacity { vec_capacity makers.old ≤ vec_capacity makers.new }
{
    for _event in makers.len()..events {
        match makers.push(seat) {
            Ok(()) => (),
            Err(_) => unreachable!(),
        }
    }
}

/// The scheduler after a call of a seat, signed: the events that the call added get the seat's number,
/// and where there are any, the counts after them are published.
pub fn settle<R: Wait>(
    rt: &R,
    progress: &Progress,
    core: Core,
    mut makers: Vec<u32>,
    mut writer: Writer,
    seat: u32,
) -> Shared
    requires progress { IsWriterOf progress.now writer }
    requires unsigned { IsUnsigned seat core makers.items (rows_of writer) }
    requires never_passed { length core.events ≤ room_of core.setup }
    requires room { room_of core.setup ≤ vec_capacity makers }
    ensures run { IsRun core.setup core.events }
    ensures core { result.core ≡ core }
    ensures makers { result.makers.items ≡ makers.items ++ replicate (length core.events - length makers.items) seat }
    ensures cell { writer_cell result.writer ≡ writer_cell writer }
{
    let events = core.events().len();
    if makers.len() == events {
        return Shared {
            core,
            makers,
            writer,
        };
    }
    sign(&mut makers, seat, events);
    progress.publish(rt, &mut writer, core.counts());
    Shared {
        core,
        makers,
        writer,
    }
}
