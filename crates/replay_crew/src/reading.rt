// What a worker's bytes are to a Do.
ghost use Rattle.std.specs.Prelude.{◌≡◌, ◌<◌, ◌≤◌, length};
ghost use Rattle.worker_msg.specs.declared.side.Side.TheVariants.{Crew};
ghost use Rattle.replay_crew.specs.Readings.{Reads, reading_by};

use foz_words::Key;
use std::alloc::Global;
use worker_msg::{Feed, Msg, TakeFrame};

/// What some bytes of a worker are, where it was asked for the item of a key.
#[derive(Clone, Copy, Debug, PartialEq, Eq)]
pub(crate) enum Reading {
    /// The beginning of a frame, or no bytes.
    Unfinished,
    /// The Reply with the key.
    Answer { code: u32 },
    /// Something else.
    Wrong,
}

/// What a whole message is.
fn reading_of(message: &Msg, key: Key) -> Reading
    ensures { result ≡ reading_by key message.now }
{
    match message {
        Msg::Reply {
            key: answered,
            code,
        } => {
            if *answered == key {
                Reading::Answer { code: *code }
            } else {
                Reading::Wrong
            }
        }
        Msg::Hello => Reading::Wrong,
        Msg::Load { key: _, payload: _ } => Reading::Wrong,
        Msg::Do { key: _, payload: _ } => Reading::Wrong,
        Msg::Quit => Reading::Wrong,
    }
}

/// What the bytes that a feed keeps are. No memory is taken, since the frames of a worker have no payload.
pub(crate) fn read(feed: &mut Feed, alloc: Global, key: Key) -> Reading
    requires side { feed.old.side ≡ Crew }
    requires few { length feed.old.kept ≤ 21 }
    ensures reads { Reads key feed.old.kept result }
    ensures unfinished { result ≡ Reading.Unfinished → (feed.new ≡ feed.old) × (length feed.old.kept < 21) }
{
    match feed.take(alloc) {
        Ok(None) => Reading::Unfinished,
        Ok(Some(message)) => reading_of(&message, key),
        Err(TakeFrame::BadFrame { at: _ }) => Reading::Wrong,
        Err(TakeFrame::Memory) => unreachable!(),
    }
}
