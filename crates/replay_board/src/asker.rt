// What the loop of one slot has of the board.
ghost use Rattle.std.specs.Prelude.{◌≡◌};

use crate::board::Board;
use crate::seat::BoardSeat;
use progress_block::Reader;
use replay_core::Next;
use slot_turns::SlotTurns;
use std::sync::Wait;
use std::thread::yield_now;

/// The seat of a slot, with a reader of the counts for while there is nothing to do.
#[derive(Drop)]
pub struct Asker {
    pub(crate) seat: BoardSeat,
    pub(crate) reader: Reader,
    heard: u64,
}

impl Asker {
    /// A slot that has heard of no event yet.
    pub fn new(seat: BoardSeat, reader: Reader) -> Asker
        ensures seat { result.seat ≡ seat }
        ensures reader { result.reader ≡ reader }
        ensures heard { result.heard ≡ 0 }
    {
        Asker {
            seat,
            reader,
            heard: 0,
        }
    }

    /// The seat, for the root to take back.
    pub fn into_seat(self) -> BoardSeat
        ensures { result ≡ self.seat }
    {
        let Asker {
            seat,
            reader: _,
            heard: _,
        } = self;
        seat
    }
}

impl SlotTurns for Board {
    ghost use Rattle.replay_board.specs.Seats.{slot_of, turns_of, setup_seen, events_seen, own_events};
    ghost use Rattle.replay_board.specs.Askers.{IsAsker};

    type Seat = Asker;

    ghost is_seat = { IsAsker };

    ghost setup = { λ asker. setup_seen asker.seat };

    ghost slot = { λ asker. slot_of asker.seat };

    ghost events = { λ asker. own_events asker.seat };

    ghost seen = { λ asker. events_seen asker.seat };

    ghost turns = { λ asker. turns_of asker.seat };

    ghost heard = { λ asker. asker.heard };

    fn next<R: Wait>(&self, rt: &R, seat: &mut Asker) -> Next {
        Board::next(self, rt, &mut seat.seat)
    }

    fn reply<R: Wait>(&self, rt: &R, seat: &mut Asker, code: u32) {
        Board::reply(self, rt, &mut seat.seat, code);
    }

    fn death<R: Wait>(&self, rt: &R, seat: &mut Asker) {
        Board::death(self, rt, &mut seat.seat);
    }

    fn restart<R: Wait>(&self, rt: &R, seat: &mut Asker) {
        Board::restart(self, rt, &mut seat.seat);
    }

    fn retire<R: Wait>(&self, rt: &R, seat: &mut Asker) {
        Board::retire(self, rt, &mut seat.seat);
    }

    /// Waits on the counts, outside the desk.
    fn wait_for_more<R: Wait>(&self, rt: &R, seat: &mut Asker) {
        for _ in rt.forever() {
            let counts = self.read(rt, &mut seat.reader);
            if seat.heard < counts.events {
                seat.heard = counts.events;
                return;
            }
            yield_now();
        }
        unreachable!()
    }
}
