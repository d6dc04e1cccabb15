// What lies in the desk.
ghost use Rattle.std.specs.Prelude.{◌≡◌, ◌≤◌, length, vec_capacity};
ghost use Rattle.replay_core.specs.Histories.{room_of};
ghost use Rattle.progress_block.specs.Ends.{rows_of, writer_cell};
ghost use Rattle.replay_board.specs.Notes.{signed, AreByMakers};
ghost use Rattle.replay_board.specs.Counted.{AreCounted};

use crate::note::BoardNote;
use crate::origin::BoardOrigin;
use progress_block::Writer;
use replay_core::Core;
use turn_desk::Kept;

/// The scheduler, the number of the seat that made each of its events, and the right to publish its counts.
#[derive(Drop)]
pub struct Shared {
    pub core: Core,
    pub makers: Vec<u32>,
    pub writer: Writer,
    ghost paired: { length makers.items ≡ length core.events },
    ghost room: { room_of core.setup ≤ vec_capacity makers },
    ghost by_makers: { AreByMakers (signed makers.items core.events) },
    ghost counted: { AreCounted core.setup core.events (rows_of writer) },
}

impl Kept for Shared {
    type Note = BoardNote;

    type Origin = BoardOrigin;

    ghost story = { λ t. signed t.makers.items t.core.events };

    ghost origin = { λ t. record { plan = t.core.setup.plan; slots = t.core.setup.slots; deaths = t.core.setup.deaths; cell = record { marker = record {}; cell = writer_cell t.writer } } };

    ghost number = { λ n. n.seat };
}

impl Shared {
    /// The scheduler alone.
    pub fn into_core(self) -> Core
        ensures { result ≡ self.core }
    {
        let Shared {
            core,
            makers: _,
            writer: _,
        } = self;
        core
    }
}
