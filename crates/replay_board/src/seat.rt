ghost use Rattle.std.specs.Prelude.{◌≡◌, None};
ghost use Rattle.turn_desk.specs.Seats.{view_of};

use crate::shared::Shared;
use turn_desk::Seat;

/// The right to make the events of one slot, or, of the root, to make and take back the seats of slots.
/// It can go to another thread, and one thread has it at a time.
#[derive(Drop)]
pub struct BoardSeat {
    pub(crate) seat: Seat<Shared>,
    ghost outside: { (view_of seat).inside ≡ None },
}
