// A seat at a desk.
ghost use Rattle.std.specs.Prelude.{◌≡◌, ◌+◌, true, length};
ghost use Rattle.turn_desk.specs.Story.{held, slots};

use crate::kept::Kept;
use crate::view::View;
use atomic_table;

/// The right to take turns at one desk. It can go to another thread, and one thread has it at a time.
/// A seat that is dropped stays out, so its desk can't be closed any more.
#[derive(Drop)]
pub struct Seat<V: Kept> {
    pub(crate) number: u32,
    pub(crate) turns: u32,
    pub(crate) out: u32,
    pub(crate) made: u32,
    pub(crate) token: atomic_table::Seat<Option<V>, View<V::Note, V::Origin>>,
    ghost counted: { (number ≡ token.me.0.number) × (turns ≡ token.me.0.turns) × (out ≡ token.me.0.out) × (made ≡ token.me.0.made) },
    ghost summed: { token.me.0.number ≡ 0 → length token.me.0.joined + token.me.0.out + 1 ≡ token.me.0.made },
    ghost live: { token.me.0.live ≡ true },
    ghost holds: { slots token.me.1 ≡ held token.me.0.inside },
}

impl<V: Kept> Seat<V> {
    ghost use Rattle.turn_desk.specs.Seats.{view_of};

    /// The number that this seat's notes carry.
    pub fn number(&self) -> u32
        ensures { result ≡ (view_of self.now).number }
    {
        self.number
    }

    /// How many turns this seat has begun.
    pub fn turns(&self) -> u32
        ensures { result ≡ (view_of self.now).turns }
    {
        self.turns
    }

    /// How many seats were split off this one and not joined back.
    pub fn out(&self) -> u32
        ensures { result ≡ (view_of self.now).out }
    {
        self.out
    }

    /// How many seats the desk has made, the root and joined ones counted.
    pub fn made(&self) -> u32
        requires { (view_of self.now).number ≡ 0 }
        ensures { result ≡ (view_of self.now).made }
    {
        self.made
    }
}
