// The rule that holds of a desk between any two steps, and what each kind of step tells.
// A split and a join change views alone, so they tell nothing: a load does, before a split and after a join.
ghost use Rattle.turn_desk.specs.Story.{root_of, split_from, split_off, joined_with, spent};
ghost use Rattle.turn_desk.specs.Turns.{IsKept, tried, freed, looked};

use crate::kept::Kept;
use crate::view::View;
use atomic_table::{Join, Play, Split, TableRule};
use std::marker::PhantomData;
use std::snapshot::Snapshot;

/// The desk's own `TableRule`.
pub struct Turns<V> {
    of: PhantomData<V>,
}

impl<V: Kept> TableRule<Option<V>, View<V::Note, V::Origin>, Snapshot<V>> for Turns<V> {
    // The key is the value as it was given to the desk.
    ghost holds = { λ given s. IsKept V.story V.origin V.number (V.origin given.value) s };

    ghost first = { λ given. root_of (V.origin given.value) };
}

/// A compare and exchange of 0 for 1. Where it wins, the slot goes to the seat.
pub struct Try<V> {
    of: PhantomData<V>,
}

impl<V: Kept> Play<Option<V>, View<V::Note, V::Origin>> for Try<V> {
    ghost then = { tried V.story V.origin V.number };
}

/// A swap to 0, with which the slot goes home.
pub struct Free<V> {
    of: PhantomData<V>,
}

impl<V: Kept> Play<Option<V>, View<V::Note, V::Origin>> for Free<V> {
    ghost then = { freed V.story V.origin V.number };
}

/// A load before a split or after a join, which tells what the rule knows of the root.
pub struct Look<V> {
    of: PhantomData<V>,
}

impl<V: Kept> Play<Option<V>, View<V::Note, V::Origin>> for Look<V> {
    ghost then = { looked V.story V.origin V.number };
}

/// The root is cut into itself and a new seat.
pub struct SplitOff;

impl<N, O> Split<View<N, O>> for SplitOff {
    ghost left = { split_from };

    ghost right = { split_off };
}

/// The root takes in another seat, which is then spent.
pub struct JoinIn;

impl<N, O> Join<View<N, O>> for JoinIn {
    ghost both = { joined_with };

    ghost spent = { spent };
}
