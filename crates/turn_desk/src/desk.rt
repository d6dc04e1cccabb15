// The desk: one word that is 1 while a seat is inside a turn, and one slot, in which the value lies between turns.
ghost use Rattle.std.specs.Prelude.{◌≡◌};

use crate::kept::Kept;
use crate::rule::{Free, JoinIn, Look, SplitOff, Try, Turns};
use crate::seat::Seat;
use crate::view::View;
use atomic_table::{Refused, Table};
use std::alloc::{AllocFailed, Global};
use std::snapshot::Snapshot;
use std::sync::Wait;
use std::thread;

/// A lock with a history, round one value. Threads share it by `&`, each with a seat of its own.
#[derive(Drop)]
pub struct Desk<V: Kept> {
    table: Table<Option<V>, View<V::Note, V::Origin>, Snapshot<V>, Turns<V>, Global>,
    ghost sized: { (table.shared.table_id.words ≡ 1) × (table.shared.table_id.slots ≡ 1) },
}

/// There was no memory for a desk. The value comes back.
#[derive(Drop)]
pub struct DeskRefused<V> {
    pub value: V,
}

impl<V> DeskRefused<V> {
    ghost use Rattle.std.specs.Prelude.{Some};

    fn holding(value: Option<V>) -> DeskRefused<V>
        requires { (x : V) × (value ≡ Some x) }
        ensures { value ≡ Some result.value }
    {
        let Some(value) = value else { unreachable!() };
        DeskRefused { value }
    }
}

impl<V: Kept + Drop> Desk<V> {
    ghost use Rattle.std.specs.Prelude.{◌≢◌, ℕ, ◌+◌, ◌⊎◌, ◌<◌, List, [], IfOk, IfErr, Some, None, All};
    ghost use mathlib.Core.List.{IsPrefix};
    ghost use Rattle.turn_desk.specs.Story.{notes_of, root_of, entered, left, split_from, split_off, joined_with, AreApart, HasAllBack, HasKept, IsAllOf, Continues};
    ghost use Rattle.turn_desk.specs.Seats.{view_of, IsSeatOf, IsSameSeat, IsOutside};

    /// A desk with the value at home, and its first seat, the root, which has the number 0.
    /// It alone takes memory.
    pub fn new(alloc: Global, value: V) -> Result<(Desk<V>, Seat<V>), DeskRefused<V>>
        requires { V.story value ≡ [] }
        ensures desk { IfOk result (λ r. IsSeatOf r.0 r.1) }
        ensures seat { IfOk result (λ r. view_of r.1 ≡ root_of (V.origin value)) }
        ensures refused { IfErr result (λ r. r.value ≡ value) }
    {
        let given = Snapshot::of(&value);
        let mut slots = Vec::new(alloc);
        if let Err(AllocFailed { value }) = slots.push(Some(value)) {
            slots.destroy_empty();
            return Err(DeskRefused::holding(value));
        }
        match Table::new(alloc, &[0], slots, &given) {
            Ok((table, token)) => Ok((
                Desk { table },
                Seat {
                    number: 0,
                    turns: 0,
                    out: 0,
                    made: 1,
                    token,
                },
            )),
            Err(Refused { mut slots }) => {
                let value = slots.pop();
                slots.destroy_empty();
                let Some(value) = value else { unreachable!() };
                Err(DeskRefused::holding(value))
            }
        }
    }

    /// Begins a turn: takes the value out. It waits while another seat is inside.
    /// What the value tells has gone on from what this seat had seen, with no note of this seat's that it did not write.
    pub fn enter<R: Wait>(&self, rt: &R, seat: &mut Seat<V>) -> V
        requires desk { IsSeatOf self.now seat.old }
        requires outside { IsOutside seat.old }
        requires turns { (view_of seat.old).turns < 4294967294 }
        ensures same { IsSameSeat seat.old seat.new }
        ensures view { view_of seat.new ≡ entered (view_of seat.old) (V.story result) }
        ensures seen { IsPrefix (view_of seat.old).seen (V.story result) }
        ensures mine { notes_of V.number (view_of seat.old).number (V.story result) ≡ (view_of seat.old).mine }
        ensures own { notes_of V.number (view_of seat.old).number (view_of seat.old).seen ≡ (view_of seat.old).mine }
        ensures origin { (view_of seat.old).origin ≡ Some (V.origin result) }
    {
        for _ in rt.forever() {
            if self
                .table
                .shared
                .compare_exchange::<Try<V>>(&mut seat.token, 0, 0, 1)
                == 0
            {
                seat.turns += 1;
                let Some(value) = self.table.shared.exchange(&mut seat.token, 0, None) else {
                    unreachable!()
                };
                return value;
            }
            thread::yield_now();
        }
        unreachable!()
    }

    /// Ends the turn: puts the value back. Its story may have grown, by notes with this seat's number alone.
    pub fn leave(&self, seat: &mut Seat<V>, value: V)
        requires desk { IsSeatOf self.now seat.old }
        requires story { Continues V.number (view_of seat.old) (V.story value) }
        requires origin { (view_of seat.old).origin ≡ Some (V.origin value) }
        ensures same { IsSameSeat seat.old seat.new }
        ensures view { view_of seat.new ≡ left (view_of seat.old) (V.story value) }
        ensures own { notes_of V.number (view_of seat.new).number (view_of seat.new).seen ≡ (view_of seat.new).mine }
    {
        drop(self.table.shared.exchange(&mut seat.token, 0, Some(value)));
        self.table.shared.swap::<Free<V>>(&mut seat.token, 0, 0);
    }

    /// One more seat, with the next number. It has seen what the root has, and none of that is its own.
    pub fn split(&self, root: &mut Seat<V>) -> Seat<V>
        requires desk { IsSeatOf self.now root.old }
        requires root { (view_of root.old).number ≡ 0 }
        requires outside { IsOutside root.old }
        requires room { (view_of root.old).made < 65535 }
        ensures same { IsSameSeat root.old root.new }
        ensures desk { IsSameSeat root.old result }
        ensures root { view_of root.new ≡ split_from (view_of root.old) }
        ensures seat { view_of result ≡ split_off (view_of root.old) }
        ensures own { notes_of V.number (view_of result).number (view_of result).seen ≡ [] }
    {
        // The rule knows that the next number has no note yet, so a load asks it.
        self.table.shared.load::<Look<V>>(&mut root.token, 0);
        let number = root.made;
        let token = self.table.shared.split_seat::<SplitOff>(&mut root.token);
        root.out += 1;
        root.made += 1;
        Seat {
            number,
            turns: 0,
            out: 0,
            made: 0,
            token,
        }
    }

    /// Takes a seat back. The root keeps its number and its notes, and has then seen what that seat had.
    /// No later seat gets the number again.
    pub fn join(&self, root: &mut Seat<V>, other: Seat<V>)
        requires desk { IsSeatOf self.now root.old }
        requires other_desk { IsSeatOf self.now other }
        requires root { (view_of root.old).number ≡ 0 }
        requires outside { IsOutside root.old }
        requires other_outside { IsOutside other }
        ensures same { IsSameSeat root.old root.new }
        ensures root { view_of root.new ≡ joined_with (view_of root.old) (view_of other) }
        ensures seen { IsPrefix (view_of other).seen (view_of root.new).seen }
        ensures longer { ((view_of root.new).seen ≡ (view_of root.old).seen) ⊎ ((view_of root.new).seen ≡ (view_of other).seen) }
        ensures mine { notes_of V.number 0 (view_of root.new).seen ≡ (view_of root.new).mine }
        ensures joined { HasKept V.number (view_of root.new).joined (view_of root.new).seen }
        ensures others { (view_of root.new).out ≡ 0 → IsAllOf V.number (view_of root.new) (view_of root.new).seen }
        ensures apart { AreApart (view_of root.new).made (view_of root.new).joined }
    {
        let Seat {
            number: _,
            turns: _,
            out: _,
            made: _,
            token,
        } = other;
        // The rule knows more of the two seats' views than `join_seat` tells, so a load asks it.
        self.table
            .shared
            .join_seat::<JoinIn>(&mut root.token, token);
        self.table.shared.load::<Look<V>>(&mut root.token, 0);
        root.out -= 1;
    }

    /// Takes the value out for good, once each seat is back. The root has then seen its whole story,
    /// of which each note is the root's or that of one joined seat.
    pub fn close(self, root: Seat<V>) -> V
        requires desk { IsSeatOf self root }
        requires root { (view_of root).number ≡ 0 }
        requires outside { IsOutside root }
        requires all { (view_of root).out ≡ 0 }
        ensures story { V.story result ≡ (view_of root).seen }
        ensures mine { notes_of V.number 0 (V.story result) ≡ (view_of root).mine }
        ensures joined { HasKept V.number (view_of root).joined (V.story result) }
        ensures others { IsAllOf V.number (view_of root) (V.story result) }
        ensures apart { AreApart (view_of root).made (view_of root).joined }
        ensures back { HasAllBack (view_of root) }
        ensures origin { (view_of root).origin ≡ Some (V.origin result) }
    {
        let Seat {
            number: _,
            turns: _,
            out: _,
            made: _,
            token,
        } = root;
        let Desk { table } = self;
        let mut closed = table.close_with(token);
        let value = closed.take(0);
        closed.free();
        let Some(value) = value else { unreachable!() };
        value
    }
}
