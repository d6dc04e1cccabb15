//! Laws of turns, for callers of `enter` and `leave`.
ghost use Rattle.std.specs.Prelude.{◌≡◌, ◌≢◌, ℕ, List, ◌++◌, All};
ghost use mathlib.Core.List.{IsPrefix};
ghost use Rattle.turn_desk.specs.declared.view.View.{View};
ghost use Rattle.turn_desk.specs.Story.{notes_of, entered, left, Adds};

use crate::kept::Kept;

/// What a turn adds to what its seat had seen: notes of other seats, and then those of the turn.
pub fn turns_add_own_notes<V: Kept>()
    ensures turn { (v during after : View V.Note V.Origin) (found more told : List V.Note) → during ≡ entered v found → IsPrefix v.seen found
        → notes_of V.number v.number found ≡ v.mine → notes_of V.number v.number v.seen ≡ v.mine → told ≡ found ++ more → after ≡ left during told
        → Adds V.number v more after }

    // What a story has after a prefix with all notes of a seat is of other seats.
    ensures rest { (k : ℕ) (seen story : List V.Note) → IsPrefix seen story → notes_of V.number k story ≡ notes_of V.number k seen
        → (more : List V.Note) × (story ≡ seen ++ more) × All (λ n. V.number n ≢ k) more }
{}
