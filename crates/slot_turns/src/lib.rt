//! What the loop of one slot sees of the board that it shares with other slots.
#![tactic(auto)]

mod slot_turns;

pub use slot_turns::SlotTurns;
