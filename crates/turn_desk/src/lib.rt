//! A lock with a history. One value lies in it, and a turn takes the value out and puts it back.
//! The value stores its story, a list of notes, each with the number of the seat that wrote it.
//! A seat knows a prefix of the story, and all of its own notes. Each turn finds a story that goes on from it.
#![tactic(auto)]

mod desk;
mod kept;
mod laws;
mod rule;
mod seat;
#[cfg(test)]
mod tests;
mod view;

pub use desk::{Desk, DeskRefused};
pub use kept::Kept;
pub use laws::turns_add_own_notes;
pub use seat::Seat;
pub use view::{Joined, View};
