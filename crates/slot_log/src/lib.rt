//! A place for one worker after another, and the log of what was done there, which tells what becomes of a replay's items.
#![tactic(auto)]

mod laws;
mod note;
mod slot;

pub use laws::{told_replies, told_starts};
pub use note::SlotNote;
pub use slot::{Failed, Gone, Slot};
