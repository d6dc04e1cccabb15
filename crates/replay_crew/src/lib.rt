//! The crew of a replay: for each slot a loop that asks the board for work and has workers create the items.
#![tactic(auto)]

mod asking;
mod jobs;
mod kit;
mod loader;
mod reading;
mod running;

pub use jobs::Jobs;
pub use kit::Kit;
pub use loader::Loader;
pub use running::{SlotEnd, run_slot};
pub use slot_log::{Failed, Gone, Slot, SlotNote};
