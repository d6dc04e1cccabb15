//! The replay of an archive over workers: its items, the slots that workers run in, and what really happened.
#![tactic(auto)]

mod laws;
mod replayed;

pub use laws::unanswered_by_failed_starts;
pub use replayed::{Replayed, replay_entries};
