//! The states that a capture holds: their words, the keys that these give, and the states that they refer to.
#![tactic(auto)]

mod key;
mod law;
mod references;
mod state;

pub use key::{key_of, words_of};
pub use law::words_tell_states;
pub use references::refs_of;
pub use state::State;
