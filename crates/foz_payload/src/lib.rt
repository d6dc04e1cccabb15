//! The payloads of states: JSON, and for a shader module its words as varints after a zero byte.
#![tactic(auto)]

mod kinds;
mod laws;
mod module_head;
mod parts;
mod reading;
mod unreadable;
mod writing;

/// This crate, for its `impl`s of `Json`.
pub(crate) struct Payload;

pub use laws::one_meaning;
pub use reading::state_of;
pub use unreadable::Unreadable;
pub use writing::payload_of;
