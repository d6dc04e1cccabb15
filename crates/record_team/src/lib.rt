//! The lines of a capture, recorded in one book by several threads.
#![tactic(auto)]

mod capture;
mod mate;
mod meet;
mod merge;
mod record;
mod team;
#[cfg(test)]
mod tests;
mod thread;

pub use capture::record_capture_by_team;
pub use meet::{Meet, NoMeeting};
pub use record::{Teamed, record_by_team};
