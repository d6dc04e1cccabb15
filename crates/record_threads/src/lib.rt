//! A recorder that threads share: each call is one note of one legal story, and what several threads recorded of a capture
//! is a record of its lines.
#![tactic(auto)]

mod laws;
mod prepared;
mod recorder;
mod shelf;
#[cfg(test)]
mod tests;

pub use laws::{seats_have_their_calls, threads_make_records, ties_tell_the_payload};
pub use prepared::{Prepared, prepare};
pub use record_words::{RecordCall, RecordNote, RecordReply};
pub use recorder::{BookDesk, BookRefused, Receipt, RecordSeat, Recorder, flush_at, record_at};
pub use shelf::Shelf;
