//! The lines of a capture, recorded in order in a book.
#![tactic(auto)]

mod capture;
mod laws;
mod line;
mod recording;

pub use capture::{CaptureStop, Captured, record_capture};
pub use laws::records_add_each_key_once;
pub use line::{Lines, NextLine};
pub use recording::{RecordStop, Report, record_lines};
