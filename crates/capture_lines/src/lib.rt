//! Capture lines: a state as one line of text, its kind word, a blank and its JSON object.
#![tactic(auto)]

mod captured;
mod code;
mod cutting;
mod error;
mod kind;
mod module;
mod reading;
mod writing;

pub use error::LineError;
pub use kind::kind_word;
pub use reading::read_line;
pub use writing::write_line;
