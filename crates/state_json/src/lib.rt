//! States as JSON: the text with its floats folded, and the objects of all kinds but shader modules, which have one form
//! in payloads and another in capture lines.
#![tactic(auto)]

mod kind;
mod states;
mod text;

pub use kind::JsonKind;
pub use states::{state_from, value_of};
pub use text::{ParseError, parse};
