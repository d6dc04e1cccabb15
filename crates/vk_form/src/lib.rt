//! What every structure of a state is made of: fields by name, the plain value that they are, and the words of it.
#![tactic(auto)]

mod copying;
mod law;
mod structure;
mod writer;

pub use copying::{copies, optional_copy};
pub use law::words_tell_values;
pub use structure::Structure;
pub use writer::WordWriter;
