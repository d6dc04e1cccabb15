//! The texts that the program prints on its output. Each call appends one text, or nothing where it is refused.
#![tactic(auto)]

mod cause;
mod hash_text;
mod line_cause;
mod list_text;
mod put_text;
mod record_text;

pub use cause::CauseText;
pub use hash_text::push_hash;
pub use list_text::push_list;
pub use put_text::push_put;
pub use record_text::{is_refused, push_record};
