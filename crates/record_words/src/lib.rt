//! What a recorder of keyed payloads replies, what a history of its calls is, and what it is that a capture was recorded
//! by several threads.
#![tactic(auto)]

mod answered;
mod index;
mod laws;
mod note;
mod state;

pub use answered::{Answered, LineAnswer};
pub use index::{first_of_its_key_holds_it, indexes_grow, keys_are_compared, keys_held_grow};
pub use laws::{
    lines_in_order_make_a_record, one_thread_has_one_record, stories_add_each_key_once,
    stories_make_records, what_is_added_is_fresh,
};
pub use note::{FullNote, RecordCall, RecordNote, RecordReply};
pub use state::RecorderState;
