//! Entries of an archive: where one stands whole at the beginning of some bytes, and whether it is undamaged.
#![tactic(auto)]

mod cut;
mod damage;
mod first;
mod limits;
mod spelled;

pub use cut::{Cut, Entry};
pub use damage::{EntryCause, check};
pub use first::{first_entry, first_head};
pub use limits::{COUNT_LIMIT, END_LIMIT, HEAD_LEN, HEADER_LEN, PAYLOAD_LIMIT};
pub use spelled::{lay_entry, spell_head, stored_head, write_entry};

#[cfg(test)]
mod tests;
