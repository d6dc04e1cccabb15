//! The book: an archive in which each key is recorded once. An index by key finds what is recorded already.
#![tactic(auto)]

mod ack;
mod book;
mod index;
mod laws;
#[cfg(test)]
mod tests;

pub use ack::{Ack, FlushError, RecordError, reply_told};
pub use book::Book;
pub use laws::steps_follow_the_entries;
