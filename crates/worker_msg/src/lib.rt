//! The frames between a crew, which hands out work, and its workers: the length of a body in four bytes, low byte first,
//! and the body, whose first byte is its kind. They are written in one way, and read from pieces cut anywhere.
#![tactic(auto)]

mod error;
mod feed;
mod front;
mod heads;
mod laws;
mod msg;
mod pieces;
mod reading;
mod reply_bytes;
mod side;
mod store;
mod writing;

pub use error::TakeFrame;
pub use feed::Feed;
pub use heads::{hello_frame, quit_frame, reply_frame};
pub use laws::{any_pieces, bad_stays_bad, crew_frames_are_short, one_front, one_split};
pub use msg::Msg;
pub use side::Side;
pub use writing::{lay_msg, write_msg};

#[cfg(test)]
mod tests;
