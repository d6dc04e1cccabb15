//! What commands share: why they stop and how they end, the input that they read, and the files that they read and write.
#![tactic(auto)]

mod complaint;
mod ending;
mod files;
mod input;
mod recording;
mod stop;
mod work;

pub use complaint::complain;
pub use ending::{Printout, finish};
pub use files::{read_file, write_file};
pub use input::read_input;
pub use recording::{OneLine, Recording, only_reply, record_in_file};
pub use stop::{Stop, status_of};
pub use work::{Work, Worked};
