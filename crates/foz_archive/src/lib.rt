//! What stands in an archive, and how entries are added so that a crash leaves whole batches.
#![tactic(auto)]

mod archive;
mod header;
mod laws;
mod opening;
mod push;
mod read;
mod refusal;
mod scanned;

pub use archive::Archive;
pub use laws::{entries_are_bounded, pushed_entries_are_undamaged, readings_are_unique};
pub use opening::{OpenCause, OpenRefused, Opening};
pub use push::{PushError, fits};
pub use read::read_disk;
pub use refusal::{ArchiveError, ReadError, ScanError};
pub use scanned::{Scanned, scan};

#[cfg(test)]
mod tests;
