//! Objects of the outside as traits: what they tell, and when they may fail.
#![tactic(auto)]

mod call;
mod call_count;
mod disk;
mod fault;
mod file_disk;
mod files;
mod folder_shelf;
mod lists;
mod memory_disk;
mod memory_shelf;
mod memory_sink;
mod memory_source;
mod ram_disk;
mod shelf;
mod sink;
mod source;
mod std_streams;
mod synced;

pub use call::Call;
pub use call_count::Planned;
pub use disk::Disk;
pub use fault::Failed;
pub use file_disk::FileDisk;
pub use folder_shelf::FolderShelf;
pub use memory_disk::MemDisk;
pub use memory_shelf::MemShelf;
pub use memory_sink::MemSink;
pub use memory_source::MemSource;
pub use ram_disk::RamDisk;
pub use shelf::{Mode, Shelf, TakeError};
pub use sink::{Sink, write_all};
pub use source::Source;
pub use std_streams::{StdSink, StdSource};
pub use synced::{cut_synced, write_synced};

#[cfg(test)]
mod tests;
