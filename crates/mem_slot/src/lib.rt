//! A slot in memory, whose workers do as they are told.
#![tactic(auto)]

mod answer;
mod frame;
mod mem;
mod tape;

pub use mem::{Act, MemSlot};
