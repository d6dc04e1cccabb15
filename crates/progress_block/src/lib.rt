//! A cell in which one writer publishes counts, and many readers read whole rows that never go back.
#![tactic(auto)]

mod cell_row;
mod ends;
mod progress;
mod rule;
#[cfg(test)]
mod tests;
mod view;

pub use ends::{Reader, Writer};
pub use progress::Progress;
