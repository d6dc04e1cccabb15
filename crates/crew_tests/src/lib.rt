//! Whole loops of one slot over a scheduler, with workers in memory.
#![tactic(auto)]

mod solo;

pub use solo::{Solo, SoloSeat};

#[cfg(test)]
mod tests;
