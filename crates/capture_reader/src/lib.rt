//! A capture in an input, a line at a time, as a recorder takes it.
#![tactic(auto)]

mod reader;

pub use reader::CaptureReader;

#[cfg(test)]
mod tests;
