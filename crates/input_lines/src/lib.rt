//! The lines of an input, one by one.
#![tactic(auto)]

mod laws;
mod line;

pub use laws::lines_are_few;
pub use line::first_line;

#[cfg(test)]
mod tests;
