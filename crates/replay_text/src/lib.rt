//! The text of the commands that replay an archive: a line for each entry, and two that count.
#![tactic(auto)]

mod counts;
mod laws;
mod lines;
mod overall;
mod text;
mod words;

pub use laws::decided_is_answered;
pub use overall::Overall;
pub use text::push_replay;

#[cfg(test)]
mod tests;
