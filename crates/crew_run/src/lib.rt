//! A replay over several slots, each in a thread of its own.
#![tactic(auto)]

mod crew;
#[cfg(test)]
mod meeting;
mod seating;
#[cfg(test)]
mod tests;
mod threads;

pub use crew::run_all;
pub use replay_board::CoreRefused;
