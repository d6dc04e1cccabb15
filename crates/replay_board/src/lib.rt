//! One scheduler for all workers. It lies in a desk, and each slot's loop has a seat of its own, which makes that slot's events:
//! a call takes the scheduler out for one turn. How far the run has come is published after each turn that adds events,
//! so that a loop with nothing to do waits on the counts and not on the desk.
#![tactic(auto)]

mod asker;
mod board;
mod call;
mod note;
mod origin;
mod seat;
mod settle;
mod shared;
#[cfg(test)]
mod tests;

pub use asker::Asker;
pub use board::{Board, CoreRefused};
pub use note::BoardNote;
pub use seat::BoardSeat;
