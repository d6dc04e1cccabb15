//! A slot whose workers are programs of the system. They read frames on their standard input and answer on their
//! standard output. It is the outer edge of a replay: what a program does, nobody can promise, so no log is told.
#![tactic(auto)]

mod crew;
mod program;
mod slot;
#[cfg(test)]
mod tests;

pub use crew::crew_of;
pub use slot::ProcessSlot;
