//! The words after the program's name.
#![tactic(auto)]

mod command;
mod number;

pub use command::{ArgError, Command, command_for, command_of};

#[cfg(test)]
mod tests;
