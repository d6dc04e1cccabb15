//! The replay of an archive in this process: one slot, and a driver that answers each item.
#![tactic(auto)]

mod checked;
mod item;
mod laws;
mod run;

pub use checked::{Checked, check_entries};
pub use laws::verdicts_are_fates_of_codes;

#[cfg(test)]
mod tests;
