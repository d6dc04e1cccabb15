//! The shipped driver. It creates nothing: it answers each state with the code of the first rule of its kind that the state
//! breaks, 1 to 41, or with 0, and remembers the states with code 0.
#![tactic(auto)]

mod check_driver;
mod created;
mod driver;
mod laws;
#[cfg(test)]
mod tests;

pub use check_driver::CheckDriver;
pub use driver::Driver;
pub use laws::code_by_references;
