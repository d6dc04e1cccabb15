//! Tests of states that cross the crates of words, JSON, payloads and capture lines. No code is here: a test build proves
//! the drop of every type below it anew, so the tests that touch a state stand in this one crate.
#![tactic(auto)]

#[cfg(test)]
mod tests;
