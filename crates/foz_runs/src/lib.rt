//! Runs of the commands, as tables: the words, the file, the input and the calls that fail, and what comes of them.
#![tactic(auto)]

#[cfg(test)]
mod tests;
