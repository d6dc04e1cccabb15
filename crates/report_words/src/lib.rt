//! What several reports print alike: hashes as digits, and the words of why an entry is damaged or a member can't be read.
#![tactic(auto)]

mod damage;
mod digits;
mod field;

pub use damage::Damage;
pub use digits::Hash;
pub use field::field_word;

#[cfg(test)]
mod tests;
