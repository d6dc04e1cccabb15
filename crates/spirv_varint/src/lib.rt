//! The words of a SPIR-V module as varints: seven bits in a byte, the low ones first, and the high bit set on all but
//! the last byte of a word.
#![tactic(auto)]

mod error;
mod laws;
mod reading;
mod writing;

pub use error::VarintError;
pub use laws::one_reading;
pub use reading::decode;
pub use writing::{encode, one_shortest};

#[cfg(test)]
mod tests;
