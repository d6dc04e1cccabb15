//! Float members of JSON, written as whole numbers: `0.0` becomes `0`, `1.0` becomes `1`, and any other number with `.`,
//! `e` or `E` is refused.
#![tactic(auto)]

mod error;
mod folding;
mod laws;
mod piece;

pub use error::FoldError;
pub use folding::fold_floats;
pub use laws::{compact_text_stays, folding_keeps};

#[cfg(test)]
mod tests;
