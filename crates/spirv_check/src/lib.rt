//! The structure of a SPIR-V module: its header, the framing of its instructions, its memory model, its functions and its
//! entry points (SPIR-V 1.0, sections 2.3, 2.4 and 3.32). Nothing else of a module is validated.
#![tactic(auto)]

mod error;
mod laws;
mod module;
mod names;
mod seen;
mod shape;

pub use error::SpirvError;
pub use laws::{one_answer, one_framing};
pub use module::check;
pub use shape::{EntryPoint, Shape};

#[cfg(test)]
mod tests;
