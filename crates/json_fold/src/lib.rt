//! The members of JSON objects, read and written by what a structure consists of.
#![tactic(auto)]

mod digits;
mod fault;
mod json;
mod leaf;
mod lists;
mod members;
mod nested;
mod path;
mod reader;
mod writer;

pub use digits::hash_text;
pub use fault::{FieldCause, FieldError};
pub use json::Json;
pub use lists::{four_units_of, numbers_of, refs_of, structures_of};
pub use members::{bytes_of, list_of, open, ref_of, text_of, u32_of, unit_of};
pub use nested::{optional_of, structure_of};
pub use reader::FieldReader;
pub use writer::ObjectWriter;
