//! Keys, lists, texts, numbers and digits that the other crates share.
#![tactic(auto)]

mod bytes;
mod hex;
mod key;
mod memory;
mod name;
mod row;
mod unit;

pub use bytes::{get_le32, get_le64, le32_bytes, le64_bytes, put_le32, put_le64};
pub use hex::{hex16, read_hex, read_hex16};
pub use key::Key;
pub use memory::NoMemory;
pub use name::Name;
pub use row::Row;
pub use unit::Unit;
