//! The dependency graph of an archive: what class each entry has, and on which items each item stands.
#![tactic(auto)]

mod class;
mod graph;
mod item;
mod survey;

pub use class::Class;
pub use graph::{Graph, plan_of};
pub use item::{find_entry, item_entry};

#[cfg(test)]
mod tests;
