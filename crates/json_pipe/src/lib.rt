//! Pipelines as JSON.
#![tactic(auto)]

mod blend;
mod compute;
mod depth;
mod graphics;
mod raster;
mod stage;
mod vertex;
mod viewport;

/// This crate, for its `impl`s of `Json`.
pub struct Pipe;
