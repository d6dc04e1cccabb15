//! The basic structures as JSON.
#![tactic(auto)]

mod pipeline_layout;
mod sampler;
mod set_layout;

/// This crate, for its `impl`s of `Json`.
pub struct Basic;
