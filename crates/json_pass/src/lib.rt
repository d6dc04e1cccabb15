//! Render passes as JSON.
#![tactic(auto)]

mod attachment;
mod render_pass;
mod subpass;

/// This crate, for its `impl`s of `Json`.
pub struct Pass;
