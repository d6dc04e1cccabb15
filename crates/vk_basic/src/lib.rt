//! The basic structures of Vulkan 1.0: samplers, layouts and shader modules.
#![tactic(auto)]

mod pipeline_layout;
mod sampler;
mod set_layout;
mod shader_module;

pub use pipeline_layout::{PipelineLayout, PushRange};
pub use sampler::Sampler;
pub use set_layout::{Binding, SetLayout};
pub use shader_module::ShaderModule;
