//! The structures of graphics and compute pipelines of Vulkan 1.0.
#![tactic(auto)]

mod blend;
mod compute;
mod depth;
mod graphics;
mod raster;
mod stage;
mod vertex;
mod viewport;

pub use blend::{BlendAttachment, ColorBlend, Dynamic};
pub use compute::ComputePipeline;
pub use depth::{DepthStencil, StencilOp};
pub use graphics::GraphicsPipeline;
pub use raster::{Multisample, Rasterization};
pub use stage::{MapEntry, SpecInfo, Stage};
pub use vertex::{InputAssembly, Tessellation, VertexAttribute, VertexBinding, VertexInput};
pub use viewport::{Scissor, Viewport, Viewports};
