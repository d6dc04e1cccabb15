//! The structures of a render pass of Vulkan 1.0.
#![tactic(auto)]

mod attachment;
mod render_pass;
mod subpass;

pub use attachment::{Attachment, AttachmentRef};
pub use render_pass::RenderPass;
pub use subpass::{Subpass, SubpassDependency};
