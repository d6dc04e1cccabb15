use crate::attachment::Attachment;
use crate::subpass::{Subpass, SubpassDependency};
use foz_words::{NoMemory, Row};
use std::alloc::Global;
use vk_form::{Structure, WordWriter, copies};

/// A render pass (Vulkan's `VkRenderPassCreateInfo`).
#[derive(Debug, Drop)]
pub struct RenderPass {
    pub flags: u32,
    pub attachments: Row<Attachment>,
    pub subpasses: Row<Subpass>,
    pub dependencies: Row<SubpassDependency>,
}

#[tactic(auto, unfolding(crate::specs::Tables::render_pass, crate::specs::Plain::render_pass))]
impl Structure for RenderPass {
    ghost use Rattle.vk_pass.specs.Tables as table;
    ghost use Rattle.vk_pass.specs.Plain as plain;
    ghost use Rattle.vk_pass.specs.Made as made;
    ghost use Rattle.vk_pass.specs.Back as back;

    ghost fields = { table.render_pass };

    ghost plain = { plain.render_pass };

    ghost of_plain = { made.render_pass };

    ghost back = { back.render_pass };

    fn copy(&self, alloc: Global) -> Result<RenderPass, NoMemory> {
        Ok(RenderPass {
            flags: self.flags,
            attachments: copies(alloc, &self.attachments)?,
            subpasses: copies(alloc, &self.subpasses)?,
            dependencies: copies(alloc, &self.dependencies)?,
        })
    }

    fn put_words(&self, out: &mut WordWriter) {
        out.number(self.flags);
        out.structures(&self.attachments);
        out.structures(&self.subpasses);
        out.structures(&self.dependencies);
    }
}
